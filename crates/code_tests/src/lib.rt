//! Tests of the crates between flat code and the processor: each instruction of the processor, and images as files.
#![tactic(auto)]

#[cfg(test)]
mod images;
#[cfg(test)]
mod placements;
#[cfg(test)]
mod sources;
#[cfg(test)]
mod steps;
#[cfg(test)]
mod weights;
