//! Tests of the crates that all layers share.
#![tactic(auto)]

#[cfg(test)]
mod blocks_of_bytes;
#[cfg(test)]
mod classes;
#[cfg(test)]
mod folders_and_sinks;
#[cfg(test)]
mod stamps;
