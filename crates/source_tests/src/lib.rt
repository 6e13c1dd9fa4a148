//! Tests of the crates that read sources. What they refuse stands in the rows of types_list.
#![tactic(auto)]

#[cfg(test)]
mod names;
#[cfg(test)]
mod programs;
#[cfg(test)]
mod tokens;
