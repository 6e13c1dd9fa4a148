//! What a program exchanges with the world outside, names for its places, and runs of a machine step by step, as definitions
//! that the source language, flat code and the ideal machine share. The functions state what follows from them.
#![tactic(auto)]

mod naming;
mod runs;
mod traffic;

pub use naming::{elements_have_names, names_keep, names_reach_all};
pub use runs::{end_is_one, ends_in_one_number_of_steps, ends_stay, one_is_longer, runs_join};
pub use traffic::{each_extends, extends_joins};
