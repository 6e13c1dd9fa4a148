//! From the bus machine of a trace to the ideal machine: where the reads of the trace are faithful, both are one.
#![tactic(auto)]

mod laws;

pub use laws::{
    counts_are_of_steps, cuts_back, faithful_runs_are_fronts, faithful_runs_are_ideal,
    runs_on_tree_are_loosely_ideal, same_machines_step_alike,
};
