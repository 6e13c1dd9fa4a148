//! The meaning of programs of the source language, computed: a direct evaluator.
#![tactic(auto)]

mod evaluate;
mod fault;
mod flow;
mod machine;
mod mean_end;
mod nesting;
mod run;

pub use mean_end::MeanEnd;
pub use run::mean_resolved;
