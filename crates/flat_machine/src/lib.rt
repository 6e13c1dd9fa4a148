//! Images run over flat memory: the processor alone, with no cache, tree, log or untrusted code, under a number of instructions.
#![tactic(auto)]

mod machine;
mod ran;

pub use machine::run_image;
pub use ran::{ImageEnd, Ran};
