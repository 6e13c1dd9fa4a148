//! Compiled sources run over honest flat memory: the bytes and the end are those of the source's meaning.
#![tactic(auto)]

mod running;

pub use flat_machine::{ImageEnd, Ran};
pub use running::run_compiled;
