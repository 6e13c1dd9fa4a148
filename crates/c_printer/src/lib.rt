//! Programs of the source language as texts.
#![tactic(auto)]

mod laws;
mod printing;
#[cfg(test)]
mod tests;

pub use laws::read_is_printable;
pub use printing::print_program;
