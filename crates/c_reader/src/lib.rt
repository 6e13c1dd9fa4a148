//! Reads the tokens of a source text as a program.
#![tactic(auto)]

mod error;
mod item;
mod laws;
mod list;
mod reading;

pub use error::SyntaxError;
pub use laws::one_program;
pub use reading::read_program;
