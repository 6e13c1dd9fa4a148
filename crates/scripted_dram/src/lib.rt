//! Off-chip memory that an adversary changes as a script says.
#![tactic(auto)]

mod bytes;
mod due;
mod laws;
mod scripted;
mod storage;

pub use laws::{plain_under_empty_script, same_scripted_memory};
pub use scripted::ScriptedDram;

#[cfg(test)]
mod tests;
