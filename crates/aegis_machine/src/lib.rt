//! The machine: the secure program, run over a bus to memory that is not trusted.
#![tactic(auto)]

mod ends;
mod guarded;
mod held;
mod instructions;
mod laws;
mod machine;
mod program;
mod secure;
mod store;
mod turns;

pub use ends::{End, has_fuel};
pub use guarded::Guarded;
pub use held::{Held, MAX_HELD};
pub use instructions::{Done, Fault, instruction, permits};
pub use laws::{boundaries_follow, secure_memory_meets_bus, steps_stay_tied};
pub use machine::{Machine, run};
pub use store::Store;
pub use turns::Turn;

#[cfg(test)]
mod tests;
