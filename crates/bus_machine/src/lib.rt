//! The bus machine: the secure program on what came over the bus, whatever that was, and how many events a run may make.
#![tactic(auto)]

mod laws;

pub use laws::{OverBus, bus_in_steps, bus_turns, step_is_on_bus};
