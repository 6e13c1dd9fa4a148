//! One secure memory: a hash tree, a log, pads over private blocks and open words, on one bus.
#![tactic(auto)]

mod accesses;
mod laws;
mod memory;
mod pads;
mod path;
mod words;

pub use laws::{accesses_are_ideal, outside_events_keep, private_writes_are_padded};
pub use memory::{Parts, SecureMemory};
pub use pads::PrivatePad;
