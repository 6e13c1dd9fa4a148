//! Types and limits that every other crate stands on: places, blocks and stamps of off-chip memory, keys, names,
//! the operators of the source language, and the one error of a call that only memory can stop.
#![tactic(auto)]

pub mod limits;
mod memory;
mod name;
mod operators;
mod stamps;
mod storage;

pub use memory::OutOfMemory;
pub use name::Name;
pub use operators::{BinaryOp, UnaryOp};
pub use stamps::Stamps;
pub use storage::{Block, Key, Keys, Place};
