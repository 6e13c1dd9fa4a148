//! Flat code: a list of simple operations on numbered cells, into which programs are lowered and of which instruction words
//! are made. What it means stands in the definitions.
#![tactic(auto)]

mod code;
mod laws;
mod ops;

pub use code::{Cell, Ir};
pub use laws::steps_only_add;
pub use ops::Op;
