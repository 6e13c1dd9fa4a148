//! The instruction table: from words to instructions and back, one word for each instruction, and the listing of code.
#![tactic(auto)]

mod decoding;
mod fields;
mod instruction;
mod printing;
mod table;

pub use decoding::{decode, encode_is_injective};
pub use instruction::Instr;
pub use printing::listing;
pub use table::encode;
