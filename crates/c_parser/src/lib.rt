//! Reads tokens from left to right, as expressions and as statements.
#![tactic(auto)]

mod block;
mod cursor;
mod expression;
mod fault;
mod laws;
mod statement;

pub use block::braced;
pub use cursor::Cursor;
pub use fault::Fault;
pub use laws::{reads_programs, stops_at_deep, stops_at_expected};
pub use statement::type_name;
