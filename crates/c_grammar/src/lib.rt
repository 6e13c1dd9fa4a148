//! The grammar of the source language, and its programs as trees.
#![tactic(auto)]

mod expr;
mod item;
mod operators;
mod stmt;

pub use expr::Expr;
pub use item::{Item, Kind3, Parameter, Program, Storage, Value};
pub use operators::{is_unary_operator, precedence};
pub use stmt::Stmt;
