//! Resolves the names of a program: which declaration each name stands for, and which operator each sign is by the types
//! of its operands (ISO/IEC 9899, sections 6.2.1, 6.3.1.8 and 6.5).
#![tactic(auto)]

mod expressions;
mod items;
mod names;
mod operators;
mod statements;
mod typed;
mod whole;

pub use whole::resolve;
