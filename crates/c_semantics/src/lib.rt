//! What a program of the source language means: its definition over programs whose names are resolved, and the laws
//! that follow from it.
#![tactic(auto)]

mod laws;
mod tree;

pub use laws::{
    fewer_turns_give_a_prefix, more_turns_change_nothing, no_loose_class_reads_no_entry,
    noting_changes_nothing_else, statements_only_add, turns_are_used, turns_of_each_meaning,
};
pub use tree::{Expr, Function, Object, Program, Stmt, Variable};
