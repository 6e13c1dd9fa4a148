//! What the names of a program stand for, and which of them are in scope (ISO/IEC 9899, section 6.2.1).
#![tactic(auto)]

mod declaration;
mod items;
mod names;

pub use declaration::{Binding, Declaration, Entity};
pub use items::{class_of, declaration_of, local, name_of, token_of};
pub use names::Names;
