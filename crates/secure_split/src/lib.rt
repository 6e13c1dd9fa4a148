//! Programs that keep the typing rules, lowered to flat code.
#![tactic(auto)]

mod calls;
mod code;
mod expressions;
mod functions;
mod homes;
mod layout;
mod lower;
mod numbers;
mod program;
mod rooms;
mod scope;
mod statements;

pub use program::split;
