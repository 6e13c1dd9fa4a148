//! The script of the changes that an adversary makes to off-chip memory: its text, and the rules that it keeps.
#![tactic(auto)]

mod bytes;
mod change;
mod draft;
mod error;
mod fault;
mod fields;
mod form;
mod latest;
mod laws;
mod reading;
mod script;
mod value;

pub use bytes::Bytes;
pub use change::{Change, Target, What, When};
pub use error::ScriptError;
pub use laws::texts_keep_rules;
pub use reading::read_script;
pub use script::{Changes, Script};
