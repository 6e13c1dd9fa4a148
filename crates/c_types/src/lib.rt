//! The typing rules of the source language: which programs keep them, and the first place where one is broken
//! (a profile of ISO/IEC 9899, sections 6.2.1, 6.5.2 and 6.8).
#![tactic(auto)]

mod checked;
mod checking;
mod error;
mod expressions;
mod items;
mod site;
mod statements;
mod verdict;

pub use checked::{Checked, Function, Functions, Object, Objects};
pub use checking::check;
pub use error::TypeError;
pub use site::{Home, How, Rule, Site};
