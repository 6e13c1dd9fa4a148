//! The cache of the tree's lines.
#![tactic(auto)]

mod cache;
mod lines;
mod slots;

pub use cache::LineCache;
pub use lines::{Line, Lines, Pins};
