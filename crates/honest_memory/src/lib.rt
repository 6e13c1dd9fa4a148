//! What loose words come to where they are those that memory has: the meaning where nothing is loose.
#![tactic(auto)]

mod laws;

pub use laws::memory_is_honest;
