//! The program of a made source: that there is one, that it keeps the typing rules and all limits, and how it ends.
#![tactic(auto)]

mod laws;

pub use laws::made_sources_are_sound;
