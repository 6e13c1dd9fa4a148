//! Untrusted code that runs while the secure program is suspended.
#![tactic(auto)]

mod laws;
mod phase;
mod words;

pub use laws::phases;
pub use phase::{MAX_INSTRUCTIONS, UntrustedEnd, run_untrusted};
