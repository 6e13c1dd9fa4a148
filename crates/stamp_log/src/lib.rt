//! The time-stamped log over blocks off the chip, and offline checks of it.
#![tactic(auto)]

mod causes;
mod laws;
mod lines;
mod log;
mod sums;
mod trace;

pub use causes::{Changed, LogCause};
pub use laws::{foreign_events_keep, lending_changes_contents, offline_checks_suffice};
pub use log::StampLog;
pub use sums::MultisetSum;

#[cfg(test)]
mod tests;
