//! The line that tells how a run of an image ended.
#![tactic(auto)]

mod line;
mod record;
mod report;

pub use line::{Line, MAX_LINE_BYTES};
pub use record::Record;
pub use report::report_text;

#[cfg(test)]
mod tests;
