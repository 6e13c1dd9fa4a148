//! Why a call of the log gives up.
use crate::sums::MultisetSum;

/// A block was read whose stamp is above the count of block writes.
#[derive(Clone, Copy, Debug, PartialEq, Eq)]
pub struct Changed {
    /// The number of the event of that read, counted from 0.
    pub event: u64,
}

/// Why a check did not pass.
#[derive(Clone, Copy, Debug, PartialEq, Eq)]
pub enum LogCause {
    /// A block was read whose stamp is above the count of block writes.
    Future {
        /// The number of the event of that read, counted from 0.
        event: u64,
    },
    /// The sums of the epoch differ.
    Sums {
        /// The sum of what was read.
        read: MultisetSum,
        /// The sum of what was written.
        written: MultisetSum,
    },
}
