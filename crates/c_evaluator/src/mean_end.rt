//! How a run of a program ends.

/// How a run ends. `at` is the number of a token, counted from 0.
#[derive(Clone, Copy, Debug, PartialEq, Eq)]
pub enum MeanEnd {
    /// `main` has returned.
    Ended,
    /// An index is not below the length of its array; `at` is the sign `[`.
    Index { at: u32 },
    /// A divisor is zero; `at` is the operator.
    Divide { at: u32 },
    /// A loop turn would begin beyond the bound.
    Turns,
}
