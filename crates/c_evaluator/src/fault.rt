//! Why an evaluation is over.

/// Why an evaluation is over before its end.
#[derive(Clone, Copy, Debug, PartialEq, Eq)]
pub enum Fault {
    /// An index is out of range at the sign `[` that is token `at`, counted from 0.
    Index { at: u32 },
    /// A divisor is zero at the operator that is token `at`, counted from 0.
    Divide { at: u32 },
    /// A loop turn would begin beyond the bound.
    Turns,
    /// Memory ran out.
    OutOfMemory,
}

/// An evaluation is over before its end. The machine keeps the fault, so that the answer of each step fits in registers.
#[derive(Clone, Copy, Debug, PartialEq, Eq)]
pub struct Stopped;
