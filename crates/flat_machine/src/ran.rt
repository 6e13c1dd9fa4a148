//! How the run of an image ended.

/// How the run of an image ended.
#[derive(Clone, Copy, Debug, PartialEq, Eq)]
pub enum ImageEnd {
    /// The program came to its exit, and every released byte was taken.
    Ended,
    /// An index is not below the length of its array; `at` is the place that the program gave.
    Index { at: u32 },
    /// A divisor is zero; `at` is the place that the program gave.
    Divide { at: u32 },
    /// As many instructions as there was fuel were done, and the program has not ended.
    FuelOut,
    /// A released byte was not taken.
    WriteFault,
}

/// How the run of an image ended, and after how many instructions.
#[derive(Clone, Copy, Debug, PartialEq, Eq)]
pub struct Ran {
    pub end: ImageEnd,
    /// How many instructions were done, the last one included.
    pub retired: u64,
}
