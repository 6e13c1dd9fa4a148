//! How statements and turns of loops are left.

/// How a statement is left.
#[derive(Clone, Copy, Debug, PartialEq, Eq)]
pub enum Flow {
    /// For the next one.
    Completed,
    /// By `break`.
    Broke,
    /// By `continue`.
    Continued,
    /// By `return`, with the value that the machine keeps.
    Returned,
}

/// What comes after a turn of a loop.
#[derive(Clone, Copy, Debug, PartialEq, Eq)]
pub enum Turn {
    /// Another turn, if its condition holds.
    Again,
    /// What comes after the loop.
    Leaves(Flow),
}
