//! Why a text is no script.
use thiserror::Error;

/// The first fault of a script, or want of memory. `n` is the number of the faulty line, counted from 1.
#[derive(Clone, Copy, Debug, PartialEq, Eq, Error)]
pub enum ScriptError {
    /// A line whose fields are no line of the grammar in number or words, or that holds a byte other than
    /// printable ASCII, space and tab.
    #[error("line {n}: this is no line of a script")]
    Line { n: u32 },
    /// A field where a number has to stand, and none does.
    #[error("line {n}: a number is not well formed or above 4294967295")]
    Number { n: u32 },
    /// A field where bytes in hexadecimal have to stand, and none do.
    #[error("line {n}: the bytes are no pairs of hexadecimal digits")]
    Hex { n: u32 },
    /// Bytes beyond the 65,536 open ones or beyond the 72 of a block, or a slot above 15.
    #[error("line {n}: a place or a slot is out of range")]
    Range { n: u32 },
    /// A `start` after an `at` or `suspend` line, or a number below that of an earlier line of its kind.
    #[error("line {n}: the change comes behind a later one")]
    Order { n: u32 },
    /// The 4,097th change, or more than 65,536 bytes of all changes.
    #[error("line {n}: too many changes, or too many bytes of changes")]
    TooMany { n: u32 },
    /// Memory ran out.
    #[error("out of memory")]
    OutOfMemory,
}
