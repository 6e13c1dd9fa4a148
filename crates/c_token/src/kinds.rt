//! Tokens, and why a text has none.
use crate::signs::Sign;
use crate::words::Word;
use aegis_num::Name;
use std::alloc::{AllocError, AllocFailed};
use thiserror::Error;

/// What a token is.
#[derive(Clone, Copy, Debug, PartialEq, Eq)]
pub enum Kind {
    /// A name, which is no word.
    Name(Name),
    /// A number from 0 to 4294967295.
    Number {
        /// What it counts.
        value: u32,
        /// Whether it is unsigned: it has the suffix `u` or `U`, or its value is above 2147483647.
        unsigned: bool,
    },
    /// A word.
    Word(Word),
    /// A sign.
    Sign(Sign),
}

/// A token in its text.
#[derive(Clone, Copy, Debug, PartialEq, Eq)]
pub struct Token {
    /// What it is.
    pub kind: Kind,
    /// The place of its first byte in the text, counted from 0.
    pub at: u32,
}

/// The first fault of a text. `at` is the place of the first byte of the token or comment that is faulty.
#[derive(Clone, Copy, Debug, PartialEq, Eq, Error)]
pub enum TokenError {
    /// A byte that begins no token, no comment and no blank.
    #[error("byte {at}: no token begins with this byte")]
    BadByte { at: u32 },
    /// A comment from `/*` on that does not end.
    #[error("byte {at}: the comment does not end")]
    OpenComment { at: u32 },
    /// A name of more than 31 bytes.
    #[error("byte {at}: the name is longer than 31 bytes")]
    LongName { at: u32 },
    /// A number that begins with 0 and a decimal digit, or with `0x` and no digit,
    /// or that a letter, a digit or `_` follows directly.
    #[error("byte {at}: the number is not well formed")]
    BadNumber { at: u32 },
    /// A number above 4294967295.
    #[error("byte {at}: the number is above 4294967295")]
    BigNumber { at: u32 },
    /// Memory ran out.
    #[error("out of memory")]
    OutOfMemory,
}

impl From<AllocError> for TokenError {
    ghost use Rattle.std.specs.Prelude.{◌≡◌};
    ghost use Rattle.c_token.specs.declared.kinds.TokenError.TheVariants.{OutOfMemory};

    ghost from_gives = { λ _ error. error ≡ OutOfMemory };

    fn from(_error: AllocError) -> TokenError {
        TokenError::OutOfMemory
    }
}

impl<T: Drop> From<AllocFailed<T>> for TokenError {
    ghost use Rattle.std.specs.Prelude.{◌≡◌};
    ghost use Rattle.c_token.specs.declared.kinds.TokenError.TheVariants.{OutOfMemory};

    ghost from_gives = { λ _ error. error ≡ OutOfMemory };

    fn from(_error: AllocFailed<T>) -> TokenError {
        TokenError::OutOfMemory
    }
}
