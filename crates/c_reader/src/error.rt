//! Why a list of tokens is no program.
use thiserror::Error;

/// Why a list of tokens is no program. Tokens are counted from 0.
#[derive(Clone, Copy, Debug, PartialEq, Eq, Error)]
pub enum SyntaxError {
    /// The first token with which the tokens up to it begin no program, or the number of tokens
    /// where they end too soon.
    #[error("token {token}: unexpected")]
    Expected {
        /// The number of the token.
        token: u32,
    },
    /// The token that opens a level too many.
    #[error("token {token}: nested too deep")]
    Deep {
        /// The number of the token.
        token: u32,
    },
    /// Memory ran out.
    #[error("out of memory")]
    OutOfMemory,
}
