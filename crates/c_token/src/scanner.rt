//! The tokens of a text.
ghost use Rattle.std.specs.Prelude.{◌≡◌, ◌≢◌, ◌≤◌, length, vec_len, Ok, Err, IfOk, IfErr};
ghost use Rattle.c_token.specs.TextTokens.{tokens_of};

use crate::front::Front;
use crate::kinds::{Token, TokenError};
use aegis_num::limits::MAX_SOURCE_BYTES;
use std::alloc::Global;

/// The tokens of a text, in order, or its first fault (ISO/IEC 9899, section 6.4).
/// Blanks and comments aside, each token is the longest one that stands in its place.
/// The text has at most `MAX_SOURCE_BYTES` bytes.
pub fn tokens(alloc: Global, text: &[u8]) -> Result<Vec<Token>, TokenError>
    requires { length text.now ≤ MAX_SOURCE_BYTES }
    ensures tokens { IfOk result (λ tokens. tokens_of text.now ≡ Ok tokens.items) }
    ensures fault { IfErr result
        (λ error. error ≢ TokenError.OutOfMemory → tokens_of text.now ≡ Err error) }
    // No token is empty.
    ensures count { IfOk result (λ tokens. vec_len tokens ≤ length text.now) }
{
    let mut tokens = Vec::new(alloc);
    let mut at: usize = 0;
    'each: while at < text.len() {
        let place = at as u32;
        let Front { kind, len } = Front::at(&text[at..], place)?;
        if let Some(kind) = kind {
            tokens.push(Token { kind, at: place })?;
        }
        at += len;
    }
    Ok(tokens)
}
