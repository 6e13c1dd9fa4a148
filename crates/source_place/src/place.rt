//! Which place of a text is asked for.
ghost use Rattle.std.specs.Prelude.{◌≡◌, ◌≢◌, ◌≤◌, length, Ok, Err, IfOk, IfErr};
ghost use Rattle.source_place.specs.Questions.{fault_of, place_of, question_of, token_place};
ghost use Rattle.c_token.specs.TextTokens.{tokens_of};

use aegis_num::limits::MAX_SOURCE_BYTES;
use c_token::{Token, TokenError, tokens};
use std::alloc::Global;

/// What is asked for.
#[derive(Clone, Copy, Debug, PartialEq, Eq)]
pub enum Question {
    /// The byte of this number, counted from 0. The number after all bytes is that of the end.
    Byte(u64),
    /// The token of this number, counted from 0. The number after all tokens is that of the end.
    Token(u64),
}

/// Why no place is shown.
#[derive(Clone, Copy, Debug, PartialEq, Eq)]
pub enum Refusal {
    /// The number is above that of the end.
    Past {
        /// The number of the end.
        last: u64,
    },
    /// The text does not split into tokens.
    NoTokens {
        /// The place of the first fault.
        at: u32,
    },
    /// Memory ran out.
    OutOfMemory,
}

/// What a word and a number ask for: `byte` or `token`.
pub fn asked_by(word: &str, number: u64) -> Option<Question>
    ensures { result ≡ question_of word.now number }
{
    match word {
        "byte" => Some(Question::Byte(number)),
        "token" => Some(Question::Token(number)),
        _ => None,
    }
}

/// The place that is asked for, as the number of bytes before it.
pub fn place(alloc: Global, text: &[u8], question: Question) -> Result<usize, Refusal>
    requires { length text.now ≤ MAX_SOURCE_BYTES }
    ensures place { IfOk result (λ place. place_of question text.now ≡ Ok place) }
    ensures within { IfOk result (λ place. place ≤ length text.now) }
    ensures refused { IfErr result (λ refusal. refusal ≢ Refusal.OutOfMemory
        → place_of question text.now ≡ Err refusal) }
{
    match question {
        Question::Byte(place) => place_of_byte(text, place),
        Question::Token(number) => place_of_token(alloc, text, number),
    }
}

/// The place of a byte or of the end.
fn place_of_byte(text: &[u8], place: u64) -> Result<usize, Refusal>
    ensures value { result ≡ place_of (Question.Byte place) text.now }
    ensures within { IfOk result (λ place. place ≤ length text.now) }
{
    let last = text.len() as u64;
    if place <= last {
        Ok(place as usize)
    } else {
        Err(Refusal::Past { last })
    }
}

/// The place of a token or of the end.
fn place_of_token(alloc: Global, text: &[u8], number: u64) -> Result<usize, Refusal>
    requires { length text.now ≤ MAX_SOURCE_BYTES }
    ensures place { IfOk result (λ place. token_place (tokens_of text.now) text.now number ≡ Ok place) }
    ensures within { IfOk result (λ place. place ≤ length text.now) }
    ensures refused { IfErr result (λ refusal. refusal ≢ Refusal.OutOfMemory
        → token_place (tokens_of text.now) text.now number ≡ Err refusal) }
{
    match tokens(alloc, text) {
        Ok(tokens) => place_among(tokens.as_slice(), text, number),
        Err(error) => Err(refusal_of(error)),
    }
}

/// The place of a token among all tokens of a text, or of the end.
fn place_among(tokens: &[Token], text: &[u8], number: u64) -> Result<usize, Refusal>
    requires { tokens_of text.now ≡ Ok tokens.now }
    ensures value { result ≡ token_place (Ok tokens.now) text.now number }
    ensures within { IfOk result (λ place. place ≤ length text.now) }
{
    let last = tokens.len() as u64;
    match tokens.get(number as usize) {
        Some(token) => Ok(token.at as usize),
        None if number == last => Ok(text.len()),
        None => Err(Refusal::Past { last }),
    }
}

/// Where the first fault of a text without tokens is.
fn refusal_of(error: TokenError) -> Refusal
    ensures { result ≡ fault_of error }
{
    match error {
        TokenError::BadByte { at }
        | TokenError::OpenComment { at }
        | TokenError::LongName { at }
        | TokenError::BadNumber { at }
        | TokenError::BigNumber { at } => Refusal::NoTokens { at },
        TokenError::OutOfMemory => Refusal::OutOfMemory,
    }
}
