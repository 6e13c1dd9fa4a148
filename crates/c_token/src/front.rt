//! What a text begins with: a blank, a comment, or the longest token.
ghost use Rattle.std.specs.Prelude.{◌≡◌, ◌≤◌, length, IfSome};
ghost use Rattle.c_token.specs.TextTokens.{close_of};

use crate::bytes::{
    begins_hexadecimal, begins_with_name_byte, decimal_len, has_leading_zero, hexadecimal_len,
    is_blank, is_name_start, line_len, name_len, suffix_len,
};
use crate::kinds::{Kind, TokenError};
use crate::signs::sign_spelled;
use crate::words::word_spelled;
use aegis_num::Name;
use aegis_num::limits::MAX_NAME_BYTES;
use std::str;

/// What a text begins with: a token, or a blank or a comment, which is none; and how many bytes it takes.
#[derive(Clone, Copy)]
pub struct Front {
    pub kind: Option<Kind>,
    pub len: usize,
}

impl Front {
    ghost use Rattle.std.specs.Prelude.{◌≡◌, ◌-◌, ◌<◌, ◌≤◌, true, false, length, take, drop, IfOk};
    ghost use Rattle.std.specs.Char.{is_ascii_digit};
    ghost use Rattle.std.specs.Str.Parse.{IsNumeral};
    ghost use Rattle.c_token.specs.TokenSpelling.{is_name_start, is_token};
    ghost use Rattle.c_token.specs.TextTokens.{begins_with, close_of, longest, block_comment, token_of_len, front_at};
    ghost use Rattle.c_token.specs.Fronts.{number_at, number_end};

    /// What the text from the place `at` on begins with.
    pub fn at(text: &[u8], at: u32) -> Result<Front, TokenError>
        requires { 0 < length text.now }
        ensures front { result ≡ front_at at text.now }
        ensures within { IfOk result (λ front. (0 < front.len) × (front.len ≤ length text.now)) }
    {
        if is_blank(text[0]) {
            return Ok(Front { kind: None, len: 1 });
        }
        if text.starts_with(b"/*") {
            return Front::block_comment(text, at);
        }
        if text.starts_with(b"//") {
            return Ok(Front {
                kind: None,
                len: line_len(text),
            });
        }
        if is_name_start(text[0]) {
            return Front::name(text, at);
        }
        if text[0].is_ascii_digit() {
            return Front::number(text, at);
        }
        Front::sign(text, at)
    }

    /// A comment from `/*` on.
    fn block_comment(text: &[u8], at: u32) -> Result<Front, TokenError>
        requires { 2 ≤ length text.now }
        ensures front { result ≡ block_comment at (close_of (drop 2 text.now)) }
        ensures within { IfOk result (λ front. (0 < front.len) × (front.len ≤ length text.now)) }
    {
        match close_of(&text[2..]) {
            Some(len) => Ok(Front {
                kind: None,
                len: 2 + len,
            }),
            None => Err(TokenError::OpenComment { at }),
        }
    }

    /// A word or a name.
    fn name(text: &[u8], at: u32) -> Result<Front, TokenError>
        requires { begins_with is_name_start text.now ≡ true }
        ensures front { result ≡ token_of_len at text.now (longest is_token text.now) }
        ensures within { IfOk result (λ front. (0 < front.len) × (front.len ≤ length text.now)) }
    {
        let len = name_len(text);
        let bytes = &text[..len];
        if let Some(word) = word_spelled(bytes) {
            return Ok(Front {
                kind: Some(Kind::Word(word)),
                len,
            });
        }
        if len > MAX_NAME_BYTES {
            return Err(TokenError::LongName { at });
        }
        Ok(Front {
            kind: Some(Kind::Name(Name::new(bytes))),
            len,
        })
    }

    /// A number.
    fn number(text: &[u8], at: u32) -> Result<Front, TokenError>
        requires { begins_with is_ascii_digit text.now ≡ true }
        ensures front { result ≡ token_of_len at text.now (longest is_token text.now) }
        ensures within { IfOk result (λ front. (0 < front.len) × (front.len ≤ length text.now)) }
    {
        if begins_hexadecimal(text) {
            let end = 2 + hexadecimal_len(&text[2..]);
            Front::number_in(text, at, 16, 2, end)
        } else {
            let end = decimal_len(text);
            Front::number_in(text, at, 10, 0, end)
        }
    }

    /// The number whose digits in a base are the bytes from `start` up to `end`.
    fn number_in(
        text: &[u8],
        at: u32,
        base: u32,
        start: usize,
        end: usize,
    ) -> Result<Front, TokenError>
        requires base_above { 2 ≤ base }
        requires base_below { base ≤ 36 }
        requires in_order { start ≤ end }
        requires within { end ≤ length text.now }
        requires numeral { IsNumeral base (take (end - start) (drop start text.now)) }
        ensures front { result ≡ number_at at text.now base start end }
        ensures within { IfOk result (λ front. (0 < front.len) × (front.len ≤ length text.now)) }
    {
        let len = end + suffix_len(&text[end..]);
        if has_leading_zero(&text[..len]) || begins_with_name_byte(&text[len..]) {
            return Err(TokenError::BadNumber { at });
        }
        let digits = str::from_utf8(&text[start..end]).unwrap();
        match u32::from_str_radix(digits, base) {
            Ok(value) => Ok(Front {
                kind: Some(Kind::Number {
                    value,
                    unsigned: end < len || value > 2_147_483_647,
                }),
                len,
            }),
            Err(_) => Err(TokenError::BigNumber { at }),
        }
    }

    /// A sign, of two bytes rather than of one.
    fn sign(text: &[u8], at: u32) -> Result<Front, TokenError>
        requires some { 0 < length text.now }
        requires no_name { begins_with is_name_start text.now ≡ false }
        requires no_number { begins_with is_ascii_digit text.now ≡ false }
        ensures front { result ≡ token_of_len at text.now (longest is_token text.now) }
        ensures within { IfOk result (λ front. (0 < front.len) × (front.len ≤ length text.now)) }
    {
        if text.len() > 1 {
            if let Some(sign) = sign_spelled(&text[..2]) {
                return Ok(Front {
                    kind: Some(Kind::Sign(sign)),
                    len: 2,
                });
            }
        }
        match sign_spelled(&text[..1]) {
            Some(sign) => Ok(Front {
                kind: Some(Kind::Sign(sign)),
                len: 1,
            }),
            None => Err(TokenError::BadByte { at }),
        }
    }
}

/// How many bytes stand up to the end of the first `*/`, where there is one.
fn close_of(text: &[u8]) -> Option<usize>
    ensures len { result ≡ close_of text.now }
    ensures within { IfSome result (λ len. len ≤ length text.now) }
{
    for start in 0..text.len() {
        if text[start..].starts_with(b"*/") {
            return Some(start + 2);
        }
    }
    None
}
