//! The fields of a line, and the numbers and bytes that they write.
ghost use Rattle.std.specs.Prelude.{◌≡◌, ◌≤◌, IfOk};
ghost use Rattle.std.specs.Str.Parse.{IsNumeral, digits_value};
ghost use Rattle.std.specs.List.{list_all};
ghost use Rattle.std.specs.Char.{is_ascii_digit, is_ascii_hexdigit};
ghost use Rattle.adversary_script.specs.LineFields.{is_line_byte, is_separator, fields_of, is_numeral, below_limit, number_in_base, numeral_value};
ghost use Rattle.adversary_script.specs.ScriptGrammar.{field_number, hex as decoded_field};
ghost use Rattle.adversary_script.specs.FormMeanings.{texts, Gives};

use crate::bytes::Bytes;
use crate::fault::Fault;
use hex::FromHexError;
use std::alloc::{AllocError, Global};
use std::str;

/// Whether a byte is printable ASCII or a tab.
fn is_line_byte(byte: u8) -> bool
    ensures { result ≡ is_line_byte byte }
{
    (b' '..=b'~').contains(&byte) || byte == b'\t'
}

/// Whether each byte may stand in a line.
pub fn are_line_bytes(line: &[u8]) -> bool
    ensures { result ≡ list_all is_line_byte line.now }
{
    line.iter().all(|byte| is_line_byte(*byte))
}

/// Whether a byte is a space or a tab.
fn is_separator(byte: u8) -> bool
    ensures { result ≡ is_separator byte }
{
    byte == b' ' || byte == b'\t'
}

/// The fields of a line, in order.
pub fn fields_of(alloc: Global, line: &[u8]) -> Result<Vec<&[u8]>, AllocError>
    ensures { IfOk result (λ fields. texts fields.items ≡ fields_of line.now) }
{
    line.split(|byte| is_separator(*byte))
        .filter(|field| !field.is_empty())
        .collect(alloc)
}

/// The number that one or more digits of a base write, where it is below 2^32.
fn value_of(base: u32, digits: &[u8]) -> Option<u32>
    requires base_above { 2 ≤ base }
    requires base_below { base ≤ 36 }
    requires numeral { IsNumeral base digits.now }
    ensures { result ≡ below_limit (digits_value base digits.now) }
{
    let digits = str::from_utf8(digits).unwrap();
    u32::from_str_radix(digits, base).ok()
}

/// Whether a field is one or more decimal digits.
fn is_decimal(field: &[u8]) -> bool
    ensures { result ≡ is_numeral is_ascii_digit field.now }
{
    0 < field.len() && field.iter().all(|byte| byte.is_ascii_digit())
}

/// Whether a field is one or more hexadecimal digits.
fn is_hexadecimal(field: &[u8]) -> bool
    ensures { result ≡ is_numeral is_ascii_hexdigit field.now }
{
    0 < field.len() && field.iter().all(|byte| byte.is_ascii_hexdigit())
}

/// The number that decimal digits write.
fn decimal(digits: &[u8]) -> Option<u32>
    ensures { result ≡ number_in_base 10 is_ascii_digit digits.now }
{
    if is_decimal(digits) {
        value_of(10, digits)
    } else {
        None
    }
}

/// The number that hexadecimal digits write.
fn hexadecimal(digits: &[u8]) -> Option<u32>
    ensures { result ≡ number_in_base 16 is_ascii_hexdigit digits.now }
{
    if is_hexadecimal(digits) {
        value_of(16, digits)
    } else {
        None
    }
}

/// The number that a field writes: decimal digits, or `0x` and hexadecimal ones.
#[tactic(auto, unfolding(crate::specs::LineFields::numeral_value))]
fn numeral_value(field: &[u8]) -> Option<u32>
    ensures { result ≡ numeral_value field.now }
{
    if field.starts_with(b"0x") {
        hexadecimal(&field[2..])
    } else {
        decimal(field)
    }
}

/// The number that a field has to write.
pub fn number(field: &[u8]) -> Result<u32, Fault>
    ensures { result ≡ field_number field.now }
{
    numeral_value(field).ok_or(Fault::Number)
}

/// The bytes that a field has to write, as pairs of hexadecimal digits.
pub fn bytes(alloc: Global, field: &[u8]) -> Result<Bytes, Fault>
    ensures { Gives result (decoded_field field.now) }
{
    match hex::decode(alloc, field) {
        Ok(bytes) => Ok(Bytes::new(bytes)),
        Err(FromHexError::OutOfMemory) => Err(Fault::OutOfMemory),
        Err(_) => Err(Fault::Hex),
    }
}
