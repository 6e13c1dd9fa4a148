//! The listing of code.
ghost use Rattle.std.specs.Prelude.{◌≡◌, ℕ, ◌^◌, ◌<◌, ◌++◌, length, IfOk, OnOk, codes};
ghost use Rattle.std.specs.String.{string_bytes};
ghost use Rattle.orbis_word.specs.Printing.{fields_text, instruction_text, hex_8, IsListing, AddsLine, AddsText};

use crate::decoding::decode;
use crate::fields::Fields;
use crate::instruction::Instr;
use crate::table::table_row;
use aegis_num::OutOfMemory;
use std::alloc::{AllocError, Global};
use std::fmt::Write;

/// The listing of some words, of which there are fewer than 2 ^ 32: for each a line with its index and itself, in
/// eight hexadecimal digits each, and its instruction as it is spelled, or `.word` where it is none.
pub fn listing(alloc: Global, code: &[u32]) -> Result<Vec<u8>, OutOfMemory>
    requires { length code.now < 2 ^ 32 }
    ensures { IfOk result (λ bytes. IsListing 0 code.now bytes.items) }
{
    let mut text = String::new(alloc);
    for (index, word) in code.iter().enumerate() {
        push_line(&mut text, index as u32, *word)?;
    }
    Ok(text.into_bytes())
}

/// Adds the line of a word.
fn push_line(text: &mut String, index: u32, word: u32) -> Result<(), AllocError>
    ensures { OnOk result (AddsLine index word (string_bytes text.old) (string_bytes text.new)) }
{
    push_hex(text, index)?;
    push_hex(text, word)?;
    push_text(text, word)?;
    text.push_str("\n")
}

/// Adds a number in eight hexadecimal digits, and a blank.
#[tactic(auto, using(crate::proofs::Lines::padded_hex_8))]
fn push_hex(text: &mut String, number: u32) -> Result<(), AllocError>
    ensures { OnOk result (string_bytes text.new ≡ string_bytes text.old ++ (hex_8 number ++ codes " ")) }
{
    write!(text, "{number:08x} ")
}

/// Adds the text of a word: its instruction, or `.word`.
fn push_text(text: &mut String, word: u32) -> Result<(), AllocError>
    ensures { OnOk result (AddsText word (string_bytes text.old) (string_bytes text.new)) }
{
    match decode(word) {
        Some(instruction) => push_instruction(text, instruction),
        None => text.push_str(".word"),
    }
}

/// Adds an instruction as it is spelled.
fn push_instruction(text: &mut String, instruction: Instr) -> Result<(), AllocError>
    ensures { OnOk result (string_bytes text.new ≡ string_bytes text.old ++ instruction_text instruction) }
{
    let row = table_row(instruction);
    text.push_str(row.name)?;
    text.push_str(" ")?;
    push_fields(text, row.fields)
}

/// Adds fields as they are spelled.
fn push_fields(text: &mut String, fields: Fields) -> Result<(), AllocError>
    ensures { OnOk result (string_bytes text.new ≡ string_bytes text.old ++ fields_text fields) }
{
    match fields {
        Fields::N(n) => write!(text, "{n}"),
        Fields::K(k) => write!(text, "{k}"),
        Fields::Dk(d, k) => write!(text, "r{d},{k}"),
        Fields::B(b) => write!(text, "r{b}"),
        Fields::F(f) => write!(text, "{f}"),
        Fields::Dia(d, i, a) => write!(text, "r{d},{i}(r{a})"),
        Fields::Dai(d, a, i) => write!(text, "r{d},r{a},{i}"),
        Fields::Dak(d, a, k) => write!(text, "r{d},r{a},{k}"),
        Fields::Dal(d, a, l) => write!(text, "r{d},r{a},{l}"),
        Fields::Iab(i, a, b) => write!(text, "{i}(r{a}),r{b}"),
        Fields::Dab(d, a, b) => write!(text, "r{d},r{a},r{b}"),
        Fields::Ab(a, b) => write!(text, "r{a},r{b}"),
    }
}
