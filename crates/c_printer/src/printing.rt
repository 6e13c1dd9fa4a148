//! Programs as texts.
ghost use Rattle.std.specs.Prelude.{◌≡◌, ◌++◌, IfOk, OnOk};
ghost use Rattle.c_token.specs.declared.Kind.TheVariants as kinds;
ghost use Rattle.c_printer.specs.PrintedTokens.{type_kind};
ghost use Rattle.c_printer.specs.PrintedParts.{spaced_token, spaced_tokens, commas_before};
ghost use Rattle.c_printer.specs.ProgramPrinting.{program_text, IsPrintable, ReadsBack};

mod expressions;
mod items;
mod statements;

use aegis_num::{Name, OutOfMemory};
use c_grammar::Program;
use c_token::{Sign, Word};
use itoa::Buffer;
use std::alloc::{AllocError, Global};

/// The text of a program: its tokens in their plain spelling, with one space between two.
/// The word `__verified` and the word `int` after `unsigned` are left out, and an empty parameter list is `( void )`.
/// A number is decimal, with `u` next to it where it is unsigned.
/// The program has to be one that the grammar gives to tokens, within the limits, as each program of a text is.
pub fn print_program(alloc: Global, p: &Program) -> Result<Vec<u8>, OutOfMemory>
    requires { IsPrintable p.now }
    ensures text { IfOk result (λ text. text.items ≡ program_text p.now) }
    ensures reads_back { IfOk result (λ text. ReadsBack p.now text.items) }
{
    let mut printer = Printer {
        text: Vec::new(alloc),
    };
    printer.items(p.items.as_slice())?;
    let Printer { mut text } = printer;
    text.pop();
    Ok(text)
}

/// A text under way, with a space after each token.
#[derive(Drop)]
struct Printer {
    text: Vec<u8>,
}

impl Printer {
    /// A word.
    #[tactic(auto, unfolding(crate::specs::PrintedParts::spaced_token))]
    fn word(&mut self, word: Word) -> Result<(), AllocError>
        ensures { OnOk result (self.new.text.items
            ≡ self.old.text.items ++ spaced_token (kinds.Word word)) }
    {
        self.text.extend_from_slice(word.spelling().as_bytes())?;
        self.text.push(b' ')?;
        Ok(())
    }

    /// A sign.
    #[tactic(auto, unfolding(crate::specs::PrintedParts::spaced_token))]
    fn sign(&mut self, sign: Sign) -> Result<(), AllocError>
        ensures { OnOk result (self.new.text.items
            ≡ self.old.text.items ++ spaced_token (kinds.Sign sign)) }
    {
        self.text.extend_from_slice(sign.spelling().as_bytes())?;
        self.text.push(b' ')?;
        Ok(())
    }

    /// A name.
    #[tactic(auto, unfolding(crate::specs::PrintedParts::spaced_token))]
    fn name(&mut self, name: &Name) -> Result<(), AllocError>
        ensures { OnOk result (self.new.text.items
            ≡ self.old.text.items ++ spaced_token (kinds.Name name.now)) }
    {
        self.text.extend_from_slice(name.as_bytes())?;
        self.text.push(b' ')?;
        Ok(())
    }

    /// `int` or `unsigned`.
    fn type_word(&mut self, unsigned: bool) -> Result<(), AllocError>
        ensures { OnOk result (self.new.text.items
            ≡ self.old.text.items ++ spaced_token (type_kind unsigned)) }
    {
        if unsigned {
            return self.word(Word::Unsigned);
        }
        self.word(Word::Int)
    }

    /// The sign `,` before each part of a list but the first, which is part 0.
    fn comma_before(&mut self, part: usize) -> Result<(), AllocError>
        ensures { OnOk result (self.new.text.items
            ≡ self.old.text.items ++ spaced_tokens (commas_before part)) }
    {
        if part > 0 {
            return self.sign(Sign::Comma);
        }
        Ok(())
    }

    /// A number, with `u` next to it where it is unsigned.
    #[tactic(auto, unfolding(crate::specs::PrintedParts::spaced_token))]
    fn number(&mut self, value: u32, unsigned: bool) -> Result<(), AllocError>
        ensures { OnOk result (self.new.text.items
            ≡ self.old.text.items ++ spaced_token (kinds.Number value unsigned)) }
    {
        let mut buffer = Buffer::new();
        self.text
            .extend_from_slice(buffer.format(value).as_bytes())?;
        if unsigned {
            self.text.push(b'u')?;
        }
        self.text.push(b' ')?;
        Ok(())
    }
}
