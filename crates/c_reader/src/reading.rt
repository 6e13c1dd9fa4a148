//! The reader of programs.
ghost use Rattle.std.specs.Prelude.{◌≡◌, ◌≤◌, length, IfOk, IfErr};
ghost use Rattle.c_token.specs.PlainText.{kinds_of};
ghost use Rattle.c_grammar.specs.TokenPrograms.{AreProgram};
ghost use Rattle.c_parser.specs.DescentLaws.{parsed};
ghost use Rattle.c_reader.specs.ReaderAnswers.{AnswersText};
ghost use Rattle.c_reader.specs.SourceText.{IsRefusedAs};

use crate::error::SyntaxError;
use crate::item::program;
use aegis_num::limits::MAX_SOURCE_BYTES;
use c_grammar::Program;
use c_parser::{Cursor, Fault};
use c_token::Token;
use std::alloc::Global;

/// The answer of the parser on lists.
fn answer(alloc: Global, tokens: &[Token]) -> Result<Program, SyntaxError>
    requires { length tokens.now ≤ MAX_SOURCE_BYTES }
    ensures { AnswersText result (length tokens.now) (parsed (kinds_of tokens.now)) }
{
    let count = tokens.len() as u32;
    let mut cursor = Cursor::new(tokens);
    match program(alloc, &mut cursor) {
        Ok(program) => Ok(program),
        Err(Fault::Expected) => Err(SyntaxError::Expected {
            token: cursor.place_or(count),
        }),
        Err(Fault::Deep) => Err(SyntaxError::Deep {
            token: cursor.place_or(count),
        }),
        Err(Fault::OutOfMemory) => Err(SyntaxError::OutOfMemory),
    }
}

/// The program that all these tokens are (ISO/IEC 9899, sections 6.5, 6.8 and 6.9, in this profile). There is
/// at most one. At most `MAX_NESTING` levels are open at any token: a statement opens one, and so do an operator of one
/// operand, an expression between parentheses, an index and the arguments of a call. One expression has at most
/// `MAX_BINARY_OPERATORS` operators of two operands, those inside its parentheses, indexes and arguments aside.
/// Tokens are counted from 0. There are at most `MAX_SOURCE_BYTES` of them, and they are read in a time that grows as
/// their number.
///
/// # Errors
///
/// `Expected` names the first token with which the tokens up to it begin no program, or the number of tokens where
/// they end too soon; no token before it nests too deep. `Deep` names the token that opens a level too many, or is an
/// operator too many of its expression; the tokens up to it begin a program. `OutOfMemory` where memory runs out.
pub fn read_program(alloc: Global, tokens: &[Token]) -> Result<Program, SyntaxError>
    requires { length tokens.now ≤ MAX_SOURCE_BYTES }
    // What is read is the program of these tokens, within the limits.
    ensures read { IfOk result (λ p. AreProgram (kinds_of tokens.now) p) }
    // What is refused is no program, and the fault stands where it is said to stand.
    ensures refused { IfErr result (IsRefusedAs (kinds_of tokens.now)) }
{
    answer(alloc, tokens)
}
