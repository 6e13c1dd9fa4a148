//! Blocks, and the statements that hold statements.
ghost use Rattle.std.specs.Prelude.{◌≡◌};
ghost use Rattle.c_descent.proofs.StatementParser.{optional_else, conditional, while_loop, for_loop, entry, block_goes_on, entries, braced, block_statement, statement_inside, statement};
ghost use Rattle.c_parser.specs.CursorAnswers.{Matches, TakesSome, LeavesUpTo};

use crate::cursor::Cursor;
use crate::expression::open;
use crate::fault::Fault;
use crate::statement::{barred, condition, empty, head, local_ended, plain_ended, start_at};
use aegis_num::limits::MAX_BINARY_OPERATORS;
use c_descent::{Braces, LoopHead, Start};
use c_grammar::Stmt;
use c_token::{Sign, Word};
use sqlite_items::{Boxed, Items};
use std::alloc::Global;

/// `while ( test ) body`
#[cycle(statements)]
#[tactic(auto, unfolding(c_descent::proofs::StatementParser::while_loop))]
fn while_loop(alloc: Global, cursor: &mut Cursor<'_>, levels: u32) -> Result<Stmt, Fault>
    ensures reads { Matches result cursor.new
        (while_loop MAX_BINARY_OPERATORS levels (statement MAX_BINARY_OPERATORS levels) cursor.old) }
    ensures takes { TakesSome result cursor.old cursor.new }
{
    let token = cursor.word(Word::While)?;
    let test = condition(alloc, cursor, levels)?;
    let body = statement(alloc, cursor, levels)?;
    let body = Boxed::new(alloc, body)?;
    Ok(Stmt::While { test, body, token })
}

/// `else other`, if it stands there.
#[cycle(statements)]
#[tactic(auto, unfolding(c_descent::proofs::StatementParser::optional_else))]
fn optional_else(
    alloc: Global,
    cursor: &mut Cursor<'_>,
    levels: u32,
) -> Result<Option<Boxed<Stmt>>, Fault>
    ensures reads { Matches result cursor.new
        (optional_else (statement MAX_BINARY_OPERATORS levels) cursor.old) }
    ensures takes { LeavesUpTo result cursor.old cursor.new }
{
    if cursor.is_at_word(Word::Else) {
        cursor.word(Word::Else)?;
        let other = statement(alloc, cursor, levels)?;
        return Ok(Some(Boxed::new(alloc, other)?));
    }
    Ok(None)
}

/// `if ( test ) body`, with `else other` where an `else` follows.
#[cycle(statements)]
#[tactic(auto, unfolding(c_descent::proofs::StatementParser::conditional))]
fn conditional(alloc: Global, cursor: &mut Cursor<'_>, levels: u32) -> Result<Stmt, Fault>
    ensures reads { Matches result cursor.new
        (conditional MAX_BINARY_OPERATORS levels (statement MAX_BINARY_OPERATORS levels) cursor.old) }
    ensures takes { TakesSome result cursor.old cursor.new }
{
    let token = cursor.word(Word::If)?;
    let test = condition(alloc, cursor, levels)?;
    let body = statement(alloc, cursor, levels)?;
    let other = optional_else(alloc, cursor, levels)?;
    let body = Boxed::new(alloc, body)?;
    Ok(Stmt::If {
        test,
        body,
        other,
        token,
    })
}

/// `for ( first ; test ; step ) body`
#[cycle(statements)]
#[tactic(auto, unfolding(c_descent::proofs::StatementParser::for_loop))]
fn for_loop(alloc: Global, cursor: &mut Cursor<'_>, levels: u32) -> Result<Stmt, Fault>
    ensures reads { Matches result cursor.new
        (for_loop MAX_BINARY_OPERATORS levels (statement MAX_BINARY_OPERATORS levels) cursor.old) }
    ensures takes { TakesSome result cursor.old cursor.new }
{
    let token = cursor.word(Word::For)?;
    let LoopHead { first, test, step } = head(alloc, cursor, levels)?;
    let body = statement(alloc, cursor, levels)?;
    let body = Boxed::new(alloc, body)?;
    Ok(Stmt::For {
        first,
        test,
        step,
        body,
        token,
    })
}

/// A local and its `;`, or a statement.
#[cycle(statements)]
#[tactic(auto, unfolding(c_descent::proofs::StatementParser::entry))]
fn entry(alloc: Global, cursor: &mut Cursor<'_>, levels: u32) -> Result<Stmt, Fault>
    ensures reads { Matches result cursor.new
        (entry MAX_BINARY_OPERATORS levels (statement MAX_BINARY_OPERATORS levels) cursor.old) }
    ensures takes { TakesSome result cursor.old cursor.new }
{
    match start_at(cursor) {
        Start::Local => local_ended(alloc, cursor, levels),
        _ => statement(alloc, cursor, levels),
    }
}

/// Whether a block goes on.
#[tactic(auto, unfolding(c_descent::proofs::StatementParser::block_goes_on))]
fn goes_on(cursor: &Cursor<'_>) -> bool
    ensures { result ≡ block_goes_on cursor.now }
{
    !cursor.is_at_sign(Sign::RightBrace)
}

/// Locals and statements up to `}`, which is left.
#[cycle(statements)]
#[tactic(auto, unfolding(c_descent::proofs::StatementParser::entries))]
fn entries(alloc: Global, cursor: &mut Cursor<'_>, levels: u32) -> Result<Items<Stmt>, Fault>
    ensures reads { Matches result cursor.new
        (entries MAX_BINARY_OPERATORS levels (statement MAX_BINARY_OPERATORS levels) cursor.old) }
    ensures takes { LeavesUpTo result cursor.old cursor.new }
{
    let mut trees = Items::new(alloc);
    'each: while goes_on(cursor) {
        let tree = entry(alloc, cursor, levels)?;
        trees.push(tree)?;
    }
    Ok(trees)
}

/// `{`, locals and statements, and `}`.
#[cycle(statements)]
#[tactic(auto, unfolding(c_descent::proofs::StatementParser::braced))]
pub fn braced(alloc: Global, cursor: &mut Cursor<'_>, levels: u32) -> Result<Braces, Fault>
    ensures reads { Matches result cursor.new
        (braced MAX_BINARY_OPERATORS levels (statement MAX_BINARY_OPERATORS levels) cursor.old) }
    ensures takes { TakesSome result cursor.old cursor.new }
{
    let token = cursor.sign(Sign::LeftBrace)?;
    let body = entries(alloc, cursor, levels)?;
    cursor.sign(Sign::RightBrace)?;
    Ok(Braces { body, token })
}

/// A block as a statement.
#[cycle(statements)]
#[tactic(auto, unfolding(c_descent::proofs::StatementParser::block_statement))]
fn block(alloc: Global, cursor: &mut Cursor<'_>, levels: u32) -> Result<Stmt, Fault>
    ensures reads { Matches result cursor.new
        (block_statement MAX_BINARY_OPERATORS levels (statement MAX_BINARY_OPERATORS levels) cursor.old) }
    ensures takes { TakesSome result cursor.old cursor.new }
{
    let Braces { body, token } = braced(alloc, cursor, levels)?;
    Ok(Stmt::Block { body, token })
}

/// A statement whose level is open.
#[cycle(statements)]
#[tactic(auto, unfolding(c_descent::proofs::StatementParser::statement_inside))]
fn statement_inside(alloc: Global, cursor: &mut Cursor<'_>, levels: u32) -> Result<Stmt, Fault>
    ensures reads { Matches result cursor.new
        (statement_inside MAX_BINARY_OPERATORS levels (statement MAX_BINARY_OPERATORS levels) cursor.old) }
    ensures takes { TakesSome result cursor.old cursor.new }
{
    match start_at(cursor) {
        Start::Block => block(alloc, cursor, levels),
        Start::Empty => empty(cursor),
        Start::Plain => plain_ended(alloc, cursor, levels),
        Start::If => conditional(alloc, cursor, levels),
        Start::While => while_loop(alloc, cursor, levels),
        Start::For => for_loop(alloc, cursor, levels),
        Start::Local => Err(Fault::Expected),
        Start::Other => Err(Fault::Expected),
    }
}

/// A statement.
#[cycle(statements)]
#[tactic(auto, unfolding(c_descent::proofs::StatementParser::statement))]
pub fn statement(alloc: Global, cursor: &mut Cursor<'_>, levels: u32) -> Result<Stmt, Fault>
    ensures reads { Matches result cursor.new (statement MAX_BINARY_OPERATORS levels cursor.old) }
    ensures takes { TakesSome result cursor.old cursor.new }
{
    match open(levels) {
        Ok(levels) => statement_inside(alloc, cursor, levels),
        Err(_) => Err(barred(cursor)),
    }
}
