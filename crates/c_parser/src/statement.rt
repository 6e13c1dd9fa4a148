//! Locals and statements.
ghost use Rattle.std.specs.Prelude.{◌≡◌};
ghost use Rattle.c_descent.proofs.ListParser.{follow, gives, sign_token};
ghost use Rattle.c_descent.proofs.StatementParser.{statement_start, start_at, plain_of, plain_at, begins_statement, begins_simple, int_type, optional_int, unsigned_type, type_name, expression_unless, optional_value, local_inside, local_statement, assignment_rest, element_assigned, call_statement, after_statement_name, name_statement, parenthesised_test, release, check, simple_inside, simple, plain_inside, ended, empty, returned, break_statement, continue_statement, while_loop, optional_else, conditional, first_part, step_part, opening, test_part, closing, head, for_loop, entry, entries, braced, block_statement, statement_inside, barred, statement};
ghost use Rattle.c_parser.specs.CursorAnswers.{Matches, StopsWith, TakesSome, LeavesUpTo};

use crate::cursor::Cursor;
use crate::expression::{arguments, expression, open, subscript};
use crate::fault::Fault;
use aegis_num::limits::MAX_BINARY_OPERATORS;
use c_descent::{Bracketed, LoopHead, Named, Plain, Start};
use c_grammar::{Expr, Stmt};
use c_token::{Kind, Sign, Word};
use sqlite_items::{Boxed, Items};
use std::alloc::Global;

/// What a token begins in a block.
fn start_of(kind: Option<Kind>) -> Start
    ensures { result ≡ statement_start kind }
{
    match kind {
        Some(Kind::Name(_)) => Start::Plain,
        Some(Kind::Word(word)) => match word {
            Word::Int | Word::Unsigned => Start::Local,
            Word::Release | Word::Check | Word::Return | Word::Break | Word::Continue =>
                Start::Plain,
            Word::If => Start::If,
            Word::While => Start::While,
            Word::For => Start::For,
            _ => Start::Other,
        },
        Some(Kind::Sign(sign)) => match sign {
            Sign::LeftBrace => Start::Block,
            Sign::Semicolon => Start::Empty,
            _ => Start::Other,
        },
        _ => Start::Other,
    }
}

/// What the first token begins in a block.
#[tactic(auto, unfolding(c_descent::proofs::StatementParser::start_at))]
pub fn start_at(cursor: &Cursor<'_>) -> Start
    ensures { result ≡ start_at cursor.now }
{
    start_of(cursor.first_kind())
}

/// Which statement of those that a `;` ends a token begins.
fn plain_of(kind: Option<Kind>) -> Plain
    ensures { result ≡ plain_of kind }
{
    match kind {
        Some(Kind::Name(_)) => Plain::Named,
        Some(Kind::Word(word)) => match word {
            Word::Release => Plain::Release,
            Word::Check => Plain::Check,
            Word::Return => Plain::Return,
            Word::Break => Plain::Break,
            Word::Continue => Plain::Continue,
            _ => Plain::Other,
        },
        _ => Plain::Other,
    }
}

/// Which statement of those that a `;` ends the first token begins.
#[tactic(auto, unfolding(c_descent::proofs::StatementParser::plain_at))]
fn plain_at(cursor: &Cursor<'_>) -> Plain
    ensures { result ≡ plain_at cursor.now }
{
    plain_of(cursor.first_kind())
}

/// Whether a statement begins so.
fn begins_statement(start: Start) -> bool
    ensures { result ≡ begins_statement start }
{
    match start {
        Start::Local | Start::Other => false,
        _ => true,
    }
}

/// Whether a simple statement begins so.
fn begins_simple(plain: Plain) -> bool
    ensures { result ≡ begins_simple plain }
{
    match plain {
        Plain::Named | Plain::Release | Plain::Check => true,
        _ => false,
    }
}

/// `int`, which is not unsigned.
#[tactic(auto, unfolding(c_descent::proofs::StatementParser::int_type))]
fn int_type(cursor: &mut Cursor<'_>) -> Result<bool, Fault>
    ensures reads { Matches result cursor.new (int_type cursor.old) }
    ensures takes { TakesSome result cursor.old cursor.new }
{
    cursor.word(Word::Int)?;
    Ok(false)
}

/// The word `int`, if it stands there.
#[tactic(auto, unfolding(c_descent::proofs::StatementParser::optional_int))]
fn optional_int(cursor: &mut Cursor<'_>) -> Result<bool, Fault>
    ensures reads { Matches result cursor.new (optional_int cursor.old) }
    ensures takes { LeavesUpTo result cursor.old cursor.new }
{
    if cursor.is_at_word(Word::Int) {
        cursor.word(Word::Int)?;
        return Ok(true);
    }
    Ok(true)
}

/// `unsigned` or `unsigned int`.
#[tactic(auto, unfolding(c_descent::proofs::StatementParser::unsigned_type))]
fn unsigned_type(cursor: &mut Cursor<'_>) -> Result<bool, Fault>
    ensures reads { Matches result cursor.new (unsigned_type cursor.old) }
    ensures takes { TakesSome result cursor.old cursor.new }
{
    cursor.word(Word::Unsigned)?;
    optional_int(cursor)
}

/// A type, and whether it is `unsigned`.
#[tactic(auto, unfolding(c_descent::proofs::StatementParser::type_name))]
pub fn type_name(cursor: &mut Cursor<'_>) -> Result<bool, Fault>
    ensures reads { Matches result cursor.new (type_name cursor.old) }
    ensures takes { TakesSome result cursor.old cursor.new }
{
    if cursor.is_at_word(Word::Int) {
        int_type(cursor)
    } else {
        unsigned_type(cursor)
    }
}

/// An expression, or none where nothing stands there.
#[tactic(auto, unfolding(c_descent::proofs::StatementParser::expression_unless))]
fn expression_unless(
    alloc: Global,
    cursor: &mut Cursor<'_>,
    levels: u32,
    nothing: bool,
) -> Result<Option<Expr>, Fault>
    ensures reads { Matches result cursor.new
        (expression_unless MAX_BINARY_OPERATORS levels nothing cursor.old) }
    ensures takes { LeavesUpTo result cursor.old cursor.new }
{
    if nothing {
        return Ok(None);
    }
    let value = expression(alloc, cursor, levels)?;
    Ok(Some(value))
}

/// `= value`, if it stands there.
#[tactic(auto, unfolding(c_descent::proofs::StatementParser::optional_value))]
fn optional_value(
    alloc: Global,
    cursor: &mut Cursor<'_>,
    levels: u32,
) -> Result<Option<Expr>, Fault>
    ensures reads { Matches result cursor.new (optional_value MAX_BINARY_OPERATORS levels cursor.old) }
    ensures takes { LeavesUpTo result cursor.old cursor.new }
{
    if cursor.is_at_sign(Sign::Assign) {
        cursor.sign(Sign::Assign)?;
        let value = expression(alloc, cursor, levels)?;
        return Ok(Some(value));
    }
    Ok(None)
}

/// A local, whose level is open.
#[tactic(auto, unfolding(c_descent::proofs::StatementParser::local_inside))]
fn local_inside(alloc: Global, cursor: &mut Cursor<'_>, levels: u32) -> Result<Stmt, Fault>
    ensures reads { Matches result cursor.new (local_inside MAX_BINARY_OPERATORS levels cursor.old) }
    ensures takes { TakesSome result cursor.old cursor.new }
{
    let unsigned = type_name(cursor)?;
    let found = cursor.name()?;
    let value = optional_value(alloc, cursor, levels)?;
    Ok(Stmt::Local {
        unsigned,
        name: found.name,
        value,
        token: found.token,
    })
}

/// A local, which is a statement of its own.
#[tactic(auto, unfolding(c_descent::proofs::StatementParser::local_statement))]
fn local(alloc: Global, cursor: &mut Cursor<'_>, levels: u32) -> Result<Stmt, Fault>
    ensures reads { Matches result cursor.new (local_statement MAX_BINARY_OPERATORS levels cursor.old) }
    ensures takes { TakesSome result cursor.old cursor.new }
{
    let levels = open(levels)?;
    local_inside(alloc, cursor, levels)
}

/// `= value` after what is assigned to.
#[tactic(auto, unfolding(c_descent::proofs::StatementParser::assignment_rest))]
fn assigned(
    alloc: Global,
    cursor: &mut Cursor<'_>,
    levels: u32,
    found: Named,
    index: Option<Expr>,
) -> Result<Stmt, Fault>
    ensures reads { Matches result cursor.new
        (assignment_rest MAX_BINARY_OPERATORS levels found index cursor.old) }
    ensures takes { TakesSome result cursor.old cursor.new }
{
    cursor.sign(Sign::Assign)?;
    let value = expression(alloc, cursor, levels)?;
    Ok(Stmt::Assign {
        name: found.name,
        index,
        value,
        token: found.token,
    })
}

/// `[ index ] = value` after a name.
#[tactic(auto, unfolding(c_descent::proofs::StatementParser::element_assigned))]
fn element_assigned(
    alloc: Global,
    cursor: &mut Cursor<'_>,
    levels: u32,
    found: Named,
) -> Result<Stmt, Fault>
    ensures reads { Matches result cursor.new
        (element_assigned MAX_BINARY_OPERATORS levels found cursor.old) }
    ensures takes { TakesSome result cursor.old cursor.new }
{
    let Bracketed { index, token: _ } = subscript(alloc, cursor, levels)?;
    assigned(alloc, cursor, levels, found, Some(index))
}

/// `( arguments )` after a name.
#[tactic(auto, unfolding(c_descent::proofs::StatementParser::call_statement))]
fn call(alloc: Global, cursor: &mut Cursor<'_>, levels: u32, found: Named) -> Result<Stmt, Fault>
    ensures reads { Matches result cursor.new (call_statement MAX_BINARY_OPERATORS levels found cursor.old) }
    ensures takes { TakesSome result cursor.old cursor.new }
{
    let arguments = arguments(alloc, cursor, levels)?;
    Ok(Stmt::Call {
        name: found.name,
        arguments,
        token: found.token,
    })
}

/// What stands after the name that a statement begins with.
#[tactic(auto, unfolding(c_descent::proofs::StatementParser::after_statement_name))]
fn after_name(
    alloc: Global,
    cursor: &mut Cursor<'_>,
    levels: u32,
    found: Named,
) -> Result<Stmt, Fault>
    ensures reads { Matches result cursor.new
        (after_statement_name MAX_BINARY_OPERATORS levels found cursor.old) }
    ensures takes { TakesSome result cursor.old cursor.new }
{
    if cursor.is_at_sign(Sign::LeftBracket) {
        return element_assigned(alloc, cursor, levels, found);
    }
    if cursor.is_at_sign(Sign::LeftParenthesis) {
        return call(alloc, cursor, levels, found);
    }
    assigned(alloc, cursor, levels, found, None)
}

/// An assignment or a call.
#[tactic(auto, unfolding(c_descent::proofs::StatementParser::name_statement))]
fn named(alloc: Global, cursor: &mut Cursor<'_>, levels: u32) -> Result<Stmt, Fault>
    ensures reads { Matches result cursor.new (name_statement MAX_BINARY_OPERATORS levels cursor.old) }
    ensures takes { TakesSome result cursor.old cursor.new }
{
    let found = cursor.name()?;
    after_name(alloc, cursor, levels, found)
}

/// `( value )`
#[tactic(auto, unfolding(c_descent::proofs::StatementParser::parenthesised_test))]
pub fn condition(alloc: Global, cursor: &mut Cursor<'_>, levels: u32) -> Result<Expr, Fault>
    ensures reads { Matches result cursor.new (parenthesised_test MAX_BINARY_OPERATORS levels cursor.old) }
    ensures takes { TakesSome result cursor.old cursor.new }
{
    cursor.sign(Sign::LeftParenthesis)?;
    let value = expression(alloc, cursor, levels)?;
    cursor.sign(Sign::RightParenthesis)?;
    Ok(value)
}

/// `release ( value )`
#[tactic(auto, unfolding(c_descent::proofs::StatementParser::release))]
fn release(alloc: Global, cursor: &mut Cursor<'_>, levels: u32) -> Result<Stmt, Fault>
    ensures reads { Matches result cursor.new (release MAX_BINARY_OPERATORS levels cursor.old) }
    ensures takes { TakesSome result cursor.old cursor.new }
{
    let token = cursor.word(Word::Release)?;
    let value = condition(alloc, cursor, levels)?;
    Ok(Stmt::Release { value, token })
}

/// `check ( )`
#[tactic(auto, unfolding(c_descent::proofs::StatementParser::check))]
fn check(cursor: &mut Cursor<'_>) -> Result<Stmt, Fault>
    ensures reads { Matches result cursor.new (check cursor.old) }
    ensures takes { TakesSome result cursor.old cursor.new }
{
    let token = cursor.word(Word::Check)?;
    cursor.sign(Sign::LeftParenthesis)?;
    cursor.sign(Sign::RightParenthesis)?;
    Ok(Stmt::Check { token })
}

/// A simple statement without its `;`, whose level is open.
#[tactic(auto, unfolding(c_descent::proofs::StatementParser::simple_inside))]
fn simple_inside(alloc: Global, cursor: &mut Cursor<'_>, levels: u32) -> Result<Stmt, Fault>
    ensures reads { Matches result cursor.new (simple_inside MAX_BINARY_OPERATORS levels cursor.old) }
    ensures takes { TakesSome result cursor.old cursor.new }
{
    match plain_at(cursor) {
        Plain::Named => named(alloc, cursor, levels),
        Plain::Release => release(alloc, cursor, levels),
        Plain::Check => check(cursor),
        Plain::Return | Plain::Break | Plain::Continue | Plain::Other => Err(Fault::Expected),
    }
}

/// A simple part of the head of a `for`, which is a statement of its own.
#[tactic(auto, unfolding(c_descent::proofs::StatementParser::simple))]
fn simple(alloc: Global, cursor: &mut Cursor<'_>, levels: u32) -> Result<Stmt, Fault>
    ensures reads { Matches result cursor.new (simple MAX_BINARY_OPERATORS levels cursor.old) }
    ensures takes { TakesSome result cursor.old cursor.new }
{
    if begins_simple(plain_at(cursor)) {
        let levels = open(levels)?;
        return simple_inside(alloc, cursor, levels);
    }
    Err(Fault::Expected)
}

/// `return` and a value, if one stands there.
#[tactic(auto, unfolding(c_descent::proofs::StatementParser::returned))]
fn returned(alloc: Global, cursor: &mut Cursor<'_>, levels: u32) -> Result<Stmt, Fault>
    ensures reads { Matches result cursor.new (returned MAX_BINARY_OPERATORS levels cursor.old) }
    ensures takes { TakesSome result cursor.old cursor.new }
{
    let token = cursor.word(Word::Return)?;
    let nothing = cursor.is_at_sign(Sign::Semicolon);
    let value = expression_unless(alloc, cursor, levels, nothing)?;
    Ok(Stmt::Return { value, token })
}

/// `break`
#[tactic(auto, unfolding(c_descent::proofs::StatementParser::break_statement))]
fn break_statement(cursor: &mut Cursor<'_>) -> Result<Stmt, Fault>
    ensures reads { Matches result cursor.new (break_statement cursor.old) }
    ensures takes { TakesSome result cursor.old cursor.new }
{
    let token = cursor.word(Word::Break)?;
    Ok(Stmt::Break { token })
}

/// `continue`
#[tactic(auto, unfolding(c_descent::proofs::StatementParser::continue_statement))]
fn continue_statement(cursor: &mut Cursor<'_>) -> Result<Stmt, Fault>
    ensures reads { Matches result cursor.new (continue_statement cursor.old) }
    ensures takes { TakesSome result cursor.old cursor.new }
{
    let token = cursor.word(Word::Continue)?;
    Ok(Stmt::Continue { token })
}

/// `;`
#[tactic(auto, unfolding(c_descent::proofs::StatementParser::empty))]
pub fn empty(cursor: &mut Cursor<'_>) -> Result<Stmt, Fault>
    ensures reads { Matches result cursor.new (empty cursor.old) }
    ensures takes { TakesSome result cursor.old cursor.new }
{
    let token = cursor.sign(Sign::Semicolon)?;
    Ok(Stmt::Empty { token })
}

/// What a `;` ends, whose level is open.
#[tactic(auto, unfolding(c_descent::proofs::StatementParser::plain_inside))]
fn plain_inside(alloc: Global, cursor: &mut Cursor<'_>, levels: u32) -> Result<Stmt, Fault>
    ensures reads { Matches result cursor.new (plain_inside MAX_BINARY_OPERATORS levels cursor.old) }
    ensures takes { TakesSome result cursor.old cursor.new }
{
    match plain_at(cursor) {
        Plain::Named => named(alloc, cursor, levels),
        Plain::Release => release(alloc, cursor, levels),
        Plain::Check => check(cursor),
        Plain::Return => returned(alloc, cursor, levels),
        Plain::Break => break_statement(cursor),
        Plain::Continue => continue_statement(cursor),
        Plain::Other => Err(Fault::Expected),
    }
}

/// A local or a statement and the `;` that ends it.
#[tactic(auto, unfolding(c_descent::proofs::StatementParser::ended))]
pub fn plain_ended(alloc: Global, cursor: &mut Cursor<'_>, levels: u32) -> Result<Stmt, Fault>
    ensures reads { Matches result cursor.new
        (ended (plain_inside MAX_BINARY_OPERATORS levels) cursor.old) }
    ensures takes { TakesSome result cursor.old cursor.new }
{
    let tree = plain_inside(alloc, cursor, levels)?;
    cursor.sign(Sign::Semicolon)?;
    Ok(tree)
}

/// A local and its `;`.
#[tactic(auto, unfolding(c_descent::proofs::StatementParser::ended))]
pub fn local_ended(alloc: Global, cursor: &mut Cursor<'_>, levels: u32) -> Result<Stmt, Fault>
    ensures reads { Matches result cursor.new
        (ended (local_statement MAX_BINARY_OPERATORS levels) cursor.old) }
    ensures takes { TakesSome result cursor.old cursor.new }
{
    let tree = local(alloc, cursor, levels)?;
    cursor.sign(Sign::Semicolon)?;
    Ok(tree)
}

/// A part of the head of a `for` that stands there.
#[tactic(auto, unfolding(c_descent::proofs::StatementParser::first_part))]
fn first_part(
    alloc: Global,
    cursor: &mut Cursor<'_>,
    levels: u32,
) -> Result<Option<Boxed<Stmt>>, Fault>
    ensures reads { Matches result cursor.new (first_part MAX_BINARY_OPERATORS levels cursor.old) }
    ensures takes { LeavesUpTo result cursor.old cursor.new }
{
    match start_at(cursor) {
        Start::Empty => Ok(None),
        Start::Local => {
            let tree = local(alloc, cursor, levels)?;
            Ok(Some(Boxed::new(alloc, tree)?))
        }
        _ => {
            let tree = simple(alloc, cursor, levels)?;
            Ok(Some(Boxed::new(alloc, tree)?))
        }
    }
}

/// The last part of the head of a `for`: a simple part or nothing.
#[tactic(auto, unfolding(c_descent::proofs::StatementParser::step_part))]
fn step_part(
    alloc: Global,
    cursor: &mut Cursor<'_>,
    levels: u32,
) -> Result<Option<Boxed<Stmt>>, Fault>
    ensures reads { Matches result cursor.new (step_part MAX_BINARY_OPERATORS levels cursor.old) }
    ensures takes { LeavesUpTo result cursor.old cursor.new }
{
    if cursor.is_at_sign(Sign::RightParenthesis) {
        return Ok(None);
    }
    let tree = simple(alloc, cursor, levels)?;
    Ok(Some(Boxed::new(alloc, tree)?))
}

/// `( first ;`
#[tactic(auto, unfolding(c_descent::proofs::StatementParser::opening))]
fn opening(
    alloc: Global,
    cursor: &mut Cursor<'_>,
    levels: u32,
) -> Result<Option<Boxed<Stmt>>, Fault>
    ensures reads { Matches result cursor.new (opening MAX_BINARY_OPERATORS levels cursor.old) }
    ensures takes { TakesSome result cursor.old cursor.new }
{
    cursor.sign(Sign::LeftParenthesis)?;
    let first = first_part(alloc, cursor, levels)?;
    cursor.sign(Sign::Semicolon)?;
    Ok(first)
}

/// `test ;`
#[tactic(auto, unfolding(c_descent::proofs::StatementParser::test_part))]
fn test_part(alloc: Global, cursor: &mut Cursor<'_>, levels: u32) -> Result<Option<Expr>, Fault>
    ensures reads { Matches result cursor.new (test_part MAX_BINARY_OPERATORS levels cursor.old) }
    ensures takes { TakesSome result cursor.old cursor.new }
{
    let nothing = cursor.is_at_sign(Sign::Semicolon);
    let test = expression_unless(alloc, cursor, levels, nothing)?;
    cursor.sign(Sign::Semicolon)?;
    Ok(test)
}

/// `step )`
#[tactic(auto, unfolding(c_descent::proofs::StatementParser::closing))]
fn closing(
    alloc: Global,
    cursor: &mut Cursor<'_>,
    levels: u32,
) -> Result<Option<Boxed<Stmt>>, Fault>
    ensures reads { Matches result cursor.new (closing MAX_BINARY_OPERATORS levels cursor.old) }
    ensures takes { TakesSome result cursor.old cursor.new }
{
    let step = step_part(alloc, cursor, levels)?;
    cursor.sign(Sign::RightParenthesis)?;
    Ok(step)
}

/// `( first ; test ; step )`
#[tactic(auto, unfolding(c_descent::proofs::StatementParser::head))]
pub fn head(alloc: Global, cursor: &mut Cursor<'_>, levels: u32) -> Result<LoopHead, Fault>
    ensures reads { Matches result cursor.new (head MAX_BINARY_OPERATORS levels cursor.old) }
    ensures takes { TakesSome result cursor.old cursor.new }
{
    let first = opening(alloc, cursor, levels)?;
    let test = test_part(alloc, cursor, levels)?;
    let step = closing(alloc, cursor, levels)?;
    Ok(LoopHead { first, test, step })
}

/// Why no statement is read where no level is left: it would open one too many.
#[tactic(auto, unfolding(c_descent::proofs::StatementParser::barred))]
pub fn barred(cursor: &Cursor<'_>) -> Fault
    ensures { StopsWith result cursor.now (barred cursor.now) }
{
    if begins_statement(start_at(cursor)) {
        Fault::Deep
    } else {
        Fault::Expected
    }
}
