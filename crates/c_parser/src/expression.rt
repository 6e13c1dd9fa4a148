//! Expressions.
ghost use Rattle.std.specs.Prelude.{◌≡◌, ◌≤◌, ◌+◌, Some};
ghost use Rattle.c_grammar.specs.Precedence.{loosest};
ghost use Rattle.c_descent.proofs.ListParser.{first_kind, after_comma, separated};
ghost use Rattle.c_descent.proofs.ExpressionParser.{operator_at, unary_sign, operand_of, joined_operand, chained, binary_expression, expression, paren, subscript, argument_list, arguments, element_expression, call_expression, after_name, name_expression, literal, input, primary, signed_expression, unary_expression, levels_inside, expression_at};
ghost use Rattle.c_parser.specs.Levels.{OpensLevel, OpensInside};
ghost use Rattle.c_parser.specs.CursorAnswers.{Matches, TakesSome, LeavesUpTo};

use crate::cursor::Cursor;
use crate::fault::Fault;
use aegis_num::limits::MAX_BINARY_OPERATORS;
use c_descent::{Bracketed, Grown, Named, Operand};
use c_grammar::{Expr, is_unary_operator, precedence};
use c_token::{Kind, Sign, Word};
use sqlite_items::{Boxed, Items};
use std::alloc::Global;

/// The loosest level of the operators of two operands.
const LOOSEST: u32 = 10;

/// How many levels are left when one more is opened.
#[tactic(auto, unfolding(c_descent::proofs::ExpressionParser::levels_inside, c_descent::proofs::ExpressionParser::unary_expression))]
pub fn open(levels: u32) -> Result<u32, Fault>
    ensures opens { OpensLevel levels result }
    ensures inside { OpensInside MAX_BINARY_OPERATORS levels result }
{
    if levels == 0 {
        Err(Fault::Deep)
    } else {
        Ok(levels - 1)
    }
}

/// The first token, where it is an operator of this rank.
#[tactic(auto, unfolding(c_descent::proofs::ExpressionParser::operator_at))]
fn operator_at(cursor: &Cursor<'_>, rank: u32) -> Option<Sign>
    ensures { result ≡ operator_at rank cursor.now }
{
    match cursor.first_kind() {
        Some(Kind::Sign(op)) if precedence(op) == rank => Some(op),
        _ => None,
    }
}

/// The sign, where it is an operator of one operand.
fn unary_of(kind: Option<Kind>) -> Option<Sign>
    ensures { result ≡ unary_sign kind }
{
    match kind {
        Some(Kind::Sign(op)) if is_unary_operator(op) => Some(op),
        _ => None,
    }
}

/// What a token begins that is no operator.
fn operand_of(kind: Option<Kind>) -> Operand
    ensures { result ≡ operand_of kind }
{
    match kind {
        Some(Kind::Number { .. }) => Operand::Number,
        Some(Kind::Name(_)) => Operand::Name,
        Some(Kind::Word(Word::Input)) => Operand::Input,
        Some(Kind::Sign(Sign::LeftParenthesis)) => Operand::Paren,
        _ => Operand::Other,
    }
}

/// A number.
#[tactic(auto, unfolding(c_descent::proofs::ExpressionParser::literal))]
fn literal(cursor: &mut Cursor<'_>) -> Result<Expr, Fault>
    ensures reads { Matches result cursor.new (literal cursor.old) }
    ensures takes { TakesSome result cursor.old cursor.new }
{
    let found = cursor.number()?;
    Ok(Expr::Number {
        value: found.value,
        unsigned: found.unsigned,
        token: found.token,
    })
}

/// `input()`
#[tactic(auto, unfolding(c_descent::proofs::ExpressionParser::input))]
fn input(cursor: &mut Cursor<'_>) -> Result<Expr, Fault>
    ensures reads { Matches result cursor.new (input cursor.old) }
    ensures takes { TakesSome result cursor.old cursor.new }
{
    let token = cursor.word(Word::Input)?;
    cursor.sign(Sign::LeftParenthesis)?;
    cursor.sign(Sign::RightParenthesis)?;
    Ok(Expr::Input { token })
}

/// An operator of one operand, and the operand.
#[cycle(expressions)]
#[tactic(auto, unfolding(c_descent::proofs::ExpressionParser::signed_expression))]
fn signed(alloc: Global, cursor: &mut Cursor<'_>, levels: u32, op: Sign) -> Result<Expr, Fault>
    ensures reads { Matches result cursor.new
        (signed_expression (levels_inside MAX_BINARY_OPERATORS levels) op cursor.old) }
    ensures takes { TakesSome result cursor.old cursor.new }
{
    let levels = open(levels)?;
    let token = cursor.sign(op)?;
    let inner = unary(alloc, cursor, levels)?;
    let inner = Boxed::new(alloc, inner)?;
    Ok(Expr::Unary { op, inner, token })
}

/// `(`, an expression and `)`.
#[cycle(expressions)]
#[tactic(auto, unfolding(c_descent::proofs::ExpressionParser::paren))]
fn paren(alloc: Global, cursor: &mut Cursor<'_>, levels: u32) -> Result<Expr, Fault>
    ensures reads { Matches result cursor.new
        (paren MAX_BINARY_OPERATORS (levels_inside MAX_BINARY_OPERATORS levels) cursor.old) }
    ensures takes { TakesSome result cursor.old cursor.new }
{
    let levels = open(levels)?;
    let token = cursor.sign(Sign::LeftParenthesis)?;
    let inner = expression(alloc, cursor, levels)?;
    cursor.sign(Sign::RightParenthesis)?;
    let inner = Boxed::new(alloc, inner)?;
    Ok(Expr::Paren { inner, token })
}

/// `[`, an expression and `]`.
#[cycle(expressions)]
#[tactic(auto, unfolding(c_descent::proofs::ExpressionParser::subscript))]
pub fn subscript(alloc: Global, cursor: &mut Cursor<'_>, levels: u32) -> Result<Bracketed, Fault>
    ensures reads { Matches result cursor.new
        (subscript MAX_BINARY_OPERATORS (levels_inside MAX_BINARY_OPERATORS levels) cursor.old) }
    ensures takes { TakesSome result cursor.old cursor.new }
{
    let levels = open(levels)?;
    let token = cursor.sign(Sign::LeftBracket)?;
    let index = expression(alloc, cursor, levels)?;
    cursor.sign(Sign::RightBracket)?;
    Ok(Bracketed { index, token })
}

/// A comma, and the expression after it.
#[cycle(expressions)]
#[tactic(auto, unfolding(c_descent::proofs::ListParser::after_comma))]
fn after_comma(alloc: Global, cursor: &mut Cursor<'_>, levels: u32) -> Result<Expr, Fault>
    ensures reads { Matches result cursor.new
        (after_comma (expression_at MAX_BINARY_OPERATORS levels) cursor.old) }
    ensures takes { TakesSome result cursor.old cursor.new }
{
    cursor.sign(Sign::Comma)?;
    expression(alloc, cursor, levels)
}

/// One or more expressions, with commas between them.
#[cycle(expressions)]
#[tactic(auto, unfolding(c_descent::proofs::ListParser::separated))]
fn separated(alloc: Global, cursor: &mut Cursor<'_>, levels: u32) -> Result<Items<Expr>, Fault>
    ensures reads { Matches result cursor.new
        (separated (expression_at MAX_BINARY_OPERATORS levels) cursor.old) }
    ensures takes { TakesSome result cursor.old cursor.new }
{
    let mut trees = Items::new(alloc);
    let first = expression(alloc, cursor, levels)?;
    trees.push(first)?;
    'each: while cursor.is_at_sign(Sign::Comma) {
        let tree = after_comma(alloc, cursor, levels)?;
        trees.push(tree)?;
    }
    Ok(trees)
}

/// Arguments up to `)`, which is left.
#[cycle(expressions)]
#[tactic(auto, unfolding(c_descent::proofs::ExpressionParser::argument_list))]
fn listed(alloc: Global, cursor: &mut Cursor<'_>, levels: u32) -> Result<Items<Expr>, Fault>
    ensures reads { Matches result cursor.new
        (argument_list MAX_BINARY_OPERATORS (unary_expression MAX_BINARY_OPERATORS levels) cursor.old) }
    ensures takes { LeavesUpTo result cursor.old cursor.new }
{
    if cursor.is_at_sign(Sign::RightParenthesis) {
        Ok(Items::new(alloc))
    } else {
        separated(alloc, cursor, levels)
    }
}

/// `(`, arguments and `)`.
#[cycle(expressions)]
#[tactic(auto, unfolding(c_descent::proofs::ExpressionParser::arguments))]
pub fn arguments(alloc: Global, cursor: &mut Cursor<'_>, levels: u32) -> Result<Items<Expr>, Fault>
    ensures reads { Matches result cursor.new
        (arguments MAX_BINARY_OPERATORS (levels_inside MAX_BINARY_OPERATORS levels) cursor.old) }
    ensures takes { TakesSome result cursor.old cursor.new }
{
    let levels = open(levels)?;
    cursor.sign(Sign::LeftParenthesis)?;
    let trees = listed(alloc, cursor, levels)?;
    cursor.sign(Sign::RightParenthesis)?;
    Ok(trees)
}

/// `[ index ]` after a name.
#[cycle(expressions)]
#[tactic(auto, unfolding(c_descent::proofs::ExpressionParser::element_expression))]
fn indexed(alloc: Global, cursor: &mut Cursor<'_>, levels: u32, name: Named) -> Result<Expr, Fault>
    ensures reads { Matches result cursor.new
        (element_expression MAX_BINARY_OPERATORS (levels_inside MAX_BINARY_OPERATORS levels) name cursor.old) }
    ensures takes { TakesSome result cursor.old cursor.new }
{
    let Bracketed { index, token } = subscript(alloc, cursor, levels)?;
    let index = Boxed::new(alloc, index)?;
    Ok(Expr::Index {
        name: name.name,
        index,
        token,
    })
}

/// `( arguments )` after a name.
#[cycle(expressions)]
#[tactic(auto, unfolding(c_descent::proofs::ExpressionParser::call_expression))]
fn called(alloc: Global, cursor: &mut Cursor<'_>, levels: u32, name: Named) -> Result<Expr, Fault>
    ensures reads { Matches result cursor.new
        (call_expression MAX_BINARY_OPERATORS (levels_inside MAX_BINARY_OPERATORS levels) name cursor.old) }
    ensures takes { TakesSome result cursor.old cursor.new }
{
    let arguments = arguments(alloc, cursor, levels)?;
    Ok(Expr::Call {
        name: name.name,
        arguments,
        token: name.token,
    })
}

/// What may stand after a name: an index, arguments, or nothing.
#[cycle(expressions)]
#[tactic(auto, unfolding(c_descent::proofs::ExpressionParser::after_name))]
fn after_name(
    alloc: Global,
    cursor: &mut Cursor<'_>,
    levels: u32,
    name: Named,
) -> Result<Expr, Fault>
    ensures reads { Matches result cursor.new
        (after_name MAX_BINARY_OPERATORS (levels_inside MAX_BINARY_OPERATORS levels) name cursor.old) }
    ensures takes { LeavesUpTo result cursor.old cursor.new }
{
    if cursor.is_at_sign(Sign::LeftBracket) {
        return indexed(alloc, cursor, levels, name);
    }
    if cursor.is_at_sign(Sign::LeftParenthesis) {
        return called(alloc, cursor, levels, name);
    }
    Ok(Expr::Name {
        name: name.name,
        token: name.token,
    })
}

/// A name, with an index or arguments.
#[cycle(expressions)]
#[tactic(auto, unfolding(c_descent::proofs::ExpressionParser::name_expression))]
fn named(alloc: Global, cursor: &mut Cursor<'_>, levels: u32) -> Result<Expr, Fault>
    ensures reads { Matches result cursor.new
        (name_expression MAX_BINARY_OPERATORS (levels_inside MAX_BINARY_OPERATORS levels) cursor.old) }
    ensures takes { TakesSome result cursor.old cursor.new }
{
    let name = cursor.name()?;
    after_name(alloc, cursor, levels, name)
}

/// What is no operator: a number, a name, `input()` or an expression between parentheses.
#[cycle(expressions)]
#[tactic(auto, unfolding(c_descent::proofs::ExpressionParser::primary))]
fn primary(alloc: Global, cursor: &mut Cursor<'_>, levels: u32) -> Result<Expr, Fault>
    ensures reads { Matches result cursor.new
        (primary MAX_BINARY_OPERATORS (levels_inside MAX_BINARY_OPERATORS levels) cursor.old) }
    ensures takes { TakesSome result cursor.old cursor.new }
{
    match operand_of(cursor.first_kind()) {
        Operand::Number => literal(cursor),
        Operand::Name => named(alloc, cursor, levels),
        Operand::Input => input(cursor),
        Operand::Paren => paren(alloc, cursor, levels),
        Operand::Other => Err(Fault::Expected),
    }
}

/// A unary expression.
#[cycle(expressions)]
#[tactic(auto, unfolding(c_descent::proofs::ExpressionParser::unary_expression, c_descent::proofs::ExpressionParser::unary_in))]
fn unary(alloc: Global, cursor: &mut Cursor<'_>, levels: u32) -> Result<Expr, Fault>
    ensures reads { Matches result cursor.new (unary_expression MAX_BINARY_OPERATORS levels cursor.old) }
    ensures takes { TakesSome result cursor.old cursor.new }
{
    match unary_of(cursor.first_kind()) {
        Some(op) => signed(alloc, cursor, levels, op),
        None => primary(alloc, cursor, levels),
    }
}

/// An operator at the next token, and its right operand, whose operators have at most this rank. The left operand is
/// here already.
#[cycle(expressions)]
#[tactic(auto, unfolding(c_descent::proofs::ExpressionParser::joined_operand))]
fn joined(
    alloc: Global,
    cursor: &mut Cursor<'_>,
    levels: u32,
    rank: u32,
    op: Sign,
    left: Grown,
) -> Result<Grown, Fault>
    requires { rank ≤ loosest }
    ensures reads { Matches result cursor.new
        (joined_operand MAX_BINARY_OPERATORS (binary_expression MAX_BINARY_OPERATORS (unary_expression MAX_BINARY_OPERATORS levels) rank) op left
        cursor.old) }
    ensures takes { TakesSome result cursor.old cursor.new }
{
    let Grown { tree: left, used } = left;
    if used >= MAX_BINARY_OPERATORS {
        return Err(Fault::Deep);
    }
    let token = cursor.sign(op)?;
    let right = binary(alloc, cursor, levels, rank, used + 1)?;
    let tree = Expr::Binary {
        op,
        left: Boxed::new(alloc, left)?,
        right: Boxed::new(alloc, right.tree)?,
        token,
    };
    Ok(Grown {
        tree,
        used: right.used,
    })
}

/// The operators of the rank above this one and their right operands, all grouping to the left.
#[cycle(expressions)]
#[tactic(auto, unfolding(c_descent::proofs::ExpressionParser::chained))]
fn chained(
    alloc: Global,
    cursor: &mut Cursor<'_>,
    levels: u32,
    rank: u32,
    left: Grown,
) -> Result<Grown, Fault>
    requires { rank ≤ loosest }
    ensures reads { Matches result cursor.new
        (chained MAX_BINARY_OPERATORS (binary_expression MAX_BINARY_OPERATORS (unary_expression MAX_BINARY_OPERATORS levels) rank) (rank + 1)
        left cursor.old) }
    ensures takes { LeavesUpTo result cursor.old cursor.new }
{
    let mut left = left;
    'each: while let Some(op) = operator_at(cursor, rank + 1) {
        left = joined(alloc, cursor, levels, rank, op, left)?;
    }
    Ok(left)
}

/// An expression whose operators have at most this rank, where so many operators stand before it in the whole one.
#[cycle(expressions)]
#[tactic(auto, unfolding(c_descent::proofs::ExpressionParser::binary_expression))]
fn binary(
    alloc: Global,
    cursor: &mut Cursor<'_>,
    levels: u32,
    rank: u32,
    used: u32,
) -> Result<Grown, Fault>
    requires { rank ≤ loosest }
    ensures reads { Matches result cursor.new
        (binary_expression MAX_BINARY_OPERATORS (unary_expression MAX_BINARY_OPERATORS levels) rank used cursor.old) }
    ensures takes { TakesSome result cursor.old cursor.new }
{
    if rank == 0 {
        let tree = unary(alloc, cursor, levels)?;
        return Ok(Grown { tree, used });
    }
    let left = binary(alloc, cursor, levels, rank - 1, used)?;
    chained(alloc, cursor, levels, rank - 1, left)
}

/// An expression.
#[cycle(expressions)]
#[tactic(auto, unfolding(c_descent::proofs::ExpressionParser::expression))]
pub fn expression(alloc: Global, cursor: &mut Cursor<'_>, levels: u32) -> Result<Expr, Fault>
    ensures reads { Matches result cursor.new (expression_at MAX_BINARY_OPERATORS levels cursor.old) }
    ensures takes { TakesSome result cursor.old cursor.new }
{
    let grown = binary(alloc, cursor, levels, LOOSEST, 0)?;
    Ok(grown.tree)
}
