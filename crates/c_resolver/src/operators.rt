//! Operators by the types of their operands (ISO/IEC 9899, sections 6.3.1.8 and 6.5).
ghost use Rattle.std.specs.Prelude.{◌≡◌, cond, IfOk};
ghost use Rattle.c_token.specs.declared.signs.Sign.TheVariants.{LogicalAnd, LogicalOr};
ghost use Rattle.c_resolver.specs.Resolving.{arithmetic, binary_of, comparison, shift, unary_value};
ghost use Rattle.c_semantics.specs.ResolvedTree as Tree;
ghost use Rattle.c_semantics.specs.ResolvedViews.{expr_of};
ghost use Rattle.c_resolver.specs.ResolvingViews.{typed_of};

use crate::typed::{Typed, nothing};
use aegis_num::{BinaryOp, OutOfMemory, UnaryOp};
use c_semantics::Expr;
use c_token::Sign;
use sqlite_items::Boxed;
use std::alloc::Global;

/// An operator that reads its operands as `int`, or as `unsigned`.
fn by_type(unsigned: bool, as_int: BinaryOp, as_unsigned: BinaryOp) -> BinaryOp
    ensures { result ≡ cond unsigned as_unsigned as_int }
{
    if unsigned {
        return as_unsigned;
    }
    as_int
}

/// A value whose type is `unsigned` where one of the operands is.
fn arithmetic(
    alloc: Global,
    at: u32,
    left: Typed,
    right: Typed,
    as_int: BinaryOp,
    as_unsigned: BinaryOp,
) -> Result<Typed, OutOfMemory>
    ensures { IfOk result (λ t. typed_of t ≡ arithmetic (typed_of left) (typed_of right) at as_int as_unsigned) }
{
    let unsigned = left.unsigned || right.unsigned;
    let op = by_type(unsigned, as_int, as_unsigned);
    let left = Boxed::new(alloc, left.expr)?;
    let right = Boxed::new(alloc, right.expr)?;
    Ok(Typed {
        unsigned,
        expr: Expr::Binary {
            at,
            op,
            left,
            right,
        },
    })
}

/// A value with the type of the left operand.
fn shift(
    alloc: Global,
    at: u32,
    left: Typed,
    right: Typed,
    as_int: BinaryOp,
    as_unsigned: BinaryOp,
) -> Result<Typed, OutOfMemory>
    ensures { IfOk result (λ t. typed_of t ≡ shift (typed_of left) (typed_of right) at as_int as_unsigned) }
{
    let unsigned = left.unsigned;
    let op = by_type(unsigned, as_int, as_unsigned);
    let left = Boxed::new(alloc, left.expr)?;
    let right = Boxed::new(alloc, right.expr)?;
    Ok(Typed {
        unsigned,
        expr: Expr::Binary {
            at,
            op,
            left,
            right,
        },
    })
}

/// A value of type `int`.
fn comparison(
    alloc: Global,
    at: u32,
    left: Typed,
    right: Typed,
    as_int: BinaryOp,
    as_unsigned: BinaryOp,
) -> Result<Typed, OutOfMemory>
    ensures { IfOk result (λ t. typed_of t ≡ comparison (typed_of left) (typed_of right) at as_int as_unsigned) }
{
    let op = by_type(left.unsigned || right.unsigned, as_int, as_unsigned);
    let left = Boxed::new(alloc, left.expr)?;
    let right = Boxed::new(alloc, right.expr)?;
    Ok(Typed {
        unsigned: false,
        expr: Expr::Binary {
            at,
            op,
            left,
            right,
        },
    })
}

/// `left && right`
fn both(alloc: Global, left: Typed, right: Typed) -> Result<Typed, OutOfMemory>
    ensures { IfOk result (λ t. typed_of t ≡ binary_of LogicalAnd 0 (typed_of left) (typed_of right)) }
{
    let left = Boxed::new(alloc, left.expr)?;
    let right = Boxed::new(alloc, right.expr)?;
    Ok(Typed {
        unsigned: false,
        expr: Expr::Both { left, right },
    })
}

/// `left || right`
fn either(alloc: Global, left: Typed, right: Typed) -> Result<Typed, OutOfMemory>
    ensures { IfOk result (λ t. typed_of t ≡ binary_of LogicalOr 0 (typed_of left) (typed_of right)) }
{
    let left = Boxed::new(alloc, left.expr)?;
    let right = Boxed::new(alloc, right.expr)?;
    Ok(Typed {
        unsigned: false,
        expr: Expr::Either { left, right },
    })
}

/// An operator of two operands, whose sign is token `at`.
pub fn binary(
    alloc: Global,
    op: Sign,
    at: u32,
    left: Typed,
    right: Typed,
) -> Result<Typed, OutOfMemory>
    ensures { IfOk result (λ t. typed_of t ≡ binary_of op at (typed_of left) (typed_of right)) }
{
    match op {
        Sign::Plus => arithmetic(alloc, at, left, right, BinaryOp::Add, BinaryOp::Add),
        Sign::Minus => arithmetic(alloc, at, left, right, BinaryOp::Sub, BinaryOp::Sub),
        Sign::Star => arithmetic(alloc, at, left, right, BinaryOp::Mul, BinaryOp::Mul),
        Sign::Slash => arithmetic(alloc, at, left, right, BinaryOp::DivS, BinaryOp::DivU),
        Sign::Percent => arithmetic(alloc, at, left, right, BinaryOp::RemS, BinaryOp::RemU),
        Sign::Ampersand => arithmetic(alloc, at, left, right, BinaryOp::And, BinaryOp::And),
        Sign::VerticalBar => arithmetic(alloc, at, left, right, BinaryOp::Or, BinaryOp::Or),
        Sign::Caret => arithmetic(alloc, at, left, right, BinaryOp::Xor, BinaryOp::Xor),
        Sign::ShiftLeft => shift(alloc, at, left, right, BinaryOp::Shl, BinaryOp::Shl),
        Sign::ShiftRight => shift(alloc, at, left, right, BinaryOp::ShrS, BinaryOp::ShrU),
        Sign::EqualTo => comparison(alloc, at, left, right, BinaryOp::Eq, BinaryOp::Eq),
        Sign::NotEqualTo => comparison(alloc, at, left, right, BinaryOp::Ne, BinaryOp::Ne),
        Sign::LessThan => comparison(alloc, at, left, right, BinaryOp::LtS, BinaryOp::LtU),
        Sign::LessOrEqual => comparison(alloc, at, left, right, BinaryOp::LeS, BinaryOp::LeU),
        Sign::GreaterThan => comparison(alloc, at, left, right, BinaryOp::GtS, BinaryOp::GtU),
        Sign::GreaterOrEqual => comparison(alloc, at, left, right, BinaryOp::GeS, BinaryOp::GeU),
        Sign::LogicalAnd => both(alloc, left, right),
        Sign::LogicalOr => either(alloc, left, right),
        Sign::LeftParenthesis
        | Sign::RightParenthesis
        | Sign::LeftBrace
        | Sign::RightBrace
        | Sign::LeftBracket
        | Sign::RightBracket
        | Sign::Semicolon
        | Sign::Comma
        | Sign::Assign
        | Sign::Tilde
        | Sign::Exclamation => Ok(nothing()),
    }
}

/// A value of an operator of one operand, with this type.
fn one_operand(
    alloc: Global,
    op: UnaryOp,
    unsigned: bool,
    inner: Expr,
) -> Result<Typed, OutOfMemory>
    ensures { IfOk result (λ t. typed_of t ≡ record { unsigned = unsigned; expr = Tree.Unary op (expr_of inner) }) }
{
    let inner = Boxed::new(alloc, inner)?;
    Ok(Typed {
        unsigned,
        expr: Expr::Unary { op, inner },
    })
}

/// An operator of one operand.
pub fn unary(alloc: Global, op: Sign, inner: Typed) -> Result<Typed, OutOfMemory>
    ensures { IfOk result (λ t. typed_of t ≡ unary_value op (typed_of inner)) }
{
    match op {
        Sign::Minus => one_operand(alloc, UnaryOp::Neg, inner.unsigned, inner.expr),
        Sign::Tilde => one_operand(alloc, UnaryOp::Inv, inner.unsigned, inner.expr),
        Sign::Exclamation => one_operand(alloc, UnaryOp::Not, false, inner.expr),
        Sign::LeftParenthesis
        | Sign::RightParenthesis
        | Sign::LeftBrace
        | Sign::RightBrace
        | Sign::LeftBracket
        | Sign::RightBracket
        | Sign::Semicolon
        | Sign::Comma
        | Sign::Assign
        | Sign::Plus
        | Sign::Star
        | Sign::Slash
        | Sign::Percent
        | Sign::Ampersand
        | Sign::VerticalBar
        | Sign::Caret
        | Sign::LessThan
        | Sign::GreaterThan
        | Sign::LessOrEqual
        | Sign::GreaterOrEqual
        | Sign::EqualTo
        | Sign::NotEqualTo
        | Sign::ShiftLeft
        | Sign::ShiftRight
        | Sign::LogicalAnd
        | Sign::LogicalOr => Ok(nothing()),
    }
}
