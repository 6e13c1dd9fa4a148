//! Expressions, lowered by their structure. A value comes into a cell, and what it is made of into those below.
ghost use Rattle.std.specs.Prelude.{◌≡◌, ◌+◌, [], ◌∷◌, ◌++◌, OnOk};
ghost use Rattle.aegis_num.specs.declared.operators.UnaryOp.TheVariants.{Not};
ghost use Rattle.c_semantics.specs.ResolvedTree as tree;
ghost use Rattle.c_semantics.specs.ResolvedViews.{expr_of, exprs_of};
ghost use Rattle.ir_code.specs.declared.ops.Op.TheVariants as op;
ghost use Rattle.lowering.specs.Lowering.{labels_in, labels_in_all, testing_divisor, value_code, values_code};
ghost use Rattle.secure_split.specs.SplitViews.{scope_of};

use crate::calls::{call, pass};
use crate::code::Code;
use crate::scope::Scope;
use aegis_num::{BinaryOp, OutOfMemory, UnaryOp};
use c_semantics::{Expr, Variable};
use ir_code::Op;

/// The value of an expression comes into cell `r`.
#[cycle(lower)]
pub fn value(code: &mut Code, scope: &Scope, r: u32, e: &Expr) -> Result<(), OutOfMemory>
    ensures ops { OnOk result (code.new.ops ≡ code.old.ops ++ value_code (scope_of scope.now) r code.old.labels (expr_of e.now)) }
    ensures labels { OnOk result (code.new.labels ≡ code.old.labels + labels_in (expr_of e.now)) }
{
    match e {
        Expr::Number { value } => {
            code.emit(Op::Const {
                to: r,
                value: *value,
            })?;
            Ok(())
        }
        Expr::Scalar { variable } => {
            let from = scope.home(variable.token)?;
            code.emit(Op::Copy { to: r, from })?;
            Ok(())
        }
        Expr::Indexed {
            at,
            array,
            length,
            index,
        } => element(code, scope, r, *at, *array, *length, index.get()),
        Expr::Called {
            function,
            arguments,
        } => called(code, scope, r, *function, arguments.as_slice()),
        Expr::Input => {
            code.emit(Op::Input { to: r })?;
            Ok(())
        }
        Expr::Unary { op, inner } => unary(code, scope, r, *op, inner.get()),
        Expr::Binary {
            at,
            op,
            left,
            right,
        } => binary(code, scope, r, *at, *op, left.get(), right.get()),
        Expr::Both { left, right } => both(code, scope, r, left.get(), right.get()),
        Expr::Either { left, right } => either(code, scope, r, left.get(), right.get()),
    }
}

/// The word of an element of an array. Its index is tested first.
#[cycle(lower)]
fn element(
    code: &mut Code,
    scope: &Scope,
    r: u32,
    at: u32,
    array: Variable,
    length: u32,
    index: &Expr,
) -> Result<(), OutOfMemory>
    ensures ops { OnOk result (code.new.ops ≡ code.old.ops
        ++ value_code (scope_of scope.now) r code.old.labels (tree.Indexed at array length (expr_of index.now))) }
    ensures labels { OnOk result (code.new.labels ≡ code.old.labels + labels_in (expr_of index.now)) }
{
    value(code, scope, r, index)?;
    let array = scope.home(array.token)?;
    test_index(code, r, length, at)?;
    code.emit(Op::Load {
        to: r,
        array,
        index: r,
    })?;
    Ok(())
}

/// The value of a call.
#[cycle(lower)]
fn called(
    code: &mut Code,
    scope: &Scope,
    r: u32,
    function: usize,
    arguments: &[Expr],
) -> Result<(), OutOfMemory>
    ensures ops { OnOk result (code.new.ops ≡ code.old.ops
        ++ value_code (scope_of scope.now) r code.old.labels (tree.Called function (exprs_of arguments.now))) }
    ensures labels { OnOk result (code.new.labels ≡ code.old.labels + labels_in_all (exprs_of arguments.now)) }
{
    values(code, scope, r, arguments)?;
    pass(code, r, arguments)?;
    call(code, scope, function)?;
    code.emit(Op::Result { to: r })?;
    Ok(())
}

/// The value of an operator of one operand.
#[cycle(lower)]
fn unary(
    code: &mut Code,
    scope: &Scope,
    r: u32,
    op: UnaryOp,
    inner: &Expr,
) -> Result<(), OutOfMemory>
    ensures ops { OnOk result (code.new.ops ≡ code.old.ops
        ++ value_code (scope_of scope.now) r code.old.labels (tree.Unary op (expr_of inner.now))) }
    ensures labels { OnOk result (code.new.labels ≡ code.old.labels + labels_in (expr_of inner.now)) }
{
    value(code, scope, r, inner)?;
    code.emit(Op::Unary { op, to: r, a: r })?;
    Ok(())
}

/// An index is tested.
pub fn test_index(code: &mut Code, index: u32, length: u32, at: u32) -> Result<(), OutOfMemory>
    ensures ops { OnOk result (code.new.ops ≡ code.old.ops ++ op.Test index length at ∷ []) }
    ensures labels { OnOk result (code.new.labels ≡ code.old.labels) }
{
    code.emit(Op::Test {
        a: index,
        length,
        token: at,
    })?;
    Ok(())
}

/// A divisor is tested.
fn test_divisor(code: &mut Code, op: BinaryOp, b: u32, at: u32) -> Result<(), OutOfMemory>
    ensures ops { OnOk result (code.new.ops ≡ code.old.ops ++ testing_divisor op b at) }
    ensures labels { OnOk result (code.new.labels ≡ code.old.labels) }
{
    match op {
        BinaryOp::DivS | BinaryOp::DivU | BinaryOp::RemS | BinaryOp::RemU => {
            code.emit(Op::NonZero { a: b, token: at })?;
            Ok(())
        }
        _ => Ok(()),
    }
}

/// A cell's word becomes 1 where it is zero, and else zero.
fn negate(code: &mut Code, r: u32) -> Result<(), OutOfMemory>
    ensures ops { OnOk result (code.new.ops ≡ code.old.ops ++ op.Unary Not r r ∷ []) }
    ensures labels { OnOk result (code.new.labels ≡ code.old.labels) }
{
    code.emit(Op::Unary {
        op: UnaryOp::Not,
        to: r,
        a: r,
    })?;
    Ok(())
}

/// The value of an operator of two operands.
#[cycle(lower)]
fn binary(
    code: &mut Code,
    scope: &Scope,
    r: u32,
    at: u32,
    op: BinaryOp,
    left: &Expr,
    right: &Expr,
) -> Result<(), OutOfMemory>
    ensures ops { OnOk result (code.new.ops ≡ code.old.ops
        ++ value_code (scope_of scope.now) r code.old.labels (tree.Binary at op (expr_of left.now) (expr_of right.now))) }
    ensures labels { OnOk result (code.new.labels ≡ code.old.labels + (labels_in (expr_of left.now) + labels_in (expr_of right.now))) }
{
    let b = r.saturating_sub(1);
    value(code, scope, r, left)?;
    value(code, scope, b, right)?;
    test_divisor(code, op, b, at)?;
    code.emit(Op::Binary { op, to: r, a: r, b })?;
    Ok(())
}

/// The value of `&&`.
#[cycle(lower)]
fn both(
    code: &mut Code,
    scope: &Scope,
    r: u32,
    left: &Expr,
    right: &Expr,
) -> Result<(), OutOfMemory>
    ensures ops { OnOk result (code.new.ops ≡ code.old.ops
        ++ value_code (scope_of scope.now) r code.old.labels (tree.Both (expr_of left.now) (expr_of right.now))) }
    ensures labels { OnOk result (code.new.labels
        ≡ code.old.labels + (1 + (labels_in (expr_of left.now) + labels_in (expr_of right.now)))) }
{
    let end = code.fresh_label()?;
    value(code, scope, r, left)?;
    code.emit(Op::JumpZero { a: r, l: end })?;
    value(code, scope, r, right)?;
    negate(code, r)?;
    negate(code, r)?;
    code.emit(Op::Label(end))?;
    Ok(())
}

/// The value of `||`.
#[cycle(lower)]
fn either(
    code: &mut Code,
    scope: &Scope,
    r: u32,
    left: &Expr,
    right: &Expr,
) -> Result<(), OutOfMemory>
    ensures ops { OnOk result (code.new.ops ≡ code.old.ops
        ++ value_code (scope_of scope.now) r code.old.labels (tree.Either (expr_of left.now) (expr_of right.now))) }
    ensures labels { OnOk result (code.new.labels
        ≡ code.old.labels + (1 + (labels_in (expr_of left.now) + labels_in (expr_of right.now)))) }
{
    let decided = code.fresh_label()?;
    value(code, scope, r, left)?;
    negate(code, r)?;
    code.emit(Op::JumpZero { a: r, l: decided })?;
    value(code, scope, r, right)?;
    negate(code, r)?;
    code.emit(Op::Label(decided))?;
    negate(code, r)?;
    Ok(())
}

/// The values of expressions, each in a cell of its own, from this one downward.
#[cycle(lower)]
#[tactic(auto, using(crate::proofs::Lists::arguments))]
pub fn values(code: &mut Code, scope: &Scope, r: u32, es: &[Expr]) -> Result<(), OutOfMemory>
    ensures ops { OnOk result (code.new.ops ≡ code.old.ops ++ values_code (scope_of scope.now) r code.old.labels (exprs_of es.now)) }
    ensures labels { OnOk result (code.new.labels ≡ code.old.labels + labels_in_all (exprs_of es.now)) }
{
    let mut to = r;
    for e in es {
        value(code, scope, to, e)?;
        to = to.saturating_sub(1);
    }
    Ok(())
}
