//! Statements, lowered by their structure.
ghost use Rattle.std.specs.Prelude.{ℕ, ◌≡◌, ◌+◌, [], ◌∷◌, ◌++◌, OnOk};
ghost use Rattle.c_semantics.specs.ResolvedTree as tree;
ghost use Rattle.c_semantics.specs.ResolvedViews.{branch_of, expr_of, exprs_of, part_of, stmt_of, stmts_of};
ghost use Rattle.ir_code.specs.declared.ops.Op.TheVariants as op;
ghost use Rattle.lowering.specs.Lowering.{Exits as LoweringExits, labels_in, labels_in_all, labels_in_part, labels_within, statement_code, value_or};
ghost use Rattle.secure_split.specs.SplitViews.{exits_of, scope_of};

use crate::calls::{call, pass};
use crate::code::Code;
use crate::expressions::{test_index, value, values};
use crate::scope::{Exits, Scope};
use aegis_num::OutOfMemory;
use c_semantics::{Expr, Stmt, Variable};
use ir_code::Op;
use sqlite_items::Boxed;

/// The value of an expression comes into cell `r`, or this word where there is no expression.
fn value_or(
    code: &mut Code,
    scope: &Scope,
    r: u32,
    missing: u32,
    e: &Option<Expr>,
) -> Result<(), OutOfMemory>
    ensures ops { OnOk result (code.new.ops ≡ code.old.ops ++ value_or missing (scope_of scope.now) r code.old.labels (part_of e.now)) }
    ensures labels { OnOk result (code.new.labels ≡ code.old.labels + labels_in_part (part_of e.now)) }
{
    match e {
        None => {
            code.emit(Op::Const {
                to: r,
                value: missing,
            })?;
            Ok(())
        }
        Some(e) => value(code, scope, r, e),
    }
}

/// What is made of a statement. It uses the cells from this one downward, and goes to these labels.
#[cycle(lower)]
#[tactic(auto, using(crate::proofs::Views::statements))]
pub fn statement(
    code: &mut Code,
    scope: &Scope,
    exits: Exits,
    r: u32,
    s: &Stmt,
) -> Result<(), OutOfMemory>
    ensures ops { OnOk result (code.new.ops ≡ code.old.ops ++ statement_code (scope_of scope.now) (exits_of exits) r code.old.labels (stmt_of s.now)) }
    ensures labels { OnOk result (code.new.labels ≡ code.old.labels + labels_within (stmt_of s.now)) }
{
    match s {
        Stmt::Empty => Ok(()),
        Stmt::Block { body } => statements(code, scope, exits, r, body.as_slice()),
        Stmt::If { test, body, other } => choice(code, scope, exits, r, test, body.get(), other),
        Stmt::While { test, body } => while_loop(code, scope, exits, r, test, body.get()),
        Stmt::For {
            first,
            test,
            step,
            body,
        } => for_loop(code, scope, exits, r, first, test, step, body.get()),
        Stmt::Local { variable, value } => local(code, scope, r, *variable, value),
        Stmt::Assign { variable, value } => assign(code, scope, r, *variable, value),
        Stmt::Store {
            at,
            array,
            length,
            index,
            value,
        } => store(code, scope, r, *at, *array, *length, index, value),
        Stmt::Call {
            function,
            arguments,
        } => call_alone(code, scope, r, *function, arguments.as_slice()),
        Stmt::Suspend => alone(code, Op::Suspend),
        Stmt::Release { value } => release(code, scope, r, value),
        Stmt::Check => alone(code, Op::Check),
        Stmt::Return { value } => leave(code, scope, exits.returned, r, value),
        Stmt::Break => alone(code, Op::Jump(exits.broken)),
        Stmt::Continue => alone(code, Op::Jump(exits.continued)),
    }
}

/// One operation.
fn alone(code: &mut Code, op: Op) -> Result<(), OutOfMemory>
    ensures ops { OnOk result (code.new.ops ≡ code.old.ops ++ op ∷ []) }
    ensures labels { OnOk result (code.new.labels ≡ code.old.labels) }
{
    code.emit(op)?;
    Ok(())
}

/// What is made of statements, one after the other.
#[cycle(lower)]
#[tactic(auto, using(crate::proofs::Lists::blocks))]
pub fn statements(
    code: &mut Code,
    scope: &Scope,
    exits: Exits,
    r: u32,
    ss: &[Stmt],
) -> Result<(), OutOfMemory>
    ensures ops { OnOk result (code.new.ops ≡ code.old.ops ++ statement_code (scope_of scope.now) (exits_of exits) r code.old.labels (stmts_of ss.now)) }
    ensures labels { OnOk result (code.new.labels ≡ code.old.labels + labels_within (stmts_of ss.now)) }
{
    for s in ss {
        statement(code, scope, exits, r, s)?;
    }
    Ok(())
}

/// What is made of a statement that need not be there.
#[cycle(lower)]
fn branch(
    code: &mut Code,
    scope: &Scope,
    exits: Exits,
    r: u32,
    s: &Option<Boxed<Stmt>>,
) -> Result<(), OutOfMemory>
    ensures ops { OnOk result (code.new.ops ≡ code.old.ops ++ statement_code (scope_of scope.now) (exits_of exits) r code.old.labels (branch_of s.now)) }
    ensures labels { OnOk result (code.new.labels ≡ code.old.labels + labels_within (branch_of s.now)) }
{
    match s {
        None => Ok(()),
        Some(s) => statement(code, scope, exits, r, s.get()),
    }
}

/// A cell's word becomes that of a variable.
fn keep(code: &mut Code, scope: &Scope, r: u32, variable: Variable) -> Result<(), OutOfMemory>
    ensures ops { OnOk result (code.new.ops ≡ code.old.ops ++ op.Copy ((scope_of scope.now).home variable.token) r ∷ []) }
    ensures labels { OnOk result (code.new.labels ≡ code.old.labels) }
{
    let to = scope.home(variable.token)?;
    code.emit(Op::Copy { to, from: r })?;
    Ok(())
}

/// The declaration of a local.
fn local(
    code: &mut Code,
    scope: &Scope,
    r: u32,
    variable: Variable,
    value: &Option<Expr>,
) -> Result<(), OutOfMemory>
    ensures ops { (exits : LoweringExits) → OnOk result (code.new.ops ≡ code.old.ops
        ++ statement_code (scope_of scope.now) exits r code.old.labels (tree.Local variable (part_of value.now))) }
    ensures labels { OnOk result (code.new.labels ≡ code.old.labels + labels_in_part (part_of value.now)) }
{
    value_or(code, scope, r, 0, value)?;
    keep(code, scope, r, variable)?;
    Ok(())
}

/// An assignment to a variable that is no array.
fn assign(
    code: &mut Code,
    scope: &Scope,
    r: u32,
    variable: Variable,
    e: &Expr,
) -> Result<(), OutOfMemory>
    ensures ops { (exits : LoweringExits) → OnOk result (code.new.ops ≡ code.old.ops
        ++ statement_code (scope_of scope.now) exits r code.old.labels (tree.Assign variable (expr_of e.now))) }
    ensures labels { OnOk result (code.new.labels ≡ code.old.labels + labels_in (expr_of e.now)) }
{
    value(code, scope, r, e)?;
    keep(code, scope, r, variable)?;
    Ok(())
}

/// An assignment to an element of an array. Its index is tested before the value.
fn store(
    code: &mut Code,
    scope: &Scope,
    r: u32,
    at: u32,
    array: Variable,
    length: u32,
    index: &Expr,
    e: &Expr,
) -> Result<(), OutOfMemory>
    ensures ops { (exits : LoweringExits) → OnOk result (code.new.ops ≡ code.old.ops
        ++ statement_code (scope_of scope.now) exits r code.old.labels (tree.Store at array length (expr_of index.now) (expr_of e.now))) }
    ensures labels { OnOk result (code.new.labels ≡ code.old.labels + (labels_in (expr_of index.now) + labels_in (expr_of e.now))) }
{
    let from = r.saturating_sub(1);
    let array = scope.home(array.token)?;
    value(code, scope, r, index)?;
    test_index(code, r, length, at)?;
    value(code, scope, from, e)?;
    code.emit(Op::Store {
        array,
        index: r,
        from,
    })?;
    Ok(())
}

/// A call whose value is dropped.
fn call_alone(
    code: &mut Code,
    scope: &Scope,
    r: u32,
    function: usize,
    arguments: &[Expr],
) -> Result<(), OutOfMemory>
    ensures ops { (exits : LoweringExits) → OnOk result (code.new.ops ≡ code.old.ops
        ++ statement_code (scope_of scope.now) exits r code.old.labels (tree.Call function (exprs_of arguments.now))) }
    ensures labels { OnOk result (code.new.labels ≡ code.old.labels + labels_in_all (exprs_of arguments.now)) }
{
    values(code, scope, r, arguments)?;
    pass(code, r, arguments)?;
    call(code, scope, function)?;
    Ok(())
}

/// A release.
fn release(code: &mut Code, scope: &Scope, r: u32, e: &Expr) -> Result<(), OutOfMemory>
    ensures ops { (exits : LoweringExits) → OnOk result (code.new.ops ≡ code.old.ops
        ++ statement_code (scope_of scope.now) exits r code.old.labels (tree.Release (expr_of e.now))) }
    ensures labels { OnOk result (code.new.labels ≡ code.old.labels + labels_in (expr_of e.now)) }
{
    value(code, scope, r, e)?;
    code.emit(Op::Release { a: r })?;
    Ok(())
}

/// A `return`.
fn leave(
    code: &mut Code,
    scope: &Scope,
    end: u32,
    r: u32,
    e: &Option<Expr>,
) -> Result<(), OutOfMemory>
    ensures ops { OnOk result (code.new.ops ≡ code.old.ops
        ++ (value_or 0 (scope_of scope.now) r code.old.labels (part_of e.now) ++ (op.Jump end ∷ []))) }
    ensures labels { OnOk result (code.new.labels ≡ code.old.labels + labels_in_part (part_of e.now)) }
{
    value_or(code, scope, r, 0, e)?;
    code.emit(Op::Jump(end))?;
    Ok(())
}

/// An `if`.
#[cycle(lower)]
#[tactic(auto, using(crate::proofs::Lists::chains))]
fn choice(
    code: &mut Code,
    scope: &Scope,
    exits: Exits,
    r: u32,
    test: &Expr,
    body: &Stmt,
    other: &Option<Boxed<Stmt>>,
) -> Result<(), OutOfMemory>
    ensures ops { OnOk result (code.new.ops ≡ code.old.ops ++ statement_code (scope_of scope.now) (exits_of exits) r code.old.labels
        (tree.If (expr_of test.now) (stmt_of body.now) (branch_of other.now))) }
    ensures labels { OnOk result (code.new.labels
        ≡ code.old.labels + (2 + (labels_in (expr_of test.now) + (labels_within (stmt_of body.now) + labels_within (branch_of other.now))))) }
{
    let otherwise = code.fresh_label()?;
    let end = code.fresh_label()?;
    value(code, scope, r, test)?;
    code.emit(Op::JumpZero { a: r, l: otherwise })?;
    statement(code, scope, exits, r, body)?;
    code.emit(Op::Jump(end))?;
    code.emit(Op::Label(otherwise))?;
    branch(code, scope, exits, r, other)?;
    code.emit(Op::Label(end))?;
    Ok(())
}

/// A `while`.
#[cycle(lower)]
#[tactic(auto, using(crate::proofs::Lists::chains))]
fn while_loop(
    code: &mut Code,
    scope: &Scope,
    exits: Exits,
    r: u32,
    test: &Expr,
    body: &Stmt,
) -> Result<(), OutOfMemory>
    ensures ops { OnOk result (code.new.ops ≡ code.old.ops ++ statement_code (scope_of scope.now) (exits_of exits) r code.old.labels
        (tree.While (expr_of test.now) (stmt_of body.now))) }
    ensures labels { OnOk result (code.new.labels
        ≡ code.old.labels + (2 + (labels_in (expr_of test.now) + labels_within (stmt_of body.now)))) }
{
    let start = code.fresh_label()?;
    let end = code.fresh_label()?;
    let inside = Exits {
        broken: end,
        continued: start,
        returned: exits.returned,
    };
    code.emit(Op::Label(start))?;
    value(code, scope, r, test)?;
    code.emit(Op::JumpZero { a: r, l: end })?;
    statement(code, scope, inside, r, body)?;
    code.emit(Op::Jump(start))?;
    code.emit(Op::Label(end))?;
    Ok(())
}

/// A `for`. The statement before it and its step are left for the condition.
#[cycle(lower)]
#[tactic(auto, using(crate::proofs::Lists::chains))]
fn for_loop(
    code: &mut Code,
    scope: &Scope,
    exits: Exits,
    r: u32,
    first: &Option<Boxed<Stmt>>,
    test: &Option<Expr>,
    step: &Option<Boxed<Stmt>>,
    body: &Stmt,
) -> Result<(), OutOfMemory>
    ensures ops { OnOk result (code.new.ops ≡ code.old.ops ++ statement_code (scope_of scope.now) (exits_of exits) r code.old.labels
        (tree.For (branch_of first.now) (part_of test.now) (branch_of step.now) (stmt_of body.now))) }
    ensures labels { OnOk result (code.new.labels ≡ code.old.labels + (3 + (labels_within (branch_of first.now)
        + (labels_in_part (part_of test.now) + (labels_within (stmt_of body.now) + labels_within (branch_of step.now)))))) }
{
    let start = code.fresh_label()?;
    let next = code.fresh_label()?;
    let end = code.fresh_label()?;
    let head = Exits {
        broken: start,
        continued: start,
        returned: start,
    };
    let inside = Exits {
        broken: end,
        continued: next,
        returned: exits.returned,
    };
    branch(code, scope, head, r, first)?;
    condition(code, scope, r, start, end, test)?;
    turn(code, scope, inside, head, r, body, step)?;
    Ok(())
}

/// The condition of a `for`, which ends where it does not hold.
#[tactic(auto, using(crate::proofs::Lists::chains))]
fn condition(
    code: &mut Code,
    scope: &Scope,
    r: u32,
    start: u32,
    end: u32,
    test: &Option<Expr>,
) -> Result<(), OutOfMemory>
    ensures ops { OnOk result (code.new.ops ≡ code.old.ops
        ++ (op.Label start ∷ (value_or 1 (scope_of scope.now) r code.old.labels (part_of test.now) ++ (op.JumpZero r end ∷ [])))) }
    ensures labels { OnOk result (code.new.labels ≡ code.old.labels + labels_in_part (part_of test.now)) }
{
    code.emit(Op::Label(start))?;
    value_or(code, scope, r, 1, test)?;
    code.emit(Op::JumpZero { a: r, l: end })?;
    Ok(())
}

/// A turn of a `for` and its step, and then its end.
#[cycle(lower)]
#[tactic(auto, using(crate::proofs::Lists::chains))]
fn turn(
    code: &mut Code,
    scope: &Scope,
    inside: Exits,
    head: Exits,
    r: u32,
    body: &Stmt,
    step: &Option<Boxed<Stmt>>,
) -> Result<(), OutOfMemory>
    ensures ops { OnOk result (code.new.ops ≡ code.old.ops
        ++ (statement_code (scope_of scope.now) (exits_of inside) r code.old.labels (stmt_of body.now)
        ++ (op.Label inside.continued
        ∷ (statement_code (scope_of scope.now) (exits_of head) r (code.old.labels + labels_within (stmt_of body.now)) (branch_of step.now)
        ++ (op.Jump head.continued ∷ op.Label inside.broken ∷ []))))) }
    ensures labels { OnOk result (code.new.labels
        ≡ code.old.labels + (labels_within (stmt_of body.now) + labels_within (branch_of step.now))) }
{
    statement(code, scope, inside, r, body)?;
    code.emit(Op::Label(inside.continued))?;
    branch(code, scope, head, r, step)?;
    code.emit(Op::Jump(head.continued))?;
    code.emit(Op::Label(inside.broken))?;
    Ok(())
}
