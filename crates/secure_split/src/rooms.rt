//! How many temporaries a function needs, and which variables are its own.
ghost use Rattle.std.specs.Prelude.{◌≡◌, ◌+◌, ◌++◌, max, IfOk, OnOk};
ghost use Rattle.c_semantics.specs.ProgramShape.{locals_of};
ghost use Rattle.c_semantics.specs.ResolvedViews.{branch_of, expr_of, exprs_of, part_of, stmt_of, stmts_of};
ghost use Rattle.lowering.specs.Cells.{room_in, room_of, room_of_all, room_of_part};

use crate::numbers::next;
use aegis_num::OutOfMemory;
use c_semantics::{Expr, Stmt};
use sqlite_items::Boxed;

/// How many temporaries the value of an expression needs, its own one among them.
#[cycle(rooms)]
#[tactic(auto, using(crate::proofs::Views::expressions))]
fn room_of(e: &Expr) -> Result<u32, OutOfMemory>
    ensures { IfOk result (λ room. room ≡ room_of (expr_of e.now)) }
{
    match e {
        Expr::Number { .. } => Ok(1),
        Expr::Scalar { .. } => Ok(1),
        Expr::Indexed { index, .. } => room_of(index.get()),
        Expr::Called { arguments, .. } => room_of_all(arguments.as_slice()),
        Expr::Input => Ok(1),
        Expr::Unary { inner, .. } => room_of(inner.get()),
        Expr::Binary { left, right, .. } => {
            let left = room_of(left.get())?;
            let right = room_of(right.get())?;
            Ok(left.max(next(right)?))
        }
        Expr::Both { left, right } => room_of_either(left.get(), right.get()),
        Expr::Either { left, right } => room_of_either(left.get(), right.get()),
    }
}

/// How many temporaries two expressions need, of which one is evaluated at a time.
#[cycle(rooms)]
fn room_of_either(left: &Expr, right: &Expr) -> Result<u32, OutOfMemory>
    ensures { IfOk result (λ room. room ≡ max (room_of (expr_of left.now)) (room_of (expr_of right.now))) }
{
    let left = room_of(left)?;
    let right = room_of(right)?;
    Ok(left.max(right))
}

/// How many temporaries the values of expressions need that are kept until the last one is there.
#[cycle(rooms)]
#[tactic(auto, using(crate::proofs::Lists::arguments))]
fn room_of_all(es: &[Expr]) -> Result<u32, OutOfMemory>
    ensures { IfOk result (λ room. room ≡ room_of_all (exprs_of es.now)) }
{
    let mut room = 1;
    let mut left = es.len();
    while 0 < left {
        left -= 1;
        let own = room_of(&es[left])?;
        room = own.max(next(room)?);
    }
    Ok(room)
}

/// How many temporaries an expression needs that need not be there.
fn room_of_part(e: &Option<Expr>) -> Result<u32, OutOfMemory>
    ensures { IfOk result (λ room. room ≡ room_of_part (part_of e.now)) }
{
    match e {
        None => Ok(1),
        Some(e) => room_of(e),
    }
}

/// How many temporaries an assignment to an element needs.
fn room_of_store(index: &Expr, value: &Expr) -> Result<u32, OutOfMemory>
    ensures { IfOk result (λ room. room ≡ max (room_of (expr_of index.now)) (1 + room_of (expr_of value.now))) }
{
    let index = room_of(index)?;
    let value = room_of(value)?;
    Ok(index.max(next(value)?))
}

/// How many temporaries a statement needs.
#[cycle(statement_rooms)]
#[tactic(auto, using(crate::proofs::Views::statements))]
fn room_in(s: &Stmt) -> Result<u32, OutOfMemory>
    ensures { IfOk result (λ room. room ≡ room_in (stmt_of s.now)) }
{
    match s {
        Stmt::Empty => Ok(1),
        Stmt::Block { body } => room_in_all(body.as_slice()),
        Stmt::Local { value, .. } => room_of_part(value),
        Stmt::Assign { value, .. } => room_of(value),
        Stmt::Store { index, value, .. } => room_of_store(index, value),
        Stmt::Call { arguments, .. } => room_of_all(arguments.as_slice()),
        Stmt::Suspend => Ok(1),
        Stmt::Release { value } => room_of(value),
        Stmt::Check => Ok(1),
        Stmt::Return { value } => room_of_part(value),
        Stmt::Break => Ok(1),
        Stmt::Continue => Ok(1),
        Stmt::If { test, body, other } => {
            let test = room_of(test)?;
            let body = room_in(body.get())?;
            let other = room_in_branch(other)?;
            Ok(test.max(body.max(other)))
        }
        Stmt::While { test, body } => {
            let test = room_of(test)?;
            let body = room_in(body.get())?;
            Ok(test.max(body))
        }
        Stmt::For {
            first,
            test,
            step,
            body,
        } => {
            let first = room_in_branch(first)?;
            let test = room_of_part(test)?;
            let step = room_in_branch(step)?;
            let body = room_in(body.get())?;
            Ok(first.max(test).max(step.max(body)))
        }
    }
}

/// How many temporaries statements need, one after the other.
#[cycle(statement_rooms)]
#[tactic(auto, using(crate::proofs::Lists::blocks))]
pub fn room_in_all(ss: &[Stmt]) -> Result<u32, OutOfMemory>
    ensures { IfOk result (λ room. room ≡ room_in (stmts_of ss.now)) }
{
    let mut room = 1;
    let mut left = ss.len();
    while 0 < left {
        left -= 1;
        let own = room_in(&ss[left])?;
        room = own.max(room);
    }
    Ok(room)
}

/// How many temporaries a statement needs that need not be there.
#[cycle(statement_rooms)]
fn room_in_branch(s: &Option<Boxed<Stmt>>) -> Result<u32, OutOfMemory>
    ensures { IfOk result (λ room. room ≡ room_in (branch_of s.now)) }
{
    match s {
        None => Ok(1),
        Some(s) => room_in(s.get()),
    }
}

/// Adds the tokens of the locals that a statement declares, in order.
#[cycle(locals)]
#[tactic(auto, using(crate::proofs::Views::statements))]
fn note_locals(s: &Stmt, tokens: &mut Vec<u32>) -> Result<(), OutOfMemory>
    ensures { OnOk result (tokens.new.items ≡ tokens.old.items ++ locals_of (stmt_of s.now)) }
{
    match s {
        Stmt::Block { body } => note_all_locals(body.as_slice(), tokens),
        Stmt::Local { variable, .. } => {
            tokens.push(variable.token)?;
            Ok(())
        }
        Stmt::If { body, other, .. } => {
            note_locals(body.get(), tokens)?;
            note_locals_of_branch(other, tokens)
        }
        Stmt::While { body, .. } => note_locals(body.get(), tokens),
        Stmt::For {
            first,
            step,
            body,
            ..
        } => {
            note_locals_of_branch(first, tokens)?;
            note_locals_of_branch(step, tokens)?;
            note_locals(body.get(), tokens)
        }
        _ => Ok(()),
    }
}

/// Adds those that statements declare.
#[cycle(locals)]
#[tactic(auto, using(crate::proofs::Lists::blocks))]
pub fn note_all_locals(ss: &[Stmt], tokens: &mut Vec<u32>) -> Result<(), OutOfMemory>
    ensures { OnOk result (tokens.new.items ≡ tokens.old.items ++ locals_of (stmts_of ss.now)) }
{
    for s in ss {
        note_locals(s, tokens)?;
    }
    Ok(())
}

/// Adds those that a statement declares that need not be there.
#[cycle(locals)]
fn note_locals_of_branch(s: &Option<Boxed<Stmt>>, tokens: &mut Vec<u32>) -> Result<(), OutOfMemory>
    ensures { OnOk result (tokens.new.items ≡ tokens.old.items ++ locals_of (branch_of s.now)) }
{
    match s {
        None => Ok(()),
        Some(s) => note_locals(s.get(), tokens),
    }
}
