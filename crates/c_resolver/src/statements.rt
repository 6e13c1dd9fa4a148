//! Statements with their names resolved.
ghost use Rattle.std.specs.Prelude.{◌≡◌, ◌++◌, IfOk, OnOk};
ghost use Rattle.c_semantics.specs.ResolvedViews.{branch_of, expr_of, part_of, stmt_of, stmts_of};
ghost use Rattle.c_resolver.specs.Resolving.{part_in, resolved, typed_expr};
ghost use Rattle.c_resolver.specs.ResolvingViews.{body_declared, body_in, branch_declared, branch_in};

use crate::expressions::{listed, typed};
use crate::names::{assigned, call_of};
use crate::typed::variable;
use aegis_num::OutOfMemory;
use c_grammar::{Expr, Stmt};
use c_scopes::{Names, local};
use sqlite_items::{Boxed, Items};
use std::alloc::Global;

/// An expression that need not be there.
fn part(
    alloc: Global,
    functions: &[u32],
    names: &Names,
    e: &Option<Expr>,
) -> Result<Option<c_semantics::Expr>, OutOfMemory>
    ensures { IfOk result (λ r. part_of r ≡ part_in functions.now e.now names.now) }
{
    match e {
        None => Ok(None),
        Some(e) => {
            let e = typed(alloc, functions, names, e)?;
            Ok(Some(e.expr))
        }
    }
}

/// A statement, and what it declares in its scope.
#[cycle(resolve_statements)]
#[tactic(auto, using(crate::proofs::Rows::forms))]
pub fn statement(
    alloc: Global,
    functions: &[u32],
    names: &mut Names,
    s: &Stmt,
) -> Result<c_semantics::Stmt, OutOfMemory>
    ensures at { IfOk result (λ r. stmt_of r ≡ (resolved functions.now s.now).at names.old) }
    ensures declared { OnOk result (names.new ≡ names.old ++ (resolved functions.now s.now).declared) }
{
    match s {
        Stmt::Block { body, .. } => {
            let start = names.len();
            let body = statements(alloc, functions, names, body.as_slice())?;
            names.forget(start)?;
            Ok(c_semantics::Stmt::Block { body })
        }
        Stmt::Empty { .. } => Ok(c_semantics::Stmt::Empty),
        Stmt::Local {
            unsigned,
            name,
            value,
            token,
        } => {
            let value = part(alloc, functions, names, value)?;
            names.declare(local(*unsigned, name, *token))?;
            Ok(c_semantics::Stmt::Local {
                variable: variable(*token, None),
                value,
            })
        }
        Stmt::Assign {
            name,
            index,
            value,
            token,
        } => {
            let index = part(alloc, functions, names, index)?;
            let value = typed(alloc, functions, names, value)?;
            Ok(assigned(names.binding(name), *token, index, value.expr))
        }
        Stmt::Call {
            name,
            arguments,
            ..
        } => {
            let given = listed(alloc, functions, names, arguments.as_slice())?;
            Ok(call_of(functions, names.binding(name), given))
        }
        Stmt::Release { value, .. } => {
            let value = typed(alloc, functions, names, value)?;
            Ok(c_semantics::Stmt::Release { value: value.expr })
        }
        Stmt::Check { .. } => Ok(c_semantics::Stmt::Check),
        Stmt::Return { value, .. } => {
            let answer = part(alloc, functions, names, value)?;
            Ok(c_semantics::Stmt::Return { value: answer })
        }
        Stmt::Break { .. } => Ok(c_semantics::Stmt::Break),
        Stmt::Continue { .. } => Ok(c_semantics::Stmt::Continue),
        Stmt::If {
            test,
            body,
            other,
            ..
        } => {
            let test = typed(alloc, functions, names, test)?;
            let body = inside(alloc, functions, names, body.get())?;
            let other = branch_inside(alloc, functions, names, other)?;
            Ok(c_semantics::Stmt::If {
                test: test.expr,
                body,
                other,
            })
        }
        Stmt::While { test, body, .. } => {
            let test = typed(alloc, functions, names, test)?;
            let body = inside(alloc, functions, names, body.get())?;
            Ok(c_semantics::Stmt::While {
                test: test.expr,
                body,
            })
        }
        Stmt::For {
            first,
            test,
            step,
            body,
            ..
        } => {
            let outside = names.len();
            let first = branch(alloc, functions, names, first)?;
            let test = part(alloc, functions, names, test)?;
            let step = branch_inside(alloc, functions, names, step)?;
            let body = inside(alloc, functions, names, body.get())?;
            names.forget(outside)?;
            Ok(c_semantics::Stmt::For {
                first,
                test,
                step,
                body,
            })
        }
    }
}

/// Statements one after the other.
#[cycle(resolve_statements)]
#[tactic(auto, using(crate::proofs::Rows::rows))]
pub fn statements(
    alloc: Global,
    functions: &[u32],
    names: &mut Names,
    ss: &[Stmt],
) -> Result<Items<c_semantics::Stmt>, OutOfMemory>
    ensures at { IfOk result (λ r. stmts_of r ≡ body_in functions.now ss.now names.old) }
    ensures declared { OnOk result (names.new ≡ names.old ++ body_declared functions.now ss.now) }
{
    let mut body = Items::new(alloc);
    for s in ss {
        let one = statement(alloc, functions, names, s)?;
        body.push(one)?;
    }
    Ok(body)
}

/// A statement in a scope of its own.
#[cycle(resolve_statements)]
#[tactic(auto, using(crate::proofs::Rows::rows))]
fn inside(
    alloc: Global,
    functions: &[u32],
    names: &mut Names,
    s: &Stmt,
) -> Result<Boxed<c_semantics::Stmt>, OutOfMemory>
    ensures at { IfOk result (λ r. stmt_of r ≡ (resolved functions.now s.now).at names.old) }
    ensures same { OnOk result (names.new ≡ names.old) }
{
    let start = names.len();
    let one = statement(alloc, functions, names, s)?;
    names.forget(start)?;
    Ok(Boxed::new(alloc, one)?)
}

/// A statement in a scope of its own, if it is there.
#[cycle(resolve_statements)]
fn branch_inside(
    alloc: Global,
    functions: &[u32],
    names: &mut Names,
    s: &Option<Boxed<Stmt>>,
) -> Result<Option<Boxed<c_semantics::Stmt>>, OutOfMemory>
    ensures at { IfOk result (λ r. branch_of r ≡ branch_in functions.now s.now names.old) }
    ensures same { OnOk result (names.new ≡ names.old) }
{
    match s {
        None => Ok(None),
        Some(s) => {
            let one = inside(alloc, functions, names, s.get())?;
            Ok(Some(one))
        }
    }
}

/// A statement that need not be there, and what it declares.
#[cycle(resolve_statements)]
fn branch(
    alloc: Global,
    functions: &[u32],
    names: &mut Names,
    s: &Option<Boxed<Stmt>>,
) -> Result<Option<Boxed<c_semantics::Stmt>>, OutOfMemory>
    ensures at { IfOk result (λ r. branch_of r ≡ branch_in functions.now s.now names.old) }
    ensures declared { OnOk result (names.new ≡ names.old ++ branch_declared functions.now s.now) }
{
    match s {
        None => Ok(None),
        Some(s) => {
            let one = statement(alloc, functions, names, s.get())?;
            Ok(Some(Boxed::new(alloc, one)?))
        }
    }
}
