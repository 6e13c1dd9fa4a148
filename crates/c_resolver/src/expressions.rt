//! Expressions with their names resolved.
ghost use Rattle.std.specs.Prelude.{◌≡◌, IfOk};
ghost use Rattle.c_semantics.specs.ResolvedViews.{exprs_of};
ghost use Rattle.c_resolver.specs.Resolving.{typed_expr};
ghost use Rattle.c_resolver.specs.ResolvingViews.{list_in, typed_of};

use crate::names::{call_value, indexed, named};
use crate::operators::{binary, unary};
use crate::typed::Typed;
use aegis_num::OutOfMemory;
use c_grammar::Expr;
use c_scopes::Names;
use sqlite_items::Items;
use std::alloc::Global;

/// An expression, where these functions and names are known.
#[cycle(resolve)]
#[tactic(auto, using(crate::proofs::Lists::typed_forms))]
pub fn typed(
    alloc: Global,
    functions: &[u32],
    names: &Names,
    e: &Expr,
) -> Result<Typed, OutOfMemory>
    ensures { IfOk result (λ t. typed_of t ≡ typed_expr functions.now e.now names.now) }
{
    match e {
        Expr::Number {
            value,
            unsigned,
            ..
        } => Ok(Typed {
            unsigned: *unsigned,
            expr: c_semantics::Expr::Number { value: *value },
        }),
        Expr::Name { name, .. } => Ok(named(names.binding(name))),
        Expr::Index { name, index, token } => {
            let index = typed(alloc, functions, names, index.get())?;
            indexed(alloc, names.binding(name), *token, index.expr)
        }
        Expr::Call {
            name,
            arguments,
            ..
        } => {
            let given = listed(alloc, functions, names, arguments.as_slice())?;
            Ok(call_value(functions, names.binding(name), given))
        }
        Expr::Input { .. } => Ok(Typed {
            unsigned: false,
            expr: c_semantics::Expr::Input,
        }),
        Expr::Paren { inner, .. } => typed(alloc, functions, names, inner.get()),
        Expr::Unary { op, inner, .. } => {
            let inner = typed(alloc, functions, names, inner.get())?;
            unary(alloc, *op, inner)
        }
        Expr::Binary {
            op,
            left,
            right,
            token,
        } => {
            let left = typed(alloc, functions, names, left.get())?;
            let right = typed(alloc, functions, names, right.get())?;
            binary(alloc, *op, *token, left, right)
        }
    }
}

/// Expressions in a row.
#[cycle(resolve)]
#[tactic(auto, using(crate::proofs::Lists::arguments))]
pub fn listed(
    alloc: Global,
    functions: &[u32],
    names: &Names,
    es: &[Expr],
) -> Result<Items<c_semantics::Expr>, OutOfMemory>
    ensures { IfOk result (λ given. exprs_of given ≡ list_in functions.now es.now names.now) }
{
    let mut given = Items::new(alloc);
    for e in es {
        let one = typed(alloc, functions, names, e)?;
        given.push(one.expr)?;
    }
    Ok(given)
}
