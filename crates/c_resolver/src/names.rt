//! What names stand for.
ghost use Rattle.std.specs.Prelude.{◌≡◌, ◌+◌, ◌<◌, ◌^◌, Bool, IfOk};
ghost use Rattle.c_scopes.specs.declared.declaration.Entity.TheVariants as Entity;
ghost use Rattle.c_semantics.specs.ResolvedTree as Tree;
ghost use Rattle.c_semantics.specs.ResolvedViews.{expr_of, exprs_of, part_of, stmt_of};
ghost use Rattle.c_resolver.specs.Resolving.{assignment_to, by_binding, call_of, call_value, element_value, function_number, is_unsigned, name_value, nothing};
ghost use Rattle.c_resolver.specs.ResolvingViews.{typed_of};

use crate::typed::{Typed, nothing, variable};
use aegis_num::OutOfMemory;
use c_grammar::Kind3;
use c_scopes::{Binding, Entity};
use c_semantics::{Expr, Stmt};
use regions::Class;
use sqlite_items::{Boxed, Items};
use std::alloc::Global;

/// A name for its value.
pub fn named(binding: Option<Binding>) -> Typed
    ensures { typed_of result ≡ by_binding nothing name_value binding }
{
    match binding {
        None => nothing(),
        Some(Binding { token, entity }) => match entity {
            Entity::Local { unsigned } => Typed {
                unsigned,
                expr: Expr::Scalar {
                    variable: variable(token, None),
                },
            },
            Entity::Object {
                class,
                unsigned,
                ..
            } => Typed {
                unsigned,
                expr: Expr::Scalar {
                    variable: variable(token, Some(class)),
                },
            },
            Entity::Function { .. } => nothing(),
        },
    }
}

/// An element of an array.
pub fn indexed(
    alloc: Global,
    binding: Option<Binding>,
    at: u32,
    index: Expr,
) -> Result<Typed, OutOfMemory>
    ensures { IfOk result (λ t. typed_of t ≡ by_binding nothing (element_value at (expr_of index)) binding) }
{
    match binding {
        None => Ok(nothing()),
        Some(Binding { token, entity }) => match entity {
            Entity::Object {
                class,
                unsigned,
                length: Some(length),
            } => {
                let index = Boxed::new(alloc, index)?;
                let array = variable(token, Some(class));
                Ok(Typed {
                    unsigned,
                    expr: Expr::Indexed {
                        at,
                        array,
                        length,
                        index,
                    },
                })
            }
            Entity::Object { length: None, .. } => Ok(nothing()),
            Entity::Local { .. } => Ok(nothing()),
            Entity::Function { .. } => Ok(nothing()),
        },
    }
}

/// The number of a function among all, by the token of its name: how many stand before it.
#[tactic(auto, using(crate::proofs::Lists::numbers))]
pub fn function_number(functions: &[u32], token: u32) -> usize
    ensures { result ≡ function_number functions.now token }
{
    for (number, own) in functions.iter().enumerate() {
        if *own == token {
            return number;
        }
    }
    functions.len()
}

/// A call for its value.
#[tactic(auto, using(crate::proofs::Lists::called_form))]
pub fn call_value(functions: &[u32], binding: Option<Binding>, given: Items<Expr>) -> Typed
    ensures { typed_of result ≡ by_binding nothing (call_value functions.now (exprs_of given)) binding }
{
    match binding {
        None => nothing(),
        Some(Binding { token, entity }) => match entity {
            Entity::Function { result, .. } => Typed {
                unsigned: is_unsigned(result),
                expr: Expr::Called {
                    function: function_number(functions, token),
                    arguments: given,
                },
            },
            Entity::Local { .. } => nothing(),
            Entity::Object { .. } => nothing(),
        },
    }
}

/// Whether what a function answers is `unsigned`.
fn is_unsigned(kind: Kind3) -> bool
    ensures { result ≡ is_unsigned kind }
{
    match kind {
        Kind3::Int => false,
        Kind3::Unsigned => true,
        Kind3::Void => false,
    }
}

/// An assignment to a name, which is token `at`. A sign `[` is the token after it.
pub fn assigned(binding: Option<Binding>, at: u32, index: Option<Expr>, value: Expr) -> Stmt
    ensures { stmt_of result ≡ by_binding Tree.Empty
        (λ declared entity. assignment_to at (expr_of value) declared entity (part_of index)) binding }
{
    match binding {
        None => Stmt::Empty,
        Some(Binding { token, entity }) => match entity {
            Entity::Local { .. } => match index {
                None => Stmt::Assign {
                    variable: variable(token, None),
                    value,
                },
                Some(_) => Stmt::Empty,
            },
            Entity::Object {
                class,
                unsigned,
                length,
            } => assigned_global(token, class, unsigned, length, at, index, value),
            Entity::Function { .. } => Stmt::Empty,
        },
    }
}

/// An assignment to a global variable or an element of a global array.
fn assigned_global(
    token: u32,
    class: Class,
    unsigned: bool,
    length: Option<u32>,
    at: u32,
    index: Option<Expr>,
    value: Expr,
) -> Stmt
    ensures { stmt_of result ≡ assignment_to at (expr_of value) token (Entity.Object class unsigned length) (part_of index) }
{
    match index {
        None => Stmt::Assign {
            variable: variable(token, Some(class)),
            value,
        },
        Some(index) => match length {
            None => Stmt::Empty,
            Some(length) => Stmt::Store {
                at: at.wrapping_add(1),
                array: variable(token, Some(class)),
                length,
                index,
                value,
            },
        },
    }
}

/// A call that stands as a statement.
pub fn call_of(functions: &[u32], binding: Option<Binding>, given: Items<Expr>) -> Stmt
    ensures { stmt_of result ≡ by_binding Tree.Empty (call_of functions.now (exprs_of given)) binding }
{
    match binding {
        None => Stmt::Empty,
        Some(Binding { token, entity }) => match entity {
            Entity::Function {
                untrusted: true,
                ..
            } => Stmt::Suspend,
            Entity::Function {
                untrusted: false,
                ..
            } => Stmt::Call {
                function: function_number(functions, token),
                arguments: given,
            },
            Entity::Local { .. } => Stmt::Empty,
            Entity::Object { .. } => Stmt::Empty,
        },
    }
}
