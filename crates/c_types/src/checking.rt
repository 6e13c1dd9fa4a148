//! The test of a program.
ghost use Rattle.std.specs.Prelude.{◌≡◌, ◌++◌, ◌^◌, ◌<◌, ◌+◌, [], All, OnOk, IfOk, IfErr};
ghost use Rattle.std.specs.List.{list_any};
ghost use Rattle.c_types.specs.declared.error.TypeError.TheVariants as error;
ghost use Rattle.c_types.specs.Walks.{HasRoom};
ghost use Rattle.c_types.specs.Checked.{IsReadProgram, IsTyped, IsRefusedByTypes, is_int, is_main, has_main, listed_object, listed_objects, listed_function, listed_functions, HasFewParameters, error_at};
ghost use Rattle.c_types.specs.Walks.{first_fault_of};

use crate::checked::{Checked, Function, Functions, Object, Objects};
use crate::error::TypeError;
use crate::items::globals;
use crate::site::Rule;
use crate::verdict::{Fault, Verdict};
use aegis_num::OutOfMemory;
use c_grammar::{Item, Kind3, Program};
use c_scopes::{Names, class_of};
use regions::Class;
use std::alloc::Global;

/// An object or a constant.
fn listed_object(item: &Item) -> Option<Object>
    ensures { result ≡ listed_object item.now }
{
    match item {
        Item::Object {
            class,
            unsigned,
            name,
            length,
            ..
        } => Some(Object {
            name: *name,
            class: class_of(*class),
            unsigned: *unsigned,
            length: *length,
        }),
        Item::Constant {
            unsigned,
            name,
            length,
            ..
        } => Some(Object {
            name: *name,
            class: Class::Constant,
            unsigned: *unsigned,
            length: *length,
        }),
        Item::Untrusted { .. } | Item::Function { .. } => None,
    }
}

/// The objects and constants of items, in order.
fn objects(alloc: Global, items: &[Item]) -> Result<Objects, OutOfMemory>
    ensures { IfOk result (λ objects. objects ≡ listed_objects items.now) }
{
    let mut all = Vec::new(alloc);
    for item in items {
        if let Some(object) = listed_object(item) {
            all.push(object)?;
        }
    }
    Ok(Objects::new(all))
}

/// A function.
fn listed_function(item: &Item) -> Option<Function>
    requires { HasFewParameters item.now }
    ensures { result ≡ listed_function item.now }
{
    match item {
        Item::Untrusted { name, .. } => Some(Function {
            name: *name,
            private: false,
            untrusted: true,
            result: Kind3::Void,
            parameters: 0,
        }),
        Item::Function {
            private,
            result,
            name,
            params,
            ..
        } => Some(Function {
            name: *name,
            private: *private,
            untrusted: false,
            result: *result,
            parameters: params.len() as u32,
        }),
        Item::Object { .. } | Item::Constant { .. } => None,
    }
}

/// The functions of items, in order.
fn functions(alloc: Global, items: &[Item]) -> Result<Functions, OutOfMemory>
    requires { All HasFewParameters items.now }
    ensures { IfOk result (λ functions. functions ≡ listed_functions items.now) }
{
    let mut all = Vec::new(alloc);
    for item in items {
        if let Some(function) = listed_function(item) {
            all.push(function)?;
        }
    }
    Ok(Functions::new(all))
}

/// Whether an item is a `main` as it is wanted.
fn is_main(item: &Item) -> bool
    ensures { result ≡ is_main item.now }
{
    match item {
        Item::Function {
            private,
            result,
            name,
            params,
            ..
        } => {
            name.as_bytes() == b"main".as_slice()
                && matches!(result, Kind3::Int)
                && params.len() == 0
                && !*private
        }
        Item::Object { .. } | Item::Constant { .. } | Item::Untrusted { .. } => false,
    }
}

/// Whether there is a `main` as it is wanted.
fn has_main(items: &[Item]) -> bool
    ensures { result ≡ has_main items.now }
{
    items.iter().any(|item| is_main(item))
}

/// The error of a violation.
fn error_of(fault: Fault) -> TypeError
    ensures { result ≡ error_at fault.at fault.rule }
{
    let at = fault.at;
    match fault.rule {
        Rule::Unknown => TypeError::Unknown { at },
        Rule::Twice => TypeError::Twice { at },
        Rule::Recursive => TypeError::Recursive { at },
        Rule::Class => TypeError::Class { at },
        Rule::Shape => TypeError::Shape { at },
        Rule::Arity => TypeError::Arity { at },
        Rule::TooLong => TypeError::TooLong { at },
        Rule::TooMany => TypeError::TooMany { at },
    }
}

/// The first violation of items.
fn first_fault(alloc: Global, items: &[Item]) -> Result<Option<Fault>, OutOfMemory>
    requires { All HasRoom items.now }
    ensures { IfOk result (λ first. first ≡ first_fault_of items.now) }
{
    let mut names = Names::new(alloc);
    let mut verdict = Verdict {
        first: None,
        locals: 0,
    };
    globals(&mut names, items, &mut verdict)?;
    Ok(verdict.first)
}

/// Tests a program by the typing rules.
fn judged(alloc: Global, p: &Program) -> Result<(), TypeError>
    requires { All HasRoom p.now.items }
    ensures typed { OnOk result (IsTyped p.now) }
    ensures refused { IfErr result (IsRefusedByTypes p.now) }
    ensures accepted { IsTyped p.now → IfErr result (λ e. e ≡ error.OutOfMemory) }
{
    match first_fault(alloc, p.items.as_slice())? {
        Some(fault) => Err(error_of(fault)),
        None => {
            if has_main(p.items.as_slice()) {
                return Ok(());
            }
            Err(TypeError::NoMain)
        }
    }
}

/// Tests a program by the typing rules. The answer is the program with its objects and functions where no rule is
/// broken and there is a function `main` that answers int, takes nothing and is not private.
///
/// # Errors
///
/// The violation with the least token, and of several at one token the one that stands first in [`TypeError`];
/// `NoMain` where there is no other violation and no such `main`; `OutOfMemory`. The program is then given up.
pub fn check(alloc: Global, p: Program) -> Result<Checked, TypeError>
    requires { IsReadProgram p }
    ensures program { IfOk result (λ checked. checked ≡ p) }
    ensures typed { OnOk result (IsTyped p) }
    ensures refused { IfErr result (IsRefusedByTypes p) }
    ensures accepted { IsTyped p → IfErr result (λ e. e ≡ error.OutOfMemory) }
{
    judged(alloc, &p)?;
    let objects = objects(alloc, p.items.as_slice())?;
    let functions = functions(alloc, p.items.as_slice())?;
    Ok(Checked {
        program: p,
        objects,
        functions,
    })
}
