//! What items declare, with names resolved.
ghost use Rattle.std.specs.Prelude.{◌≡◌, [], ◌∷◌, ◌++◌, map, IfOk, OnOk};
ghost use Rattle.c_scopes.specs.Declarations.{class_of, declaration_of, declarations_of, entity_of, item_name, parameters_of, token_of};
ghost use Rattle.c_semantics.specs.ResolvedViews.{function_of, functions_of, objects_of};
ghost use Rattle.c_resolver.specs.Resolving.{function_in, function_tokens, functions_in, main_token, objects_in, constant_word};
ghost use Rattle.c_resolver.specs.ResolvingViews.{parameters_in};

use crate::statements::statements;
use crate::typed::variable;
use aegis_num::{Name, OutOfMemory, UnaryOp};
use c_grammar::{Item, Parameter, Stmt, Value};
use c_scopes::{Names, class_of, declaration_of, local};
use c_semantics::{Function, Object, Variable};
use regions::Class;
use sqlite_items::Items;
use std::alloc::Global;

/// Adds the token of the name of an item, if it is a function.
#[tactic(auto, using(crate::proofs::Programs::alone))]
fn note_token(item: &Item, tokens: &mut Vec<u32>) -> Result<(), OutOfMemory>
    ensures { OnOk result (tokens.new.items ≡ tokens.old.items ++ function_tokens (item.now ∷ [])) }
{
    match item {
        Item::Function { token, .. } => {
            tokens.push(*token)?;
            Ok(())
        }
        Item::Object { .. } => Ok(()),
        Item::Constant { .. } => Ok(()),
        Item::Untrusted { .. } => Ok(()),
    }
}

/// The tokens of the names of the functions, in order.
#[tactic(auto, using(crate::proofs::Programs::tokens))]
pub fn function_tokens(alloc: Global, items: &[Item]) -> Result<Vec<u32>, OutOfMemory>
    ensures { IfOk result (λ tokens. tokens.items ≡ function_tokens items.now) }
{
    let mut tokens = Vec::new(alloc);
    for item in items {
        note_token(item, &mut tokens)?;
    }
    Ok(tokens)
}

/// The word of a value of a constant.
fn constant_word(value: Value) -> u32
    ensures { result ≡ constant_word value }
{
    if value.negative {
        return UnaryOp::Neg.apply(value.value);
    }
    value.value
}

/// The words of the values of a constant.
#[tactic(auto, using(crate::proofs::Programs::words))]
fn constant_words(alloc: Global, values: &[Value]) -> Result<Items<u32>, OutOfMemory>
    ensures { IfOk result (λ words. words ≡ map constant_word values.now) }
{
    let mut words = Items::new(alloc);
    for value in values {
        words.push(constant_word(*value))?;
    }
    Ok(words)
}

/// Adds an item, if it is an object.
#[tactic(auto, using(crate::proofs::Programs::objects))]
fn add_object(alloc: Global, item: &Item, objects: &mut Items<Object>) -> Result<(), OutOfMemory>
    ensures { OnOk result (objects_of objects.new ≡ objects_of objects.old ++ objects_in (item.now ∷ [])) }
{
    match item {
        Item::Object {
            class,
            length,
            token,
            ..
        } => {
            objects.push(Object {
                variable: variable(*token, Some(class_of(*class))),
                length: *length,
                first: Items::new(alloc),
            })?;
            Ok(())
        }
        Item::Constant {
            length,
            values,
            token,
            ..
        } => {
            let first = constant_words(alloc, values.as_slice())?;
            objects.push(Object {
                variable: variable(*token, Some(Class::Constant)),
                length: *length,
                first,
            })?;
            Ok(())
        }
        Item::Untrusted { .. } => Ok(()),
        Item::Function { .. } => Ok(()),
    }
}

/// The global variables and constants, in order.
#[tactic(auto, using(crate::proofs::Programs::objects))]
pub fn objects_in(alloc: Global, items: &[Item]) -> Result<Items<Object>, OutOfMemory>
    ensures { IfOk result (λ objects. objects_of objects ≡ objects_in items.now) }
{
    let mut objects = Items::new(alloc);
    for item in items {
        add_object(alloc, item, &mut objects)?;
    }
    Ok(objects)
}

/// Parameters, which are declared in order.
#[tactic(auto, using(crate::proofs::Programs::parameters))]
fn parameters_in(
    alloc: Global,
    names: &mut Names,
    parameters: &[Parameter],
) -> Result<Items<Variable>, OutOfMemory>
    ensures are { IfOk result (λ own. own ≡ parameters_in parameters.now) }
    ensures declared { OnOk result (names.new ≡ names.old ++ parameters_of parameters.now) }
{
    let mut own = Items::new(alloc);
    for p in parameters {
        names.declare(local(p.unsigned, &p.name, p.token))?;
        own.push(variable(p.token, None))?;
    }
    Ok(own)
}

/// A function. What it declares is forgotten after it.
#[tactic(auto, using(crate::proofs::Rows::rows))]
fn function_in(
    alloc: Global,
    functions: &[u32],
    names: &mut Names,
    private: bool,
    parameters: &[Parameter],
    body: &[Stmt],
) -> Result<Function, OutOfMemory>
    ensures at { IfOk result (λ f. function_of f ≡ function_in functions.now private parameters.now body.now names.old) }
    ensures same { OnOk result (names.new ≡ names.old) }
{
    let start = names.len();
    let parameters = parameters_in(alloc, names, parameters)?;
    let body = statements(alloc, functions, names, body)?;
    names.forget(start)?;
    Ok(Function {
        private,
        parameters,
        body,
    })
}

/// Declares an item, and adds it, if it is a function.
#[tactic(auto, using(crate::proofs::Programs::functions))]
fn add_function(
    alloc: Global,
    functions: &[u32],
    names: &mut Names,
    item: &Item,
    done: &mut Items<Function>,
) -> Result<(), OutOfMemory>
    ensures at { OnOk result (functions_of done.new ≡ functions_of done.old ++ functions_in functions.now (item.now ∷ []) names.old) }
    ensures declared { OnOk result (names.new ≡ names.old ++ declaration_of item.now ∷ []) }
{
    names.declare(declaration_of(item))?;
    match item {
        Item::Function {
            private,
            params,
            body,
            ..
        } => {
            let parameters = params.as_slice();
            let one = function_in(
                alloc,
                functions,
                names,
                *private,
                parameters,
                body.as_slice(),
            )?;
            done.push(one)?;
            Ok(())
        }
        Item::Object { .. } => Ok(()),
        Item::Constant { .. } => Ok(()),
        Item::Untrusted { .. } => Ok(()),
    }
}

/// The functions, in order. What the items declare is known after them.
#[tactic(auto, using(crate::proofs::Programs::functions))]
pub fn functions_in(
    alloc: Global,
    functions: &[u32],
    names: &mut Names,
    items: &[Item],
) -> Result<Items<Function>, OutOfMemory>
    ensures at { IfOk result (λ all. functions_of all ≡ functions_in functions.now items.now names.old) }
    ensures declared { OnOk result (names.new ≡ names.old ++ declarations_of items.now) }
{
    let mut done = Items::new(alloc);
    for item in items {
        add_function(alloc, functions, names, item, &mut done)?;
    }
    Ok(done)
}

/// The token of the function with the name `main`, or 0 where there is none.
pub fn main_token(names: &Names) -> u32
    ensures { result ≡ main_token names.now }
{
    match names.binding(&Name::new(b"main")) {
        None => 0,
        Some(binding) => binding.token,
    }
}
