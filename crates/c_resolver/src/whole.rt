//! Whole programs with their names resolved.
ghost use Rattle.std.specs.Prelude.{◌≡◌, IfOk};
ghost use Rattle.c_semantics.specs.ResolvedViews.{program_of};
ghost use Rattle.c_resolver.specs.Resolving.{plain_program};

use crate::items::{function_tokens, functions_in, main_token, objects_in};
use crate::names::function_number;
use aegis_num::OutOfMemory;
use c_grammar::Program;
use c_scopes::Names;
use std::alloc::Global;

/// The program with its names resolved (ISO/IEC 9899, sections 6.2.1, 6.3.1.8 and 6.5): each variable stands by the token
/// of its declaration, counted from 0, each function by its number among the functions, from 0, and each operator reads its
/// operands as `int` or as `unsigned` by their types. `main` is the number of the function with that name. What no program
/// that keeps the typing rules has, as a name that is not declared, becomes the number 0 or an empty statement.
pub fn resolve(alloc: Global, p: &Program) -> Result<c_semantics::Program, OutOfMemory>
    ensures { IfOk result (λ r. program_of r ≡ plain_program p.now) }
{
    let items = p.items.as_slice();
    let functions = function_tokens(alloc, items)?;
    let objects = objects_in(alloc, items)?;
    let mut names = Names::new(alloc);
    let all = functions_in(alloc, functions.as_slice(), &mut names, items)?;
    let main = function_number(functions.as_slice(), main_token(&names));
    Ok(c_semantics::Program {
        objects,
        functions: all,
        main,
    })
}
