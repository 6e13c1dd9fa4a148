//! Whole programs, lowered.
ghost use Rattle.std.specs.Prelude.{◌≡◌, length, IfOk};
ghost use Rattle.c_semantics.specs.ResolvedViews.{program_of};
ghost use Rattle.lowering.specs.Lowering.{lowered};
ghost use Rattle.secure_split.specs.SplitViews.{functions_within, home_by, ops_within, private_by};

use crate::calls::call;
use crate::code::Code;
use crate::functions::functions;
use crate::homes::Homes;
use crate::layout::{Layout, laid_out};
use crate::numbers::number;
use crate::scope::Scope;
use aegis_num::OutOfMemory;
use c_semantics::Program;
use ir_code::{Ir, Op};
use sqlite_items::Items;
use std::alloc::Global;

/// A program with its names resolved as flat code: its functions, one after the other, then the call of the one that a run
/// starts with, which is where it starts, and the exit.
pub fn lower(alloc: Global, p: &Program) -> Result<Ir, OutOfMemory>
    ensures { IfOk result (λ ir. ir ≡ lowered (program_of p.now)) }
{
    let Layout {
        cells,
        owners,
        privates,
        ..
    } = laid_out(alloc, p)?;
    let homes = Homes::new(alloc, owners.as_slice())?;
    let mut scope = Scope {
        homes,
        privates,
        private: false,
    };
    let (ops, entry) = code_of(alloc, p, &mut scope)?;
    Ok(Ir { cells, ops, entry })
}

/// The operations of a program, and the place of the first one that runs.
fn code_of(alloc: Global, p: &Program, scope: &mut Scope) -> Result<(Items<Op>, u32), OutOfMemory>
    ensures ops { IfOk result (λ made. made.0 ≡ ops_within (home_by scope.old.homes) (private_by scope.old.privates) (program_of p.now)) }
    ensures entry { IfOk result (λ made. made.1 ≡ length (functions_within (home_by scope.old.homes) (private_by scope.old.privates) (program_of p.now))) }
{
    let mut code = Code::new(alloc, number(p.functions.len())?);
    let first = number(p.objects.len())?;
    functions(alloc, &mut code, scope, first, p.functions.as_slice())?;
    let entry = number(code.ops.len())?;
    scope.private = false;
    call(&mut code, scope, p.main)?;
    code.emit(Op::Exit)?;
    Ok((code.ops, entry))
}
