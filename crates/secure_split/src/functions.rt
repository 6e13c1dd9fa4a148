//! Functions, lowered one after the other.
ghost use Rattle.std.specs.Prelude.{◌≡◌, ◌+◌, [], ◌∷◌, ◌++◌, length, map, IfOk, OnOk};
ghost use Rattle.c_semantics.specs.ProgramShape.{own_tokens};
ghost use Rattle.c_semantics.specs.ResolvedViews.{function_of, functions_of};
ghost use Rattle.ir_code.specs.declared.ops.Op.TheVariants as op;
ghost use Rattle.lowering.specs.Cells.{cell_count, room_in};
ghost use Rattle.lowering.specs.Lowering.{function_code, functions_code, labels_of_function, taking};
ghost use Rattle.secure_split.specs.SplitViews.{around, home_by, private_by, scope_of};

use crate::code::Code;
use crate::numbers::{next, number, sum};
use crate::rooms::{note_all_locals, room_in_all};
use crate::scope::{Exits, Scope};
use crate::statements::statements;
use aegis_num::OutOfMemory;
use c_semantics::{Function, Variable};
use ir_code::Op;
use std::alloc::Global;

/// The tokens of parameters, in order.
#[tactic(auto, using(crate::proofs::Lists::variables))]
fn parameter_tokens(alloc: Global, parameters: &[Variable]) -> Result<Vec<u32>, OutOfMemory>
    ensures { IfOk result (λ tokens. tokens.items ≡ map (λ x. x.token) parameters.now) }
{
    let mut tokens = Vec::new(alloc);
    for x in parameters {
        tokens.push(x.token)?;
    }
    Ok(tokens)
}

/// The tokens of the parameters and the locals of a function, in order.
pub fn own_tokens(alloc: Global, f: &Function) -> Result<Vec<u32>, OutOfMemory>
    ensures { IfOk result (λ tokens. tokens.items ≡ own_tokens (function_of f.now)) }
{
    let mut tokens = parameter_tokens(alloc, f.parameters.as_slice())?;
    note_all_locals(f.body.as_slice(), &mut tokens)?;
    Ok(tokens)
}

/// The parameters are taken out of the slots.
#[tactic(auto, using(crate::proofs::Lists::variables))]
fn take(code: &mut Code, scope: &Scope, parameters: &[Variable]) -> Result<(), OutOfMemory>
    ensures ops { OnOk result (code.new.ops ≡ code.old.ops ++ taking (scope_of scope.now) 0 parameters.now) }
    ensures labels { OnOk result (code.new.labels ≡ code.old.labels) }
{
    let mut slot = 0;
    for x in parameters {
        let to = scope.home(x.token)?;
        code.emit(Op::Param { to, slot })?;
        slot = next(slot)?;
    }
    Ok(())
}

/// The end of a function: what comes to the first label has the value zero.
#[tactic(auto, using(crate::proofs::Lists::chains))]
fn finish(code: &mut Code, done: u32, end: u32, last: u32, link: u32) -> Result<(), OutOfMemory>
    ensures ops { OnOk result (code.new.ops ≡ code.old.ops
        ++ (op.Label done ∷ op.Const last 0 ∷ op.Label end ∷ op.SetResult last ∷ op.Return link ∷ [])) }
    ensures labels { OnOk result (code.new.labels ≡ code.old.labels) }
{
    code.emit(Op::Label(done))?;
    code.emit(Op::Const { to: last, value: 0 })?;
    code.emit(Op::Label(end))?;
    code.emit(Op::SetResult { from: last })?;
    code.emit(Op::Return(link))?;
    Ok(())
}

/// A function with this number, whose link is kept in this cell. Its temporaries come after it, the last one being `last`.
#[tactic(auto, using(crate::proofs::Lists::chains))]
fn function(
    code: &mut Code,
    scope: &Scope,
    number: u32,
    link: u32,
    last: u32,
    f: &Function,
) -> Result<(), OutOfMemory>
    requires { last ≡ link + room_in (function_of f.now).body }
    ensures ops { OnOk result (code.new.ops ≡ code.old.ops ++ function_code (scope_of scope.now) number link code.old.labels (function_of f.now)) }
    ensures labels { OnOk result (code.new.labels ≡ code.old.labels + labels_of_function (function_of f.now)) }
{
    let end = code.fresh_label()?;
    let done = code.fresh_label()?;
    let exits = Exits {
        broken: done,
        continued: done,
        returned: end,
    };
    code.emit(Op::Label(number))?;
    take(code, scope, f.parameters.as_slice())?;
    code.emit(Op::SaveLink(link))?;
    statements(code, scope, exits, last, f.body.as_slice())?;
    finish(code, done, end, last, link)?;
    Ok(())
}

/// A function with this number, whose first cell this is. The answer is the first cell after its own ones.
fn lower_next(
    alloc: Global,
    code: &mut Code,
    scope: &mut Scope,
    number_of: u32,
    cell: u32,
    f: &Function,
) -> Result<u32, OutOfMemory>
    ensures ops { OnOk result (code.new.ops ≡ code.old.ops
        ++ function_code (around scope.old f.now.private) number_of (cell + length (own_tokens (function_of f.now))) code.old.labels (function_of f.now)) }
    ensures labels { OnOk result (code.new.labels ≡ code.old.labels + labels_of_function (function_of f.now)) }
    ensures cell { IfOk result (λ after. after ≡ cell + cell_count (function_of f.now)) }
    ensures homes { OnOk result (scope.new.homes ≡ scope.old.homes) }
    ensures privates { OnOk result (scope.new.privates ≡ scope.old.privates) }
{
    scope.private = f.private;
    let own = own_tokens(alloc, f)?;
    let link = sum(cell, number(own.len())?)?;
    let last = sum(link, room_in_all(f.body.as_slice())?)?;
    function(code, scope, number_of, link, last, f)?;
    next(last)
}

/// Functions, of which the first has the number 0 and this cell as its first one.
#[tactic(auto, using(crate::proofs::Lists::all_functions))]
pub fn functions(
    alloc: Global,
    code: &mut Code,
    scope: &mut Scope,
    first: u32,
    fs: &[Function],
) -> Result<(), OutOfMemory>
    ensures ops { OnOk result (code.new.ops ≡ code.old.ops
        ++ functions_code (home_by scope.old.homes) (private_by scope.old.privates) 0 first code.old.labels (functions_of fs.now)) }
    ensures homes { OnOk result (scope.new.homes ≡ scope.old.homes) }
    ensures privates { OnOk result (scope.new.privates ≡ scope.old.privates) }
{
    let mut cell = first;
    let mut number_of = 0;
    for f in fs {
        cell = lower_next(alloc, code, scope, number_of, cell, f)?;
        number_of = next(number_of)?;
    }
    Ok(())
}
