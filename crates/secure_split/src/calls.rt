//! Calls: arguments go into slots, and the mode is changed on the side of the caller.
ghost use Rattle.std.specs.Prelude.{◌≡◌, ◌++◌, OnOk};
ghost use Rattle.c_semantics.specs.ResolvedViews.{exprs_of};
ghost use Rattle.lowering.specs.Lowering.{calling, passing};
ghost use Rattle.secure_split.specs.SplitViews.{scope_of};

use crate::code::Code;
use crate::numbers::{next, number};
use crate::scope::Scope;
use aegis_num::OutOfMemory;
use c_semantics::Expr;
use ir_code::Op;

/// Hands the values of arguments over, which stand in cells from this one downward.
#[tactic(auto, using(crate::proofs::Lists::arguments))]
pub fn pass(code: &mut Code, first: u32, arguments: &[Expr]) -> Result<(), OutOfMemory>
    ensures ops { OnOk result (code.new.ops ≡ code.old.ops ++ passing 0 first (exprs_of arguments.now)) }
    ensures labels { OnOk result (code.new.labels ≡ code.old.labels) }
{
    let mut slot = 0;
    let mut from = first;
    for _argument in arguments {
        code.emit(Op::Arg { slot, from })?;
        slot = next(slot)?;
        from = from.saturating_sub(1);
    }
    Ok(())
}

/// Goes to a function, in the mode that it runs in, and comes back to that of the caller.
pub fn call(code: &mut Code, scope: &Scope, function: usize) -> Result<(), OutOfMemory>
    ensures ops { OnOk result (code.new.ops ≡ code.old.ops ++ calling (scope_of scope.now) function) }
    ensures labels { OnOk result (code.new.labels ≡ code.old.labels) }
{
    let callee = scope.is_private(function);
    let label = number(function)?;
    if callee == scope.private {
        code.emit(Op::Call(label))?;
        return Ok(());
    }
    code.emit(Op::SetMode(callee))?;
    code.emit(Op::Call(label))?;
    code.emit(Op::SetMode(scope.private))?;
    Ok(())
}
