//! Checked programs as flat code.
ghost use Rattle.std.specs.Prelude.{◌≡◌, IfOk};
ghost use Rattle.c_resolver.specs.Resolving.{plain_program};
ghost use Rattle.ir_code.specs.Lawful.{IsLawful};
ghost use Rattle.lowering.specs.Lowering.{lowered};
ghost use Rattle.secure_split.specs.SplitLaws.{GoesBackward, GoesForward, GuardsPrivate, HasSourceCells, InEach, IsSmallCode, IsWithinWork};

use crate::lower::lower;
use aegis_num::OutOfMemory;
use c_resolver::resolve;
use c_types::Checked;
use ir_code::Ir;
use std::alloc::Global;

/// The flat code of a program. On each input and for each list of loose words it does what the program means, with shared and
/// logged words loose, with shared words alone, with none, and with any that are neither verified nor private: it comes to the same end with the same bytes, writes and counts, for at most
/// 32 units of weight a unit of work, and at each moment it has come to a front of what the program does with 64 loop turns for
/// each jump and 64 more. It is lawful, has at most 64 units of weight for each node of the program and 64 more, and touches
/// the cells of private functions in the private mode alone. Its first cells are the objects of the program in order; then each
/// function in order has its parameters, its locals, its link and its temporaries. Untrusted functions have none.
///
/// Only want of memory refuses a program. Numbers of cells, labels and operations have 32 bits.
pub fn split(alloc: Global, p: &Checked) -> Result<Ir, OutOfMemory>
    ensures code { IfOk result (λ ir. ir ≡ lowered (plain_program p.now)) }
    ensures forward { IfOk result (λ ir. InEach (GoesForward p.now ir)) }
    ensures backward { IfOk result (λ ir. InEach (GoesBackward p.now ir)) }
    ensures weight { IfOk result (λ ir. InEach (IsWithinWork p.now ir)) }
    ensures size { IfOk result (λ ir. IsSmallCode p.now ir) }
    ensures lawful { IfOk result (λ ir. InEach (λ is_loose. IsLawful is_loose ir)) }
    ensures private { IfOk result (λ ir. GuardsPrivate ir) }
    ensures cells { IfOk result (λ ir. HasSourceCells p.now ir) }
{
    let program = resolve(alloc, p.program())?;
    let ir = lower(alloc, &program)?;
    Ok(ir)
}
