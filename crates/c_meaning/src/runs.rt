//! What a checked program means.
ghost use Rattle.std.specs.Prelude.{◌≡◌, ◌++◌, IfOk, OnOk, OnErr};
ghost use Rattle.c_semantics.specs.Meaning.{mean_alone};
ghost use Rattle.c_evaluator.specs.MachineStates.{end_of};
ghost use Rattle.c_resolver.specs.Resolving.{plain_program};

use aegis_num::OutOfMemory;
use c_evaluator::{MeanEnd, mean_resolved};
use c_resolver::resolve;
use c_types::Checked;
use std::alloc::Global;

/// Runs a program on an input, with at most so many loop turns in all, and appends the bytes that it releases. Shared
/// variables are ordinary variables that start at zero, and untrusted calls change nothing. Where memory runs out, `out`
/// stays as it was.
pub fn mean(
    alloc: Global,
    p: &Checked,
    input: &[u8],
    turns: u64,
    out: &mut Vec<u8>,
) -> Result<MeanEnd, OutOfMemory>
    ensures bytes { OnOk result (out.new.items ≡ out.old.items
        ++ (mean_alone (plain_program p.now) input.now turns).traffic.bytes) }
    ensures end { IfOk result (λ end.
        end_of end ≡ (mean_alone (plain_program p.now) input.now turns).end) }
    ensures err { OnErr result (out.new.items ≡ out.old.items) }
{
    let program = resolve(alloc, p.program())?;
    mean_resolved(alloc, &program, input, turns, out)
}
