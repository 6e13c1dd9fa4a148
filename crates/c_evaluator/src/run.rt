//! Whole programs.
ghost use Rattle.std.specs.Prelude.{◌≡◌, ◌++◌, IfOk, OnOk, OnErr};
ghost use Rattle.c_semantics.specs.Meaning.{mean_alone};
ghost use Rattle.c_semantics.specs.ResolvedViews.{program_of};
ghost use Rattle.c_evaluator.specs.MachineStates.{end_of, EndsSo};

use crate::evaluate::call;
use crate::fault::{Fault, Stopped};
use crate::machine::Machine;
use crate::mean_end::MeanEnd;
use crate::nesting::MAX_OPEN;
use aegis_num::OutOfMemory;
use c_semantics::Program;
use std::alloc::Global;

/// Runs a program whose names are resolved on an input, with at most so many loop turns in all, and appends the bytes that
/// it releases. Shared variables are ordinary variables that start at zero, and untrusted calls change nothing. Where memory
/// runs out, `out` stays as it was.
pub fn mean_resolved(
    alloc: Global,
    program: &Program,
    input: &[u8],
    turns: u64,
    out: &mut Vec<u8>,
) -> Result<MeanEnd, OutOfMemory>
    ensures bytes { OnOk result (out.new.items ≡ out.old.items
        ++ (mean_alone (program_of program.now) input.now turns).traffic.bytes) }
    ensures end { IfOk result (λ end.
        end_of end ≡ (mean_alone (program_of program.now) input.now turns).end) }
    ensures err { OnErr result (out.new.items ≡ out.old.items) }
{
    let mut machine = Machine::new(alloc, program.objects.as_slice(), input, turns)?;
    let value = call(
        &mut machine,
        program.functions.as_slice(),
        program.main,
        &[],
        MAX_OPEN,
    );
    let end = ending(value, machine.fault())?;
    out.extend_from_slice(machine.released())?;
    Ok(end)
}

/// How a run ends whose `main` answers so, where it has this fault if it is over.
fn ending(value: Result<u32, Stopped>, fault: Fault) -> Result<MeanEnd, OutOfMemory>
    ensures { EndsSo value fault result }
{
    match (value, fault) {
        (Ok(_), _) => Ok(MeanEnd::Ended),
        (Err(_), Fault::Index { at }) => Ok(MeanEnd::Index { at }),
        (Err(_), Fault::Divide { at }) => Ok(MeanEnd::Divide { at }),
        (Err(_), Fault::Turns) => Ok(MeanEnd::Turns),
        (Err(_), Fault::OutOfMemory) => Err(OutOfMemory),
    }
}
