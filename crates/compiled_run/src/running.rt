//! Runs of images that are compiled from sources.
ghost use Rattle.std.specs.Prelude.{◌≡◌, ◌≢◌, None, length, IfOk, OnErr};
ghost use Rattle.aegis_edge.specs.Faults.{Rose};
ghost use Rattle.aegis_edge.specs.Sink.{IsWithin, limit_after};
ghost use Rattle.c_grammar.specs.declared.Program.{Program};
ghost use Rattle.flat_machine.specs.ImageRuns.{released_in};
ghost use Rattle.compiler.specs.CompilerTheorem.{IsCompiled};
ghost use Rattle.compiled_run.specs.RunMeaning.{RunsAsMeant};
ghost use Rattle.compiled_run.specs.RunSteps.{RunsInSteps};

use aegis_edge::Sink;
use aegis_num::OutOfMemory;
use flat_machine::{ImageEnd, Ran, run_image};
use image_file::Image;
use std::alloc::Global;

/// Runs the image of a source on an input, with at most `fuel` instructions. Each byte goes to `out` as it is released.
pub fn run_compiled<K: Sink>(
    alloc: Global,
    image: &Image,
    input: &[u8],
    fuel: u64,
    out: &mut K,
) -> Result<Ran, OutOfMemory>
    requires compiled { (program : Program) × IsCompiled program image.now }
    requires room { IsWithin (K.limit out.old) (released_in image.now input.now fuel) }

    // Of each source that the image is compiled from, the run does what it means.
    ensures meant { IfOk result (λ ran. (program : Program) → IsCompiled program image.now
        → RunsAsMeant program input.now fuel ran.end (K.written out.old) (K.written out.new)) }

    // It is told how many instructions were done, and the ideal machine does as many.
    ensures steps { IfOk result (λ ran.
        RunsInSteps image.now input.now fuel ran.end ran.retired (K.written out.old) (K.written out.new)) }

    // A byte is not taken only where the count of faults rose.
    ensures fault { IfOk result (λ ran. ran.end ≡ ImageEnd.WriteFault
        → Rose (K.faults out.old) (K.faults out.new)) }
    ensures steady { IfOk result (λ ran. ran.end ≢ ImageEnd.WriteFault
        → K.faults out.new ≡ K.faults out.old) }
    ensures still_unlimited { K.limit out.old ≡ None → K.limit out.new ≡ None }

    // Where memory is wanting no instruction was done.
    ensures silent { OnErr result (K.written out.new ≡ K.written out.old) }
    ensures untouched { OnErr result (K.faults out.new ≡ K.faults out.old) }
{
    run_image(alloc, image, input, fuel, out)
}
