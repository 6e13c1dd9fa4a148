//! The command `run`.
ghost use Rattle.std.specs.Prelude.{◌≡◌, None, true, IfOk, IfErr};
ghost use Rattle.aegis_words.specs.CommandTable as asks;
ghost use Rattle.aegis_words.specs.KeptWords.{names_of};
ghost use Rattle.c_grammar.specs.declared.Program.{Program};
ghost use Rattle.compiler.specs.CompilerTheorem.{IsCompiled};
ghost use Rattle.aegis_run.specs.Answers.{IsFileFault, IsWriteFault, RisesWhere};
ghost use Rattle.aegis_run.specs.Causes.{IsAnswered};
ghost use Rattle.aegis_run.specs.FilesRead.{IsStopped, RunReady, SendsRun};
ghost use Rattle.aegis_run.specs.RunCommand.{RunCommand};
ghost use Rattle.aegis_run.specs.RunImage.{RunsImage};

use crate::answer::Outcome;
use crate::ends::{TopEnd, end_of};
use crate::files::{build, open};
use aegis_edge::{Folder, Sink};
use aegis_num::OutOfMemory;
use aegis_words::{File, RunWords};
use compiled_run::run_compiled;
use image_file::Image;
use std::alloc::Global;

/// What a run starts from.
#[derive(Drop)]
struct Prepared {
    image: Image,
    input: Vec<u8>,
}

/// Runs a source, where its files allow it.
pub fn answer_run<F: Folder, K: Sink>(
    alloc: Global,
    names: &RunWords<'_>,
    folder: &mut F,
    out: &mut K,
) -> Outcome
    requires { K.limit out.old ≡ None }

    ensures cause { IsAnswered (F.files folder.old) (asks.Run (names_of names.now))
        (F.faults folder.old) (F.faults folder.new) (F.asked folder.old) (F.asked folder.new) result.end }
    ensures folder_count { (IsFileFault result.end → ⊥) → F.faults folder.new ≡ F.faults folder.old }
    ensures kept { F.files folder.new ≡ F.files folder.old }
    ensures run { RunCommand (F.files folder.old) (names_of names.now) result.end
        (K.written out.old) (K.written out.new) }
    ensures image { RunsImage (F.files folder.old) (names_of names.now) result.end result.retired
        (K.written out.old) (K.written out.new) }
    ensures out_count { RisesWhere (IsWriteFault result.end) (K.faults out.old) (K.faults out.new) }
    ensures out_still_unlimited { K.limit out.new ≡ None }
    ensures reported { result.reported ≡ true }
{
    match prepare(alloc, folder, names) {
        Ok(prepared) => run_prepared(alloc, &prepared, names.fuel, out),
        Err(end) => Outcome {
            end,
            retired: 0,
            reported: true,
        },
    }
}

/// Reads the source, the script and the input, in this order, up to the first that stops the run.
fn prepare<F: Folder>(
    alloc: Global,
    folder: &mut F,
    names: &RunWords<'_>,
) -> Result<Prepared, TopEnd>
    ensures ready { IfOk result (λ prepared. RunReady (F.files folder.old) (names_of names.now)
        (F.faults folder.old) (F.faults folder.new) (F.asked folder.old) (F.asked folder.new)
        prepared.image prepared.input.items) }
    ensures refused { IfErr result (λ end.
        IsStopped (F.files folder.old) (asks.Run (names_of names.now))
        (F.faults folder.old) (F.faults folder.new) (F.asked folder.old) (F.asked folder.new) end) }
    ensures kept { F.files folder.new ≡ F.files folder.old }
{
    let source = open(alloc, folder, names.source, File::Source)?;
    let image = build(alloc, source.as_slice())?;
    let script = open(alloc, folder, names.script, File::Script)?;
    if !script.is_empty() {
        return Err(TopEnd::NotYet(File::Script));
    }
    let input = open(alloc, folder, names.input, File::Input)?;
    Ok(Prepared { image, input })
}

/// Runs what was prepared, with at most `fuel` instructions.
fn run_prepared<K: Sink>(alloc: Global, prepared: &Prepared, fuel: u64, out: &mut K) -> Outcome
    requires unlimited { K.limit out.old ≡ None }
    requires compiled { (program : Program) × IsCompiled program prepared.now.image }

    ensures sends { (program : Program) → IsCompiled program prepared.now.image
        → SendsRun program prepared.now.image prepared.now.input.items fuel result.end result.retired
        (K.written out.old) (K.written out.new) }
    ensures out_count { RisesWhere (IsWriteFault result.end) (K.faults out.old) (K.faults out.new) }
    ensures still_unlimited { K.limit out.new ≡ None }
    ensures reported { result.reported ≡ true }
{
    match run_compiled(alloc, &prepared.image, prepared.input.as_slice(), fuel, out) {
        Ok(ran) => Outcome {
            end: TopEnd::Run(end_of(ran)),
            retired: ran.retired,
            reported: true,
        },
        Err(OutOfMemory) => Outcome {
            end: TopEnd::OutOfMemory,
            retired: 0,
            reported: true,
        },
    }
}
