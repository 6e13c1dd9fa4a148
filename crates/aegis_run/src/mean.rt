//! The command `mean`.
ghost use Rattle.std.specs.Prelude.{◌≡◌, None, IfOk, IfErr};
ghost use Rattle.aegis_words.specs.CommandTable as asks;
ghost use Rattle.aegis_words.specs.KeptWords.{mean_names_of};
ghost use Rattle.c_resolver.specs.Resolving.{plain_program};
ghost use Rattle.c_semantics.specs.Meaning.{mean_alone};
ghost use Rattle.aegis_run.specs.Answers.{IsFileFault, IsWriteFault, RisesWhere};
ghost use Rattle.aegis_run.specs.Causes.{IsAnswered};
ghost use Rattle.aegis_run.specs.MeanCommand.{MeanCommand};
ghost use Rattle.aegis_run.specs.FilesRead.{IsStopped, MeanReady, SendsMeaning};

use crate::ends::TopEnd;
use crate::files::{accept, open};
use aegis_edge::{Folder, Sink};
use aegis_num::OutOfMemory;
use aegis_words::{File, MeanWords};
use c_meaning::mean;
use c_types::Checked;
use std::alloc::Global;

/// What a meaning starts from.
#[derive(Drop)]
struct Accepted {
    program: Checked,
    input: Vec<u8>,
}

/// Tells the meaning of a source, where its files allow it.
pub fn answer_mean<F: Folder, K: Sink>(
    alloc: Global,
    names: &MeanWords<'_>,
    folder: &mut F,
    out: &mut K,
) -> TopEnd
    requires { K.limit out.old ≡ None }

    ensures cause { IsAnswered (F.files folder.old) (asks.Mean (mean_names_of names.now))
        (F.faults folder.old) (F.faults folder.new) (F.asked folder.old) (F.asked folder.new) result }
    ensures folder_count { (IsFileFault result → ⊥) → F.faults folder.new ≡ F.faults folder.old }
    ensures kept { F.files folder.new ≡ F.files folder.old }
    ensures mean { MeanCommand (F.files folder.old) (mean_names_of names.now) result
        (K.written out.old) (K.written out.new) }
    ensures out_count { RisesWhere (IsWriteFault result) (K.faults out.old) (K.faults out.new) }
    ensures out_still_unlimited { K.limit out.new ≡ None }
{
    match prepare(alloc, folder, names) {
        Ok(accepted) => write_meaning(alloc, &accepted, names.turns, out),
        Err(end) => end,
    }
}

/// Reads the source and the input, in this order, up to the first that leaves no meaning.
fn prepare<F: Folder>(
    alloc: Global,
    folder: &mut F,
    names: &MeanWords<'_>,
) -> Result<Accepted, TopEnd>
    ensures ready { IfOk result (λ accepted. MeanReady (F.files folder.old) (mean_names_of names.now)
        (F.faults folder.old) (F.faults folder.new) (F.asked folder.old) (F.asked folder.new)
        accepted.program accepted.input.items) }
    ensures refused { IfErr result (λ end.
        IsStopped (F.files folder.old) (asks.Mean (mean_names_of names.now))
        (F.faults folder.old) (F.faults folder.new) (F.asked folder.old) (F.asked folder.new) end) }
    ensures kept { F.files folder.new ≡ F.files folder.old }
{
    let source = open(alloc, folder, names.source, File::Source)?;
    let program = accept(alloc, source.as_slice())?;
    let input = open(alloc, folder, names.input, File::Input)?;
    Ok(Accepted { program, input })
}

/// Writes the bytes that an accepted program releases, once its meaning is known.
fn write_meaning<K: Sink>(alloc: Global, accepted: &Accepted, turns: u64, out: &mut K) -> TopEnd
    requires { K.limit out.old ≡ None }

    ensures sends { SendsMeaning result (K.written out.old) (K.written out.new)
        (mean_alone (plain_program accepted.now.program) accepted.now.input.items turns) }
    ensures out_count { RisesWhere (IsWriteFault result) (K.faults out.old) (K.faults out.new) }
    ensures still_unlimited { K.limit out.new ≡ None }
{
    let mut bytes = Vec::new(alloc);
    let input = accepted.input.as_slice();
    match mean(alloc, &accepted.program, input, turns, &mut bytes) {
        Ok(end) => match out.write(bytes.as_slice()) {
            Ok(()) => TopEnd::Mean(end),
            Err(_) => TopEnd::WriteFault,
        },
        Err(OutOfMemory) => TopEnd::OutOfMemory,
    }
}
