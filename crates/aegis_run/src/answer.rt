//! What each command answers.
ghost use Rattle.std.specs.Prelude.{◌≡◌, None, Some};
ghost use Rattle.aegis_words.specs.CommandTable.{command_in};
ghost use Rattle.aegis_words.specs.CommandTable as asks;
ghost use Rattle.aegis_words.specs.MakeWordRow.{MakeNames};
ghost use Rattle.aegis_run.specs.Answers.{IsFileFault, IsWriteFault, RisesWhere};
ghost use Rattle.aegis_run.specs.Causes.{Cause};
ghost use Rattle.aegis_run.specs.FilesRead.{IfBuild, IfList, IfMake, IfMean, IfRun};
ghost use Rattle.aegis_run.specs.BuildCommand.{BuildCommand};
ghost use Rattle.aegis_run.specs.ListCommand.{ListCommand};
ghost use Rattle.aegis_run.specs.MakeCommand.{MakeCommand};
ghost use Rattle.aegis_run.specs.MeanCommand.{MeanCommand};
ghost use Rattle.aegis_run.specs.Report.{is_reported};
ghost use Rattle.aegis_run.specs.RunCommand.{RunCommand};
ghost use Rattle.aegis_run.specs.RunImage.{RunsImage};

use crate::build::answer_build;
use crate::ends::TopEnd;
use crate::list::answer_list;
use crate::make::answer_make;
use crate::mean::answer_mean;
use crate::run::answer_run;
use aegis_edge::{Folder, Sink};
use aegis_words::{Command, read_command};
use std::alloc::Global;

/// An answer, after how many instructions its run ended, 0 where none was started, and whether it is told on the notes.
#[derive(Debug, Drop)]
pub struct Outcome {
    pub end: TopEnd,
    pub retired: u64,
    pub reported: bool,
}

/// Answers the words, and does what they ask for where their files allow it.
pub fn answer_words<F: Folder, K: Sink>(
    alloc: Global,
    words: &[String],
    folder: &mut F,
    out: &mut K,
) -> Outcome
    requires { K.limit out.old ≡ None }

    ensures cause { Cause (F.files folder.old) (command_in words.now)
        (F.faults folder.old) (F.faults folder.new) (F.asked folder.old) (F.asked folder.new) result.end }
    ensures folder_count { (IsFileFault result.end → ⊥) → F.faults folder.new ≡ F.faults folder.old }
    ensures kept { F.files folder.new ≡ F.files folder.old }
    ensures run { IfRun (command_in words.now) (λ names.
        RunCommand (F.files folder.old) names result.end (K.written out.old) (K.written out.new)) }
    ensures image { IfRun (command_in words.now) (λ names.
        RunsImage (F.files folder.old) names result.end result.retired
        (K.written out.old) (K.written out.new)) }
    ensures mean { IfMean (command_in words.now) (λ names.
        MeanCommand (F.files folder.old) names result.end (K.written out.old) (K.written out.new)) }
    ensures build { IfBuild (command_in words.now) (λ names.
        BuildCommand (F.files folder.old) names result.end (K.written out.old) (K.written out.new)) }
    ensures list { IfList (command_in words.now) (λ names.
        ListCommand (F.files folder.old) names result.end (K.written out.old) (K.written out.new)) }
    ensures make { IfMake (command_in words.now) (λ names.
        MakeCommand names result.end (K.written out.old) (K.written out.new)) }
    ensures reported { result.reported ≡ is_reported (command_in words.now) result.end }
    ensures silent { command_in words.now ≡ None → K.written out.new ≡ K.written out.old }
    ensures out_count { RisesWhere (IsWriteFault result.end) (K.faults out.old) (K.faults out.new) }
    ensures out_still_unlimited { K.limit out.new ≡ None }
{
    match read_command(words) {
        Some(Command::Run(names)) => answer_run(alloc, &names, folder, out),
        Some(Command::Mean(names)) => Outcome {
            end: answer_mean(alloc, &names, folder, out),
            retired: 0,
            reported: true,
        },
        Some(Command::Build(names)) => Outcome {
            end: answer_build(alloc, &names, folder, out),
            retired: 0,
            reported: true,
        },
        Some(Command::Listing(names)) => Outcome {
            end: answer_list(alloc, &names, folder, out),
            retired: 0,
            reported: true,
        },
        Some(Command::Make(names)) => outcome_of_make(answer_make(alloc, names, out)),
        None => Outcome {
            end: TopEnd::Usage,
            retired: 0,
            reported: true,
        },
    }
}

/// The answer of a `make`, whose run is told on no notes.
fn outcome_of_make(end: TopEnd) -> Outcome
    ensures end { result.end ≡ end }
    ensures reported { (names : MakeNames) → result.reported ≡ is_reported (Some (asks.Make names)) end }
{
    let reported = !matches!(&end, TopEnd::Run(_));
    Outcome {
        end,
        retired: 0,
        reported,
    }
}
