//! The call that does all that the program does.
ghost use Rattle.std.specs.Prelude.{◌≡◌, ◌↔◌, ℕ, None, false, map, string_bytes, IfSome};
ghost use Rattle.std.specs.Option.{option_map};
ghost use Rattle.aegis_words.specs.BuildWordRow.{build_row};
ghost use Rattle.aegis_words.specs.CommandTable.{command_in};
ghost use Rattle.aegis_words.specs.ListWordRow.{list_row};
ghost use Rattle.aegis_words.specs.MakeWordRow.{make_row};
ghost use Rattle.aegis_words.specs.MeanWordRow.{mean_row};
ghost use Rattle.aegis_words.specs.RunWordRow.{run_row};
ghost use Rattle.aegis_run.specs.Answers.{IsFileFault, IsWriteFault, RisesWhere};
ghost use Rattle.aegis_run.specs.Causes.{AreTold, Cause, Completes, RefusesWhere};
ghost use Rattle.aegis_run.specs.BuildCommand.{BuildCommand};
ghost use Rattle.aegis_run.specs.ListCommand.{ListCommand};
ghost use Rattle.aegis_run.specs.MakeCommand.{MakeCommand};
ghost use Rattle.aegis_run.specs.MeanCommand.{MeanCommand};
ghost use Rattle.aegis_run.specs.Report.{Notes, is_reported, line_of, line_where, status_of as status_of_answer};
ghost use Rattle.aegis_run.specs.RunCommand.{RunCommand};
ghost use Rattle.aegis_run.specs.RunImage.{RunsImage};

use crate::answer::{Outcome, answer_words};
use crate::ends::{Finish, TopEnd, status_of};
use crate::report::{Line, report_line};
use aegis_edge::{Folder, Sink};
use std::alloc::Global;

/// Does what the words after the program's name say. `run SOURCE SCRIPT INPUT FUEL KEY NONCE` reads the three
/// files from the folder, compiles the source and runs it; each byte goes to `out` as it is released.
/// `mean SOURCE INPUT TURNS` reads the two files and evaluates the source, with at most so many loop turns; its
/// bytes go to `out` once it has ended. `build SOURCE` writes the image of the source to `out`. `list IMAGE` reads
/// the file and writes the listing of its code to `out`. `make N` runs a made source of N functions and writes one
/// line on its bytes and its end to `out`. One line on the end goes to `notes`.
pub fn aegis<F: Folder, K: Sink, N: Sink>(
    alloc: Global,
    words: &[String],
    folder: &mut F,
    out: &mut K,
    notes: &mut N,
) -> Finish
    requires out_unlimited { K.limit out.old ≡ None }
    requires notes_unlimited { N.limit notes.old ≡ None }

    // Why the answer comes, and what the folder was asked for before: each file that the command came to,
    // in order and once.
    ensures usage { (result.end ≡ TopEnd.Usage) ↔ (command_in words.now ≡ None) }
    ensures cause { Cause (F.files folder.old) (command_in words.now)
        (F.faults folder.old) (F.faults folder.new) (F.asked folder.old) (F.asked folder.new) result.end }

    // Where a file or its text refuses the command, that is the answer, and else the command's own is.
    ensures refused { AreTold (F.files folder.old) → IfSome (command_in words.now) (λ command.
        RefusesWhere (F.files folder.old) command (F.faults folder.old) result.end) }
    ensures complete { AreTold (F.files folder.old) → IfSome (command_in words.now) (λ command.
        Completes (F.files folder.old) command result.end) }

    // What each command sends out before its answer. Words that are none send nothing.
    ensures run { IfSome (run_row (map string_bytes words.now)) (λ names.
        RunCommand (F.files folder.old) names result.end (K.written out.old) (K.written out.new)) }
    ensures mean { IfSome (mean_row (map string_bytes words.now)) (λ names.
        MeanCommand (F.files folder.old) names result.end (K.written out.old) (K.written out.new)) }
    ensures build { IfSome (build_row (map string_bytes words.now)) (λ names.
        BuildCommand (F.files folder.old) names result.end (K.written out.old) (K.written out.new)) }
    ensures list { IfSome (list_row (map string_bytes words.now)) (λ names.
        ListCommand (F.files folder.old) names result.end (K.written out.old) (K.written out.new)) }
    ensures make { IfSome (make_row (map string_bytes words.now)) (λ names.
        MakeCommand names result.end (K.written out.old) (K.written out.new)) }
    ensures silent { command_in words.now ≡ None → K.written out.new ≡ K.written out.old }

    // Which image a run runs, and the number of its instructions, which its line tells.
    ensures image { IfSome (run_row (map string_bytes words.now)) (λ names. (retired : ℕ)
        × RunsImage (F.files folder.old) names result.end retired (K.written out.old) (K.written out.new)
        × Notes (line_of result.end retired) result.noted (N.written notes.old) (N.written notes.new)) }

    // What notes took: the line of the answer, or a front of it where `noted` is false. The run of a `make` has none.
    ensures line { (retired : ℕ)
        × Notes (line_where (is_reported (command_in words.now) result.end) result.end retired) result.noted
        (N.written notes.old) (N.written notes.new) }
    ensures status { result.status ≡ status_of_answer result.end result.noted }

    // The counts of faults rise where the answer says so, and else stand still.
    ensures folder_count { (IsFileFault result.end → ⊥) → F.faults folder.new ≡ F.faults folder.old }
    ensures out_count { RisesWhere (IsWriteFault result.end) (K.faults out.old) (K.faults out.new) }
    ensures notes_count { RisesWhere (result.noted ≡ false) (N.faults notes.old) (N.faults notes.new) }

    // The files are as before, and neither sink has a limit.
    ensures kept { F.files folder.new ≡ F.files folder.old }
    ensures out_still_unlimited { K.limit out.new ≡ None }
    ensures notes_still_unlimited { N.limit notes.new ≡ None }
{
    let outcome = answer_words(alloc, words, folder, out);
    noted(outcome, notes)
}

/// Writes the line of an answer, where it has one and is told.
pub fn noted<N: Sink>(outcome: Outcome, notes: &mut N) -> Finish
    requires { N.limit notes.old ≡ None }

    ensures end { result.end ≡ outcome.end }
    ensures line { Notes (line_where outcome.reported outcome.end outcome.retired) result.noted
        (N.written notes.old) (N.written notes.new) }
    ensures count { RisesWhere (result.noted ≡ false) (N.faults notes.old) (N.faults notes.new) }
    ensures still_unlimited { N.limit notes.new ≡ None }
    ensures status { result.status ≡ status_of_answer outcome.end result.noted }
{
    let line = line_on(&outcome);
    let noted = write_line(&line, notes);
    Finish {
        status: status_of(&outcome.end, noted),
        end: outcome.end,
        noted,
    }
}

/// The line of an answer, where it has one and is told.
fn line_on(outcome: &Outcome) -> Option<Line>
    ensures { option_map (λ line. line.bytes) result
        ≡ line_where outcome.now.reported outcome.now.end outcome.now.retired }
{
    if outcome.reported {
        report_line(&outcome.end, outcome.retired)
    } else {
        None
    }
}

/// Writes a line, where there is one, and answers whether all of it was taken.
fn write_line<N: Sink>(line: &Option<Line>, notes: &mut N) -> bool
    requires { N.limit notes.old ≡ None }

    ensures line { Notes (option_map (λ line. line.bytes) line.now) result
        (N.written notes.old) (N.written notes.new) }
    ensures count { RisesWhere (result ≡ false) (N.faults notes.old) (N.faults notes.new) }
    ensures still_unlimited { N.limit notes.new ≡ None }
{
    match line {
        Some(line) => notes.write(line.as_str().as_bytes()).is_ok(),
        None => true,
    }
}
