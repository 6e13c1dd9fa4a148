//! The command `make`.
ghost use Rattle.std.specs.Prelude.{◌≡◌, ◌⊎◌, ◌≤◌, None, IfErr, IfOk, string_bytes};
ghost use Rattle.aegis_words.specs.KeptWords.{make_names_of};
ghost use Rattle.work_maker.specs.declared.TheConstants.{MOST_FUNCTIONS};
ghost use Rattle.aegis_run.specs.Answers.{IsWriteFault, RisesWhere};
ghost use Rattle.aegis_run.specs.FilesRead.{IsMadeFrom, SendsSummary};
ghost use Rattle.aegis_run.specs.MakeCommand.{IsMadeEnd, IsOwnOfMake, MakeCommand, end_word as word_of_end, hex_or_dash, summary_line};

use crate::ends::{End, TopEnd, end_of};
use crate::files::build;
use aegis_edge::{NeverFails, Sink};
use aegis_num::OutOfMemory;
use aegis_words::MakeWords;
use compiled_run::run_compiled;
use std::alloc::Global;
use work_maker::make_source;

/// The most instructions of a made run.
pub const MADE_FUEL: u64 = 4_194_304;

/// A made run: how it ended, and what took its bytes.
#[derive(Drop)]
struct Made {
    end: End,
    taken: NeverFails,
}

/// Runs the source of a number over an empty input, and tells on one line what it released.
pub fn answer_make<K: Sink>(alloc: Global, names: MakeWords, out: &mut K) -> TopEnd
    requires unlimited { K.limit out.old ≡ None }
    requires some { 1 ≤ names.number }
    requires most { names.number ≤ MOST_FUNCTIONS }

    ensures cause { IsOwnOfMake result ⊎ (result ≡ TopEnd.OutOfMemory) }
    ensures make { MakeCommand (make_names_of names) result (K.written out.old) (K.written out.new) }
    ensures out_count { RisesWhere (IsWriteFault result) (K.faults out.old) (K.faults out.new) }
    ensures out_still_unlimited { K.limit out.new ≡ None }
{
    match run_made(alloc, names.number) {
        Ok(made) => write_summary(alloc, names.number, &made, out),
        Err(end) => end,
    }
}

/// Runs the source of a number. It has no fault, so that only memory can be wanting.
fn run_made(alloc: Global, number: u32) -> Result<Made, TopEnd>
    requires some { 1 ≤ number }
    requires most { number ≤ MOST_FUNCTIONS }

    ensures made { IfOk result (λ made. IsMadeFrom number made.end made.taken.bytes) }
    ensures wanting { IfErr result (λ end. end ≡ TopEnd.OutOfMemory) }
{
    let source = match make_source(alloc, number) {
        Ok(source) => source,
        Err(OutOfMemory) => return Err(TopEnd::OutOfMemory),
    };
    let image = build(alloc, source.as_slice())?;
    let mut taken = match NeverFails::with_room(alloc, MADE_FUEL) {
        Ok(taken) => taken,
        Err(OutOfMemory) => return Err(TopEnd::OutOfMemory),
    };
    match run_compiled(alloc, &image, &[], MADE_FUEL, &mut taken) {
        Ok(ran) => Ok(Made {
            end: end_of(ran),
            taken,
        }),
        Err(OutOfMemory) => Err(TopEnd::OutOfMemory),
    }
}

/// Writes the line on a made run.
fn write_summary<K: Sink>(alloc: Global, number: u32, made: &Made, out: &mut K) -> TopEnd
    requires unlimited { K.limit out.old ≡ None }
    requires ends { IsMadeEnd made.now.end }

    ensures sends { SendsSummary number made.now.end made.now.taken.bytes result
        (K.written out.old) (K.written out.new) }
    ensures out_count { RisesWhere (IsWriteFault result) (K.faults out.old) (K.faults out.new) }
    ensures still_unlimited { K.limit out.new ≡ None }
{
    match summary(alloc, number, made.taken.bytes(), end_word(made.end)) {
        Ok(line) => match out.write(line.as_bytes()) {
            Ok(()) => TopEnd::Run(made.end),
            Err(_) => TopEnd::WriteFault,
        },
        Err(OutOfMemory) => TopEnd::OutOfMemory,
    }
}

/// The word that tells the end of a made run on its line. It ends by itself, or for want of fuel.
fn end_word(end: End) -> &'static str
    ensures { result.now ≡ word_of_end end }
{
    match end {
        End::Ended => "ended",
        _ => "fuel",
    }
}

/// The line on a made run.
fn summary(alloc: Global, number: u32, bytes: &[u8], word: &str) -> Result<String, OutOfMemory>
    ensures { IfOk result (λ line. string_bytes line ≡ summary_line number bytes.now word.now) }
{
    let digits = hex_text(alloc, bytes)?;
    Ok(format!(in alloc; "make {number} bytes {digits} end {word}\n")?)
}

/// Bytes in lower-case hexadecimal digits, and a dash where there are none.
fn hex_text(alloc: Global, bytes: &[u8]) -> Result<String, OutOfMemory>
    ensures { IfOk result (λ text. string_bytes text ≡ hex_or_dash bytes.now) }
{
    if bytes.is_empty() {
        return Ok(String::from_str(alloc, "-")?);
    }
    Ok(hex::encode(alloc, bytes)?)
}
