//! The line of each end.
ghost use Rattle.std.specs.Prelude.{◌≡◌, ◌+◌, ◌≤◌, ◌++◌, length, codes, decimal, Some};
ghost use Rattle.arrayvec.specs.ArrayString.{array_string_len};
ghost use Rattle.off_chip.specs.Boundaries.{retired as retired_in};
ghost use Rattle.aegis_report.specs.ReportLines.{IsRecordOf, NamesRead, ReadsLog, block_words, count_words, future_line, log_line, place_at as place_in, program_line, read_words, report_of, retired_words, sums_line, tree_line, why_word as word_of};

use crate::line::{Line, add_hex, add_number, add_retired, add_sum};
use crate::record::Record;
use aegis_machine::End;
use aegis_num::Place;
use image_file::Image;
use off_chip::{Event, Mark, Who, blocks_of_tree};
use orbis_core::Why;
use regions::{Layout, leaf};
use stamp_log::{LogCause, MultisetSum};

/// The line that tells how a run ended, from its end and its record.
pub fn report_text(end: &End, kept: &Record) -> Line
    requires { IsRecordOf end.now kept.now.image kept.now.trace }
    ensures line { report_of end.now kept.now.image kept.now.trace ≡ Some result.bytes }
    ensures short { length result.bytes ≤ 256 }
{
    let trace = kept.trace.events();
    match *end {
        End::Ended => line_of_end("ended", retired(trace), trace),
        End::Index { at } => line_of_trap("index token ", at, trace),
        End::Divide { at } => line_of_trap("divide token ", at, trace),
        End::AbortTree { event, retired } => line_of_tree(&kept.image, trace, event, retired),
        End::AbortLog { cause, retired } => line_of_log(cause, trace, retired),
        End::AbortProgram { read, expected } => line_of_program(&read, &expected),
        End::FuelOut { retired } => line_of_end("fuel", retired, trace),
        End::Refused { why, retired } => line_of_refusal(why, retired),
        End::WriteFault => line_from("write fault\n"),
    }
}

/// A line that begins so.
fn line_from(front: &str) -> Line
    requires { length front.now ≤ 256 }
    ensures { result.bytes ≡ front.now }
{
    let mut line = Line::new();
    line.push_str(front);
    line
}

/// The line of an end that is told by how many instructions were done and how many events there are.
fn line_of_end(word: &str, retired: u64, trace: &[Event]) -> Line
    requires { length word.now ≤ 20 }
    ensures { result.bytes ≡ word.now ++ count_words retired trace.now }
{
    let mut line = line_from(word);
    add_counts(&mut line, retired, trace);
    line
}

/// The line of an end at a token.
fn line_of_trap(front: &str, token: u32, trace: &[Event]) -> Line
    requires { length front.now ≤ 20 }
    ensures { result.bytes ≡ front.now ++ decimal token ++ count_words (retired_in trace.now) trace.now }
{
    let mut line = line_from(front);
    add_number(&mut line, token as u64);
    add_counts(&mut line, retired(trace), trace);
    line
}

/// Ends a line by how many instructions were done and how many events there are.
fn add_counts(line: &mut Line, retired: u64, trace: &[Event])
    requires { array_string_len line.old ≤ 100 }
    ensures { line.new.bytes ≡ line.old.bytes ++ count_words retired trace.now }
{
    line.push_str(" retired ");
    add_number(line, retired);
    line.push_str(" events ");
    add_number(line, trace.len() as u64);
    line.push_str("\n");
}

/// How many instructions of the secure program were done.
fn retired(trace: &[Event]) -> u64
    ensures { result ≡ retired_in trace.now }
{
    let done = Event::Note(Mark::Retire(Who::Secure));
    trace.iter().filter(|event| **event == done).count() as u64
}

/// The place that an event read, if it is the read of a block.
fn place_at(trace: &[Event], event: u64) -> Option<Place>
    ensures { result ≡ place_in trace.now event }
{
    match trace.get(event as usize) {
        Some(Event::BlockRead { at, block: _ }) => Some(*at),
        _ => None,
    }
}

/// The line of a changed block of the tree, which an event read.
fn line_of_tree(image: &Option<Image>, trace: &[Event], event: u64, retired: u64) -> Line
    requires { IsRecordOf (End.AbortTree event retired) image.now trace.now }
    ensures { tree_line image.now (place_in trace.now event) event retired ≡ Some result.bytes }
{
    match (image, place_at(trace, event)) {
        (Some(image), Some(Place::Tree(block))) => {
            let mut line = line_from("abort tree ");
            add_block(&mut line, &image.layout, block);
            add_read(&mut line, event, retired);
            line
        }
        _ => unreachable!(),
    }
}

/// Adds what a block of the tree is called.
fn add_block(line: &mut Line, layout: &Layout, block: u32)
    requires { array_string_len line.old ≤ 20 }
    ensures added { line.new.bytes ≡ line.old.bytes ++ block_words layout.now block }
    ensures short { array_string_len line.new ≤ array_string_len line.old + 25 }
{
    let first = leaf(layout, 0);
    if first <= block && block < blocks_of_tree(layout) {
        line.push_str("data ");
        add_number(line, (block - first) as u64);
    } else {
        line.push_str("node ");
        add_number(line, block as u64);
    }
}

/// Ends a line by the number of a read and by how many instructions were done.
fn add_read(line: &mut Line, event: u64, retired: u64)
    requires { array_string_len line.old ≤ 100 }
    ensures { line.new.bytes ≡ line.old.bytes ++ read_words event retired }
{
    line.push_str(" event ");
    add_number(line, event);
    add_retired(line, retired);
}

/// The line of a log that was changed.
fn line_of_log(cause: LogCause, trace: &[Event], retired: u64) -> Line
    requires { NamesRead cause trace.now }
    ensures { log_line cause trace.now retired ≡ Some result.bytes }
{
    match cause {
        LogCause::Future { event } => line_of_future(trace, event, retired),
        LogCause::Sums { read, written } => line_of_sums(&read, &written, retired),
    }
}

/// The line of a block of the log with the stamp of a later write, which an event read.
fn line_of_future(trace: &[Event], event: u64, retired: u64) -> Line
    requires { ReadsLog trace.now event }
    ensures { future_line (place_in trace.now event) event retired ≡ Some result.bytes }
{
    match place_at(trace, event) {
        Some(Place::Log(block)) => {
            let mut line = line_from("abort log future log ");
            add_number(&mut line, block as u64);
            add_read(&mut line, event, retired);
            line
        }
        _ => unreachable!(),
    }
}

/// The line of a check of the log that did not pass.
fn line_of_sums(read: &MultisetSum, written: &MultisetSum, retired: u64) -> Line
    ensures { result.bytes ≡ sums_line read.now written.now retired }
{
    let mut line = line_from("abort log sums read ");
    add_sum(&mut line, read);
    line.push_str(" written ");
    add_sum(&mut line, written);
    add_retired(&mut line, retired);
    line
}

/// The line of a changed program.
fn line_of_program(read: &[u8; 20], expected: &[u8; 20]) -> Line
    ensures { result.bytes ≡ program_line read.now expected.now }
{
    let mut line = line_from("abort program read ");
    add_hex(&mut line, read);
    line.push_str(" expected ");
    add_hex(&mut line, expected);
    line.push_str("\n");
    line
}

/// The line of a refused instruction.
fn line_of_refusal(why: Why, retired: u64) -> Line
    ensures { result.bytes ≡ codes "refused " ++ word_of why ++ retired_words retired }
{
    let mut line = line_from("refused ");
    line.push_str(why_word(why));
    add_retired(&mut line, retired);
    line
}

/// What a reason is called.
fn why_word(why: Why) -> &'static str
    ensures word { result.now ≡ word_of why }
    ensures short { length result.now ≤ 10 }
{
    match why {
        Why::Rights => "rights",
        Why::Misaligned => "misaligned",
        Why::Illegal => "illegal",
        Why::Divide => "divide",
        Why::Mode => "mode",
    }
}
