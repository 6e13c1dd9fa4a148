//! What is written on a question.
ghost use Rattle.std.specs.Prelude.{◌≡◌, ◌≤◌, length, is_ok, None, IfOk, string_bytes};
ghost use Rattle.aegis_edge.specs.Sink.{Appends};
ghost use Rattle.source_place.specs.Questions.{place_of, refusal_line as line_of_refusal, told};

use crate::line::shown;
use crate::place::{Question, Refusal, place};
use aegis_edge::Sink;
use aegis_num::OutOfMemory;
use aegis_num::limits::MAX_SOURCE_BYTES;
use anyhow::Result;
use std::alloc::Global;

/// Writes the lines that answer a question on a source, and says whether it has the place.
pub fn tell<K: Sink>(alloc: Global, text: &[u8], question: Question, out: &mut K) -> Result<bool>
    requires short { length text.now ≤ MAX_SOURCE_BYTES }
    requires unlimited { K.limit out.old ≡ None }
    ensures lines { IfOk result (λ found.
        Appends (K.written out.old) (K.written out.new) (told question text.now)) }
    ensures found { IfOk result (λ found. found ≡ is_ok (place_of question text.now)) }
    ensures still_unlimited { K.limit out.new ≡ None }
{
    match place(alloc, text, question) {
        Ok(place) => {
            let lines = shown(alloc, text, place)?;
            out.write(lines.as_slice())?;
            Ok(true)
        }
        Err(Refusal::OutOfMemory) => Err(OutOfMemory.into()),
        Err(refusal) => {
            let line = refusal_line(alloc, refusal)?;
            out.write(line.as_str().as_bytes())?;
            Ok(false)
        }
    }
}

/// The line of a question that names no place.
fn refusal_line(alloc: Global, refusal: Refusal) -> Result<String, OutOfMemory>
    ensures { IfOk result (λ line. string_bytes line ≡ line_of_refusal refusal) }
{
    Ok(match refusal {
        Refusal::Past { last } => {
            format!(in alloc; "there is no such place: the last one is {last}\n")?
        }
        Refusal::NoTokens { at } => {
            format!(in alloc; "the source has no tokens: its first fault is at byte {at}\n")?
        }
        Refusal::OutOfMemory => String::from_str(alloc, "out of memory\n")?,
    })
}
