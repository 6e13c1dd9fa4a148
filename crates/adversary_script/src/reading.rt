//! The reader.
ghost use Rattle.std.specs.Prelude.{◌≡◌, ◌≢◌, ◌==◌, ◌<◌, ◌≤◌, ◌∷◌, length, Ok, Err, OnOk, IfOk, IfErr};
ghost use Rattle.std.specs.List.{position_or_len};
ghost use Rattle.std.specs.Str.Lines.{lines, strip_carriage_return};
ghost use Rattle.adversary_script.specs.ScriptGrammar.{read_line, script_of};
ghost use Rattle.adversary_script.specs.FormMeanings.{IsScriptFault};

use crate::draft::Draft;
use crate::error::ScriptError;
use crate::fault::Fault;
use crate::script::Script;
use crate::value::line_says;
use aegis_num::limits::MAX_SCRIPT_BYTES;
use std::alloc::Global;

/// How many bytes stand before the first line feed, or in the whole text where there is none.
fn line_len(text: &[u8]) -> usize
    ensures len { result ≡ position_or_len (λ byte. byte == 10) text.now }
    ensures within { result ≤ length text.now }
{
    text.iter().take_while(|byte| **byte != b'\n').count()
}

/// A line without the carriage return at its end, if it has one.
fn without_return(line: &[u8]) -> &[u8]
    ensures { result.now ≡ strip_carriage_return line.now }
{
    match line {
        [front @ .., b'\r'] => front,
        _ => line,
    }
}

/// The first line of a text, and what stands after it.
fn first_line(text: &[u8]) -> (&[u8], &[u8])
    requires { 0 < length text.now }
    ensures line { lines text.now ≡ result.0.now ∷ lines result.1.now }
    ensures shorter { length result.1.now < length text.now }
{
    let len = line_len(text);
    if len == text.len() {
        return (text, &text[len..]);
    }
    (without_return(&text[..len]), &text[len + 1..])
}

/// Reads a line, and adds its change.
#[tactic(auto, unfolding(crate::specs::ScriptGrammar::read_line, crate::specs::ScriptGrammar::added))]
fn read_line(alloc: Global, draft: &mut Draft, line: &[u8]) -> Result<(), Fault>
    ensures read { OnOk result (read_line draft.old line.now ≡ Ok draft.new) }
    ensures fault { IfErr result (λ fault. IsScriptFault fault (read_line draft.old line.now)) }
{
    match line_says(alloc, line)? {
        None => Ok(()),
        Some(change) => draft.add(change),
    }
}

/// Reads a script: lines that each make a change, say nothing or are a comment.
///
/// # Errors
///
/// The fault of the first faulty line, with its number, counted from 1. Of its faults the first in the order of
/// `ScriptError` is told. `OutOfMemory` where memory runs out.
pub fn read_script(alloc: Global, text: &[u8]) -> Result<Script, ScriptError>
    requires { length text.now ≤ MAX_SCRIPT_BYTES }
    // No line is faulty, and these are the changes of the lines.
    ensures script { IfOk result (λ script. script_of text.now ≡ Ok script) }
    // The first faulty line has this number, and this is its first fault.
    ensures fault { IfErr result
        (λ error. error ≢ ScriptError.OutOfMemory → script_of text.now ≡ Err error) }
{
    let mut draft = Draft::new(alloc);
    let mut rest = text;
    let mut n: u32 = 1;
    'lines: while !rest.is_empty() {
        let (line, further) = first_line(rest);
        if let Err(fault) = read_line(alloc, &mut draft, line) {
            return Err(fault.at_line(n));
        }
        rest = further;
        n += 1;
    }
    Ok(draft.finish())
}
