//! The lines that show a place of a text.
ghost use Rattle.std.specs.Prelude.{◌≡◌, ◌≤◌, ◌++◌, length, drop, map, count_by, string_bytes, IfOk, OnOk};
ghost use Rattle.std.specs.List.{after_last, position_or_len};
ghost use Rattle.source_place.specs.Places.{below, caret_lines, head_line as line_of_numbers, is_feed, shown as shown_lines};

use aegis_num::OutOfMemory;
use std::alloc::{AllocError, Global};

/// The lines that show a place: the numbers of its line and its column, its line, and a caret below it.
pub fn shown(alloc: Global, text: &[u8], place: usize) -> Result<Vec<u8>, OutOfMemory>
    requires { place ≤ length text.now }
    ensures { IfOk result (λ lines. lines.items ≡ shown_lines text.now place) }
{
    let (before, after) = text.split_at(place);
    let front = &before[line_start(before)..];
    let back = &after[..line_end(after)];
    let line = line_feeds(before) + 1;
    let head = head_line(alloc, line, front.len() + 1)?;
    let mut lines = Vec::from_slice(alloc, head.as_str().as_bytes())?;
    add_caret(&mut lines, front, back)?;
    Ok(lines)
}

/// The line that tells a line and a column by their numbers.
fn head_line(alloc: Global, line: usize, column: usize) -> Result<String, AllocError>
    ensures { IfOk result (λ head. string_bytes head ≡ line_of_numbers line column) }
{
    Ok(format!(in alloc; "line {line}, column {column}\n")?)
}

/// Adds a line of two parts, and a caret below the start of the second one.
fn add_caret(lines: &mut Vec<u8>, front: &[u8], back: &[u8]) -> Result<(), AllocError>
    ensures { OnOk result (lines.new.items ≡ lines.old.items ++ caret_lines front.now back.now) }
{
    lines.extend_from_slice(front)?;
    lines.extend_from_slice(back)?;
    lines.extend_from_slice(b"\n")?;
    add_below(lines, front)?;
    lines.extend_from_slice(b"^\n")?;
    Ok(())
}

/// How many lines a text ends.
fn line_feeds(text: &[u8]) -> usize
    ensures value { result ≡ count_by is_feed text.now }
    ensures within { result ≤ length text.now }
{
    text.iter().filter(|byte| **byte == b'\n').count()
}

/// Where the last line of a text starts.
fn line_start(text: &[u8]) -> usize
    ensures within { result ≤ length text.now }
    ensures rest { drop result text.now ≡ after_last is_feed text.now }
{
    let mut start = text.len();
    while start > 0 && text[start - 1] != b'\n' {
        start -= 1;
    }
    start
}

/// Where the first line of a text ends.
fn line_end(text: &[u8]) -> usize
    ensures value { result ≡ position_or_len is_feed text.now }
    ensures within { result ≤ length text.now }
{
    text.iter().take_while(|byte| **byte != b'\n').count()
}

/// Adds what is written below bytes.
fn add_below(lines: &mut Vec<u8>, bytes: &[u8]) -> Result<(), AllocError>
    ensures { OnOk result (lines.new.items ≡ lines.old.items ++ map below bytes.now) }
{
    for byte in bytes {
        lines.push(if *byte == b'\t' { b'\t' } else { b' ' })?;
    }
    Ok(())
}
