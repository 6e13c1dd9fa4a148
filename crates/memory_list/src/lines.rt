//! What a line says.
use anyhow::{Result, bail};

/// What is done with a memory.
#[derive(Clone, Copy, Debug)]
pub(crate) enum Line {
    /// A word is fetched at an address.
    Fetch(u32),
    /// A word is loaded.
    Word(u32),
    /// A byte is loaded.
    Byte(u32),
    /// A word is stored at an address.
    PutWord(u32, u32),
    /// A byte is stored at an address.
    PutByte(u32, u8),
    /// The mode unit enters the secure program.
    Enter,
    /// The mode unit goes on to private execution.
    PrivateOn,
}

// The first word of a text, and what stands after it.
fn first_word(text: &str) -> (&str, &str) {
    match text.split_once(' ') {
        Some((word, rest)) => (word, rest),
        None => (text, ""),
    }
}

// The number that hexadecimal digits write.
fn number(digits: &str) -> Result<u32> {
    Ok(u32::from_str_radix(digits, 16)?)
}

/// What a line says.
pub(crate) fn line_of(text: &str) -> Result<Line> {
    let (word, rest) = first_word(text);
    let (at, value) = first_word(rest);
    Ok(match word {
        "fetch" => Line::Fetch(number(at)?),
        "word" => Line::Word(number(at)?),
        "byte" => Line::Byte(number(at)?),
        "put-word" => Line::PutWord(number(at)?, number(value)?),
        "put-byte" => Line::PutByte(number(at)?, (number(value)? % 256) as u8),
        "enter" => Line::Enter,
        "private-on" => Line::PrivateOn,
        _ => bail!("no such line"),
    })
}
