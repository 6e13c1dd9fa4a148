//! What a line asks for.

use adversary_script::{Script, read_script};
use aegis_num::limits::MAX_SCRIPT_BYTES;
use anyhow::{Result, bail, ensure};
use std::alloc::Global;

/// How the machine is run.
#[derive(Clone, Copy, Debug)]
pub(crate) enum Course {
    /// In one call, to its end.
    Run,
    /// In turns.
    Turns {
        /// How many instructions a turn has, at least one.
        instructions: u32,
        /// How many turns there are at most.
        most: u32,
    },
}

/// What a line asks for.
#[derive(Drop)]
pub(crate) struct Row {
    /// The name of the file with the image.
    pub(crate) image: String,
    /// The input.
    pub(crate) input: Vec<u8>,
    /// The fuel, in events.
    pub(crate) fuel: u64,
    /// How the machine is run.
    pub(crate) course: Course,
    /// The calls of the sink that fail, and after how many bytes each.
    pub(crate) failing: Vec<(u64, u64)>,
    /// The changes that are made off the chip, where it is not a plain memory.
    pub(crate) script: Option<Script>,
}

// The first word of a text, and what stands after it.
fn first_word(text: &str) -> (&str, &str) {
    match text.split_once(' ') {
        Some((word, rest)) => (word, rest),
        None => (text, ""),
    }
}

// Two numbers, with a sign between them.
fn pair(word: &str, sign: char) -> Result<(u32, u32)> {
    match word.split_once(sign) {
        Some((first, second)) => Ok((first.parse()?, second.parse()?)),
        None => bail!("no pair of numbers"),
    }
}

// The bytes that a word says in hexadecimal.
fn input_of(alloc: Global, word: &str) -> Result<Vec<u8>> {
    if word == "-" {
        return Ok(Vec::new(alloc));
    }
    Ok(hex::decode(alloc, word)?)
}

// How the machine is run, as a word says.
fn course_of(word: &str) -> Result<Course> {
    if word == "run" {
        return Ok(Course::Run);
    }
    let (instructions, most) = pair(word, 'x')?;
    Ok(Course::Turns { instructions, most })
}

// The calls of the sink that fail, as a word says.
fn failing_of(alloc: Global, word: &str) -> Result<Vec<(u64, u64)>> {
    let mut failing = Vec::new(alloc);
    if word != "-" {
        let (call, bytes) = pair(word, ':')?;
        failing.push((u64::from(call), u64::from(bytes)))?;
    }
    Ok(failing)
}

// The changes that a text says.
fn changes_of(alloc: Global, text: &str) -> Result<Script> {
    let mut lines = String::new(alloc);
    for change in text.split("; ") {
        lines.push_str(change)?;
        lines.push('\n')?;
    }
    ensure!(
        lines.len() <= MAX_SCRIPT_BYTES as usize,
        "the script is too long"
    );
    Ok(read_script(alloc, lines.as_bytes())?)
}

// The changes that are made off the chip, as the last words say.
fn script_of(alloc: Global, text: &str) -> Result<Option<Script>> {
    match first_word(text) {
        ("plain", "") => Ok(None),
        ("script", "") => Ok(Some(read_script(alloc, &[])?)),
        ("script", changes) => Ok(Some(changes_of(alloc, changes)?)),
        _ => bail!("neither plain nor script"),
    }
}

/// What a line asks for.
pub(crate) fn row_of(alloc: Global, line: &str) -> Result<Row> {
    let (name, rest) = first_word(line);
    let (input, rest) = first_word(rest);
    let (fuel, rest) = first_word(rest);
    let (course, rest) = first_word(rest);
    let (failing, rest) = first_word(rest);
    Ok(Row {
        image: format!(in alloc; "{name}.image")?,
        input: input_of(alloc, input)?,
        fuel: fuel.parse()?,
        course: course_of(course)?,
        failing: failing_of(alloc, failing)?,
        script: script_of(alloc, rest)?,
    })
}
