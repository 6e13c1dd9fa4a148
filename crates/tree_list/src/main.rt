//! Lists what a cached hash tree does over a memory, for each line of the standard input. A line names what is done and the
//! memory: `enter` loads data block 0 of a small program that was entered, and `play` makes many loads and stores; `plain`
//! is a memory that answers each read with the last write, and `script` one that is changed as the rest of the line says.
#![tactic(auto)]

mod memories;
mod play;
mod report;
mod turned;

use crate::memories::{Work, answer_on};
use adversary_script::{Script, read_script};
use aegis_num::limits::MAX_SCRIPT_BYTES;
use anyhow::{Result, bail, ensure};
use std::alloc::Global;

// The script that the rest of a line says.
fn script_of(alloc: Global, text: &str) -> Result<Script> {
    ensure!(
        text.len() <= MAX_SCRIPT_BYTES as usize,
        "the script is too long"
    );
    Ok(read_script(alloc, text.as_bytes())?)
}

// The first word of a text, and what stands after it.
fn first_word(text: &str) -> (&str, &str) {
    match text.split_once(' ') {
        Some((word, rest)) => (word, rest),
        None => (text, ""),
    }
}

// What the tree does by a line.
fn answer(alloc: Global, line: &str) -> Result<String> {
    let (word, rest) = first_word(line);
    let work = match word {
        "enter" => Work::Enter,
        "play" => Work::Play,
        _ => bail!("neither enter nor play"),
    };
    match first_word(rest) {
        ("plain", _) => answer_on(alloc, work, None),
        ("script", text) => answer_on(alloc, work, Some(script_of(alloc, text)?)),
        _ => bail!("neither plain nor script"),
    }
}

fn main(rt: HostRuntime) -> Result<()> {
    for line in rt.lines(rt.alloc()) {
        let line = line?;
        rt.println(answer(rt.alloc(), line.as_str())?.as_str())?;
    }
    Ok(())
}
