//! The program `where`: shows places of sources, one after another. The words come in threes: `SOURCE byte P` asks for the byte of
//! this number in the file of this name, and `SOURCE token P` for the token of this number, both counted from 0.
#![tactic(auto)]

ghost use Rattle.std.specs.Prelude.{◌≤◌, vec_len, IfOk};

mod answer;
mod line;
mod place;

use aegis_edge::{Folder, HostFolder, HostSink};
use aegis_num::limits::MAX_SOURCE_BYTES;
use answer::tell;
use anyhow::{Result, bail, ensure};
use place::{Question, asked_by};
use std::alloc::Global;
use std::env;
use std::process::ExitCode;

/// The status where a place was asked for that a source does not have.
const NO_PLACE: u8 = 1;

/// The text of a source.
fn text_of<F: Folder>(alloc: Global, folder: &mut F, name: &str) -> Result<Vec<u8>>
    ensures { IfOk result (λ text. vec_len text ≤ MAX_SOURCE_BYTES) }
{
    let mut text = Vec::new(alloc);
    folder.read(alloc, name, MAX_SOURCE_BYTES, &mut text)?;
    Ok(text)
}

/// What two words ask for.
fn question_in(word: &str, number: &str) -> Result<Question> {
    match asked_by(word, number.parse()?) {
        Some(question) => Ok(question),
        None => bail!("usage: where SOURCE byte P, where SOURCE token P"),
    }
}

fn main(rt: HostRuntime) -> Result<ExitCode> {
    let words: Vec<String> = env::args(&rt)?.skip(1).collect(rt.alloc())?;
    ensure!(
        !words.is_empty() && words.len() % 3 == 0,
        "usage: where SOURCE byte P, where SOURCE token P"
    );
    let mut folder = HostFolder::new(&rt);
    let mut out = HostSink::new(rt.stdout());
    let mut status = 0;
    for k in 0..words.len() / 3 {
        let question = question_in(words[3 * k + 1].as_str(), words[3 * k + 2].as_str())?;
        let text = text_of(rt.alloc(), &mut folder, words[3 * k].as_str())?;
        if !tell(rt.alloc(), text.as_slice(), question, &mut out)? {
            status = NO_PLACE;
        }
    }
    Ok(ExitCode::from(status))
}
