//! The program `aegis`: compiles a source and runs it on the processor.
#![tactic(auto)]

mod answer;
mod build;
mod ends;
mod files;
mod list;
mod make;
mod mean;
mod report;
mod run;
mod top;

use aegis_edge::{HostFolder, HostSink};
use answer::Outcome;
use ends::TopEnd;
use std::alloc::AllocError;
use std::env;
use std::io::ErrorKind;
use std::process::ExitCode;
use std::rt::Env;
use top::{aegis, noted};

fn main(rt: HostRuntime) -> ExitCode {
    let mut folder = HostFolder::new(&rt);
    let mut out = HostSink::new(rt.stdout());
    let mut notes = HostSink::new(rt.stderr());
    let finish = match words_after_name(&rt) {
        Ok(words) => aegis(
            rt.alloc(),
            words.as_slice(),
            &mut folder,
            &mut out,
            &mut notes,
        ),
        Err(AllocError) => noted(
            Outcome {
                end: TopEnd::OutOfMemory,
                retired: 0,
                reported: true,
            },
            &mut notes,
        ),
    };
    ExitCode::from(finish.status)
}

/// The words after the program's name, and none where one of them is not UTF-8: no command has
/// such a word.
fn words_after_name(rt: &(impl Env + AllocGlobal)) -> Result<Vec<String>, AllocError> {
    match env::args(rt) {
        Ok(all) => all.skip(1).collect(rt.alloc()),
        Err(error) if error.kind() == ErrorKind::OutOfMemory => Err(AllocError),
        Err(_) => Ok(Vec::new(rt.alloc())),
    }
}

#[cfg(test)]
mod tests;
