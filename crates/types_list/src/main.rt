//! Tests the sources of the standard input, one a line, by the rules of tokens, of the grammar and of types.
#![tactic(auto)]

use aegis_num::limits::MAX_SOURCE_BYTES;
use anyhow::{Result, ensure};
use c_reader::read_program;
use c_token::tokens;
use c_types::check;
use std::alloc::Global;

/// What the test of a source answers, in a line of text.
fn answer(alloc: Global, text: &[u8]) -> Result<String> {
    ensure!(
        text.len() <= MAX_SOURCE_BYTES as usize,
        "the source is too long"
    );
    let tokens = match tokens(alloc, text) {
        Ok(tokens) => tokens,
        Err(error) => return Ok(format!(in alloc; "{error}")?),
    };
    let program = match read_program(alloc, &tokens) {
        Ok(program) => program,
        Err(error) => return Ok(format!(in alloc; "{error}")?),
    };
    let line = match check(alloc, program) {
        Ok(checked) => {
            let objects = checked.objects().len();
            let functions = checked.functions().len();
            format!(in alloc; "objects {objects}, functions {functions}")?
        }
        Err(refusal) => format!(in alloc; "{refusal}")?,
    };
    Ok(line)
}

fn main(rt: HostRuntime) -> Result<()> {
    for line in rt.lines(rt.alloc()) {
        let line = line?;
        let answer = answer(rt.alloc(), line.as_str().as_bytes())?;
        rt.println(answer.as_str())?;
    }
    Ok(())
}
