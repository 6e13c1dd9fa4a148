//! Lists the flat code of the sources of the standard input, one source a line.
#![tactic(auto)]

use aegis_num::limits::MAX_SOURCE_BYTES;
use anyhow::{Result, ensure};
use c_reader::read_program;
use c_token::tokens;
use c_types::check;
use ir_code::Ir;
use secure_split::split;
use std::alloc::Global;

/// The flat code of a source.
fn code_of(alloc: Global, text: &[u8]) -> Result<Ir> {
    ensure!(
        text.len() <= MAX_SOURCE_BYTES as usize,
        "the source is too long"
    );
    let tokens = tokens(alloc, text)?;
    let program = read_program(alloc, &tokens)?;
    let checked = check(alloc, program)?;
    Ok(split(alloc, &checked)?)
}

/// A line for each cell, one for each operation, and one that says where it starts.
fn listing(alloc: Global, ir: &Ir) -> Result<String> {
    let mut text = String::new(alloc);
    for cell in ir.cells.as_slice() {
        let first = cell.first.as_slice();
        let line = format!(in alloc; "{:?} {} {first:?}\n", cell.class, cell.words)?;
        text.push_str(line.as_str())?;
    }
    for op in ir.ops.as_slice() {
        let line = format!(in alloc; "{op:?}\n")?;
        text.push_str(line.as_str())?;
    }
    let line = format!(in alloc; "starts at {}", ir.entry)?;
    text.push_str(line.as_str())?;
    Ok(text)
}

fn main(rt: HostRuntime) -> Result<()> {
    for line in rt.lines(rt.alloc()) {
        let line = line?;
        let ir = code_of(rt.alloc(), line.as_str().as_bytes())?;
        rt.println(listing(rt.alloc(), &ir)?.as_str())?;
    }
    Ok(())
}
