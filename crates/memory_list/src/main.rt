//! Lists what a secure memory answers, for each line of the standard input, and how many events its bus has then. The memory
//! has ten data blocks and five of the log, and its program was entered. A line is one of `fetch A`, `word A`, `byte A`,
//! `put-word A W`, `put-byte A B`, `enter` and `private-on`, where `A`, `W` and `B` are hexadecimal.
#![tactic(auto)]

ghost use Rattle.std.specs.Prelude.{◌≡◌, IfOk, length};

mod lines;
mod run;

use crate::lines::line_of;
use crate::run::{run_on, ten_blocks};
use aegis_num::OutOfMemory;
use anyhow::Result;
use off_chip::PlainDram;
use std::alloc::Global;

// The bytes of the static blocks: 0, 1, 2 and so on up to 250, and then from 0 again.
fn ramp(alloc: Global) -> Result<Vec<u8>, OutOfMemory>
    ensures bytes { IfOk result (λ bytes. length bytes.items ≡ 448) }
{
    let mut bytes = vec![in alloc; 0; 448]?;
    let mut next = 0u8;
    for byte in bytes.as_mut_slice() {
        *byte = next;
        next = next.wrapping_add(1) % 251;
    }
    Ok(bytes)
}

fn main(rt: HostRuntime) -> Result<()> {
    let mut lines = Vec::new(rt.alloc());
    for line in rt.lines(rt.alloc()) {
        lines.push(line_of(line?.as_str())?)?;
    }
    let layout = ten_blocks();
    let statics = ramp(rt.alloc())?;
    let mut dram = PlainDram::new(rt.alloc(), &layout, statics.as_slice(), 20_000)?;
    let text = run_on(rt.alloc(), &mut dram, layout, lines.as_slice())?;
    rt.print(text.as_str())?;
    Ok(())
}
