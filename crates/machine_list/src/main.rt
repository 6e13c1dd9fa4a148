//! Lists how runs of the machine end, for each line of the standard input. A line has these words, with one space between two:
//!
//! - an image, which lies in the file with this name and `.image` after it;
//! - the bytes of the input in hexadecimal, or `-`;
//! - the fuel, in events;
//! - `run`, or `NxM` for at most `M` turns of `N` instructions each;
//! - `-`, or `K:B` for a sink whose call number `K`, counted from 0, fails after `B` bytes;
//! - `plain` for a memory that answers each read with the last write, or `script` and the changes that are made to it, with
//!   `; ` between two.
//!
//! The answer says how the run ended or that it is parked, which bytes were sent and in which pieces, how many events of each
//! kind there are, and the digest of all of them.
//!
//! With a word after its name, the program says how long each run takes in place of what comes of it, as `bench/run_cost` asks.
//!
//! `tests/machine_by_python images` remakes the images of `data/` from the sources of `examples/` and from words of its own.
#![tactic(auto)]

mod report;
mod row;
mod running;
mod timing;

use crate::report::report;
use crate::row::{Row, row_of};
use crate::running::{run_on, statics_of};
use crate::timing::times;
use aegis_edge::{Folder, HostFolder, MemSink};
use aegis_num::limits::MAX_IMAGE_BYTES;
use anyhow::Result;
use image_file::{Image, read_image};
use off_chip::PlainDram;
use regions::leaf;
use scripted_dram::ScriptedDram;
use std::alloc::Global;
use std::env;

// How many bytes a run sends at most.
const MOST_SENT: u64 = 4096;

// How many blocks of the tree of an image have no data. They come before those that have some.
fn nodes_of(image: &Image) -> u32 {
    leaf(&image.layout, 0)
}

// What comes of a line, whose image has this file.
fn answer(alloc: Global, row: Row, file: &[u8]) -> Result<String> {
    let image = read_image(alloc, file)?;
    let nodes = nodes_of(&image);
    let statics = statics_of(&image, file);
    let mut out = MemSink::with_room(alloc, MOST_SENT, row.failing.as_slice())?;
    let Row {
        input,
        fuel,
        course,
        script,
        ..
    } = row;
    match script {
        None => {
            let mut dram = PlainDram::new(alloc, &image.layout, statics, fuel)?;
            let turn = run_on(
                alloc,
                &image,
                input.as_slice(),
                fuel,
                course,
                &mut dram,
                &mut out,
            )?;
            report(alloc, nodes, turn, out.bytes(), &dram.into_trace())
        }
        Some(script) => {
            let mut dram = ScriptedDram::new(alloc, &image.layout, statics, script, fuel)?;
            let turn = run_on(
                alloc,
                &image,
                input.as_slice(),
                fuel,
                course,
                &mut dram,
                &mut out,
            )?;
            report(alloc, nodes, turn, out.bytes(), &dram.into_trace())
        }
    }
}

fn main(rt: HostRuntime) -> Result<()> {
    let timed = env::args(&rt)?.count() > 1;
    let mut folder = HostFolder::new(&rt);
    for line in rt.lines(rt.alloc()) {
        let row = row_of(rt.alloc(), line?.as_str())?;
        let mut file = Vec::new(rt.alloc());
        folder.read(rt.alloc(), row.image.as_str(), MAX_IMAGE_BYTES, &mut file)?;
        let text = if timed {
            times(&rt, rt.alloc(), row, file.as_slice())?
        } else {
            answer(rt.alloc(), row, file.as_slice())?
        };
        rt.println(text.as_str())?;
    }
    Ok(())
}
