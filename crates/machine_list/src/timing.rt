//! How long a run takes, and how long what it computes of its blocks alone.

use crate::row::Row;
use crate::running::{keys, run_on, statics_of};
use aegis_edge::MemSink;
use aegis_num::{Keys, Place};
use aes_pad::Aes;
use anyhow::Result;
use block_hash::{block_digest, entry_value};
use hash_tree::Veil;
use image_file::{Image, read_image};
use off_chip::{Event, PlainDram};
use secure_memory::PrivatePad;
use std::alloc::Global;
use std::rt::Clock;
use std::time::Instant;

// Computes the digest of each tree block that an event reads or writes, the pad of each private one, and the value of each entry
// of the log. The answer is made of bytes of them.
fn sum_of(events: &[Event], keys: &Keys, image: &Image) -> u8 {
    let veil = PrivatePad::new(Aes::new(&keys.pad), image.layout);
    let mut sum = 0;
    for event in events {
        if let Event::BlockRead { at, block } | Event::BlockWrite { at, block } = event {
            match at {
                Place::Tree(number) => {
                    let mut payload = block.payload;
                    veil.veil(*number, block.stamp, &mut payload);
                    sum ^= payload[0] ^ block_digest(*number, block)[0];
                }
                Place::Log(number) => sum ^= (entry_value(&keys.log, *number, block) % 256) as u8,
            }
        }
    }
    sum
}

/// Runs a row on a plain memory, with a sink that takes as much as there is fuel. Says how many nanoseconds the run takes, how
/// many all digests, pads and entry values of its blocks, how many events there are, and how it ended.
pub(crate) fn times(rt: &impl Clock, alloc: Global, row: Row, file: &[u8]) -> Result<String> {
    let image = read_image(alloc, file)?;
    let statics = statics_of(&image, file);
    let mut out = MemSink::with_room(alloc, row.fuel, &[])?;
    let mut dram = PlainDram::new(alloc, &image.layout, statics, row.fuel)?;
    let start = Instant::now(rt)?;
    let input = row.input.as_slice();
    let turn = run_on(
        alloc, &image, input, row.fuel, row.course, &mut dram, &mut out,
    )?;
    let run = start.elapsed(rt)?.as_nanos();
    let trace = dram.into_trace();
    let events = trace.events();
    let again = Instant::now(rt)?;
    let sum = sum_of(events, &keys(), &image);
    let blocks = again.elapsed(rt)?.as_nanos();
    Ok(format!(in alloc; "{run} {blocks} {} {turn:?} {sum}", events.len())?)
}
