//! Runs of the machine on any bus.
ghost use Rattle.std.specs.Prelude.{◌≡◌, ◌*◌, ◌≤◌, [], length};
ghost use Rattle.image_file.specs.ImageTable.{bytes_of};
ghost use Rattle.off_chip.specs.OffChipBytes.{static_blocks};
ghost use Rattle.off_chip.specs.BusCalls.{TellsOnly};
ghost use Rattle.aegis_machine.specs.MachineParts.{TakesRest};
ghost use Rattle.aegis_machine.specs.Stores.{IsNewStore};

use crate::row::Course;
use aegis_edge::{MemSink, Sink};
use aegis_machine::{Machine, Store, Turn, run};
use aegis_num::{Keys, OutOfMemory};
use block_hash::keys_of;
use image_file::{HEADER_BYTES, Image};
use line_cache::Lines;
use off_chip::OffChip;
use std::alloc::Global;

// The key of each run: 0, 1, 2 and so on.
const KEY: [u8; 16] = [0, 1, 2, 3, 4, 5, 6, 7, 8, 9, 10, 11, 12, 13, 14, 15];

// The nonce of each run.
const NONCE: [u8; 8] = [0, 0, 0, 0, 0, 0, 0, 1];

/// The keys of each run.
pub(crate) fn keys() -> Keys {
    keys_of(&KEY, &NONCE)
}

/// The bytes of the static blocks of an image, in its file.
pub(crate) fn statics_of<'a>(image: &Image, file: &'a [u8]) -> &'a [u8]
    requires file { file.now ≡ bytes_of image.now }
    ensures long { length result.now ≡ 64 * static_blocks image.now.layout }
{
    let _layout = &image.layout;
    &file[HEADER_BYTES..]
}

// Runs an image in turns of so many instructions, at most so many turns.
fn turn_on<O: OffChip, K: Sink, L: Lines + Drop>(
    image: &Image,
    input: &[u8],
    fuel: u64,
    store: Store<L>,
    bus: &mut O,
    out: &mut K,
    instructions: u32,
    most: u32,
) -> Turn
    requires some { 1 ≤ instructions }
    requires store { IsNewStore L.lines image.now.layout store }
    requires unused { O.trace bus.old ≡ [] }
    requires room { fuel ≤ O.room bus.old }
    requires told { TellsOnly image.now.layout (O.layout bus.old) }
    requires takes { TakesRest (K.limit out.old) fuel 0 }
{
    let mut machine = Machine::new(image, fuel, store);
    'turns: for _ in 0..most {
        match machine.turn(image, input, bus, out, instructions) {
            Turn::Parked => {}
            Turn::Over(end) => return Turn::Over(end),
        }
    }
    Turn::Parked
}

/// Runs an image on a bus that was not used before. Says how the run ended, or that it is parked.
pub(crate) fn run_on<O: OffChip>(
    alloc: Global,
    image: &Image,
    input: &[u8],
    fuel: u64,
    course: Course,
    bus: &mut O,
    out: &mut MemSink,
) -> Result<Turn, OutOfMemory>
    requires unused { O.trace bus.old ≡ [] }
    requires room { fuel ≤ O.room bus.old }
    requires told { TellsOnly image.now.layout (O.layout bus.old) }
{
    let store = Store::new(alloc, image, keys())?;
    Ok(match course {
        Course::Turns { instructions, most } if instructions > 0 => {
            turn_on(image, input, fuel, store, bus, out, instructions, most)
        }
        _ => Turn::Over(run(image, input, fuel, bus, out, store)),
    })
}
