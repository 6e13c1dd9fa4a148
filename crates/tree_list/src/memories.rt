//! The memories that a tree is tried on, and the programs that they hold.
ghost use Rattle.std.specs.Prelude.{◌≡◌, ◌*◌, ◌+◌, ◌<◌, ◌≤◌, [], IfOk, length};
ghost use Rattle.std.specs.FinMap.{empty};
ghost use Rattle.regions.specs.Tree.{positions_of};
ghost use Rattle.off_chip.specs.BusCalls.{TellsOnly};
ghost use Rattle.off_chip.specs.OffChipBytes.{static_blocks};
ghost use Rattle.hash_tree.specs.HashTrees.{nodes_of};

use crate::play::{enter, load, play};
use crate::report::{entered_text, played_text, with_events, with_faith};
use crate::turned::Turned;
use adversary_script::Script;
use aegis_num::{OutOfMemory, Stamps};
use anyhow::Result;
use hash_tree::{Tree, Veil};
use line_cache::{LineCache, Lines};
use off_chip::{OffChip, PlainDram, blocks_of_tree};
use regions::{Layout, height, leaf};
use scripted_dram::ScriptedDram;
use std::alloc::Global;

// How many events a run has room for.
const ROOM: u64 = 40_000;

// How many loads and stores a run makes.
const TURNS: u32 = 2000;

/// What is done with a tree.
#[derive(Clone, Copy)]
pub(crate) enum Work {
    /// A small program is entered, and data block 0 is loaded.
    Enter,
    /// Many loads and stores are made.
    Play,
}

// One verified block and one code block.
fn two_blocks() -> Layout
    ensures positions { 0 < positions_of result }
    ensures statics { static_blocks result ≡ 1 }
{
    let layout = Layout {
        verified: 1,
        private: 0,
        constants: 0,
        code: 1,
        log: 0,
        shared: 0,
    };
    let _height = height(&layout);
    layout
}

// 120 verified, 60 private, 40 constant and 23 code blocks.
fn many_blocks() -> Layout
    ensures positions { 243 ≤ positions_of result }
    ensures statics { static_blocks result ≡ 63 }
{
    let layout = Layout {
        verified: 120,
        private: 60,
        constants: 40,
        code: 23,
        log: 0,
        shared: 0,
    };
    let _height = height(&layout);
    layout
}

// A tree whose cache holds nothing.
fn new_tree(alloc: Global, layout: Layout) -> Result<Tree<LineCache, Turned>, OutOfMemory>
    ensures fresh { IfOk result (λ tree. ⟦<LineCache as Lines>⟧.lines tree.lines ≡ empty) }
    ensures layout { IfOk result (λ tree. tree.layout ≡ layout) }
    ensures nodes { IfOk result (λ tree. ⟦<Turned as Veil>⟧.nodes tree.veil ≡ nodes_of layout) }
{
    let veil = Turned {
        nodes: leaf(&layout, 0),
    };
    Ok(Tree::new(LineCache::new(alloc)?, veil, layout))
}

// Enters a small program, and loads data block 0.
fn enter_on<O: OffChip>(alloc: Global, bus: &mut O, layout: Layout) -> Result<String>
    requires positions { 0 < positions_of layout }
    requires statics { static_blocks layout ≡ 1 }
    requires unused { O.trace bus.old ≡ [] }
    requires has_room { 40000 ≤ O.room bus.old }
    requires told { TellsOnly layout (O.layout bus.old) }
{
    let _blocks = blocks_of_tree(&layout);
    let mut tree = new_tree(alloc, layout)?;
    let mut stamps = Stamps::new();
    let digest = enter(&mut tree, bus, &mut stamps);
    let loaded = load(&mut tree, bus, &mut stamps, 0);
    entered_text(alloc, &digest, loaded)
}

// Enters a program, and makes many loads and stores. The expected bytes are at first those of the static blocks, and zeros.
fn play_on<O: OffChip>(
    alloc: Global,
    bus: &mut O,
    layout: Layout,
    expected: &mut [u8],
) -> Result<String>
    requires positions { 243 ≤ positions_of layout }
    requires statics { static_blocks layout ≡ 63 }
    requires expected { length expected.old ≡ 15552 }
    requires unused { O.trace bus.old ≡ [] }
    requires has_room { 40000 ≤ O.room bus.old }
    requires told { TellsOnly layout (O.layout bus.old) }
{
    let _blocks = blocks_of_tree(&layout);
    let mut tree = new_tree(alloc, layout)?;
    let mut stamps = Stamps::new();
    enter(&mut tree, bus, &mut stamps);
    let played = play(&mut tree, bus, &mut stamps, expected, TURNS);
    played_text(alloc, played)
}

// So many bytes: 0, 1, 2 and so on up to 250, and then from 0 again.
fn ramp(alloc: Global, count: usize) -> Result<Vec<u8>, OutOfMemory>
    ensures bytes { IfOk result (λ bytes. length bytes.items ≡ count) }
{
    let mut bytes = vec![in alloc; 0; count]?;
    let mut next = 0u8;
    for byte in bytes.as_mut_slice() {
        *byte = next;
        next = next.wrapping_add(1) % 251;
    }
    Ok(bytes)
}

// What comes of a small program on a memory.
fn entered(alloc: Global, script: Option<Script>) -> Result<String> {
    let layout = two_blocks();
    let statics = ramp(alloc, 64)?;
    match script {
        None => {
            let mut dram = PlainDram::new(alloc, &layout, statics.as_slice(), ROOM)?;
            let text = enter_on(alloc, &mut dram, layout)?;
            with_events(alloc, text, &dram.into_trace())
        }
        Some(script) => {
            let mut dram = ScriptedDram::new(alloc, &layout, statics.as_slice(), script, ROOM)?;
            let text = enter_on(alloc, &mut dram, layout)?;
            with_events(alloc, text, &dram.into_trace())
        }
    }
}

// The bytes of the data blocks of the larger program: zeros, and then those of its static blocks.
fn data_bytes(alloc: Global, statics: &[u8]) -> Result<Vec<u8>, OutOfMemory>
    requires { length statics.now ≡ 4032 }
    ensures bytes { IfOk result (λ bytes. length bytes.items ≡ 15552) }
{
    let mut bytes = vec![in alloc; 0; 15_552]?;
    bytes.as_mut_slice()[11_520..].copy_from_slice(statics);
    Ok(bytes)
}

// What comes of many loads and stores on a memory.
fn played(alloc: Global, script: Option<Script>) -> Result<String> {
    let layout = many_blocks();
    let statics = ramp(alloc, 4032)?;
    let mut expected = data_bytes(alloc, statics.as_slice())?;
    match script {
        None => {
            let mut dram = PlainDram::new(alloc, &layout, statics.as_slice(), ROOM)?;
            let text = play_on(alloc, &mut dram, layout, expected.as_mut_slice())?;
            with_faith(alloc, text, &dram.into_trace())
        }
        Some(script) => {
            let mut dram = ScriptedDram::new(alloc, &layout, statics.as_slice(), script, ROOM)?;
            let text = play_on(alloc, &mut dram, layout, expected.as_mut_slice())?;
            with_faith(alloc, text, &dram.into_trace())
        }
    }
}

/// What comes of some work on a memory that is changed as a script says, or that answers each read with the last write.
pub(crate) fn answer_on(alloc: Global, work: Work, script: Option<Script>) -> Result<String> {
    match work {
        Work::Enter => entered(alloc, script),
        Work::Play => played(alloc, script),
    }
}
