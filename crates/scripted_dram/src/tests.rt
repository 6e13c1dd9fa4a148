//! Both memories, by lists of events: each event is called for, and the trace has to be the list again.
ghost use Rattle.std.specs.Prelude.{◌≡◌, ◌<◌, true, Some};
ghost use Rattle.off_chip.specs.OffChipBytes.{HasPlace, static_blocks};

use super::*;
use adversary_script::read_script;
use aegis_num::limits::MAX_SCRIPT_BYTES;
use aegis_num::{Block, Place};
use off_chip::{Event, Mark, OffChip, Trace, Who, blocks_of_tree};
use regions::{Layout, OPEN_END};
use std::alloc::Global;
use std::test::Fail;

// Whether a layout has a place.
fn has_place(layout: &Layout, at: Place) -> bool
    ensures { result ≡ true → HasPlace layout.now at }
{
    match at {
        Place::Tree(n) => n < blocks_of_tree(layout),
        Place::Log(n) => n < layout.log,
    }
}

fn read<M: OffChip>(memory: &mut M, layout: &Layout, at: Place)
    requires has_room { 0 < M.room memory.old }
    requires told { M.layout memory.old ≡ Some layout.now }
    ensures { M.layout memory.new ≡ Some layout.now }
{
    let mut block = Block {
        payload: [0xff; 64],
        stamp: 0,
    };
    if has_place(layout, at) {
        memory.read_block(at, &mut block);
    }
}

fn write<M: OffChip>(memory: &mut M, layout: &Layout, at: Place, block: &Block)
    requires has_room { 0 < M.room memory.old }
    requires told { M.layout memory.old ≡ Some layout.now }
    ensures { M.layout memory.new ≡ Some layout.now }
{
    if has_place(layout, at) {
        memory.write_block(at, block);
    }
}

fn read_word<M: OffChip>(memory: &mut M, layout: &Layout, by: Who, at: u32)
    requires has_room { 0 < M.room memory.old }
    requires told { M.layout memory.old ≡ Some layout.now }
    ensures { M.layout memory.new ≡ Some layout.now }
{
    if at < OPEN_END && at % 4 == 0 {
        memory.read_word(by, at);
    }
}

fn write_word<M: OffChip>(memory: &mut M, layout: &Layout, by: Who, at: u32, word: u32)
    requires has_room { 0 < M.room memory.old }
    requires told { M.layout memory.old ≡ Some layout.now }
    ensures { M.layout memory.new ≡ Some layout.now }
{
    if at < OPEN_END && at % 4 == 0 {
        memory.write_word(by, at, word);
    }
}

fn note<M: OffChip>(memory: &mut M, layout: &Layout, mark: Mark)
    requires has_room { 0 < M.room memory.old }
    requires told { M.layout memory.old ≡ Some layout.now }
    ensures { M.layout memory.new ≡ Some layout.now }
{
    match mark {
        Mark::Drop(at) => {
            if has_place(layout, at) {
                memory.note(mark);
            }
        }
        _ => memory.note(mark),
    }
}

// Makes the call of an event.
fn call<M: OffChip>(memory: &mut M, layout: &Layout, event: &Event)
    requires has_room { 0 < M.room memory.old }
    requires told { M.layout memory.old ≡ Some layout.now }
    ensures { M.layout memory.new ≡ Some layout.now }
{
    match event {
        Event::BlockRead { at, .. } => read(memory, layout, *at),
        Event::BlockWrite { at, block } => write(memory, layout, *at, block),
        Event::WordRead { by, at, .. } => read_word(memory, layout, *by, *at),
        Event::WordWrite { by, at, word } => write_word(memory, layout, *by, *at, *word),
        Event::Note(mark) => note(memory, layout, *mark),
    }
}

// Makes the calls of events, in order, as long as there is room.
fn call_all<M: OffChip>(memory: &mut M, layout: &Layout, events: &[Event])
    requires { M.layout memory.old ≡ Some layout.now }
{
    for event in events {
        if memory.room() > 0 {
            call(memory, layout, event);
        }
    }
}

// One verified block, one code block and two log blocks. The tree is one level high: the verified block is its
// block 1, the code block its block 2, and its block 3 is unused.
fn small() -> Layout
    ensures { static_blocks result ≡ 1 }
{
    Layout {
        verified: 1,
        private: 0,
        constants: 0,
        code: 1,
        log: 2,
        shared: 0,
    }
}

// A block of one byte, 64 times.
fn filled(byte: u8, stamp: u64) -> Block {
    Block {
        payload: [byte; 64],
        stamp,
    }
}

// A block of one byte, but for its first byte.
fn headed(first: u8, byte: u8, stamp: u64) -> Block {
    let mut block = filled(byte, stamp);
    block.payload[0] = first;
    block
}

fn reads(at: Place, block: Block) -> Event {
    Event::BlockRead { at, block }
}

fn writes(at: Place, block: Block) -> Event {
    Event::BlockWrite { at, block }
}

fn word(by: Who, at: u32, word: u32) -> Event {
    Event::WordRead { by, at, word }
}

// Over the small layout with a code block of nines, calls for each event, and gives the trace.
fn replay(alloc: Global, script: &str, events: &[Event]) -> Result<Trace, Fail> {
    let layout = small();
    let text = &script.as_bytes()[..script.len().min(MAX_SCRIPT_BYTES as usize)];
    let changes = read_script(alloc, text)?;
    let mut dram = ScriptedDram::new(alloc, &layout, &[9; 64], changes, 64)?;
    call_all(&mut dram, &layout, events);
    Ok(dram.into_trace())
}

#[test]
fn does_each_change_at_its_moment(rt: HostRuntime) -> Result<(), Fail> {
    let (data, text, node, unused) = (
        Place::Tree(1),
        Place::Tree(2),
        Place::Tree(0),
        Place::Tree(3),
    );
    let (log, other_log) = (Place::Log(0), Place::Log(1));
    let zero = filled(0, 0);
    let suspend = Event::Note(Mark::Suspend);
    let rows: [(&str, &[Event]); 8] = [
        (
            "at 1 open 0 aabbccdd",
            &[word(Who::Secure, 0, 0), word(Who::Secure, 0, 0xaabb_ccdd)],
        ),
        (
            "",
            &[
                word(Who::Untrusted, 0x2000, 0x7000_0003),
                reads(text, filled(9, 0)),
            ],
        ),
        ("suspend 0 back 0 data 0", &[suspend, reads(data, zero)]),
        (
            "start save 0 log 0\nat 1 back 0 log 0",
            &[writes(log, filled(1, 5)), reads(log, zero)],
        ),
        (
            "start data 0 0 aa\nstart node 0 0 bb\nstart text 0 0 cc\nstart log 1 0 dd\nstart code 01020304",
            &[
                reads(data, headed(0xaa, 0, 0)),
                reads(node, headed(0xbb, 0, 0)),
                reads(text, headed(0xcc, 9, 0)),
                reads(other_log, headed(0xdd, 0, 0)),
                reads(log, zero),
                reads(unused, zero),
                word(Who::Untrusted, 0x2000, 0x0102_0304),
            ],
        ),
        (
            "start data 0 64 0102030405060708\nat 1 save 0 data 0\nat 1 save 1 node 0\nat 1 save 2 text 0\n\
            at 1 save 15 log 1\nat 3 back 0 node 0\nat 3 back 2 data 0\nat 3 back 15 text 0\nat 3 back 1 log 1",
            &[
                writes(node, filled(4, 4)),
                reads(data, filled(0, 0x0102_0304_0506_0708)),
                writes(other_log, filled(6, 6)),
                reads(node, filled(0, 0x0102_0304_0506_0708)),
                reads(data, filled(9, 0)),
                reads(text, zero),
                reads(other_log, filled(4, 4)),
            ],
        ),
        (
            "at 2 copy log 0 data 0\nat 2 copy data 0 text 0\nat 2 copy text 0 node 0\nat 4 copy node 0 log 1\n\
            suspend 1 node 3 71 07\nsuspend 1 copy node 3 log 0",
            &[
                writes(log, filled(1, 0x0100)),
                suspend,
                reads(data, filled(1, 0x0100)),
                reads(text, filled(1, 0x0100)),
                reads(other_log, filled(1, 0x0100)),
                reads(log, filled(1, 0x0100)),
                suspend,
                reads(log, filled(0, 7)),
                reads(unused, filled(0, 7)),
            ],
        ),
        // What is outside the layout, and a slot that was never saved, does nothing.
        (
            "start data 2 0 ff\nstart text 1 0 ff\nstart node 4 0 ff\nstart log 2 0 ff\nstart save 0 data 2\n\
            start back 0 node 0\nstart copy log 2 data 0\nstart copy data 2 log 0\nat 4294967295 open 0 01\n\
            suspend 4294967295 open 0 01",
            &[
                suspend,
                reads(node, zero),
                reads(data, zero),
                reads(text, filled(9, 0)),
                reads(unused, zero),
                reads(log, zero),
                reads(other_log, zero),
                word(Who::Secure, 0, 0),
            ],
        ),
    ];
    for (script, events) in rows {
        let trace = replay(rt.alloc(), script, events)?;
        assert_eq!(rt; trace.events(), events, "{script}");
    }
    Ok(())
}
