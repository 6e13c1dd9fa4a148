//! Each call of the bus once, at a plain memory.
ghost use Rattle.std.specs.Prelude.{◌≤◌};
ghost use Rattle.off_chip.specs.BusCalls.{IsInside};

use aegis_num::{Block, Place};
use off_chip::{Event, Mark, OffChip, PlainDram, Who, blocks_of_tree};
use regions::Layout;
use std::test::Fail;

// What two reads of the load give, and two reads of what was written before.
fn call_each<M: OffChip>(
    memory: &mut M,
    code: Place,
    at: Place,
    block: &Block,
) -> (u32, Block, Block, u32)
    requires has_room { 7 ≤ M.room memory.old }
    requires code { IsInside (M.layout memory.old) code }
    requires inside { IsInside (M.layout memory.old) at }
{
    let resume = memory.read_word(Who::Untrusted, 0x2000);
    let mut loaded = *block;
    memory.read_block(code, &mut loaded);
    memory.write_block(at, block);
    let mut read = loaded;
    memory.read_block(at, &mut read);
    memory.write_word(Who::Untrusted, 8, 0x1234_5678);
    let word = memory.read_word(Who::Secure, 8);
    memory.note(Mark::Suspend);
    (resume, loaded, read, word)
}

#[test]
fn answers_with_the_last_write_or_the_load(rt: HostRuntime) -> Result<(), Fail> {
    let layout = Layout {
        verified: 0,
        private: 0,
        constants: 1,
        code: 1,
        log: 1,
        shared: 0,
    };
    let static_code = Block {
        payload: [9; 64],
        stamp: 0,
    };
    let written = Block {
        payload: [3; 64],
        stamp: 0x0102_0304_0506_0708,
    };
    let tree_blocks = blocks_of_tree(&layout);
    assert!(rt; tree_blocks == 4);
    let mut statics = vec![in rt.alloc(); 7; 64]?;
    statics.resize(128, 9)?;
    let mut dram = PlainDram::new(rt.alloc(), &layout, statics.as_slice(), 8)?;
    let answers = call_each(&mut dram, Place::Tree(2), Place::Tree(3), &written);
    assert_eq!(rt; answers, (0x7000_0003, static_code, written, 0x1234_5678));
    assert_eq!(rt; (dram.events(), dram.room()), (7, 1));
    let trace = dram.into_trace();
    let events = [
        Event::WordRead {
            by: Who::Untrusted,
            at: 0x2000,
            word: 0x7000_0003,
        },
        Event::BlockRead {
            at: Place::Tree(2),
            block: static_code,
        },
        Event::BlockWrite {
            at: Place::Tree(3),
            block: written,
        },
        Event::BlockRead {
            at: Place::Tree(3),
            block: written,
        },
        Event::WordWrite {
            by: Who::Untrusted,
            at: 8,
            word: 0x1234_5678,
        },
        Event::WordRead {
            by: Who::Secure,
            at: 8,
            word: 0x1234_5678,
        },
        Event::Note(Mark::Suspend),
    ];
    assert_eq!(rt; trace.events(), &events[..]);
    Ok(())
}
