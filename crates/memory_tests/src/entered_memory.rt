//! The veil of private blocks, against pads that were computed elsewhere, and a memory that is entered and checked.
ghost use Rattle.std.specs.Prelude.{◌≡◌, ◌+◌, ◌≤◌, []};
ghost use Rattle.off_chip.specs.BusCalls.{TellsOnly};
ghost use Rattle.off_chip.specs.OffChipBytes.{static_blocks};

use aegis_num::{Key, OutOfMemory};
use aes_pad::Aes;
use hash_tree::{Tree, Veil};
use line_cache::LineCache;
use off_chip::{Event, Mark, OffChip, PlainDram, blocks_of_tree};
use regions::{Layout, Mode};
use secure_memory::{PrivatePad, SecureMemory};
use stamp_log::StampLog;
use std::alloc::Global;
use std::test::Fail;

// Ten data blocks: a tree with 13 nodes, whose blocks 14 and 15 are private.
fn ten_blocks() -> Layout
    ensures log { result.log ≡ 5 }
    ensures statics { static_blocks result ≡ 7 }
{
    Layout {
        verified: 1,
        private: 2,
        constants: 3,
        code: 4,
        log: 5,
        shared: 12,
    }
}

#[test]
fn hides_private_blocks_alone(rt: HostRuntime) {
    let key = Key([0, 1, 2, 3, 4, 5, 6, 7, 8, 9, 10, 11, 12, 13, 14, 15]);
    let veil = PrivatePad::new(Aes::new(&key), ten_blocks());
    // What `openssl enc -aes-128-ecb -nopad` says of the four counter blocks, with 5a added to each byte.
    let hidden = [
        0xc6, 0x69, 0x8e, 0x07, 0x54, 0x05, 0x15, 0x7a, 0xb6, 0x36, 0x68, 0x63, 0x3d, 0xbc, 0xce,
        0xdd, 0xd3, 0xbf, 0xb5, 0x02, 0xff, 0x42, 0x68, 0x3e, 0x21, 0xc9, 0xb4, 0x50, 0x86, 0x99,
        0x89, 0x78, 0x9f, 0xdc, 0xcf, 0xa3, 0x4d, 0xdf, 0xbb, 0xe9, 0x16, 0xf8, 0x6c, 0xbb, 0x9c,
        0xd8, 0xec, 0xb1, 0x43, 0x77, 0xb9, 0x07, 0x30, 0x99, 0xaf, 0x57, 0x89, 0x6f, 0x29, 0x3a,
        0x85, 0x6a, 0x22, 0x37,
    ];
    for block in [0, 12, 13, 14, 15, 16, 22] {
        let mut payload = [0x5a; 64];
        veil.veil(block, 0x0506, &mut payload);
        if block == 14 {
            assert_eq!(rt; payload.as_slice(), hidden.as_slice());
        }
        let same = payload.as_slice() == [0x5a; 64].as_slice();
        assert_eq!(rt; same, block != 14 && block != 15, "block {block}");
        veil.veil(block, 0x0506, &mut payload);
        assert_eq!(rt; payload.as_slice(), [0x5a; 64].as_slice(), "block {block}");
    }
}

// What comes of entering a program and of a check after it: the digest of the program, and whether the check passed.
fn enter_and_check<O: OffChip>(
    alloc: Global,
    bus: &mut O,
    layout: Layout,
) -> Result<([u8; 20], bool), OutOfMemory>
    requires unused { O.trace bus.old ≡ [] }
    requires log { layout.log ≡ 5 }
    requires statics { static_blocks layout ≡ 7 }
    requires has_room { 20000 ≤ O.room bus.old }
    requires told { TellsOnly layout (O.layout bus.old) }
{
    let _blocks = blocks_of_tree(&layout);
    let key = Key([7; 16]);
    let veil = PrivatePad::new(Aes::new(&key), layout);
    let tree = Tree::new(LineCache::new(alloc)?, veil, layout);
    let log = StampLog::new(alloc, layout.log, key)?;
    let mut memory = SecureMemory::new(bus, tree, log, layout);
    let digest = memory.enter();
    let passed = memory.quiet() && memory.mode_unit.mode() == Mode::Std && memory.check().is_ok();
    let _parts = memory.parts();
    Ok((digest, passed))
}

#[test]
fn enters_a_program(rt: HostRuntime) -> Result<(), Fail> {
    // What Python's hashlib says of 02 00 00 00 07 and 448 bytes 09.
    let expected = [
        0x30, 0xdc, 0x03, 0x0b, 0xd9, 0xa9, 0xe6, 0x59, 0x3f, 0xc3, 0x74, 0x2d, 0x9c, 0x26, 0x38,
        0x36, 0x0b, 0xab, 0x0a, 0x32,
    ];
    let layout = ten_blocks();
    let statics = vec![in rt.alloc(); 9; 448]?;
    let mut dram = PlainDram::new(rt.alloc(), &layout, statics.as_slice(), 20000)?;
    let (digest, passed) = enter_and_check(rt.alloc(), &mut dram, layout)?;
    assert_eq!(rt; digest, expected);
    assert!(rt; passed);
    let trace = dram.into_trace();
    // The mark, 7 reads, 40 writes of tree blocks and 5 of log blocks; and then the two marks and 5 reads of the check.
    assert_eq!(rt; trace.events().len(), 60);
    assert_eq!(rt; trace.events()[0], Event::Note(Mark::Enter));
    assert_eq!(rt; trace.events()[59], Event::Note(Mark::CheckPassed));
    Ok(())
}
