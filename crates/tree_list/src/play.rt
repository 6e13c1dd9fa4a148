//! What is done with a tree, on any bus.
ghost use Rattle.std.specs.Prelude.{◌≡◌, ◌+◌, ◌<◌, ◌≤◌, List, [], IfOk, length};
ghost use Rattle.std.specs.FinMap.{empty};
ghost use Rattle.regions.specs.Tree.{leaf_of, positions_of, tree_blocks};
ghost use Rattle.off_chip.specs.BusCalls.{TellsOnly};
ghost use Rattle.off_chip.specs.declared.event.Event.{Event as SomeEvent};
ghost use Rattle.off_chip.specs.Histories.{history};
ghost use Rattle.off_chip.specs.OffChipBytes.{static_blocks};
ghost use Rattle.off_chip.specs.WriteBacks.{StampsFit};
ghost use Rattle.line_cache.specs.LineMaps.{Holds};
ghost use Rattle.hash_tree.specs.HashTrees.{nodes_of};
ghost use Rattle.hash_tree.specs.TreeParts.{SameTree, StandsOn};

use aegis_num::Stamps;
use arrayvec::ArrayVec;
use hash_tree::{Changed, Tree, Veil};
use line_cache::{Lines, Pins};
use off_chip::OffChip;

/// Enters a program on a bus with no event yet, and gives its digest.
pub(crate) fn enter<L: Lines, V: Veil, O: OffChip>(
    tree: &mut Tree<L, V>,
    bus: &mut O,
    stamps: &mut Stamps,
) -> [u8; 20]
    requires fresh { L.lines tree.old.lines ≡ empty }
    requires unused { O.trace bus.old ≡ [] }
    requires first { stamps.old ≡ 0 }
    requires has_room { static_blocks tree.old.layout + tree_blocks tree.old.layout ≤ O.room bus.old }
    requires told { TellsOnly tree.old.layout (O.layout bus.old) }
    ensures tree { SameTree tree.old tree.new }
    ensures stands { StandsOn tree.new (L.lines tree.new.lines) (V.veiled tree.new.veil)
        (O.trace bus.new) }
    ensures fit { StampsFit stamps.new (history (O.trace bus.new)) }
    ensures told { TellsOnly tree.new.layout (O.layout bus.new) }
    ensures room { O.room bus.old
        ≤ O.room bus.new + (static_blocks tree.old.layout + tree_blocks tree.old.layout) }
{
    tree.enter(bus, stamps)
}

/// A load with no pins.
pub(crate) fn load<L: Lines, V: Veil, O: OffChip>(
    tree: &mut Tree<L, V>,
    bus: &mut O,
    stamps: &mut Stamps,
    position: u32,
) -> Result<(), Changed>
    requires position { position < positions_of tree.old.layout }
    requires stands { StandsOn tree.old (L.lines tree.old.lines) (V.veiled tree.old.veil)
        (O.trace bus.old) }
    requires fit { StampsFit stamps.old (history (O.trace bus.old)) }
    requires has_room { 160 ≤ O.room bus.old }
    requires told { TellsOnly tree.old.layout (O.layout bus.old) }
    ensures tree { SameTree tree.old tree.new }
    ensures stands { IfOk result (λ _. StandsOn tree.new (L.lines tree.new.lines)
        (V.veiled tree.new.veil) (O.trace bus.new)) }
    ensures held { IfOk result
        (λ _. Holds (L.lines tree.new.lines) (leaf_of tree.old.layout position)) }
    ensures fit { StampsFit stamps.new (history (O.trace bus.new)) }
    ensures told { TellsOnly tree.new.layout (O.layout bus.new) }
{
    let pins = Pins {
        blocks: ArrayVec::new(),
    };
    tree.load(bus, stamps, position, &pins)
}

// The payload of a block's line gets a byte, and so do the bytes that are expected of it.
fn store<L: Lines, V: Veil>(
    tree: &mut Tree<L, V>,
    expected: &mut [u8],
    position: u32,
    place: usize,
    byte: u8,
)
    requires position { position < positions_of tree.old.layout }
    requires held { Holds (L.lines tree.old.lines) (leaf_of tree.old.layout position) }
    requires nodes { V.nodes tree.old.veil ≡ nodes_of tree.old.layout }
    requires place { place < 64 }
    requires expected { length expected.old ≡ 64 }
    ensures tree { SameTree tree.old tree.new }
    ensures stands { (trace : List SomeEvent)
        → StandsOn tree.old (L.lines tree.old.lines) (V.veiled tree.old.veil) trace
        → StandsOn tree.new (L.lines tree.new.lines) (V.veiled tree.new.veil) trace }
{
    tree.payload_mut(position)[place] = byte;
    expected[place] = byte;
}

// Loads a block and compares it with what is expected, and then changes a byte of it, as a number says. Says whether it was
// as expected.
fn load_and_store<L: Lines, V: Veil, O: OffChip>(
    tree: &mut Tree<L, V>,
    bus: &mut O,
    stamps: &mut Stamps,
    expected: &mut [u8],
    choice: u32,
) -> Result<bool, Changed>
    requires positions { 243 ≤ positions_of tree.old.layout }
    requires nodes { V.nodes tree.old.veil ≡ nodes_of tree.old.layout }
    requires stands { StandsOn tree.old (L.lines tree.old.lines) (V.veiled tree.old.veil)
        (O.trace bus.old) }
    requires fit { StampsFit stamps.old (history (O.trace bus.old)) }
    requires has_room { 160 ≤ O.room bus.old }
    requires told { TellsOnly tree.old.layout (O.layout bus.old) }
    requires expected { length expected.old ≡ 15552 }
    ensures tree { SameTree tree.old tree.new }
    ensures stands { IfOk result (λ _. StandsOn tree.new (L.lines tree.new.lines)
        (V.veiled tree.new.veil) (O.trace bus.new)) }
    ensures fit { StampsFit stamps.new (history (O.trace bus.new)) }
    ensures told { TellsOnly tree.new.layout (O.layout bus.new) }
{
    let position = choice % 243;
    load(tree, bus, stamps, position)?;
    let at = 64 * position as usize;
    let part = &mut expected[at..at + 64];
    let same = tree.payload(position)[..] == part[..];
    let place = (choice / 256) as usize % 64;
    if choice % 3 > 0 {
        store(tree, part, position, place, (choice / 16_384 % 256) as u8);
    }
    Ok(same)
}

// A flush.
fn flush<L: Lines, V: Veil, O: OffChip>(tree: &mut Tree<L, V>, bus: &mut O, stamps: &mut Stamps)
    requires stands { StandsOn tree.old (L.lines tree.old.lines) (V.veiled tree.old.veil)
        (O.trace bus.old) }
    requires fit { StampsFit stamps.old (history (O.trace bus.old)) }
    requires has_room { 128 ≤ O.room bus.old }
    requires told { TellsOnly tree.old.layout (O.layout bus.old) }
    ensures tree { SameTree tree.old tree.new }
    ensures stands { StandsOn tree.new (L.lines tree.new.lines) (V.veiled tree.new.veil)
        (O.trace bus.new) }
    ensures fit { StampsFit stamps.new (history (O.trace bus.new)) }
    ensures told { TellsOnly tree.new.layout (O.layout bus.new) }
{
    tree.flush(bus, stamps);
}

/// What came of many loads and stores.
#[derive(Clone, Copy, Debug, PartialEq, Eq)]
pub(crate) enum Played {
    /// Each load gave what was expected.
    AsExpected,
    /// The load with this number gave something else.
    Wrong(u32),
    /// The load with this number stopped at a read.
    Stopped(u32, Changed),
    /// There was no room for more events.
    Full,
}

/// Loads and stores of 243 blocks, in an order that looks random, and a flush after each 500 of them.
pub(crate) fn play<L: Lines, V: Veil, O: OffChip>(
    tree: &mut Tree<L, V>,
    bus: &mut O,
    stamps: &mut Stamps,
    expected: &mut [u8],
    turns: u32,
) -> Played
    requires positions { 243 ≤ positions_of tree.old.layout }
    requires nodes { V.nodes tree.old.veil ≡ nodes_of tree.old.layout }
    requires stands { StandsOn tree.old (L.lines tree.old.lines) (V.veiled tree.old.veil)
        (O.trace bus.old) }
    requires fit { StampsFit stamps.old (history (O.trace bus.old)) }
    requires told { TellsOnly tree.old.layout (O.layout bus.old) }
    requires expected { length expected.old ≡ 15552 }
{
    let mut state = 1u64;
    'turns: for turn in 0..turns {
        if bus.room() < 288 {
            return Played::Full;
        }
        state = state
            .wrapping_mul(6_364_136_223_846_793_005)
            .wrapping_add(1_442_695_040_888_963_407);
        match load_and_store(tree, bus, stamps, expected, (state >> 33) as u32) {
            Ok(true) => {}
            Ok(false) => return Played::Wrong(turn),
            Err(changed) => return Played::Stopped(turn, changed),
        }
        if turn % 500 == 499 && bus.room() >= 128 {
            flush(tree, bus, stamps);
        }
    }
    Played::AsExpected
}
