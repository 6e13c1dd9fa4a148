//! The cached hash tree, after Suh et al., "AEGIS: Architecture for Tamper-Evident and Tamper-Resistant Processing",
//! ICS 2003. Its numbers are this project's own.
ghost use Rattle.std.specs.Prelude.{◌≡◌, ℕ, ◌+◌, ◌*◌, ◌^◌, ◌<◌, ◌≤◌, ◌∷◌, ◌++◌, false, Contains, replicate, IfErr, IfOk, IsOk, List, [], Some, length, IsTrue};
ghost use Rattle.std.specs.Borrow.{Lends, sem, u8 as byte, Array};
ghost use Rattle.std.specs.List.{All};
ghost use Rattle.std.specs.FinMap.{contains_key, empty, len};
ghost use Rattle.regions.specs.Tree.{leaf_of, parent_in, positions_of, slot_in, tree_blocks};
ghost use Rattle.line_cache.specs.LineMaps.{HasParent, HoldParents, Holds, IsChildless, payload_at};
ghost use Rattle.off_chip.specs.OffChipBytes.{bytes_put, static_blocks};
ghost use Rattle.block_hash.specs.BlockStrings.{block_digest};
ghost use Rattle.off_chip.specs.BusCalls.{TellsOnly};
ghost use Rattle.off_chip.specs.HonestMemory.{IsWhole};
ghost use Rattle.off_chip.specs.Histories.{history};
ghost use Rattle.off_chip.specs.WriteBacks.{StampsFit};
ghost use Rattle.hash_tree.specs.AsWritten.{AllAsWritten};
ghost use Rattle.hash_tree.specs.HashTrees.{nodes_of, scheme_of, state_of};
ghost use Rattle.hash_tree.specs.contracts.tree.Tree.{the_row};
ghost use Rattle.hash_tree.specs.TreeParts.{SameTree, StandsOn, with_lines};
ghost use Rattle.hash_tree.specs.Leaving.{LeavesBy};
ghost use Rattle.hash_tree.specs.Paths.{IsAtDepth, path_in, path_of};
ghost use Rattle.hash_tree.specs.Entering.{Entered, SubtreeEntered, WritesPayload, first_leaf, is_static, leaf_moves, moves_below, statics_before};
ghost use Rattle.hash_tree.specs.Flushes.{Flushed, LineFlushed};
ghost use Rattle.hash_tree.specs.TreeSteps.{Evicted, IsElsewhere, IsStill, KeepsDigest, Moved, Reads, ReadsFirst, Stops, TellsKept, WritesBack, uncached};
ghost use Rattle.hash_tree.specs.CachedLines.{held_in};

use crate::veil::Veil;
use aegis_num::{Block, Place, Stamps};
use arrayvec::ArrayVec;
use block_hash::{ProgramHasher, block_digest};
use line_cache::{Lines, Pins};
use off_chip::{Mark, OffChip, blocks_of_tree};
use regions::{Layout, height, leaf};
use std::marker::Model;

// How many children a node has.
const FAN: u32 = 3;

// How many bytes a digest has.
const DIGEST_BYTES: usize = 20;

/// A block was read whose digest is not the one that the tree keeps of it.
#[derive(Clone, Copy, Debug, PartialEq, Eq)]
pub struct Changed {
    /// The number of the read among the events of the bus, counted from 0.
    pub event: u64,
}

/// A cached hash tree over off-chip memory. Contracts see its cache, its veil, its layout and the digest of the root.
#[derive(Drop)]
pub struct Tree<L: Lines, V: Veil> {
    lines: L,
    veil: V,
    layout: Layout,
    // The first block of the lowest level.
    leaves_from: u32,
    root: [u8; 20],
}

impl<L: Lines, V: Veil> Model for Tree<L, V> {
    ghost use Rattle.std.specs.Prelude.{◌≡◌};
    ghost use Rattle.hash_tree.specs.TreeParts.{TreeParts};
    ghost use Rattle.hash_tree.specs.HashTrees.{nodes_of};

    ghost Value = { TreeParts L V };

    ghost view = { λ t. record {
      lines = t.lines;
      veil = t.veil;
      layout = t.layout;
      root = t.root;
    } };

    ghost invariant = { λ t. (V.nodes t.veil ≡ nodes_of t.layout) × (t.leaves_from ≡ nodes_of t.layout) };
}

impl<L: Lines, V: Veil> Tree<L, V> {
    /// A tree over lines that hold nothing.
    pub fn new(lines: L, veil: V, layout: Layout) -> Tree<L, V>
        requires nothing { L.lines lines ≡ empty }
        requires nodes { V.nodes veil ≡ nodes_of layout }
        ensures lines { result.lines ≡ lines }
        ensures veil { result.veil ≡ veil }
        ensures layout { result.layout ≡ layout }
    {
        let leaves_from = leaf(&layout, 0);
        Tree {
            lines,
            veil,
            layout,
            leaves_from,
            root: [0; 20],
        }
    }

    // The block at a position of the lowest level.
    fn leaf_at(&self, position: u32) -> u32
        requires { position < positions_of self.now.layout }
        ensures value { result ≡ leaf_of self.now.layout position }
        ensures inside { result < tree_blocks self.now.layout }
    {
        self.leaves_from + position
    }

    /// Enters the program: reads each static block once, in the order of their numbers, and writes each block of the tree, each
    /// node directly after its third child. Data positions that are not static hold zeros from then on. The answer is the
    /// digest of the program that was read. It makes an event for each static block and one for each block of the tree.
    pub fn enter<O: OffChip>(&mut self, bus: &mut O, stamps: &mut Stamps) -> [u8; 20]
        requires fresh { L.lines self.old.lines ≡ empty }
        requires untouched { All IsElsewhere (O.trace bus.old) }
        requires fit { StampsFit stamps.old (history (O.trace bus.old)) }
        requires has_room { static_blocks self.old.layout + tree_blocks self.old.layout
            ≤ O.room bus.old }
        requires told { TellsOnly self.old.layout (O.layout bus.old) }
        ensures tree { SameTree self.old self.new }
        ensures stands { StandsOn self.new (L.lines self.new.lines) (V.veiled self.new.veil)
            (O.trace bus.new) }
        ensures lines { L.lines self.new.lines ≡ empty }
        ensures does { Entered self.old.layout (scheme_of self.old.layout (V.veiled self.old.veil))
            (state_of (L.lines self.old.lines) self.old.root (O.trace bus.old))
            (state_of (L.lines self.new.lines) self.new.root (O.trace bus.new)) result }
        ensures count { length (O.trace bus.new)
            ≡ length (O.trace bus.old)
            + (static_blocks self.old.layout + tree_blocks self.old.layout) }
        ensures total { length (O.trace bus.new) + O.room bus.new
            ≡ length (O.trace bus.old) + O.room bus.old }
        ensures fit { StampsFit stamps.new (history (O.trace bus.new)) }
        ensures same { O.same_memory bus.old bus.new }
    {
        let _events = bus.events();
        let levels = height(&self.layout);
        let mut program = ProgramHasher::new(self.layout.constants + self.layout.code);
        self.root = self.enter_below(bus, stamps, &mut program, 0, levels);
        program.finish()
    }

    // Enters a block with so many levels below it, and gives its digest.
    fn enter_below<O: OffChip>(
        &self,
        bus: &mut O,
        stamps: &mut Stamps,
        program: &mut ProgramHasher,
        block: u32,
        levels: u32,
    ) -> [u8; 20]
        requires nodes { V.nodes self.now.veil ≡ nodes_of self.now.layout }
        requires leaves { nodes_of self.now.layout ≤ first_leaf levels block }
        requires inside { first_leaf levels (block + 1) ≤ tree_blocks self.now.layout }
        requires added { program.old.added
            ≡ statics_before self.now.layout (first_leaf levels block) }
        requires blocks { program.old.blocks ≡ static_blocks self.now.layout }
        requires fit { StampsFit stamps.old (history (O.trace bus.old)) }
        requires has_room { length (moves_below self.now.layout levels block) ≤ O.room bus.old }
        requires limit { length (O.trace bus.old) + O.room bus.old < 2 ^ 64 }
        requires told { TellsOnly self.now.layout (O.layout bus.old) }
        ensures does { SubtreeEntered self.now.layout
            (scheme_of self.now.layout (V.veiled self.now.veil))
            levels block program.old program.new (O.trace bus.old) (O.trace bus.new) result }
        ensures added { program.new.added
            ≡ statics_before self.now.layout (first_leaf levels (block + 1)) }
        ensures blocks { program.new.blocks ≡ static_blocks self.now.layout }
        ensures room { O.room bus.new + length (moves_below self.now.layout levels block)
            ≡ O.room bus.old }
        ensures total { length (O.trace bus.new) + O.room bus.new
            ≡ length (O.trace bus.old) + O.room bus.old }
        ensures fit { StampsFit stamps.new (history (O.trace bus.new)) }
        ensures same { O.same_memory bus.old bus.new }
    {
        if levels == 0 {
            return self.enter_leaf(bus, stamps, program, block);
        }
        let first = self.enter_below(bus, stamps, program, FAN * block + 1, levels - 1);
        let second = self.enter_below(bus, stamps, program, FAN * block + 2, levels - 1);
        let third = self.enter_below(bus, stamps, program, FAN * block + 3, levels - 1);
        let payload = node_payload(&first, &second, &third);
        self.write(bus, stamps, block, &payload)
    }

    // Enters a block of the lowest level, and gives its digest. A static block is read, and each other one holds zeros.
    fn enter_leaf<O: OffChip>(
        &self,
        bus: &mut O,
        stamps: &mut Stamps,
        program: &mut ProgramHasher,
        block: u32,
    ) -> [u8; 20]
        requires leaf { nodes_of self.now.layout ≤ block }
        requires inside { block < tree_blocks self.now.layout }
        requires added { program.old.added ≡ statics_before self.now.layout block }
        requires blocks { program.old.blocks ≡ static_blocks self.now.layout }
        requires fit { StampsFit stamps.old (history (O.trace bus.old)) }
        requires has_room { length (leaf_moves self.now.layout block) ≤ O.room bus.old }
        requires limit { length (O.trace bus.old) + O.room bus.old < 2 ^ 64 }
        requires told { TellsOnly self.now.layout (O.layout bus.old) }
        ensures does { SubtreeEntered self.now.layout
            (scheme_of self.now.layout (V.veiled self.now.veil))
            0 block program.old program.new (O.trace bus.old) (O.trace bus.new) result }
        ensures added { program.new.added ≡ statics_before self.now.layout (block + 1) }
        ensures blocks { program.new.blocks ≡ static_blocks self.now.layout }
        ensures room { O.room bus.new + length (leaf_moves self.now.layout block) ≡ O.room bus.old }
        ensures total { length (O.trace bus.new) + O.room bus.new
            ≡ length (O.trace bus.old) + O.room bus.old }
        ensures fit { StampsFit stamps.new (history (O.trace bus.new)) }
        ensures same { O.same_memory bus.old bus.new }
    {
        if !is_static(&self.layout, block) {
            return self.write(bus, stamps, block, &[0; 64]);
        }
        let mut found = Block {
            payload: [0; 64],
            stamp: 0,
        };
        bus.read_block(Place::Tree(block), &mut found);
        program.add(&found.payload);
        self.write(bus, stamps, block, &found.payload)
    }

    // Writes a payload with a fresh stamp, and gives the digest of what was written.
    fn write<O: OffChip>(
        &self,
        bus: &mut O,
        stamps: &mut Stamps,
        block: u32,
        payload: &[u8; 64],
    ) -> [u8; 20]
        requires inside { block < tree_blocks self.now.layout }
        requires fit { StampsFit stamps.old (history (O.trace bus.old)) }
        requires has_room { 0 < O.room bus.old }
        requires limit { length (O.trace bus.old) + O.room bus.old < 2 ^ 64 }
        requires told { TellsOnly self.now.layout (O.layout bus.old) }
        ensures does { WritesPayload
            (scheme_of self.now.layout (V.veiled self.now.veil)) block payload.now result
            (O.trace bus.old) (O.trace bus.new) }
        ensures stamp { stamps.new ≡ stamps.old + 1 }
        ensures room { O.room bus.new + 1 ≡ O.room bus.old }
        ensures fit { StampsFit stamps.new (history (O.trace bus.new)) }
        ensures same { O.same_memory bus.old bus.new }
    {
        let mut written = Block {
            payload: *payload,
            stamp: stamps.fresh(),
        };
        self.veil.veil(block, written.stamp, &mut written.payload);
        bus.write_block(Place::Tree(block), &written);
        block_digest(block, &written)
    }

    /// Gives the data block at a position a line, and each block of its path, by reads of those that have none, from the root
    /// down. Where a block is read whose digest is not the one that is kept of it, the tree is not to be used again.
    /// A block that has a line is noted as used alone, since what stands above it cannot leave while it is held.
    /// The path and the pinned blocks keep their lines; of pinned blocks there are at most 9, with their parents.
    pub fn load<O: OffChip>(
        &mut self,
        bus: &mut O,
        stamps: &mut Stamps,
        position: u32,
        pins: &Pins,
    ) -> Result<(), Changed>
        requires position { position < positions_of self.old.layout }
        requires parents { HoldParents pins.now.blocks.items }
        requires few_pins { length pins.now.blocks.items ≤ 9 }
        requires stands { StandsOn self.old (L.lines self.old.lines) (V.veiled self.old.veil)
            (O.trace bus.old) }
        requires fit { StampsFit stamps.old (history (O.trace bus.old)) }
        requires has_room { 160 ≤ O.room bus.old }
        requires told { TellsOnly self.old.layout (O.layout bus.old) }
        ensures tree { SameTree self.old self.new }
        ensures stands { IfOk result (λ _. StandsOn self.new (L.lines self.new.lines)
            (V.veiled self.new.veil) (O.trace bus.new)) }
        ensures held { IfOk result
            (λ _. Holds (L.lines self.new.lines) (leaf_of self.old.layout position)) }

        // Its events, what they leave of the lines, and that contents are kept.
        ensures ok { IfOk result (λ _. Moved (scheme_of self.old.layout (V.veiled self.old.veil))
            (pins.now.blocks.items ++ path_of self.old.layout position)
            (state_of (L.lines self.old.lines) self.old.root (O.trace bus.old))
            (state_of (L.lines self.new.lines) self.new.root (O.trace bus.new))
            (uncached (held_in (L.lines self.old.lines)) (path_of self.old.layout position))) }

        // Also where it stops, it reads blocks of the path that had no line, from the root down,
        // each once.
        ensures reads { ReadsFirst
            (uncached (held_in (L.lines self.old.lines)) (path_of self.old.layout position))
            (O.trace bus.old) (O.trace bus.new) }

        // Nothing is done where the block has a line.
        ensures still { Holds (L.lines self.old.lines) (leaf_of self.old.layout position)
            → IsOk result × IsStill (L.lines self.old.lines) (L.lines self.new.lines)
            (O.trace bus.old) (O.trace bus.new) }

        // It stops at the last event, a read of a block with another digest than the one that is kept.
        ensures changed { IfErr result
            (λ changed. Stops (scheme_of self.old.layout (V.veiled self.old.veil))
            (pins.now.blocks.items ++ path_of self.old.layout position)
            (state_of (L.lines self.old.lines) self.old.root (O.trace bus.old))
            (state_of (L.lines self.new.lines) self.new.root (O.trace bus.new)) changed.event) }

        // It does not where each read was faithful.
        ensures honest { AllAsWritten (history (O.trace bus.new)) → IsOk result }
        ensures few { length (O.trace bus.new) ≤ length (O.trace bus.old) + 160 }
        ensures total { length (O.trace bus.new) + O.room bus.new
            ≡ length (O.trace bus.old) + O.room bus.old }
        ensures fit { StampsFit stamps.new (history (O.trace bus.new)) }
        ensures same { O.same_memory bus.old bus.new }
    {
        let block = self.leaf_at(position);
        if self.lines.holds(block) {
            self.lines.touch(block);
            return Ok(());
        }
        let _events = bus.events();
        let depth = height(&self.layout);
        let pinned = with_path(pins, block, depth);
        self.load_path(bus, stamps, block, depth, &pinned)
    }

    /// The payload of a data block that has a line.
    pub fn payload(&self, position: u32) -> &[u8; 64]
        requires position { position < positions_of self.now.layout }
        requires held { Holds (L.lines self.now.lines) (leaf_of self.now.layout position) }
        ensures value { payload_at (L.lines self.now.lines) (leaf_of self.now.layout position)
            ≡ Some result.now }
    {
        self.lines.payload(self.leaf_at(position))
    }

    /// The payload of a data block that has a line, to be changed. The line counts as changed, and what stands there when the
    /// loan ends are the contents of the block from then on, as `lending_changes_contents` says.
    pub fn payload_mut(&mut self, position: u32) -> &mut [u8; 64]
        requires position { position < positions_of self.old.layout }
        requires held { Holds (L.lines self.old.lines) (leaf_of self.old.layout position) }
        ensures* writes_back { sem 𝓛
            (Lends (the_row L.row V.row L.Lines V.Veil) (Array byte 64) self.entry result
            (with_lines self.old (L.lent self.old.lines (leaf_of self.old.layout position)))) }
        ensures value { payload_at (L.lines self.old.lines) (leaf_of self.old.layout position)
            ≡ Some result.now }
    {
        let block = self.leaf_at(position);
        self.lines.line_mut(block)
    }

    /// Writes all dirty lines back, from the greatest block number down, so that each node is written after its children.
    /// All lines stay, and are clean then.
    pub fn flush<O: OffChip>(&mut self, bus: &mut O, stamps: &mut Stamps)
        requires stands { StandsOn self.old (L.lines self.old.lines) (V.veiled self.old.veil)
            (O.trace bus.old) }
        requires fit { StampsFit stamps.old (history (O.trace bus.old)) }
        requires has_room { 128 ≤ O.room bus.old }
        requires told { TellsOnly self.old.layout (O.layout bus.old) }
        ensures tree { SameTree self.old self.new }

        // It stands, its contents are kept, and all lines are kept and clean.
        ensures does { Flushed (scheme_of self.old.layout (V.veiled self.old.veil)) 0
            (state_of (L.lines self.old.lines) self.old.root (O.trace bus.old))
            (state_of (L.lines self.new.lines) self.new.root (O.trace bus.new)) }
        ensures few { length (O.trace bus.new) ≤ length (O.trace bus.old) + 128 }
        ensures total { length (O.trace bus.new) + O.room bus.new
            ≡ length (O.trace bus.old) + O.room bus.old }
        ensures fit { StampsFit stamps.new (history (O.trace bus.new)) }
        ensures same { O.same_memory bus.old bus.new }
    {
        let _events = bus.events();
        let mut below = blocks_of_tree(&self.layout);
        while below > 0 {
            below -= 1;
            self.flush_line(bus, stamps, below);
        }
    }

    // Writes the line of a block back, where it has one that is dirty.
    fn flush_line<O: OffChip>(&mut self, bus: &mut O, stamps: &mut Stamps, block: u32)
        requires stands { StandsOn self.old (L.lines self.old.lines) (V.veiled self.old.veil)
            (O.trace bus.old) }
        requires fit { StampsFit stamps.old (history (O.trace bus.old)) }
        requires has_room { Holds (L.lines self.old.lines) block → 0 < O.room bus.old }
        requires limit { length (O.trace bus.old) + O.room bus.old < 2 ^ 64 }
        requires told { TellsOnly self.old.layout (O.layout bus.old) }
        ensures tree { SameTree self.old self.new }
        ensures step { LineFlushed (scheme_of self.old.layout (V.veiled self.old.veil))
            (state_of (L.lines self.old.lines) self.old.root (O.trace bus.old))
            (state_of (L.lines self.new.lines) self.new.root (O.trace bus.new)) block }
        ensures room { O.room bus.old ≤ O.room bus.new + 1 }
        ensures absent { contains_key (L.lines self.old.lines) block ≡ false
            → O.room bus.new ≡ O.room bus.old }
        ensures total { length (O.trace bus.new) + O.room bus.new
            ≡ length (O.trace bus.old) + O.room bus.old }
        ensures fit { StampsFit stamps.new (history (O.trace bus.new)) }
        ensures same { O.same_memory bus.old bus.new }
    {
        if self.lines.holds(block) && self.lines.dirty(block) {
            self.write_back(bus, stamps, block);
        }
    }

    // Writes the line of a block back, which is clean then, and keeps the digest of what was written.
    fn write_back<O: OffChip>(&mut self, bus: &mut O, stamps: &mut Stamps, block: u32)
        requires held { Holds (L.lines self.old.lines) block }
        requires stands { StandsOn self.old (L.lines self.old.lines) (V.veiled self.old.veil)
            (O.trace bus.old) }
        requires fit { StampsFit stamps.old (history (O.trace bus.old)) }
        requires has_room { 0 < O.room bus.old }
        requires limit { length (O.trace bus.old) + O.room bus.old < 2 ^ 64 }
        requires told { TellsOnly self.old.layout (O.layout bus.old) }
        ensures tree { SameTree self.old self.new }
        ensures step { WritesBack (scheme_of self.old.layout (V.veiled self.old.veil))
            (state_of (L.lines self.old.lines) self.old.root (O.trace bus.old))
            (state_of (L.lines self.new.lines) self.new.root (O.trace bus.new)) stamps.new block }
        ensures stamp { stamps.new ≡ stamps.old + 1 }
        ensures room { O.room bus.new + 1 ≡ O.room bus.old }
        ensures same { O.same_memory bus.old bus.new }
        ensures count { len (L.lines self.new.lines) ≡ len (L.lines self.old.lines) }
        ensures childless { IsChildless (L.lines self.old.lines) block
            → IsChildless (L.lines self.new.lines) block }
        ensures held { Holds (L.lines self.new.lines) block }
    {
        let digest = self.write(bus, stamps, block, self.lines.payload(block));
        self.lines.clean(block);
        self.keep_digest(block, digest);
    }

    // Takes out the line of a block, after a write where it is dirty, and else with a mark.
    fn evict<O: OffChip>(&mut self, bus: &mut O, stamps: &mut Stamps, block: u32)
        requires held { Holds (L.lines self.old.lines) block }
        requires childless { IsChildless (L.lines self.old.lines) block }
        requires stands { StandsOn self.old (L.lines self.old.lines) (V.veiled self.old.veil)
            (O.trace bus.old) }
        requires fit { StampsFit stamps.old (history (O.trace bus.old)) }
        requires has_room { 0 < O.room bus.old }
        requires limit { length (O.trace bus.old) + O.room bus.old < 2 ^ 64 }
        requires told { TellsOnly self.old.layout (O.layout bus.old) }
        ensures tree { SameTree self.old self.new }
        ensures does { Evicted (scheme_of self.old.layout (V.veiled self.old.veil))
            (state_of (L.lines self.old.lines) self.old.root (O.trace bus.old))
            (state_of (L.lines self.new.lines) self.new.root (O.trace bus.new)) block }
        ensures leaves { LeavesBy (L.lines self.old.lines) block (O.trace bus.old)
            (O.trace bus.new) }
        ensures fit { StampsFit stamps.new (history (O.trace bus.new)) }
        ensures count { len (L.lines self.new.lines) + 1 ≡ len (L.lines self.old.lines) }
        ensures room { O.room bus.new + 1 ≡ O.room bus.old }
        ensures total { length (O.trace bus.new) + O.room bus.new
            ≡ length (O.trace bus.old) + O.room bus.old }
        ensures same { O.same_memory bus.old bus.new }
    {
        if self.lines.dirty(block) {
            self.write_back(bus, stamps, block);
            self.lines.remove(block);
        } else {
            bus.note(Mark::Drop(Place::Tree(block)));
            self.lines.remove(block);
        }
    }

    // Takes lines out until there is room for one of this block. Pinned blocks keep theirs.
    fn make_room<O: OffChip>(&mut self, bus: &mut O, stamps: &mut Stamps, block: u32, pins: &Pins)
        requires parents { HoldParents pins.now.blocks.items }
        requires stands { StandsOn self.old (L.lines self.old.lines) (V.veiled self.old.veil)
            (O.trace bus.old) }
        requires fit { StampsFit stamps.old (history (O.trace bus.old)) }
        requires has_room { len (L.lines self.old.lines) ≤ O.room bus.old }
        requires limit { length (O.trace bus.old) + O.room bus.old < 2 ^ 64 }
        requires told { TellsOnly self.old.layout (O.layout bus.old) }
        ensures tree { SameTree self.old self.new }
        ensures does { Moved
            (scheme_of self.old.layout (V.veiled self.old.veil)) pins.now.blocks.items
            (state_of (L.lines self.old.lines) self.old.root (O.trace bus.old))
            (state_of (L.lines self.new.lines) self.new.root (O.trace bus.new)) [] }
        ensures fit { StampsFit stamps.new (history (O.trace bus.new)) }
        ensures ready { IsTrue (L.has_room self.new.lines block) }
        ensures room { O.room bus.new + len (L.lines self.old.lines)
            ≡ O.room bus.old + len (L.lines self.new.lines) }
        ensures total { length (O.trace bus.new) + O.room bus.new
            ≡ length (O.trace bus.old) + O.room bus.old }
        ensures same { O.same_memory bus.old bus.new }
    {
        while let Some(victim) = self.lines.victim(block, pins) {
            self.evict(bus, stamps, victim);
        }
    }

    // Gives each block of a path a line, from the root down to a block that stands so many steps below it.
    fn load_path<O: OffChip>(
        &mut self,
        bus: &mut O,
        stamps: &mut Stamps,
        block: u32,
        depth: u32,
        pins: &Pins,
    ) -> Result<(), Changed>
        requires depth { IsAtDepth 3 depth block }
        requires inside { block < tree_blocks self.old.layout }
        requires pinned { Contains pins.now.blocks.items block }
        requires parents { HoldParents pins.now.blocks.items }
        requires stands { StandsOn self.old (L.lines self.old.lines) (V.veiled self.old.veil)
            (O.trace bus.old) }
        requires fit { StampsFit stamps.old (history (O.trace bus.old)) }
        requires has_room { len (L.lines self.old.lines) + 2 * (depth + 1) ≤ O.room bus.old }
        requires limit { length (O.trace bus.old) + O.room bus.old < 2 ^ 64 }
        requires told { TellsOnly self.old.layout (O.layout bus.old) }
        ensures tree { SameTree self.old self.new }
        ensures ok { IfOk result
            (λ _. Moved (scheme_of self.old.layout (V.veiled self.old.veil)) pins.now.blocks.items
            (state_of (L.lines self.old.lines) self.old.root (O.trace bus.old))
            (state_of (L.lines self.new.lines) self.new.root (O.trace bus.new))
            (uncached (held_in (L.lines self.old.lines)) (path_in 3 depth block))) }
        ensures reads { ReadsFirst
            (uncached (held_in (L.lines self.old.lines)) (path_in 3 depth block))
            (O.trace bus.old) (O.trace bus.new) }
        ensures held { IfOk result (λ _. Holds (L.lines self.new.lines) block) }
        ensures changed { IfErr result (λ changed. Stops
            (scheme_of self.old.layout (V.veiled self.old.veil)) pins.now.blocks.items
            (state_of (L.lines self.old.lines) self.old.root (O.trace bus.old))
            (state_of (L.lines self.new.lines) self.new.root (O.trace bus.new)) changed.event) }
        ensures still { Holds (L.lines self.old.lines) block → IsOk result
            × IsStill (L.lines self.old.lines) (L.lines self.new.lines)
            (O.trace bus.old) (O.trace bus.new) }
        ensures room { IfOk result (λ _. O.room bus.old + len (L.lines self.new.lines)
            ≤ O.room bus.new + len (L.lines self.old.lines) + 2 * (depth + 1)) }
        ensures few { O.room bus.old
            ≤ O.room bus.new + len (L.lines self.old.lines) + 2 * (depth + 1) }
        ensures total { length (O.trace bus.new) + O.room bus.new
            ≡ length (O.trace bus.old) + O.room bus.old }
        ensures fit { StampsFit stamps.new (history (O.trace bus.new)) }
        ensures same { O.same_memory bus.old bus.new }
    {
        if depth == 0 {
            return self.load_block(bus, stamps, block, pins);
        }
        self.load_path(bus, stamps, parent_of(block), depth - 1, pins)?;
        self.load_block(bus, stamps, block, pins)
    }

    // Gives a block a line whose parent has one: by a read, where it has none yet.
    fn load_block<O: OffChip>(
        &mut self,
        bus: &mut O,
        stamps: &mut Stamps,
        block: u32,
        pins: &Pins,
    ) -> Result<(), Changed>
        requires parent { HasParent (L.lines self.old.lines) block }
        requires inside { block < tree_blocks self.old.layout }
        requires pinned { Contains pins.now.blocks.items block }
        requires parents { HoldParents pins.now.blocks.items }
        requires stands { StandsOn self.old (L.lines self.old.lines) (V.veiled self.old.veil)
            (O.trace bus.old) }
        requires fit { StampsFit stamps.old (history (O.trace bus.old)) }
        requires has_room { len (L.lines self.old.lines) + 2 ≤ O.room bus.old }
        requires limit { length (O.trace bus.old) + O.room bus.old < 2 ^ 64 }
        requires told { TellsOnly self.old.layout (O.layout bus.old) }
        ensures tree { SameTree self.old self.new }
        ensures ok { IfOk result
            (λ _. Moved (scheme_of self.old.layout (V.veiled self.old.veil)) pins.now.blocks.items
            (state_of (L.lines self.old.lines) self.old.root (O.trace bus.old))
            (state_of (L.lines self.new.lines) self.new.root (O.trace bus.new))
            (uncached (held_in (L.lines self.old.lines)) (block ∷ []))) }
        ensures reads { ReadsFirst (uncached (held_in (L.lines self.old.lines)) (block ∷ []))
            (O.trace bus.old) (O.trace bus.new) }
        ensures held { IfOk result (λ _. Holds (L.lines self.new.lines) block) }
        ensures changed { IfErr result (λ changed. Stops
            (scheme_of self.old.layout (V.veiled self.old.veil)) pins.now.blocks.items
            (state_of (L.lines self.old.lines) self.old.root (O.trace bus.old))
            (state_of (L.lines self.new.lines) self.new.root (O.trace bus.new)) changed.event) }
        ensures still { Holds (L.lines self.old.lines) block → IsOk result
            × IsStill (L.lines self.old.lines) (L.lines self.new.lines)
            (O.trace bus.old) (O.trace bus.new) }
        ensures room { IfOk result (λ _. O.room bus.old + len (L.lines self.new.lines)
            ≤ O.room bus.new + len (L.lines self.old.lines) + 2) }
        ensures few { O.room bus.old ≤ O.room bus.new + len (L.lines self.old.lines) + 2 }
        ensures total { length (O.trace bus.new) + O.room bus.new
            ≡ length (O.trace bus.old) + O.room bus.old }
        ensures fit { StampsFit stamps.new (history (O.trace bus.new)) }
        ensures same { O.same_memory bus.old bus.new }
    {
        if self.lines.holds(block) {
            self.lines.touch(block);
            return Ok(());
        }
        self.make_room(bus, stamps, block, pins);
        let event = bus.events();
        if !self.read(bus, block) {
            return Err(Changed { event });
        }
        Ok(())
    }

    // Whether a digest is the one that is kept of a block: for the root on the chip, and else in the line of its parent.
    fn has_digest(&self, block: u32, digest: &[u8; 20]) -> bool
        requires parent { HasParent (L.lines self.now.lines) block }
        ensures kept { TellsKept (scheme_of self.now.layout (V.veiled self.now.veil))
            (L.lines self.now.lines) self.now.root block digest.now result }
    {
        if block == 0 {
            return self.root == *digest;
        }
        let at = DIGEST_BYTES * slot_of(block) as usize;
        self.lines.payload(parent_of(block))[at..at + DIGEST_BYTES] == digest[..]
    }

    // Reads a block that has no line. It gets one if it has the digest that is kept of it.
    fn read<O: OffChip>(&mut self, bus: &mut O, block: u32) -> bool
        requires absent { contains_key (L.lines self.old.lines) block ≡ false }
        requires parent { HasParent (L.lines self.old.lines) block }
        requires ready { IsTrue (L.has_room self.old.lines block) }
        requires inside { block < tree_blocks self.old.layout }
        requires has_room { 0 < O.room bus.old }
        requires told { TellsOnly self.old.layout (O.layout bus.old) }
        ensures tree { SameTree self.old self.new }
        ensures does { Reads (scheme_of self.old.layout (V.veiled self.old.veil))
            (state_of (L.lines self.old.lines) self.old.root (O.trace bus.old))
            (state_of (L.lines self.new.lines) self.new.root (O.trace bus.new)) block result }
        ensures count { IsTrue result
            → len (L.lines self.new.lines) ≡ len (L.lines self.old.lines) + 1 }
        ensures room { O.room bus.new + 1 ≡ O.room bus.old }
        ensures same { O.same_memory bus.old bus.new }
    {
        let mut found = Block {
            payload: [0; 64],
            stamp: 0,
        };
        bus.read_block(Place::Tree(block), &mut found);
        if !self.has_digest(block, &digest_of(block, &found.payload, found.stamp)) {
            return false;
        }
        self.veil.veil(block, found.stamp, &mut found.payload);
        self.lines.insert(block, &found.payload);
        true
    }

    // Keeps the digest of a block: for the root on the chip, and else in the line of its parent.
    fn keep_digest(&mut self, block: u32, digest: [u8; 20])
        requires parent { HasParent (L.lines self.old.lines) block }
        ensures tree { SameTree self.old self.new }
        ensures kept { KeepsDigest self.old.layout (L.lines self.old.lines) (L.lines self.new.lines)
            self.old.root self.new.root digest block }
        ensures room { (other : ℕ)
            → L.has_room self.new.lines other ≡ L.has_room self.old.lines other }
    {
        if block == 0 {
            self.root = digest;
        } else {
            let payload = self.lines.line_mut(parent_of(block));
            put_digest(payload, slot_of(block), &digest);
        }
    }
}

// The digest of a tree block, by its payload of 64 bytes and its stamp of 64 bits.
fn digest_of(number: u32, payload: &[u8; 64], stamp: u64) -> [u8; 20]
    ensures value { result ≡ block_digest number (record { payload = payload.now; stamp = stamp }) }
    ensures whole { IsWhole (record { payload = payload.now; stamp = stamp }) }
{
    let block = Block {
        payload: *payload,
        stamp,
    };
    block_digest(number, &block)
}

// Whether a tree block of the lowest level is a static block: a constant block or a code block.
fn is_static(layout: &Layout, block: u32) -> bool
    requires leaf { nodes_of layout.now ≤ block }
    ensures value { result ≡ is_static layout.now block }
{
    let position = block - leaf(layout, 0);
    let first = layout.verified + layout.private;
    first <= position && position < first + layout.constants + layout.code
}

// The payload of a node whose children have these digests.
fn node_payload(first: &[u8; 20], second: &[u8; 20], third: &[u8; 20]) -> [u8; 64]
    ensures value { result ≡ bytes_put 40 third.now
        (bytes_put 20 second.now (bytes_put 0 first.now (replicate 64 0))) }
{
    let mut payload = [0; 64];
    put_digest(&mut payload, 0, first);
    put_digest(&mut payload, 1, second);
    put_digest(&mut payload, 2, third);
    payload
}

// The pinned blocks, and each block of the path down to a block that stands so many steps below the root.
fn with_path(pins: &Pins, block: u32, depth: u32) -> Pins
    requires depth { IsAtDepth 3 depth block }
    requires few { length pins.now.blocks.items + depth + 1 ≤ 18 }
    ensures blocks { result.blocks.items ≡ pins.now.blocks.items ++ path_in 3 depth block }
{
    let mut blocks = ArrayVec::new();
    blocks
        .try_extend_from_slice(pins.blocks.as_slice())
        .unwrap();
    let mut pinned = Pins { blocks };
    pin_path(&mut pinned, block, depth);
    pinned
}

/// Pins a path, from the root down to a block that stands so many steps below it. At most 18 blocks are pinned then.
pub fn pin_path(pins: &mut Pins, block: u32, depth: u32)
    requires depth { IsAtDepth 3 depth block }
    requires few { length pins.old.blocks.items + depth + 1 ≤ 18 }
    ensures blocks { pins.new.blocks.items ≡ pins.old.blocks.items ++ path_in 3 depth block }
    ensures count { length pins.new.blocks.items ≡ length pins.old.blocks.items + depth + 1 }
{
    if depth > 0 {
        pin_path(pins, parent_of(block), depth - 1);
    }
    pins.blocks.push(block);
}

// The node above a block that is not the root.
fn parent_of(block: u32) -> u32
    requires { 0 < block }
    ensures { result ≡ parent_in 3 block }
{
    (block - 1) / FAN
}

// Which child of the node above it a block is that is not the root.
fn slot_of(block: u32) -> u32
    requires { 0 < block }
    ensures value { result ≡ slot_in 3 block }
    ensures limit { result < 3 }
{
    (block - 1) % FAN
}

// Puts a digest into a slot of the payload of a node.
fn put_digest(payload: &mut [u8; 64], slot: u32, digest: &[u8; 20])
    requires { slot < 3 }
    ensures { payload.new ≡ bytes_put (20 * slot) digest.now payload.old }
{
    let at = DIGEST_BYTES * slot as usize;
    payload[at..at + DIGEST_BYTES].copy_from_slice(digest);
}
