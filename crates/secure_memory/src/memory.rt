//! The secure memory.
ghost use Rattle.std.specs.Prelude.{◌≡◌, ℕ, ◌+◌, ◌<◌, ◌≤◌, [], length, IfErr, IsTrue, OnOk, Some, ◌↔◌};
ghost use Rattle.std.specs.FinMap.{empty};
ghost use Rattle.std.specs.Borrow.{Lends, sem};
ghost use mir.Syntax.{named};
ghost use Rattle.regions.specs.contracts.modes.ModeUnit.{the_row as mode_row};
ghost use Rattle.secure_memory.specs.contracts.memory.SecureMemory.{the_row};
ghost use Rattle.regions.specs.declared.rights.Mode.TheVariants.{Std, Te};
ghost use Rattle.line_cache.specs.LineMaps.{payload_at};
ghost use Rattle.off_chip.specs.BusCalls.{TellsOnly};
ghost use Rattle.off_chip.specs.Epochs.{IsQuiet};
ghost use Rattle.off_chip.specs.Histories.{History, history};
ghost use Rattle.off_chip.specs.OffChipBytes.{static_blocks};
ghost use Rattle.regions.specs.Tree.{tree_blocks};
ghost use Rattle.hash_tree.specs.TreeParts.{SameTree};
ghost use Rattle.stamp_log.specs.LogEvents.{RunsCheck, zero_payload};
ghost use Rattle.stamp_log.specs.LogState.{value_under};
ghost use Rattle.stamp_log.specs.OfflineCheck.{IsCause, PassedFaithful};
ghost use Rattle.stamp_log.specs.StandsOn.{IsNew, StandsOn, contents_of};
ghost use Rattle.secure_memory.specs.MemoryEntry.{EntersMemory};
ghost use Rattle.secure_memory.specs.MemoryStands.{IsOfLayout, MemoryStands};
ghost use Rattle.secure_memory.specs.PrivateWrites.{PadsWrites};

use crate::pads::PrivatePad;
use aegis_num::Stamps;
use arrayvec::ArrayVec;
use hash_tree::Tree;
use line_cache::{Lines, Pins};
use off_chip::{Mark, OffChip};
use regions::{Layout, ModeUnit};
use stamp_log::{LogCause, StampLog};

/// What a memory keeps while another one uses the bus.
#[derive(Drop)]
pub struct Parts<L: Lines> {
    /// The hash tree over the data blocks.
    pub tree: Tree<L, PrivatePad>,
    /// The log of the log blocks.
    pub log: StampLog,
    /// The counter of stamps.
    pub stamps: Stamps,
    /// The mode.
    pub modes: ModeUnit,
    /// How many blocks there are of each class.
    pub layout: Layout,
}

/// A memory of verified, private, constant, code, logged and open bytes on one bus. Data blocks go through a hash tree, log
/// blocks through a log, and open words go over the bus as they are.
pub struct SecureMemory<'a, O: OffChip, L: Lines> {
    /// The bus, which is lent to it.
    pub lent: &'a mut O,
    /// The hash tree over the data blocks.
    pub tree: Tree<L, PrivatePad>,
    /// The log of the log blocks.
    pub log: StampLog,
    /// The counter of stamps.
    pub stamps: Stamps,
    /// The mode.
    pub mode_unit: ModeUnit,
    /// How many blocks there are of each class.
    pub layout: Layout,
    /// The path of the block that the last instruction was fetched from.
    pub pins: Pins,
}

impl<'a, O: OffChip, L: Lines> SecureMemory<'a, O, L> {
    /// A memory over a new tree and a new log, on a bus with no event. It starts in STD and has given no stamp.
    pub fn new(
        bus: &'a mut O,
        tree: Tree<L, PrivatePad>,
        log: StampLog,
        layout: Layout,
    ) -> SecureMemory<'a, O, L>
        requires unused { O.trace bus.old ≡ [] }
        requires lines { L.lines tree.lines ≡ empty }
        requires log { IsNew log }
        requires parts { IsOfLayout layout tree log }
        ensures same_reference { result.lent.ghost_name ≡ bus.entry.ghost_name }
        ensures bus { result.lent.now ≡ bus.old }
        ensures tree { result.tree ≡ tree }
        ensures log { result.log ≡ log }
        ensures stamps { result.stamps ≡ 0 }
        ensures modes { result.mode_unit ≡ record { mode = Std; kept = Te } }
        ensures layout { result.layout ≡ layout }
        ensures pins { result.pins.blocks.items ≡ [] }
    {
        SecureMemory {
            lent: bus,
            tree,
            log,
            stamps: Stamps::new(),
            mode_unit: ModeUnit::new(),
            layout,
            pins: no_pins(),
        }
    }

    /// A memory with these parts, on the bus that they stand on. It pins nothing until its next fetch.
    pub fn with(bus: &'a mut O, parts: Parts<L>) -> SecureMemory<'a, O, L>
        requires stands { MemoryStands parts.layout parts.tree (L.lines parts.tree.lines)
            parts.log parts.stamps (O.trace bus.old) }
        ensures same_reference { result.lent.ghost_name ≡ bus.entry.ghost_name }
        ensures bus { result.lent.now ≡ bus.old }
        ensures tree { result.tree ≡ parts.tree }
        ensures log { result.log ≡ parts.log }
        ensures stamps { result.stamps ≡ parts.stamps }
        ensures modes { result.mode_unit ≡ parts.modes }
        ensures layout { result.layout ≡ parts.layout }
        ensures pins { result.pins.blocks.items ≡ [] }
    {
        let Parts {
            tree,
            log,
            stamps,
            modes,
            layout,
        } = parts;
        SecureMemory {
            lent: bus,
            tree,
            log,
            stamps,
            mode_unit: modes,
            layout,
            pins: no_pins(),
        }
    }

    /// Gives the bus back, and the parts of the memory. It makes no event.
    pub fn parts(self) -> Parts<L>
        ensures tree { result.tree ≡ self.entry.tree }
        ensures log { result.log ≡ self.entry.log }
        ensures stamps { result.stamps ≡ self.entry.stamps }
        ensures modes { result.modes ≡ self.entry.mode_unit }
        ensures layout { result.layout ≡ self.entry.layout }
    {
        let SecureMemory {
            lent: _,
            tree,
            log,
            stamps,
            mode_unit,
            layout,
            pins: _,
        } = self;
        Parts {
            tree,
            log,
            stamps,
            modes: mode_unit,
            layout,
        }
    }

    /// Enters the program: the mark is noted, the tree is entered, and the blocks of the log are written with zeros. It is the
    /// first call after `new`, and is made once. The mode stays as it is. The answer is the digest of the program that was
    /// read. Takes room for `1 + S + T + L` events, where `S` is how many static blocks there are, `T` how many blocks the tree
    /// has and `L` how many the log has.
    pub fn enter(&mut self) -> [u8; 20]
        requires unused { O.trace self.old.lent.now ≡ [] }
        requires lines { L.lines self.old.tree.lines ≡ empty }
        requires log { IsNew self.old.log }
        requires stamps { self.old.stamps ≡ 0 }
        requires parts { IsOfLayout self.old.layout self.old.tree self.old.log }
        requires has_room { 1 + (static_blocks self.old.layout + tree_blocks self.old.layout)
            + self.old.layout.log ≤ O.room self.old.lent.now }
        requires told { TellsOnly self.old.layout (O.layout self.old.lent.now) }
        ensures stands { MemoryStands self.new.layout self.new.tree
            (L.lines self.new.tree.lines) self.new.log self.new.stamps (O.trace self.new.lent.now) }
        ensures does { EntersMemory self.old.tree self.new.tree (L.lines self.new.tree.lines)
            (O.trace self.new.lent.now) result }

        // Zeros are written of each private block, with their pad.
        ensures private { PadsWrites self.old.tree.veil (λ n. Some zero_payload) []
            (O.trace self.new.lent.now) }
        ensures count { length (O.trace self.new.lent.now)
            ≡ 1 + (static_blocks self.old.layout + tree_blocks self.old.layout) + self.old.layout.log }
        ensures room { O.room self.old.lent.now ≤ O.room self.new.lent.now
            + (1 + (static_blocks self.old.layout + tree_blocks self.old.layout) + self.old.layout.log) }
        ensures log { (n : ℕ) → n < self.old.layout.log
            → contents_of self.new.log (history (O.trace self.new.lent.now)) n ≡ Some zero_payload }
        ensures lines { L.lines self.new.tree.lines ≡ empty }
        ensures tree { SameTree self.old.tree self.new.tree }
        ensures log_lines { self.new.log.lines ≡ self.old.log.lines }
        ensures key { self.new.log.key ≡ self.old.log.key }
        ensures modes { self.new.mode_unit ≡ self.old.mode_unit }
        ensures layout { self.new.layout ≡ self.old.layout }
        ensures pins { self.new.pins ≡ self.old.pins }
        ensures same { O.same_memory self.old.lent.now self.new.lent.now }
        ensures total { length (O.trace self.new.lent.now) + O.room self.new.lent.now
            ≡ length (O.trace self.old.lent.now) + O.room self.old.lent.now }
        ensures same_reference { self.new.lent.ghost_name ≡ self.old.lent.ghost_name }
    {
        self.lent.note(Mark::Enter);
        let digest = self.tree.enter(&mut *self.lent, &mut self.stamps);
        self.log.start(&mut *self.lent, &mut self.stamps);
        digest
    }

    /// The mode, to be changed by the instructions that change it.
    pub fn modes(&mut self) -> &mut ModeUnit
        ensures* writes_back { sem 𝓛 (Lends
            (the_row (record { mir = named 1; lft = [] }) O.row L.row L.Lines)
            mode_row self.entry result (λ w. record self.old { mode_unit = w })) }
        ensures value { result.now ≡ self.old.mode_unit }
    {
        &mut self.mode_unit
    }

    /// The bus. What is lent may be given events at no place of a block, and no mark of a check.
    pub fn bus(&mut self) -> &mut O
        ensures* writes_back { sem 𝓛 (Lends
            (the_row (record { mir = named 1; lft = [] }) O.row L.row L.Lines) O.row
            self.entry result (λ w. record self.old { lent = record self.old.lent { now = w } })) }
        ensures value { result.now ≡ self.old.lent.now }
    {
        &mut *self.lent
    }

    /// Whether no block of the log was read since the latest check that passed.
    pub fn quiet(&self) -> bool
        ensures quiet { (older : History) → StandsOn self.now.log older
            → IsTrue result ↔ IsQuiet older }
    {
        self.log.quiet()
    }

    /// Checks all reads of the log since the latest check that passed. Takes room for `L + 34` events, where `L` is how many
    /// blocks the log has.
    pub fn check(&mut self) -> Result<(), LogCause>
        requires has_room { self.old.log.blocks + 34 ≤ O.room self.old.lent.now }
        requires told { TellsOnly self.old.layout (O.layout self.old.lent.now) }
        requires stands { MemoryStands self.old.layout self.old.tree (L.lines self.old.tree.lines)
            self.old.log self.old.stamps (O.trace self.old.lent.now) }
        ensures stands { OnOk result (MemoryStands self.new.layout self.new.tree
            (L.lines self.new.tree.lines) self.new.log self.new.stamps (O.trace self.new.lent.now)) }

        // At Ok each log read since then was faithful, or the trace holds two multisets of one sum.
        ensures faithful { OnOk result
            (PassedFaithful (value_under self.old.log.key) (O.trace self.new.lent.now)) }
        ensures cause { IfErr result
            (IsCause (value_under self.old.log.key) (O.trace self.new.lent.now)) }
        ensures events { RunsCheck (value_under self.old.log.key) self.old.log.blocks result
            (O.trace self.old.lent.now) (O.trace self.new.lent.now)
            self.old.log.lines self.new.log.lines }
        ensures private { PadsWrites self.old.tree.veil (payload_at (L.lines self.old.tree.lines))
            (O.trace self.old.lent.now) (O.trace self.new.lent.now) }
        ensures most { length (O.trace self.new.lent.now)
            ≤ length (O.trace self.old.lent.now) + (self.old.log.blocks + 34) }
        ensures room { O.room self.old.lent.now
            ≤ O.room self.new.lent.now + (self.old.log.blocks + 34) }
        ensures tree { self.new.tree ≡ self.old.tree }
        ensures key { self.new.log.key ≡ self.old.log.key }
        ensures modes { self.new.mode_unit ≡ self.old.mode_unit }
        ensures layout { self.new.layout ≡ self.old.layout }
        ensures pins { self.new.pins ≡ self.old.pins }
        ensures same { O.same_memory self.old.lent.now self.new.lent.now }
        ensures total { length (O.trace self.new.lent.now) + O.room self.new.lent.now
            ≡ length (O.trace self.old.lent.now) + O.room self.old.lent.now }
        ensures same_reference { self.new.lent.ghost_name ≡ self.old.lent.ghost_name }
    {
        self.log.check(&mut *self.lent, &mut self.stamps)
    }
}

// No block is pinned.
pub(crate) fn no_pins() -> Pins
    ensures { result.blocks.items ≡ [] }
{
    Pins {
        blocks: ArrayVec::new(),
    }
}
