//! The time-stamped log, after the offline checks of Suh et al., "Efficient Memory Integrity Verification and Encryption
//! for Secure Processors", MICRO 2003.
ghost use Rattle.std.specs.Prelude.{◌≡◌, ℕ, ◌+◌, ◌<◌, ◌≤◌, ◌++◌, false, true, is_some, length, Some, IfErr, IfOk, IsOk, IsTrue, OnErr, OnOk, ◌↔◌};
ghost use Rattle.aegis_num.specs.declared.storage.Place.TheVariants.{Log};
ghost use Rattle.off_chip.specs.BusCalls.{TellsLog};
ghost use Rattle.off_chip.specs.Histories.{History, history};
ghost use Rattle.off_chip.specs.WriteBacks.{StampsFit};
ghost use Rattle.off_chip.specs.Epochs.{IsQuiet, open_reads, open_writes};
ghost use Rattle.off_chip.specs.Collisions.{sum_of};
ghost use Rattle.stamp_log.specs.LogState.{entry_sum, line_of, value_under, with_line};
ghost use Rattle.std.specs.Borrow.{Lends, sem, u8 as byte, Array};
ghost use Rattle.stamp_log.specs.contracts.log.StampLog.{the_row};
ghost use Rattle.stamp_log.specs.LogCalls.{Fetches, HoldsNothing, MakesRoom, WritesBack};
ghost use Rattle.stamp_log.specs.Checking.{IsReading, check_reads};
ghost use Rattle.stamp_log.specs.OfflineCheck.{FutureRead, IsCause, PassedFaithful};
ghost use Rattle.stamp_log.specs.Starting.{HasNoLog, IsStarting};
ghost use Rattle.stamp_log.specs.LogStands.{AreLastWrites};
ghost use Rattle.stamp_log.specs.StandsOn.{IsNew, StandsOn, contents_of};
ghost use Rattle.stamp_log.specs.LogContents.{KeepsContents, ReadKeepsContents};
ghost use Rattle.stamp_log.specs.LogEvents.{ReadsInOrder, RunsCheck, StopsReading, zero_payload, zeros_written};

use crate::causes::{Changed, LogCause};
use crate::lines::Lines;
use crate::sums::MultisetSum;
use crate::trace::{read_entry, write_back};
use aegis_num::limits::LOG_LINES;
use aegis_num::{Block, Key, OutOfMemory, Stamps};
use off_chip::{Mark, OffChip};
use std::alloc::Global;
use std::marker::Model;

/// The log of one run. It has a line for at most `LOG_LINES` of its blocks, and sums of the entries that it read and wrote
/// since the latest check that passed.
#[derive(Drop)]
pub struct StampLog {
    key: Key,
    blocks: u32,
    lines: Lines,
    read: MultisetSum,
    written: MultisetSum,
}

impl Model for StampLog {
    ghost use Rattle.std.specs.Prelude.{◌≡◌, length};
    ghost use Rattle.stamp_log.specs.LogState.{LogState};

    ghost Value = { LogState };

    ghost view = { λ s. record {
      key = s.key;
      blocks = s.blocks;
      lines = s.lines;
      read = s.read;
      written = s.written;
    } };

    ghost invariant = { λ s. (length s.lines.held ≡ s.blocks) × (length s.lines.payloads ≡ s.blocks) };
}

impl StampLog {
    /// A log of so many blocks, at most 1,024, which holds nothing yet. All memory is taken here.
    pub fn new(alloc: Global, blocks: u32, key: Key) -> Result<StampLog, OutOfMemory>
        requires { blocks ≤ 1024 }
        ensures blocks { IfOk result (λ log. log.blocks ≡ blocks) }
        ensures key { IfOk result (λ log. log.key ≡ key) }
        ensures fresh { IfOk result IsNew }
    {
        Ok(StampLog {
            key,
            blocks,
            lines: Lines::new(alloc, blocks)?,
            read: MultisetSum::empty(),
            written: MultisetSum::empty(),
        })
    }

    /// Writes all blocks, in order, with zeros. The log is new, and the trace has no event at a place of the log and no mark
    /// of a check. Takes room for `blocks` events.
    pub fn start<O: OffChip>(&mut self, bus: &mut O, stamps: &mut Stamps)
        requires unused { IsNew self.old }
        requires has_room { self.old.blocks ≤ O.room bus.old }
        requires told { TellsLog self.old.blocks (O.layout bus.old) }
        requires clean { HasNoLog (history (O.trace bus.old)) }
        requires fits { StampsFit stamps.old (history (O.trace bus.old)) }
        ensures stands { StandsOn self.new (history (O.trace bus.new)) }
        ensures events { O.trace bus.new
            ≡ O.trace bus.old ++ zeros_written stamps.old self.old.blocks }
        ensures contents { (n : ℕ) → n < self.old.blocks
            → contents_of self.new (history (O.trace bus.new)) n ≡ Some zero_payload }
        ensures first { AreLastWrites self.old.blocks
            (open_writes (history (O.trace bus.new))) (history (O.trace bus.new)) }
        ensures fits { StampsFit stamps.new (history (O.trace bus.new)) }
        ensures room { O.room bus.old ≤ O.room bus.new + self.old.blocks }
        ensures same { O.same_memory bus.old bus.new }
        ensures total { length (O.trace bus.new) + O.room bus.new
            ≡ length (O.trace bus.old) + O.room bus.old }
        ensures blocks { self.new.blocks ≡ self.old.blocks }
        ensures lines { self.new.lines ≡ self.old.lines }
        ensures key { self.new.key ≡ self.old.key }
    {
        write_zeros(&self.key, self.blocks, &mut self.written, bus, stamps);
    }

    /// Sees to it that a block has a line. One that has none is read; before that, where there are `LOG_LINES` lines, the
    /// one that was used least recently is removed and written back. Takes room for two events.
    pub fn load<O: OffChip>(
        &mut self,
        bus: &mut O,
        stamps: &mut Stamps,
        block: u32,
    ) -> Result<(), Changed>
        requires below { block < self.old.blocks }
        requires has_room { 2 ≤ O.room bus.old }
        requires told { TellsLog self.old.blocks (O.layout bus.old) }
        requires stands { StandsOn self.old (history (O.trace bus.old)) }
        requires fits { StampsFit stamps.old (history (O.trace bus.old)) }
        ensures cached { is_some (line_of self.old.lines block) ≡ true
            → (O.trace bus.new ≡ O.trace bus.old) × IsOk result }
        ensures fetches { is_some (line_of self.old.lines block) ≡ false
            → Fetches self.old.blocks block result (O.trace bus.old) (O.trace bus.new)
            self.old.lines self.new.lines }
        ensures lines { is_some (line_of self.old.lines block) ≡ true
            → (n : ℕ) → line_of self.new.lines n ≡ line_of self.old.lines n }
        ensures kept { is_some (line_of self.old.lines block) ≡ true
            → KeepsContents self.old.lines self.new.lines
            (history (O.trace bus.old)) (history (O.trace bus.new)) }
        ensures contents { is_some (line_of self.old.lines block) ≡ false
            → OnOk result (ReadKeepsContents block self.old.lines self.new.lines
            (O.trace bus.old) (O.trace bus.new)) }
        ensures held { OnOk result (is_some (line_of self.new.lines block) ≡ true) }
        ensures stands { OnOk result (StandsOn self.new (history (O.trace bus.new))) }

        // Where it is an error, nothing is added: the sum of what was read is as before, and the block has no line.
        ensures nothing_added { OnErr result (self.new.read ≡ self.old.read) }
        ensures no_line { OnErr result (is_some (line_of self.new.lines block) ≡ false) }
        ensures fits { StampsFit stamps.new (history (O.trace bus.new)) }
        ensures room { O.room bus.old ≤ O.room bus.new + 2 }
        ensures same { O.same_memory bus.old bus.new }
        ensures total { length (O.trace bus.new) + O.room bus.new
            ≡ length (O.trace bus.old) + O.room bus.old }
        ensures blocks { self.new.blocks ≡ self.old.blocks }
        ensures key { self.new.key ≡ self.old.key }
    {
        if self.lines.has(block) {
            self.lines.touch(block);
            return Ok(());
        }
        make_room(&self.key, &mut self.lines, &mut self.written, bus, stamps);
        let mut read = Block {
            payload: [0; 64],
            stamp: 0,
        };
        match read_entry(&self.key, bus, stamps, block, &mut read) {
            Ok(value) => {
                self.read.add(value);
                self.lines.insert(block, &read.payload);
                Ok(())
            }
            Err(event) => Err(Changed { event }),
        }
    }

    /// The payload of a block that has a line.
    pub fn payload(&self, block: u32) -> &[u8; 64]
        requires below { block < self.now.blocks }
        requires cached { is_some (line_of self.now.lines block) ≡ true }
        ensures value { line_of self.now.lines block ≡ Some result.now }
        ensures contents { (older : History) → contents_of self.now older block ≡ Some result.now }
    {
        self.lines.payload(block)
    }

    /// Lends the payload of a block that has a line. What stands there when the loan ends is its payload from then on, and
    /// nothing else changes.
    pub fn payload_mut(&mut self, block: u32) -> &mut [u8; 64]
        requires below { block < self.old.blocks }
        requires cached { is_some (line_of self.old.lines block) ≡ true }
        ensures* writes_back { sem 𝓛 (Lends the_row (Array byte 64) self.entry result
            (with_line self.old block)) }
        ensures value { line_of self.old.lines block ≡ Some result.now }
    {
        self.lines.payload_mut(block)
    }

    /// Whether no block was read since the latest check that passed, or since the log was started.
    pub fn quiet(&self) -> bool
        ensures quiet { (older : History) → StandsOn self.now older → IsTrue result ↔ IsQuiet older }
    {
        self.read.count == 0
    }

    /// Checks all reads since the latest check that passed, or since the log was started: writes back all lines, reads all
    /// blocks, and compares the sums of what was read and of what was written. Takes room for `blocks + 34` events.
    pub fn check<O: OffChip>(&mut self, bus: &mut O, stamps: &mut Stamps) -> Result<(), LogCause>
        requires has_room { self.old.blocks + 34 ≤ O.room bus.old }
        requires told { TellsLog self.old.blocks (O.layout bus.old) }
        requires stands { StandsOn self.old (history (O.trace bus.old)) }
        requires fits { StampsFit stamps.old (history (O.trace bus.old)) }
        ensures stands { OnOk result (StandsOn self.new (history (O.trace bus.new))) }
        ensures faithful { OnOk result
            (PassedFaithful (value_under self.old.key) (O.trace bus.new)) }
        ensures cause { IfErr result (IsCause (value_under self.old.key) (O.trace bus.new)) }
        ensures events { RunsCheck (value_under self.old.key) self.old.blocks result
            (O.trace bus.old) (O.trace bus.new) self.old.lines self.new.lines }
        ensures most { length (O.trace bus.new)
            ≤ length (O.trace bus.old) + (self.old.blocks + 34) }
        ensures contents { KeepsContents self.old.lines self.new.lines
            (history (O.trace bus.old)) (history (O.trace bus.new)) }
        ensures fits { StampsFit stamps.new (history (O.trace bus.new)) }
        ensures room { O.room bus.old ≤ O.room bus.new + (self.old.blocks + 34) }
        ensures same { O.same_memory bus.old bus.new }
        ensures total { length (O.trace bus.new) + O.room bus.new
            ≡ length (O.trace bus.old) + O.room bus.old }
        ensures blocks { self.new.blocks ≡ self.old.blocks }
        ensures key { self.new.key ≡ self.old.key }
    {
        bus.note(Mark::CheckStart);
        write_all(&self.key, &mut self.lines, &mut self.written, bus, stamps);
        let mut next = MultisetSum::empty();
        if let Err(event) = read_all(
            &self.key,
            self.blocks,
            &mut self.read,
            &mut next,
            bus,
            stamps,
        ) {
            return Err(LogCause::Future { event });
        }
        if self.read != self.written {
            return Err(LogCause::Sums {
                read: self.read,
                written: self.written,
            });
        }
        bus.note(Mark::CheckPassed);
        self.written = next;
        self.read = MultisetSum::empty();
        Ok(())
    }
}

/// Writes all blocks, in order, with zeros.
fn write_zeros<O: OffChip>(
    key: &Key,
    blocks: u32,
    written: &mut MultisetSum,
    bus: &mut O,
    stamps: &mut Stamps,
)
    requires has_room { blocks ≤ O.room bus.old }
    requires told { TellsLog blocks (O.layout bus.old) }
    requires fits { StampsFit stamps.old (history (O.trace bus.old)) }
    requires starting { IsStarting blocks 0 (history (O.trace bus.old)) }
    requires sum { entry_sum written.old
        ≡ sum_of (value_under key.now) (open_writes (history (O.trace bus.old))) }
    ensures starting { IsStarting blocks blocks (history (O.trace bus.new)) }
    ensures events { O.trace bus.new ≡ O.trace bus.old ++ zeros_written stamps.old blocks }
    ensures room { O.room bus.old ≤ O.room bus.new + blocks }
    ensures fits { StampsFit stamps.new (history (O.trace bus.new)) }
    ensures sum { entry_sum written.new
        ≡ sum_of (value_under key.now) (open_writes (history (O.trace bus.new))) }
    ensures same { O.same_memory bus.old bus.new }
    ensures total { length (O.trace bus.new) + O.room bus.new
        ≡ length (O.trace bus.old) + O.room bus.old }
{
    'numbers: for number in 0..blocks {
        write_back(key, written, bus, stamps, number, &[0; 64]);
    }
}

/// Removes the line that was used least recently, and writes it back.
fn write_oldest<O: OffChip>(
    key: &Key,
    lines: &mut Lines,
    written: &mut MultisetSum,
    bus: &mut O,
    stamps: &mut Stamps,
)
    requires some { 0 < length lines.old.order }
    requires has_room { 0 < O.room bus.old }
    requires told { TellsLog (length lines.old.held) (O.layout bus.old) }
    requires fits { StampsFit stamps.old (history (O.trace bus.old)) }
    requires sum { entry_sum written.old
        ≡ sum_of (value_under key.now) (open_writes (history (O.trace bus.old))) }
    ensures order { length lines.new.order + 1 ≡ length lines.old.order }
    ensures held { length lines.new.held ≡ length lines.old.held }
    ensures payloads { lines.new.payloads ≡ lines.old.payloads }
    ensures last { length lines.new.order ≡ 0 → HoldsNothing lines.new }
    ensures room { O.room bus.old ≤ O.room bus.new + 1 }
    ensures makes { MakesRoom (length lines.old.held) (O.trace bus.old) (O.trace bus.new)
        lines.old lines.new }
    ensures fits { StampsFit stamps.new (history (O.trace bus.new)) }
    ensures sum { entry_sum written.new
        ≡ sum_of (value_under key.now) (open_writes (history (O.trace bus.new))) }
    ensures same { O.same_memory bus.old bus.new }
    ensures total { length (O.trace bus.new) + O.room bus.new
        ≡ length (O.trace bus.old) + O.room bus.old }
{
    if let Some(number) = lines.take_oldest() {
        write_back(key, written, bus, stamps, number, lines.payload(number));
    }
}

/// Sees to it that there is room for a line more: where there are `LOG_LINES` lines, the one that was used least recently
/// is removed and written back.
fn make_room<O: OffChip>(
    key: &Key,
    lines: &mut Lines,
    written: &mut MultisetSum,
    bus: &mut O,
    stamps: &mut Stamps,
)
    requires has_room { 0 < O.room bus.old }
    requires told { TellsLog (length lines.old.held) (O.layout bus.old) }
    requires fits { StampsFit stamps.old (history (O.trace bus.old)) }
    requires sum { entry_sum written.old
        ≡ sum_of (value_under key.now) (open_writes (history (O.trace bus.old))) }
    ensures order { length lines.new.order < 32 }
    ensures room { O.room bus.old ≤ O.room bus.new + 1 }
    ensures makes { MakesRoom (length lines.old.held) (O.trace bus.old) (O.trace bus.new)
        lines.old lines.new }
    ensures fits { StampsFit stamps.new (history (O.trace bus.new)) }
    ensures sum { entry_sum written.new
        ≡ sum_of (value_under key.now) (open_writes (history (O.trace bus.new))) }
    ensures same { O.same_memory bus.old bus.new }
    ensures total { length (O.trace bus.new) + O.room bus.new
        ≡ length (O.trace bus.old) + O.room bus.old }
{
    if lines.len() < LOG_LINES {
        return;
    }
    write_oldest(key, lines, written, bus, stamps);
}

/// Removes all lines, and writes each back.
fn write_all<O: OffChip>(
    key: &Key,
    lines: &mut Lines,
    written: &mut MultisetSum,
    bus: &mut O,
    stamps: &mut Stamps,
)
    requires has_room { 32 ≤ O.room bus.old }
    requires told { TellsLog (length lines.old.held) (O.layout bus.old) }
    requires fits { StampsFit stamps.old (history (O.trace bus.old)) }
    requires sum { entry_sum written.old
        ≡ sum_of (value_under key.now) (open_writes (history (O.trace bus.old))) }
    ensures nothing { HoldsNothing lines.new }
    ensures held { length lines.new.held ≡ length lines.old.held }
    ensures payloads { lines.new.payloads ≡ lines.old.payloads }
    ensures room { O.room bus.old ≤ O.room bus.new + 32 }
    ensures few { length (O.trace bus.new) ≤ length (O.trace bus.old) + 32 }
    ensures writes { WritesBack (length lines.old.held) (O.trace bus.old) (O.trace bus.new)
        lines.old lines.new }
    ensures fits { StampsFit stamps.new (history (O.trace bus.new)) }
    ensures sum { entry_sum written.new
        ≡ sum_of (value_under key.now) (open_writes (history (O.trace bus.new))) }
    ensures same { O.same_memory bus.old bus.new }
    ensures total { length (O.trace bus.new) + O.room bus.new
        ≡ length (O.trace bus.old) + O.room bus.old }
{
    'lines: for _ in 0..lines.len() {
        write_oldest(key, lines, written, bus, stamps);
    }
}

/// Reads all blocks in order, and adds their entries to two sums. Gives the number of the event, where a stamp is read
/// that is above the count of block writes.
fn read_all<O: OffChip>(
    key: &Key,
    blocks: u32,
    read: &mut MultisetSum,
    next: &mut MultisetSum,
    bus: &mut O,
    stamps: &Stamps,
) -> Result<(), u64>
    requires has_room { blocks ≤ O.room bus.old }
    requires told { TellsLog blocks (O.layout bus.old) }
    requires fits { StampsFit stamps.now (history (O.trace bus.old)) }
    requires read { entry_sum read.old
        ≡ sum_of (value_under key.now) (open_reads (history (O.trace bus.old))) }
    requires next { entry_sum next.old
        ≡ sum_of (value_under key.now) (check_reads (history (O.trace bus.old))) }
    requires reading { IsReading (value_under key.now) blocks 0
        (history (O.trace bus.old)) (history (O.trace bus.old)) }
    ensures future { IfErr result (FutureRead (O.trace bus.new)) }
    ensures order { OnOk result (ReadsInOrder blocks (O.trace bus.old) (O.trace bus.new)) }
    ensures stops { OnErr result (StopsReading blocks (O.trace bus.old) (O.trace bus.new)) }
    ensures room { O.room bus.old ≤ O.room bus.new + blocks }
    ensures fits { StampsFit stamps.now (history (O.trace bus.new)) }
    ensures read { OnOk result (entry_sum read.new
        ≡ sum_of (value_under key.now) (open_reads (history (O.trace bus.new)))) }
    ensures next { OnOk result (entry_sum next.new
        ≡ sum_of (value_under key.now) (check_reads (history (O.trace bus.new)))) }
    ensures reading { OnOk result (IsReading (value_under key.now) blocks blocks
        (history (O.trace bus.old)) (history (O.trace bus.new))) }
    ensures same { O.same_memory bus.old bus.new }
    ensures total { length (O.trace bus.new) + O.room bus.new
        ≡ length (O.trace bus.old) + O.room bus.old }
{
    'numbers: for number in 0..blocks {
        let mut block = Block {
            payload: [0; 64],
            stamp: 0,
        };
        match read_entry(key, bus, stamps, number, &mut block) {
            Ok(value) => {
                read.add(value);
                next.add(value);
            }
            Err(event) => return Err(event),
        }
    }
    Ok(())
}
