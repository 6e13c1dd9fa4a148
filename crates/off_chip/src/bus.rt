//! The bus to off-chip memory, after the untrusted memory of Suh et al., "AEGIS: Architecture for
//! Tamper-Evident and Tamper-Resistant Processing", ICS 2003. The events and the marks are this project's own.
ghost use Rattle.std.specs.Prelude.{◌≡◌, ℕ, ◌+◌, ◌<◌, ◌^◌, List, length, Option};
ghost use Rattle.regions.specs.declared.layout.Layout.{Layout};
ghost use Rattle.off_chip.specs.declared.event.Event.{Event as SomeEvent};
ghost use Rattle.off_chip.specs.declared.event.Event.TheVariants.{BlockRead, BlockWrite, WordRead, WordWrite, Note};
ghost use Rattle.off_chip.specs.OffChipBytes.{IsWordAddress};
ghost use Rattle.off_chip.specs.BusCalls.{AppendsOne, IsInside, IsMarkInside, HoldsTold};

use crate::event::{Mark, Who};
use aegis_num::{Block, Place};

/// Off-chip memory at a bus, with the trace of all events since it was made.
///
/// Nothing is promised of what a read gives: the memory is not trusted.
/// No call takes memory, and none is refused: for each event there has to be room.
pub trait OffChip {
    /// The events since it was made, oldest first.
    ghost trace: { Self → List SomeEvent };

    /// How many further events there is room for.
    ghost room: { Self → ℕ };

    /// The layout whose blocks it has, where it tells one.
    ghost layout: { Self → Option Layout };

    /// The bytes that the next read is answered by, where it tells them.
    ghost contents: { Self → Option (List ℕ) };

    /// The two are states of the same memory.
    ghost same_memory: { Self → Self → Type 0 };

    /// How many further events there is room for. Together with those of the trace they are below 2^64.
    fn room(&self) -> u64
        ensures value { result ≡ room self.now }
        ensures limit { length (trace self.now) + room self.now < 2 ^ 64 };

    /// How many events the trace has. Together with those that there is room for they are below 2^64.
    fn events(&self) -> u64
        ensures value { result ≡ length (trace self.now) }
        ensures limit { length (trace self.now) + room self.now < 2 ^ 64 };

    /// Reads a block: what the read gives is put into `into`, and noted.
    fn read_block(&mut self, at: Place, into: &mut Block)
        requires has_room { 0 < room self.old }
        requires inside { IsInside (layout self.old) at }
        ensures event { AppendsOne (BlockRead at into.new)
            (trace self.old) (room self.old) (trace self.new) (room self.new) }
        ensures told { HoldsTold (layout self.old) (contents self.old) (BlockRead at into.new) }
        ensures same { same_memory self.old self.new };

    /// Writes a block.
    fn write_block(&mut self, at: Place, block: &Block)
        requires has_room { 0 < room self.old }
        requires inside { IsInside (layout self.old) at }
        ensures event { AppendsOne (BlockWrite at block.now)
            (trace self.old) (room self.old) (trace self.new) (room self.new) }
        ensures same { same_memory self.old self.new };

    /// Reads the open word at an address that is divisible by four.
    fn read_word(&mut self, by: Who, at: u32) -> u32
        requires has_room { 0 < room self.old }
        requires word { IsWordAddress at }
        ensures event { AppendsOne (WordRead by at result)
            (trace self.old) (room self.old) (trace self.new) (room self.new) }
        ensures told { HoldsTold (layout self.old) (contents self.old) (WordRead by at result) }
        ensures same { same_memory self.old self.new };

    /// Writes the open word at an address that is divisible by four.
    fn write_word(&mut self, by: Who, at: u32, word: u32)
        requires has_room { 0 < room self.old }
        requires word { IsWordAddress at }
        ensures event { AppendsOne (WordWrite by at word)
            (trace self.old) (room self.old) (trace self.new) (room self.new) }
        ensures same { same_memory self.old self.new };

    /// Notes a mark. Nothing goes over the bus.
    fn note(&mut self, mark: Mark)
        requires has_room { 0 < room self.old }
        requires inside { IsMarkInside (layout self.old) mark }
        ensures event { AppendsOne (Note mark)
            (trace self.old) (room self.old) (trace self.new) (room self.new) }
        ensures same { same_memory self.old self.new };

    /// Each memory is the same as itself.
    ghost reflexive: { (a : Self) → same_memory a a };

    /// What is the same as the same memory is the same.
    ghost transitive: { (a b c : Self) → same_memory a b → same_memory b c → same_memory a c };

    /// States of one memory tell one layout.
    ghost same_layout: { (a b : Self) → same_memory a b → layout a ≡ layout b };
}
