//! Laws of a secure memory: these functions do nothing but state them.
ghost use Rattle.secure_memory.specs.IdealAccesses.{AccessesAreIdeal};
ghost use Rattle.secure_memory.specs.OutsideEvents.{OutsideEventsKeep};
ghost use Rattle.secure_memory.specs.PrivateWrites.{PrivateWritesArePadded};

use line_cache::Lines;

/// An event at no place of a block, which is no mark of a check, keeps a memory standing.
pub fn outside_events_keep<L: Lines>()
    ensures law { OutsideEventsKeep L }
{}

/// Where each read so far gave the last write-back, an access in TE or in PTR that is not stopped by the tree or the log does
/// what it does to the memory of the ideal machine that has the contents of the blocks, with the same answer.
pub fn accesses_are_ideal<L: Lines>()
    ensures law { AccessesAreIdeal L }
{}

/// Each access writes private blocks with their pads: the payload that the line has, with the pad of the block's number and of the
/// write's stamp added.
pub fn private_writes_are_padded<L: Lines>()
    ensures law { PrivateWritesArePadded L }
{}
