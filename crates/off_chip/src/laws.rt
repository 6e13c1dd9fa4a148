//! Laws of what is said of a trace. Most definitions go back over the history; where the subject's own sentence goes over the trace
//! in order, it is defined too, and these functions do nothing but state that the two say the same.
ghost use Rattle.std.specs.Prelude.{◌≡◌};
ghost use Rattle.off_chip.specs.BusCalls.{ToldLayouts};
ghost use Rattle.off_chip.specs.PlainValues.{Plain};
ghost use Rattle.off_chip.specs.Histories.{HistoriesInOrder};
ghost use Rattle.off_chip.specs.Boundaries.{BoundariesInOrder, StretchesAreOne};
ghost use Rattle.off_chip.specs.WriteBacks.{WritesInOrder};
ghost use Rattle.off_chip.specs.FaithfulReads.{FaithfulInOrder};
ghost use Rattle.off_chip.specs.BlockPlaces.{StaticsInPlace};
ghost use Rattle.off_chip.specs.Residency.{ResidencyInOrder};
ghost use Rattle.off_chip.specs.ExpectedDigests.{DigestsInOrder};
ghost use Rattle.off_chip.specs.Epochs.{EpochsInOrder};
ghost use Rattle.off_chip.specs.OneEventMore.{OneEventMore};
ghost use Rattle.off_chip.specs.HonestMemory.{PlainIsHonest};
ghost use Rattle.off_chip.specs.Collisions.{CollisionsNameTwo};

use crate::bus::OffChip;
use crate::plain::PlainDram;

/// What holds at each event and at some points, and the last part of a trace that is cut.
pub fn histories_in_order()
    ensures same { HistoriesInOrder }
{}

/// The boundaries of a trace, and the steps between them.
pub fn boundaries_in_order()
    ensures same { BoundariesInOrder }
{}

/// The last write-back of a place, and stamps that count the block writes from 1.
pub fn writes_in_order()
    ensures same { WritesInOrder }
{}

/// Faithful block reads, those of the tree and those of the log, and the longest first part of a trace in which all are faithful.
pub fn faithful_in_order()
    ensures same { FaithfulInOrder }
{}

/// The constant blocks and the code blocks of an image, at their places.
pub fn statics_in_place()
    ensures same { StaticsInPlace }
{}

/// The blocks that the processor holds.
pub fn residency_in_order()
    ensures same { ResidencyInOrder }
{}

/// The digest that a block of the tree must have.
pub fn digests_in_order()
    ensures same { DigestsInOrder }
{}

/// The reads and the writes of the log, from one passed check to the next.
pub fn epochs_in_order()
    ensures same { EpochsInOrder }
{}

/// What one more event changes.
pub fn one_event_more()
    ensures changes { OneEventMore }
{}

/// A memory that answers each read with its last write, or with what it began with, is honest.
pub fn plain_is_honest()
    ensures law { PlainIsHonest }
{}

/// What a layout that a bus tells gives to a tree and to a log.
pub fn told_layouts()
    ensures law { ToldLayouts }
{}

/// Two states of one plain memory have the same layout and began with the same static blocks.
pub fn same_plain_memory()
    ensures layout { (a b : Plain) → ⟦<PlainDram as OffChip>⟧.same_memory a b → a.layout ≡ b.layout }
    ensures statics { (a b : Plain) → ⟦<PlainDram as OffChip>⟧.same_memory a b → a.statics ≡ b.statics }
    ensures holds { (a b : Plain) → a.layout ≡ b.layout → a.statics ≡ b.statics
        → ⟦<PlainDram as OffChip>⟧.same_memory a b }
{}

/// A digest collision names two events, and lists that are the same multiset have one sum.
pub fn collisions_name_two()
    ensures law { CollisionsNameTwo }
{}

/// The events between a suspension and its end.
pub fn stretches_are_one()
    ensures law { StretchesAreOne }
{}
