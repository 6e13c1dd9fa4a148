//! Laws of the trace of a secure memory: these functions do nothing but state them.
ghost use Rattle.memory_trace.specs.CleanEpochs.{AccessesEndNoEpoch, EndedAreFaithful};
ghost use Rattle.memory_trace.specs.CleanPrograms.{ProgramsAreFaithful};
ghost use Rattle.memory_trace.specs.EnteredTraces.{EnteringIsSound};
ghost use Rattle.memory_trace.specs.HeldPaths.{AccessesHoldPaths};
ghost use Rattle.memory_trace.specs.KeptTraces.{AccessesKeepSound, OthersKeepSound};
ghost use Rattle.memory_trace.specs.ResidentLines.{AccessesKeepLines, FewAreResident};
ghost use Rattle.memory_trace.specs.ResidentLines.{OthersKeepLines};
ghost use Rattle.memory_trace.specs.TracedEvents.{TracedInOrder};

use line_cache::Lines;

/// Expected digests, faithful reads and named places from an event number on, in order.
pub fn traced_in_order()
    ensures same { TracedInOrder }
{}

/// Entering makes a sound trace, on which no block has a line or is resident.
pub fn entering_is_sound<L: Lines>()
    ensures law { EnteringIsSound L }
{}

/// Each access keeps a trace sound, whatever the bus answers: each tree read has the expected
/// digest, each is faithful where no two blocks collide, and each block is one of the layout.
/// Where the tree stops it, the last read has another digest than the expected one.
pub fn accesses_keep_sound<L: Lines>()
    ensures law { AccessesKeepSound L }
{}

/// So does a check of the log, and an event at no place of a block.
pub fn others_keep_sound()
    ensures law { OthersKeepSound }
{}

/// After each access that is done or refused each block has a line exactly where it is resident.
pub fn accesses_keep_lines<L: Lines>()
    ensures law { AccessesKeepLines L }
{}

/// So it is after a check of the log, and after an event at no place of a block.
pub fn others_keep_lines()
    ensures law { OthersKeepLines }
{}

/// At most as many places are resident as the cache of the tree and the log have lines.
pub fn few_are_resident<L: Lines>()
    ensures law { FewAreResident L }
{}

/// After a fetch the path of the block that it fetched from is resident. It stays so while a
/// data access is done, after which the path of the accessed block, or the accessed log block,
/// is resident too.
pub fn accesses_hold_paths<L: Lines>()
    ensures law { AccessesHoldPaths L }
{}

/// Where no two multisets of one sum were compared, each epoch of the log that has ended is
/// faithful.
pub fn ended_are_faithful<L: Lines>()
    ensures law { EndedAreFaithful L }
{}

/// An access ends no epoch of the log.
pub fn accesses_end_no_epoch<L: Lines>()
    ensures law { AccessesEndNoEpoch L }
{}

/// Where the program that was read at entering has the digest of the image's and the two do not
/// collide, each block that was read is the image's.
pub fn programs_are_faithful<L: Lines>()
    ensures law { ProgramsAreFaithful L }
{}
