//! Laws of the contents of a secure memory: these functions do nothing but state them.
ghost use Rattle.std.specs.Prelude.{ℕ};
ghost use Rattle.faithful_memory.specs.AskedOnBus.{AskingMeetsBus, ContentsAreAsked, DataContentsAreAsked};
ghost use Rattle.faithful_memory.specs.BetweenAccesses.{ChecksReadContents, OutsideEventsKeepContents};
ghost use Rattle.faithful_memory.specs.ContentsAtHome.{ContentsStayHome};
ghost use Rattle.faithful_memory.specs.DataContents.{AccessesReadData, AllHoldsData, TreeReadsAsWritten};
ghost use Rattle.faithful_memory.specs.EnteredContents.{AllMakesTreeFaithful, EnteringGivesStatics};
ghost use Rattle.faithful_memory.specs.ReadContents.{AccessesReadContents, ContentsAreWords, GivenWordsStay, ReadsJoin};
ghost use Rattle.faithful_memory.specs.StatesAlike.{StepsGoAlike};
ghost use Rattle.faithful_memory.specs.StepsSettle.{StepsSettle, StopsAreUnwritten};

use line_cache::Lines;

/// Reads that give the words of a memory leave these words as they are.
pub fn given_words_stay()
    ensures law { GivenWordsStay }
{}

/// Contents are words, at the addresses of words.
pub fn contents_are_words<L: Lines>()
    ensures law { ContentsAreWords L }

    // After reads that give the contents, so does each memory that took what was read.
    ensures joined { ReadsJoin L }
{}

/// Where each block that was read is as it was written, the reads of an access give what the blocks contain, and the access
/// changes the contents as it changes a memory of plain words.
pub fn accesses_read_contents<L: Lines>()
    ensures law { AccessesReadContents L }
{}

/// A check reads what the blocks of the log contain, where each block that was read is as it was written, and leaves all
/// contents as they are.
pub fn checks_read_contents<L: Lines>()
    ensures law { ChecksReadContents L }
{}

/// Events at no place of a block leave all contents as they are.
pub fn outside_events_keep_contents<L: Lines>()
    ensures law { OutsideEventsKeepContents L }
{}

/// Reads of the tree that are as they were written, whatever was read of the log.
pub fn tree_reads_as_written()
    ensures law { TreeReadsAsWritten }
{}

/// Where each tree block that was read is as it was written, the reads of an access give what the data blocks contain, and the
/// access changes what they contain as it changes a memory of plain words.
pub fn accesses_read_data<L: Lines>()
    ensures law { AccessesReadData L }

    // A memory that has the contents of all blocks has those of the data blocks.
    ensures holds { AllHoldsData L }
{}

/// The ideal machine does the same on two memories that have the same words.
pub fn steps_go_alike()
    ensures law { StepsGoAlike }
{}

/// A memory over a bus, and what is asked of the plain memories that its lines agree with.
pub trait Asks {
    ghost use Rattle.orbis_core.specs.Accesses.{Accesses};
    ghost use Rattle.bus_machine.specs.BusAccesses.{Sight};

    /// The memory, and what its calls do.
    ghost Lines: { Type 0 };

    ghost calls: { Accesses Lines };

    /// How it is seen.
    ghost sight: { Sight Lines };

    /// What holds after each call.
    ghost Holds: { Lines → Type 0 };

    /// What is asked.
    ghost Asked: { Lines → (ℕ → ℕ) → Type 0 };
}

/// Accesses in the form of a bus, after which something holds, keep to it in a sight that asks for more, if they keep what is
/// asked.
pub fn asking_meets_bus<C: Asks>()
    ensures law { AskingMeetsBus C.sight C.calls C.Holds C.Asked }
{}

/// The contents of a secure memory can be asked for.
pub fn contents_are_asked<L: Lines>()
    // All contents, where each block that was read is as it was written.
    ensures all { ContentsAreAsked L }

    // Those of the data blocks, where each tree block that was read is.
    ensures data_blocks { DataContentsAreAsked L }
{}

/// Where each read of the tree was faithful to the image, a memory that was entered contains the words that the ideal machine
/// begins with: the static blocks, and zeros elsewhere.
pub fn entering_gives_statics<L: Lines>()
    ensures law { EnteringGivesStatics L }

    // Each read of the tree is faithful where all reads are.
    ensures all { AllMakesTreeFaithful }
{}

/// Where each block that was read is as it was written, the blocks that are not resident are at home: their last write-backs are
/// what they contain, and nodes hold the digests of their children's last write-backs.
pub fn contents_stay_home<L: Lines>()
    ensures law { ContentsStayHome L }
{}

/// No step is stopped by the tree or by the log where each block that was read is as it was written.
pub fn steps_settle<L: Lines>()
    ensures law { StepsSettle L }

    // What is known of an access that is stopped.
    ensures stops { StopsAreUnwritten L }
{}
