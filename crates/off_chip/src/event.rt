//! What happens at the edge of the chip.
use aegis_num::{Block, Place};

/// Whose access or instruction it is.
#[derive(Clone, Copy, Debug, PartialEq, Eq)]
pub enum Who {
    /// The secure program's.
    Secure,
    /// That of untrusted code.
    Untrusted,
}

/// What the processor notes of its own state. Nothing goes over the bus.
#[derive(Clone, Copy, Debug, PartialEq, Eq)]
pub enum Mark {
    /// The program was entered.
    Enter,
    /// An instruction was done.
    Retire(Who),
    /// The block left the cache without a write.
    Drop(Place),
    /// A check of the log began.
    CheckStart,
    /// A check of the log found that each read was what had been written last.
    CheckPassed,
    /// So many bytes were sent to the output, in one piece.
    Sent(u16),
    /// The program was suspended, and untrusted code runs.
    Suspend,
    /// The program goes on.
    Resume,
}

/// An event: what went over the bus, or a mark.
#[derive(Clone, Copy, Debug, PartialEq, Eq)]
pub enum Event {
    /// A block was read.
    BlockRead {
        /// Where it stands off chip.
        at: Place,
        /// What the read gave.
        block: Block,
    },
    /// A block was written.
    BlockWrite {
        /// Where it stands off chip.
        at: Place,
        /// What was written.
        block: Block,
    },
    /// An open word was read.
    WordRead {
        /// Who read it.
        by: Who,
        /// The address of its first byte, divisible by four.
        at: u32,
        /// What the read gave.
        word: u32,
    },
    /// An open word was written.
    WordWrite {
        /// Who wrote it.
        by: Who,
        /// The address of its first byte, divisible by four.
        at: u32,
        /// What was written.
        word: u32,
    },
    /// Nothing went over the bus.
    Note(Mark),
}
