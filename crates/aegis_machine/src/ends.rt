//! How a run ends, and when it has fuel to go on.
ghost use Rattle.std.specs.Prelude.{ℕ, IsTrue, ◌↔◌};
ghost use Rattle.aegis_machine.specs.FuelTests.{HasFuel};

use orbis_core::Why;
use regions::Layout;
use stamp_log::LogCause;

/// How many events an instruction with all that belongs to it makes at most, but for two for each block of the log.
const WORST_EVENTS: u64 = 16_640;

/// How a run ends. Where a number of retired instructions is given, these are those of the secure program.
#[derive(Clone, Copy, Debug, PartialEq, Eq)]
pub enum End {
    /// The program ended.
    Ended,
    /// The program ended at an index out of range.
    Index {
        /// The place in the source.
        at: u32,
    },
    /// The program ended at a zero divisor.
    Divide {
        /// The place in the source.
        at: u32,
    },
    /// A block of the tree was changed off the chip.
    AbortTree {
        /// The number of the read that gave it, among the events, counted from 0.
        event: u64,
        /// How many instructions were done.
        retired: u64,
    },
    /// A check of the log did not pass, or a block of the log bears the stamp of a write that was not made.
    AbortLog {
        /// Why.
        cause: LogCause,
        /// How many instructions were done.
        retired: u64,
    },
    /// The program that was read at entering is not the one of the image.
    AbortProgram {
        /// The digest of the program that was read.
        read: [u8; 20],
        /// The digest of the program of the image.
        expected: [u8; 20],
    },
    /// There is no fuel for what may come next.
    FuelOut {
        /// How many instructions were done.
        retired: u64,
    },
    /// An instruction was refused.
    Refused {
        /// Why.
        why: Why,
        /// How many instructions were done.
        retired: u64,
    },
    /// The sink did not take a piece.
    WriteFault,
}

/// Whether there is fuel for entering, or for one more instruction with all that belongs to it, after so many events.
pub fn has_fuel(layout: &Layout, fuel: u64, events: u64) -> bool
    ensures { IsTrue result ↔ HasFuel layout.now fuel events }
{
    let layout = *layout;
    let worst = WORST_EVENTS + 2 * layout.log as u64;
    match fuel.checked_sub(events) {
        Some(left) => left >= worst,
        None => false,
    }
}
