//! A change of off-chip memory, and when it is made.
use crate::bytes::Bytes;
use aegis_num::limits::SAVE_SLOTS;
use regions::{OPEN_END, STORED_BLOCK_BYTES};

/// When a change is made.
#[derive(Clone, Copy, Debug, PartialEq, Eq)]
pub enum When {
    /// Before the first event.
    Start,
    /// Before the first event that comes when there were at least so many.
    At(u32),
    /// At the suspension of this number, counted from 0.
    Suspend(u32),
}

/// A block of off-chip memory. It may be outside the layout.
#[derive(Clone, Copy, Debug, PartialEq, Eq)]
pub enum Target {
    /// A block of data.
    Data(u32),
    /// A block of the hash tree of any level, by its number in the tree.
    Node(u32),
    /// A block of code, counted from 0.
    Text(u32),
    /// A block of the log.
    Log(u32),
}

/// What a change does.
#[derive(Debug, PartialEq, Eq, Drop)]
pub enum What {
    /// Writes open bytes from this address on.
    Open {
        /// The address of the first byte.
        at: u32,
        /// The bytes.
        bytes: Bytes,
    },
    /// Writes bytes of a block: 0 to 63 are its payload, 64 to 71 its stamp.
    Bytes {
        /// The block.
        target: Target,
        /// The place of the first byte in the block.
        at: u32,
        /// The bytes.
        bytes: Bytes,
    },
    /// Keeps a block's bytes in a slot.
    Save {
        /// The number of the slot, counted from 0.
        slot: u32,
        /// The block.
        target: Target,
    },
    /// Puts a slot's bytes over a block.
    Back {
        /// The number of the slot, counted from 0.
        slot: u32,
        /// The block.
        target: Target,
    },
    /// Puts the first block's bytes over the second.
    Copy {
        /// The block that is read.
        from: Target,
        /// The block that is written.
        to: Target,
    },
}

/// A change, and when it is made.
#[derive(Debug, PartialEq, Eq, Drop)]
pub struct Change {
    /// When it is made.
    pub when: When,
    /// What it does.
    pub what: What,
}

impl What {
    ghost use Rattle.std.specs.Prelude.{◌≡◌};
    ghost use Rattle.adversary_script.specs.ScriptRules.{is_in_range, bytes_written};

    /// Whether its bytes stay among the open ones or in their block, and its slot is one of those that there are.
    pub fn is_in_range(&self) -> bool
        ensures { result ≡ is_in_range self.now }
    {
        match self {
            What::Open { at, bytes } => {
                *at as usize + bytes.as_slice().len() <= OPEN_END as usize
            }
            What::Bytes { at, bytes, .. } => {
                *at as usize + bytes.as_slice().len() <= STORED_BLOCK_BYTES
            }
            What::Save { slot, .. } | What::Back { slot, .. } => *slot < SAVE_SLOTS,
            What::Copy { .. } => true,
        }
    }

    /// How many bytes it writes of those that the script gives.
    pub fn bytes_written(&self) -> usize
        ensures { result ≡ bytes_written self.now }
    {
        match self {
            What::Open { bytes, .. } | What::Bytes { bytes, .. } => bytes.as_slice().len(),
            What::Save { .. } | What::Back { .. } | What::Copy { .. } => 0,
        }
    }
}
