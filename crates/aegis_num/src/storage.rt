//! What off-chip memory holds, and the keys that protect it.

/// A block of off-chip memory, by the structure that it belongs to and its number there.
#[derive(Clone, Copy, Debug, PartialEq, Eq)]
pub enum Place {
    /// A block of the hash tree, numbered level by level from the root, which is 0.
    Tree(u32),
    /// A block of the log, numbered from 0.
    Log(u32),
}

/// A block as it stands off chip: 64 payload bytes and the stamp of the write that put it there.
#[derive(Clone, Copy, Debug, PartialEq, Eq)]
pub struct Block {
    /// The bytes as they stand on the bus.
    pub payload: [u8; 64],
    /// The number of the write among all block writes of the run, counted from 1.
    pub stamp: u64,
}

/// A key of 128 bits.
#[derive(Clone, Copy, PartialEq, Eq)]
pub struct Key(pub [u8; 16]);

/// The keys of one run.
#[derive(Clone, Copy, PartialEq, Eq)]
pub struct Keys {
    /// Encrypts the pads of private blocks.
    pub pad: Key,
    /// Keys the hashes of log entries.
    pub log: Key,
}
