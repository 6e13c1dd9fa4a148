//! How much memory a program has of each class.
ghost use Rattle.std.specs.Prelude.{◌+◌, ◌≤◌};
ghost use Rattle.regions.specs.declared.layout.TheConstants.{MAX_DATA_BLOCKS, MAX_LOG_BLOCKS, MAX_SHARED_BYTES};

/// The most data blocks that a layout may have: verified, private, constant and code blocks together.
pub const MAX_DATA_BLOCKS: u32 = 6_561;

/// The most log blocks that a layout may have.
pub const MAX_LOG_BLOCKS: u32 = 1_024;

/// The most bytes that the shared variables of a layout may take.
pub const MAX_SHARED_BYTES: u32 = 32_768;

/// How many blocks of 64 bytes a program has of each class, and how many bytes its shared variables take.
/// The data blocks lie under the hash tree, in the order of the first four fields: together at most 6,561.
/// There are at most 1,024 log blocks and 32,768 shared bytes. Who makes a layout proves the three limits,
/// and who is given one can rely on them.
#[derive(Clone, Copy, Debug, PartialEq, Eq)]
pub struct Layout {
    /// Blocks whose contents are verified.
    pub verified: u32,
    /// Blocks whose contents are verified and encrypted.
    pub private: u32,
    /// Blocks of constants.
    pub constants: u32,
    /// Blocks of instructions.
    pub code: u32,
    /// Blocks that the log checks.
    pub log: u32,
    /// Bytes of shared variables, which are not protected.
    pub shared: u32,
    pub ghost data_fits: { verified + private + constants + code ≤ MAX_DATA_BLOCKS },
    pub ghost log_fits: { log ≤ MAX_LOG_BLOCKS },
    pub ghost shared_fits: { shared ≤ MAX_SHARED_BYTES },
}
