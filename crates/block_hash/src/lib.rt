//! Byte strings of blocks and of programs, their digests by SHA-1 (FIPS 180-4), the values of the log's entries, and
//! the keys of a run. The strings are this project's own.
#![tactic(auto)]

mod keys;
mod laws;
mod program;
mod strings;

pub use keys::keys_of;
pub use laws::{lengths, strings_tell_blocks, strings_tell_programs, tags_part};
pub use program::ProgramHasher;
pub use strings::{
    LOG_KEY_TAG, LOG_TAG, PAD_KEY_TAG, PROGRAM_TAG, TREE_TAG, block_digest, block_string,
    entry_value,
};
