//! The strings of blocks, and what is made of their digests.
ghost use Rattle.std.specs.Prelude.{◌≡◌, ◌+◌, ◌++◌, ◌≤◌, length, take};
ghost use Rattle.block_hash.specs.BlockStrings.{block_string, block_digest, entry_value};

use aegis_num::{Block, Key};
use sha1::Sha1;

/// The first byte of the string of a tree block.
pub const TREE_TAG: u8 = 0x00;

/// The first byte of the string of a log block.
pub const LOG_TAG: u8 = 0x01;

/// The first byte of the string of a program.
pub const PROGRAM_TAG: u8 = 0x02;

/// The first byte of what the key of the pads is made of.
pub const PAD_KEY_TAG: u8 = 0x50;

/// The first byte of what the key of the log is made of.
pub const LOG_KEY_TAG: u8 = 0x4c;

// Puts bytes after the first ones, of which there are so many.
fn put_after(string: &mut [u8], at: usize, bytes: &[u8])
    requires { at + length bytes.now ≤ length string.old }
    ensures { take (at + length bytes.now) string.new ≡ take at string.old ++ bytes.now }
{
    string[at..at + bytes.len()].copy_from_slice(bytes);
}

/// The string of a block: the tag, its number, its stamp and its payload, numbers with their greatest byte first.
pub fn block_string(tag: u8, number: u32, b: &Block) -> [u8; 77]
    ensures value { result ≡ block_string tag number b.now }
{
    let mut string = [tag; 77];
    put_after(&mut string, 1, &number.to_be_bytes());
    put_after(&mut string, 5, &b.stamp.to_be_bytes());
    put_after(&mut string, 13, &b.payload);
    string
}

/// The digest of a tree block, with its payload as it stands on the bus.
pub fn block_digest(number: u32, b: &Block) -> [u8; 20]
    ensures value { result ≡ block_digest number b.now }
{
    Sha1::digest(&block_string(TREE_TAG, number, b))
}

/// The first 16 bytes of a digest.
pub(crate) fn first_of(digest: &[u8; 20]) -> [u8; 16]
    ensures { result ≡ take 16 digest.now }
{
    let mut first = [0; 16];
    first.copy_from_slice(&digest[..16]);
    first
}

/// The value of an entry of the log, below 2^128.
pub fn entry_value(key: &Key, number: u32, b: &Block) -> u128
    ensures value { result ≡ entry_value key.now number b.now }
{
    let mut hasher = Sha1::new();
    hasher.update(&key.0);
    hasher.update(&block_string(LOG_TAG, number, b));
    u128::from_be_bytes(first_of(&hasher.finalize()))
}
