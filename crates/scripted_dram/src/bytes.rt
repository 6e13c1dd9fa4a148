//! Blocks, words and other bytes in a region, as they stand off chip.
ghost use Rattle.std.specs.Prelude.{◌≡◌, ◌+◌, ◌≤◌, ◌<◌, ◌^◌, length};
ghost use Rattle.std.specs.Int.{w32, to_be_bytes};
ghost use Rattle.regions.specs.declared.addresses.TheConstants.{STORED_BLOCK_BYTES};
ghost use Rattle.off_chip.specs.OffChipBytes.{bytes_at, bytes_put, stored};

use aegis_num::Block;
use off_chip::{WORD_BYTES, block_of_bytes, bytes_of_block, word_of_bytes};
use raw_region::Region;
use regions::STORED_BLOCK_BYTES;

/// Puts bytes from a place on.
pub fn put_bytes(memory: &mut Region, at: usize, bytes: &[u8])
    requires within { at + length bytes.now ≤ length memory.old }
    requires limit { length memory.old < 2 ^ 64 }
    ensures { memory.new ≡ bytes_put at bytes.now memory.old }
{
    for i in 0..bytes.len() {
        memory.put(at + i, bytes[i]);
    }
}

/// All bytes of the block that stands at `start`.
pub fn whole_at(memory: &Region, start: usize) -> [u8; STORED_BLOCK_BYTES]
    requires { start + STORED_BLOCK_BYTES ≤ length memory.now }
    ensures { result ≡ bytes_at start STORED_BLOCK_BYTES memory.now }
{
    let mut bytes = [0; STORED_BLOCK_BYTES];
    memory.copy_out(start, &mut bytes);
    bytes
}

/// Puts all bytes of a block over those of the one at `start`.
pub fn put_whole(memory: &mut Region, start: usize, bytes: &[u8; STORED_BLOCK_BYTES])
    requires { start + STORED_BLOCK_BYTES ≤ length memory.old }
    ensures bytes { memory.new ≡ bytes_put start bytes.now memory.old }
    ensures size { length memory.new ≡ length memory.old }
{
    memory.copy_in(start, bytes);
}

/// The block that stands at `start`.
pub fn block_at(memory: &Region, start: usize) -> Block
    requires { start + STORED_BLOCK_BYTES ≤ length memory.now }
    ensures { stored result ≡ bytes_at start STORED_BLOCK_BYTES memory.now }
{
    block_of_bytes(&whole_at(memory, start))
}

/// Puts a block over the one at `start`.
pub fn put_block(memory: &mut Region, start: usize, block: &Block)
    requires { start + STORED_BLOCK_BYTES ≤ length memory.old }
    ensures bytes { memory.new ≡ bytes_put start (stored block.now) memory.old }
    ensures size { length memory.new ≡ length memory.old }
{
    put_whole(memory, start, &bytes_of_block(block));
}

/// The word that stands at an address.
pub fn word_at(memory: &Region, at: usize) -> u32
    requires { at + 4 ≤ length memory.now }
    ensures { to_be_bytes w32 result ≡ bytes_at at 4 memory.now }
{
    let mut bytes = [0; WORD_BYTES];
    memory.copy_out(at, &mut bytes);
    word_of_bytes(&bytes)
}

/// Puts a word over the one at an address.
pub fn put_word(memory: &mut Region, at: usize, word: u32)
    requires { at + 4 ≤ length memory.old }
    ensures bytes { memory.new ≡ bytes_put at (to_be_bytes w32 word) memory.old }
    ensures size { length memory.new ≡ length memory.old }
{
    memory.copy_in(at, &word.to_be_bytes());
}
