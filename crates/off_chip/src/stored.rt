//! Where blocks and words stand in off-chip memory, and how. A number has its greatest byte first, as in the
//! OpenRISC 1000 architecture (manual, section 3.2, big-endian byte order).
ghost use Rattle.std.specs.Prelude.{◌≡◌, ◌+◌, ◌*◌, ◌≤◌, ◌<◌, ◌^◌, length};
ghost use Rattle.std.specs.Int.{w32, w64, to_be_bytes};
ghost use Rattle.regions.specs.declared.addresses.TheConstants.{STORED_BLOCK_BYTES};
ghost use Rattle.regions.specs.Tree.{tree_blocks};
ghost use Rattle.off_chip.specs.HonestMemory.{IsWhole};
ghost use Rattle.off_chip.specs.OffChipBytes.{HasPlace, bytes_at, bytes_put, size_of, start_in, static_block, static_blocks, static_place, stored};

use aegis_num::{Block, Place};
use regions::{BLOCK_BYTES, Layout, OPEN_END, STORED_BLOCK_BYTES, leaf};

const PAYLOAD_BYTES: usize = BLOCK_BYTES as usize;

const STAMP_BYTES: usize = STORED_BLOCK_BYTES - PAYLOAD_BYTES;

/// How many bytes a word has.
pub const WORD_BYTES: usize = 4;

/// How many blocks the tree of a layout has: each above the lowest level has three children, and the root is
/// nobody's child.
pub fn blocks_of_tree(layout: &Layout) -> u32
    ensures value { result ≡ tree_blocks layout.now }
    ensures limit { result ≤ 9841 }
{
    3 * leaf(layout, 0) + 1
}

/// Where the bytes of a place begin, in the memory of a layout whose tree has so many blocks: the open bytes
/// come first, then the blocks of the tree, then those of the log.
pub fn start_of(tree_blocks: u32, at: Place) -> usize
    ensures value { result ≡ start_in tree_blocks at }
{
    let block = match at {
        Place::Tree(n) => n as usize,
        Place::Log(n) => tree_blocks as usize + n as usize,
    };
    OPEN_END as usize + STORED_BLOCK_BYTES * block
}

/// How many bytes the memory of a layout has.
pub fn size_of(layout: &Layout) -> usize
    ensures value { result ≡ size_of layout.now }
{
    start_of(blocks_of_tree(layout), Place::Log(layout.log))
}

// The stamp that stands at `at`.
fn stamp_at(memory: &[u8], at: usize) -> u64
    requires { at + 8 ≤ length memory.now }
    ensures { to_be_bytes w64 result ≡ bytes_at at 8 memory.now }
{
    let mut stamp = [0; STAMP_BYTES];
    stamp.copy_from_slice(&memory[at..at + STAMP_BYTES]);
    u64::from_be_bytes(stamp)
}

// Puts a stamp over the one at `at`.
fn put_stamp(memory: &mut [u8], at: usize, stamp: u64)
    requires { at + 8 ≤ length memory.old }
    ensures bytes { memory.new ≡ bytes_put at (to_be_bytes w64 stamp) memory.old }
    ensures limit { stamp < 2 ^ 64 }
{
    memory[at..at + STAMP_BYTES].copy_from_slice(&stamp.to_be_bytes());
}

// Puts a payload over the one at `at`.
fn put_payload(memory: &mut [u8], at: usize, payload: &[u8; PAYLOAD_BYTES])
    requires { at + 64 ≤ length memory.old }
    ensures { memory.new ≡ bytes_put at payload.now memory.old }
{
    memory[at..at + PAYLOAD_BYTES].copy_from_slice(payload);
}

/// The block that stands at `start`.
pub(crate) fn block_at(memory: &[u8], start: usize) -> Block
    requires { start + STORED_BLOCK_BYTES ≤ length memory.now }
    ensures bytes { stored result ≡ bytes_at start STORED_BLOCK_BYTES memory.now }
    ensures whole { IsWhole result }
{
    let mut payload = [0; PAYLOAD_BYTES];
    payload.copy_from_slice(&memory[start..start + PAYLOAD_BYTES]);
    Block {
        payload,
        stamp: stamp_at(memory, start + PAYLOAD_BYTES),
    }
}

/// Puts a block over the one at `start`.
pub(crate) fn put_block(memory: &mut [u8], start: usize, block: &Block)
    requires { start + STORED_BLOCK_BYTES ≤ length memory.old }
    ensures bytes { memory.new ≡ bytes_put start (stored block.now) memory.old }
    ensures long { length (stored block.now) ≡ STORED_BLOCK_BYTES }
    ensures whole { IsWhole block.now }
{
    put_payload(memory, start, &block.payload);
    put_stamp(memory, start + PAYLOAD_BYTES, block.stamp);
}

/// The word that stands at an address.
pub(crate) fn word_at(memory: &[u8], at: usize) -> u32
    requires { at + 4 ≤ length memory.now }
    ensures { to_be_bytes w32 result ≡ bytes_at at 4 memory.now }
{
    let mut word = [0; WORD_BYTES];
    word.copy_from_slice(&memory[at..at + WORD_BYTES]);
    u32::from_be_bytes(word)
}

/// Puts a word over the one at an address.
pub(crate) fn put_word(memory: &mut [u8], at: usize, word: u32)
    requires { at + 4 ≤ length memory.old }
    ensures { memory.new ≡ bytes_put at (to_be_bytes w32 word) memory.old }
{
    memory[at..at + WORD_BYTES].copy_from_slice(&word.to_be_bytes());
}

/// The bytes of a block off chip.
pub fn bytes_of_block(block: &Block) -> [u8; STORED_BLOCK_BYTES]
    ensures value { result ≡ stored block.now }
{
    let mut bytes = [0; STORED_BLOCK_BYTES];
    put_block(&mut bytes, 0, block);
    bytes
}

/// The block that has these bytes off chip.
pub fn block_of_bytes(bytes: &[u8; STORED_BLOCK_BYTES]) -> Block
    ensures value { stored result ≡ bytes.now }
{
    block_at(bytes, 0)
}

/// The word that has these bytes off chip.
pub fn word_of_bytes(bytes: &[u8; WORD_BYTES]) -> u32
    ensures value { to_be_bytes w32 result ≡ bytes.now }
{
    word_at(bytes, 0)
}

/// The block of constants or code with this number, of those whose payloads stand one after another. Its
/// stamp is 0.
pub fn static_block(statics: &[u8], n: u32) -> Block
    requires { 64 * n + 64 ≤ length statics.now }
    ensures value { result ≡ static_block statics.now n }
{
    let start = PAYLOAD_BYTES * n as usize;
    let mut payload = [0; PAYLOAD_BYTES];
    payload.copy_from_slice(&statics[start..start + PAYLOAD_BYTES]);
    Block { payload, stamp: 0 }
}

/// The place of the static block with this number: the constant blocks come first, and then the code blocks.
pub fn static_place(layout: &Layout, n: u32) -> Place
    requires { n < static_blocks layout.now }
    ensures value { result ≡ static_place layout.now n }
    ensures inside { HasPlace layout.now result }
{
    Place::Tree(leaf(layout, layout.verified + layout.private + n))
}
