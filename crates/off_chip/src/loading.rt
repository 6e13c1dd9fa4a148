//! What off-chip memory begins with.
ghost use Rattle.std.specs.Prelude.{◌≡◌, ◌*◌, length, IfOk};
ghost use Rattle.off_chip.specs.OffChipBytes.{bytes_loaded, bytes_loaded_over, size_of, static_blocks, with_statics};

use crate::stored::{
    blocks_of_tree, put_block, put_word, size_of, start_of, static_block, static_place,
};
use aegis_num::OutOfMemory;
use regions::{Layout, UNTRUSTED_START};
use std::alloc::Global;

/// The word that stands where untrusted code starts: the instruction that resumes the program.
pub const RESUME_WORD: u32 = 0x7000_0003;

// Puts the static blocks at their places.
fn put_statics(memory: &mut [u8], layout: &Layout, statics: &[u8])
    requires memory { length memory.old ≡ size_of layout.now }
    requires statics { length statics.now ≡ 64 * static_blocks layout.now }
    ensures { memory.new ≡ with_statics layout.now statics.now (static_blocks layout.now) memory.old }
{
    let tree_blocks = blocks_of_tree(layout);
    for n in 0..layout.constants + layout.code {
        let start = start_of(tree_blocks, static_place(layout, n));
        put_block(memory, start, &static_block(statics, n));
    }
}

// Puts all that a memory begins with, but for its zeros.
fn put_all(memory: &mut [u8], layout: &Layout, statics: &[u8])
    requires memory { length memory.old ≡ size_of layout.now }
    requires statics { length statics.now ≡ 64 * static_blocks layout.now }
    ensures { memory.new ≡ bytes_loaded_over layout.now statics.now memory.old }
{
    put_statics(memory, layout, statics);
    put_word(memory, UNTRUSTED_START as usize, RESUME_WORD);
}

/// The bytes that a memory begins with: zeros, the static blocks at their places with stamp 0, and
/// `RESUME_WORD` where untrusted code starts. That memory ran out is the one error.
pub fn load(alloc: Global, layout: &Layout, statics: &[u8]) -> Result<Vec<u8>, OutOfMemory>
    requires statics { length statics.now ≡ 64 * static_blocks layout.now }
    ensures bytes { IfOk result (λ memory. memory.items ≡ bytes_loaded layout.now statics.now) }
    ensures size { IfOk result (λ memory. length memory.items ≡ size_of layout.now) }
{
    let mut memory = vec![in alloc; 0; size_of(layout)]?;
    put_all(&mut memory, layout, statics);
    Ok(memory)
}
