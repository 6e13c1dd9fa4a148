//! What a fetch pins.
ghost use Rattle.std.specs.Prelude.{◌≡◌, ◌≤◌, length};
ghost use Rattle.line_cache.specs.LineMaps.{HoldParents};
ghost use Rattle.secure_memory.specs.BlockWords.{IsPlaced};
ghost use Rattle.secure_memory.specs.MemoryAccesses.{pins_after};

use crate::memory::no_pins;
use hash_tree::pin_path;
use line_cache::Pins;
use regions::{BLOCK_BYTES, LOG_START, Layout, OPEN_END, TREE_START, height, leaf};

// The path of the data block of an address, and nothing where it lies in none.
pub(crate) fn pins_of(layout: &Layout, at: u32) -> Pins
    requires placed { IsPlaced layout.now at }
    ensures blocks { result.blocks.items ≡ pins_after layout.now at }
    ensures parents { HoldParents result.blocks.items }
    ensures few { length result.blocks.items ≤ 9 }
{
    let mut pins = no_pins();
    if OPEN_END <= at && at < LOG_START {
        let position = (at - TREE_START) / BLOCK_BYTES;
        pin_path(&mut pins, leaf(layout, position), height(layout));
    }
    pins
}
