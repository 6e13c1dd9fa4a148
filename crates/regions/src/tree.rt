//! The tree over the data blocks, after the cached hash tree of Suh et al., "AEGIS: Architecture for
//! Tamper-Evident and Tamper-Resistant Processing", ICS 2003. Each node has three children. The blocks of the
//! tree are numbered level by level from the root, which is 0; the lowest level has the data blocks.
ghost use Rattle.std.specs.Prelude.{◌≡◌, ◌<◌};
ghost use Rattle.regions.specs.Blocks.{data_blocks};
ghost use Rattle.regions.specs.Tree.{IsHeight, ancestor_of, fan_of, height_of, leaf_of, max_height_of, positions_of, tree_blocks};

use crate::layout::Layout;

/// How many children a node has.
const FAN: u32 = 3;

/// The height of the tree, from 1 to 8: the least such number with at least as many positions in the lowest
/// level, 3 to its power, as there are data blocks.
pub fn height(layout: &Layout) -> u32
    ensures value { result ≡ height_of layout.now }
    ensures least { IsHeight (fan_of layout.now) (max_height_of layout.now) (data_blocks layout.now) result }
{
    let blocks = layout.verified + layout.private + layout.constants + layout.code;
    let mut height = 1;
    let mut positions = FAN;
    while positions < blocks {
        height += 1;
        positions *= FAN;
    }
    height
}

/// The number of the tree block at a position in the lowest level, which is below 3 to the power of the height.
/// Data block d has position d, and the positions after those of the data blocks are unused.
pub fn leaf(layout: &Layout, position: u32) -> u32
    requires { position < positions_of layout.now }
    ensures value { result ≡ leaf_of layout.now position }

    // It is a block of the tree, as many steps below the root as the tree is high.
    ensures inside { result < tree_blocks layout.now }
    ensures below_root { ancestor_of layout.now (height_of layout.now) result ≡ 0 }
{
    (FAN.pow(height(layout)) - 1) / (FAN - 1) + position
}
