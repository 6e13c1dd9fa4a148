//! Laws of the tree over the data blocks, for trees whose nodes have any number of children of at least 2.
ghost use Rattle.regions.specs.Tree.{HeightIsLeast, HeightsAreOne, LevelsAreApart, ParentsAreAbove, RootIsAbove};

/// The tree, by the number of children of a node.
pub fn tree_laws()
    // The height is the least number of levels with a position for each block, and there is one such number.
    ensures height { HeightIsLeast }
    ensures one_height { HeightsAreOne }

    // The parent of a block is in the level above, at its position divided by the fan; its slot is the remainder.
    ensures parents { ParentsAreAbove }

    // A block is as many steps below the root as its level is deep, and stands before the next level.
    ensures root { RootIsAbove }
    ensures levels { LevelsAreApart }
{}
