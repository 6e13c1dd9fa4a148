//! Laws of lowered programs.
ghost use Rattle.lowering.specs.CellLaws.{CellsAreListed, PrivateIsGuarded};
ghost use Rattle.lowering.specs.LoweringLaws.{LoweredIsLawful, Lowers, NamesReach};
ghost use Rattle.lowering.specs.Sizes.{SizesFollow};

/// The flat code of a program of the right shape, whose cells start as its variables do, does what the program means, with
/// shared and logged words loose and with shared words alone: it comes to the same end with the same bytes, writes and counts,
/// for at most 32 units of weight a unit of work; at each moment it has come to a front of what the program does with 64
/// turns for each jump and 64 more; and it is never stuck.
pub fn lowered_code_means_the_source()
    ensures meaning { Lowers }
    ensures names { NamesReach }
{}

/// The flat code of a program has with the start for each of its nodes at most 64 units of weight, at most 64 operations and
/// at most two cells of one word for links and temporaries, and 64 units and operations more. Each other cell is for a
/// declared variable.
pub fn lowered_code_is_small()
    ensures sizes { SizesFollow }
{}

/// The flat code of a program of the right shape with fewer than 1,048,576 nodes and objects keeps the rules of form, and no
/// run of it is stuck, with shared and logged words loose and with shared words alone.
pub fn lowered_code_is_lawful()
    ensures lawful { LoweredIsLawful }
{}

/// The first cells are the objects, in order. For each function in order come its parameters, its locals, its link and its
/// temporaries, which are private where the function is. A run that touches a private cell outside the private mode is stuck,
/// and lowered code never is.
pub fn cells_are_as_listed()
    ensures cells { CellsAreListed }
    ensures private { PrivateIsGuarded }
{}
