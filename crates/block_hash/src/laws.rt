//! Laws of the strings: these functions do nothing but state them.
ghost use Rattle.block_hash.specs.StringLaws.{Lengths, StringsTellBlocks, StringsTellPrograms, TagsPart};

/// Equal strings of blocks are of one block, with one tag and one number.
pub fn strings_tell_blocks()
    ensures law { StringsTellBlocks }
{}

/// Equal strings of programs are of one program.
pub fn strings_tell_programs()
    ensures law { StringsTellPrograms }
{}

/// Strings of tree blocks, of log blocks and of programs are never equal.
pub fn tags_part()
    ensures law { TagsPart }
{}

/// How long strings and digests are.
pub fn lengths()
    ensures law { Lengths }
{}
