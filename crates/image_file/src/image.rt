//! Images.
ghost use Rattle.std.specs.Prelude.{◌≡◌, ◌*◌, ◌%◌, ◌<◌, length};
ghost use Rattle.regions.specs.declared.addresses.TheConstants.{BLOCK_BYTES};
ghost use Rattle.image_file.specs.declared.image.TheConstants.{BLOCK_WORDS};

use crate::blocks::{CodeWords, ConstantBytes};
use regions::Layout;

/// How many instruction words a block of code has.
pub const BLOCK_WORDS: u32 = 16;

/// What the file of an image begins with: `AEGS`.
pub const MAGIC: u32 = 0x4145_4753;

/// The version of the file's format.
pub const VERSION: u32 = 1;

/// How many bytes the header of the file has.
pub const HEADER_BYTES: usize = 36;

/// A program as it is loaded: how much memory it has of each class, where it starts, and what stands in its
/// static blocks. Who makes an image proves the four facts below, and who is given one can rely on them.
#[derive(Debug, Drop)]
pub struct Image {
    /// How many blocks there are of each class. The shared bytes are a multiple of four.
    pub layout: Layout,
    /// The number of the first instruction, counted from 0 in the code.
    pub entry: u32,
    /// The bytes of the constant blocks, 64 for each.
    pub constants: ConstantBytes,
    /// The words of the code blocks, 16 for each.
    pub code: CodeWords,
    pub ghost shared_words: { layout.shared % 4 ≡ 0 },
    pub ghost entry_inside: { entry < BLOCK_WORDS * layout.code },
    pub ghost constants_whole: { length constants ≡ BLOCK_BYTES * layout.constants },
    pub ghost code_whole: { length code ≡ BLOCK_WORDS * layout.code },
}
