//! The files that words name.
ghost use Rattle.std.specs.Prelude.{◌≡◌};
ghost use Rattle.aegis_words.specs.FileSteps.{limit_for};

use aegis_num::limits::{MAX_IMAGE_BYTES, MAX_INPUT_BYTES, MAX_SCRIPT_BYTES, MAX_SOURCE_BYTES};

/// A file that the words on the command line name.
#[derive(Clone, Copy, Debug, PartialEq, Eq)]
pub enum File {
    /// The source.
    Source,
    /// The script of off-chip changes.
    Script,
    /// The input of the secure program.
    Input,
    /// The image of a program.
    Image,
}

/// The most bytes that a file may hold.
pub fn limit(file: File) -> u64
    ensures { result ≡ limit_for file }
{
    match file {
        File::Source => MAX_SOURCE_BYTES,
        File::Script => MAX_SCRIPT_BYTES,
        File::Input => MAX_INPUT_BYTES,
        File::Image => MAX_IMAGE_BYTES,
    }
}
