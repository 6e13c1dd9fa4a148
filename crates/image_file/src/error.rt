//! Why a file is no image.

use aegis_num::OutOfMemory;
use std::alloc::{AllocError, AllocFailed};
use thiserror::Error;

/// The first fault of a file, or want of memory. Places are in bytes, counted from 0.
#[derive(Clone, Copy, Debug, PartialEq, Eq, Error)]
pub enum ImageError {
    /// A field or a block is not wholly there; `at` is the length of the file.
    #[error("the file ends at {at}, before the image does")]
    Short { at: u64 },
    /// The file does not begin with `AEGS`.
    #[error("this is no image")]
    Magic,
    /// The version is another one than `VERSION`.
    #[error("version {found} is not known")]
    Version { found: u32 },
    /// The field at this place holds a number that may not stand there.
    #[error("the field at {at} is out of range")]
    Field { at: u64 },
    /// Bytes stand after the last block; `at` is the place of the first.
    #[error("bytes stand after the image, from {at} on")]
    Trailing { at: u64 },
    /// Memory ran out.
    #[error("out of memory")]
    OutOfMemory,
}

impl From<OutOfMemory> for ImageError {
    ghost use Rattle.std.specs.Prelude.{◌≡◌};
    ghost use Rattle.image_file.specs.declared.error.ImageError.TheVariants as errors;

    ghost from_gives = { λ _ error. error ≡ errors.OutOfMemory };

    fn from(_error: OutOfMemory) -> ImageError {
        ImageError::OutOfMemory
    }
}

impl From<AllocError> for ImageError {
    ghost use Rattle.std.specs.Prelude.{◌≡◌};
    ghost use Rattle.image_file.specs.declared.error.ImageError.TheVariants as errors;

    ghost from_gives = { λ _ error. error ≡ errors.OutOfMemory };

    fn from(_error: AllocError) -> ImageError {
        ImageError::OutOfMemory
    }
}

impl<T: Drop> From<AllocFailed<T>> for ImageError {
    ghost use Rattle.std.specs.Prelude.{◌≡◌};
    ghost use Rattle.image_file.specs.declared.error.ImageError.TheVariants as errors;

    ghost from_gives = { λ _ error. error ≡ errors.OutOfMemory };

    fn from(_error: AllocFailed<T>) -> ImageError {
        ImageError::OutOfMemory
    }
}
