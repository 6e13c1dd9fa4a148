//! Why cells have no place.

use std::alloc::{AllocError, AllocFailed};
use thiserror::Error;

/// The first limit that is passed, or want of memory.
#[derive(Clone, Copy, Debug, PartialEq, Eq, Error)]
pub enum PlanError {
    /// The cells and the code need so many data blocks, more than there may be.
    #[error("the program needs {blocks} data blocks")]
    TreeFull { blocks: u64 },
    /// The logged cells need so many log blocks, more than there may be.
    #[error("the program needs {blocks} log blocks")]
    LogFull { blocks: u64 },
    /// The shared cells need so many bytes, more than there may be.
    #[error("the program needs {bytes} shared bytes")]
    OpenFull { bytes: u64 },
    /// Memory ran out.
    #[error("out of memory")]
    OutOfMemory,
}

impl From<AllocError> for PlanError {
    ghost use Rattle.std.specs.Prelude.{◌≡◌};
    ghost use Rattle.region_plan.specs.declared.error.PlanError.TheVariants as errors;

    ghost from_gives = { λ _ error. error ≡ errors.OutOfMemory };

    fn from(_error: AllocError) -> PlanError {
        PlanError::OutOfMemory
    }
}

impl<T: Drop> From<AllocFailed<T>> for PlanError {
    ghost use Rattle.std.specs.Prelude.{◌≡◌};
    ghost use Rattle.region_plan.specs.declared.error.PlanError.TheVariants as errors;

    ghost from_gives = { λ _ error. error ≡ errors.OutOfMemory };

    fn from(_error: AllocFailed<T>) -> PlanError {
        PlanError::OutOfMemory
    }
}
