//! Why flat code has no image.

use aegis_num::OutOfMemory;
use region_plan::PlanError;
use thiserror::Error;

/// The limit that is passed, or want of memory.
#[derive(Clone, Copy, Debug, PartialEq, Eq, Error)]
pub enum EmitError {
    /// The cells and the code have no place.
    #[error("{0}")]
    Plan(PlanError),
    /// Memory ran out.
    #[error("out of memory")]
    OutOfMemory,
}

impl From<PlanError> for EmitError {
    ghost use Rattle.std.specs.Prelude.{◌≡◌};
    ghost use Rattle.codegen.specs.EmitFaults.{emit_error};

    ghost from_gives = { λ fault error. error ≡ emit_error fault };

    fn from(fault: PlanError) -> EmitError {
        match fault {
            PlanError::OutOfMemory => EmitError::OutOfMemory,
            _ => EmitError::Plan(fault),
        }
    }
}

impl From<OutOfMemory> for EmitError {
    ghost use Rattle.std.specs.Prelude.{◌≡◌};
    ghost use Rattle.codegen.specs.declared.error.EmitError.TheVariants as errors;

    ghost from_gives = { λ _ error. error ≡ errors.OutOfMemory };

    fn from(_error: OutOfMemory) -> EmitError {
        EmitError::OutOfMemory
    }
}
