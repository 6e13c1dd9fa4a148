//! Why reading stops.
ghost use Rattle.std.specs.Prelude.{◌≡◌};
ghost use Rattle.c_parser.specs.declared.fault.Fault.TheVariants.{OutOfMemory};

use std::alloc::{AllocError, AllocFailed};

/// Why reading stops. The first token that is left is the faulty one.
#[derive(Clone, Copy)]
pub enum Fault {
    /// No program goes on so.
    Expected,
    /// The token opens a level too many.
    Deep,
    /// Memory ran out.
    OutOfMemory,
}

impl From<AllocError> for Fault {
    ghost from_gives = { λ _ fault. fault ≡ OutOfMemory };

    fn from(_error: AllocError) -> Fault {
        Fault::OutOfMemory
    }
}

impl<T: Drop> From<AllocFailed<T>> for Fault {
    ghost from_gives = { λ _ fault. fault ≡ OutOfMemory };

    fn from(_error: AllocFailed<T>) -> Fault {
        Fault::OutOfMemory
    }
}
