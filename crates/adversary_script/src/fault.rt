//! Why a line of a script is faulty.
ghost use Rattle.std.specs.Prelude.{◌≡◌};
ghost use Rattle.adversary_script.specs.declared.fault.Fault.TheVariants.{OutOfMemory};

use crate::error::ScriptError;
use std::alloc::{AllocError, AllocFailed};

/// Why a line gave no change.
#[derive(Clone, Copy)]
pub enum Fault {
    Line,
    Number,
    Hex,
    Range,
    Order,
    TooMany,
    OutOfMemory,
}

impl Fault {
    ghost use Rattle.adversary_script.specs.ScriptGrammar.{fault_at};

    /// The fault of the line with this number.
    pub fn at_line(self, n: u32) -> ScriptError
        ensures { result ≡ fault_at n self }
    {
        match self {
            Fault::Line => ScriptError::Line { n },
            Fault::Number => ScriptError::Number { n },
            Fault::Hex => ScriptError::Hex { n },
            Fault::Range => ScriptError::Range { n },
            Fault::Order => ScriptError::Order { n },
            Fault::TooMany => ScriptError::TooMany { n },
            Fault::OutOfMemory => ScriptError::OutOfMemory,
        }
    }
}

impl From<AllocError> for Fault {
    ghost from_gives = { λ _ fault. fault ≡ OutOfMemory };

    fn from(_error: AllocError) -> Fault {
        Fault::OutOfMemory
    }
}

impl<T: Drop> From<AllocFailed<T>> for Fault {
    ghost from_gives = { λ _ fault. fault ≡ OutOfMemory };

    fn from(_error: AllocFailed<T>) -> Fault {
        Fault::OutOfMemory
    }
}
