//! Why a program is refused.
use aegis_num::OutOfMemory;
use std::alloc::{AllocError, AllocFailed};
use thiserror::Error;

/// The first violation of a program, or want of memory. `at` is the number of a token, counted from 0.
/// Of several violations at one token the answer is the one that stands first here.
#[derive(Clone, Copy, Debug, PartialEq, Eq, Error)]
pub enum TypeError {
    /// A name that is not known where it stands.
    #[error("token {at}: this name is not known")]
    Unknown { at: u32 },
    /// A name that its scope declares already.
    #[error("token {at}: this name is declared twice in one scope")]
    Twice { at: u32 },
    /// A call of the function that it stands in.
    #[error("token {at}: a function may not call itself")]
    Recursive { at: u32 },
    /// An assignment to a constant, or a private object used outside a private function.
    #[error("token {at}: an object of this class may not be used so")]
    Class { at: u32 },
    /// A name used as what it is not, values that do not fit a constant, a `return` that does not fit its
    /// function, or a `break` or `continue` outside a loop.
    #[error("token {at}: this does not fit what stands here")]
    Shape { at: u32 },
    /// Another number of arguments than parameters.
    #[error("token {at}: the number of arguments is not that of the parameters")]
    Arity { at: u32 },
    /// An array length of 0 or above 65,536.
    #[error("token {at}: the length of an array is 1 to 65536")]
    TooLong { at: u32 },
    /// The 1,025th global name, the 257th local or parameter of a function, or its 7th parameter.
    #[error("token {at}: one name too many")]
    TooMany { at: u32 },
    /// No other violation, and no function `main` that answers int, takes nothing and is not private.
    #[error("there is no function main that answers int and takes nothing")]
    NoMain,
    /// Memory ran out.
    #[error("out of memory")]
    OutOfMemory,
}

impl From<AllocError> for TypeError {
    ghost use Rattle.std.specs.Prelude.{◌≡◌};
    ghost use Rattle.c_types.specs.declared.error.TypeError.TheVariants.{OutOfMemory};

    ghost from_gives = { λ _ error. error ≡ OutOfMemory };

    fn from(_error: AllocError) -> TypeError {
        TypeError::OutOfMemory
    }
}

impl<T: Drop> From<AllocFailed<T>> for TypeError {
    ghost use Rattle.std.specs.Prelude.{◌≡◌};
    ghost use Rattle.c_types.specs.declared.error.TypeError.TheVariants.{OutOfMemory};

    ghost from_gives = { λ _ error. error ≡ OutOfMemory };

    fn from(_error: AllocFailed<T>) -> TypeError {
        TypeError::OutOfMemory
    }
}

impl From<OutOfMemory> for TypeError {
    ghost use Rattle.std.specs.Prelude.{◌≡◌};
    ghost use Rattle.c_types.specs.declared.error.TypeError.TheVariants as error;

    ghost from_gives = { λ _ e. e ≡ error.OutOfMemory };

    fn from(_error: OutOfMemory) -> TypeError {
        TypeError::OutOfMemory
    }
}
