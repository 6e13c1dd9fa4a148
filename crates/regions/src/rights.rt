//! What code may do at an address, by the mode that it runs in and the class of the address.
//! The names of the modes are those of Suh et al., "Design and Implementation of the AEGIS Single-Chip Secure
//! Processor Using Physical Random Functions", ISCA 2005. The classes and the table of rights are this project's
//! own.
ghost use Rattle.std.specs.Prelude.{◌≡◌};
ghost use Rattle.regions.specs.Rights.{rights};

/// What the processor runs.
#[derive(Clone, Copy, Debug, PartialEq, Eq)]
pub enum Mode {
    /// Code before the program enters and after its exit.
    Std,
    /// The secure program, tamper-evident: nobody else can change its data unnoticed.
    Te,
    /// The secure program, private and tamper-resistant: nobody else can read its private data either.
    Ptr,
    /// Untrusted code, while the secure program is suspended.
    Ssp,
}

/// How an address is protected.
#[derive(Clone, Copy, Debug, PartialEq, Eq)]
pub enum Class {
    /// Not at all.
    Open,
    /// By the hash tree.
    Verified,
    /// By the hash tree, and encrypted off chip.
    Private,
    /// By the hash tree; holds constants.
    Constant,
    /// By the hash tree; holds instructions.
    Code,
    /// By the log.
    Logged,
}

/// What is done at an address.
#[derive(Clone, Copy, Debug, PartialEq, Eq)]
pub enum Access {
    /// A word or a byte is read as data.
    Read,
    /// A word or a byte is written.
    Write,
    /// A word is read as an instruction.
    Fetch,
}

/// Whether code that runs in a mode may make an access at an address of a class.
pub fn may(mode: Mode, class: Class, access: Access) -> bool
    ensures { result ≡ rights mode class access }
{
    match (mode, class) {
        (Mode::Std | Mode::Ssp, Class::Open) => true,
        (Mode::Std | Mode::Ssp, _) => false,
        (Mode::Te, Class::Private) => false,
        (Mode::Te | Mode::Ptr, Class::Constant) => access == Access::Read,
        (Mode::Te | Mode::Ptr, Class::Code) => access == Access::Fetch,
        (Mode::Te | Mode::Ptr, _) => access != Access::Fetch,
    }
}
