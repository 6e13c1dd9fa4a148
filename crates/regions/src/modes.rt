//! The mode of the processor, and the instructions that change it. Enter, exit, suspend and resume are named
//! as in Suh et al., ISCA 2005; private on, private off and the table of modes are this project's own.
ghost use Rattle.std.specs.Prelude.{◌≡◌, IsTrue};
ghost use Rattle.regions.specs.Modes.{Enter, Exit, Suspend, Resume, PrivateOn, PrivateOff, allowed_in, is_secure, modes_after};

use crate::rights::Mode;
use std::marker::Model;

/// The mode that the processor is in, and the mode that the last suspension kept.
#[derive(Clone, Copy, Debug, PartialEq, Eq)]
pub struct ModeUnit {
    mode: Mode,
    kept: Mode,
}

impl Model for ModeUnit {
    ghost use Rattle.std.specs.Prelude.{IsTrue};
    ghost use Rattle.regions.specs.Modes.{Modes, is_secure};

    ghost Value = { Modes };

    ghost view = { λ u. record { mode = u.mode; kept = u.kept } };

    ghost invariant = { λ u. IsTrue (is_secure u.kept) };

    ghost inverse = { λ m. record { mode = m.mode; kept = m.kept } };
}

impl ModeUnit {
    /// A unit in STD. Nothing rests on the mode that it keeps, since only a suspension leads to a resumption.
    pub fn new() -> ModeUnit
        ensures { result ≡ record { mode = Mode.Std; kept = Mode.Te } }
    {
        ModeUnit {
            mode: Mode::Std,
            kept: Mode::Te,
        }
    }

    /// The mode.
    pub fn mode(&self) -> Mode
        ensures mode { result ≡ self.now.mode }

        // What is kept, and comes back after a suspension, is a mode of the secure program.
        ensures kept { IsTrue (is_secure self.now.kept) }
    {
        self.mode
    }

    /// Begins the secure program: from STD to TE.
    /// As with each call below, the answer says whether the mode allows it; where not, nothing changes.
    pub fn enter(&mut self) -> bool
        ensures allowed { result ≡ allowed_in Enter self.old.mode }
        ensures after { self.new ≡ modes_after Enter self.old }
    {
        if self.mode != Mode::Std {
            return false;
        }
        self.mode = Mode::Te;
        true
    }

    /// Ends the secure program: from TE or PTR to STD. The two traps end it in the same way.
    pub fn exit(&mut self) -> bool
        ensures allowed { result ≡ allowed_in Exit self.old.mode }
        ensures after { self.new ≡ modes_after Exit self.old }
    {
        if !is_of_program(self.mode) {
            return false;
        }
        self.mode = Mode::Std;
        true
    }

    /// Suspends the secure program: from TE or PTR, which is kept, to SSP.
    pub fn suspend(&mut self) -> bool
        ensures allowed { result ≡ allowed_in Suspend self.old.mode }
        ensures after { self.new ≡ modes_after Suspend self.old }
    {
        if !is_of_program(self.mode) {
            return false;
        }
        self.kept = self.mode;
        self.mode = Mode::Ssp;
        true
    }

    /// Goes on with the secure program: from SSP to the mode that was kept.
    pub fn resume(&mut self) -> bool
        ensures allowed { result ≡ allowed_in Resume self.old.mode }
        ensures after { self.new ≡ modes_after Resume self.old }
    {
        if self.mode != Mode::Ssp {
            return false;
        }
        self.mode = self.kept;
        true
    }

    /// Lets the secure program use its private data: from TE to PTR.
    pub fn private_on(&mut self) -> bool
        ensures allowed { result ≡ allowed_in PrivateOn self.old.mode }
        ensures after { self.new ≡ modes_after PrivateOn self.old }
    {
        if self.mode != Mode::Te {
            return false;
        }
        self.mode = Mode::Ptr;
        true
    }

    /// Closes the private data again: from PTR to TE.
    pub fn private_off(&mut self) -> bool
        ensures allowed { result ≡ allowed_in PrivateOff self.old.mode }
        ensures after { self.new ≡ modes_after PrivateOff self.old }
    {
        if self.mode != Mode::Ptr {
            return false;
        }
        self.mode = Mode::Te;
        true
    }
}

// Whether a mode is one of the secure program.
fn is_of_program(mode: Mode) -> bool
    ensures { result ≡ is_secure mode }
{
    matches!(mode, Mode::Te | Mode::Ptr)
}
