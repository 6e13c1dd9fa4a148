//! The one counter of stamps on the chip.
ghost use Rattle.std.specs.Prelude.{◌≡◌, ◌+◌, ◌-◌, ◌^◌, ◌<◌};

use std::marker::Model;

/// The counter that gives each block write, to the tree or to the log, a stamp of its own. Contracts see it as the last
/// stamp that it gave, from 0 to 2^64 - 1; 0 stands before the first one.
#[derive(Clone, Copy, Debug, PartialEq, Eq)]
pub struct Stamps {
    last: u64,
}

impl Model for Stamps {
    ghost use Rattle.std.specs.Prelude.{ℕ};

    ghost Value = { ℕ };

    ghost view = { λ s. s.last };

    ghost inverse = { λ n. record { last = n } };
}

impl Stamps {
    /// A counter that has given no stamp.
    pub fn new() -> Stamps
        ensures none_yet { result ≡ 0 }
    {
        Stamps { last: 0 }
    }

    /// The last stamp that it gave, or 0.
    pub fn last(&self) -> u64
        ensures last { result ≡ self.now }
    {
        self.last
    }

    /// The next stamp: greater by one than the last, and the last from then on.
    pub fn fresh(&mut self) -> u64
        requires { self.old < 2 ^ 64 - 1 }
        ensures next { result ≡ self.old + 1 }
        ensures kept { self.new ≡ self.old + 1 }
    {
        self.last += 1;
        self.last
    }
}
