//! Sums of multisets of entries.
ghost use Rattle.std.specs.Prelude.{◌≡◌, ◌+◌, ◌<◌, ◌^◌, ◌%◌};

/// How many entries there are, and the sum of their values modulo 2^128. The count is not reduced: each entry was
/// read or written by an event of its own since the check before the latest one, and a bus has fewer than 2^64 events.
#[derive(Clone, Copy, Debug, PartialEq, Eq)]
pub struct MultisetSum {
    /// How many entries there are.
    pub count: u64,
    /// The sum of their values modulo 2^128.
    pub sum: u128,
}

impl MultisetSum {
    /// No entry.
    pub(crate) fn empty() -> MultisetSum
        ensures count { result.count ≡ 0 }
        ensures sum { result.sum ≡ 0 }
    {
        MultisetSum { count: 0, sum: 0 }
    }

    /// Adds an entry with this value.
    pub(crate) fn add(&mut self, value: u128)
        requires { self.old.count + 1 < 2 ^ 64 }
        ensures count { self.new.count ≡ self.old.count + 1 }
        ensures sum { self.new.sum ≡ (self.old.sum + value) % 2 ^ 128 }
    {
        self.count += 1;
        self.sum = self.sum.wrapping_add(value);
    }
}
