//! The memory that a core runs on.
ghost use Rattle.std.specs.Prelude.{ℕ, ◌+◌};
ghost use Rattle.orbis_core.specs.Accesses.{Accesses, LeaveOneFewer};

/// Why an access or an instruction is refused.
#[derive(Clone, Copy, Debug, PartialEq, Eq)]
pub enum Why {
    /// The code that runs may not make this access at this address.
    Rights,
    /// The address of a word is not divisible by 4.
    Misaligned,
    /// The word is no instruction.
    Illegal,
    /// A division by zero.
    Divide,
    /// The code that runs may not use this instruction.
    Mode,
}

/// What stopped an access or a step.
#[derive(Clone, Copy, Debug, PartialEq, Eq)]
pub enum Stop {
    /// It was refused, for this reason.
    Refused(Why),
    /// A block that the hash tree read does not have the digest that the tree keeps of it.
    Tree {
        /// The number of the read among the events of the bus, counted from 0.
        event: u64,
    },
    /// A block that the log read bears the stamp of a write that was not made yet.
    Log {
        /// The number of the read among the events of the bus, counted from 0.
        event: u64,
    },
}

/// A memory of bytes and of big-endian words of 32 bits, at addresses of 32 bits.
pub trait Memory {
    /// At least so many accesses are left.
    ghost has_left: { Self → ℕ → Type 0 };

    /// What each of the five calls does.
    ghost accesses: { Accesses Self };

    /// Reads the instruction word at an address.
    fn fetch(&mut self, at: u32) -> Result<u32, Stop>
        requires { has_left self.old 1 }
        ensures does { accesses.fetch self.old at result self.new };

    /// Reads the word at an address.
    fn load_word(&mut self, at: u32) -> Result<u32, Stop>
        requires { has_left self.old 1 }
        ensures does { accesses.load_word self.old at result self.new };

    /// Reads the byte at an address, with zeros above it.
    fn load_byte(&mut self, at: u32) -> Result<u32, Stop>
        requires { has_left self.old 1 }
        ensures does { accesses.load_byte self.old at result self.new };

    /// Writes the word at an address.
    fn store_word(&mut self, at: u32, word: u32) -> Result<(), Stop>
        requires { has_left self.old 1 }
        ensures does { accesses.store_word self.old at word result self.new };

    /// Writes the byte at an address.
    fn store_byte(&mut self, at: u32, byte: u8) -> Result<(), Stop>
        requires { has_left self.old 1 }
        ensures does { accesses.store_byte self.old at byte result self.new };

    /// After a call that was done or refused at most one access fewer is left.
    ghost one_fewer_left: { LeaveOneFewer accesses has_left };

    /// Where so many accesses are left, one fewer are.
    ghost fewer_left: { (memory : Self) (n : ℕ) → has_left memory (n + 1) → has_left memory n };
}
