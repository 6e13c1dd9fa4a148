//! The core: program counter, flag and registers.
ghost use Rattle.std.specs.Prelude.{◌≡◌, ◌<◌};
ghost use Rattle.orbis_core.specs.Processor.{IsProcessor, advanced, core_after, next_pc, register, reset_core, with_register, written};
ghost use Rattle.orbis_core.specs.Rows.{core_loaded, core_stored, end_after};

use crate::effect::Effect;
use crate::memory::Stop;
use crate::stepping::StepEnd;
use std::marker::Model;

/// How many registers there are.
const REGISTERS: usize = 32;

/// The core of the processor. Register 0 reads zero.
#[derive(Debug, Drop)]
pub struct Core {
    /// The address of the next instruction.
    pub pc: u32,
    /// The flag F of the compare instructions.
    pub flag: bool,
    registers: [u32; REGISTERS],
}

impl Model for Core {
    ghost use Rattle.std.specs.Prelude.{◌≡◌, slice_index};
    ghost use Rattle.orbis_core.specs.Processor.{Processor};

    ghost Value = { Processor };

    ghost view = { λ c. record { pc = c.pc; flag = c.flag; registers = c.registers } };

    ghost invariant = { λ c. slice_index c.registers 0 ≡ 0 };
}

impl Core {
    /// A core about to run the instruction at an address: all registers zero, the flag clear.
    pub fn new(pc: u32) -> Core
        ensures { result ≡ reset_core pc }
    {
        Core {
            pc,
            flag: false,
            registers: [0; REGISTERS],
        }
    }

    /// The value of a register.
    pub fn register(&self, n: u32) -> u32
        requires { n < 32 }
        ensures value { result ≡ register self.now n }
        ensures zero { register self.now 0 ≡ 0 }
    {
        self.registers[n as usize]
    }

    /// States what holds of each core.
    pub(crate) fn is_whole(&self)
        ensures { IsProcessor self.now }
    {
        let _pc = self.pc;
    }

    /// Writes a register; a write to register 0 is dropped.
    pub(crate) fn set_register(&mut self, n: u8, value: u32)
        requires { n < 32 }
        ensures { self.new ≡ with_register self.old n value }
    {
        if n != 0 {
            self.registers[n as usize] = value;
        }
    }

    /// The address after this instruction.
    pub(crate) fn next_pc(&self) -> u32
        ensures { result ≡ next_pc self.now }
    {
        self.pc.wrapping_add(4)
    }

    /// Goes on to the next instruction.
    pub(crate) fn advance(&mut self) -> StepEnd
        ensures end { result ≡ StepEnd.Next }
        ensures core { self.new ≡ advanced self.old }
    {
        self.pc = self.next_pc();
        StepEnd::Next
    }

    /// Writes a register, and goes on to the next instruction.
    pub(crate) fn write(&mut self, d: u8, value: u32) -> StepEnd
        requires { d < 32 }
        ensures end { result ≡ StepEnd.Next }
        ensures core { self.new ≡ written self.old d value }
    {
        self.set_register(d, value);
        self.advance()
    }

    /// Sets or clears the flag, and goes on to the next instruction.
    pub(crate) fn compare_as(&mut self, flag: bool) -> StepEnd
        ensures end { result ≡ StepEnd.Next }
        ensures core { self.new ≡ core_after (Effect.Compare flag) self.old }
    {
        self.flag = flag;
        self.advance()
    }

    /// Goes on to the instruction at an address.
    pub(crate) fn jump(&mut self, to: u32) -> StepEnd
        ensures end { result ≡ StepEnd.Next }
        ensures core { self.new ≡ core_after (Effect.Jump to) self.old }
    {
        self.pc = to;
        StepEnd::Next
    }

    /// Goes on to the instruction at an address, with the address after this one in register 9.
    pub(crate) fn link(&mut self, to: u32) -> StepEnd
        ensures end { result ≡ StepEnd.Next }
        ensures core { self.new ≡ core_after (Effect.Link to) self.old }
    {
        let link = self.next_pc();
        self.set_register(9, link);
        self.jump(to)
    }

    /// Ends a load to a register by the answer of the memory.
    pub(crate) fn take(&mut self, d: u8, answer: Result<u32, Stop>) -> StepEnd
        requires { d < 32 }
        ensures end { result ≡ end_after answer }
        ensures core { self.new ≡ core_loaded d answer self.old }
    {
        match answer {
            Ok(word) => self.write(d, word),
            Err(stop) => StepEnd::Stopped(stop),
        }
    }

    /// Ends a store by the answer of the memory.
    pub(crate) fn go_on(&mut self, answer: Result<(), Stop>) -> StepEnd
        ensures end { result ≡ end_after answer }
        ensures core { self.new ≡ core_stored answer self.old }
    {
        match answer {
            Ok(()) => self.advance(),
            Err(stop) => StepEnd::Stopped(stop),
        }
    }
}
