//! What each instruction asks for (OpenRISC 1000 Architecture Manual, section 5.3), by the state of the core
//! before it.
ghost use Rattle.std.specs.Prelude.{◌≡◌, ◌*◌, ◌%◌, ◌^◌, ◌<◌, false};
ghost use Rattle.aegis_num.specs.Operators.{is_division, word_of_int};
ghost use Rattle.orbis_core.specs.Effects.{IsEffectInRange, address, branch, compare, displaced, effect_of, operate, target};
ghost use Rattle.orbis_core.specs.Processor.{register};
ghost use Rattle.orbis_word.specs.Fields.{FitsComplement};
ghost use Rattle.orbis_word.specs.Table.{IsInRange};

use crate::processor::Core;
use aegis_num::BinaryOp;
use orbis_word::Instr;

/// What an instruction asks for. Registers are below 32.
#[derive(Clone, Copy, Debug, PartialEq, Eq)]
pub enum Effect {
    /// Nothing; the next instruction follows, as it does where nothing else is said.
    Proceed,
    /// Register `d` becomes the value.
    Write { d: u8, value: u32 },
    /// The flag becomes this.
    Compare { flag: bool },
    /// The instruction at this address follows.
    Jump { to: u32 },
    /// The instruction at this address follows, and register 9 becomes the address after this one.
    Link { to: u32 },
    /// Register `d` becomes the word at this address.
    LoadWord { d: u8, at: u32 },
    /// Register `d` becomes the byte at this address, with zeros above it.
    LoadByte { d: u8, at: u32 },
    /// The word at this address becomes this one.
    StoreWord { at: u32, word: u32 },
    /// The byte at this address becomes this one.
    StoreByte { at: u32, byte: u8 },
    /// There is none, since a divisor is zero.
    DivideByZero,
    /// The secure instruction `f`, at most 10.
    Secure { f: u8 },
}

impl Core {
    /// What an instruction asks for.
    pub(crate) fn effect(&self, instruction: Instr) -> Effect
        requires { IsInRange instruction }
        ensures value { result ≡ effect_of instruction self.now }
        ensures in_range { IsEffectInRange result }
    {
        match instruction {
            Instr::J { n } => Effect::Jump { to: self.target(n) },
            Instr::Jal { n } => Effect::Link { to: self.target(n) },
            Instr::Bnf { n } => self.branch(!self.flag, n),
            Instr::Bf { n } => self.branch(self.flag, n),
            Instr::Nop { k: _ } => Effect::Proceed,
            Instr::Movhi { d, k } => high(d, k),
            Instr::Jr { b } => Effect::Jump { to: self.read(b) },
            Instr::Cust1 { f } => Effect::Secure { f },
            Instr::Lwz { d, i, a } => Effect::LoadWord {
                d,
                at: self.address(a, i),
            },
            Instr::Lbz { d, i, a } => Effect::LoadByte {
                d,
                at: self.address(a, i),
            },
            Instr::Addi { d, a, i } => operate(d, BinaryOp::Add, self.read(a), extended(i)),
            Instr::Andi { d, a, k } => operate(d, BinaryOp::And, self.read(a), k as u32),
            Instr::Ori { d, a, k } => operate(d, BinaryOp::Or, self.read(a), k as u32),
            Instr::Slli { d, a, l } => operate(d, BinaryOp::Shl, self.read(a), l as u32),
            Instr::Srli { d, a, l } => operate(d, BinaryOp::ShrU, self.read(a), l as u32),
            Instr::Srai { d, a, l } => operate(d, BinaryOp::ShrS, self.read(a), l as u32),
            Instr::Sw { i, a, b } => Effect::StoreWord {
                at: self.address(a, i),
                word: self.read(b),
            },
            Instr::Sb { i, a, b } => Effect::StoreByte {
                at: self.address(a, i),
                byte: self.low_byte(b),
            },
            Instr::Add { d, a, b } => operate(d, BinaryOp::Add, self.read(a), self.read(b)),
            Instr::Sub { d, a, b } => operate(d, BinaryOp::Sub, self.read(a), self.read(b)),
            Instr::And { d, a, b } => operate(d, BinaryOp::And, self.read(a), self.read(b)),
            Instr::Or { d, a, b } => operate(d, BinaryOp::Or, self.read(a), self.read(b)),
            Instr::Xor { d, a, b } => operate(d, BinaryOp::Xor, self.read(a), self.read(b)),
            Instr::Mul { d, a, b } => operate(d, BinaryOp::Mul, self.read(a), self.read(b)),
            Instr::Div { d, a, b } => operate(d, BinaryOp::DivS, self.read(a), self.read(b)),
            Instr::Divu { d, a, b } => operate(d, BinaryOp::DivU, self.read(a), self.read(b)),
            Instr::Sll { d, a, b } => operate(d, BinaryOp::Shl, self.read(a), self.read(b)),
            Instr::Srl { d, a, b } => operate(d, BinaryOp::ShrU, self.read(a), self.read(b)),
            Instr::Sra { d, a, b } => operate(d, BinaryOp::ShrS, self.read(a), self.read(b)),
            Instr::Sfeq { a, b } => self.compare(BinaryOp::Eq, a, b),
            Instr::Sfne { a, b } => self.compare(BinaryOp::Ne, a, b),
            Instr::Sfgtu { a, b } => self.compare(BinaryOp::GtU, a, b),
            Instr::Sfgeu { a, b } => self.compare(BinaryOp::GeU, a, b),
            Instr::Sfltu { a, b } => self.compare(BinaryOp::LtU, a, b),
            Instr::Sfleu { a, b } => self.compare(BinaryOp::LeU, a, b),
            Instr::Sfgts { a, b } => self.compare(BinaryOp::GtS, a, b),
            Instr::Sfges { a, b } => self.compare(BinaryOp::GeS, a, b),
            Instr::Sflts { a, b } => self.compare(BinaryOp::LtS, a, b),
            Instr::Sfles { a, b } => self.compare(BinaryOp::LeS, a, b),
        }
    }

    /// The value of a register that an instruction names.
    fn read(&self, n: u8) -> u32
        requires { n < 32 }
        ensures { result ≡ register self.now n }
    {
        self.register(n as u32)
    }

    /// The low byte of a register.
    fn low_byte(&self, n: u8) -> u8
        requires { n < 32 }
        ensures { result ≡ register self.now n % 2 ^ 8 }
    {
        (self.read(n) & 0xff) as u8
    }

    /// The address `n` words from the instruction itself.
    fn target(&self, n: i32) -> u32
        requires { FitsComplement 26 n }
        ensures { result ≡ target self.now n }
    {
        displaced(self.pc, n * 4)
    }

    /// A jump that is made or not.
    fn branch(&self, taken: bool, n: i32) -> Effect
        requires { FitsComplement 26 n }
        ensures value { result ≡ branch taken self.now n }
        ensures in_range { IsEffectInRange result }
    {
        if taken {
            Effect::Jump { to: self.target(n) }
        } else {
            Effect::Proceed
        }
    }

    /// The address of a load or a store: a register and an offset.
    fn address(&self, a: u8, i: i16) -> u32
        requires { a < 32 }
        ensures { result ≡ address self.now a i }
    {
        displaced(self.read(a), i as i32)
    }

    /// The flag becomes the value of a comparison of two registers.
    fn compare(&self, operator: BinaryOp, a: u8, b: u8) -> Effect
        requires a { a < 32 }
        requires b { b < 32 }
        requires divides { is_division operator ≡ false }
        ensures value { result ≡ compare operator self.now a b }
        ensures in_range { IsEffectInRange result }
    {
        Effect::Compare {
            flag: operator.apply(self.read(a), self.read(b)) == 1,
        }
    }
}

/// The address at a distance from another one, modulo 2 to the 32nd.
fn displaced(from: u32, distance: i32) -> u32
    ensures { result ≡ displaced from distance }
{
    from.wrapping_add(distance.cast_unsigned())
}

/// A constant, extended by its sign.
fn extended(i: i16) -> u32
    ensures { result ≡ word_of_int i }
{
    (i as i32).cast_unsigned()
}

/// A constant goes to the upper half of a register, and zeros to the lower.
fn high(d: u8, k: u16) -> Effect
    requires { d < 32 }
    ensures value { result ≡ Effect.Write d (k * 2 ^ 16) }
    ensures in_range { IsEffectInRange result }
{
    Effect::Write {
        d,
        value: (k as u32) << 16,
    }
}

/// The value of an operator goes to a register, if there is one.
fn operate(d: u8, operator: BinaryOp, left: u32, right: u32) -> Effect
    requires { d < 32 }
    ensures value { result ≡ operate d operator left right }
    ensures in_range { IsEffectInRange result }
{
    if operator.traps(right) {
        return Effect::DivideByZero;
    }
    Effect::Write {
        d,
        value: operator.apply(left, right),
    }
}
