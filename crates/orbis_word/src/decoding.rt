//! From words to instructions.
ghost use Rattle.std.specs.Prelude.{◌≡◌, ℕ, ◌+◌, ◌*◌, ◌/◌, ◌%◌, ◌^◌, ◌<◌, IfSome, IfNone};
ghost use Rattle.orbis_word.specs.Reading.{with_fixed, instructions_with, instruction_in};
ghost use Rattle.orbis_word.specs.Decoding.{IsWordOf, IsNoWord, IsRowOf, WordsAreApart};
ghost use Rattle.orbis_word.specs.declared.fields.Fields.TheVariants.{N, K, Dk, B, F, Dia, Dai, Dak, Dal, Iab, Dab, Ab};

use crate::fields::Fields;
use crate::instruction::Instr;

/// The instruction whose one word this is (OpenRISC 1000 Architecture Manual, section 5). There is none where no row
/// has the opcode and the fixed bits, where a bit is set that is neither fixed nor of a field, or where `f` is above 10.
#[tactic(auto, unfolding(crate::specs::Reading::instruction_in))]
pub fn decode(word: u32) -> Option<Instr>
    ensures found { IfSome result (IsWordOf word) }
    ensures none { IfNone result (IsNoWord word) }

    // As a function, for definitions of what words do.
    ensures value { result ≡ instruction_in word }
{
    match Fields::read(word) {
        Some(fields) => instruction_with(word - fields.place(), fields),
        None => None,
    }
}

/// Two instructions with one word are one.
pub fn encode_is_injective()
    ensures { WordsAreApart }
{}

/// The instruction with these fixed bits and these fields.
fn instruction_with(fixed: u32, fields: Fields) -> Option<Instr>
    ensures value { result ≡ with_fixed fixed (instructions_with fields) }
    ensures found { IfSome result (IsRowOf fixed fields) }
{
    match fields {
        Fields::N(n) => jump_by(fixed, n),
        Fields::K(k) => (fixed == 0x1500_0000).then_some(Instr::Nop { k }),
        Fields::Dk(d, k) => (fixed == 0x1800_0000).then_some(Instr::Movhi { d, k }),
        Fields::B(b) => (fixed == 0x4400_0000).then_some(Instr::Jr { b }),
        Fields::F(f) => (fixed == 0x7000_0000).then_some(Instr::Cust1 { f }),
        Fields::Dia(d, i, a) => load_to(fixed, d, i, a),
        Fields::Dai(d, a, i) => (fixed == 0x9c00_0000).then_some(Instr::Addi { d, a, i }),
        Fields::Dak(d, a, k) => logic_of(fixed, d, a, k),
        Fields::Dal(d, a, l) => shift_by(fixed, d, a, l),
        Fields::Iab(i, a, b) => store_at(fixed, i, a, b),
        Fields::Dab(d, a, b) => on_registers(fixed, d, a, b),
        Fields::Ab(a, b) => compare_of(fixed, a, b),
    }
}

/// The jump by N with these fixed bits.
fn jump_by(fixed: u32, n: i32) -> Option<Instr>
    ensures value { result ≡ with_fixed fixed (instructions_with (N n)) }
    ensures found { IfSome result (IsRowOf fixed (N n)) }
{
    match fixed {
        0x0000_0000 => Some(Instr::J { n }),
        0x0400_0000 => Some(Instr::Jal { n }),
        0x0c00_0000 => Some(Instr::Bnf { n }),
        0x1000_0000 => Some(Instr::Bf { n }),
        _ => None,
    }
}

/// The load with these fixed bits.
fn load_to(fixed: u32, d: u8, i: i16, a: u8) -> Option<Instr>
    ensures value { result ≡ with_fixed fixed (instructions_with (Dia d i a)) }
    ensures found { IfSome result (IsRowOf fixed (Dia d i a)) }
{
    match fixed {
        0x8400_0000 => Some(Instr::Lwz { d, i, a }),
        0x8c00_0000 => Some(Instr::Lbz { d, i, a }),
        _ => None,
    }
}

/// The bitwise instruction with a constant with these fixed bits.
fn logic_of(fixed: u32, d: u8, a: u8, k: u16) -> Option<Instr>
    ensures value { result ≡ with_fixed fixed (instructions_with (Dak d a k)) }
    ensures found { IfSome result (IsRowOf fixed (Dak d a k)) }
{
    match fixed {
        0xa400_0000 => Some(Instr::Andi { d, a, k }),
        0xa800_0000 => Some(Instr::Ori { d, a, k }),
        _ => None,
    }
}

/// The shift by a count with these fixed bits.
fn shift_by(fixed: u32, d: u8, a: u8, l: u8) -> Option<Instr>
    ensures value { result ≡ with_fixed fixed (instructions_with (Dal d a l)) }
    ensures found { IfSome result (IsRowOf fixed (Dal d a l)) }
{
    match fixed {
        0xb800_0000 => Some(Instr::Slli { d, a, l }),
        0xb800_0040 => Some(Instr::Srli { d, a, l }),
        0xb800_0080 => Some(Instr::Srai { d, a, l }),
        _ => None,
    }
}

/// The store with these fixed bits.
fn store_at(fixed: u32, i: i16, a: u8, b: u8) -> Option<Instr>
    ensures value { result ≡ with_fixed fixed (instructions_with (Iab i a b)) }
    ensures found { IfSome result (IsRowOf fixed (Iab i a b)) }
{
    match fixed {
        0xd400_0000 => Some(Instr::Sw { i, a, b }),
        0xd800_0000 => Some(Instr::Sb { i, a, b }),
        _ => None,
    }
}

/// The instruction on three registers with these fixed bits.
fn on_registers(fixed: u32, d: u8, a: u8, b: u8) -> Option<Instr>
    ensures value { result ≡ with_fixed fixed (instructions_with (Dab d a b)) }
    ensures found { IfSome result (IsRowOf fixed (Dab d a b)) }
{
    match fixed {
        0xe000_0000 => Some(Instr::Add { d, a, b }),
        0xe000_0002 => Some(Instr::Sub { d, a, b }),
        0xe000_0003 => Some(Instr::And { d, a, b }),
        0xe000_0004 => Some(Instr::Or { d, a, b }),
        0xe000_0005 => Some(Instr::Xor { d, a, b }),
        0xe000_0306 => Some(Instr::Mul { d, a, b }),
        0xe000_0309 => Some(Instr::Div { d, a, b }),
        0xe000_030a => Some(Instr::Divu { d, a, b }),
        0xe000_0008 => Some(Instr::Sll { d, a, b }),
        0xe000_0048 => Some(Instr::Srl { d, a, b }),
        0xe000_0088 => Some(Instr::Sra { d, a, b }),
        _ => None,
    }
}

/// The compare with these fixed bits.
fn compare_of(fixed: u32, a: u8, b: u8) -> Option<Instr>
    ensures value { result ≡ with_fixed fixed (instructions_with (Ab a b)) }
    ensures found { IfSome result (IsRowOf fixed (Ab a b)) }
{
    match fixed {
        0xe400_0000 => Some(Instr::Sfeq { a, b }),
        0xe420_0000 => Some(Instr::Sfne { a, b }),
        0xe440_0000 => Some(Instr::Sfgtu { a, b }),
        0xe460_0000 => Some(Instr::Sfgeu { a, b }),
        0xe480_0000 => Some(Instr::Sfltu { a, b }),
        0xe4a0_0000 => Some(Instr::Sfleu { a, b }),
        0xe540_0000 => Some(Instr::Sfgts { a, b }),
        0xe560_0000 => Some(Instr::Sfges { a, b }),
        0xe580_0000 => Some(Instr::Sflts { a, b }),
        0xe5a0_0000 => Some(Instr::Sfles { a, b }),
        _ => None,
    }
}
