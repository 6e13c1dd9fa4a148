//! The instruction table (OpenRISC 1000 Architecture Manual, section 5).
ghost use Rattle.std.specs.Prelude.{◌≡◌, ℕ, ◌+◌, ◌*◌, ◌^◌};
ghost use Rattle.orbis_word.specs.Reading.{instruction_in};
ghost use Rattle.orbis_word.specs.Table.{table_row, fixed_of, IsInRange, encoding};

use crate::fields::Fields;
use crate::instruction::Instr;

/// A row of the table, with the fields of one instruction.
#[derive(Clone, Copy)]
pub(crate) struct TableRow {
    /// The name, as it is spelled.
    pub(crate) name: &'static str,
    /// The bits of the word that are fixed, and zeros elsewhere.
    pub(crate) fixed: u32,
    /// The fields.
    pub(crate) fields: Fields,
}

impl TableRow {
    fn new(name: &'static str, fixed: u32, fields: Fields) -> TableRow
        ensures name { result.name.now ≡ name.entry.now }
        ensures fixed { result.fixed ≡ fixed }
        ensures fields { result.fields ≡ fields }
    {
        TableRow {
            name,
            fixed,
            fields,
        }
    }
}

/// The row of an instruction.
pub(crate) fn table_row(instruction: Instr) -> TableRow
    ensures name { result.name.now ≡ (table_row instruction).name }
    ensures fixed { result.fixed ≡ fixed_of instruction }
    ensures fields { result.fields ≡ (table_row instruction).fields }
{
    match instruction {
        Instr::J { n } => TableRow::new("l.j", 0x0000_0000, Fields::N(n)),
        Instr::Jal { n } => TableRow::new("l.jal", 0x0400_0000, Fields::N(n)),
        Instr::Bnf { n } => TableRow::new("l.bnf", 0x0c00_0000, Fields::N(n)),
        Instr::Bf { n } => TableRow::new("l.bf", 0x1000_0000, Fields::N(n)),
        Instr::Nop { k } => TableRow::new("l.nop", 0x1500_0000, Fields::K(k)),
        Instr::Movhi { d, k } => TableRow::new("l.movhi", 0x1800_0000, Fields::Dk(d, k)),
        Instr::Jr { b } => TableRow::new("l.jr", 0x4400_0000, Fields::B(b)),
        Instr::Cust1 { f } => TableRow::new("l.cust1", 0x7000_0000, Fields::F(f)),
        Instr::Lwz { d, i, a } => TableRow::new("l.lwz", 0x8400_0000, Fields::Dia(d, i, a)),
        Instr::Lbz { d, i, a } => TableRow::new("l.lbz", 0x8c00_0000, Fields::Dia(d, i, a)),
        Instr::Addi { d, a, i } => TableRow::new("l.addi", 0x9c00_0000, Fields::Dai(d, a, i)),
        Instr::Andi { d, a, k } => TableRow::new("l.andi", 0xa400_0000, Fields::Dak(d, a, k)),
        Instr::Ori { d, a, k } => TableRow::new("l.ori", 0xa800_0000, Fields::Dak(d, a, k)),
        Instr::Slli { d, a, l } => TableRow::new("l.slli", 0xb800_0000, Fields::Dal(d, a, l)),
        Instr::Srli { d, a, l } => TableRow::new("l.srli", 0xb800_0040, Fields::Dal(d, a, l)),
        Instr::Srai { d, a, l } => TableRow::new("l.srai", 0xb800_0080, Fields::Dal(d, a, l)),
        Instr::Sw { i, a, b } => TableRow::new("l.sw", 0xd400_0000, Fields::Iab(i, a, b)),
        Instr::Sb { i, a, b } => TableRow::new("l.sb", 0xd800_0000, Fields::Iab(i, a, b)),
        Instr::Add { d, a, b } => TableRow::new("l.add", 0xe000_0000, Fields::Dab(d, a, b)),
        Instr::Sub { d, a, b } => TableRow::new("l.sub", 0xe000_0002, Fields::Dab(d, a, b)),
        Instr::And { d, a, b } => TableRow::new("l.and", 0xe000_0003, Fields::Dab(d, a, b)),
        Instr::Or { d, a, b } => TableRow::new("l.or", 0xe000_0004, Fields::Dab(d, a, b)),
        Instr::Xor { d, a, b } => TableRow::new("l.xor", 0xe000_0005, Fields::Dab(d, a, b)),
        Instr::Mul { d, a, b } => TableRow::new("l.mul", 0xe000_0306, Fields::Dab(d, a, b)),
        Instr::Div { d, a, b } => TableRow::new("l.div", 0xe000_0309, Fields::Dab(d, a, b)),
        Instr::Divu { d, a, b } => TableRow::new("l.divu", 0xe000_030a, Fields::Dab(d, a, b)),
        Instr::Sll { d, a, b } => TableRow::new("l.sll", 0xe000_0008, Fields::Dab(d, a, b)),
        Instr::Srl { d, a, b } => TableRow::new("l.srl", 0xe000_0048, Fields::Dab(d, a, b)),
        Instr::Sra { d, a, b } => TableRow::new("l.sra", 0xe000_0088, Fields::Dab(d, a, b)),
        Instr::Sfeq { a, b } => TableRow::new("l.sfeq", 0xe400_0000, Fields::Ab(a, b)),
        Instr::Sfne { a, b } => TableRow::new("l.sfne", 0xe420_0000, Fields::Ab(a, b)),
        Instr::Sfgtu { a, b } => TableRow::new("l.sfgtu", 0xe440_0000, Fields::Ab(a, b)),
        Instr::Sfgeu { a, b } => TableRow::new("l.sfgeu", 0xe460_0000, Fields::Ab(a, b)),
        Instr::Sfltu { a, b } => TableRow::new("l.sfltu", 0xe480_0000, Fields::Ab(a, b)),
        Instr::Sfleu { a, b } => TableRow::new("l.sfleu", 0xe4a0_0000, Fields::Ab(a, b)),
        Instr::Sfgts { a, b } => TableRow::new("l.sfgts", 0xe540_0000, Fields::Ab(a, b)),
        Instr::Sfges { a, b } => TableRow::new("l.sfges", 0xe560_0000, Fields::Ab(a, b)),
        Instr::Sflts { a, b } => TableRow::new("l.sflts", 0xe580_0000, Fields::Ab(a, b)),
        Instr::Sfles { a, b } => TableRow::new("l.sfles", 0xe5a0_0000, Fields::Ab(a, b)),
    }
}

/// The one word of an instruction (OpenRISC 1000 Architecture Manual, section 5). Registers and counts have to be
/// below 32, `f` at most 10, and `n` from -2 ^ 25 to 2 ^ 25 - 1; each value of `k` and of `i` is in range.
pub fn encode(i: Instr) -> u32
    requires { IsInRange i }
    ensures word { result ≡ encoding i }
    ensures decoded { instruction_in result ≡ Some i }
{
    let row = table_row(i);
    row.fixed + row.fields.place()
}
