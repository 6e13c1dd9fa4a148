//! The instructions, one variant for each row of the instruction table
//! (OpenRISC 1000 Architecture Manual, section 5.3).

/// An instruction with its fields. `d`, `a` and `b` are registers, below 32, of which `d` is written, but
/// where a variant says otherwise; `k` is a constant that is extended by zeros, and `i` one that is extended
/// by its sign; `l` is a count, below 32; `n` is a distance in words of 4 bytes, in 26 bits with a sign.
#[derive(Clone, Copy, Debug, PartialEq, Eq)]
pub enum Instr {
    /// `l.j N`: jump by N.
    J { n: i32 },
    /// `l.jal N`: jump by N, and link the next address in register 9.
    Jal { n: i32 },
    /// `l.bnf N`: jump by N if the flag is clear.
    Bnf { n: i32 },
    /// `l.bf N`: jump by N if the flag is set.
    Bf { n: i32 },
    /// `l.nop K`: nothing.
    Nop { k: u16 },
    /// `l.movhi D,K`: K in the upper half, and zeros in the lower.
    Movhi { d: u8, k: u16 },
    /// `l.jr B`: jump to the address in B.
    Jr { b: u8 },
    /// `l.cust1 f`: the secure instruction f, at most 10.
    Cust1 { f: u8 },
    /// `l.lwz D,I(A)`: load the word at A plus I.
    Lwz { d: u8, i: i16, a: u8 },
    /// `l.lbz D,I(A)`: load the byte at A plus I, extended by zeros.
    Lbz { d: u8, i: i16, a: u8 },
    /// `l.addi D,A,I`: the sum.
    Addi { d: u8, a: u8, i: i16 },
    /// `l.andi D,A,K`: the bitwise and.
    Andi { d: u8, a: u8, k: u16 },
    /// `l.ori D,A,K`: the bitwise or.
    Ori { d: u8, a: u8, k: u16 },
    /// `l.slli D,A,L`: A shifted left by L.
    Slli { d: u8, a: u8, l: u8 },
    /// `l.srli D,A,L`: A shifted right by L, with zeros.
    Srli { d: u8, a: u8, l: u8 },
    /// `l.srai D,A,L`: A shifted right by L, with its sign.
    Srai { d: u8, a: u8, l: u8 },
    /// `l.sw I(A),B`: store the word B at A plus I.
    Sw { i: i16, a: u8, b: u8 },
    /// `l.sb I(A),B`: store the low byte of B at A plus I.
    Sb { i: i16, a: u8, b: u8 },
    /// `l.add D,A,B`: the sum.
    Add { d: u8, a: u8, b: u8 },
    /// `l.sub D,A,B`: the difference.
    Sub { d: u8, a: u8, b: u8 },
    /// `l.and D,A,B`: the bitwise and.
    And { d: u8, a: u8, b: u8 },
    /// `l.or D,A,B`: the bitwise or.
    Or { d: u8, a: u8, b: u8 },
    /// `l.xor D,A,B`: the bitwise exclusive or.
    Xor { d: u8, a: u8, b: u8 },
    /// `l.mul D,A,B`: the low 32 bits of the product.
    Mul { d: u8, a: u8, b: u8 },
    /// `l.div D,A,B`: the quotient of signed numbers, towards zero.
    Div { d: u8, a: u8, b: u8 },
    /// `l.divu D,A,B`: the quotient of unsigned numbers.
    Divu { d: u8, a: u8, b: u8 },
    /// `l.sll D,A,B`: A shifted left by the low five bits of B.
    Sll { d: u8, a: u8, b: u8 },
    /// `l.srl D,A,B`: A shifted right by the low five bits of B, with zeros.
    Srl { d: u8, a: u8, b: u8 },
    /// `l.sra D,A,B`: A shifted right by the low five bits of B, with its sign.
    Sra { d: u8, a: u8, b: u8 },
    /// `l.sfeq A,B`: set the flag if A and B are equal.
    Sfeq { a: u8, b: u8 },
    /// `l.sfne A,B`: set the flag if A and B differ.
    Sfne { a: u8, b: u8 },
    /// `l.sfgtu A,B`: set the flag if A is greater, unsigned.
    Sfgtu { a: u8, b: u8 },
    /// `l.sfgeu A,B`: set the flag if A is greater or equal, unsigned.
    Sfgeu { a: u8, b: u8 },
    /// `l.sfltu A,B`: set the flag if A is less, unsigned.
    Sfltu { a: u8, b: u8 },
    /// `l.sfleu A,B`: set the flag if A is less or equal, unsigned.
    Sfleu { a: u8, b: u8 },
    /// `l.sfgts A,B`: set the flag if A is greater, signed.
    Sfgts { a: u8, b: u8 },
    /// `l.sfges A,B`: set the flag if A is greater or equal, signed.
    Sfges { a: u8, b: u8 },
    /// `l.sflts A,B`: set the flag if A is less, signed.
    Sflts { a: u8, b: u8 },
    /// `l.sfles A,B`: set the flag if A is less or equal, signed.
    Sfles { a: u8, b: u8 },
}
