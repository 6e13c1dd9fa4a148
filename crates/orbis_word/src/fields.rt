//! The fields of an instruction, and their places in its word
//! (OpenRISC 1000 Architecture Manual, section 5.2).
ghost use Rattle.std.specs.Prelude.{◌≡◌, ℕ, ◌+◌, ◌*◌, ◌/◌, ◌%◌, ◌^◌, ◌<◌, ◌≤◌, IfSome};
ghost use Rattle.orbis_word.specs.Reading.{signed, fields_in};
ghost use Rattle.orbis_word.specs.Fields.{complement, FitsComplement, placed, AreInRange};

/// The fields of an instruction, by their letters, in the order in which they are spelled.
#[derive(Clone, Copy)]
pub(crate) enum Fields {
    /// `N`
    N(i32),
    /// `K`
    K(u16),
    /// `D,K`
    Dk(u8, u16),
    /// `B`
    B(u8),
    /// `f`
    F(u8),
    /// `D,I(A)`
    Dia(u8, i16, u8),
    /// `D,A,I`
    Dai(u8, u8, i16),
    /// `D,A,K`
    Dak(u8, u8, u16),
    /// `D,A,L`
    Dal(u8, u8, u8),
    /// `I(A),B`
    Iab(i16, u8, u8),
    /// `D,A,B`
    Dab(u8, u8, u8),
    /// `A,B`
    Ab(u8, u8),
}

impl Fields {
    /// The fields of a word, by the layout of its opcode, if it is the opcode of a row.
    pub(crate) fn read(word: u32) -> Option<Fields>
        ensures value { result ≡ fields_in (word / 2 ^ 26) word }
        ensures in_range { IfSome result AreInRange }
        ensures within { IfSome result (λ fields. placed fields ≤ word) }
    {
        let d = (word >> 21 & 0x1f) as u8;
        let a = (word >> 16 & 0x1f) as u8;
        let b = (word >> 11 & 0x1f) as u8;
        let l = (word & 0x1f) as u8;
        let k = (word & 0xffff) as u16;
        match word >> 26 {
            0x00 | 0x01 | 0x03 | 0x04 => Some(Fields::N(distance(word & 0x03ff_ffff))),
            0x05 => Some(Fields::K(k)),
            0x06 => Some(Fields::Dk(d, k)),
            0x11 => Some(Fields::B(b)),
            0x1c if l <= 10 => Some(Fields::F(l)),
            0x21 | 0x23 => Some(Fields::Dia(d, immediate_in(k), a)),
            0x27 => Some(Fields::Dai(d, a, immediate_in(k))),
            0x29 | 0x2a => Some(Fields::Dak(d, a, k)),
            0x2e => Some(Fields::Dal(d, a, l)),
            0x35 | 0x36 => Some(Fields::Iab(joined(d, (word & 0x07ff) as u16), a, b)),
            0x38 => Some(Fields::Dab(d, a, b)),
            0x39 => Some(Fields::Ab(a, b)),
            _ => None,
        }
    }

    /// The fields at their places in the word, and zeros elsewhere.
    pub(crate) fn place(self) -> u32
        requires { AreInRange self }
        ensures { result ≡ placed self }
    {
        match self {
            Fields::N(n) => n.cast_unsigned() & 0x03ff_ffff,
            Fields::K(k) => u32::from(k),
            Fields::Dk(d, k) => at_d(d) + u32::from(k),
            Fields::B(b) => at_b(b),
            Fields::F(f) => u32::from(f),
            Fields::Dia(d, i, a) => at_d(d) + at_a(a) + immediate(i),
            Fields::Dai(d, a, i) => at_d(d) + at_a(a) + immediate(i),
            Fields::Dak(d, a, k) => at_d(d) + at_a(a) + u32::from(k),
            Fields::Dal(d, a, l) => at_d(d) + at_a(a) + u32::from(l),
            Fields::Iab(i, a, b) => split(i) + at_a(a) + at_b(b),
            Fields::Dab(d, a, b) => at_d(d) + at_a(a) + at_b(b),
            Fields::Ab(a, b) => at_a(a) + at_b(b),
        }
    }
}

/// The register D at its place, from bit 21.
fn at_d(d: u8) -> u32
    requires { d < 32 }
    ensures { result ≡ d * 2 ^ 21 }
{
    u32::from(d) << 21
}

/// The register A at its place, from bit 16.
fn at_a(a: u8) -> u32
    requires { a < 32 }
    ensures { result ≡ a * 2 ^ 16 }
{
    u32::from(a) << 16
}

/// The register B at its place, from bit 11.
fn at_b(b: u8) -> u32
    requires { b < 32 }
    ensures { result ≡ b * 2 ^ 11 }
{
    u32::from(b) << 11
}

/// The number whose two's complement in 26 bits this is.
#[tactic(auto, unfolding(crate::specs::Reading::signed))]
fn distance(bits: u32) -> i32
    requires { bits < 2 ^ 26 }
    ensures value { result ≡ signed 26 bits }
    ensures in_range { FitsComplement 26 result }
    ensures undone { complement 26 result ≡ bits }
{
    if bits < 0x0200_0000 {
        bits as i32
    } else {
        bits as i32 - 0x0400_0000
    }
}

/// The number whose two's complement in 16 bits this is.
#[tactic(auto, unfolding(crate::specs::Reading::signed))]
fn immediate_in(bits: u16) -> i16
    ensures { result ≡ signed 16 bits }
{
    bits.cast_signed()
}

/// The number whose upper five bits and lower eleven bits these are.
fn joined(upper: u8, lower: u16) -> i16
    requires upper_below { upper < 32 }
    requires lower_below { lower < 2 ^ 11 }
    ensures { result ≡ signed 16 (upper * 2 ^ 11 + lower) }
{
    immediate_in((u16::from(upper) << 11) + lower)
}

/// The bits of I, where it stands after the registers.
fn immediate(i: i16) -> u32
    ensures { result ≡ complement 16 i }
{
    u32::from(i.cast_unsigned())
}

/// The bits of I, where its upper five stand before the registers.
fn split(i: i16) -> u32
    ensures { result ≡ complement 16 i / 2 ^ 11 * 2 ^ 21 + complement 16 i % 2 ^ 11 }
{
    let bits = immediate(i);
    (bits >> 11 << 21) + (bits & 0x07ff)
}
