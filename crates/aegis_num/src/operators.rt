//! The operators of the source language on words of 32 bits (ISO/IEC 9899, sections 6.5.3 and 6.5.5 to 6.5.12).
//! A name that ends in `S` reads its operands as `int`, and one that ends in `U` as `unsigned`.
ghost use Rattle.std.specs.Prelude.{◌≡◌, false};
ghost use Rattle.aegis_num.specs.Operators.{unary, binary, traps};

/// An operator of one operand.
#[derive(Clone, Copy, Debug, PartialEq, Eq)]
pub enum UnaryOp {
    /// `-`
    Neg,
    /// `~`
    Inv,
    /// `!`
    Not,
}

/// An operator of two operands.
#[derive(Clone, Copy, Debug, PartialEq, Eq)]
pub enum BinaryOp {
    /// `+`
    Add,
    /// `-`
    Sub,
    /// `*`
    Mul,
    /// `/` of `int`
    DivS,
    /// `/` of `unsigned`
    DivU,
    /// `%` of `int`
    RemS,
    /// `%` of `unsigned`
    RemU,
    /// `&`
    And,
    /// `|`
    Or,
    /// `^`
    Xor,
    /// `<<`
    Shl,
    /// `>>` of `int`, which keeps the sign
    ShrS,
    /// `>>` of `unsigned`
    ShrU,
    /// `==`
    Eq,
    /// `!=`
    Ne,
    /// `<` of `int`
    LtS,
    /// `<` of `unsigned`
    LtU,
    /// `<=` of `int`
    LeS,
    /// `<=` of `unsigned`
    LeU,
    /// `>` of `int`
    GtS,
    /// `>` of `unsigned`
    GtU,
    /// `>=` of `int`
    GeS,
    /// `>=` of `unsigned`
    GeU,
}

impl UnaryOp {
    /// The word that the operator makes of a word.
    pub fn apply(self, word: u32) -> u32
        ensures { result ≡ unary self word }
    {
        match self {
            UnaryOp::Neg => 0u32.wrapping_sub(word),
            UnaryOp::Inv => u32::MAX - word,
            UnaryOp::Not => u32::from(word == 0),
        }
    }
}

impl BinaryOp {
    /// Whether there is no value with this right operand: a division by zero.
    pub fn traps(self, right: u32) -> bool
        ensures { result ≡ traps self right }
    {
        match self {
            BinaryOp::DivS | BinaryOp::DivU | BinaryOp::RemS | BinaryOp::RemU => right == 0,
            _ => false,
        }
    }

    /// The word that the operator makes of two words, where it does not trap. Sums, differences, products and left
    /// shifts are modulo 2 to the 32nd; quotients go towards zero, and the least `int` by -1 gives itself; a shift
    /// goes by the low five bits of `right`; a comparison gives 0 or 1.
    pub fn apply(self, left: u32, right: u32) -> u32
        requires { traps self right ≡ false }
        ensures { result ≡ binary self left right }
    {
        let (left_int, right_int) = (left.cast_signed(), right.cast_signed());
        match self {
            BinaryOp::Add => left.wrapping_add(right),
            BinaryOp::Sub => left.wrapping_sub(right),
            BinaryOp::Mul => left.wrapping_mul(right),
            BinaryOp::DivS => left_int.wrapping_div(right_int).cast_unsigned(),
            BinaryOp::DivU => left / right,
            BinaryOp::RemS => left_int.wrapping_rem(right_int).cast_unsigned(),
            BinaryOp::RemU => left % right,
            BinaryOp::And => left & right,
            BinaryOp::Or => left | right,
            BinaryOp::Xor => left ^ right,
            BinaryOp::Shl => left.wrapping_shl(right),
            BinaryOp::ShrS => left_int.wrapping_shr(right).cast_unsigned(),
            BinaryOp::ShrU => left.wrapping_shr(right),
            BinaryOp::Eq => u32::from(left == right),
            BinaryOp::Ne => u32::from(left != right),
            BinaryOp::LtS => u32::from(left_int < right_int),
            BinaryOp::LtU => u32::from(left < right),
            BinaryOp::LeS => u32::from(left_int <= right_int),
            BinaryOp::LeU => u32::from(left <= right),
            BinaryOp::GtS => u32::from(left_int > right_int),
            BinaryOp::GtU => u32::from(left > right),
            BinaryOp::GeS => u32::from(left_int >= right_int),
            BinaryOp::GeU => u32::from(left >= right),
        }
    }
}
