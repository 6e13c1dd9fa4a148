//! The operators of expressions (ISO/IEC 9899, sections 6.5.3 and 6.5.5 to 6.5.14).
ghost use Rattle.std.specs.Prelude.{◌≡◌};
ghost use Rattle.c_grammar.specs.Precedence.{precedence, is_unary_operator};

use c_token::Sign;

/// How tightly an operator of two operands binds: from 1 for those that bind the most tightly to 10,
/// and 0 for each other sign.
pub fn precedence(sign: Sign) -> u32
    ensures { result ≡ precedence sign }
{
    match sign {
        Sign::Star | Sign::Slash | Sign::Percent => 1,
        Sign::Plus | Sign::Minus => 2,
        Sign::ShiftLeft | Sign::ShiftRight => 3,
        Sign::LessThan | Sign::GreaterThan | Sign::LessOrEqual | Sign::GreaterOrEqual => 4,
        Sign::EqualTo | Sign::NotEqualTo => 5,
        Sign::Ampersand => 6,
        Sign::Caret => 7,
        Sign::VerticalBar => 8,
        Sign::LogicalAnd => 9,
        Sign::LogicalOr => 10,
        _ => 0,
    }
}

/// Whether a sign is an operator of one operand: `-`, `~` or `!`.
pub fn is_unary_operator(sign: Sign) -> bool
    ensures { result ≡ is_unary_operator sign }
{
    matches!(sign, Sign::Minus | Sign::Tilde | Sign::Exclamation)
}
