//! The signs of the source language (ISO/IEC 9899, section 6.4.6).
ghost use Rattle.std.specs.Prelude.{◌≡◌, Some};
ghost use Rattle.c_token.specs.SignSpelling.{sign_spelling, sign_spelled};

/// A sign.
#[derive(Clone, Copy, Debug, PartialEq, Eq)]
pub enum Sign {
    /// `(`
    LeftParenthesis,
    /// `)`
    RightParenthesis,
    /// `{`
    LeftBrace,
    /// `}`
    RightBrace,
    /// `[`
    LeftBracket,
    /// `]`
    RightBracket,
    /// `;`
    Semicolon,
    /// `,`
    Comma,
    /// `=`
    Assign,
    /// `+`
    Plus,
    /// `-`
    Minus,
    /// `*`
    Star,
    /// `/`
    Slash,
    /// `%`
    Percent,
    /// `&`
    Ampersand,
    /// `|`
    VerticalBar,
    /// `^`
    Caret,
    /// `~`
    Tilde,
    /// `!`
    Exclamation,
    /// `<`
    LessThan,
    /// `>`
    GreaterThan,
    /// `<=`
    LessOrEqual,
    /// `>=`
    GreaterOrEqual,
    /// `==`
    EqualTo,
    /// `!=`
    NotEqualTo,
    /// `<<`
    ShiftLeft,
    /// `>>`
    ShiftRight,
    /// `&&`
    LogicalAnd,
    /// `||`
    LogicalOr,
}

const SIGNS: [Sign; 29] = [
    Sign::LeftParenthesis,
    Sign::RightParenthesis,
    Sign::LeftBrace,
    Sign::RightBrace,
    Sign::LeftBracket,
    Sign::RightBracket,
    Sign::Semicolon,
    Sign::Comma,
    Sign::Assign,
    Sign::Plus,
    Sign::Minus,
    Sign::Star,
    Sign::Slash,
    Sign::Percent,
    Sign::Ampersand,
    Sign::VerticalBar,
    Sign::Caret,
    Sign::Tilde,
    Sign::Exclamation,
    Sign::LessThan,
    Sign::GreaterThan,
    Sign::LessOrEqual,
    Sign::GreaterOrEqual,
    Sign::EqualTo,
    Sign::NotEqualTo,
    Sign::ShiftLeft,
    Sign::ShiftRight,
    Sign::LogicalAnd,
    Sign::LogicalOr,
];

impl Sign {
    /// The text that spells the sign, and no other sign.
    pub fn spelling(self) -> &'static str
        ensures spelling { result.now ≡ sign_spelling self }
        ensures own { sign_spelled result.now ≡ Some self }
    {
        match self {
            Sign::LeftParenthesis => "(",
            Sign::RightParenthesis => ")",
            Sign::LeftBrace => "{",
            Sign::RightBrace => "}",
            Sign::LeftBracket => "[",
            Sign::RightBracket => "]",
            Sign::Semicolon => ";",
            Sign::Comma => ",",
            Sign::Assign => "=",
            Sign::Plus => "+",
            Sign::Minus => "-",
            Sign::Star => "*",
            Sign::Slash => "/",
            Sign::Percent => "%",
            Sign::Ampersand => "&",
            Sign::VerticalBar => "|",
            Sign::Caret => "^",
            Sign::Tilde => "~",
            Sign::Exclamation => "!",
            Sign::LessThan => "<",
            Sign::GreaterThan => ">",
            Sign::LessOrEqual => "<=",
            Sign::GreaterOrEqual => ">=",
            Sign::EqualTo => "==",
            Sign::NotEqualTo => "!=",
            Sign::ShiftLeft => "<<",
            Sign::ShiftRight => ">>",
            Sign::LogicalAnd => "&&",
            Sign::LogicalOr => "||",
        }
    }
}

/// The sign that these bytes spell.
pub fn sign_spelled(bytes: &[u8]) -> Option<Sign>
    ensures { result ≡ sign_spelled bytes.now }
{
    SIGNS
        .iter()
        .copied()
        .find(|sign| sign.spelling().as_bytes() == bytes)
}
