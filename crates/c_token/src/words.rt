//! The words of the source language (ISO/IEC 9899, section 6.4.1, and the words of this profile).
ghost use Rattle.std.specs.Prelude.{◌≡◌, Some};
ghost use Rattle.c_token.specs.WordSpelling.{word_spelling, word_spelled};

/// A word that no name may be.
#[derive(Clone, Copy, Debug, PartialEq, Eq)]
pub enum Word {
    /// `int`
    Int,
    /// `unsigned`
    Unsigned,
    /// `void`
    Void,
    /// `const`
    Const,
    /// `if`
    If,
    /// `else`
    Else,
    /// `while`
    While,
    /// `for`
    For,
    /// `return`
    Return,
    /// `break`
    Break,
    /// `continue`
    Continue,
    /// `release`
    Release,
    /// `input`
    Input,
    /// `check`
    Check,
    /// `__verified`
    Verified,
    /// `__private`
    Private,
    /// `__shared`
    Shared,
    /// `__logged`
    Logged,
    /// `__untrusted`
    Untrusted,
}

const WORDS: [Word; 19] = [
    Word::Int,
    Word::Unsigned,
    Word::Void,
    Word::Const,
    Word::If,
    Word::Else,
    Word::While,
    Word::For,
    Word::Return,
    Word::Break,
    Word::Continue,
    Word::Release,
    Word::Input,
    Word::Check,
    Word::Verified,
    Word::Private,
    Word::Shared,
    Word::Logged,
    Word::Untrusted,
];

impl Word {
    /// The text that spells the word, and no other word.
    pub fn spelling(self) -> &'static str
        ensures spelling { result.now ≡ word_spelling self }
        ensures own { word_spelled result.now ≡ Some self }
    {
        match self {
            Word::Int => "int",
            Word::Unsigned => "unsigned",
            Word::Void => "void",
            Word::Const => "const",
            Word::If => "if",
            Word::Else => "else",
            Word::While => "while",
            Word::For => "for",
            Word::Return => "return",
            Word::Break => "break",
            Word::Continue => "continue",
            Word::Release => "release",
            Word::Input => "input",
            Word::Check => "check",
            Word::Verified => "__verified",
            Word::Private => "__private",
            Word::Shared => "__shared",
            Word::Logged => "__logged",
            Word::Untrusted => "__untrusted",
        }
    }
}

/// The word that these bytes spell.
pub fn word_spelled(bytes: &[u8]) -> Option<Word>
    ensures { result ≡ word_spelled bytes.now }
{
    WORDS
        .iter()
        .copied()
        .find(|word| word.spelling().as_bytes() == bytes)
}
