//! What is left of a list of tokens.
ghost use Rattle.std.specs.Prelude.{◌≡◌, ◌≤◌, length, [], ◌↔◌, IsTrue};
ghost use Rattle.c_token.specs.PlainText.{kinds_of};
ghost use Rattle.c_grammar.specs.BoundedTokens.{numbered};
ghost use Rattle.c_descent.proofs.ListParser.{kind_name, first_kind, is_left, is_some_sign, is_some_word, is_at_sign, is_at_word, passed, sign_token, word_token, name_token, number_token, place_or};
ghost use Rattle.c_parser.specs.CursorAnswers.{Matches, TakesSome};

use crate::fault::Fault;
use aegis_num::Name;
use aegis_num::limits::MAX_SOURCE_BYTES;
use c_descent::{Named, Numeral};
use c_token::{Kind, Sign, Token, Word};
use std::marker::Model;

/// The tokens that are left, with the number of the first.
#[derive(Drop)]
pub struct Cursor<'a> {
    place: u32,
    left: &'a [Token],
}

impl<'a> Model for Cursor<'a> {
    ghost use Rattle.std.specs.Prelude.{◌+◌, ◌^◌, ◌<◌, List, length};
    ghost use Rattle.c_token.specs.PlainText.{kinds_of};
    ghost use Rattle.c_grammar.specs.BoundedTokens.{Tok, numbered};

    ghost Value = { List Tok };

    ghost view = { λ cursor. numbered cursor.place (kinds_of cursor.left.now) };

    ghost invariant = { λ cursor. cursor.place + length cursor.left.now < 2 ^ 32 };
}

/// Whether it is this sign.
fn is_sign(kind: Option<Kind>, sign: Sign) -> bool
    ensures { result ≡ is_some_sign sign kind }
{
    match kind {
        Some(Kind::Sign(other)) => other == sign,
        _ => false,
    }
}

/// Whether it is this word.
fn is_word(kind: Option<Kind>, word: Word) -> bool
    ensures { result ≡ is_some_word word kind }
{
    match kind {
        Some(Kind::Word(other)) => other == word,
        _ => false,
    }
}

impl<'a> Cursor<'a> {
    /// All tokens.
    pub fn new(tokens: &'a [Token]) -> Cursor<'a>
        requires { length tokens.now ≤ MAX_SOURCE_BYTES }
        ensures { result ≡ numbered 0 (kinds_of tokens.now) }
    {
        Cursor {
            place: 0,
            left: tokens,
        }
    }

    /// The number of the first token that is left, or this number where none is.
    pub fn place_or(&self, count: u32) -> u32
        ensures { result ≡ place_or count self.now }
    {
        match self.left {
            [] => count,
            [_first, ..] => self.place,
        }
    }

    /// Whether a token is left.
    pub fn is_left(&self) -> bool
        ensures { result ≡ is_left self.now }
    {
        self.first_kind().is_some()
    }

    /// What the first token is.
    pub fn first_kind(&self) -> Option<Kind>
        ensures { result ≡ first_kind self.now }
    {
        match self.left {
            [] => None,
            [first, ..] => Some(first.kind),
        }
    }

    /// Whether the first token is this sign.
    #[tactic(auto, unfolding(c_descent::proofs::ListParser::is_at_sign))]
    pub fn is_at_sign(&self, sign: Sign) -> bool
        ensures { result ≡ is_at_sign sign self.now }
    {
        is_sign(self.first_kind(), sign)
    }

    /// Whether the first token is this word.
    #[tactic(auto, unfolding(c_descent::proofs::ListParser::is_at_word))]
    pub fn is_at_word(&self, word: Word) -> bool
        ensures { result ≡ is_at_word word self.now }
    {
        is_word(self.first_kind(), word)
    }

    /// Takes the first token, where it passes, and answers its number.
    fn pass(&mut self, passes: bool) -> Result<u32, Fault>
        ensures reads { Matches result self.new (passed passes self.old) }
        ensures takes { TakesSome result self.old self.new }
    {
        match self.left {
            [_, rest @ ..] if passes => {
                let place = self.place;
                self.place = place + 1;
                self.left = rest;
                Ok(place)
            }
            _ => Err(Fault::Expected),
        }
    }

    /// Takes this sign, and answers its number.
    #[tactic(auto, unfolding(c_descent::proofs::ListParser::sign_token))]
    pub fn sign(&mut self, wanted: Sign) -> Result<u32, Fault>
        ensures reads { Matches result self.new (sign_token wanted self.old) }
        ensures takes { TakesSome result self.old self.new }
    {
        let passes = self.is_at_sign(wanted);
        self.pass(passes)
    }

    /// Takes this word, and answers its number.
    #[tactic(auto, unfolding(c_descent::proofs::ListParser::word_token))]
    pub fn word(&mut self, wanted: Word) -> Result<u32, Fault>
        ensures reads { Matches result self.new (word_token wanted self.old) }
        ensures takes { TakesSome result self.old self.new }
    {
        let passes = self.is_at_word(wanted);
        self.pass(passes)
    }

    /// The name that the first token is.
    fn first_name(&self) -> Option<Name>
        ensures { result ≡ kind_name (first_kind self.now) }
    {
        match self.left {
            [
                Token {
                    kind: Kind::Name(name),
                    ..
                },
                ..
            ] => Some(*name),
            _ => None,
        }
    }

    /// Takes a name.
    #[tactic(auto, unfolding(c_descent::proofs::ListParser::name_token))]
    pub fn name(&mut self) -> Result<Named, Fault>
        ensures reads { Matches result self.new (name_token self.old) }
        ensures takes { TakesSome result self.old self.new }
    {
        let Some(name) = self.first_name() else {
            return Err(Fault::Expected);
        };
        let token = self.pass(true)?;
        Ok(Named { name, token })
    }

    /// Takes a number.
    #[tactic(auto, unfolding(c_descent::proofs::ListParser::number_token))]
    pub fn number(&mut self) -> Result<Numeral, Fault>
        ensures reads { Matches result self.new (number_token self.old) }
        ensures takes { TakesSome result self.old self.new }
    {
        match self.first_kind() {
            Some(Kind::Number { value, unsigned }) => {
                let token = self.pass(true)?;
                Ok(Numeral {
                    value,
                    unsigned,
                    token,
                })
            }
            _ => Err(Fault::Expected),
        }
    }
}
