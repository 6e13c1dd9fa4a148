//! Names of the source language.
ghost use Rattle.std.specs.Prelude.{◌≡◌, ◌≤◌, length};
ghost use Rattle.aegis_num.specs.declared.limits.TheConstants.{MAX_NAME_BYTES};

use crate::limits::MAX_NAME_BYTES;
use std::marker::Model;

/// A name of the source language, at most `MAX_NAME_BYTES` bytes long. It lies in the value itself and takes no
/// memory. Two names with equal bytes are equal: the bytes that a name leaves unused are zero.
#[derive(Clone, Copy, Debug, PartialEq, Eq, Hash)]
pub struct Name {
    bytes: [u8; MAX_NAME_BYTES],
    len: usize,
}

impl Model for Name {
    ghost use Rattle.std.specs.Prelude.{ℕ, List};
    ghost use Rattle.aegis_num.specs.NameRoom.{text_of, IsPadded, padded, padded-text_of};

    ghost Value = { List ℕ };

    ghost view = { text_of };

    ghost invariant = { IsPadded };

    ghost inverse = { padded };

    ghost inverse_ok = { padded-text_of };
}

impl Name {
    /// The name with these bytes, which are at most `MAX_NAME_BYTES`.
    pub fn new(text: &[u8]) -> Name
        requires { length text.now ≤ MAX_NAME_BYTES }
        ensures { result ≡ text.now }
    {
        let mut bytes = [0; MAX_NAME_BYTES];
        bytes[..text.len()].copy_from_slice(text);
        Name {
            bytes,
            len: text.len(),
        }
    }

    /// Its bytes.
    pub fn as_bytes(&self) -> &[u8]
        ensures { result.now ≡ self.now }
    {
        &self.bytes[..self.len]
    }
}
