//! AES-128 under one key.
ghost use Rattle.std.specs.Prelude.{◌≡◌};
ghost use Rattle.aes_pad.specs.Cipher.{cipher};

use crate::rounds::{bytes_of, last_state, next_key, next_state, sum_of, words_of};
use crate::tables::ROUND_CONSTANTS;
use aegis_num::Key;
use std::marker::Model;

/// AES-128 under one key (FIPS 197), with the round keys made beforehand. Contracts see it as the key.
#[derive(Drop)]
pub struct Aes {
    keys: [[u32; 4]; 11],
}

impl Model for Aes {
    ghost use Rattle.aegis_num.specs.declared.storage.Key.{Key};
    ghost use Rattle.aes_pad.specs.KeptKeys.{key_of, IsExpanded};

    ghost Value = { Key };

    ghost view = { key_of };

    ghost invariant = { IsExpanded };
}

impl Aes {
    /// The cipher under a key: it makes the round keys (section 5.2).
    pub fn new(key: &Key) -> Aes
        ensures key { result ≡ key.now }
    {
        let mut keys = [words_of(&key.0); 11];
        'expansion: for round in 0..10 {
            keys[round + 1] = next_key(keys[round], ROUND_CONSTANTS[round]);
        }
        Aes { keys }
    }

    /// A block, encrypted (section 5.1).
    pub fn encrypt(&self, block: [u8; 16]) -> [u8; 16]
        ensures value { result ≡ cipher self.now.0 block }
    {
        let mut state = sum_of(words_of(&block), self.keys[0]);
        'rounds: for round in 0..9 {
            let next = next_state(state, self.keys[round + 1]);
            state = next;
        }
        bytes_of(last_state(state, self.keys[10]))
    }
}
