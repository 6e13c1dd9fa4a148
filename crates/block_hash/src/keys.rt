//! The keys of a run.
ghost use Rattle.std.specs.Prelude.{◌≡◌};
ghost use Rattle.block_hash.specs.BlockStrings.{key_for, log_key, pad_key};

use crate::strings::{LOG_KEY_TAG, PAD_KEY_TAG, first_of};
use aegis_num::{Key, Keys};
use sha1::Sha1;

// The key for the use that a tag names.
fn key_for(tag: u8, key: &[u8; 16], nonce: &[u8; 8]) -> Key
    ensures { result ≡ key_for tag key.now nonce.now }
{
    let mut hasher = Sha1::new();
    hasher.update(&[tag]);
    hasher.update(key);
    hasher.update(nonce);
    Key(first_of(&hasher.finalize()))
}

/// The keys of a run, by its key and its nonce.
pub fn keys_of(key: &[u8; 16], nonce: &[u8; 8]) -> Keys
    ensures pad { result.pad ≡ pad_key key.now nonce.now }
    ensures log { result.log ≡ log_key key.now nonce.now }
{
    Keys {
        pad: key_for(PAD_KEY_TAG, key, nonce),
        log: key_for(LOG_KEY_TAG, key, nonce),
    }
}
