//! The steps of a round and of the key's expansion, on columns as words.
ghost use Rattle.std.specs.Prelude.{◌≡◌, [], ◌∷◌};
ghost use Rattle.std.specs.Int.{w32, to_be_bytes};
ghost use Rattle.aes_pad.specs.Field.{sub_byte};
ghost use Rattle.aes_pad.specs.Cipher.{xor_bytes, mixed, next_key, next_state, last_state};
ghost use Rattle.aes_pad.specs.KeptKeys.{bytes_of};

use crate::tables::{MIXED, SUBSTITUTES};

// The word of four bytes, the first one as the greatest.
fn word_of(a: u8, b: u8, c: u8, d: u8) -> u32
    ensures { to_be_bytes w32 result ≡ a ∷ b ∷ c ∷ d ∷ [] }
{
    u32::from_be_bytes([a, b, c, d])
}

/// Sixteen bytes as four words.
pub(crate) fn words_of(block: &[u8; 16]) -> [u32; 4]
    ensures { bytes_of result ≡ block.now }
{
    let first = word_of(block[0], block[1], block[2], block[3]);
    let second = word_of(block[4], block[5], block[6], block[7]);
    let third = word_of(block[8], block[9], block[10], block[11]);
    let fourth = word_of(block[12], block[13], block[14], block[15]);
    [first, second, third, fourth]
}

/// Four words as sixteen bytes.
pub(crate) fn bytes_of(words: [u32; 4]) -> [u8; 16]
    ensures { result ≡ bytes_of words }
{
    let a = words[0].to_be_bytes();
    let b = words[1].to_be_bytes();
    let c = words[2].to_be_bytes();
    let d = words[3].to_be_bytes();
    [
        a[0], a[1], a[2], a[3], b[0], b[1], b[2], b[3], c[0], c[1], c[2], c[3], d[0], d[1], d[2],
        d[3],
    ]
}

/// A state and a round key, added.
pub(crate) fn sum_of(words: [u32; 4], others: [u32; 4]) -> [u32; 4]
    ensures { bytes_of result ≡ xor_bytes (bytes_of words) (bytes_of others) }
{
    [
        words[0] ^ others[0],
        words[1] ^ others[1],
        words[2] ^ others[2],
        words[3] ^ others[3],
    ]
}

// The word of four bytes, each through the S-box.
fn substituted_word(a: u8, b: u8, c: u8, d: u8) -> u32
    ensures { to_be_bytes w32 result ≡ sub_byte a ∷ sub_byte b ∷ sub_byte c ∷ sub_byte d ∷ [] }
{
    word_of(
        SUBSTITUTES[a as usize],
        SUBSTITUTES[b as usize],
        SUBSTITUTES[c as usize],
        SUBSTITUTES[d as usize],
    )
}

// The column of four bytes, each through the S-box, mixed.
fn mixed_word(a: u8, b: u8, c: u8, d: u8) -> u32
    ensures { to_be_bytes w32 result ≡ mixed (sub_byte a) (sub_byte b) (sub_byte c) (sub_byte d) }
{
    MIXED[a as usize]
        ^ MIXED[b as usize].rotate_right(8)
        ^ MIXED[c as usize].rotate_right(16)
        ^ MIXED[d as usize].rotate_right(24)
}

/// The state after a round.
pub(crate) fn next_state(state: [u32; 4], key: [u32; 4]) -> [u32; 4]
    ensures { bytes_of result ≡ next_state (bytes_of state) (bytes_of key) }
{
    let a = state[0].to_be_bytes();
    let b = state[1].to_be_bytes();
    let c = state[2].to_be_bytes();
    let d = state[3].to_be_bytes();
    let first = mixed_word(a[0], b[1], c[2], d[3]);
    let second = mixed_word(b[0], c[1], d[2], a[3]);
    let third = mixed_word(c[0], d[1], a[2], b[3]);
    let fourth = mixed_word(d[0], a[1], b[2], c[3]);
    sum_of([first, second, third, fourth], key)
}

/// The state after the last round.
pub(crate) fn last_state(state: [u32; 4], key: [u32; 4]) -> [u32; 4]
    ensures { bytes_of result ≡ last_state (bytes_of state) (bytes_of key) }
{
    let a = state[0].to_be_bytes();
    let b = state[1].to_be_bytes();
    let c = state[2].to_be_bytes();
    let d = state[3].to_be_bytes();
    let first = substituted_word(a[0], b[1], c[2], d[3]);
    let second = substituted_word(b[0], c[1], d[2], a[3]);
    let third = substituted_word(c[0], d[1], a[2], b[3]);
    let fourth = substituted_word(d[0], a[1], b[2], c[3]);
    sum_of([first, second, third, fourth], key)
}

/// The round key after one, by the round constant.
pub(crate) fn next_key(key: [u32; 4], constant: u8) -> [u32; 4]
    ensures { bytes_of result ≡ next_key (bytes_of key) constant }
{
    let last = key[3].to_be_bytes();
    let turned = substituted_word(last[1], last[2], last[3], last[0]);
    let constant_word = word_of(constant, 0, 0, 0);
    let first = key[0] ^ (turned ^ constant_word);
    let second = key[1] ^ first;
    let third = key[2] ^ second;
    let fourth = key[3] ^ third;
    [first, second, third, fourth]
}
