//! Words that write numbers and bytes.
ghost use Rattle.std.specs.Prelude.{◌≡◌, ◌≤◌, IfSome, IsTrue};
ghost use Rattle.std.specs.List.{list_all};
ghost use Rattle.std.specs.Char.{is_ascii_digit};
ghost use Rattle.std.specs.Str.Parse.{digits_value};
ghost use Rattle.work_maker.specs.declared.TheConstants.{MOST_FUNCTIONS};
ghost use Rattle.aegis_words.specs.NumberWords.{bound_in as bound_in_word, count_in as count_in_word, hex_bytes, is_number as is_number_word};

use aegis_num::limits::MAX_FUEL;
use hex::FromHex;
use work_maker::MOST_FUNCTIONS;

/// The fuel or the number of turns that a word writes: one to ten decimal digits of at most 33,554,432.
pub fn bound_in(word: &str) -> Option<u64>
    ensures { result ≡ bound_in_word word.now }
{
    if !is_number(word) {
        return None;
    }
    let number = number_of(word);
    (number <= MAX_FUEL).then_some(number)
}

/// How many functions a made source is to have, as a word writes it: one or two decimal digits of a number from 1 to 48.
pub fn count_in(word: &str) -> Option<u32>
    ensures value { result ≡ count_in_word word.now }
    ensures within { IfSome result (λ number. (1 ≤ number) × (number ≤ MOST_FUNCTIONS)) }
{
    if !is_number(word) || word.len() > 2 {
        return None;
    }
    let number = number_of(word);
    if number < 1 || number > MOST_FUNCTIONS as u64 {
        return None;
    }
    Some(number as u32)
}

/// Whether a word is one to ten decimal digits.
fn is_number(word: &str) -> bool
    ensures { result ≡ is_number_word word.now }
{
    let digits = word.as_bytes();
    1 <= digits.len() && digits.len() <= 10 && are_digits(digits)
}

/// Whether each byte is a decimal digit.
fn are_digits(bytes: &[u8]) -> bool
    ensures { result ≡ list_all is_ascii_digit bytes.now }
{
    bytes.iter().all(|byte| byte.is_ascii_digit())
}

/// The number that the digits of a word write.
fn number_of(word: &str) -> u64
    requires { IsTrue (is_number_word word.now) }
    ensures { result ≡ digits_value 10 word.now }
{
    word.parse::<u64>().unwrap()
}

/// The bytes of a key: 32 hexadecimal digits, in either case.
pub fn key_in(word: &str) -> Option<[u8; 16]>
    ensures { result ≡ hex_bytes 16 word.now }
{
    <[u8; 16] as FromHex>::from_hex(word).ok()
}

/// The bytes of a nonce: 16 hexadecimal digits, in either case.
pub fn nonce_in(word: &str) -> Option<[u8; 8]>
    ensures { result ≡ hex_bytes 8 word.now }
{
    <[u8; 8] as FromHex>::from_hex(word).ok()
}
