//! Classes of bytes, and runs of them.
ghost use Rattle.std.specs.Prelude.{◌≡◌, ◌==◌, ◌≤◌, length};
ghost use Rattle.std.specs.List.{prefix_len, position_or_len};
ghost use Rattle.std.specs.Char.{is_ascii_digit, is_ascii_hexdigit};
ghost use Rattle.c_token.specs.TokenSpelling.{is_name_start, is_name_byte, is_suffix_byte};
ghost use Rattle.c_token.specs.TextTokens.{is_blank, begins_with, has_leading_zero};
ghost use Rattle.c_token.specs.Fronts.{suffix_len, begins_hexadecimal};

pub fn is_blank(byte: u8) -> bool
    ensures { result ≡ is_blank byte }
{
    byte == b' ' || byte == b'\t' || byte == b'\r' || byte == b'\n'
}

pub fn is_name_start(byte: u8) -> bool
    ensures { result ≡ is_name_start byte }
{
    byte.is_ascii_alphabetic() || byte == b'_'
}

fn is_name_byte(byte: u8) -> bool
    ensures { result ≡ is_name_byte byte }
{
    byte.is_ascii_alphanumeric() || byte == b'_'
}

/// How many bytes of a name stand first.
pub fn name_len(text: &[u8]) -> usize
    ensures len { result ≡ prefix_len is_name_byte text.now }
    ensures within { result ≤ length text.now }
{
    text.iter().take_while(|byte| is_name_byte(**byte)).count()
}

/// How many decimal digits stand first.
pub fn decimal_len(text: &[u8]) -> usize
    ensures len { result ≡ prefix_len is_ascii_digit text.now }
    ensures within { result ≤ length text.now }
{
    text.iter().take_while(|byte| byte.is_ascii_digit()).count()
}

/// How many hexadecimal digits stand first.
pub fn hexadecimal_len(text: &[u8]) -> usize
    ensures len { result ≡ prefix_len is_ascii_hexdigit text.now }
    ensures within { result ≤ length text.now }
{
    text.iter()
        .take_while(|byte| byte.is_ascii_hexdigit())
        .count()
}

/// How many bytes stand before the first line feed, or in the whole text where there is none.
pub fn line_len(text: &[u8]) -> usize
    ensures len { result ≡ position_or_len (λ byte. byte == 10) text.now }
    ensures within { result ≤ length text.now }
{
    text.iter().take_while(|byte| **byte != b'\n').count()
}

/// Whether a letter, a digit or `_` stands first.
pub fn begins_with_name_byte(text: &[u8]) -> bool
    ensures { result ≡ begins_with is_name_byte text.now }
{
    match text {
        [] => false,
        [first, ..] => is_name_byte(*first),
    }
}

/// How many bytes the suffix of a number takes that stands first, if any.
pub fn suffix_len(text: &[u8]) -> usize
    ensures { result ≡ suffix_len text.now }
{
    match text {
        [b'u' | b'U', ..] => 1,
        _ => 0,
    }
}

/// Whether a 0 and a decimal digit stand first.
pub fn has_leading_zero(text: &[u8]) -> bool
    ensures { result ≡ has_leading_zero text.now }
{
    match text {
        [b'0', second, ..] => second.is_ascii_digit(),
        _ => false,
    }
}

/// Whether `0x` or `0X` and a hexadecimal digit stand first.
pub fn begins_hexadecimal(text: &[u8]) -> bool
    ensures { result ≡ begins_hexadecimal text.now }
{
    match text {
        [b'0', b'x' | b'X', third, ..] => third.is_ascii_hexdigit(),
        _ => false,
    }
}
