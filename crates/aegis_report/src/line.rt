//! A line that is written piece by piece. It takes no memory.
ghost use Rattle.std.specs.Prelude.{◌≡◌, ◌+◌, ◌*◌, ◌≤◌, ◌++◌, length, codes, decimal};
ghost use Rattle.arrayvec.specs.ArrayString.{array_string_len};
ghost use Rattle.hex.specs.Hex.{encode_lower};
ghost use Rattle.aegis_report.specs.ReportLines.{retired_words, sum_words};

use arrayvec::ArrayString;
use itoa::Buffer;
use stamp_log::MultisetSum;
use std::str;

/// The most bytes of a line, with its line feed.
pub const MAX_LINE_BYTES: usize = 256;

/// The most bytes whose digits are added at once.
const MAX_HEX_BYTES: usize = 20;

/// The most digits that are added at once.
const MAX_HEX_DIGITS: usize = 40;

/// A line with its line feed.
pub type Line = ArrayString<MAX_LINE_BYTES>;

/// Adds a number, in decimal.
pub(crate) fn add_number(line: &mut Line, number: u64)
    requires { array_string_len line.old ≤ 236 }
    ensures added { line.new.bytes ≡ line.old.bytes ++ decimal number }
    ensures short { array_string_len line.new ≤ array_string_len line.old + 20 }
{
    let mut buffer = Buffer::new();
    line.push_str(buffer.format(number));
}

/// Adds bytes, in lower-case hexadecimal digits.
pub(crate) fn add_hex(line: &mut Line, bytes: &[u8])
    requires few { length bytes.now ≤ MAX_HEX_BYTES }
    requires room { array_string_len line.old ≤ 216 }
    ensures added { line.new.bytes ≡ line.old.bytes ++ encode_lower bytes.now }
    ensures short { array_string_len line.new ≡ array_string_len line.old + 2 * length bytes.now }
{
    let mut room = [0; MAX_HEX_DIGITS];
    let digits = &mut room[..2 * bytes.len()];
    hex::encode_to_slice(bytes, digits).unwrap();
    line.push_str(str::from_utf8(digits).unwrap());
}

/// Adds a sum of entries.
pub(crate) fn add_sum(line: &mut Line, sum: &MultisetSum)
    requires { array_string_len line.old ≤ 195 }
    ensures added { line.new.bytes ≡ line.old.bytes ++ sum_words sum.now }
    ensures short { array_string_len line.new ≤ array_string_len line.old + 53 }
{
    add_number(line, sum.count);
    line.push_str(" ");
    add_hex(line, &sum.sum.to_be_bytes());
}

/// Ends a line by the number of instructions.
pub(crate) fn add_retired(line: &mut Line, retired: u64)
    requires { array_string_len line.old ≤ 226 }
    ensures { line.new.bytes ≡ line.old.bytes ++ retired_words retired }
{
    line.push_str(" retired ");
    add_number(line, retired);
    line.push_str("\n");
}
