//! The words of a `make`.
ghost use Rattle.std.specs.Prelude.{◌≡◌, ◌≤◌, IfSome, map, string_bytes};
ghost use Rattle.std.specs.Option.{option_map};
ghost use Rattle.work_maker.specs.declared.TheConstants.{MOST_FUNCTIONS};
ghost use Rattle.aegis_words.specs.KeptWords.{make_names_of};
ghost use Rattle.aegis_words.specs.MakeWordRow.{make_row};

use crate::digits::count_in;

/// The word of a `make`: how many functions its source has.
#[derive(Clone, Copy)]
pub struct MakeWords {
    pub number: u32,
}

/// Reads the words after the program's name as a `make`.
pub fn make_words(words: &[String]) -> Option<MakeWords>
    ensures names { option_map make_names_of result ≡ make_row (map string_bytes words.now) }
    ensures within { IfSome result (λ names. (1 ≤ names.number) × (names.number ≤ MOST_FUNCTIONS)) }
{
    let [command, number] = words else {
        return None;
    };
    if command.as_str() != "make" {
        return None;
    }
    let number = count_in(number.as_str())?;
    Some(MakeWords { number })
}
