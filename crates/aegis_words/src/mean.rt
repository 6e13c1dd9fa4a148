//! The words of a `mean`.
ghost use Rattle.std.specs.Prelude.{◌≡◌, map, string_bytes};
ghost use Rattle.std.specs.Option.{option_map};
ghost use Rattle.aegis_words.specs.KeptWords.{mean_names_of};
ghost use Rattle.aegis_words.specs.MeanWordRow.{mean_row};

use crate::digits::bound_in;

/// The words of a `mean` that are all in their ranges.
#[derive(Clone, Copy)]
pub struct MeanWords<'a> {
    pub source: &'a str,
    pub input: &'a str,
    pub turns: u64,
}

/// Reads the words after the program's name as a `mean`.
pub fn mean_words(words: &[String]) -> Option<MeanWords<'_>>
    ensures { option_map mean_names_of result ≡ mean_row (map string_bytes words.now) }
{
    let [command, source, input, turns] = words else {
        return None;
    };
    if command.as_str() != "mean" {
        return None;
    }
    let turns = bound_in(turns.as_str())?;
    Some(MeanWords {
        source: source.as_str(),
        input: input.as_str(),
        turns,
    })
}
