//! The words of a `build`.
ghost use Rattle.std.specs.Prelude.{◌≡◌, map, string_bytes};
ghost use Rattle.std.specs.Option.{option_map};
ghost use Rattle.aegis_words.specs.BuildWordRow.{build_row};
ghost use Rattle.aegis_words.specs.KeptWords.{build_names_of};

/// The words of a `build`.
#[derive(Clone, Copy)]
pub struct BuildWords<'a> {
    pub source: &'a str,
}

/// Reads the words after the program's name as a `build`.
pub fn build_words(words: &[String]) -> Option<BuildWords<'_>>
    ensures { option_map build_names_of result ≡ build_row (map string_bytes words.now) }
{
    let [command, source] = words else {
        return None;
    };
    if command.as_str() != "build" {
        return None;
    }
    Some(BuildWords {
        source: source.as_str(),
    })
}
