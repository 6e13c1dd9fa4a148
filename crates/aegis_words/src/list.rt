//! The words of a `list`.
ghost use Rattle.std.specs.Prelude.{◌≡◌, map, string_bytes};
ghost use Rattle.std.specs.Option.{option_map};
ghost use Rattle.aegis_words.specs.KeptWords.{list_names_of};
ghost use Rattle.aegis_words.specs.ListWordRow.{list_row};

/// The words of a `list`.
#[derive(Clone, Copy)]
pub struct ListWords<'a> {
    pub image: &'a str,
}

/// Reads the words after the program's name as a `list`.
pub fn list_words(words: &[String]) -> Option<ListWords<'_>>
    ensures { option_map list_names_of result ≡ list_row (map string_bytes words.now) }
{
    let [command, image] = words else {
        return None;
    };
    if command.as_str() != "list" {
        return None;
    }
    Some(ListWords {
        image: image.as_str(),
    })
}
