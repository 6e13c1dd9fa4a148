//! The words of a `run`.
ghost use Rattle.std.specs.Prelude.{◌≡◌, map, string_bytes};
ghost use Rattle.std.specs.Option.{option_map};
ghost use Rattle.aegis_words.specs.KeptWords.{names_of};
ghost use Rattle.aegis_words.specs.RunWordRow.{run_row};

use crate::digits::{bound_in, key_in, nonce_in};

/// The words of a `run` that are all in their ranges.
#[derive(Clone, Copy)]
pub struct RunWords<'a> {
    pub source: &'a str,
    pub script: &'a str,
    pub input: &'a str,
    pub fuel: u64,
    pub key: [u8; 16],
    pub nonce: [u8; 8],
}

/// Reads the words after the program's name as a `run`.
pub fn run_words(words: &[String]) -> Option<RunWords<'_>>
    ensures { option_map names_of result ≡ run_row (map string_bytes words.now) }
{
    let [command, source, script, input, fuel, key, nonce] = words else {
        return None;
    };
    if command.as_str() != "run" {
        return None;
    }
    let fuel = bound_in(fuel.as_str())?;
    let key = key_in(key.as_str())?;
    let nonce = nonce_in(nonce.as_str())?;
    Some(RunWords {
        source: source.as_str(),
        script: script.as_str(),
        input: input.as_str(),
        fuel,
        key,
        nonce,
    })
}
