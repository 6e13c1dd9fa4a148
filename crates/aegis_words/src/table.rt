//! The table of commands.
ghost use Rattle.std.specs.Prelude.{◌≡◌, IfSome};
ghost use Rattle.std.specs.Option.{option_map};
ghost use Rattle.aegis_words.specs.CommandTable.{command_in};
ghost use Rattle.aegis_words.specs.KeptWords.{IsInRange, command_of};

use crate::build::{BuildWords, build_words};
use crate::list::{ListWords, list_words};
use crate::make::{MakeWords, make_words};
use crate::mean::{MeanWords, mean_words};
use crate::run::{RunWords, run_words};

/// What words ask for.
#[derive(Clone, Copy)]
pub enum Command<'a> {
    /// To compile a source and to run it.
    Run(RunWords<'a>),
    /// To say what a source means.
    Mean(MeanWords<'a>),
    /// To compile a source.
    Build(BuildWords<'a>),
    /// To list the code of an image.
    Listing(ListWords<'a>),
    /// To run a made source.
    Make(MakeWords),
}

/// Reads the words after the program's name as a row of the table of commands.
pub fn read_command(words: &[String]) -> Option<Command<'_>>
    ensures command { option_map command_of result ≡ command_in words.now }
    ensures within { IfSome result IsInRange }
{
    if let Some(names) = run_words(words) {
        return Some(Command::Run(names));
    }
    if let Some(names) = mean_words(words) {
        return Some(Command::Mean(names));
    }
    if let Some(names) = build_words(words) {
        return Some(Command::Build(names));
    }
    if let Some(names) = list_words(words) {
        return Some(Command::Listing(names));
    }
    match make_words(words) {
        Some(names) => Some(Command::Make(names)),
        None => None,
    }
}
