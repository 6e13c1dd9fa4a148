//! Lists with commas between their parts.
ghost use Rattle.std.specs.Prelude.{◌≡◌};
ghost use Rattle.c_descent.proofs.ListParser.{Parser, after_comma, separated};
ghost use Rattle.c_parser.specs.CursorAnswers.{Matches, TakesSome};

use c_parser::{Cursor, Fault};
use c_token::Sign;
use sqlite_items::Items;
use std::alloc::Global;

/// What stands between the commas of a list.
pub trait Part: Drop {
    ghost parser: { Parser Self };

    /// Reads one part.
    fn read(cursor: &mut Cursor<'_>) -> Result<Self, Fault>
        ensures reads { Matches result cursor.new (parser cursor.old) }
        ensures takes { TakesSome result cursor.old cursor.new };
}

/// A comma, and the part after it.
#[tactic(auto, unfolding(c_descent::proofs::ListParser::after_comma))]
fn next<P: Part>(cursor: &mut Cursor<'_>) -> Result<P, Fault>
    ensures reads { Matches result cursor.new (after_comma P.parser cursor.old) }
    ensures takes { TakesSome result cursor.old cursor.new }
{
    cursor.sign(Sign::Comma)?;
    P::read(cursor)
}

/// One or more parts, with commas between them.
#[tactic(auto, unfolding(c_descent::proofs::ListParser::separated))]
pub fn separated<P: Part>(alloc: Global, cursor: &mut Cursor<'_>) -> Result<Items<P>, Fault>
    ensures reads { Matches result cursor.new (separated P.parser cursor.old) }
    ensures takes { TakesSome result cursor.old cursor.new }
{
    let mut parts = Items::new(alloc);
    let first = P::read(cursor)?;
    parts.push(first)?;
    'each: while cursor.is_at_sign(Sign::Comma) {
        let part = next(cursor)?;
        parts.push(part)?;
    }
    Ok(parts)
}
