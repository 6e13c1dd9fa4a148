//! The laws of the parser on lists.
ghost use Rattle.c_parser.specs.DescentLaws.{ReadsPrograms, StopsAtExpected, StopsAtDeep};

/// The parser reads tokens to their end as a program where they are that program, and only there.
pub fn reads_programs()
    ensures reads { ReadsPrograms }
{}

/// Where the parser stops at a token that it does not expect, or at the end, no program goes on so, and no token before
/// nests too deep.
pub fn stops_at_expected()
    ensures stops { StopsAtExpected }
{}

/// Where the parser stops for the depth, the token that is left first nests too deep.
pub fn stops_at_deep()
    ensures stops { StopsAtDeep }
{}
