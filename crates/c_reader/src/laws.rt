//! A law of the grammar.
ghost use Rattle.c_reader.specs.SourceText.{OneProgram, OneProgramOfText};

/// Tokens are at most one program, and so is a text.
pub fn one_program()
    ensures one { OneProgram }
    ensures text { OneProgramOfText }
{}
