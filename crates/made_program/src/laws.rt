//! The law of made sources.
ghost use Rattle.made_program.specs.MadeSources.{MadeSourcesAreSound};

/// Each made source is a program that keeps the typing rules, an image of it passes no limit, and its meaning ends neither by
/// an index nor by a divisor.
pub fn made_sources_are_sound()
    ensures law { MadeSourcesAreSound }
{}
