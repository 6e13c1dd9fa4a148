//! Laws of phases of untrusted code: this function does nothing but state them.
ghost use Rattle.untrusted_run.specs.PhaseLaws.{PhasesAreOpen};

/// A phase has one end, makes at most four events for each instruction, accesses open words alone, as the mode SSP
/// grants, and writes nothing else.
pub fn phases()
    ensures law { PhasesAreOpen }
{}
