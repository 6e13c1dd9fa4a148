//! The law of programs that cannot trap.
ghost use Rattle.trap_free.specs.SafePrograms.{SafeProgramsDoNotTrap};

/// A program without an operator that divides, each of whose indices is a number below the length of the array, or is masked
/// with such a number, ends neither by an index nor by a divisor, whatever comes from outside.
pub fn safe_programs_do_not_trap()
    ensures law { SafeProgramsDoNotTrap }
{}
