//! Laws of the machine: these functions do nothing but state them.
ghost use Rattle.aegis_machine.specs.Boundaries.{BoundariesFollow};
ghost use Rattle.aegis_machine.specs.SecureSights.{SecureMeetsBus};
ghost use Rattle.aegis_machine.specs.Ties.{StepsTied};

use bus_machine::OverBus;
use line_cache::Lines;

/// A machine over a memory on a bus that stands where the bus machine of its trace stands goes on with it: after each
/// instruction that is done it stands so again, or both have ended alike; and where one is refused, so is the other.
pub fn steps_stay_tied<C: OverBus>()
    ensures law { StepsTied C.sight C.calls }
{}

/// The five accesses of a secure memory are told in the form of a bus: a step over it is a step of the bus machine.
pub fn secure_memory_meets_bus<L: Lines>()
    ensures law { SecureMeetsBus L }
{}

/// A machine over such a memory that stands at a boundary, and has fuel, stands at the next one after an instruction that was
/// done, with all that is said of its trace; and this is said also where the instruction ended the run.
pub fn boundaries_follow<C: OverBus>()
    ensures law { BoundariesFollow C.sight C.calls }
{}
