//! Laws of the bus machine: these functions do nothing but state them.
ghost use Rattle.bus_machine.specs.BusSegments.{BusInSteps};
ghost use Rattle.bus_machine.specs.BusSteps.{StepIsOnBus};
ghost use Rattle.bus_machine.specs.BusTurns.{BusGoesOver, BusStartsAt};

/// The bus machine that goes back over the history is the one that goes over the steps between boundaries, in order.
pub fn bus_in_steps()
    ensures law { BusInSteps }
{}

/// A memory over a bus, whose calls are told in the form that the bus machine needs.
pub trait OverBus {
    ghost use Rattle.orbis_core.specs.Accesses.{Accesses};
    ghost use Rattle.bus_machine.specs.BusAccesses.{MeetsBus, Sight};

    /// The memory, and what its calls do.
    ghost Lines: { Type 0 };

    ghost calls: { Accesses Lines };

    /// How it is seen.
    ghost sight: { Sight Lines };

    /// Each call keeps to the form.
    ghost meets: { MeetsBus sight calls };
}

/// A step over such a memory is a step of the bus machine over the events that it appended.
pub fn step_is_on_bus<C: OverBus>()
    ensures law { StepIsOnBus C.sight C.calls }
{}

/// The bus machine over the events of one step, from a boundary on.
pub fn bus_turns()
    // Where entering is over it stands where the ideal machine starts.
    ensures starts { BusStartsAt }

    // It takes the blocks that are read, and makes the step where the instruction is done.
    ensures goes { BusGoesOver }
{}
