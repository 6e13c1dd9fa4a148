//! Laws of the pace of a run: these functions do nothing but state them.
ghost use Rattle.paced_trace.specs.BusPace.{BusStepsFit};
ghost use Rattle.paced_trace.specs.HeldLines.{LinesAreCounted};
ghost use Rattle.paced_trace.specs.PacedSteps.{LeavingIsPaid, ResidentStepsArePaced, StepsArePaced};
ghost use Rattle.paced_trace.specs.StepParts.{PartsFit};
ghost use Rattle.paced_trace.specs.SufficientFuel.{EnoughCoversPace, EnoughSuffices};
ghost use Rattle.paced_trace.specs.SufficientFuel.{FuelLasts, InstructionsAreCounted};

/// A history is at most as long as the pace of its steps.
pub fn paced_steps()
    // Where only resident blocks leave, at most as many leave as came.
    ensures leaving { LeavingIsPaid }

    // Where no more leave than came, and each step fits, the history is paced.
    ensures steps { StepsArePaced }

    // By both.
    ensures both { ResidentStepsArePaced }
{}

/// Fuel that suffices for the ideal machine is enough for each run whose history is paced.
pub fn sufficient_fuel()
    // What is counted of the ideal machine's steps is what its traffic notes.
    ensures counted { InstructionsAreCounted }

    // What is enough by the counts of a source is enough for the pace.
    ensures covers { EnoughCoversPace }

    // So such fuel suffices.
    ensures suffices { EnoughSuffices }

    // With it no run is out of fuel.
    ensures lasts { FuelLasts }
{}

/// A step that is told by its parts fits.
pub fn parts_fit()
    ensures law { PartsFit }
{}

/// A step that fits by the bus machine fits by a machine that asks for the same.
pub fn bus_steps_fit()
    ensures law { BusStepsFit }
{}

/// Where the lines that are held are counted, no more blocks leave than came.
pub fn lines_are_counted()
    ensures law { LinesAreCounted }
{}
