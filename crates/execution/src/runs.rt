//! Laws of runs.
ghost use Rattle.execution.specs.Run.{EndsAreOne, EndsInOne, EndsStay, OneIsLonger, RunsJoin};

/// The state after m + n steps is the one after n steps from the one after m.
pub fn runs_join<State, End>()
    ensures joined { RunsJoin State End }
{}

/// After an end more steps change nothing.
pub fn ends_stay<State, End>()
    ensures unchanged { EndsStay State End }
{}

/// A machine has one end from a state.
pub fn end_is_one<State, End>()
    ensures one { EndsAreOne State End }
{}

/// Of two runs from one state one is the longer.
pub fn one_is_longer<State, End>()
    ensures longer { OneIsLonger State End }
{}

/// A machine that ends does so in exactly one number of steps.
pub fn ends_in_one_number_of_steps<State, End>()
    ensures one { EndsInOne State End }
{}
