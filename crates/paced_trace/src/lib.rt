//! How many events a run makes at most until each boundary, by facts of each event and of each
//! step, and that fuel which suffices for the ideal machine lasts.
#![tactic(auto)]

mod laws;

pub use laws::{bus_steps_fit, lines_are_counted, paced_steps, parts_fit, sufficient_fuel};
