//! What programs of the source language that keep the typing rules mean.
#![tactic(auto)]

mod laws;
mod runs;

pub use c_evaluator::MeanEnd;
pub use laws::{
    names_are_those_of_the_scopes, numbers_lead_to_their_functions, resolved_as_listed,
    resolved_is_well_shaped,
};
pub use runs::mean;
