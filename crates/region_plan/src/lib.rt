//! Homes for the cells of flat code: how many blocks each class takes, and at which address each cell lies.
#![tactic(auto)]

mod counts;
mod error;
mod homes;
mod placement;

pub use error::PlanError;
pub use homes::Homes;
pub use placement::{Placement, plan};
