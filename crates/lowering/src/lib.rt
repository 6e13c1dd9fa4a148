//! How programs with resolved names are lowered to flat code, as definitions, and what follows from them.
#![tactic(auto)]

mod laws;

pub use laws::{
    cells_are_as_listed, lowered_code_is_lawful, lowered_code_is_small,
    lowered_code_means_the_source,
};
