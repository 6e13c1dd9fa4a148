//! Instruction words for flat code: which instructions each operation becomes, where they stand, and that they do on the ideal
//! machine what the flat code means.
#![tactic(auto)]

mod code;
mod constants;
mod error;
mod image;
mod laws;
mod operations;
mod sites;
mod tables;

pub use error::EmitError;
pub use image::emit;
pub use laws::{images_are_sound, images_mean_code, sizes_fit_weights};

#[cfg(test)]
mod tests;
