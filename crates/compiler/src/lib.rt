//! The compiler: images for programs that keep the typing rules, and that they do on the ideal machine what the programs mean.
#![tactic(auto)]

mod compiling;

pub use codegen::EmitError;
pub use compiling::compile;
