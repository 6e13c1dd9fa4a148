//! The words of the command line, and the files that they name: a module for each command.
#![tactic(auto)]

mod build;
mod digits;
mod file;
mod list;
mod make;
mod mean;
mod run;
mod table;

pub use build::BuildWords;
pub use file::{File, limit};
pub use list::ListWords;
pub use make::MakeWords;
pub use mean::MeanWords;
pub use run::RunWords;
pub use table::{Command, read_command};
