//! One raw allocation, seen as a list of bytes.
#![tactic(auto)]

mod memory;
mod region;

pub use region::Region;
