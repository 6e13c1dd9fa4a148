//! Programs that cannot trap, by the form of their parts: none divides, and each index is below the length of its array.
#![tactic(auto)]

mod laws;

pub use laws::safe_programs_do_not_trap;
