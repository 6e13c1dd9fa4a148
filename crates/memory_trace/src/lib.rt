//! What a secure memory keeps of its trace, whatever its bus answers.
#![tactic(auto)]

mod laws;

pub use laws::{
    accesses_end_no_epoch, accesses_hold_paths, accesses_keep_lines, accesses_keep_sound,
    ended_are_faithful, entering_is_sound, few_are_resident, others_keep_lines, others_keep_sound,
    programs_are_faithful, traced_in_order,
};
