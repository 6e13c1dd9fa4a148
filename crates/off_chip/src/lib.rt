//! Off-chip memory as the processor sees it: the bus, the trace of its events, and a memory that answers each
//! read with its last write.
#![tactic(auto)]

mod bus;
mod event;
mod laws;
mod loading;
mod plain;
mod recorder;
mod stored;
mod trace;

pub use bus::OffChip;
pub use event::{Event, Mark, Who};
pub use laws::{
    boundaries_in_order, collisions_name_two, digests_in_order, epochs_in_order, faithful_in_order,
    histories_in_order, one_event_more, plain_is_honest, residency_in_order, same_plain_memory,
    statics_in_place, stretches_are_one, told_layouts, writes_in_order,
};
pub use loading::{RESUME_WORD, load};
pub use plain::PlainDram;
pub use recorder::Recorder;
pub use stored::{
    WORD_BYTES, block_of_bytes, blocks_of_tree, bytes_of_block, size_of, start_of, static_block,
    static_place, word_of_bytes,
};
pub use trace::Trace;
