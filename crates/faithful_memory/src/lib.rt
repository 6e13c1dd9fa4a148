//! What a secure memory contains while each block that it read is as it was written.
#![tactic(auto)]

mod laws;

pub use laws::{
    Asks, accesses_read_contents, accesses_read_data, asking_meets_bus, checks_read_contents,
    contents_are_asked, contents_are_words, contents_stay_home, entering_gives_statics,
    given_words_stay, outside_events_keep_contents, steps_go_alike, steps_settle,
    tree_reads_as_written,
};
