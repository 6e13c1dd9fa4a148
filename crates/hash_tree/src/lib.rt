//! The cached hash tree.
#![tactic(auto)]

mod laws;
mod tree;
mod veil;

pub use laws::{
    events_elsewhere, kept_is_expected, layouts_are_lawful, lending_changes_contents,
    reads_as_written, stops_are_unfaithful,
};
pub use tree::{Changed, Tree, pin_path};
pub use veil::Veil;
