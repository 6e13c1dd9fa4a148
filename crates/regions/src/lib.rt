//! The rules of memory and modes: which addresses belong to which class, the tree over the data blocks,
//! what each mode may do at each class, and how the secure instructions change the mode.
#![tactic(auto)]

mod addresses;
mod laws;
mod layout;
mod modes;
mod rights;
mod tree;

pub use addresses::{
    BLOCK_BYTES, LOG_START, OPEN_END, SHARED_START, STORED_BLOCK_BYTES, TREE_START,
    UNTRUSTED_START, class_of,
};
pub use laws::tree_laws;
pub use layout::{Layout, MAX_DATA_BLOCKS, MAX_LOG_BLOCKS, MAX_SHARED_BYTES};
pub use modes::ModeUnit;
pub use rights::{Access, Class, Mode, may};
pub use tree::{height, leaf};
