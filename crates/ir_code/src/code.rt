//! A whole program as flat code.
use crate::ops::Op;
use regions::Class;
use sqlite_items::Items;

/// One word, or an array of words, at a place of its own.
#[derive(Drop)]
pub struct Cell {
    /// How it is protected.
    pub class: Class,
    /// How many words it has.
    pub words: u32,
    /// The words of a constant. Another cell has none here, and starts with zeros.
    pub first: Items<u32>,
}

/// A program as flat code.
#[derive(Drop)]
pub struct Ir {
    /// The cells, which are numbered from 0.
    pub cells: Items<Cell>,
    /// The operations, whose places are counted from 0.
    pub ops: Items<Op>,
    /// The place of the first operation that runs.
    pub entry: u32,
}
