//! Which block's line lies in which slot, and which blocks were used last.
ghost use Rattle.std.specs.Prelude.{◌≡◌, ◌<◌, ◌≤◌, [], ◌∷◌, ◌++◌, not, None, Some, IfOk, IsTrue, is_some, nat_eq, position, length, replicate, slice_set};
ghost use Rattle.std.specs.List.{list_any};
ghost use Rattle.line_cache.specs.LineOrder.{blocks_of, is_below_limit, is_child_of, is_removable, last_removable, line_of, promoted, without};
ghost use Rattle.line_cache.specs.SlotLists.{slots_below, AreApart};

use aegis_num::OutOfMemory;
use aegis_num::limits::TREE_LINES;
use arrayvec::ArrayVec;
use std::alloc::{AllocError, Global};
use std::marker::Model;

/// How many blocks the table of slots has: those of the highest tree that a layout has, (3^9 - 1) / 2.
const INDEXED_BLOCKS: usize = 9_841;

/// The greatest block whose children have numbers.
const LAST_PARENT: u32 = (u32::MAX - 3) / 3;

/// The slots of the blocks that are held, the block that was used last first, and the free slots.
#[derive(Drop)]
pub(crate) struct Slots {
    /// The blocks with their slots.
    order: ArrayVec<(u32, u8), TREE_LINES>,
    /// The free slots.
    free: ArrayVec<u8, TREE_LINES>,
    /// The slots of the first blocks, by the blocks.
    table: Vec<Option<u8>>,
    /// No block that is held is greater.
    greatest: u32,
}

impl Model for Slots {
    ghost use Rattle.line_cache.specs.SlotLists.{SlotLists};

    ghost Value = { SlotLists };

    ghost use Rattle.line_cache.specs.SlotState.{slot_lists, IsIndexed};

    ghost view = { slot_lists };

    ghost invariant = { IsIndexed };
}

impl Slots {
    /// All slots are free.
    pub(crate) fn new(alloc: Global) -> Result<Slots, OutOfMemory>
        ensures held { IfOk result (λ slots. slots.held ≡ []) }
        ensures free { IfOk result (λ slots. slots.free ≡ slots_below TREE_LINES) }
    {
        let mut free = ArrayVec::new();
        for slot in 0..TREE_LINES as u8 {
            free.push(slot);
        }
        let table = empty_table(alloc)?;
        Ok(Slots {
            order: ArrayVec::new(),
            free,
            table,
            greatest: 0,
        })
    }

    /// The slot of a block.
    pub(crate) fn find(&self, block: u32) -> Option<u8>
        ensures value { result ≡ line_of block self.now.held }
    {
        match self.table.get(block as usize) {
            Some(slot) => *slot,
            None if block > self.greatest => None,
            None => slot_among(&self.order, block),
        }
    }

    /// Whether a slot is free.
    pub(crate) fn has_room(&self) -> bool
        ensures value { result ≡ is_below_limit self.now.held }
    {
        !self.order.is_full()
    }

    /// Whether a child of a block is held.
    fn holds_child(&self, block: u32) -> bool
        ensures value { result ≡ list_any (is_child_of block) (blocks_of self.now.held) }
    {
        let _greatest = self.greatest;
        if block > LAST_PARENT {
            return false;
        }
        let first = 3 * block + 1;
        self.find(first).is_some()
            || self.find(first + 1).is_some()
            || self.find(first + 2).is_some()
    }

    /// Whether a block may be removed.
    fn is_removable(&self, pinned: &[u32], block: u32) -> bool
        ensures value { result ≡ is_removable pinned.now (blocks_of self.now.held) block }
    {
        !self.holds_child(block) && !pinned.contains(&block)
    }

    /// The block that was not used for the longest time, among those that may be removed.
    pub(crate) fn last_removable(&self, pinned: &[u32]) -> Option<u32>
        ensures value { result ≡ last_removable pinned.now self.now.held }
    {
        self.order
            .iter()
            .rev()
            .map(|held| held.0)
            .find(|block| self.is_removable(pinned, *block))
    }

    /// Notes that a block is used.
    pub(crate) fn promote(&mut self, block: u32)
        ensures held { self.new.held ≡ promoted block self.old.held }
        ensures free { self.new.free ≡ self.old.free }
    {
        if let Some(slot) = take_from(&mut self.order, block) {
            self.order.insert(0, (block, slot));
        }
    }

    /// Takes a free slot for a block that has none.
    pub(crate) fn add(&mut self, block: u32) -> u8
        requires absent { line_of block self.old.held ≡ None }
        requires room { IsTrue (is_below_limit self.old.held) }
        ensures held { self.new.held ≡ (block, result) ∷ self.old.held }
        ensures free { self.old.free ≡ self.new.free ++ result ∷ [] }
    {
        let slot = self.free.pop().unwrap();
        self.order.insert(0, (block, slot));
        set_slot(&mut self.table, block, Some(slot));
        self.greatest = self.greatest.max(block);
        slot
    }

    /// Frees the slot of a block, and answers it.
    pub(crate) fn take(&mut self, block: u32) -> u8
        requires held { IsTrue (is_some (line_of block self.old.held)) }
        ensures slot { line_of block self.old.held ≡ Some result }
        ensures held { self.new.held ≡ without block self.old.held }
        ensures free { self.new.free ≡ self.old.free ++ result ∷ [] }
    {
        let slot = take_from(&mut self.order, block).unwrap();
        self.free.push(slot);
        set_slot(&mut self.table, block, None);
        slot
    }
}

/// A table without slots.
fn empty_table(alloc: Global) -> Result<Vec<Option<u8>>, AllocError>
    ensures { IfOk result (λ table. table.items ≡ replicate INDEXED_BLOCKS None) }
{
    Ok(vec![in alloc; None; INDEXED_BLOCKS]?)
}

/// The slot of a block, by all blocks.
fn slot_among(order: &[(u32, u8)], block: u32) -> Option<u8>
    ensures { result ≡ line_of block order.now }
{
    for &(held, slot) in order {
        if block == held {
            return Some(slot);
        }
    }
    None
}

/// The place of a block in the order.
fn place_of(order: &[(u32, u8)], block: u32) -> Option<usize>
    ensures { result ≡ position (λ held. nat_eq block held.0) order.now }
{
    order.iter().position(|held| block == held.0)
}

/// Takes a block out of the order, and answers its slot.
fn take_from(order: &mut ArrayVec<(u32, u8), TREE_LINES>, block: u32) -> Option<u8>
    ensures slot { result ≡ line_of block order.old.items }
    ensures order { order.new.items ≡ without block order.old.items }
{
    let at = place_of(order.as_slice(), block)?;
    Some(order.remove(at).1)
}

/// Sets the slot of a block, if the table has the block.
fn set_slot(table: &mut [Option<u8>], block: u32, slot: Option<u8>)
    ensures within { block < length table.old → table.new ≡ slice_set table.old block slot }
    ensures past { length table.old ≤ block → table.new ≡ table.old }
{
    if (block as usize) < table.len() {
        table[block as usize] = slot;
    }
}
