//! The cache of the tree's lines that removes the line that was not used for the longest time.
ghost use Rattle.std.specs.Prelude.{◌≡◌, ℕ, ◌∷◌, [], ◌↔◌, false, Some, IfOk, IfSome, IsNone, IsTrue};
ghost use Rattle.std.specs.FinMap.{contains_key, get, insert, remove};

use crate::lines::{Line, Lines, Pins};
use crate::slots::Slots;
use aegis_num::OutOfMemory;
use aegis_num::limits::TREE_LINES;
use std::alloc::Global;
use std::marker::Model;

/// A cache of 128 lines. It is seen as its blocks with their lines, the one that was touched, lent or inserted last first.
#[derive(Drop)]
pub struct LineCache {
    /// The slots of the blocks, in the order of their last use.
    slots: Slots,
    /// The payloads, by slot.
    payloads: Vec<[u8; 64]>,
    /// Whether the lines are dirty, by slot.
    marks: Vec<bool>,
}

impl Model for LineCache {
    ghost use Rattle.std.specs.Prelude.{ℕ, List};
    ghost use Rattle.line_cache.specs.declared.lines.Line.{Line as HeldLine};

    ghost Value = { List (ℕ × HeldLine) };

    ghost use Rattle.line_cache.specs.CacheState.{ordered_lines, IsKept};

    ghost view = { ordered_lines };

    ghost invariant = { IsKept };
}

impl LineCache {
    /// A cache without lines. No other call takes memory.
    pub fn new(alloc: Global) -> Result<LineCache, OutOfMemory>
        ensures empty { IfOk result (λ cache. cache ≡ []) }
    {
        let slots = Slots::new(alloc)?;
        let payloads = vec![in alloc; [0; 64]; TREE_LINES]?;
        let marks = vec![in alloc; false; TREE_LINES]?;
        Ok(LineCache {
            slots,
            payloads,
            marks,
        })
    }
}

impl Lines for LineCache {
    ghost use Rattle.line_cache.specs.LineMaps.{Holds, HasParent, HoldParents, IsChildless, MayBeRemoved, with_clean};
    ghost use Rattle.line_cache.specs.LineOrder.{cleaned, is_below_limit, lines_of, next_victim, promoted, without, written};
    ghost use Rattle.line_cache.specs.OrderLaws.{lines_of-AreLines, lines_of-lent, room-lent};

    ghost lines = { lines_of };

    ghost has_room = { λ cache block. is_below_limit cache };

    ghost lent = { written };

    ghost sound = { lines_of-AreLines };

    ghost lent_lines = { lines_of-lent };

    ghost lent_room = { room-lent };

    fn holds(&self, block: u32) -> bool {
        self.slots.find(block).is_some()
    }

    fn payload(&self, block: u32) -> &[u8; 64] {
        let slot = self.slots.find(block).unwrap();
        &self.payloads[usize::from(slot)]
    }

    fn dirty(&self, block: u32) -> bool {
        let slot = self.slots.find(block).unwrap();
        self.marks[usize::from(slot)]
    }

    fn touch(&mut self, block: u32)
        requires held { Holds (lines_of self.old) block }
        ensures lines { lines_of self.new ≡ lines_of self.old }
        ensures room { (other : ℕ) → is_below_limit self.new ≡ is_below_limit self.old }
        ensures order { self.new ≡ promoted block self.old }
    {
        self.slots.promote(block);
    }

    fn line_mut(&mut self, block: u32) -> &mut [u8; 64] {
        self.slots.promote(block);
        let slot = self.slots.find(block).unwrap();
        self.marks[usize::from(slot)] = true;
        &mut self.payloads[usize::from(slot)]
    }

    fn victim(&self, block: u32, pins: &Pins) -> Option<u32>
        requires parents { HoldParents pins.now.blocks.items }
        ensures none { IsNone result ↔ IsTrue (is_below_limit self.now) }
        ensures some { IfSome result (MayBeRemoved (lines_of self.now) pins.now.blocks.items) }
        ensures last { result ≡ next_victim pins.now.blocks.items self.now }
    {
        if self.slots.has_room() {
            return None;
        }
        self.slots.last_removable(pins.blocks.as_slice())
    }

    fn insert(&mut self, block: u32, payload: &[u8; 64])
        requires absent { contains_key (lines_of self.old) block ≡ false }
        requires parent { HasParent (lines_of self.old) block }
        requires room { IsTrue (is_below_limit self.old) }
        ensures lines { lines_of self.new
            ≡ insert (lines_of self.old) block (record { payload = payload.now; dirty = false }) }
        ensures order { self.new ≡ (block, record { payload = payload.now; dirty = false }) ∷ self.old }
    {
        let slot = self.slots.add(block);
        self.payloads[usize::from(slot)] = *payload;
        self.marks[usize::from(slot)] = false;
    }

    fn clean(&mut self, block: u32)
        requires held { Holds (lines_of self.old) block }
        ensures lines { lines_of self.new ≡ with_clean (lines_of self.old) block }
        ensures room { (other : ℕ) → is_below_limit self.new ≡ is_below_limit self.old }
        ensures order { self.new ≡ cleaned block self.old }
    {
        let slot = self.slots.find(block).unwrap();
        self.marks[usize::from(slot)] = false;
    }

    fn remove(&mut self, block: u32) -> Line
        requires held { Holds (lines_of self.old) block }
        requires childless { IsChildless (lines_of self.old) block }
        ensures line { get (lines_of self.old) block ≡ Some result }
        ensures lines { lines_of self.new ≡ remove (lines_of self.old) block }
        ensures order { self.new ≡ without block self.old }
    {
        let slot = self.slots.take(block);
        Line {
            payload: self.payloads[usize::from(slot)],
            dirty: self.marks[usize::from(slot)],
        }
    }
}
