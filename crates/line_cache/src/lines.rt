//! What a cache of lines is, whatever it removes first.
ghost use Rattle.std.specs.Prelude.{◌≡◌, ℕ, Bool, false, List, ◌↔◌, IsTrue, IsNone, IfSome, Some};
ghost use Rattle.std.specs.FinMap.{contains_key, get, insert, remove};
ghost use Rattle.std.specs.Borrow.{Lends, sem, u8 as byte, Array};

use arrayvec::ArrayVec;

/// Blocks that must not be removed now: at most those of two paths from the root to a block of the lowest level.
#[derive(Debug, Drop)]
pub struct Pins {
    /// The numbers of the blocks, in any order.
    pub blocks: ArrayVec<u32, 18>,
}

/// The line of a block.
#[derive(Clone, Copy, Debug, PartialEq, Eq)]
pub struct Line {
    /// What the block holds, as it stands on the chip.
    pub payload: [u8; 64],
    /// Whether it may differ from what was written to the block last.
    pub dirty: bool,
}

/// A cache of lines of the tree.
///
/// It is seen as a map from blocks to lines. The parent of each block that is held is held too.
/// No call takes memory.
pub trait Lines {
    ghost use Rattle.line_cache.specs.LineMaps.{LineMap, Holds, AreLines, HasParent, IsChildless, HoldParents, MayBeRemoved, payload_at, dirty_at, with_clean, with_payload};

    /// The lines, by their blocks.
    ghost lines: { Self → LineMap };

    /// Whether there is room for a line of this block.
    ghost has_room: { Self → ℕ → Bool };

    /// What it is after the line of this block was lent, when its payload is left as this list.
    ghost lent: { Self → ℕ → List ℕ → Self };

    /// Whether the block has a line.
    fn holds(&self, block: u32) -> bool
        ensures value { result ≡ contains_key (lines self.now) block };

    /// The payload of the line of a block that is held. Nothing is copied, and the line does not count as used.
    fn payload(&self, block: u32) -> &[u8; 64]
        requires held { Holds (lines self.now) block }
        ensures value { payload_at (lines self.now) block ≡ Some result.now };

    /// Whether the line of a block that is held is dirty.
    fn dirty(&self, block: u32) -> bool
        requires held { Holds (lines self.now) block }
        ensures value { dirty_at (lines self.now) block ≡ Some result };

    /// Notes that the line of a block that is held is used.
    fn touch(&mut self, block: u32)
        requires held { Holds (lines self.old) block }
        ensures lines { lines self.new ≡ lines self.old }
        ensures room { (other : ℕ) → has_room self.new other ≡ has_room self.old other };

    /// Lends the payload of the line of a block that is held, and marks the line as dirty. What stands there when the loan
    /// ends is the payload from then on.
    fn line_mut(&mut self, block: u32) -> &mut [u8; 64]
        requires held { Holds (lines self.old) block }
        ensures* writes_back { sem 𝓛 (Lends Self.row (Array byte 64) self.entry result (lent self.old block)) }
        ensures value { payload_at (lines self.old) block ≡ Some result.now };

    /// None where there is room for a line of this block. Else a block that may be removed to make room: it is held, no
    /// child of it is, and it is not pinned. The parent of each pinned block has to be pinned too.
    fn victim(&self, block: u32, pins: &Pins) -> Option<u32>
        requires parents { HoldParents pins.now.blocks.items }
        ensures none { IsNone result ↔ IsTrue (has_room self.now block) }
        ensures some { IfSome result (MayBeRemoved (lines self.now) pins.now.blocks.items) };

    /// Puts in a clean line for a block that is not held, whose parent is held unless it is block 0, and for which there is
    /// room.
    fn insert(&mut self, block: u32, payload: &[u8; 64])
        requires absent { contains_key (lines self.old) block ≡ false }
        requires parent { HasParent (lines self.old) block }
        requires room { IsTrue (has_room self.old block) }
        ensures lines { lines self.new
            ≡ insert (lines self.old) block (record { payload = payload.now; dirty = false }) };

    /// Marks the line of a block that is held as clean.
    fn clean(&mut self, block: u32)
        requires held { Holds (lines self.old) block }
        ensures lines { lines self.new ≡ with_clean (lines self.old) block }
        ensures room { (other : ℕ) → has_room self.new other ≡ has_room self.old other };

    /// Takes out the line of a block that is held and of which no child is held.
    fn remove(&mut self, block: u32) -> Line
        requires held { Holds (lines self.old) block }
        requires childless { IsChildless (lines self.old) block }
        ensures line { get (lines self.old) block ≡ Some result }
        ensures lines { lines self.new ≡ remove (lines self.old) block };

    /// At most so many lines, and the parent of each block that is held is held.
    ghost sound: { (s : Self) → AreLines (lines s) };

    /// A line that was lent is dirty and has the payload that was left in it, and every other line stays.
    ghost lent_lines: { (s : Self) (block : ℕ) (left : List ℕ) → Holds (lines s) block
        → lines (lent s block left) ≡ with_payload (lines s) block left };

    /// A loan takes no room and makes none.
    ghost lent_room: { (s : Self) (block : ℕ) (left : List ℕ) → Holds (lines s) block
        → (other : ℕ) → has_room (lent s block left) other ≡ has_room s other };
}
