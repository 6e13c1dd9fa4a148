//! All bytes of off-chip memory in one region, the slots for blocks, and what each change does to them.
ghost use Rattle.std.specs.Prelude.{◌≡◌, ◌+◌, ◌≤◌, ◌<◌, ◌*◌, true, length, replicate, None, IfOk, IfSome};
ghost use Rattle.aegis_num.specs.declared.limits.TheConstants.{SAVE_SLOTS};
ghost use Rattle.regions.specs.Blocks.{data_blocks};
ghost use Rattle.regions.specs.declared.addresses.TheConstants.{OPEN_END, STORED_BLOCK_BYTES};
ghost use Rattle.adversary_script.specs.declared.change.What.TheVariants.{Open, Bytes, Save, Back, Copy};
ghost use Rattle.adversary_script.specs.ScriptRules.{is_in_range};
ghost use Rattle.off_chip.specs.declared.event.Event.TheVariants.{BlockRead, BlockWrite, WordRead, WordWrite};
ghost use Rattle.off_chip.specs.OffChipBytes.{Holds, after_event, HasPlace, IsWordAddress, bytes_loaded, size_of, static_blocks, start_of_place};
ghost use Rattle.scripted_dram.specs.ChangedStates.{data_place, target_place, start_of_target};
ghost use Rattle.scripted_dram.specs.StoredStates.{store_changed, with_memory};

use crate::bytes::{block_at, put_block, put_bytes, put_whole, put_word, whole_at, word_at};
use adversary_script::{Target, What};
use aegis_num::limits::SAVE_SLOTS;
use aegis_num::{Block, OutOfMemory, Place};
use off_chip::{Who, blocks_of_tree, load, start_of};
use raw_region::Region;
use regions::{Layout, STORED_BLOCK_BYTES, leaf};
use std::alloc::Global;
use std::marker::Model;

// The place of a data block.
fn data_place(layout: &Layout, n: u32) -> Place
    requires { n < data_blocks layout.now }
    ensures value { result ≡ data_place layout.now n }
    ensures inside { HasPlace layout.now result }
{
    Place::Tree(leaf(layout, n))
}

// The place of a target, if the layout has it.
fn target_place(layout: &Layout, target: Target) -> Option<Place>
    ensures value { result ≡ target_place layout.now target }
    ensures inside { IfSome result (λ place. HasPlace layout.now place) }
{
    let code_start = layout.verified + layout.private + layout.constants;
    match target {
        Target::Data(n) if n < code_start + layout.code => Some(data_place(layout, n)),
        Target::Node(n) if n < blocks_of_tree(layout) => Some(Place::Tree(n)),
        Target::Text(n) if n < layout.code => Some(data_place(layout, code_start + n)),
        Target::Log(n) if n < layout.log => Some(Place::Log(n)),
        _ => None,
    }
}

// Where the bytes of a target begin, if the layout has it.
#[tactic(auto, using(crate::proofs::Within::within))]
fn start_of_target(layout: &Layout, target: Target) -> Option<usize>
    ensures value { result ≡ start_of_target layout.now target }
    ensures within { IfSome result (λ start. start + STORED_BLOCK_BYTES ≤ size_of layout.now) }
{
    let place = target_place(layout, target)?;
    Some(start_of(blocks_of_tree(layout), place))
}

/// Off-chip memory, and the blocks that were saved.
#[derive(Drop)]
pub struct Storage {
    layout: Layout,
    tree_blocks: u32,
    memory: Region,
    slots: Vec<Option<[u8; STORED_BLOCK_BYTES]>>,
}

impl Model for Storage {
    ghost use Rattle.scripted_dram.specs.StoredStates.{IsStore, Store};

    ghost Value = { Store };

    ghost view = { λ s. record {
      layout = s.layout;
      state = record { memory = s.memory; slots = s.slots.items };
    } };

    ghost invariant = { λ s. IsStore s.layout s.tree_blocks s.memory s.slots.items };
}

// What a memory begins with, in one region.
fn load_region(alloc: Global, layout: &Layout, statics: &[u8]) -> Result<Region, OutOfMemory>
    requires { length statics.now ≡ 64 * static_blocks layout.now }
    ensures bytes { IfOk result (λ memory. memory ≡ bytes_loaded layout.now statics.now) }
    ensures size { IfOk result (λ memory. length memory ≡ size_of layout.now) }
{
    let bytes = load(alloc, layout, statics)?;
    let mut memory = Region::new(alloc, bytes.len())?;
    put_bytes(&mut memory, 0, &bytes);
    Ok(memory)
}

impl Storage {
    /// What a memory begins with, before any change.
    pub fn new(alloc: Global, layout: &Layout, statics: &[u8]) -> Result<Storage, OutOfMemory>
        requires { length statics.now ≡ 64 * static_blocks layout.now }
        ensures { IfOk result (λ storage. storage ≡ record {
          layout = layout.now;
          state = record { memory = bytes_loaded layout.now statics.now; slots = replicate SAVE_SLOTS None };
        }) }
    {
        let memory = load_region(alloc, layout, statics)?;
        Ok(Storage {
            layout: *layout,
            tree_blocks: blocks_of_tree(layout),
            memory,
            slots: vec![in alloc; None; SAVE_SLOTS as usize]?,
        })
    }

    // Writes open bytes.
    fn open(&mut self, at: u32, bytes: &[u8])
        requires { at + length bytes.now ≤ OPEN_END }
        ensures { self.new ≡ store_changed (Open at bytes.now) self.old }
    {
        put_bytes(&mut self.memory, at as usize, bytes);
    }

    // Writes bytes of a block.
    fn write(&mut self, target: Target, at: u32, bytes: &[u8])
        requires { at + length bytes.now ≤ STORED_BLOCK_BYTES }
        ensures { self.new ≡ store_changed (Bytes target at bytes.now) self.old }
    {
        if let Some(start) = start_of_target(&self.layout, target) {
            put_bytes(&mut self.memory, start + at as usize, bytes);
        }
    }

    // Keeps a block in a slot.
    fn save(&mut self, slot: u32, target: Target)
        requires { slot < SAVE_SLOTS }
        ensures { self.new ≡ store_changed (Save slot target) self.old }
    {
        if let Some(start) = start_of_target(&self.layout, target) {
            self.slots[slot as usize] = Some(whole_at(&self.memory, start));
        }
    }

    // Puts the block of a slot back over a block.
    fn back(&mut self, slot: u32, target: Target)
        requires { slot < SAVE_SLOTS }
        ensures { self.new ≡ store_changed (Back slot target) self.old }
    {
        let saved = self.slots[slot as usize];
        if let (Some(start), Some(bytes)) = (start_of_target(&self.layout, target), saved) {
            put_whole(&mut self.memory, start, &bytes);
        }
    }

    // Puts one block over another.
    fn copy(&mut self, from: Target, to: Target)
        ensures { self.new ≡ store_changed (Copy from to) self.old }
    {
        let places = (
            start_of_target(&self.layout, from),
            start_of_target(&self.layout, to),
        );
        if let (Some(from), Some(to)) = places {
            let bytes = whole_at(&self.memory, from);
            put_whole(&mut self.memory, to, &bytes);
        }
    }

    /// Does a change.
    pub fn change(&mut self, what: &What)
        requires { is_in_range what.now ≡ true }
        ensures { self.new ≡ store_changed what.now self.old }
    {
        match what {
            What::Open { at, bytes } => self.open(*at, bytes.as_slice()),
            What::Bytes { target, at, bytes } => self.write(*target, *at, bytes.as_slice()),
            What::Save { slot, target } => self.save(*slot, *target),
            What::Back { slot, target } => self.back(*slot, *target),
            What::Copy { from, to } => self.copy(*from, *to),
        }
    }

    /// The block that stands at a place.
    pub fn read_block(&self, at: Place) -> Block
        requires { HasPlace self.now.layout at }
        ensures { Holds self.now.layout self.now.state.memory (BlockRead at result) }
    {
        block_at(&self.memory, start_of(self.tree_blocks, at))
    }

    /// Puts a block over the one at a place.
    pub fn write_block(&mut self, at: Place, block: &Block)
        requires { HasPlace self.old.layout at }
        ensures { self.new ≡ with_memory
            (after_event self.old.layout (BlockWrite at block.now) self.old.state.memory) self.old }
    {
        put_block(&mut self.memory, start_of(self.tree_blocks, at), block);
    }

    /// The open word at an address.
    pub fn read_word(&self, by: Who, at: u32) -> u32
        requires { IsWordAddress at }
        ensures { Holds self.now.layout self.now.state.memory (WordRead by at result) }
    {
        word_at(&self.memory, at as usize)
    }

    /// Puts a word over the open one at an address.
    pub fn write_word(&mut self, by: Who, at: u32, word: u32)
        requires { IsWordAddress at }
        ensures { self.new ≡ with_memory
            (after_event self.old.layout (WordWrite by at word) self.old.state.memory) self.old }
    {
        put_word(&mut self.memory, at as usize, word);
    }
}
