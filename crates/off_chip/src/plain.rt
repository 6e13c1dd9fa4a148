//! A memory that answers each read with the last write there.
ghost use Rattle.std.specs.Prelude.{◌≡◌, ◌*◌, ◌+◌, ◌<◌, ◌^◌, [], length, IfOk, Some};
ghost use Rattle.off_chip.specs.OffChipBytes.{bytes_loaded, static_blocks};
ghost use Rattle.off_chip.specs.HonestMemory.{IsPlainTrace};

use crate::bus::OffChip;
use crate::event::{Event, Mark, Who};
use crate::loading::load;
use crate::recorder::Recorder;
use crate::stored::{block_at, blocks_of_tree, put_block, put_word, start_of, word_at};
use crate::trace::Trace;
use aegis_num::{Block, OutOfMemory, Place};
use regions::Layout;
use std::alloc::Global;
use std::marker::Model;

/// Off-chip memory that answers each read with the last write there, or else with what it began with: zeros, the
/// static blocks at their places with stamp 0, and the instruction that resumes where untrusted code starts.
#[derive(Drop)]
pub struct PlainDram {
    layout: Layout,
    statics: Vec<u8>,
    tree_blocks: u32,
    memory: Vec<u8>,
    recorder: Recorder,
}

impl Model for PlainDram {
    ghost use Rattle.off_chip.specs.PlainValues.{Plain};
    ghost use Rattle.off_chip.specs.PlainInvariant.{IsPlainMemory};

    ghost Value = { Plain };

    ghost view = { λ d. record {
      layout = d.layout;
      statics = d.statics.items;
      trace = d.recorder.trace;
      room = d.recorder.room;
    } };

    ghost invariant = { λ d. IsPlainMemory d.layout d.statics.items
        d.memory.items d.recorder.trace d.tree_blocks };
}

impl PlainDram {
    /// A memory with no event yet, and room for so many. `statics` has the payloads of the constant blocks and
    /// then those of the code blocks, 64 bytes each. All memory is taken here, and that it ran out is the one error.
    pub fn new(
        alloc: Global,
        layout: &Layout,
        statics: &[u8],
        room: u64,
    ) -> Result<PlainDram, OutOfMemory>
        requires statics { length statics.now ≡ 64 * static_blocks layout.now }
        ensures layout { IfOk result (λ dram. dram.layout ≡ layout.now) }
        ensures statics { IfOk result (λ dram. dram.statics ≡ statics.now) }
        ensures empty { IfOk result (λ dram. dram.trace ≡ []) }
        ensures room { IfOk result (λ dram. dram.room ≡ room) }
    {
        let recorder = Recorder::new(alloc, room)?;
        let memory = load(alloc, layout, statics)?;
        Ok(PlainDram {
            layout: *layout,
            statics: Vec::from_slice(alloc, statics)?,
            tree_blocks: blocks_of_tree(layout),
            memory,
            recorder,
        })
    }

    /// The events of all calls, oldest first.
    pub fn into_trace(self) -> Trace
        ensures events { result ≡ self.trace }

        // Each read holds the last write at its place, or what stood there when the memory was made, and each event
        // names a place that there is: such a memory is honest, as `plain_is_honest` says.
        ensures plain { IsPlainTrace self.layout self.statics result }
    {
        self.recorder.into_trace()
    }
}

impl OffChip for PlainDram {
    ghost use Rattle.std.specs.Prelude.{Some};
    ghost use Rattle.off_chip.specs.PlainValues.{plain_contents, SamePlain};
    ghost use Rattle.std.proofs.Common.{refl, ap, ◌∙◌};

    ghost trace = { λ d. d.trace };

    ghost room = { λ d. d.room };

    ghost layout = { λ d. Some d.layout };

    ghost contents = { λ d. Some (plain_contents d) };

    ghost same_memory = { SamePlain };

    fn room(&self) -> u64 {
        self.recorder.room()
    }

    fn events(&self) -> u64 {
        self.recorder.events()
    }

    fn read_block(&mut self, at: Place, into: &mut Block) {
        *into = block_at(&self.memory, start_of(self.tree_blocks, at));
        self.recorder.append(Event::BlockRead { at, block: *into });
    }

    fn write_block(&mut self, at: Place, block: &Block) {
        put_block(&mut self.memory, start_of(self.tree_blocks, at), block);
        self.recorder
            .append(Event::BlockWrite { at, block: *block });
    }

    fn read_word(&mut self, by: Who, at: u32) -> u32 {
        let word = word_at(&self.memory, at as usize);
        self.recorder.append(Event::WordRead { by, at, word });
        word
    }

    fn write_word(&mut self, by: Who, at: u32, word: u32) {
        put_word(&mut self.memory, at as usize, word);
        self.recorder.append(Event::WordWrite { by, at, word });
    }

    fn note(&mut self, mark: Mark) {
        self.recorder.append(Event::Note(mark));
    }

    ghost reflexive = { λ a. record { layout = refl; statics = refl } };

    ghost transitive = { λ a b c p q. record { layout = p.layout ∙ q.layout; statics = p.statics ∙ q.statics } };

    ghost same_layout = { λ a b p. ap Some p.layout };
}
