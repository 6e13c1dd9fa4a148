//! A memory of plain words with the classes of a layout.
ghost use Rattle.std.specs.Prelude.{◌≡◌, ◌+◌, ◌*◌, ◌<◌, ◌++◌, IfOk, OnOk, length};
ghost use Rattle.orbis_core.specs.FlatMemory.{flat_of, index_of, word_count};
ghost use Rattle.orbis_core.specs.Refusals.{answered, byte_refusal, word_refusal};
ghost use Rattle.orbis_core.specs.ByteOrder.{words_in};
ghost use Rattle.regions.specs.declared.Mode.TheVariants.{Ptr};

use crate::memory::{Memory, Stop, Why};
use aegis_num::OutOfMemory;
use regions::{Access, LOG_START, Layout, Mode, OPEN_END, TREE_START, class_of, may};
use std::alloc::Global;
use std::marker::Model;

/// How many open words there are.
const OPEN_WORDS: usize = 16_384;

/// How many words a block has.
const BLOCK_WORDS: usize = 16;

/// A memory of plain words with the classes of a layout, always in the rights of PTR, the private tamper-resistant
/// mode. An access that the class refuses is `Refused` with `Rights`, and one that the alignment refuses alone with
/// `Misaligned`; nothing else stops an access. Open words change by stores alone, like all others.
#[derive(Debug, Drop)]
pub struct FlatMemory {
    layout: Layout,
    words: Vec<u32>,
}

impl Model for FlatMemory {
    ghost use Rattle.std.specs.Prelude.{◌≡◌, length};
    ghost use Rattle.orbis_core.specs.FlatMemory.{Flat, word_count};

    ghost Value = { Flat };

    ghost view = { λ m. record { layout = m.layout; words = m.words.items } };

    ghost invariant = { λ m. length m.words.items ≡ word_count m.layout };
}

impl FlatMemory {
    /// A memory whose constant blocks, and then its code blocks, hold these bytes, 64 for each block. Words are
    /// big-endian. All else is zero.
    pub fn new(alloc: Global, layout: &Layout, statics: &[u8]) -> Result<FlatMemory, OutOfMemory>
        requires { length statics.now ≡ 64 * (layout.now.constants + layout.now.code) }
        ensures { IfOk result (λ memory. memory ≡ flat_of layout.now statics.now) }
    {
        let zeros = OPEN_WORDS + BLOCK_WORDS * (layout.verified + layout.private) as usize;
        let all = zeros + statics.len() / 4 + BLOCK_WORDS * layout.log as usize;
        let mut words = Vec::new(alloc);
        words.resize(zeros, 0)?;
        push_words(&mut words, statics)?;
        words.resize(all, 0)?;
        Ok(FlatMemory {
            layout: *layout,
            words,
        })
    }

    /// The place of the word at an address, where the access to it is not refused.
    fn place_of_word(&self, at: u32, access: Access) -> Result<usize, Stop>
        ensures value { result ≡ answered (word_refusal self.now.layout Ptr access at)
            (index_of self.now.layout at) }
        ensures inside { IfOk result (λ index. index < length self.now.words) }
    {
        let index = self.place_of_byte(at, access)?;
        if at % 4 != 0 {
            return Err(Stop::Refused(Why::Misaligned));
        }
        Ok(index)
    }

    /// The place of the word that an address lies in, where the access to the byte there is not refused.
    fn place_of_byte(&self, at: u32, access: Access) -> Result<usize, Stop>
        ensures value { result ≡ answered (byte_refusal self.now.layout Ptr access at)
            (index_of self.now.layout at) }
        ensures inside { IfOk result (λ index. index < length self.now.words) }
    {
        let Some(class) = class_of(&self.layout, at) else {
            return Err(Stop::Refused(Why::Rights));
        };
        if !may(Mode::Ptr, class, access) {
            return Err(Stop::Refused(Why::Rights));
        }
        Ok(self.index(at))
    }

    /// The number of the word that an address lies in.
    fn index(&self, at: u32) -> usize
        requires { index_of self.now.layout at < word_count self.now.layout }
        ensures { result ≡ index_of self.now.layout at }
    {
        let layout = &self.layout;
        if at < OPEN_END {
            return (at / 4) as usize;
        }
        if at < LOG_START {
            return OPEN_WORDS + (at.saturating_sub(TREE_START) / 4) as usize;
        }
        let blocks = layout.verified + layout.private + layout.constants + layout.code;
        OPEN_WORDS + BLOCK_WORDS * blocks as usize + ((at - LOG_START) / 4) as usize
    }
}

/// Adds the words of some bytes.
fn push_words(words: &mut Vec<u32>, bytes: &[u8]) -> Result<(), OutOfMemory>
    ensures { OnOk result (words.new.items ≡ words.old.items ++ words_in bytes.now) }
{
    let mut rest = bytes;
    while let [first, second, third, fourth, after @ ..] = rest {
        words.push(u32::from_be_bytes([*first, *second, *third, *fourth]))?;
        rest = after;
    }
    Ok(())
}

impl Memory for FlatMemory {
    ghost use Rattle.std.specs.Prelude.{◌≤◌};
    ghost use Rattle.orbis_core.specs.FlatMemory.{flat_accesses, flat_leaves};
    ghost use Rattle.std.proofs.Common.{rules};

    ghost has_left = { λ _ n. n ≤ 2 };

    ghost accesses = { flat_accesses };

    fn fetch(&mut self, at: u32) -> Result<u32, Stop> {
        let index = self.place_of_word(at, Access::Fetch)?;
        Ok(self.words[index])
    }

    fn load_word(&mut self, at: u32) -> Result<u32, Stop> {
        let index = self.place_of_word(at, Access::Read)?;
        Ok(self.words[index])
    }

    fn load_byte(&mut self, at: u32) -> Result<u32, Stop> {
        let index = self.place_of_byte(at, Access::Read)?;
        let bytes = self.words[index].to_be_bytes();
        Ok(bytes[(at % 4) as usize] as u32)
    }

    fn store_word(&mut self, at: u32, word: u32) -> Result<(), Stop> {
        let index = self.place_of_word(at, Access::Write)?;
        self.words[index] = word;
        Ok(())
    }

    fn store_byte(&mut self, at: u32, byte: u8) -> Result<(), Stop> {
        let index = self.place_of_byte(at, Access::Write)?;
        let mut bytes = self.words[index].to_be_bytes();
        bytes[(at % 4) as usize] = byte;
        self.words[index] = u32::from_be_bytes(bytes);
        Ok(())
    }

    ghost one_fewer_left = { flat_leaves };

    ghost fewer_left = { λ memory n left. Prim.search rules };
}
