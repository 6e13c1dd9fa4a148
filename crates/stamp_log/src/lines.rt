//! The lines of the log. A table tells in constant time whether a block has a line; a list of at most 32 blocks tells
//! which line was used least recently.
ghost use Rattle.std.specs.Prelude.{◌≡◌, ◌+◌, ◌<◌, ◌≤◌, false, [], length, replicate, slice_index_or, slice_set, true, IfNone, IfOk, IfSome, IsTrue, ◌↔◌, Some};
ghost use Rattle.std.specs.Borrow.{Lends, sem, u8 as byte, Array};
ghost use Rattle.stamp_log.specs.LogState.{line_of, with_payload};
ghost use Rattle.stamp_log.specs.contracts.lines.Lines.{the_row};
ghost use Rattle.stamp_log.specs.LineParts.{RemovesLine};
ghost use Rattle.stamp_log.specs.LogCalls.{HoldsNothing};

use aegis_num::OutOfMemory;
use aegis_num::limits::LOG_LINES;
use std::alloc::Global;
use std::marker::Model;

/// At most `LOG_LINES` lines, each the payload of one block.
#[derive(Drop)]
pub(crate) struct Lines {
    order: Vec<u32>,
    held: Vec<bool>,
    payloads: Vec<[u8; 64]>,
}

impl Model for Lines {
    ghost use Rattle.std.specs.Prelude.{vec_capacity, vec_len, length};
    ghost use Rattle.stamp_log.specs.LogState.{LogLines};

    ghost Value = { LogLines };

    ghost use Rattle.stamp_log.specs.LineParts.{LinesFit};

    ghost view = { λ l. record { order = l.order.items; held = l.held.items; payloads = l.payloads.items } };

    ghost invariant = { λ l. LinesFit (vec_capacity l.order) (vec_len l.order) l.order.items
        l.held.items (length l.payloads.items) };
}

impl Lines {
    /// No line yet, of a log with so many blocks.
    pub(crate) fn new(alloc: Global, blocks: u32) -> Result<Lines, OutOfMemory>
        ensures order { IfOk result (λ lines. lines.order ≡ []) }
        ensures held { IfOk result (λ lines. lines.held ≡ replicate blocks false) }
        ensures payloads { IfOk result (λ lines. length lines.payloads ≡ blocks) }
    {
        let mut held = Vec::with_capacity(alloc, blocks as usize)?;
        held.resize(blocks as usize, false)?;
        let mut payloads = Vec::with_capacity(alloc, blocks as usize)?;
        payloads.resize(blocks as usize, [0; 64])?;
        let order = Vec::with_capacity(alloc, LOG_LINES)?;
        Ok(Lines {
            order,
            held,
            payloads,
        })
    }

    /// How many lines there are, at most.
    pub(crate) fn len(&self) -> usize
        ensures value { result ≡ length self.now.order }
        ensures limit { result ≤ 32 }
        ensures nothing { result ≡ 0 → HoldsNothing self.now }
    {
        self.order.len()
    }

    /// Whether a block has a line.
    pub(crate) fn has(&self, number: u32) -> bool
        requires { number < length self.now.held }
        ensures { result ≡ slice_index_or self.now.held number false }
    {
        self.held[number as usize]
    }

    /// The payload of a block's line, or of the line that was removed last, if it has none.
    pub(crate) fn payload(&self, number: u32) -> &[u8; 64]
        requires below { number < length self.now.held }
        ensures value { result.now ≡ slice_index_or self.now.payloads number [] }
    {
        &self.payloads[number as usize]
    }

    /// Lends the payload of a block's line.
    pub(crate) fn payload_mut(&mut self, number: u32) -> &mut [u8; 64]
        requires { number < length self.old.held }
        ensures* writes_back { sem 𝓛 (Lends the_row (Array byte 64) self.entry result
            (with_payload self.old number)) }
        ensures value { result.now ≡ slice_index_or self.old.payloads number [] }
    {
        &mut self.payloads[number as usize]
    }

    /// Makes a block's line the most recently used one.
    pub(crate) fn touch(&mut self, number: u32)
        ensures held { self.new.held ≡ self.old.held }
        ensures payloads { self.new.payloads ≡ self.old.payloads }
        ensures order { length self.new.order ≡ length self.old.order }
    {
        if let Some(place) = self.order.iter().position(|block| *block == number) {
            let block = self.order.remove(place);
            let _ = self.order.push(block);
        }
    }

    /// Removes the line that was used least recently, and gives its block. Its payload can still be read.
    pub(crate) fn take_oldest(&mut self) -> Option<u32>
        requires { 0 < length self.old.order }
        ensures payloads { self.new.payloads ≡ self.old.payloads }
        ensures order { length self.new.order + 1 ≡ length self.old.order }
        ensures none { IfNone result (self.new.held ≡ self.old.held) }
        ensures last { length self.new.order ≡ 0 → HoldsNothing self.new }
        ensures line { IfSome result (λ number. RemovesLine number self.old self.new) }
    {
        let number = self.order.remove(0);
        let place = number as usize;
        if self.held[place] {
            self.held[place] = false;
            Some(number)
        } else {
            None
        }
    }

    /// Gives a block a line, which is the most recently used one.
    pub(crate) fn insert(&mut self, number: u32, payload: &[u8; 64])
        requires below { number < length self.old.held }
        requires room { length self.old.order < 32 }
        ensures held { self.new.held ≡ slice_set self.old.held number true }
        ensures payloads { self.new.payloads ≡ slice_set self.old.payloads number payload.now }
        ensures order { length self.new.order ≡ length self.old.order + 1 }
    {
        let place = number as usize;
        let _ = self.order.push(number);
        self.held[place] = true;
        self.payloads[place] = *payload;
    }
}
