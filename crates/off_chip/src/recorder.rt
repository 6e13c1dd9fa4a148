//! The trace that a memory keeps, with room for further events.
ghost use Rattle.std.specs.Prelude.{◌≡◌, ℕ, ◌+◌, ◌<◌, ◌^◌, [], length, IfOk};
ghost use Rattle.off_chip.specs.BusCalls.{AppendsOne};

use crate::event::Event;
use crate::trace::Trace;
use aegis_num::OutOfMemory;
use std::alloc::Global;
use std::marker::Model;

/// The events of a memory, oldest first, and the memory for further ones. All of it is taken when it is made.
#[derive(Drop)]
pub struct Recorder {
    events: Vec<Event>,
    room: u64,
}

impl Model for Recorder {
    ghost use Rattle.std.specs.Prelude.{◌+◌, ◌≤◌, ◌<◌, ◌^◌, vec_len, vec_capacity};
    ghost use Rattle.off_chip.specs.PlainValues.{KeptEvents};

    ghost Value = { KeptEvents };

    ghost view = { λ r. record { trace = r.events.items; room = r.room } };

    ghost invariant = { λ r. (vec_len r.events + r.room ≤ vec_capacity r.events)
        × (vec_len r.events + r.room < 2 ^ 64) };
}

impl Recorder {
    /// No event yet, and room for so many.
    pub fn new(alloc: Global, room: u64) -> Result<Recorder, OutOfMemory>
        ensures empty { IfOk result (λ recorder. recorder.trace ≡ []) }
        ensures room { IfOk result (λ recorder. recorder.room ≡ room) }
    {
        Ok(Recorder {
            events: Vec::with_capacity(alloc, room as usize)?,
            room,
        })
    }

    /// How many further events there is room for.
    pub fn room(&self) -> u64
        ensures value { result ≡ self.now.room }
        ensures limit { length self.now.trace + self.now.room < 2 ^ 64 }
    {
        self.room
    }

    /// How many events there are.
    pub fn events(&self) -> u64
        ensures value { result ≡ length self.now.trace }
        ensures limit { length self.now.trace + self.now.room < 2 ^ 64 }
    {
        self.events.len() as u64
    }

    /// Appends an event, for which there has to be room. It takes no memory.
    pub fn append(&mut self, event: Event)
        requires has_room { 0 < self.old.room }
        ensures event { AppendsOne event
            self.old.trace self.old.room self.new.trace self.new.room }
    {
        self.room -= 1;
        let _ = self.events.push(event);
    }

    /// The trace of all events.
    pub fn into_trace(self) -> Trace
        ensures events { result ≡ self.trace }
    {
        Trace::new(self.events)
    }
}
