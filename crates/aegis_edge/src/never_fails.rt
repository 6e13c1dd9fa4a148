//! A sink in memory that never fails.
ghost use Rattle.std.specs.Prelude.{◌≡◌, ◌≤◌, Some, length, IsOk, IfOk};
ghost use Rattle.aegis_edge.specs.NeverFails.{new_room, room_after_write};

use crate::sink::{Sink, SinkFault};
use aegis_num::OutOfMemory;
use std::alloc::Global;
use std::marker::Model;

/// A sink in memory that takes each piece whole. Its limit is the room that is left in it.
#[derive(Drop)]
pub struct NeverFails {
    bytes: Vec<u8>,
    room: u64,
}

impl Model for NeverFails {
    ghost use Rattle.std.specs.Prelude.{◌-◌, ◌≤◌, vec_len, vec_capacity};
    ghost use Rattle.aegis_edge.specs.NeverFails.{Room};

    ghost Value = { Room };

    ghost view = { λ a. record { bytes = a.bytes.items; left = a.room - vec_len a.bytes } };

    ghost invariant = { λ a. (vec_len a.bytes ≤ a.room) × (a.room ≤ vec_capacity a.bytes) };
}

impl NeverFails {
    /// A sink that takes up to `room` bytes, all reserved at once.
    pub fn with_room(alloc: Global, room: u64) -> Result<NeverFails, OutOfMemory>
        ensures new { IfOk result (λ sink. sink ≡ new_room room) }
    {
        let bytes = Vec::with_capacity(alloc, room as usize)?;
        Ok(NeverFails { bytes, room })
    }

    /// The bytes that it took.
    pub fn bytes(&self) -> &[u8]
        ensures { result.now ≡ self.now.bytes }
    {
        &self.bytes
    }
}

impl Sink for NeverFails {
    ghost written = { λ sink. Some sink.bytes };

    ghost faults = { λ _. 0 };

    ghost limit = { λ sink. Some sink.left };

    /// Takes a piece, and no memory.
    fn write(&mut self, bytes: &[u8]) -> Result<(), SinkFault>
        requires within { length bytes.now ≤ self.old.left }
        ensures whole { IsOk result }
        ensures after { self.new ≡ room_after_write self.old bytes.now }
    {
        self.bytes.extend_from_slice(bytes).unwrap();
        Ok(())
    }
}
