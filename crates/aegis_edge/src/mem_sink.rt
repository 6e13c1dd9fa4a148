//! A sink in memory, whose calls of `write` fail where a list says so.
ghost use Rattle.std.specs.Prelude.{◌≡◌, ◌==◌, ◌≤◌, None, Some, is_err, IfOk, OnOk, OnErr};
ghost use Rattle.std.specs.Map.{lookup};
ghost use Rattle.aegis_edge.specs.Faults.{Rose};
ghost use Rattle.aegis_edge.specs.MemSink.{new_sink, fails_on, sink_after_write};
ghost use Rattle.aegis_edge.specs.Sink.{Appends};

use crate::sink::{Sink, SinkFault};
use aegis_num::OutOfMemory;
use std::alloc::Global;
use std::marker::Model;

/// A sink in memory.
#[derive(Drop)]
pub struct MemSink {
    bytes: Vec<u8>,
    room: u64,
    failing: Vec<(u64, u64)>,
    calls: u64,
    faults: u64,
}

impl Model for MemSink {
    ghost use Rattle.std.specs.Prelude.{◌≤◌, vec_len, vec_capacity};
    ghost use Rattle.aegis_edge.specs.MemSink.{SinkInMemory};

    ghost Value = { SinkInMemory };

    ghost view = { λ a. record {
      bytes = a.bytes.items;
      room = a.room;
      failing = a.failing.items;
      calls = a.calls;
      faults = a.faults;
    } };

    ghost invariant = { λ a. (vec_len a.bytes ≤ a.room) × (a.room ≤ vec_capacity a.bytes) };
}

// After how many bytes a call fails, where it is listed.
fn find_count(failing: &[(u64, u64)], call: u64) -> Option<u64>
    ensures { result ≡ lookup (λ number. number == call) failing.now }
{
    for entry in failing {
        if entry.0 == call {
            return Some(entry.1);
        }
    }
    None
}

impl MemSink {
    /// A sink that holds up to `room` bytes, all reserved at once. `failing` lists the numbers of the calls
    /// of `write` that fail, counted from 0, each with how many bytes the call takes before it fails.
    /// Where a call is listed twice its first entry counts.
    pub fn with_room(
        alloc: Global,
        room: u64,
        failing: &[(u64, u64)],
    ) -> Result<MemSink, OutOfMemory>
        ensures new { IfOk result (λ sink. sink ≡ new_sink room failing.now) }
    {
        let failing = Vec::from_slice(alloc, failing)?;
        let bytes = Vec::with_capacity(alloc, room as usize)?;
        Ok(MemSink {
            bytes,
            room,
            failing,
            calls: 0,
            faults: 0,
        })
    }

    /// The bytes that it took.
    pub fn bytes(&self) -> &[u8]
        ensures { result.now ≡ self.now.bytes }
    {
        &self.bytes
    }
}

impl Sink for MemSink {
    ghost written = { λ sink. Some sink.bytes };

    ghost faults = { λ sink. sink.faults };

    ghost limit = { λ _. None };

    /// Takes a piece, and no memory.
    fn write(&mut self, bytes: &[u8]) -> Result<(), SinkFault>
        ensures fails { is_err result ≡ fails_on self.old bytes.now }
        ensures after { self.new ≡ sink_after_write self.old bytes.now }

        ensures taken { OnOk result
            (Appends (Some self.old.bytes) (Some self.new.bytes) bytes.now) }
        ensures failed { OnErr result (Rose self.old.faults self.new.faults) }
        ensures counted { self.old.faults ≤ self.new.faults }
    {
        let length = bytes.len() as u64;
        let listed = find_count(&self.failing, self.calls);
        let room = self.room - self.bytes.len() as u64;
        let taken = listed.unwrap_or(length).min(room.min(length));
        self.bytes
            .extend_from_slice(&bytes[..taken as usize])
            .unwrap();
        self.calls = self.calls.saturating_add(1);
        if listed.is_some() || room < length {
            self.faults = self.faults.saturating_add(1);
            return Err(SinkFault);
        }
        Ok(())
    }
}
