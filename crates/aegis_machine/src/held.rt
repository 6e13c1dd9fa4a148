//! Bytes that wait for a check, so that nothing is sent which rests on a read that was not checked.
ghost use Rattle.std.specs.Prelude.{◌≡◌, ◌≢◌, ℕ, ◌+◌, ◌<◌, ◌≤◌, [], ◌∷◌, ◌++◌, length, IsTrue, OnOk, OnErr, ◌↔◌};
ghost use Rattle.aegis_edge.specs.Faults.{Rose};
ghost use Rattle.aegis_edge.specs.Sink.{Appends, AppendsFront, IsWithin, limit_after};
ghost use Rattle.aegis_machine.specs.Guards.{LeadsOn};
ghost use Rattle.aegis_machine.specs.Releases.{mark_sent};

use crate::guarded::Guarded;
use aegis_edge::{Sink, SinkFault};
use arrayvec::ArrayVec;
use off_chip::Mark;
use std::marker::Model;

/// How many bytes are held at most. They are sent in one piece.
pub const MAX_HELD: usize = 256;

/// Released bytes that were not sent yet.
#[derive(Drop)]
pub struct Held {
    bytes: ArrayVec<u8, MAX_HELD>,
}

impl Model for Held {
    ghost use Rattle.std.specs.Prelude.{ℕ, List};

    ghost Value = { List ℕ };

    ghost view = { λ held. held.bytes.items };
}

impl Held {
    /// Nothing is held.
    pub fn new() -> Held
        ensures { result ≡ [] }
    {
        Held {
            bytes: ArrayVec::new(),
        }
    }

    /// Whether nothing is held.
    pub fn is_empty(&self) -> bool
        ensures { IsTrue result ↔ (self.now ≡ []) }
    {
        self.bytes.is_empty()
    }

    /// Whether as many bytes are held as can be.
    pub fn is_full(&self) -> bool
        ensures full { IsTrue result ↔ (length self.now ≡ MAX_HELD) }
        ensures most { length self.now ≤ MAX_HELD }
    {
        self.bytes.is_full()
    }

    /// Holds one more byte.
    pub fn hold(&mut self, byte: u8)
        requires { length self.old < MAX_HELD }
        ensures { self.new ≡ self.old ++ byte ∷ [] }
    {
        self.bytes.push(byte);
    }

    /// Sends what is held in one piece: the mark is noted first, and then the piece is handed to the sink. After it nothing is
    /// held. Where nothing is held it makes no event and calls no sink. Takes room for one event.
    pub fn send<M: Guarded, K: Sink>(&mut self, mem: &mut M, out: &mut K) -> Result<(), SinkFault>
        requires ready { M.ready mem.old }
        requires has_room { 0 < M.room mem.old }
        requires within { IsWithin (K.limit out.old) self.old }
        ensures empty { self.new ≡ [] }
        ensures marked { LeadsOn M.sight (mark_sent self.old) mem.old mem.new }
        ensures room { M.room mem.new + length (mark_sent self.old) ≡ M.room mem.old }
        ensures ready { M.ready mem.new }
        ensures kept { M.Keeps mem.old mem.new }
        ensures none { self.old ≡ [] → out.new ≡ out.old }
        ensures some { OnErr result (self.old ≢ []) }
        ensures taken { OnOk result (Appends (K.written out.old) (K.written out.new) self.old) }
        ensures left { OnOk result (K.limit out.new ≡ limit_after (K.limit out.old) (length self.old)) }
        ensures steady { OnOk result (K.faults out.new ≡ K.faults out.old) }
        ensures failed { OnErr result (Rose (K.faults out.old) (K.faults out.new)) }
        ensures front { OnErr result (AppendsFront (K.written out.old) (K.written out.new) self.old) }
    {
        if self.bytes.is_empty() {
            return Ok(());
        }
        mem.note(Mark::Sent(self.bytes.len() as u16));
        let sent = out.write(self.bytes.as_slice());
        self.bytes.clear();
        sent
    }
}
