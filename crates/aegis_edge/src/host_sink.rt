//! A sink over a writer of the host.
ghost use Rattle.std.specs.Prelude.{◌≡◌, ◌≤◌, None, OnOk, OnErr, is_ok, if◌then◌else◌};
ghost use Rattle.std.specs.Io.KnownBytes.{Appends};
ghost use Rattle.aegis_edge.specs.Faults.{Rose, one_fault_more};
ghost use Rattle.aegis_edge.specs.HostSink.{TakesFront};

use crate::sink::{Sink, SinkFault};
use std::io::Write;
use std::marker::Model;

/// A sink over a writer, as a file, standard output or standard error. It tells no bytes.
#[derive(Drop)]
pub struct HostSink<W: Write + Drop> {
    writer: W,
    faults: u64,
}

impl<W: Write + Drop> Model for HostSink<W> {
    ghost use Rattle.aegis_edge.specs.HostSink.{SinkOfHost};

    ghost Value = { SinkOfHost };

    ghost view = { λ a. record { contents = W.contents a.writer; faults = a.faults } };
}

impl<W: Write + Drop> HostSink<W> {
    /// A sink over this writer, with no fault.
    pub fn new(writer: W) -> HostSink<W>
        ensures contents { result.contents ≡ W.contents writer }
        ensures faults { result.faults ≡ 0 }
    {
        HostSink { writer, faults: 0 }
    }
}

// Hands a piece to a writer until it took all of it, and flushes the writer.
fn write_whole<W: Write>(writer: &mut W, bytes: &[u8]) -> Result<(), SinkFault>
    ensures taken { OnOk result
        (Appends (W.contents writer.old) (W.contents writer.new) bytes.now) }
    ensures front { OnErr result
        (TakesFront (W.contents writer.old) (W.contents writer.new) bytes.now) }
{
    let mut rest = bytes;
    'pieces: for _ in 0..u64::MAX {
        if rest.is_empty() {
            if writer.flush().is_err() {
                return Err(SinkFault);
            }
            return Ok(());
        }
        match writer.write(rest) {
            Ok(0) => return Err(SinkFault),
            Ok(count) => rest = &rest[count..],
            Err(_) => return Err(SinkFault),
        }
    }
    Err(SinkFault)
}

impl<W: Write + Drop> Sink for HostSink<W> {
    ghost written = { λ _. None };

    ghost faults = { λ sink. sink.faults };

    ghost limit = { λ _. None };

    /// Takes a piece, and flushes the writer after it. A write that takes nothing is a fault, and so is each error.
    fn write(&mut self, bytes: &[u8]) -> Result<(), SinkFault>
        ensures taken { OnOk result (Appends self.old.contents self.new.contents bytes.now) }
        ensures front { OnErr result (TakesFront self.old.contents self.new.contents bytes.now) }

        ensures after { self.new.faults
            ≡ (if is_ok result then self.old.faults else one_fault_more self.old.faults) }
        ensures failed { OnErr result (Rose self.old.faults self.new.faults) }
        ensures counted { self.old.faults ≤ self.new.faults }
    {
        let answer = write_whole(&mut self.writer, bytes);
        if answer.is_err() {
            self.faults = self.faults.saturating_add(1);
        }
        answer
    }
}
