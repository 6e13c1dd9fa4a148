//! Sinks: where bytes go.
ghost use Rattle.std.specs.Prelude.{◌≡◌, ℕ, ◌≤◌, List, Option, None, length, OnOk, OnErr};
ghost use Rattle.aegis_edge.specs.Faults.{Rose};
ghost use Rattle.aegis_edge.specs.Sink.{IsWithin, limit_after, Appends, AppendsFront};

use thiserror::Error;

/// A sink did not take the whole of a piece.
#[derive(Clone, Copy, Debug, PartialEq, Eq, Error)]
#[error("write fault")]
pub struct SinkFault;

/// A place that takes bytes, piece by piece.
pub trait Sink {
    /// The bytes that it took, in order, where the sink tells them.
    ghost written: { Self → Option (List ℕ) };

    /// How many faults there were.
    ghost faults: { Self → ℕ };

    /// How many bytes may still be handed in, where there is a limit.
    ghost limit: { Self → Option ℕ };

    /// Takes a piece, whole or with a fault.
    fn write(&mut self, bytes: &[u8]) -> Result<(), SinkFault>
        requires within { IsWithin (limit self.old) bytes.now }

        ensures taken { OnOk result (Appends (written self.old) (written self.new) bytes.now) }
        ensures left { OnOk result
            (limit self.new ≡ limit_after (limit self.old) (length bytes.now)) }

        ensures failed { OnErr result (Rose (faults self.old) (faults self.new)) }
        ensures front { OnErr result
            (AppendsFront (written self.old) (written self.new) bytes.now) }

        ensures steady { OnOk result (faults self.new ≡ faults self.old) }
        ensures unlimited { limit self.old ≡ None → limit self.new ≡ None }
        ensures counted { faults self.old ≤ faults self.new };
}
