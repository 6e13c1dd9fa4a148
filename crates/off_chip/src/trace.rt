//! Traces.
ghost use Rattle.std.specs.Prelude.{◌≡◌};

use crate::event::Event;
use std::marker::Model;

/// The events of a run, oldest first.
#[derive(Debug, Drop)]
pub struct Trace {
    events: Vec<Event>,
}

impl Model for Trace {
    ghost use Rattle.std.specs.Prelude.{List};
    ghost use Rattle.off_chip.specs.declared.event.Event.{Event};

    ghost Value = { List Event };

    ghost view = { λ trace. trace.events.items };
}

impl Trace {
    /// The trace of these events.
    pub fn new(events: Vec<Event>) -> Trace
        ensures { result ≡ events.items }
    {
        Trace { events }
    }

    /// The events, oldest first.
    pub fn events(&self) -> &[Event]
        ensures events { result.now ≡ self.now }
    {
        self.events.as_slice()
    }
}
