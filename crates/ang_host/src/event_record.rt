//! A list of events that only clauses read.
ghost use Rattle.std.specs.Prelude.{◌≡◌, List, [], ◌∷◌, ◌++◌};
ghost use Rattle.std.specs.Borrow.{ftrue};
ghost use Rattle.ang_host.specs.declared.event.HostEvent.{HostEvent};
ghost use Rattle.ang_host.specs.Heads.{is_end, event_with};

use crate::head::Head;
use ang_kinds::Value;
use std::marker::{Model, PhantomData};

/// The events of a command, for clauses alone: it takes no memory and no time.
#[derive(Drop)]
pub struct EventRecord {
    marker: PhantomData<u8>,
    pub ghost events: { List HostEvent },
}

impl Model for EventRecord {
    ghost also_owns = { λ _. ftrue };
}

impl EventRecord {
    /// No events.
    pub fn new() -> EventRecord
        ensures empty { result.events ≡ [] }
    {
        EventRecord {
            marker: PhantomData,
        }
    }

    /// One event more.
    #[inline(always)]
    pub fn note(&mut self, _caller: &[u8], _head: &Head, _args: &[Value])
        ensures noted { self.new.events ≡ self.old.events
            ++ event_with (is_end _head.now.kind) _head.now _caller.now _args.now ∷ [] }
    {}
}
