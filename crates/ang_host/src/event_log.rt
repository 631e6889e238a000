//! The events of a command that has ended, for reading.
use crate::event_buffer::EventBuffer;
use crate::event_ref::EventRef;
use std::marker::Model;

/// What a command asked the host and which host objects ended, in order.
///
/// Contracts see it as the list of its events, each of which can be read.
#[derive(Drop)]
pub struct EventLog {
    buffer: EventBuffer,
}

impl Model for EventLog {
    ghost use Rattle.std.specs.Prelude.{◌≡◌, true, List};
    ghost use Rattle.ang_host.specs.declared.event.HostEvent.{HostEvent};
    ghost use Rattle.ang_host.specs.Logs.{listed_in, is_heard};

    ghost Value = { List HostEvent };

    ghost view = { λ log. listed_in log.buffer };

    ghost invariant = { λ log. is_heard log.buffer ≡ true };
}

impl EventLog {
    ghost use Rattle.std.specs.Prelude.{◌≡◌, ◌≤◌, ◌==◌, true, Some, MatchOption, length, slice_get};
    ghost use Rattle.ang_host.specs.Logs.{listed_in, is_heard};
    ghost use Rattle.ang_host.specs.Events.{ends_listed};
    ghost use Rattle.ang_host.specs.Lent.{event_of};

    /// The events that were written there, in a buffer that is heard.
    pub fn from_buffer(buffer: EventBuffer) -> EventLog
        requires heard { is_heard buffer ≡ true }
        ensures same { result ≡ listed_in buffer }
    {
        Self { buffer }
    }

    /// How many events there are.
    pub fn len(&self) -> usize
        ensures exact { result ≡ length self.now }
    {
        self.buffer.len()
    }

    /// Whether there are none.
    pub fn is_empty(&self) -> bool
        ensures exact { result ≡ (length self.now == 0) }
    {
        self.buffer.len() == 0
    }

    /// How many of the events are ends of host objects.
    pub fn ends(&self) -> usize
        ensures exact { result ≡ ends_listed self.now }
    {
        self.buffer.ends()
    }

    /// The event of that number, from 0. `None` past the last. It takes no memory.
    pub fn get(&self, index: usize) -> Option<EventRef<'_>>
        ensures exact { MatchOption result (length self.now ≤ index)
            (λ e. slice_get self.now index ≡ Some (event_of e)) }
    {
        self.buffer.get(index)
    }
}
