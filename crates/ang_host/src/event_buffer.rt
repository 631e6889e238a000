//! The events of a command, as they are written while it runs.
ghost use Rattle.std.specs.Prelude.{◌≡◌, true, length};
ghost use Rattle.ang_host.specs.Events.{ends_listed};

use crate::answer::HostReply;
use crate::event_record::EventRecord;
use crate::event_ref::EventRef;
use crate::head::Head;
use crate::kept::KeptEvents;
use ang_kinds::{EntityNo, Value};
use std::alloc::{AllocError, Global};

/// What a command's run writes its events to: host calls and ends of host objects, in order.
///
/// Room is taken beforehand, so that to list an event takes no memory. A caller's name is kept once, however many
/// events have it. Where nobody listens events are only counted.
#[derive(Drop)]
pub struct EventBuffer {
    /// All events, for clauses.
    record: EventRecord,
    /// All events, for reading, where somebody listens.
    kept: KeptEvents,
    /// How many events there are, and how many of them are ends.
    count: usize,
    ends: usize,
    /// Whether the events can be read afterwards.
    listens: bool,
    ghost counted: { count ≡ length record.events },
    ghost ended: { ends ≡ ends_listed record.events },
    ghost same: { listens ≡ true → kept.events ≡ record.events },
}

impl EventBuffer {
    ghost use Rattle.std.specs.Prelude.{◌+◌, ◌<◌, ◌≤◌, ◌++◌, ◌∷◌, [], false, Some, OnOk, MatchOption, slice_get};
    ghost use Rattle.ang_host.specs.declared.event.HostEvent.TheVariants.{Called, Ended};
    ghost use Rattle.ang_host.specs.Logs.{listed_in, is_heard, log_len, log_capacity, HasRoomForCall};
    ghost use Rattle.ang_host.specs.Lent.{event_of};

    /// No events yet. They can be read afterwards. It takes no memory.
    pub fn new(alloc: Global) -> EventBuffer
        ensures empty { listed_in result ≡ [] }
        ensures heard { is_heard result ≡ true }
    {
        EventBuffer::with_listening(alloc, true)
    }

    /// No events yet, and none that will be read: they are counted alone. It takes no memory.
    pub fn unheard(alloc: Global) -> EventBuffer
        ensures empty { listed_in result ≡ [] }
        ensures heard { is_heard result ≡ false }
    {
        EventBuffer::with_listening(alloc, false)
    }

    #[tactic(auto, unfolding(crate::specs::Logs::listed_in, crate::specs::Logs::is_heard))]
    fn with_listening(alloc: Global, listens: bool) -> EventBuffer
        ensures empty { listed_in result ≡ [] }
        ensures heard { is_heard result ≡ listens }
    {
        EventBuffer {
            record: EventRecord::new(),
            kept: KeptEvents::new(alloc),
            count: 0,
            ends: 0,
            listens,
        }
    }

    /// Whether the events can be read afterwards.
    #[tactic(auto, unfolding(crate::specs::Logs::is_heard))]
    pub fn is_listening(&self) -> bool
        ensures exact { result ≡ is_heard self.now }
    {
        self.listens
    }

    /// The allocator of its lists.
    pub fn allocator(&self) -> &Global {
        self.kept.allocator()
    }

    /// How many events there are.
    #[tactic(auto, unfolding(crate::specs::Logs::listed_in))]
    pub fn len(&self) -> usize
        ensures exact { result ≡ log_len self.now }
    {
        self.count
    }

    /// How many of the events are ends of host objects.
    #[tactic(auto, unfolding(crate::specs::Logs::listed_in))]
    pub fn ends(&self) -> usize
        ensures exact { result ≡ ends_listed (listed_in self.now) }
    {
        self.ends
    }

    /// Takes room for `more` events more.
    ///
    /// # Errors
    /// There is no memory. The events stay.
    #[tactic(auto, unfolding(crate::specs::Logs::listed_in, crate::specs::Logs::is_heard, crate::specs::Logs::log_capacity))]
    #[inline(always)]
    pub fn reserve(&mut self, more: usize) -> Result<(), AllocError>
        ensures events { listed_in self.new ≡ listed_in self.old }
        ensures len { log_len self.new ≡ log_len self.old }
        ensures capacity { log_capacity self.old ≤ log_capacity self.new }
        ensures heard { is_heard self.new ≡ is_heard self.old }
        ensures room { OnOk result (log_len self.new + more ≤ log_capacity self.new) }
    {
        if self.listens {
            return self.kept.reserve(more);
        }
        if more <= usize::MAX - self.count {
            Ok(())
        } else {
            Err(AllocError)
        }
    }

    /// Takes room for `more` events more, and for the caller's name and `count` arguments of the next host call.
    ///
    /// # Errors
    /// There is no memory, or `count` is 2^32 or more. The events stay, and so does what room there is by then.
    #[tactic(auto, unfolding(crate::specs::Logs::listed_in, crate::specs::Logs::is_heard, crate::specs::Logs::log_capacity, crate::specs::Logs::HasRoomForCall))]
    #[inline(always)]
    pub fn reserve_call(
        &mut self,
        more: usize,
        caller: &[u8],
        count: usize,
    ) -> Result<(), AllocError>
        ensures events { listed_in self.new ≡ listed_in self.old }
        ensures len { log_len self.new ≡ log_len self.old }
        ensures capacity { log_capacity self.old ≤ log_capacity self.new }
        ensures heard { is_heard self.new ≡ is_heard self.old }
        ensures room { OnOk result (log_len self.new + more ≤ log_capacity self.new) }
        ensures call { OnOk result (HasRoomForCall caller.now count self.new) }
    {
        self.reserve(more)?;
        if !self.listens {
            return Ok(());
        }
        self.kept.reserve_call(caller, count)
    }

    /// Lists a host call, for which there is room.
    #[tactic(auto, using(crate::proofs::Listing::ends_listed_join), unfolding(crate::specs::Logs::listed_in, crate::specs::Logs::is_heard, crate::specs::Logs::log_capacity, crate::specs::Logs::HasRoomForCall))]
    #[inline(always)]
    pub(crate) fn push_call(
        &mut self,
        caller: &[u8],
        entity: EntityNo,
        driver: u32,
        object: Option<u64>,
        args: &[Value],
        reply: HostReply,
    )
        requires driver { driver < 256 }
        requires room { log_len self.old < log_capacity self.old }
        requires call { HasRoomForCall caller.now (length args.now) self.old }
        ensures listed { listed_in self.new ≡ listed_in self.old
            ++ Called caller.now entity driver object args.now reply ∷ [] }
        ensures len { log_len self.new ≡ log_len self.old + 1 }
        ensures capacity { log_capacity self.new ≡ log_capacity self.old }
        ensures heard { is_heard self.new ≡ is_heard self.old }
    {
        let head = Head::of_call(entity, driver as u8, object, reply);
        self.record.note(caller, &head, args);
        self.count = if self.listens {
            self.kept.push_call(caller, head, args)
        } else {
            self.count + 1
        };
    }

    /// Lists the end of a host object, for which there is room.
    #[tactic(auto, using(crate::proofs::Listing::ends_listed_join, crate::proofs::Listing::ends_listed_few), unfolding(crate::specs::Logs::listed_in, crate::specs::Logs::is_heard, crate::specs::Logs::log_capacity))]
    pub(crate) fn push_end(&mut self, driver: u32, key: u64)
        requires driver { driver < 256 }
        requires room { log_len self.old < log_capacity self.old }
        ensures listed { listed_in self.new ≡ listed_in self.old ++ Ended driver key ∷ [] }
        ensures len { log_len self.new ≡ log_len self.old + 1 }
        ensures capacity { log_capacity self.new ≡ log_capacity self.old }
        ensures heard { is_heard self.new ≡ is_heard self.old }
    {
        let driver = driver as u8;
        self.record.note(&[], &Head::of_end(driver, key), &[]);
        self.count = if self.listens {
            self.kept.push_end(driver, key)
        } else {
            self.count + 1
        };
        self.ends += 1;
    }

    /// The event of that number, from 0, where somebody listens.
    #[tactic(auto, unfolding(crate::specs::Logs::listed_in, crate::specs::Logs::is_heard))]
    pub(crate) fn get(&self, index: usize) -> Option<EventRef<'_>>
        requires heard { is_heard self.now ≡ true }
        ensures exact { MatchOption result (length (listed_in self.now) ≤ index)
            (λ e. slice_get (listed_in self.now) index ≡ Some (event_of e)) }
    {
        self.kept.get(index)
    }
}
