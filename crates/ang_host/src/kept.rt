//! The lists in which events are kept for reading.
use crate::event_ref::EventRef;
use crate::head::Head;
use crate::lending::{append_reserved, event_lent};
use crate::names::{add_name, is_named, number_of};
use ang_kinds::{List, Value};
use std::alloc::{AllocError, Global};
use std::marker::Model;

/// The events of a command: a head for each, the arguments of all calls one after the other, and the callers' names
/// once each. So a host call takes 40 bytes, and 24 for each argument.
#[derive(Drop)]
pub struct KeptEvents {
    heads: Vec<Head>,
    values: Vec<Value>,
    names: Vec<List<u8>>,
    /// The number of the name for which room was taken last.
    caller: u32,
}

impl Model for KeptEvents {
    ghost use Rattle.std.specs.Prelude.{All, length, vec_len, vec_capacity, slice_get};
    ghost use Rattle.ang_host.specs.Heads.{read_back, IsWithin};
    ghost use Rattle.ang_host.specs.Kept.{Kept};

    ghost Value = { Kept };

    ghost view = { λ k. record {
      events = read_back k.names.items k.values.items k.heads.items;
      capacity = vec_capacity k.heads;
      name = slice_get k.names.items k.caller;
      arguments = vec_len k.values;
      argument_capacity = vec_capacity k.values;
    } };

    ghost invariant = { λ k.
        All (IsWithin (length k.names.items) (length k.values.items)) k.heads.items };
}

impl KeptEvents {
    ghost use Rattle.std.specs.Prelude.{◌≡◌, ◌+◌, ◌^◌, ◌<◌, ◌≤◌, ◌++◌, ◌∷◌, [], false, Some, length, slice_get, MatchOption, OnOk};
    ghost use Rattle.ang_host.specs.declared.event.HostEvent.TheVariants.{Ended};
    ghost use Rattle.ang_host.specs.Heads.{is_end, event_with};
    ghost use Rattle.ang_host.specs.Kept.{IsReserved};
    ghost use Rattle.ang_host.specs.Lent.{event_of};

    /// No events yet. It takes no memory.
    pub fn new(alloc: Global) -> KeptEvents
        ensures empty { result.events ≡ [] }
    {
        KeptEvents {
            heads: Vec::new(alloc),
            values: Vec::new(alloc),
            names: Vec::new(alloc),
            caller: 0,
        }
    }

    /// The allocator of the lists.
    pub fn allocator(&self) -> &Global {
        self.heads.allocator()
    }

    /// Takes room for `more` events more.
    ///
    /// # Errors
    /// There is no memory. The events stay.
    #[inline(always)]
    pub fn reserve(&mut self, more: usize) -> Result<(), AllocError>
        ensures events { self.new.events ≡ self.old.events }
        ensures capacity { self.old.capacity ≤ self.new.capacity }
        ensures room { OnOk result (length self.new.events + more ≤ self.new.capacity) }
    {
        self.heads.reserve(more)
    }

    /// Takes room for the caller's name and `count` arguments of the next host call.
    ///
    /// # Errors
    /// There is no memory, or there are 2^32 names or arguments. The events stay.
    #[inline(always)]
    pub fn reserve_call(&mut self, caller: &[u8], count: usize) -> Result<(), AllocError>
        ensures events { self.new.events ≡ self.old.events }
        ensures capacity { self.new.capacity ≡ self.old.capacity }
        ensures reserved { OnOk result (IsReserved caller.now count self.new) }
    {
        if count > 0xffff_ffff {
            return Err(AllocError);
        }
        self.reserve_name(caller)?;
        self.values.reserve(count)
    }

    /// Takes room for a caller's name.
    #[inline(always)]
    fn reserve_name(&mut self, name: &[u8]) -> Result<(), AllocError>
        ensures events { self.new.events ≡ self.old.events }
        ensures capacity { self.new.capacity ≡ self.old.capacity }
        ensures name { OnOk result (self.new.name ≡ Some name.now) }
    {
        if is_named(&self.names, self.caller as usize, name) {
            return Ok(());
        }
        self.find_name(name)
    }

    /// Takes room for the name of a caller that need not be the last one.
    #[tactic(auto, using(crate::proofs::Listing::name_added, crate::proofs::Listing::within_names))]
    #[inline(never)]
    fn find_name(&mut self, name: &[u8]) -> Result<(), AllocError>
        ensures events { self.new.events ≡ self.old.events }
        ensures capacity { self.new.capacity ≡ self.old.capacity }
        ensures name { OnOk result (self.new.name ≡ Some name.now) }
    {
        let found = number_of(&self.names, name);
        let number = match found {
            Some(number) => number,
            None => add_name(*self.heads.allocator(), &mut self.names, name)?,
        };
        let Ok(caller) = u32::try_from(number) else {
            return Err(AllocError);
        };
        self.caller = caller;
        Ok(())
    }

    /// Adds a host call, for which there is room, and tells how many events there are.
    #[tactic(auto, using(crate::proofs::Listing::call_added))]
    #[inline(always)]
    pub fn push_call(&mut self, caller: &[u8], head: Head, args: &[Value]) -> usize
        requires call { is_end head.kind ≡ false }
        requires room { length self.old.events < self.old.capacity }
        requires reserved { IsReserved caller.now (length args.now) self.old }
        ensures added { self.new.events
            ≡ self.old.events ++ event_with (is_end head.kind) head caller.now args.now ∷ [] }
        ensures capacity { self.new.capacity ≡ self.old.capacity }
        ensures count { result ≡ length self.new.events }
    {
        let head = Head {
            first: self.values.len(),
            count: args.len() as u32,
            caller: self.caller,
            ..head
        };
        append_reserved(&mut self.values, args);
        self.heads.push_reserved(head);
        self.heads.len()
    }

    /// Adds the end of a host object, for which there is room, and tells how many events there are.
    #[tactic(auto, using(crate::proofs::Listing::within_added))]
    pub fn push_end(&mut self, driver: u8, key: u64) -> usize
        requires room { length self.old.events < self.old.capacity }
        ensures added { self.new.events ≡ self.old.events ++ Ended driver key ∷ [] }
        ensures capacity { self.new.capacity ≡ self.old.capacity }
        ensures count { result ≡ length self.new.events }
    {
        self.heads.push_reserved(Head::of_end(driver, key));
        self.heads.len()
    }

    /// The event of that number.
    pub fn get(&self, index: usize) -> Option<EventRef<'_>>
        ensures exact { MatchOption result (length self.now.events ≤ index)
            (λ e. slice_get self.now.events index ≡ Some (event_of e)) }
    {
        let head = self.heads.get(index)?;
        Some(event_lent(head, &self.names, &self.values))
    }
}
