//! The engine.
ghost use Rattle.std.specs.Prelude.{◌≡◌, ◌+◌, ◌-◌, ◌^◌, ◌<◌, ◌≤◌, ◌↔◌, [], true, false, Bool, List, All, IsTrue, IfOk, IfErr, OnErr, length, max, map as list_map};
ghost use Rattle.ang_host.specs.Logs.{listed_in, is_heard};
ghost use Rattle.ang_host.specs.declared.event.Role.{Role};
ghost use Rattle.ang_host.specs.Boxes.{members};
ghost use Rattle.ang_host.specs.Members.{states_of, AreFresh};
ghost use Rattle.ang_host.specs.Counts.{IsBalanced};
ghost use Rattle.ang_host.specs.Events.{DriversFollow};
ghost use Rattle.ang_engine.specs.Roles.{AreRoles};
ghost use Rattle.ang_registry.specs.Groups.{all_ended};
ghost use Rattle.ang_registry.specs.Registrations.{grouped};
ghost use Rattle.ang_meaning.specs.Counting.{IsCounted};
ghost use Rattle.ang_heap.specs.Globals.{values_in};
ghost use Rattle.ang_heap.specs.Parts.{SomeRanOut};
ghost use Rattle.ang_heap.specs.Stores.{world_of, bounds_of, IsKept, IsReady};
ghost use Rattle.ang_vm.specs.Machines.{lent};
ghost use Rattle.ang_engine_modules.specs.declared.command.Command.TheVariants.{NewModule, SetMask, AddSection, Build, Bind, Unbind, Call, Discard, RemoveGroup};
ghost use Rattle.ang_engine_modules.specs.World.{bounded_by, no_modules, running, engine_ended};
ghost use Rattle.ang_engine.specs.Limited.{StaysWithin, no_limits};
ghost use Rattle.ang_engine.specs.Step.{Takes, IsEntitled, list_after};
ghost use Rattle.ang_engine.specs.Sound.{IsSound, HaveDrivers};

use crate::binding::bind;
use crate::building::{build, may_run};
use crate::calling::number_of;
use crate::ending::{end_all, end_globals};
use crate::groups::remove_group;
use crate::refused::{NewError, NewRefused};
use crate::replies::{
    Finished, Unheard, answer, build_reply, call_reply, discard_reply, heard_reply, unheard_reply,
};
use ang_engine_modules::{
    Command, MOST_MODULES, ModuleList, Modules, Outcome, Refusal, Reply, add_module, add_section,
    budget_of, end_last, ended, find, forget_failed, no_events, remove_module, set_mask, unbind,
};
use ang_heap::{Globals, Heap, Held, Limits, Store, begin_command, held, set_limits};
use ang_host::{Driver, Drivers, EventBuffer};
use ang_kinds::{List, Mask, Value};
use ang_registry::{Registry, have_drivers};
use ang_vm::{LastRun, Machine};
use std::alloc::{AllocError, Global};

/// Modules of scripts over one registration list and the drivers that answer for it
/// (docs/HOST.md).
///
/// The compiler refuses a program that lets an engine go out of scope: `discard` ends it, and gives the
/// drivers back.
pub struct Engine {
    pub(crate) alloc: Global,
    pub(crate) registry: Registry,
    pub(crate) machine: Machine,
    pub(crate) modules: ModuleList,
    /// The ticks that the last command used.
    pub(crate) ticks: u64,
}

/// A machine without script objects, globals and limits. It takes no memory.
fn machine_of(alloc: Global, drivers: Drivers) -> Machine
    requires fresh { AreFresh (states_of ⟦<dyn Driver as Driver>⟧ (members drivers)) }
    ensures drivers { members result.store.drivers ≡ members drivers }
    ensures world { world_of ⟦<dyn Driver as Driver>⟧ result.store ≡ running no_modules [] }
    ensures kept { IsKept ⟦<dyn Driver as Driver>⟧ result.store }
    ensures counted { IsCounted [] (world_of ⟦<dyn Driver as Driver>⟧ result.store) }
    ensures limits { result.store.limits ≡ no_limits }
{
    let heap = Heap::new(alloc);
    let modules = Vec::new(alloc);
    let ends = EventBuffer::unheard(alloc);
    let last = LastRun::none(alloc);
    Machine {
        store: Store {
            heap,
            globals: Globals { modules },
            drivers,
            events: EventBuffer::unheard(alloc),
            ends,
            live: 0,
            spent: false,
            limits: Limits::none(),
            made: 0,
            made_at: 0,
        },
        last,
    }
}

/// The events of a command, none yet, with room for the end of each live host object.
///
/// # Errors
/// Want of memory.
pub(crate) fn room_for_ends(
    alloc: Global,
    heard: bool,
    machine: &Machine,
) -> Result<EventBuffer, AllocError>
    requires kept { IsKept ⟦<dyn Driver as Driver>⟧ machine.now.store }
    ensures empty { IfOk result (λ events. listed_in events ≡ []) }
    ensures heard { IfOk result (λ events. is_heard events ≡ heard) }
    ensures ready { IfOk result
        (λ events. IsReady ⟦<dyn Driver as Driver>⟧ (lent machine.now events)) }
{
    let mut events = no_events(alloc, heard);
    events.reserve(machine.store.live)?;
    Ok(events)
}

impl Engine {
    ghost use Rattle.ang_engine.specs.Applied.{HasApplied};
    ghost use Rattle.ang_engine.specs.Asked.{HasAsked};
    ghost use Rattle.ang_engine.specs.Outcomes.{IfRefusedAtOnce, IsCalled, IsDiscarded, calling, discarding, reply_to_call, reply_to_discard};
    ghost use Rattle.ang_engine.specs.Engines.{list_in, registrations, world_in, drivers_in, limits_in, held_in, builds_in, last_build};
    ghost use Rattle.ang_engine.specs.Replies.{reply_in, WasUnheard};
    ghost use Rattle.ang_engine_modules.specs.Ended.{is_fault, may_have_run};
    ghost use Rattle.ang_engine.specs.Trace.{trace_in, ticks_in};
    ghost use Rattle.ang_engine_modules.specs.Commands.{budget_of};
    ghost use Rattle.ang_engine.specs.Prepared.{HaveMoved, HasMovedPrepared, replaced};

    /// An engine without modules, and without limits. Each driver has to be idle, as those of
    /// `Drivers::new` are. A group that is open in the registry is ended.
    ///
    /// # Errors
    /// Gives back the registry and the drivers as they were, with `NoDriver` where an entry names a
    /// driver that is not in the list, or with `Memory` where a growth was refused.
    pub fn new(alloc: Global, registry: Registry, drivers: Drivers) -> Result<Engine, NewRefused>
        requires fresh { AreFresh (states_of ⟦<dyn Driver as Driver>⟧ (members drivers)) }
        ensures registrations { IfOk result (λ e. registrations e ≡ registry.entries) }
        ensures groups { IfOk result (λ e. list_in e ≡ grouped (all_ended registry)) }
        ensures world { IfOk result (λ e. world_in ⟦<dyn Driver as Driver>⟧ e ≡ no_modules) }
        ensures drivers { IfOk result (λ e. drivers_in e ≡ members drivers) }
        ensures limits { IfOk result (λ e. limits_in e ≡ no_limits) }
        ensures sound { IfOk result (λ e. IsSound ⟦<dyn Driver as Driver>⟧ e) }
        ensures registry_back { IfErr result (λ r. r.registry ≡ registry) }
        ensures drivers_back { IfErr result (λ r. members r.drivers ≡ members drivers) }
        ensures why { IfErr result (λ r. r.why ≡ NewError.NoDriver
            ↔ (HaveDrivers registry.entries (length (members drivers)) → ⊥)) }
    {
        if !have_drivers(&registry, drivers.len()) {
            return Err(NewRefused {
                why: NewError::NoDriver,
                registry,
                drivers,
            });
        }
        match Vec::with_capacity(alloc, MOST_MODULES) {
            Ok(order) => Ok(Engine {
                alloc,
                registry: registry.closed(),
                machine: machine_of(alloc, drivers),
                modules: ModuleList {
                    places: Vec::new(alloc),
                    code: Modules::new(alloc),
                    failed: None,
                    order,
                    builds: 0,
                },
                ticks: 0,
            }),
            Err(_) => Err(NewRefused {
                why: NewError::Memory,
                registry,
                drivers,
            }),
        }
    }

    /// Does one command, and answers how it ended. It returns when the command has ended, and can't be
    /// interrupted. A run takes at most its budget of ticks; what a build does before its initializers has
    /// no budget, and a driver takes what time it takes. After a refusal or a fault the engine takes the
    /// next command.
    ///
    /// The reply, and the modules after it, are those that docs/CLAIMS.md gives for the command, what the
    /// drivers answered, and which requests for memory were refused. A build sees the entries that
    /// `Registry::seen` gives for its module's mask. Each host call is of an entry that the calling module
    /// saw when it was built. The drivers were asked what the events list, in that order, and each has moved
    /// by its `fits`. After a refusal other than `BuildMemory`, `BuildErrors` and `InitFailed` the drivers
    /// are unchanged. After one of these three the module's old globals have been given up, and so objects
    /// may have ended. No more events are listed, and no more is held after it, than the limits allow
    /// (`set_limits`), or than was held before. Where a driver refused one reference more, which the world
    /// notes as `spent`, the tally of some driver has run out.
    ///
    /// A build that has begun, also one that comes to errors, and a discard end what was prepared of their
    /// module; all else that was prepared stands as it did (`prepare`).
    ///
    /// After a command that ended with a fault, `trace` says which bodies were running, and after any other
    /// nothing; `ticks_used` says what the command took of its budget.
    pub fn apply(&mut self, command: Command) -> Reply
        requires sound { IsSound ⟦<dyn Driver as Driver>⟧ self.old }
        ensures takes { Takes (list_in self.old) (world_in ⟦<dyn Driver as Driver>⟧ self.old)
            command result (world_in ⟦<dyn Driver as Driver>⟧ self.new) }
        ensures entitled { All
            (IsEntitled (registrations self.old) (world_in ⟦<dyn Driver as Driver>⟧ self.new))
            result.events }
        ensures follow { (roles : List Role) → AreRoles roles (registrations self.old)
            → DriversFollow ⟦<dyn Driver as Driver>⟧ roles (drivers_in self.old) result.events
            (drivers_in self.new) }
        ensures refused { IfRefusedAtOnce result.outcome
            (drivers_in self.new ≡ drivers_in self.old) }
        ensures few_events { length result.events
            ≤ max (limits_in self.old).events (held_in ⟦<dyn Driver as Driver>⟧ self.old).objects }
        ensures few_slots { (held_in ⟦<dyn Driver as Driver>⟧ self.new).slots
            ≤ max (limits_in self.old).slots (held_in ⟦<dyn Driver as Driver>⟧ self.old).slots }
        ensures few_objects { (held_in ⟦<dyn Driver as Driver>⟧ self.new).objects
            ≤ max (limits_in self.old).objects (held_in ⟦<dyn Driver as Driver>⟧ self.old).objects }
        ensures limits { limits_in self.new ≡ limits_in self.old }
        ensures due { (world_in ⟦<dyn Driver as Driver>⟧ self.new).spent ≡ true
            → SomeRanOut (states_of ⟦<dyn Driver as Driver>⟧ (drivers_in self.new)) }
        ensures sound { IsSound ⟦<dyn Driver as Driver>⟧ self.new }
        ensures list { list_in self.new ≡ list_after (list_in self.old)
            (world_in ⟦<dyn Driver as Driver>⟧ self.old) command }
        ensures prepared { HasMovedPrepared ⟦<dyn Driver as Driver>⟧ self.old command result.outcome
            self.new }
        ensures no_trace { is_fault result.outcome ≡ false → trace_in self.new ≡ [] }
        ensures ticks { ticks_in self.new ≤ budget_of command }
        ensures no_ticks { may_have_run result.outcome ≡ false → ticks_in self.new ≡ 0 }
    {
        heard_reply(self.finish(command, true))
    }

    /// Does one command as `apply` does, for a host that does not read what was asked: its events are
    /// counted and not kept, so that they take no memory, and the answer says only how many there were.
    ///
    /// Of the events that a reply to the command would list, all holds that `apply` says: they exist, and
    /// they are not handed out. They count for the limit of events.
    pub fn apply_unheard(&mut self, command: Command) -> Unheard
        requires sound { IsSound ⟦<dyn Driver as Driver>⟧ self.old }
        ensures there_is { WasUnheard result
            (λ reply. HasApplied ⟦<dyn Driver as Driver>⟧ self.old command reply self.new) }
        ensures few_events { result.asked + result.ended
            ≤ max (limits_in self.old).events (held_in ⟦<dyn Driver as Driver>⟧ self.old).objects }
        ensures few_slots { (held_in ⟦<dyn Driver as Driver>⟧ self.new).slots
            ≤ max (limits_in self.old).slots (held_in ⟦<dyn Driver as Driver>⟧ self.old).slots }
        ensures few_objects { (held_in ⟦<dyn Driver as Driver>⟧ self.new).objects
            ≤ max (limits_in self.old).objects (held_in ⟦<dyn Driver as Driver>⟧ self.old).objects }
        ensures limits { limits_in self.new ≡ limits_in self.old }
        ensures due { (world_in ⟦<dyn Driver as Driver>⟧ self.new).spent ≡ true
            → SomeRanOut (states_of ⟦<dyn Driver as Driver>⟧ (drivers_in self.new)) }
        ensures sound { IsSound ⟦<dyn Driver as Driver>⟧ self.new }
        ensures list { list_in self.new ≡ list_after (list_in self.old)
            (world_in ⟦<dyn Driver as Driver>⟧ self.old) command }
        ensures prepared { HasMovedPrepared ⟦<dyn Driver as Driver>⟧ self.old command result.outcome
            self.new }
        ensures no_trace { is_fault result.outcome ≡ false → trace_in self.new ≡ [] }
        ensures ticks { ticks_in self.new ≤ budget_of command }
        ensures no_ticks { may_have_run result.outcome ≡ false → ticks_in self.new ≡ 0 }
    {
        unheard_reply(self.finish(command, false))
    }

    /// Sets how much scripts may hold, and how many events a command may list, from the next command on. It
    /// takes no memory, and is never refused. An engine begins with `Limits::none()`.
    ///
    /// - `events`: how many events, host calls and ends of host objects together, a command may list, with
    ///   the ends that live host objects still owe counted as if they were listed. A host whose live objects
    ///   are as many as that can't be asked anything: set it higher than the objects that may live.
    /// - `slots`: how many slots the script objects of all modules may take. An object takes one, and one
    ///   for each of its fields.
    /// - `objects`: how many objects that factories made may live, of all drivers together.
    ///
    /// What would go beyond a limit is refused as where there is no memory: the run ends with the fault
    /// `Memory`, and the driver is not asked. What ends is never refused. A limit below what is held already
    /// is taken: nothing ends by it, and nothing is added until enough was given up. Events and objects of a
    /// build's initializers count as those of a call; what a build takes before them is not limited.
    pub fn set_limits(&mut self, limits: Limits)
        requires sound { IsSound ⟦<dyn Driver as Driver>⟧ self.old }
        ensures set { limits_in self.new ≡ limits }
        ensures world { world_in ⟦<dyn Driver as Driver>⟧ self.new
            ≡ bounded_by (bounds_of limits) (world_in ⟦<dyn Driver as Driver>⟧ self.old) }
        ensures drivers { drivers_in self.new ≡ drivers_in self.old }
        ensures builds { builds_in self.new ≡ builds_in self.old }
        ensures last { last_build self.new ≡ last_build self.old }
        ensures sound { IsSound ⟦<dyn Driver as Driver>⟧ self.new }
        ensures list { list_in self.new ≡ list_in self.old }
    {
        set_limits(&mut self.machine.store, limits);
    }

    /// The limits that were set last.
    pub fn limits(&self) -> Limits
        requires sound { IsSound ⟦<dyn Driver as Driver>⟧ self.now }
        ensures exact { result ≡ limits_in self.now }
    {
        self.machine.store.limits
    }

    /// How much scripts hold: the slots of their objects, and the host objects that live.
    pub fn held(&self) -> Held
        requires sound { IsSound ⟦<dyn Driver as Driver>⟧ self.now }
        ensures exact { result ≡ held_in ⟦<dyn Driver as Driver>⟧ self.now }
    {
        held(&self.machine.store)
    }

    /// Does one command, with events that can be read afterwards or are counted alone.
    fn finish(&mut self, command: Command, heard: bool) -> Finished
        requires sound { IsSound ⟦<dyn Driver as Driver>⟧ self.old }
        ensures applied { HasApplied ⟦<dyn Driver as Driver>⟧ self.old command (reply_in result)
            self.new }
        ensures heard { is_heard result.events ≡ heard }
        ensures within { StaysWithin ⟦<dyn Driver as Driver>⟧ self.old.machine.store
            (reply_in result).events self.new.machine.store }
        ensures sound { IsSound ⟦<dyn Driver as Driver>⟧ self.new }
        ensures list { list_in self.new ≡ list_after (list_in self.old)
            (world_in ⟦<dyn Driver as Driver>⟧ self.old) command }
        ensures prepared { HasMovedPrepared ⟦<dyn Driver as Driver>⟧ self.old command result.outcome
            self.new }
        ensures no_trace { is_fault result.outcome ≡ false → trace_in self.new ≡ [] }
        ensures ticks { ticks_in self.new ≤ budget_of command }
        ensures no_ticks { may_have_run result.outcome ≡ false → ticks_in self.new ≡ 0 }
    {
        let budget = budget_of(&command);
        begin_command(&mut self.machine.store);
        self.machine.last.left = budget;
        forget_failed(&mut self.modules.failed);
        let finished = self.dispatch(command, heard);
        let ticks = end_last(&mut self.machine.last, budget, finished.outcome);
        self.ticks = ticks;
        finished
    }

    /// Does one command that has begun, each by its function.
    fn dispatch(&mut self, command: Command, heard: bool) -> Finished
        requires sound { IsSound ⟦<dyn Driver as Driver>⟧ self.old }
        ensures applied { HasApplied ⟦<dyn Driver as Driver>⟧ self.old command (reply_in result)
            self.new }
        ensures heard { is_heard result.events ≡ heard }
        ensures within { StaysWithin ⟦<dyn Driver as Driver>⟧ self.old.machine.store
            (reply_in result).events self.new.machine.store }
        ensures sound { IsSound ⟦<dyn Driver as Driver>⟧ self.new }
        ensures list { list_in self.new ≡ list_after (list_in self.old)
            (world_in ⟦<dyn Driver as Driver>⟧ self.old) command }
        ensures prepared { HasMovedPrepared ⟦<dyn Driver as Driver>⟧ self.old command result.outcome
            self.new }
    {
        match command {
            Command::NewModule { name, mask } => self.new_module(heard, name, mask),
            Command::SetMask { name, mask } => self.set_mask(heard, name, mask),
            Command::AddSection { name, text } => self.add_section(heard, name, text),
            Command::Build { name, budget } => self.build(heard, name, budget),
            Command::Bind {
                name,
                index,
                exporter,
                decl,
            } => self.bind(heard, name, index, exporter, decl),
            Command::Unbind { name, index } => self.unbind(heard, name, index),
            Command::Call {
                name,
                decl,
                args,
                budget,
            } => self.call(heard, name, decl, args, budget),
            Command::Discard { name } => self.discard_module(heard, name),
            Command::RemoveGroup { name } => self.remove_group(heard, name),
        }
    }

    fn new_module(&mut self, heard: bool, name: List<u8>, mask: Mask) -> Finished
        requires sound { IsSound ⟦<dyn Driver as Driver>⟧ self.old }
        ensures applied { HasApplied ⟦<dyn Driver as Driver>⟧ self.old (NewModule name mask)
            (reply_in result) self.new }
        ensures heard { is_heard result.events ≡ heard }
        ensures within { StaysWithin ⟦<dyn Driver as Driver>⟧ self.old.machine.store
            (reply_in result).events self.new.machine.store }
        ensures sound { IsSound ⟦<dyn Driver as Driver>⟧ self.new }
        ensures registry { self.new.registry ≡ self.old.registry }
        ensures prepared { HasMovedPrepared ⟦<dyn Driver as Driver>⟧ self.old
            (NewModule name mask) result.outcome self.new }
    {
        let alloc = self.alloc;
        let globals = &mut self.machine.store.globals;
        let done = add_module(alloc, &mut self.modules, globals, name, mask);
        answer(alloc, heard, ended(done))
    }

    fn set_mask(&mut self, heard: bool, name: List<u8>, mask: Mask) -> Finished
        requires sound { IsSound ⟦<dyn Driver as Driver>⟧ self.old }
        ensures applied { HasApplied ⟦<dyn Driver as Driver>⟧ self.old (SetMask name mask)
            (reply_in result) self.new }
        ensures heard { is_heard result.events ≡ heard }
        ensures within { StaysWithin ⟦<dyn Driver as Driver>⟧ self.old.machine.store
            (reply_in result).events self.new.machine.store }
        ensures sound { IsSound ⟦<dyn Driver as Driver>⟧ self.new }
        ensures registry { self.new.registry ≡ self.old.registry }
        ensures prepared { HasMovedPrepared ⟦<dyn Driver as Driver>⟧ self.old
            (SetMask name mask) result.outcome self.new }
    {
        let done = set_mask(&mut self.modules, name, mask);
        answer(self.alloc, heard, ended(done))
    }

    fn add_section(&mut self, heard: bool, name: List<u8>, text: List<u8>) -> Finished
        requires sound { IsSound ⟦<dyn Driver as Driver>⟧ self.old }
        ensures applied { HasApplied ⟦<dyn Driver as Driver>⟧ self.old (AddSection name text)
            (reply_in result) self.new }
        ensures heard { is_heard result.events ≡ heard }
        ensures within { StaysWithin ⟦<dyn Driver as Driver>⟧ self.old.machine.store
            (reply_in result).events self.new.machine.store }
        ensures sound { IsSound ⟦<dyn Driver as Driver>⟧ self.new }
        ensures registry { self.new.registry ≡ self.old.registry }
        ensures prepared { HasMovedPrepared ⟦<dyn Driver as Driver>⟧ self.old
            (AddSection name text) result.outcome self.new }
    {
        let done = add_section(&mut self.modules, name, text);
        answer(self.alloc, heard, ended(done))
    }

    /// Numbers of builds are used up after 2^64 - 1 of them, which at one a nanosecond takes 584 years: then a
    /// build is refused as for want of memory.
    fn build(&mut self, heard: bool, name: List<u8>, budget: u64) -> Finished
        requires sound { IsSound ⟦<dyn Driver as Driver>⟧ self.old }
        ensures applied { HasApplied ⟦<dyn Driver as Driver>⟧ self.old (Build name budget)
            (reply_in result) self.new }
        ensures heard { is_heard result.events ≡ heard }
        ensures within { StaysWithin ⟦<dyn Driver as Driver>⟧ self.old.machine.store
            (reply_in result).events self.new.machine.store }
        ensures sound { IsSound ⟦<dyn Driver as Driver>⟧ self.new }
        ensures registry { self.new.registry ≡ self.old.registry }
        ensures prepared { HasMovedPrepared ⟦<dyn Driver as Driver>⟧ self.old
            (Build name budget) result.outcome self.new }
    {
        if self.modules.builds < u64::MAX {
            self.build_next(heard, name, budget)
        } else {
            answer(self.alloc, heard, Outcome::Refused(Refusal::Memory))
        }
    }

    /// The same where there is a number for one more build.
    fn build_next(&mut self, heard: bool, name: List<u8>, budget: u64) -> Finished
        requires sound { IsSound ⟦<dyn Driver as Driver>⟧ self.old }
        requires more { last_build self.old < 2 ^ 64 - 1 }
        ensures applied { HasApplied ⟦<dyn Driver as Driver>⟧ self.old (Build name budget)
            (reply_in result) self.new }
        ensures heard { is_heard result.events ≡ heard }
        ensures within { StaysWithin ⟦<dyn Driver as Driver>⟧ self.old.machine.store
            (reply_in result).events self.new.machine.store }
        ensures sound { IsSound ⟦<dyn Driver as Driver>⟧ self.new }
        ensures registry { self.new.registry ≡ self.old.registry }
        ensures prepared { HasMovedPrepared ⟦<dyn Driver as Driver>⟧ self.old
            (Build name budget) result.outcome self.new }
    {
        let Ok(mut events) = room_for_ends(self.alloc, heard, &self.machine) else {
            return answer(self.alloc, heard, Outcome::Refused(Refusal::Memory));
        };
        let done = build(
            self.alloc,
            &self.registry,
            &mut self.modules,
            &mut self.machine,
            &mut events,
            name.as_slice(),
            budget,
        );
        build_reply(self.alloc, heard, done, events)
    }

    fn bind(
        &mut self,
        heard: bool,
        name: List<u8>,
        index: u32,
        exporter: List<u8>,
        decl: List<u8>,
    ) -> Finished
        requires sound { IsSound ⟦<dyn Driver as Driver>⟧ self.old }
        ensures applied { HasApplied ⟦<dyn Driver as Driver>⟧ self.old
            (Bind name index exporter decl) (reply_in result) self.new }
        ensures heard { is_heard result.events ≡ heard }
        ensures within { StaysWithin ⟦<dyn Driver as Driver>⟧ self.old.machine.store
            (reply_in result).events self.new.machine.store }
        ensures sound { IsSound ⟦<dyn Driver as Driver>⟧ self.new }
        ensures registry { self.new.registry ≡ self.old.registry }
        ensures prepared { HasMovedPrepared ⟦<dyn Driver as Driver>⟧ self.old
            (Bind name index exporter decl) result.outcome self.new }
    {
        let done = bind(
            self.alloc,
            &mut self.modules,
            name.as_slice(),
            index,
            exporter.as_slice(),
            decl.as_slice(),
        );
        answer(self.alloc, heard, ended(done))
    }

    fn unbind(&mut self, heard: bool, name: List<u8>, index: u32) -> Finished
        requires sound { IsSound ⟦<dyn Driver as Driver>⟧ self.old }
        ensures applied { HasApplied ⟦<dyn Driver as Driver>⟧ self.old (Unbind name index)
            (reply_in result) self.new }
        ensures heard { is_heard result.events ≡ heard }
        ensures within { StaysWithin ⟦<dyn Driver as Driver>⟧ self.old.machine.store
            (reply_in result).events self.new.machine.store }
        ensures sound { IsSound ⟦<dyn Driver as Driver>⟧ self.new }
        ensures registry { self.new.registry ≡ self.old.registry }
        ensures prepared { HasMovedPrepared ⟦<dyn Driver as Driver>⟧ self.old
            (Unbind name index) result.outcome self.new }
    {
        let done = unbind(self.alloc, &mut self.modules, name.as_slice(), index);
        answer(self.alloc, heard, ended(done))
    }

    /// Calls a function of the module of that name.
    fn call_named(
        &mut self,
        events: &mut EventBuffer,
        name: &[u8],
        decl: &[u8],
        args: &[Value],
        budget: u64,
    ) -> Result<Outcome, Refusal>
        requires sound { IsSound ⟦<dyn Driver as Driver>⟧ self.old }
        requires ready { IsReady ⟦<dyn Driver as Driver>⟧ (lent self.old.machine events.old) }
        requires first { listed_in events.old ≡ [] }
        ensures done { IsCalled result (listed_in events.new)
            (calling name.now decl.now args.now budget (world_in ⟦<dyn Driver as Driver>⟧ self.old))
            (world_in ⟦<dyn Driver as Driver>⟧ self.old)
            (world_in ⟦<dyn Driver as Driver>⟧ self.new) }
        ensures asked { HasAsked ⟦<dyn Driver as Driver>⟧ (registrations self.old)
            (world_in ⟦<dyn Driver as Driver>⟧ self.new)
            (reply_to_call result (listed_in events.new)).events self.old.machine.store
            self.new.machine.store }
        ensures refused { IfRefusedAtOnce (reply_to_call result (listed_in events.new)).outcome
            (drivers_in self.new ≡ drivers_in self.old) }
        ensures heard { is_heard events.new ≡ is_heard events.old }
        ensures modules { self.new.modules ≡ self.old.modules }
        ensures globals { list_map length (values_in self.new.machine.store.globals)
            ≡ list_map length (values_in self.old.machine.store.globals) }
        ensures registry { self.new.registry ≡ self.old.registry }
    {
        let Some(home) = find(&self.modules.places, name) else {
            return Err(Refusal::NoModule);
        };
        let Some(loaded) = self.modules.code.loaded(home) else {
            return Err(Refusal::NotBuilt);
        };
        if !may_run(budget) {
            return Err(Refusal::BadBudget);
        }
        match number_of(self.alloc, loaded, decl) {
            Ok(number) => self.call_number(events, home, number, args, budget),
            Err(refusal) => Err(refusal),
        }
    }

    fn call(
        &mut self,
        heard: bool,
        name: List<u8>,
        decl: List<u8>,
        args: List<Value>,
        budget: u64,
    ) -> Finished
        requires sound { IsSound ⟦<dyn Driver as Driver>⟧ self.old }
        ensures applied { HasApplied ⟦<dyn Driver as Driver>⟧ self.old (Call name decl args budget)
            (reply_in result) self.new }
        ensures heard { is_heard result.events ≡ heard }
        ensures within { StaysWithin ⟦<dyn Driver as Driver>⟧ self.old.machine.store
            (reply_in result).events self.new.machine.store }
        ensures sound { IsSound ⟦<dyn Driver as Driver>⟧ self.new }
        ensures registry { self.new.registry ≡ self.old.registry }
        ensures prepared { HasMovedPrepared ⟦<dyn Driver as Driver>⟧ self.old
            (Call name decl args budget) result.outcome self.new }
    {
        let alloc = self.alloc;
        let Ok(mut events) = room_for_ends(alloc, heard, &self.machine) else {
            return answer(alloc, heard, Outcome::Refused(Refusal::Memory));
        };
        let done = self.call_named(
            &mut events,
            name.as_slice(),
            decl.as_slice(),
            args.as_slice(),
            budget,
        );
        call_reply(alloc, heard, done, events)
    }

    /// Ends the module of that name. The events need room for the end of each live host object.
    fn discard_named(&mut self, events: &mut EventBuffer, name: &[u8]) -> Result<(), Refusal>
        requires sound { IsSound ⟦<dyn Driver as Driver>⟧ self.old }
        requires ready { IsReady ⟦<dyn Driver as Driver>⟧ (lent self.old.machine events.old) }
        requires first { listed_in events.old ≡ [] }
        ensures done { IsDiscarded result (listed_in events.new)
            (discarding name.now (world_in ⟦<dyn Driver as Driver>⟧ self.old))
            (world_in ⟦<dyn Driver as Driver>⟧ self.old)
            (world_in ⟦<dyn Driver as Driver>⟧ self.new) }
        ensures asked { HasAsked ⟦<dyn Driver as Driver>⟧ (registrations self.old)
            (world_in ⟦<dyn Driver as Driver>⟧ self.new)
            (reply_to_discard result (listed_in events.new)).events self.old.machine.store
            self.new.machine.store }
        ensures refused { IfRefusedAtOnce (reply_to_discard result (listed_in events.new)).outcome
            (drivers_in self.new ≡ drivers_in self.old) }
        ensures heard { is_heard events.new ≡ is_heard events.old }
        ensures sound { IsSound ⟦<dyn Driver as Driver>⟧ self.new }
        ensures registry { self.new.registry ≡ self.old.registry }
        ensures prepared { HaveMoved (replaced (Discard name.now)
            (reply_to_discard result (listed_in events.new)).outcome
            (world_in ⟦<dyn Driver as Driver>⟧ self.old))
            (last_build self.old) (builds_in self.old) (last_build self.new) (builds_in self.new) }
    {
        let Some(home) = find(&self.modules.places, name) else {
            return Err(Refusal::NoModule);
        };
        end_globals(self.alloc, &mut self.machine, events, home as usize);
        remove_module(self.alloc, &mut self.modules, home);
        Ok(())
    }

    fn discard_module(&mut self, heard: bool, name: List<u8>) -> Finished
        requires sound { IsSound ⟦<dyn Driver as Driver>⟧ self.old }
        ensures applied { HasApplied ⟦<dyn Driver as Driver>⟧ self.old (Discard name)
            (reply_in result) self.new }
        ensures heard { is_heard result.events ≡ heard }
        ensures within { StaysWithin ⟦<dyn Driver as Driver>⟧ self.old.machine.store
            (reply_in result).events self.new.machine.store }
        ensures sound { IsSound ⟦<dyn Driver as Driver>⟧ self.new }
        ensures registry { self.new.registry ≡ self.old.registry }
        ensures prepared { HasMovedPrepared ⟦<dyn Driver as Driver>⟧ self.old
            (Discard name) result.outcome self.new }
    {
        let Ok(mut events) = room_for_ends(self.alloc, heard, &self.machine) else {
            return answer(self.alloc, heard, Outcome::Refused(Refusal::Memory));
        };
        let done = self.discard_named(&mut events, name.as_slice());
        discard_reply(self.alloc, heard, done, events)
    }

    fn remove_group(&mut self, heard: bool, name: List<u8>) -> Finished
        requires sound { IsSound ⟦<dyn Driver as Driver>⟧ self.old }
        ensures applied { HasApplied ⟦<dyn Driver as Driver>⟧ self.old (RemoveGroup name)
            (reply_in result) self.new }
        ensures heard { is_heard result.events ≡ heard }
        ensures within { StaysWithin ⟦<dyn Driver as Driver>⟧ self.old.machine.store
            (reply_in result).events self.new.machine.store }
        ensures sound { IsSound ⟦<dyn Driver as Driver>⟧ self.new }
        ensures list { list_in self.new ≡ list_after (list_in self.old)
            (world_in ⟦<dyn Driver as Driver>⟧ self.old) (RemoveGroup name) }
        ensures prepared { HasMovedPrepared ⟦<dyn Driver as Driver>⟧ self.old
            (RemoveGroup name) result.outcome self.new }
    {
        let done = remove_group(&mut self.registry, &self.modules, name);
        answer(self.alloc, heard, ended(done))
    }

    /// Ends the engine, and gives its drivers back in their order, with no object of theirs alive:
    /// another engine can have them. The globals of its modules are given up, those of the module
    /// last made first; no reply lists the objects that end so. It takes no memory, makes no host call,
    /// and always succeeds.
    pub fn discard(self) -> Vec<Box<dyn Driver>>
        requires sound { IsSound ⟦<dyn Driver as Driver>⟧ self }
        ensures ended { (roles : List Role)
            → DriversFollow ⟦<dyn Driver as Driver>⟧ roles (drivers_in self)
            (engine_ended (world_in ⟦<dyn Driver as Driver>⟧ self)).events result.items }
        ensures balanced { All IsBalanced (states_of ⟦<dyn Driver as Driver>⟧ result.items) }
        ensures fresh { AreFresh (states_of ⟦<dyn Driver as Driver>⟧ result.items) }
    {
        let Engine {
            alloc,
            registry,
            machine,
            modules,
            ticks: _,
        } = self;
        let Machine { store, last } = machine;
        let Store {
            mut heap,
            mut globals,
            mut drivers,
            events,
            mut ends,
            live: _,
            spent: _,
            limits: _,
            made: _,
            made_at: _,
        } = store;
        end_all(
            alloc,
            &mut heap,
            &mut globals,
            &mut drivers,
            &mut ends,
            &modules.order,
        );
        drop(registry);
        drop(modules);
        drop(heap);
        drop(globals);
        drop(events);
        drop(ends);
        drop(last);
        drivers.into_boxes()
    }
}
