//! Functions that are looked up once and called by their number.
ghost use Rattle.std.specs.Prelude.{true, ◌≡◌, ◌≢◌, ◌+◌, ◌≤◌, ◌<◌, [], false, List as ListOf, ℕ, Ok, Err, Some, All, IfOk, IfErr, length, max, map as list_map};
ghost use Rattle.ang_host.specs.Logs.{listed_in, is_heard};
ghost use Rattle.ang_host.specs.Events.{DriversFollow};
ghost use Rattle.ang_host.specs.declared.event.Role.{Role};
ghost use Rattle.ang_host.specs.Members.{states_of};
ghost use Rattle.ang_engine.specs.Roles.{AreRoles};
ghost use Rattle.ang_heap.specs.Globals.{values_in};
ghost use Rattle.ang_heap.specs.Parts.{SomeRanOut};
ghost use Rattle.ang_heap.specs.Stores.{IsReady};
ghost use Rattle.ang_vm.specs.Machines.{lent};
ghost use Rattle.ang_engine_modules.specs.declared.command.Command.TheVariants.{Call};
ghost use Rattle.ang_engine_modules.specs.declared.reply.Outcome.TheVariants.{Refused};
ghost use Rattle.ang_engine_modules.specs.declared.reply.Refusal.TheVariants.{NoFunction, Memory};
ghost use Rattle.ang_engine_modules.specs.Commands.{reply_of};
ghost use Rattle.ang_engine.specs.Limited.{StaysWithin};
ghost use Rattle.ang_engine.specs.Step.{Takes, IsEntitled};
ghost use Rattle.ang_engine.specs.Sound.{IsSound};

use crate::building::may_run;
use crate::calling::{callable_number, choose_by_number, run_chosen};
use crate::engine::{Engine, room_for_ends};
use crate::replies::{Finished, Unheard, answer, call_reply, heard_reply, unheard_reply};
use ang_engine_modules::{Outcome, Refusal, Reply, build_at, end_last, find, forget_failed};
use ang_heap::begin_command;
use ang_host::{Driver, EventBuffer};
use ang_kinds::Value;

/// A function of a built module that was looked up once (`Engine::prepare`), to be called without its
/// text.
///
/// It belongs to the engine that it was looked up in: another one takes it for one of its own functions,
/// or for none.
#[derive(Clone, Copy)]
pub struct Prepared {
    home: u32,
    build: u64,
    number: usize,
}

impl Engine {
    ghost use Rattle.ang_engine.specs.Asked.{HasAsked};
    ghost use Rattle.ang_engine.specs.Outcomes.{IfRefusedAtOnce, IsCalled, calling, reply_to_call};
    ghost use Rattle.ang_engine.specs.Engines.{list_in, registrations, world_in, drivers_in, limits_in, held_in, builds_in, last_build};
    ghost use Rattle.ang_engine.specs.Replies.{reply_in, WasUnheard};
    ghost use Rattle.ang_engine_modules.specs.Ended.{is_fault, may_have_run};
    ghost use Rattle.ang_engine.specs.Trace.{trace_in, ticks_in};
    ghost use Rattle.ang_engine.specs.Prepared.{IsFunctionOf, HasAppliedPrepared, build_in, number_in, looked_up, is_there, calling_number};

    /// Looks up a function of a built module for calls of it: by its declaration without the body, as
    /// `Command::Call` takes it. What was prepared stands for that function until its module is built
    /// again, or a build of it is tried, or it is discarded; from then on it stands for none.
    ///
    /// # Errors
    /// The first that applies, as of a call: `NoModule` where there is no module of that name,
    /// `NotBuilt`, `NoFunction` where it has no function of that declaration, `NotCallable` where a host
    /// can't call it; or `Memory`.
    pub fn prepare(&self, name: &[u8], decl: &[u8]) -> Result<Prepared, Refusal>
        requires sound { IsSound ⟦<dyn Driver as Driver>⟧ self.now }
        ensures prepared { IfOk result (λ p. IsFunctionOf (world_in ⟦<dyn Driver as Driver>⟧ self.now)
            (builds_in self.now) p name.now decl.now) }
        ensures found { IfOk result (λ p.
            looked_up name.now decl.now (world_in ⟦<dyn Driver as Driver>⟧ self.now)
            ≡ Ok (number_in p)) }
        ensures there { IfOk result (λ p. is_there (builds_in self.now) p ≡ true) }
        ensures begun { IfOk result (λ p. build_in p ≤ last_build self.now) }
        ensures refused { IfErr result (λ why. why ≢ Memory
            → looked_up name.now decl.now (world_in ⟦<dyn Driver as Driver>⟧ self.now) ≡ Err why) }
    {
        let Some(home) = find(&self.modules.places, name) else {
            return Err(Refusal::NoModule);
        };
        let Some(loaded) = self.modules.code.loaded(home) else {
            return Err(Refusal::NotBuilt);
        };
        // Each module that is built has the number of its build.
        let Some(build) = build_at(&self.modules.places, home) else {
            return Err(Refusal::Memory);
        };
        match callable_number(self.alloc, loaded, decl) {
            Ok(number) => Ok(Prepared {
                home,
                build,
                number,
            }),
            Err(refusal) => Err(refusal),
        }
    }

    /// Calls a function that was looked up before, with these values in the order of its parameters. The
    /// reply, and the modules after it, are those of `Command::Call` by any text that names the function:
    /// `apply` says what holds of them. A budget is from 1 to 2,147,483,647 ticks, else the call is
    /// refused as `BadBudget`.
    ///
    /// Where the function's module was built again since, or is gone, the call is refused as
    /// `NoFunction`, and nothing changes.
    pub fn call_prepared(&mut self, prepared: Prepared, args: &[Value], budget: u64) -> Reply
        requires sound { IsSound ⟦<dyn Driver as Driver>⟧ self.old }
        ensures takes { (name decl : ListOf ℕ)
            → IsFunctionOf (world_in ⟦<dyn Driver as Driver>⟧ self.old) (builds_in self.old)
            prepared name decl
            → Takes (list_in self.old) (world_in ⟦<dyn Driver as Driver>⟧ self.old)
            (Call name decl args.now budget) result (world_in ⟦<dyn Driver as Driver>⟧ self.new) }
        ensures gone { is_there (builds_in self.old) prepared ≡ false
            → result ≡ reply_of (Refused NoFunction) [] [] }
        ensures unchanged { is_there (builds_in self.old) prepared ≡ false
            → world_in ⟦<dyn Driver as Driver>⟧ self.new
            ≡ world_in ⟦<dyn Driver as Driver>⟧ self.old }
        ensures entitled { All
            (IsEntitled (registrations self.old) (world_in ⟦<dyn Driver as Driver>⟧ self.new))
            result.events }
        ensures follow { (roles : ListOf Role) → AreRoles roles (registrations self.old)
            → DriversFollow ⟦<dyn Driver as Driver>⟧ roles (drivers_in self.old) result.events
            (drivers_in self.new) }
        ensures refused { IfRefusedAtOnce result.outcome
            (drivers_in self.new ≡ drivers_in self.old) }
        ensures few_events { length result.events
            ≤ max (limits_in self.old).events (held_in ⟦<dyn Driver as Driver>⟧ self.old).objects }
        ensures few_slots { (held_in ⟦<dyn Driver as Driver>⟧ self.new).slots
            ≤ max (limits_in self.old).slots (held_in ⟦<dyn Driver as Driver>⟧ self.old).slots }
        ensures few_objects { (held_in ⟦<dyn Driver as Driver>⟧ self.new).objects
            ≤ max (limits_in self.old).objects (held_in ⟦<dyn Driver as Driver>⟧ self.old).objects }
        ensures limits { limits_in self.new ≡ limits_in self.old }
        ensures due { (world_in ⟦<dyn Driver as Driver>⟧ self.new).spent ≡ true
            → SomeRanOut (states_of ⟦<dyn Driver as Driver>⟧ (drivers_in self.new)) }
        ensures sound { IsSound ⟦<dyn Driver as Driver>⟧ self.new }
        ensures list { list_in self.new ≡ list_in self.old }
        ensures builds { builds_in self.new ≡ builds_in self.old }
        ensures last { last_build self.new ≡ last_build self.old }
        ensures no_trace { is_fault result.outcome ≡ false → trace_in self.new ≡ [] }
        ensures ticks { ticks_in self.new ≤ budget }
        ensures no_ticks { may_have_run result.outcome ≡ false → ticks_in self.new ≡ 0 }
    {
        heard_reply(self.finish_prepared(true, prepared, args, budget))
    }

    /// Calls a function that was looked up before, as `call_prepared` does, for a host that does not read
    /// what was asked: see `apply_unheard`.
    pub fn call_prepared_unheard(
        &mut self,
        prepared: Prepared,
        args: &[Value],
        budget: u64,
    ) -> Unheard
        requires sound { IsSound ⟦<dyn Driver as Driver>⟧ self.old }
        ensures there_is { WasUnheard result (λ reply. HasAppliedPrepared ⟦<dyn Driver as Driver>⟧
            self.old prepared args.now budget reply self.new) }
        ensures few_events { result.asked + result.ended
            ≤ max (limits_in self.old).events (held_in ⟦<dyn Driver as Driver>⟧ self.old).objects }
        ensures few_slots { (held_in ⟦<dyn Driver as Driver>⟧ self.new).slots
            ≤ max (limits_in self.old).slots (held_in ⟦<dyn Driver as Driver>⟧ self.old).slots }
        ensures few_objects { (held_in ⟦<dyn Driver as Driver>⟧ self.new).objects
            ≤ max (limits_in self.old).objects (held_in ⟦<dyn Driver as Driver>⟧ self.old).objects }
        ensures limits { limits_in self.new ≡ limits_in self.old }
        ensures due { (world_in ⟦<dyn Driver as Driver>⟧ self.new).spent ≡ true
            → SomeRanOut (states_of ⟦<dyn Driver as Driver>⟧ (drivers_in self.new)) }
        ensures sound { IsSound ⟦<dyn Driver as Driver>⟧ self.new }
        ensures list { list_in self.new ≡ list_in self.old }
        ensures builds { builds_in self.new ≡ builds_in self.old }
        ensures last { last_build self.new ≡ last_build self.old }
        ensures no_trace { is_fault result.outcome ≡ false → trace_in self.new ≡ [] }
        ensures ticks { ticks_in self.new ≤ budget }
        ensures no_ticks { may_have_run result.outcome ≡ false → ticks_in self.new ≡ 0 }
    {
        unheard_reply(self.finish_prepared(false, prepared, args, budget))
    }

    /// Calls it, with events that can be read afterwards or are counted alone.
    fn finish_prepared(
        &mut self,
        heard: bool,
        prepared: Prepared,
        args: &[Value],
        budget: u64,
    ) -> Finished
        requires sound { IsSound ⟦<dyn Driver as Driver>⟧ self.old }
        ensures applied { HasAppliedPrepared ⟦<dyn Driver as Driver>⟧ self.old prepared args.now
            budget (reply_in result) self.new }
        ensures heard { is_heard result.events ≡ heard }
        ensures within { StaysWithin ⟦<dyn Driver as Driver>⟧ self.old.machine.store
            (reply_in result).events self.new.machine.store }
        ensures sound { IsSound ⟦<dyn Driver as Driver>⟧ self.new }
        ensures registry { self.new.registry ≡ self.old.registry }
        ensures builds { builds_in self.new ≡ builds_in self.old }
        ensures last { last_build self.new ≡ last_build self.old }
        ensures no_trace { is_fault result.outcome ≡ false → trace_in self.new ≡ [] }
        ensures ticks { ticks_in self.new ≤ budget }
        ensures no_ticks { may_have_run result.outcome ≡ false → ticks_in self.new ≡ 0 }
    {
        begin_command(&mut self.machine.store);
        self.machine.last.left = budget;
        forget_failed(&mut self.modules.failed);
        let finished = self.dispatch_prepared(heard, prepared, args, budget);
        self.ticks = end_last(&mut self.machine.last, budget, finished.outcome);
        finished
    }

    /// Calls it as a command that has begun.
    fn dispatch_prepared(
        &mut self,
        heard: bool,
        prepared: Prepared,
        args: &[Value],
        budget: u64,
    ) -> Finished
        requires sound { IsSound ⟦<dyn Driver as Driver>⟧ self.old }
        ensures applied { HasAppliedPrepared ⟦<dyn Driver as Driver>⟧ self.old prepared args.now
            budget (reply_in result) self.new }
        ensures heard { is_heard result.events ≡ heard }
        ensures within { StaysWithin ⟦<dyn Driver as Driver>⟧ self.old.machine.store
            (reply_in result).events self.new.machine.store }
        ensures sound { IsSound ⟦<dyn Driver as Driver>⟧ self.new }
        ensures registry { self.new.registry ≡ self.old.registry }
        ensures builds { builds_in self.new ≡ builds_in self.old }
        ensures last { last_build self.new ≡ last_build self.old }
    {
        if self.is_there(prepared) {
            self.call_with_room(heard, prepared, args, budget)
        } else {
            answer(self.alloc, heard, Outcome::Refused(Refusal::NoFunction))
        }
    }

    /// Calls it where its module is there still.
    fn call_with_room(
        &mut self,
        heard: bool,
        prepared: Prepared,
        args: &[Value],
        budget: u64,
    ) -> Finished
        requires sound { IsSound ⟦<dyn Driver as Driver>⟧ self.old }
        requires there { is_there (builds_in self.old) prepared ≡ true }
        ensures applied { HasAppliedPrepared ⟦<dyn Driver as Driver>⟧ self.old prepared args.now
            budget (reply_in result) self.new }
        ensures heard { is_heard result.events ≡ heard }
        ensures within { StaysWithin ⟦<dyn Driver as Driver>⟧ self.old.machine.store
            (reply_in result).events self.new.machine.store }
        ensures sound { IsSound ⟦<dyn Driver as Driver>⟧ self.new }
        ensures registry { self.new.registry ≡ self.old.registry }
        ensures builds { builds_in self.new ≡ builds_in self.old }
        ensures last { last_build self.new ≡ last_build self.old }
    {
        let Ok(mut events) = room_for_ends(self.alloc, heard, &self.machine) else {
            return answer(self.alloc, heard, Outcome::Refused(Refusal::Memory));
        };
        let done = self.call_there(&mut events, prepared, args, budget);
        call_reply(self.alloc, heard, done, events)
    }

    /// Whether the function's module is there still, and was not built since.
    fn is_there(&self, prepared: Prepared) -> bool
        ensures exact { result ≡ is_there (builds_in self.now) prepared }
    {
        match build_at(&self.modules.places, prepared.home) {
            Some(build) => build == prepared.build,
            None => false,
        }
    }

    /// The same, with events that have room for the end of each live host object.
    fn call_there(
        &mut self,
        events: &mut EventBuffer,
        prepared: Prepared,
        args: &[Value],
        budget: u64,
    ) -> Result<Outcome, Refusal>
        requires sound { IsSound ⟦<dyn Driver as Driver>⟧ self.old }
        requires ready { IsReady ⟦<dyn Driver as Driver>⟧ (lent self.old.machine events.old) }
        requires first { listed_in events.old ≡ [] }
        ensures done { (name decl : ListOf ℕ)
            → IsFunctionOf (world_in ⟦<dyn Driver as Driver>⟧ self.old) (builds_in self.old)
            prepared name decl
            → IsCalled result (listed_in events.new)
            (calling name decl args.now budget (world_in ⟦<dyn Driver as Driver>⟧ self.old))
            (world_in ⟦<dyn Driver as Driver>⟧ self.old)
            (world_in ⟦<dyn Driver as Driver>⟧ self.new) }
        ensures asked { HasAsked ⟦<dyn Driver as Driver>⟧ (registrations self.old)
            (world_in ⟦<dyn Driver as Driver>⟧ self.new)
            (reply_to_call result (listed_in events.new)).events self.old.machine.store
            self.new.machine.store }
        ensures refused { IfRefusedAtOnce (reply_to_call result (listed_in events.new)).outcome
            (drivers_in self.new ≡ drivers_in self.old) }
        ensures heard { is_heard events.new ≡ is_heard events.old }
        ensures modules { self.new.modules ≡ self.old.modules }
        ensures globals { list_map length (values_in self.new.machine.store.globals)
            ≡ list_map length (values_in self.old.machine.store.globals) }
        ensures registry { self.new.registry ≡ self.old.registry }
    {
        if !may_run(budget) {
            return Err(Refusal::BadBudget);
        }
        self.call_number(events, prepared.home, prepared.number, args, budget)
    }

    /// Calls the function of this number of the module in this place, with a budget that is one: the
    /// second half of each call, when the function was found.
    pub(crate) fn call_number(
        &mut self,
        events: &mut EventBuffer,
        home: u32,
        number: usize,
        args: &[Value],
        budget: u64,
    ) -> Result<Outcome, Refusal>
        requires sound { IsSound ⟦<dyn Driver as Driver>⟧ self.old }
        requires ready { IsReady ⟦<dyn Driver as Driver>⟧ (lent self.old.machine events.old) }
        requires first { listed_in events.old ≡ [] }
        ensures done { IsCalled result (listed_in events.new)
            (calling_number home number args.now budget
            (world_in ⟦<dyn Driver as Driver>⟧ self.old))
            (world_in ⟦<dyn Driver as Driver>⟧ self.old)
            (world_in ⟦<dyn Driver as Driver>⟧ self.new) }
        ensures asked { HasAsked ⟦<dyn Driver as Driver>⟧ (registrations self.old)
            (world_in ⟦<dyn Driver as Driver>⟧ self.new)
            (reply_to_call result (listed_in events.new)).events self.old.machine.store
            self.new.machine.store }
        ensures refused { IfRefusedAtOnce (reply_to_call result (listed_in events.new)).outcome
            (drivers_in self.new ≡ drivers_in self.old) }
        ensures heard { is_heard events.new ≡ is_heard events.old }
        ensures modules { self.new.modules ≡ self.old.modules }
        ensures globals { list_map length (values_in self.new.machine.store.globals)
            ≡ list_map length (values_in self.old.machine.store.globals) }
        ensures registry { self.new.registry ≡ self.old.registry }
    {
        let Some(loaded) = self.modules.code.loaded(home) else {
            return Err(Refusal::NotBuilt);
        };
        match choose_by_number(self.alloc, loaded, number, args) {
            Ok(chosen) => Ok(run_chosen(
                &self.modules.code,
                &mut self.machine,
                events,
                home,
                &chosen,
                budget,
            )),
            Err(refusal) => Err(refusal),
        }
    }
}
