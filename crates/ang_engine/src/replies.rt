//! The replies to commands.
ghost use Rattle.std.specs.Prelude.{◌≡◌, ◌+◌, [], true};
ghost use Rattle.ang_engine_modules.specs.Commands.{reply_of};
ghost use Rattle.ang_engine.specs.Step.{errors_reply};
ghost use Rattle.ang_host.specs.Logs.{listed_in, log_len, is_heard};
ghost use Rattle.ang_host.specs.Events.{ends_listed};
ghost use Rattle.ang_engine.specs.Outcomes.{reply_to_build, reply_to_call, reply_to_discard};
ghost use Rattle.ang_engine.specs.Replies.{reply_in, reply_with};

use crate::building::BuildRefused;
use ang_engine_modules::{Outcome, Refusal, Reply, no_events};
use ang_host::{EventBuffer, EventLog};
use ang_kinds::{Denial, Error, List};
use std::alloc::Global;

/// The answer to a command whose events were counted and not kept (`Engine::apply_unheard`).
#[derive(Drop)]
pub struct Unheard {
    /// How the command ended.
    pub outcome: Outcome,
    /// How many host calls there were.
    pub asked: usize,
    /// How many host objects ended.
    pub ended: usize,
    /// The errors of a refused build, as in a `Reply`.
    pub errors: List<Error>,
    /// The denials beside them, as in a `Reply`.
    pub denials: List<Denial>,
}

/// How a command ended, with the buffer that its events were written to.
#[derive(Drop)]
pub struct Finished {
    pub outcome: Outcome,
    pub events: EventBuffer,
    pub errors: List<Error>,
    pub denials: List<Denial>,
}

/// The reply to a command whose events can be read.
pub fn heard_reply(finished: Finished) -> Reply
    requires heard { is_heard finished.events ≡ true }
    ensures exact { result ≡ reply_in finished }
{
    Reply {
        outcome: finished.outcome,
        events: EventLog::from_buffer(finished.events),
        errors: finished.errors,
        denials: finished.denials,
    }
}

/// The answer to a command whose events are not handed out.
#[tactic(auto, using(crate::proofs::Limiting::ends_are_few))]
pub fn unheard_reply(finished: Finished) -> Unheard
    ensures exact { reply_with (listed_in finished.events) result ≡ reply_in finished }
    ensures ended { result.ended ≡ ends_listed (listed_in finished.events) }
    ensures count { result.asked + result.ended ≡ log_len finished.events }
{
    let ended = finished.events.ends();
    Unheard {
        outcome: finished.outcome,
        asked: finished.events.len() - ended,
        ended,
        errors: finished.errors,
        denials: finished.denials,
    }
}

/// An end without errors and denials.
fn with_events(alloc: Global, outcome: Outcome, events: EventBuffer) -> Finished
    ensures exact { reply_in result ≡ reply_of outcome (listed_in events) [] }
    ensures heard { is_heard result.events ≡ is_heard events }
{
    Finished {
        outcome,
        events,
        errors: List::from_vec(Vec::new(alloc)),
        denials: List::from_vec(Vec::new(alloc)),
    }
}

/// The end of a build of sections with these errors and denials.
fn with_errors(events: EventBuffer, errors: List<Error>, denials: List<Denial>) -> Finished
    ensures exact { reply_in result ≡ errors_reply (listed_in events) errors denials }
    ensures heard { is_heard result.events ≡ is_heard events }
{
    Finished {
        outcome: Outcome::Refused(Refusal::BuildErrors),
        events,
        errors,
        denials,
    }
}

/// An end without events, errors and denials.
pub fn answer(alloc: Global, heard: bool, outcome: Outcome) -> Finished
    ensures exact { reply_in result ≡ reply_of outcome [] [] }
    ensures heard { is_heard result.events ≡ heard }
{
    with_events(alloc, outcome, no_events(alloc, heard))
}

/// The end of a build, with what it has listed.
pub fn build_reply(
    alloc: Global,
    heard: bool,
    done: Result<(), BuildRefused>,
    events: EventBuffer,
) -> Finished
    requires heard { is_heard events ≡ heard }
    ensures exact { reply_in result ≡ reply_to_build done (listed_in events) }
    ensures heard { is_heard result.events ≡ heard }
{
    match done {
        Ok(()) => with_events(alloc, Outcome::Done(None), events),
        Err(BuildRefused::Before(refusal)) => answer(alloc, heard, Outcome::Refused(refusal)),
        Err(BuildRefused::Memory) => {
            with_events(alloc, Outcome::Refused(Refusal::BuildMemory), events)
        }
        Err(BuildRefused::Errors(errors, denials)) => with_errors(events, errors, denials),
        Err(BuildRefused::Initializer(fault)) => {
            with_events(alloc, Outcome::Refused(Refusal::InitFailed(fault)), events)
        }
    }
}

/// The end of a call, with what it has listed.
pub fn call_reply(
    alloc: Global,
    heard: bool,
    done: Result<Outcome, Refusal>,
    events: EventBuffer,
) -> Finished
    requires heard { is_heard events ≡ heard }
    ensures exact { reply_in result ≡ reply_to_call done (listed_in events) }
    ensures heard { is_heard result.events ≡ heard }
{
    match done {
        Ok(outcome) => with_events(alloc, outcome, events),
        Err(refusal) => answer(alloc, heard, Outcome::Refused(refusal)),
    }
}

/// The end of a discard, with the ends of objects that it has listed.
pub fn discard_reply(
    alloc: Global,
    heard: bool,
    done: Result<(), Refusal>,
    events: EventBuffer,
) -> Finished
    requires heard { is_heard events ≡ heard }
    ensures exact { reply_in result ≡ reply_to_discard done (listed_in events) }
    ensures heard { is_heard result.events ≡ heard }
{
    match done {
        Ok(()) => with_events(alloc, Outcome::Done(None), events),
        Err(refusal) => answer(alloc, heard, Outcome::Refused(refusal)),
    }
}
