//! A conversation: the lines of a session are read one after the other, and each command is done before the next line
//! is read.
ghost use Rattle.std.specs.Prelude.{◌≡◌, ◌<◌, ◌^◌, [], length, cond, IfOk, IfSome, OnOk, OnErr};
ghost use Rattle.std.specs.Io.KnownBytes.{Appends};
ghost use Rattle.ang_host.specs.Boxes.{members};
ghost use Rattle.ang_view.specs.Only.{IsWithin};
ghost use Rattle.ang_engine.specs.Engines.{list_in, registrations, world_in, drivers_in};
ghost use Rattle.ang_engine.specs.Sound.{IsSound};
ghost use Rattle.asrun_session.specs.Drivers.{kinds_of, AreListed};
ghost use Rattle.asrun_session.specs.Engines.{Comes};
ghost use Rattle.asrun_session.specs.Whole.{start_by, list_begun, start_of, outcome_of, long_session_text};
ghost use Rattle.asrun_session.specs.Writing.{HasFront};
ghost use Rattle.asremote.specs.Conversation.{stepped, Steps, StepsHalf, Converses, IsCutShort, TalksOver, StopsOver, Tells};
ghost use Rattle.asremote.specs.Talk.{done_line};

use crate::commands::{Next, read_command};
use crate::turns::{At, one_turn, print_done};
use ang_engine::{Engine, NewError, NewRefused, Prepared};
use ang_host::{Driver, Drivers};
use asrun_session::{
    IoFault, LoadedProfile, ReplyBuffer, SessionEnd, SessionError, Status, limited_engine,
    load_profile, outcome_of, print_drivers_error, print_no_driver, write_text,
};
use std::alloc::Global;
use std::io::{Read, Write};

fn ended(all_ok: bool) -> Status
    ensures exact { result ≡ cond all_ok Status.AllOk Status.SomeRefused }
{
    if all_ok {
        Status::AllOk
    } else {
        Status::SomeRefused
    }
}

/// Says that a command is too long.
fn print_too_long<W: Write>(writer: &mut W) -> Result<(), SessionError>
    ensures whole { OnOk result
        (Appends (W.contents writer.old) (W.contents writer.new) long_session_text) }
    ensures front { OnErr result
        (HasFront (W.contents writer.old) (W.contents writer.new) long_session_text) }
{
    write_text(writer, b"line 0 TooLong\n")?;
    Ok(())
}

/// What stands in the place of the next command, and what it came to.
#[derive(Clone, Copy)]
pub enum Step {
    /// A command was done; another may follow.
    Next(At),
    /// A command was done; the input ends.
    Last(At),
    /// The line of a command ended the conversation, which is printed.
    Bad,
    /// A command was too long, which is printed.
    Long,
    /// There is none: the input ends.
    End,
}

/// The step of a command whose turn came to this.
fn stepped(at: Option<At>, is_last: bool) -> Step
    ensures exact { result ≡ stepped at is_last }
{
    let Some(at) = at else {
        return Step::Bad;
    };
    if is_last {
        return Step::Last(at);
    }
    Step::Next(at)
}

/// Reads a command into an empty text and does it. The writer has its reply, and `done` after it.
///
/// # Errors
/// A read fault, a write fault, and want of memory.
fn turn_over<S: Read, W: Write>(
    alloc: Global,
    input: &mut S,
    writer: &mut W,
    buffer: &mut ReplyBuffer,
    engine: &mut Engine,
    prepared: &mut Vec<Prepared>,
    text: &mut Vec<u8>,
    number: u64,
    ticks: u64,
) -> Result<Step, SessionError>
    requires sound { IsSound ⟦<dyn Driver as Driver>⟧ engine.old }
    requires empty { text.old.items ≡ [] }
    ensures sound { IsSound ⟦<dyn Driver as Driver>⟧ engine.new }
    ensures within { IsWithin (registrations engine.new) (registrations engine.old) }
    ensures order { kinds_of (drivers_in engine.new) ≡ kinds_of (drivers_in engine.old) }
    ensures done { IfOk result (Steps ⟦<dyn Driver as Driver>⟧ engine.old engine.new
        prepared.old.items prepared.new.items (S.remaining input.old) (S.remaining input.new)
        (W.contents writer.old) (W.contents writer.new) number ticks) }
    ensures cut { OnErr result (StepsHalf ⟦<dyn Driver as Driver>⟧ engine.old engine.new
        prepared.old.items prepared.new.items (S.remaining input.old) (S.remaining input.new)
        (W.contents writer.old) (W.contents writer.new) number ticks) }
{
    match read_command(alloc, input, text)? {
        Next::Command => {
            let lines = text.as_slice();
            let at = one_turn(
                alloc, engine, writer, buffer, prepared, lines, number, ticks,
            )?;
            Ok(stepped(at, false))
        }
        Next::Last => {
            let lines = text.as_slice();
            let at = one_turn(
                alloc, engine, writer, buffer, prepared, lines, number, ticks,
            )?;
            Ok(stepped(at, true))
        }
        Next::TooLong => {
            print_too_long(writer)?;
            Ok(Step::Long)
        }
        Next::End => Ok(Step::End),
    }
}

/// The same with a text of its own.
///
/// # Errors
/// A read fault, a write fault, and want of memory.
fn next_turn<S: Read, W: Write>(
    alloc: Global,
    input: &mut S,
    writer: &mut W,
    buffer: &mut ReplyBuffer,
    engine: &mut Engine,
    prepared: &mut Vec<Prepared>,
    number: u64,
    ticks: u64,
) -> Result<Step, SessionError>
    requires sound { IsSound ⟦<dyn Driver as Driver>⟧ engine.old }
    ensures sound { IsSound ⟦<dyn Driver as Driver>⟧ engine.new }
    ensures within { IsWithin (registrations engine.new) (registrations engine.old) }
    ensures order { kinds_of (drivers_in engine.new) ≡ kinds_of (drivers_in engine.old) }
    ensures done { IfOk result (Steps ⟦<dyn Driver as Driver>⟧ engine.old engine.new
        prepared.old.items prepared.new.items (S.remaining input.old) (S.remaining input.new)
        (W.contents writer.old) (W.contents writer.new) number ticks) }
    ensures cut { OnErr result (StepsHalf ⟦<dyn Driver as Driver>⟧ engine.old engine.new
        prepared.old.items prepared.new.items (S.remaining input.old) (S.remaining input.new)
        (W.contents writer.old) (W.contents writer.new) number ticks) }
{
    let mut text = Vec::new(alloc);
    let step = turn_over(
        alloc, input, writer, buffer, engine, prepared, &mut text, number, ticks,
    );
    drop(text);
    step
}

/// Reads commands and does them, until the input ends or a line ends the conversation. The writer has the reply of
/// each, and `done` after it.
///
/// # Errors
/// A read fault, also after 4,294,967,295 commands; a write fault; and want of memory.
fn turns_on<S: Read, W: Write>(
    alloc: Global,
    input: &mut S,
    writer: &mut W,
    buffer: &mut ReplyBuffer,
    engine: &mut Engine,
    prepared: &mut Vec<Prepared>,
    budget: u64,
) -> Result<Status, SessionError>
    requires sound { IsSound ⟦<dyn Driver as Driver>⟧ engine.old }
    requires none { prepared.old.items ≡ [] }
    ensures sound { IsSound ⟦<dyn Driver as Driver>⟧ engine.new }
    ensures within { IsWithin (registrations engine.new) (registrations engine.old) }
    ensures order { kinds_of (drivers_in engine.new) ≡ kinds_of (drivers_in engine.old) }
    ensures done { IfOk result (λ status. Comes ⟦<dyn Driver as Driver>⟧ engine.old engine.new
        (Converses (list_in engine.old) (world_in ⟦<dyn Driver as Driver>⟧ engine.old)
        budget [] (S.remaining input.old) (S.remaining input.new) (W.contents writer.old)
        (W.contents writer.new) status)) }
    ensures cut { OnErr result (Comes ⟦<dyn Driver as Driver>⟧ engine.old engine.new
        (IsCutShort (list_in engine.old) (world_in ⟦<dyn Driver as Driver>⟧ engine.old)
        budget [] (S.remaining input.old) (S.remaining input.new) (W.contents writer.old)
        (W.contents writer.new))) }
{
    let mut number = 1;
    let mut ticks = budget;
    let mut all_ok = true;
    for _ in 0..u32::MAX {
        match next_turn(
            alloc, input, writer, buffer, engine, prepared, number, ticks,
        )? {
            Step::Next(at) => {
                all_ok &= at.ok;
                ticks = at.ticks;
                number = at.number;
            }
            Step::Last(at) => return Ok(ended(all_ok & at.ok)),
            Step::Bad => return Ok(Status::BadInput),
            Step::Long => return Ok(Status::BadInput),
            Step::End => return Ok(ended(all_ok)),
        }
    }
    Err(SessionError::Fault(IoFault::Read))
}

/// Tells the start, and goes on as `turns_on`.
///
/// # Errors
/// Those of `turns_on`.
fn run_turns<S: Read, W: Write>(
    alloc: Global,
    input: &mut S,
    writer: &mut W,
    buffer: &mut ReplyBuffer,
    engine: &mut Engine,
    budget: u64,
) -> Result<Status, SessionError>
    requires sound { IsSound ⟦<dyn Driver as Driver>⟧ engine.old }
    ensures sound { IsSound ⟦<dyn Driver as Driver>⟧ engine.new }
    ensures within { IsWithin (registrations engine.new) (registrations engine.old) }
    ensures order { kinds_of (drivers_in engine.new) ≡ kinds_of (drivers_in engine.old) }
    ensures done { IfOk result (λ status. Comes ⟦<dyn Driver as Driver>⟧ engine.old engine.new
        (Converses (list_in engine.old) (world_in ⟦<dyn Driver as Driver>⟧ engine.old)
        budget done_line (S.remaining input.old) (S.remaining input.new)
        (W.contents writer.old) (W.contents writer.new) status)) }
    ensures cut { OnErr result (Comes ⟦<dyn Driver as Driver>⟧ engine.old engine.new
        (IsCutShort (list_in engine.old) (world_in ⟦<dyn Driver as Driver>⟧ engine.old)
        budget done_line (S.remaining input.old) (S.remaining input.new)
        (W.contents writer.old) (W.contents writer.new))) }
{
    print_done(writer)?;
    let mut prepared = Vec::new(alloc);
    let ended = turns_on(alloc, input, writer, buffer, engine, &mut prepared, budget);
    drop(prepared);
    ended
}

/// Makes the engine, under the profile's limits, holds the conversation and discards the engine.
fn run_engine<S: Read, W: Write>(
    alloc: Global,
    input: &mut S,
    writer: &mut W,
    buffer: &mut ReplyBuffer,
    profile: LoadedProfile,
    drivers: Drivers,
    budget: u64,
) -> (Result<Status, SessionError>, Vec<Box<dyn Driver>>)
    requires listed { AreListed ⟦<dyn Driver as Driver>⟧ (members drivers) }
    ensures done { IfOk result.0 (TalksOver ⟦<dyn Driver as Driver>⟧ (members drivers)
        result.1.items budget (S.remaining input.old) (S.remaining input.new)
        (W.contents writer.old) (W.contents writer.new)
        (start_by (list_begun profile.registry) profile.limits)) }
    ensures cut { OnErr result.0 (StopsOver ⟦<dyn Driver as Driver>⟧ (members drivers)
        result.1.items budget (S.remaining input.old) (S.remaining input.new)
        (W.contents writer.old) (W.contents writer.new)
        (start_by (list_begun profile.registry) profile.limits)) }
{
    match limited_engine(alloc, profile, drivers) {
        Ok(mut engine) => {
            let ended = run_turns(alloc, input, writer, buffer, &mut engine, budget);
            (ended, engine.discard())
        }
        Err(
            NewRefused {
                why,
                registry,
                drivers,
            },
        ) => {
            drop(registry);
            let ended = match why {
                NewError::NoDriver => print_no_driver(writer),
                NewError::Memory => Err(SessionError::Memory),
            };
            (ended, drivers.into_boxes())
        }
    }
}

/// Holds the conversation with these drivers, if they are taken.
fn run_drivers<S: Read, W: Write>(
    alloc: Global,
    input: &mut S,
    writer: &mut W,
    buffer: &mut ReplyBuffer,
    profile: LoadedProfile,
    drivers: Vec<Box<dyn Driver>>,
    budget: u64,
) -> (Result<Status, SessionError>, Vec<Box<dyn Driver>>)
    requires few { length drivers.items < 2 ^ 60 }
    ensures done { IfOk result.0 (TalksOver ⟦<dyn Driver as Driver>⟧ drivers.items
        result.1.items budget (S.remaining input.old) (S.remaining input.new)
        (W.contents writer.old) (W.contents writer.new)
        (start_by (list_begun profile.registry) profile.limits)) }
    ensures cut { OnErr result.0 (StopsOver ⟦<dyn Driver as Driver>⟧ drivers.items
        result.1.items budget (S.remaining input.old) (S.remaining input.new)
        (W.contents writer.old) (W.contents writer.new)
        (start_by (list_begun profile.registry) profile.limits)) }
{
    match Drivers::new(drivers) {
        Ok(drivers) => run_engine(alloc, input, writer, buffer, profile, drivers, budget),
        Err((why, drivers)) => {
            drop(profile);
            (print_drivers_error(writer, why), drivers)
        }
    }
}

/// Holds a conversation as `converse` does, with a buffer for what is printed.
fn converse_with<P: Read, S: Read, W: Write>(
    alloc: Global,
    profile: &mut P,
    input: &mut S,
    out: &mut W,
    buffer: &mut ReplyBuffer,
    drivers: Vec<Box<dyn Driver>>,
    budget: u64,
) -> (Result<Status, SessionError>, Vec<Box<dyn Driver>>)
    requires few { length drivers.items < 2 ^ 60 }
    ensures told { IfSome (P.remaining profile.old) (λ text. Tells ⟦<dyn Driver as Driver>⟧
        drivers.items result.1.items budget (S.remaining input.old) (S.remaining input.new)
        (W.contents out.old) (W.contents out.new) (start_of text) (outcome_of result.0)) }
{
    let mut loaded = LoadedProfile::new(alloc);
    match load_profile(alloc, profile, out, buffer, &mut loaded) {
        Ok(true) => run_drivers(alloc, input, out, buffer, loaded, drivers, budget),
        Ok(false) => {
            drop(loaded);
            (Ok(Status::BadInput), drivers)
        }
        Err(stop) => {
            drop(loaded);
            (Err(stop), drivers)
        }
    }
}

/// Holds a conversation over a profile with these drivers: reads a command, does it, writes its reply to `out` and then
/// `done`, and so on. What the drivers are asked for a command, they are asked before its reply is begun.
///
/// A line of another form is answered `refused BadLine`, unless its first letters are `section`. A command has at most
/// 16,777,216 bytes with its section. On every exit the engine, where there was one, has been discarded.
pub fn converse<P: Read, S: Read, W: Write>(
    alloc: Global,
    profile: &mut P,
    input: &mut S,
    out: &mut W,
    drivers: Vec<Box<dyn Driver>>,
    budget: u64,
) -> SessionEnd
    requires few { length drivers.items < 2 ^ 60 }
    ensures told { IfSome (P.remaining profile.old) (λ text. Tells ⟦<dyn Driver as Driver>⟧
        drivers.items result.drivers.items budget (S.remaining input.old) (S.remaining input.new)
        (W.contents out.old) (W.contents out.new) (start_of text) result.outcome) }
{
    let Ok(mut buffer) = ReplyBuffer::new(alloc) else {
        return SessionEnd {
            outcome: Ok(Status::Memory),
            drivers,
        };
    };
    let (ended, drivers) = converse_with(alloc, profile, input, out, &mut buffer, drivers, budget);
    drop(buffer);
    SessionEnd {
        outcome: outcome_of(ended),
        drivers,
    }
}
