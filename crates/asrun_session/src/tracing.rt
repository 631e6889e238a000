//! A session in which the reply of each command that ends with a fault is followed by the lines of its trace: `asrun --trace`
//! (docs/FORMATS.md, "Traces").
ghost use Rattle.std.specs.Prelude.{◌<◌, ◌^◌, length};
ghost use Rattle.ang_engine.specs.Sound.{IsSound};
ghost use Rattle.ang_host.specs.Boxes.{members};
ghost use Rattle.asrun_session.specs.Drivers.{AreListed};

use crate::action::{Action, read_act};
use crate::ending::{SessionError, Status};
use crate::inquiries::print_frames;
use crate::limits::limited_engine;
use crate::printing::{ReplyBuffer, print_bad_line, print_reply, write_text};
use crate::profile::LoadedProfile;
use crate::reading::{BoundedText, MOST_SESSION, read_text};
use crate::run::is_done;
use crate::whole::{SessionEnd, load_profile, outcome_of, print_drivers_error, print_no_driver};
use ang_engine::{Command, Engine, NewError, NewRefused};
use ang_host::{Driver, Drivers};
use asrun_lines::{LineError, first_line, is_skipped, shown};
use std::alloc::Global;
use std::io::{Read, Write};

/// Runs a command, prints its reply, and where it ended with a fault its trace. Says whether it ended in `ok`.
fn run_command<W: Write>(
    engine: &mut Engine,
    writer: &mut W,
    buffer: &mut ReplyBuffer,
    command: Command,
) -> Result<bool, SessionError>
    requires sound { IsSound ⟦<dyn Driver as Driver>⟧ engine.old }
    ensures sound { IsSound ⟦<dyn Driver as Driver>⟧ engine.new }
{
    let reply = engine.apply(command);
    let outcome = reply.outcome;
    let printed = print_reply(writer, buffer, &reply);
    drop(reply);
    printed?;
    print_frames(writer, buffer, engine)?;
    Ok(is_done(outcome))
}

/// Does an action so. Says whether it ended in `ok`, and the budget of the actions after it.
fn perform<W: Write>(
    engine: &mut Engine,
    writer: &mut W,
    buffer: &mut ReplyBuffer,
    action: Action,
    budget: u64,
) -> Result<(bool, u64), SessionError>
    requires sound { IsSound ⟦<dyn Driver as Driver>⟧ engine.old }
    ensures sound { IsSound ⟦<dyn Driver as Driver>⟧ engine.new }
{
    match action {
        Action::Command(command) => {
            let ok = run_command(engine, writer, buffer, command)?;
            Ok((ok, budget))
        }
        Action::Budget(ticks) => {
            drop(action);
            write_text(writer, b"ok\n")?;
            Ok((true, ticks))
        }
    }
}

/// Runs what the session says, line by line.
fn run_lines<W: Write>(
    alloc: Global,
    engine: &mut Engine,
    writer: &mut W,
    buffer: &mut ReplyBuffer,
    text: &[u8],
    budget: u64,
) -> Result<Status, SessionError>
    requires sound { IsSound ⟦<dyn Driver as Driver>⟧ engine.old }
    ensures sound { IsSound ⟦<dyn Driver as Driver>⟧ engine.new }
{
    let mut rest = text;
    let mut number: u64 = 1;
    let mut ticks = budget;
    let mut all_ok = true;
    while let Some((line, after)) = first_line(rest) {
        let line = shown(line);
        if is_skipped(line) {
            number = number.saturating_add(1);
            rest = after;
            continue;
        }
        match read_act(alloc, ticks, line, after) {
            Ok(act) => {
                let (ok, next) = perform(engine, writer, buffer, act.action, ticks)?;
                all_ok &= ok;
                ticks = next;
                number = number.saturating_add(act.lines).saturating_add(1);
                rest = act.rest;
            }
            Err(LineError::BadLine) => {
                print_bad_line(writer, buffer, number)?;
                return Ok(Status::BadInput);
            }
            Err(LineError::Memory) => return Err(SessionError::Memory),
        }
    }
    Ok(if all_ok {
        Status::AllOk
    } else {
        Status::SomeRefused
    })
}

/// Reads the session whole and runs its lines.
fn run_text<R: Read, W: Write>(
    alloc: Global,
    reader: &mut R,
    writer: &mut W,
    buffer: &mut ReplyBuffer,
    engine: &mut Engine,
    budget: u64,
) -> Result<Status, SessionError>
    requires sound { IsSound ⟦<dyn Driver as Driver>⟧ engine.old }
    ensures sound { IsSound ⟦<dyn Driver as Driver>⟧ engine.new }
{
    match read_text(alloc, reader, MOST_SESSION)? {
        BoundedText::Whole(text) => run_lines(alloc, engine, writer, buffer, &text, budget),
        BoundedText::TooLong => {
            write_text(writer, b"line 0 TooLong\n")?;
            Ok(Status::BadInput)
        }
    }
}

/// Makes the engine, under the profile's limits, runs the session and discards the engine.
fn run_engine<R: Read, W: Write>(
    alloc: Global,
    reader: &mut R,
    writer: &mut W,
    buffer: &mut ReplyBuffer,
    profile: LoadedProfile,
    drivers: Drivers,
    budget: u64,
) -> (Result<Status, SessionError>, Vec<Box<dyn Driver>>)
    requires listed { AreListed ⟦<dyn Driver as Driver>⟧ (members drivers) }
{
    match limited_engine(alloc, profile, drivers) {
        Ok(mut engine) => {
            let ended = run_text(alloc, reader, writer, buffer, &mut engine, budget);
            (ended, engine.discard())
        }
        Err(
            NewRefused {
                why,
                registry,
                drivers,
            },
        ) => {
            drop(registry);
            let ended = match why {
                NewError::NoDriver => print_no_driver(writer),
                NewError::Memory => Err(SessionError::Memory),
            };
            (ended, drivers.into_boxes())
        }
    }
}

/// Runs the session with these drivers, if they are taken.
fn run_drivers<R: Read, W: Write>(
    alloc: Global,
    reader: &mut R,
    writer: &mut W,
    buffer: &mut ReplyBuffer,
    profile: LoadedProfile,
    drivers: Vec<Box<dyn Driver>>,
    budget: u64,
) -> (Result<Status, SessionError>, Vec<Box<dyn Driver>>)
    requires few { length drivers.items < 2 ^ 60 }
{
    match Drivers::new(drivers) {
        Ok(drivers) => run_engine(alloc, reader, writer, buffer, profile, drivers, budget),
        Err((why, drivers)) => {
            drop(profile);
            (print_drivers_error(writer, why), drivers)
        }
    }
}

/// Runs a session as `session` does. Behind each reply that ends in a fault, of a call or of an initializer, it writes the
/// trace: a line for each body that was running, the place of the fault first. It has no contract of what is written.
pub fn traced_session<P: Read, S: Read, W: Write>(
    alloc: Global,
    profile: &mut P,
    session: &mut S,
    out: &mut W,
    drivers: Vec<Box<dyn Driver>>,
    budget: u64,
) -> SessionEnd
    requires few { length drivers.items < 2 ^ 60 }
{
    let Ok(mut buffer) = ReplyBuffer::new(alloc) else {
        return SessionEnd {
            outcome: Ok(Status::Memory),
            drivers,
        };
    };
    let mut loaded = LoadedProfile::new(alloc);
    match load_profile(alloc, profile, out, &mut buffer, &mut loaded) {
        Ok(true) => {}
        Ok(false) => {
            drop(loaded);
            return SessionEnd {
                outcome: Ok(Status::BadInput),
                drivers,
            };
        }
        Err(stop) => {
            drop(loaded);
            return SessionEnd {
                outcome: outcome_of(Err(stop)),
                drivers,
            };
        }
    }
    let (ended, drivers) = run_drivers(alloc, session, out, &mut buffer, loaded, drivers, budget);
    SessionEnd {
        outcome: outcome_of(ended),
        drivers,
    }
}
