//! A whole run: a profile, a session, and the text of the replies.
ghost use Rattle.std.specs.Prelude.{◌≡◌, ◌≢◌, ◌<◌, ◌^◌, ◌⊎◌, length, Ok, IfOk, IfErr, IfSome, OnOk, OnErr};
ghost use Rattle.std.specs.Io.KnownBytes.{Appends};
ghost use Rattle.ang_host.specs.Boxes.{members};
ghost use Rattle.ang_engine.specs.Engines.{drivers_in, limits_in};
ghost use Rattle.ang_engine.specs.Limited.{no_limits};
ghost use Rattle.ang_engine.specs.Sound.{IsSound};
ghost use Rattle.asrun_session.specs.Drivers.{kinds_of, AreListed, AreRefused, AreBack, NotListed, NoDriver, engine_text};
ghost use Rattle.asrun_session.specs.Engines.{RunsText, StopsText};
ghost use Rattle.asrun_lines.specs.Lines.{lines_of};
ghost use Rattle.asrun_session.specs.Reading.{unread, IsReadThrough};
ghost use Rattle.asrun_session.specs.Whole.{start_by, list_begun, start_by_lines, most_profile, most_session, long_profile_text, start_of, Starts, Tells, StartStops, Ends, Stops, Unread, outcome_of, fresh};
ghost use Rattle.asrun_session.specs.Writing.{HasFront, unwritten};

use crate::ending::{IoFault, SessionError, Status};
use crate::limits::limited_engine;
use crate::printing::{ReplyBuffer, print_profile_fault, write_text};
use crate::profile::{LoadedProfile, ProfileStop, load};
use crate::reading::{BoundedText, MOST_PROFILE, MOST_SESSION, read_text};
use crate::run::run_session;
use ang_engine::{Engine, NewError, NewRefused};
use ang_host::{Driver, Drivers, DriversError};
use std::alloc::Global;
use std::io::{Read, Write};

/// How a run ended.
pub struct SessionEnd {
    /// Its status, want of memory and a refused profile included; or the fault of a reader or the writer.
    pub outcome: Result<Status, IoFault>,
    /// The drivers, in their order: as they were handed in, or with no live key.
    pub drivers: Vec<Box<dyn Driver>>,
}

/// Registers what the profile says, and sets its limits. False where the profile was not taken, which is printed then.
fn load_text<W: Write>(
    writer: &mut W,
    buffer: &mut ReplyBuffer,
    profile: &mut LoadedProfile,
    text: &[u8],
) -> Result<bool, SessionError>
    requires few { length text.now < 2 ^ 32 }
    ensures done { IfOk result (Starts
        (start_by_lines profile.old.registry profile.old.limits (lines_of text.now))
        (start_by (list_begun profile.new.registry) profile.new.limits) (W.contents writer.old)
        (W.contents writer.new)) }
    ensures cut { OnErr result (StartStops
        (start_by_lines profile.old.registry profile.old.limits (lines_of text.now))
        (W.contents writer.old) (W.contents writer.new)) }
    ensures refused { IfErr result (λ e. e ≡ unwritten → IfOk
        (start_by_lines profile.old.registry profile.old.limits (lines_of text.now)) (λ _. ⊥)) }
    ensures fault { IfErr result (λ e. e ≢ unread) }
{
    match load(profile, text) {
        Ok(()) => Ok(true),
        Err(ProfileStop::Memory) => Err(SessionError::Memory),
        Err(ProfileStop::Fault(fault)) => {
            print_profile_fault(writer, buffer, fault)?;
            Ok(false)
        }
    }
}

/// Prints that the profile is too long.
///
/// # Errors
/// A write fault.
pub fn print_long_profile<W: Write>(writer: &mut W) -> Result<Status, SessionError>
    ensures whole { OnOk result
        (Appends (W.contents writer.old) (W.contents writer.new) long_profile_text) }
    ensures status { IfOk result (λ status. status ≡ Status.BadInput) }
    ensures front { OnErr result
        (HasFront (W.contents writer.old) (W.contents writer.new) long_profile_text) }
    ensures fault { IfErr result (λ e. e ≢ unread) }
{
    write_text(writer, b"profile 0 TooLong\n")?;
    Ok(Status::BadInput)
}

/// Reads the profile whole, registers what it says and sets its limits. False where it was not taken, which is printed
/// then.
pub fn load_profile<R: Read, W: Write>(
    alloc: Global,
    reader: &mut R,
    writer: &mut W,
    buffer: &mut ReplyBuffer,
    profile: &mut LoadedProfile,
) -> Result<bool, SessionError>
    requires new { profile.old.registry ≡ fresh }
    requires unlimited { profile.old.limits ≡ no_limits }
    ensures done { IfOk result (λ ok. IfSome (R.remaining reader.old) (λ text.
        Starts (start_of text) (start_by (list_begun profile.new.registry) profile.new.limits)
        (W.contents writer.old) (W.contents writer.new) ok)) }
    ensures cut { OnErr result (IfSome (R.remaining reader.old)
        (λ text. StartStops (start_of text) (W.contents writer.old) (W.contents writer.new))) }
    ensures through { IfOk result
        (λ _. IsReadThrough most_profile (R.remaining reader.old) (R.remaining reader.new)) }
    ensures read { IfErr result (λ e. e ≡ unwritten
        → IsReadThrough most_profile (R.remaining reader.old) (R.remaining reader.new)) }
    ensures refused { IfErr result (λ e. e ≡ unwritten
        → IfSome (R.remaining reader.old) (λ text. IfOk (start_of text) (λ _. ⊥))) }
    ensures fault { IfErr result (λ e. e ≡ unread → W.contents writer.new ≡ W.contents writer.old) }
{
    match read_text(alloc, reader, MOST_PROFILE)? {
        BoundedText::Whole(text) => load_text(writer, buffer, profile, &text),
        BoundedText::TooLong => {
            print_long_profile(writer)?;
            Ok(false)
        }
    }
}

/// Reads the session whole and runs its lines.
fn run_text<R: Read, W: Write>(
    alloc: Global,
    reader: &mut R,
    writer: &mut W,
    buffer: &mut ReplyBuffer,
    engine: &mut Engine,
    budget: u64,
) -> Result<Status, SessionError>
    requires sound { IsSound ⟦<dyn Driver as Driver>⟧ engine.old }
    ensures sound { IsSound ⟦<dyn Driver as Driver>⟧ engine.new }
    ensures limits { limits_in engine.new ≡ limits_in engine.old }
    ensures order { kinds_of (drivers_in engine.new) ≡ kinds_of (drivers_in engine.old) }
    ensures done { IfOk result (λ status. IfSome (R.remaining reader.old) (λ text.
        RunsText ⟦<dyn Driver as Driver>⟧ engine.old engine.new
        text budget (W.contents writer.old) (W.contents writer.new) status)) }
    ensures cut { OnErr result (IfSome (R.remaining reader.old) (λ text.
        StopsText ⟦<dyn Driver as Driver>⟧ engine.old engine.new
        text budget (W.contents writer.old) (W.contents writer.new))) }
    ensures read { IfErr result (λ e. e ≡ unwritten
        → IsReadThrough most_session (R.remaining reader.old) (R.remaining reader.new)) }
    ensures fault { IfErr result (λ e. e ≡ unread → W.contents writer.new ≡ W.contents writer.old) }
    ensures unused { IfErr result (λ e. e ≡ unread → engine.new ≡ engine.old) }
{
    match read_text(alloc, reader, MOST_SESSION)? {
        BoundedText::Whole(text) => run_session(alloc, engine, writer, buffer, &text, budget),
        BoundedText::TooLong => {
            write_text(writer, b"line 0 TooLong\n")?;
            Ok(Status::BadInput)
        }
    }
}

/// Prints why the drivers were not taken as a list.
pub fn print_drivers_error<W: Write>(
    writer: &mut W,
    why: DriversError,
) -> Result<Status, SessionError>
    ensures whole { OnOk result
        (Appends (W.contents writer.old) (W.contents writer.new) (engine_text (NotListed why))) }
    ensures status { IfOk result (λ status. status ≡ Status.BadInput) }
    ensures front { OnErr result
        (HasFront (W.contents writer.old) (W.contents writer.new) (engine_text (NotListed why))) }
    ensures fault { IfErr result (λ e. e ≢ unread) }
{
    match why {
        DriversError::TooMany => write_text(writer, b"engine TooMany\n")?,
        DriversError::Busy => write_text(writer, b"engine Busy\n")?,
    }
    Ok(Status::BadInput)
}

/// Prints that an entry's driver is not there.
pub fn print_no_driver<W: Write>(writer: &mut W) -> Result<Status, SessionError>
    ensures whole { OnOk result
        (Appends (W.contents writer.old) (W.contents writer.new) (engine_text NoDriver)) }
    ensures status { IfOk result (λ status. status ≡ Status.BadInput) }
    ensures front { OnErr result
        (HasFront (W.contents writer.old) (W.contents writer.new) (engine_text NoDriver)) }
    ensures fault { IfErr result (λ e. e ≢ unread) }
{
    write_text(writer, b"engine NoDriver\n")?;
    Ok(Status::BadInput)
}

/// Makes the engine, under the profile's limits, runs the session and discards the engine.
fn run_engine<R: Read, W: Write>(
    alloc: Global,
    reader: &mut R,
    writer: &mut W,
    buffer: &mut ReplyBuffer,
    profile: LoadedProfile,
    drivers: Drivers,
    budget: u64,
) -> (Result<Status, SessionError>, Vec<Box<dyn Driver>>)
    requires listed { AreListed ⟦<dyn Driver as Driver>⟧ (members drivers) }
    ensures done { IfOk result.0 (λ status. IfSome (R.remaining reader.old) (λ text.
        Ends ⟦<dyn Driver as Driver>⟧ (members drivers) result.1.items
        (W.contents writer.old) (W.contents writer.new)
        (Ok (start_by (list_begun profile.registry) profile.limits)) text budget status)) }
    ensures cut { OnErr result.0 (IfSome (R.remaining reader.old) (λ text.
        Stops ⟦<dyn Driver as Driver>⟧ (members drivers) result.1.items
        (W.contents writer.old) (W.contents writer.new)
        (Ok (start_by (list_begun profile.registry) profile.limits)) text budget)) }
    ensures read { IfErr result.0 (λ e. e ≡ unwritten →
        IsReadThrough most_session (R.remaining reader.old) (R.remaining reader.new)
        ⊎ AreRefused ⟦<dyn Driver as Driver>⟧ profile.registry.entries (members drivers)) }
    ensures order { kinds_of result.1.items ≡ kinds_of (members drivers) }
    ensures returned { (result.1.items ≡ members drivers)
        ⊎ AreBack ⟦<dyn Driver as Driver>⟧ result.1.items }
    ensures fault { IfErr result.0 (λ e. e ≡ unread →
        Unread ⟦<dyn Driver as Driver>⟧ (members drivers) result.1.items
        (W.contents writer.old) (W.contents writer.new)
        (Ok (start_by (list_begun profile.registry) profile.limits))) }
{
    match limited_engine(alloc, profile, drivers) {
        Ok(mut engine) => {
            let ended = run_text(alloc, reader, writer, buffer, &mut engine, budget);
            (ended, engine.discard())
        }
        Err(
            NewRefused {
                why,
                registry,
                drivers,
            },
        ) => {
            drop(registry);
            let ended = match why {
                NewError::NoDriver => print_no_driver(writer),
                NewError::Memory => Err(SessionError::Memory),
            };
            (ended, drivers.into_boxes())
        }
    }
}

/// Runs the session with these drivers, if they are taken.
fn run_drivers<R: Read, W: Write>(
    alloc: Global,
    reader: &mut R,
    writer: &mut W,
    buffer: &mut ReplyBuffer,
    profile: LoadedProfile,
    drivers: Vec<Box<dyn Driver>>,
    budget: u64,
) -> (Result<Status, SessionError>, Vec<Box<dyn Driver>>)
    requires few { length drivers.items < 2 ^ 60 }
    ensures done { IfOk result.0 (λ status. IfSome (R.remaining reader.old) (λ text.
        Ends ⟦<dyn Driver as Driver>⟧ drivers.items result.1.items
        (W.contents writer.old) (W.contents writer.new)
        (Ok (start_by (list_begun profile.registry) profile.limits)) text budget status)) }
    ensures cut { OnErr result.0 (IfSome (R.remaining reader.old) (λ text.
        Stops ⟦<dyn Driver as Driver>⟧ drivers.items result.1.items
        (W.contents writer.old) (W.contents writer.new)
        (Ok (start_by (list_begun profile.registry) profile.limits)) text budget)) }
    ensures read { IfErr result.0 (λ e. e ≡ unwritten →
        IsReadThrough most_session (R.remaining reader.old) (R.remaining reader.new)
        ⊎ AreRefused ⟦<dyn Driver as Driver>⟧ profile.registry.entries drivers.items) }
    ensures order { kinds_of result.1.items ≡ kinds_of drivers.items }
    ensures returned { (result.1.items ≡ drivers.items)
        ⊎ (AreListed ⟦<dyn Driver as Driver>⟧ drivers.items
        × AreBack ⟦<dyn Driver as Driver>⟧ result.1.items) }
    ensures fault { IfErr result.0 (λ e. e ≡ unread →
        Unread ⟦<dyn Driver as Driver>⟧ drivers.items result.1.items
        (W.contents writer.old) (W.contents writer.new)
        (Ok (start_by (list_begun profile.registry) profile.limits))) }
{
    match Drivers::new(drivers) {
        Ok(drivers) => run_engine(alloc, reader, writer, buffer, profile, drivers, budget),
        Err((why, drivers)) => {
            drop(profile);
            (print_drivers_error(writer, why), drivers)
        }
    }
}

pub fn outcome_of(ended: Result<Status, SessionError>) -> Result<Status, IoFault>
    ensures exact { result ≡ outcome_of ended }
{
    match ended {
        Ok(status) => Ok(status),
        Err(SessionError::Memory) => Ok(Status::Memory),
        Err(SessionError::Fault(fault)) => Err(fault),
    }
}

/// Runs a session over a profile with these drivers, and writes the text of each reply before the next
/// command (docs/HOST.md, "The program").
///
/// It reads the profile whole (at most 1,048,576 bytes) and runs its lines, makes the engine, under the limits that
/// the profile sets, reads the session whole (at most 16,777,216 bytes) and runs its lines. A line of the profile that is not taken,
/// drivers that no engine takes, and a line of the session of another form are written as one line, and end
/// the run with `Status::BadInput`. The drivers come back in their order; on every exit the engine, where
/// there was one, has been discarded.
///
/// `budget` is the number of ticks of each command until a `budget` line gives another. It is not judged
/// here: a build or a call with one that is 0 or above 2,147,483,647 is refused.
///
/// A reply goes to the writer in pieces of some 32 KiB, each before more than 64 KiB stand in the buffer that is made
/// here at the start. So printing takes no memory, and the reply of each command that was run is written whole,
/// whatever memory is left; only the writer can fail.
///
/// Nothing here is an error by `Result`: `outcome` has a failure of `read` or `write` as an `IoFault`, and
/// want of memory as `Status::Memory`. That comes at the start, or while a line of the session is read.
pub fn session<P: Read, S: Read, W: Write>(
    alloc: Global,
    profile: &mut P,
    session: &mut S,
    out: &mut W,
    drivers: Vec<Box<dyn Driver>>,
    budget: u64,
) -> SessionEnd
    requires few { length drivers.items < 2 ^ 60 }
    ensures output { IfSome (P.remaining profile.old) (λ p. IfSome (S.remaining session.old)
        (λ s. Tells ⟦<dyn Driver as Driver>⟧ drivers.items result.drivers.items
        (W.contents out.old) (W.contents out.new) (start_of p) s budget result.outcome)) }
    // A write fault comes only after a profile that was read, and after a session that was, unless the profile or the drivers were refused.
    ensures profile_read { IfErr result.outcome (λ e. e ≡ IoFault.Write
        → IsReadThrough most_profile (P.remaining profile.old) (P.remaining profile.new)) }
    ensures session_read { IfErr result.outcome (λ e. e ≡ IoFault.Write
        → IsReadThrough most_session (S.remaining session.old) (S.remaining session.new)
        ⊎ IfSome (P.remaining profile.old) (λ p.
        IfOk (start_of p) (λ t. AreRefused ⟦<dyn Driver as Driver>⟧ t.list.entries drivers.items))) }
    ensures order { kinds_of result.drivers.items ≡ kinds_of drivers.items }
    // They come back as they were, or, where an engine may have taken them, with nothing alive.
    ensures returned { (result.drivers.items ≡ drivers.items)
        ⊎ (AreListed ⟦<dyn Driver as Driver>⟧ drivers.items
        × AreBack ⟦<dyn Driver as Driver>⟧ result.drivers.items) }
{
    let Ok(mut buffer) = ReplyBuffer::new(alloc) else {
        return SessionEnd {
            outcome: Ok(Status::Memory),
            drivers,
        };
    };
    let mut loaded = LoadedProfile::new(alloc);
    match load_profile(alloc, profile, out, &mut buffer, &mut loaded) {
        Ok(true) => {}
        Ok(false) => {
            drop(loaded);
            return SessionEnd {
                outcome: Ok(Status::BadInput),
                drivers,
            };
        }
        Err(stop) => {
            drop(loaded);
            return SessionEnd {
                outcome: outcome_of(Err(stop)),
                drivers,
            };
        }
    }
    let (ended, drivers) = run_drivers(alloc, session, out, &mut buffer, loaded, drivers, budget);
    SessionEnd {
        outcome: outcome_of(ended),
        drivers,
    }
}
