//! Doing a command of a conversation.
ghost use Rattle.std.specs.Prelude.{◌≡◌, ◌+◌, ℕ, false, List, None, IfOk, OnOk, OnErr};
ghost use Rattle.std.specs.Io.KnownBytes.{Appends};
ghost use Rattle.ang_view.specs.Only.{IsWithin};
ghost use Rattle.ang_engine.specs.Engines.{registrations, drivers_in};
ghost use Rattle.ang_engine.specs.Sound.{IsSound};
ghost use Rattle.ang_engine.specs.declared.prepared.Prepared.{Prepared};
ghost use Rattle.asrun_session.specs.Drivers.{kinds_of};
ghost use Rattle.asrun_session.specs.Writing.{HasFront};
ghost use Rattle.asremote.specs.OwnLines.{own_line_of};
ghost use Rattle.asremote.specs.Talk.{done_line};
ghost use Rattle.asrun_lines.specs.Lines.{lines_of, shown_of, is_skipped};
ghost use Rattle.asrun_lines.specs.SessionLines.{is_header};
ghost use Rattle.asremote.specs.Turns.{Refuses, RefusesHalf, Turns, TurnsHalf, TakesTurn, TakesHalf, TakesOne};

use crate::obeying::obey;
use crate::own_lines::own_line;
use ang_engine::{Engine, Prepared};
use ang_host::Driver;
use asrun_lines::{LineError, first_line, is_header, is_skipped, shown};
use asrun_session::{
    IoFault, ReplyBuffer, SessionError, perform, print_bad_line, read_act, write_text,
};
use std::alloc::Global;
use std::io::Write;

/// What a turn came to.
#[derive(Clone, Copy)]
pub enum Turn {
    /// The turn was answered: whether with anything but `fault` and `refused`, the ticks of the next command, and how
    /// many lines its section had.
    Done(bool, u64, u64),
    /// The line ends the conversation, which is printed.
    Bad,
}

/// Where a conversation stands after a turn.
#[derive(Clone, Copy)]
pub struct At {
    /// Whether the turn was answered with anything but `fault` and `refused`.
    pub ok: bool,
    /// The ticks of the next command.
    pub ticks: u64,
    /// The number of the next line.
    pub number: u64,
}

/// Answers a line of another form: it ends the conversation where its first letters are `section`, since what follows
/// it may be the text of a section.
///
/// # Errors
/// A write fault.
fn refuse<W: Write>(
    writer: &mut W,
    buffer: &mut ReplyBuffer,
    line: &[u8],
    number: u64,
    ticks: u64,
) -> Result<Turn, SessionError>
    ensures refused { IfOk result (Refuses (is_header line.now) (W.contents writer.old)
        (W.contents writer.new) number ticks) }
    ensures cut { OnErr result (RefusesHalf (is_header line.now) (W.contents writer.old)
        (W.contents writer.new) number) }
{
    if is_header(line) {
        print_bad_line(writer, buffer, number)?;
        return Ok(Turn::Bad);
    }
    write_text(writer, b"refused BadLine\n")?;
    Ok(Turn::Done(false, ticks, 0))
}

/// Does a command of a session, whose line stands in front of these lines, and prints its reply. A line of another form
/// is answered `refused BadLine`, or ends the conversation.
///
/// # Errors
/// A write fault, and want of memory.
fn take_act<W: Write>(
    alloc: Global,
    engine: &mut Engine,
    writer: &mut W,
    buffer: &mut ReplyBuffer,
    line: &[u8],
    after: &[u8],
    number: u64,
    ticks: u64,
) -> Result<Turn, SessionError>
    requires sound { IsSound ⟦<dyn Driver as Driver>⟧ engine.old }
    requires told { is_skipped line.now ≡ false }
    requires not_own { own_line_of line.now ≡ None }
    ensures sound { IsSound ⟦<dyn Driver as Driver>⟧ engine.new }
    ensures within { IsWithin (registrations engine.new) (registrations engine.old) }
    ensures order { kinds_of (drivers_in engine.new) ≡ kinds_of (drivers_in engine.old) }
    ensures turned { IfOk result
        (λ t. (ps : List Prepared) (whole : List ℕ) → line.now ≡ shown_of whole
        → Turns ⟦<dyn Driver as Driver>⟧ engine.old engine.new ps ps (W.contents writer.old)
        (W.contents writer.new) number ticks whole (lines_of after.now) t) }
    ensures cut { OnErr result
        ((ps : List Prepared) (whole : List ℕ) → line.now ≡ shown_of whole
        → TurnsHalf ⟦<dyn Driver as Driver>⟧ engine.old engine.new ps ps (W.contents writer.old)
        (W.contents writer.new) number ticks whole (lines_of after.now)) }
{
    match read_act(alloc, ticks, line, after) {
        Ok(act) => {
            let lines = act.lines;
            let (ok, next) = perform(engine, writer, buffer, act.action, ticks)?;
            Ok(Turn::Done(ok, next, lines))
        }
        Err(LineError::BadLine) => refuse(writer, buffer, line, number, ticks),
        Err(LineError::Memory) => Err(SessionError::Memory),
    }
}

/// Does the command of this text, whose line has this number, and prints its reply. A line of another form is answered
/// `refused BadLine`, or ends the conversation.
///
/// # Errors
/// A write fault, and want of memory.
pub fn take_turn<W: Write>(
    alloc: Global,
    engine: &mut Engine,
    writer: &mut W,
    buffer: &mut ReplyBuffer,
    prepared: &mut Vec<Prepared>,
    text: &[u8],
    number: u64,
    ticks: u64,
) -> Result<Turn, SessionError>
    requires sound { IsSound ⟦<dyn Driver as Driver>⟧ engine.old }
    ensures sound { IsSound ⟦<dyn Driver as Driver>⟧ engine.new }
    ensures within { IsWithin (registrations engine.new) (registrations engine.old) }
    ensures order { kinds_of (drivers_in engine.new) ≡ kinds_of (drivers_in engine.old) }
    ensures turned { IfOk result (TakesTurn ⟦<dyn Driver as Driver>⟧ engine.old engine.new
        prepared.old.items prepared.new.items (W.contents writer.old) (W.contents writer.new)
        number ticks text.now) }
    ensures cut { OnErr result (TakesHalf ⟦<dyn Driver as Driver>⟧ engine.old engine.new
        prepared.old.items prepared.new.items (W.contents writer.old) (W.contents writer.new)
        number ticks text.now) }
{
    let Some((line, after)) = first_line(text) else {
        return Ok(Turn::Done(true, ticks, 0));
    };
    let line = shown(line);
    if is_skipped(line) {
        return Ok(Turn::Done(true, ticks, 0));
    }
    match own_line(alloc, line) {
        Ok(own) => {
            let ok = obey(alloc, engine, writer, buffer, prepared, own, ticks)?;
            Ok(Turn::Done(ok, ticks, 0))
        }
        Err(LineError::BadLine) => {
            take_act(alloc, engine, writer, buffer, line, after, number, ticks)
        }
        Err(LineError::Memory) => Err(SessionError::Memory),
    }
}

/// The number of the line after a command whose section has this many lines.
fn advanced(number: u64, lines: u64) -> Result<u64, SessionError>
    ensures exact { IfOk result (λ n. n ≡ number + (1 + lines)) }
{
    let next = number.checked_add(1).and_then(|n| n.checked_add(lines));
    next.ok_or(SessionError::Fault(IoFault::Read))
}

/// Tells that a turn is over.
pub fn print_done<W: Write>(writer: &mut W) -> Result<(), SessionError>
    ensures told { OnOk result
        (Appends (W.contents writer.old) (W.contents writer.new) done_line) }
    ensures front { OnErr result
        (HasFront (W.contents writer.old) (W.contents writer.new) done_line) }
{
    write_text(writer, b"done\n")?;
    match writer.flush() {
        Ok(()) => Ok(()),
        Err(_) => Err(SessionError::Fault(IoFault::Write)),
    }
}

/// Takes a turn, and tells that it is over. None where the line ends the conversation, which is printed.
///
/// # Errors
/// A read fault where there are 2^64 lines, a write fault, and want of memory.
pub fn one_turn<W: Write>(
    alloc: Global,
    engine: &mut Engine,
    writer: &mut W,
    buffer: &mut ReplyBuffer,
    prepared: &mut Vec<Prepared>,
    text: &[u8],
    number: u64,
    ticks: u64,
) -> Result<Option<At>, SessionError>
    requires sound { IsSound ⟦<dyn Driver as Driver>⟧ engine.old }
    ensures sound { IsSound ⟦<dyn Driver as Driver>⟧ engine.new }
    ensures within { IsWithin (registrations engine.new) (registrations engine.old) }
    ensures order { kinds_of (drivers_in engine.new) ≡ kinds_of (drivers_in engine.old) }
    ensures turned { IfOk result (TakesOne ⟦<dyn Driver as Driver>⟧ engine.old engine.new
        prepared.old.items prepared.new.items (W.contents writer.old) (W.contents writer.new)
        number ticks text.now) }
    ensures cut { OnErr result (TakesHalf ⟦<dyn Driver as Driver>⟧ engine.old engine.new
        prepared.old.items prepared.new.items (W.contents writer.old) (W.contents writer.new)
        number ticks text.now) }
{
    match take_turn(alloc, engine, writer, buffer, prepared, text, number, ticks)? {
        Turn::Done(ok, ticks, lines) => {
            print_done(writer)?;
            let number = advanced(number, lines)?;
            Ok(Some(At { ok, ticks, number }))
        }
        Turn::Bad => Ok(None),
    }
}
