//! Printing through a buffer that is there from the start, so that no text needs memory when it is printed.
ghost use Rattle.std.specs.Prelude.{◌≡◌, ◌≢◌, ◌++◌, ℕ, List, Some, OnOk, OnErr, IfErr, flat_map};
ghost use Rattle.std.specs.Io.KnownBytes.{Appends};
ghost use Rattle.asrun_session.specs.Deeds.{bad_line_text};
ghost use Rattle.asrun_session.specs.Pieces.{Holds};
ghost use Rattle.asrun_session.specs.Reading.{unread};
ghost use Rattle.asrun_session.specs.Whole.{profile_fault_text};
ghost use Rattle.asrun_session.specs.Writing.{HasFront};
ghost use Rattle.asrun_text.specs.Text.{event_text, error_text, denial_text, outcome_text, reply_text};

use crate::ending::{IoFault, SessionError};
use crate::profile::ProfileFault;
use crate::text::{push_bad_line, push_profile_fault};
use ang_engine::{Outcome, Reply};
use ang_host::{EventLog, EventRef};
use ang_kinds::{Denial, Error};
use asrun_text::{DenialLine, push_error, push_event, push_outcome};
use std::alloc::{AllocError, Global};
use std::io::Write;

/// The bytes that a buffer has room for.
const ROOM: usize = 65_536;

/// The bytes that are written at once: as soon as so many are kept back, they are written.
const PIECE: usize = 32_768;

/// Writes the whole text, in as many calls of `write` as it takes.
///
/// # Errors
/// A write fault where `write` fails, interrupted too, or takes 0 bytes of what is left. A front of the
/// text is written then.
pub fn write_text<W: Write>(writer: &mut W, text: &[u8]) -> Result<(), IoFault>
    ensures whole { OnOk result (Appends (W.contents writer.old) (W.contents writer.new) text.now) }
    ensures front { OnErr result
        (HasFront (W.contents writer.old) (W.contents writer.new) text.now) }
    ensures fault { IfErr result (λ e. e ≡ IoFault.Write) }
{
    let mut written = 0;
    while written < text.len() {
        match writer.write(&text[written..]) {
            Ok(0) | Err(_) => return Err(IoFault::Write),
            Ok(count) => written += count,
        }
    }
    Ok(())
}

/// A buffer for what is printed. It has room for 64 KiB as soon as it is made, and what is printed is written where 32
/// KiB stand in it; so printing asks for memory only where a single line has more than 32 KiB.
#[derive(Drop)]
pub struct ReplyBuffer {
    pub(crate) text: Vec<u8>,
}

impl ReplyBuffer {
    /// A buffer with its room.
    ///
    /// # Errors
    /// The room was refused.
    pub fn new(alloc: Global) -> Result<ReplyBuffer, AllocError> {
        let text = Vec::with_capacity(alloc, ROOM)?;
        Ok(ReplyBuffer { text })
    }
}

/// What a reply lists, one on each line.
trait Line {
    ghost line: { Self → List ℕ };

    /// Its line, put after what stands in `out`.
    fn push_line(&self, out: &mut Vec<u8>) -> Result<(), AllocError>
        ensures added { OnOk result (out.new.items ≡ out.old.items ++ line self.now) };
}

impl Line for EventRef<'_> {
    ghost use Rattle.ang_host.specs.Lent.{event_of};

    ghost line = { λ event. event_text (event_of event) };

    fn push_line(&self, out: &mut Vec<u8>) -> Result<(), AllocError> {
        push_event(out, self)
    }
}

impl Line for Error {
    ghost line = { error_text };

    fn push_line(&self, out: &mut Vec<u8>) -> Result<(), AllocError> {
        push_error(out, self)
    }
}

/// Writes what is kept back, if that is enough for a piece.
pub(crate) fn settle<W: Write>(writer: &mut W, text: &mut Vec<u8>) -> Result<(), SessionError>
    ensures whole { OnOk result (Holds (W.contents writer.old) (W.contents writer.new)
        text.new.items text.old.items) }
    ensures front { OnErr result
        (HasFront (W.contents writer.old) (W.contents writer.new) text.old.items) }
    ensures fault { IfErr result (λ e. e ≢ unread) }
{
    if text.len() < PIECE {
        return Ok(());
    }
    write_text(writer, text.as_slice())?;
    text.clear();
    Ok(())
}

/// Prints a line, after what is kept back.
fn add_line<W: Write, L: Line>(
    writer: &mut W,
    text: &mut Vec<u8>,
    line: &L,
) -> Result<(), SessionError>
    ensures whole { OnOk result (Holds (W.contents writer.old) (W.contents writer.new)
        text.new.items (text.old.items ++ L.line line.now)) }
    ensures front { OnErr result (HasFront (W.contents writer.old) (W.contents writer.new)
        (text.old.items ++ L.line line.now)) }
    ensures fault { IfErr result (λ e. e ≢ unread) }
{
    line.push_line(text)?;
    settle(writer, text)
}

/// Prints lines, after what is kept back.
fn add_lines<W: Write, L: Line>(
    writer: &mut W,
    text: &mut Vec<u8>,
    lines: &[L],
) -> Result<(), SessionError>
    ensures whole { OnOk result (Holds (W.contents writer.old) (W.contents writer.new)
        text.new.items (text.old.items ++ flat_map L.line lines.now)) }
    ensures front { OnErr result (HasFront (W.contents writer.old) (W.contents writer.new)
        (text.old.items ++ flat_map L.line lines.now)) }
    ensures fault { IfErr result (λ e. e ≢ unread) }
{
    for line in lines {
        add_line(writer, text, line)?;
    }
    Ok(())
}

/// Prints events, after what is kept back.
fn add_events<W: Write>(
    writer: &mut W,
    text: &mut Vec<u8>,
    events: &EventLog,
) -> Result<(), SessionError>
    ensures whole { OnOk result (Holds (W.contents writer.old) (W.contents writer.new)
        text.new.items (text.old.items ++ flat_map event_text events.now)) }
    ensures front { OnErr result (HasFront (W.contents writer.old) (W.contents writer.new)
        (text.old.items ++ flat_map event_text events.now)) }
    ensures fault { IfErr result (λ e. e ≢ unread) }
{
    for index in 0..events.len() {
        if let Some(event) = events.get(index) {
            add_line(writer, text, &event)?;
        }
    }
    Ok(())
}

/// Prints a denial, after what is kept back. `line` is that of the denial before it.
#[inline(always)]
fn add_denial<W: Write>(
    writer: &mut W,
    text: &mut Vec<u8>,
    line: &mut DenialLine,
    denial: &Denial,
) -> Result<(), SessionError>
    ensures whole { OnOk result (Holds (W.contents writer.old) (W.contents writer.new)
        text.new.items (text.old.items ++ denial_text denial.now)) }
    ensures front { OnErr result (HasFront (W.contents writer.old) (W.contents writer.new)
        (text.old.items ++ denial_text denial.now)) }
    ensures fault { IfErr result (λ e. e ≢ unread) }
{
    line.push(text, denial)?;
    settle(writer, text)
}

/// Prints denials, after what is kept back. `first` is whichever denial's line is made before them.
fn add_denials_after<W: Write>(
    writer: &mut W,
    text: &mut Vec<u8>,
    first: Denial,
    denials: &[Denial],
) -> Result<(), SessionError>
    ensures whole { OnOk result (Holds (W.contents writer.old) (W.contents writer.new)
        text.new.items (text.old.items ++ flat_map denial_text denials.now)) }
    ensures front { OnErr result (HasFront (W.contents writer.old) (W.contents writer.new)
        (text.old.items ++ flat_map denial_text denials.now)) }
    ensures fault { IfErr result (λ e. e ≢ unread) }
{
    let mut line = DenialLine::new(first);
    for denial in denials {
        add_denial(writer, text, &mut line, denial)?;
    }
    Ok(())
}

/// Prints denials, after what is kept back.
fn add_denials<W: Write>(
    writer: &mut W,
    text: &mut Vec<u8>,
    denials: &[Denial],
) -> Result<(), SessionError>
    ensures whole { OnOk result (Holds (W.contents writer.old) (W.contents writer.new)
        text.new.items (text.old.items ++ flat_map denial_text denials.now)) }
    ensures front { OnErr result (HasFront (W.contents writer.old) (W.contents writer.new)
        (text.old.items ++ flat_map denial_text denials.now)) }
    ensures fault { IfErr result (λ e. e ≢ unread) }
{
    match denials {
        [] => Ok(()),
        [first, ..] => add_denials_after(writer, text, *first, denials),
    }
}

/// Prints the parts of a reply, and writes all of it.
fn print_parts<W: Write>(
    writer: &mut W,
    text: &mut Vec<u8>,
    events: &EventLog,
    errors: &[Error],
    denials: &[Denial],
    outcome: Outcome,
) -> Result<(), SessionError>
    ensures whole { OnOk result (Appends (W.contents writer.old) (W.contents writer.new)
        (flat_map event_text events.now ++ flat_map error_text errors.now
        ++ flat_map denial_text denials.now ++ outcome_text outcome)) }
    ensures front { OnErr result (HasFront (W.contents writer.old) (W.contents writer.new)
        (flat_map event_text events.now ++ flat_map error_text errors.now
        ++ flat_map denial_text denials.now ++ outcome_text outcome)) }
    ensures fault { IfErr result (λ e. e ≢ unread) }
{
    text.clear();
    add_events(writer, text, events)?;
    add_lines(writer, text, errors)?;
    add_denials(writer, text, denials)?;
    push_outcome(text, outcome)?;
    write_text(writer, text.as_slice())?;
    Ok(())
}

/// Prints a reply.
#[tactic(auto, unfolding(asrun_text::specs::Text::reply_text))]
pub fn print_reply<W: Write>(
    writer: &mut W,
    buffer: &mut ReplyBuffer,
    reply: &Reply,
) -> Result<(), SessionError>
    ensures whole { OnOk result
        (Appends (W.contents writer.old) (W.contents writer.new) (reply_text reply.now)) }
    ensures front { OnErr result
        (HasFront (W.contents writer.old) (W.contents writer.new) (reply_text reply.now)) }
    ensures fault { IfErr result (λ e. e ≢ unread) }
{
    print_parts(
        writer,
        &mut buffer.text,
        &reply.events,
        reply.errors.as_slice(),
        reply.denials.as_slice(),
        reply.outcome,
    )
}

/// Prints `line N BadLine`.
pub fn print_bad_line<W: Write>(
    writer: &mut W,
    buffer: &mut ReplyBuffer,
    number: u64,
) -> Result<(), SessionError>
    ensures whole { OnOk result
        (Appends (W.contents writer.old) (W.contents writer.new) (bad_line_text (Some number))) }
    ensures front { OnErr result
        (HasFront (W.contents writer.old) (W.contents writer.new) (bad_line_text (Some number))) }
    ensures fault { IfErr result (λ e. e ≢ unread) }
{
    let text = &mut buffer.text;
    text.clear();
    push_bad_line(text, number)?;
    write_text(writer, text.as_slice())?;
    Ok(())
}

/// Prints what ends a run at a line of its profile.
pub fn print_profile_fault<W: Write>(
    writer: &mut W,
    buffer: &mut ReplyBuffer,
    fault: ProfileFault,
) -> Result<(), SessionError>
    ensures whole { OnOk result
        (Appends (W.contents writer.old) (W.contents writer.new) (profile_fault_text fault)) }
    ensures front { OnErr result
        (HasFront (W.contents writer.old) (W.contents writer.new) (profile_fault_text fault)) }
    ensures fault { IfErr result (λ e. e ≢ unread) }
{
    let text = &mut buffer.text;
    text.clear();
    push_profile_fault(text, fault)?;
    write_text(writer, text.as_slice())?;
    Ok(())
}
