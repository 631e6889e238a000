//! One host call over a line: the ask is written, and the answer is read. What is posted has none.
ghost use Rattle.std.specs.Prelude.{◌≡◌, ◌≤◌, length};
ghost use Rattle.ang_remote.specs.Asks.{line_text};
ghost use Rattle.ang_remote.specs.Wires.{IsExchanged, IsWritten, IsAnswered, heard_as};

use crate::answers::{BAD_FORM, INPUT_ENDED, MOST_ANSWER, NOT_READ, NOT_WRITTEN, Said, said_by};
use crate::asks::{AskKind, ask_line};
use crate::lines::{Heard, read_line};
use crate::short_line::{FEW, SHORT, write_line};
use crate::writing::write_text;
use ang_kinds::Value;
use std::alloc::Global;
use std::io::{Read, Write};

/// What is said where this was heard, with this line where there is one.
fn heard_as(heard: Heard, line: &[u8]) -> Said
    ensures exact { result ≡ heard_as heard line.now }
{
    match heard {
        Heard::Line | Heard::Last => said_by(line),
        Heard::Long => Said::Fault(BAD_FORM),
        Heard::Memory => Said::Memory,
        Heard::End => Said::Fault(INPUT_ENDED),
        Heard::Failed => Said::Fault(NOT_READ),
    }
}

/// Reads the answer to an ask that was written.
fn read_answer<R: Read>(alloc: Global, reader: &mut R) -> Said
    ensures answered { IsAnswered (R.remaining reader.old) (R.remaining reader.new) result }
{
    let mut line = Vec::new(alloc);
    let heard = read_line(reader, &mut line, MOST_ANSWER);
    heard_as(heard, &line)
}

/// Writes the line of three values at most, for which it takes no memory. False where that failed: a front of it is written then.
#[inline(always)]
fn write_short<W: Write>(
    writer: &mut W,
    posted: bool,
    driver: u32,
    kind: AskKind,
    f: u32,
    object: Option<u64>,
    values: &[Value],
) -> bool
    requires few { length values.now ≤ 3 }
    ensures written { IsWritten (W.contents writer.old) (W.contents writer.new)
        (line_text posted driver kind f object values.now) result }
{
    let mut line = [0; SHORT];
    let at = write_line(&mut line, posted, driver, kind, f, object, values);
    write_text(writer, &line[at..])
}

/// Asks the driver of this number, and gives what is said to it, by a line in a block of the heap; or posts it so.
#[inline(never)]
fn exchange_apart<R: Read, W: Write>(
    alloc: Global,
    reader: &mut R,
    writer: &mut W,
    posted: bool,
    driver: u32,
    kind: AskKind,
    f: u32,
    object: Option<u64>,
    values: &[Value],
) -> Said
    ensures exchanged { IsExchanged (line_text posted driver kind f object values.now)
        (W.contents writer.old) (W.contents writer.new) (R.remaining reader.old)
        (R.remaining reader.new) result posted }
{
    let Ok(line) = ask_line(alloc, posted, driver, kind, f, object, values) else {
        return Said::Memory;
    };
    if !write_text(writer, &line) {
        return Said::Fault(NOT_WRITTEN);
    }
    if posted {
        return Said::Void;
    }
    read_answer(alloc, reader)
}

/// Asks the driver of this number, and gives what is said to it. What is posted is written alone, and `void` is taken for
/// its answer. It is in line, so that a post is written where it is known to be a call.
#[inline(always)]
pub fn exchange<R: Read, W: Write>(
    alloc: Global,
    reader: &mut R,
    writer: &mut W,
    posted: bool,
    driver: u32,
    kind: AskKind,
    f: u32,
    object: Option<u64>,
    values: &[Value],
) -> Said
    ensures exchanged { IsExchanged (line_text posted driver kind f object values.now)
        (W.contents writer.old) (W.contents writer.new) (R.remaining reader.old)
        (R.remaining reader.new) result posted }
{
    if posted && values.len() <= FEW {
        return if write_short(writer, posted, driver, kind, f, object, values) {
            Said::Void
        } else {
            Said::Fault(NOT_WRITTEN)
        };
    }
    exchange_apart(
        alloc, reader, writer, posted, driver, kind, f, object, values,
    )
}
