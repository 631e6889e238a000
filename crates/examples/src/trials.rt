//! What is tried of a row beside its plain run: texts that are cut at each byte, and streams that fail at each call.
//! After each run every driver that is handed back is to be idle.

use crate::rows::Row;
use crate::streams::{Sink, Source, reads_of};
use crate::{cuts, run};
use std::alloc::Global;
use std::io;

/// The status of a run whose reader or writer failed.
const FAULT: &str = "of a stream that failed";

/// One kind of trial, which has a run for each number of a range.
#[derive(Clone, Copy)]
pub enum Trial {
    /// The session is cut after so many bytes.
    Session,
    /// The script around the session's byte of this number is cut there.
    Script,
    /// The reader of the profile fails after so many calls.
    ProfileReader,
    /// The reader of the session fails after so many calls.
    SessionReader,
    /// The writer takes so many bytes, one a call, and then fails.
    FailingWriter,
    /// The writer takes so many bytes, one a call, and then nothing more.
    FullWriter,
}

pub const TRIALS: [Trial; 6] = [
    Trial::Session,
    Trial::Script,
    Trial::ProfileReader,
    Trial::SessionReader,
    Trial::FailingWriter,
    Trial::FullWriter,
];

impl Trial {
    /// What is told of a trial that went wrong.
    pub fn name(self) -> &'static str {
        match self {
            Trial::Session => "the session cut after",
            Trial::Script => "a script cut at",
            Trial::ProfileReader => "the profile's reader fails after",
            Trial::SessionReader => "the session's reader fails after",
            Trial::FailingWriter => "the writer fails after",
            Trial::FullWriter => "the writer is full after",
        }
    }

    /// How many runs it has.
    fn runs(self, row: &Row<'_>) -> usize {
        match self {
            Trial::Session => row.session.len().saturating_add(1),
            Trial::Script => row.session.len(),
            Trial::ProfileReader => reads_of(row.profile),
            Trial::SessionReader => reads_of(row.session),
            Trial::FailingWriter | Trial::FullWriter => row.output.len().saturating_add(1),
        }
    }

    /// Whether one run went as it should.
    fn holds(self, alloc: Global, row: &Row<'_>, number: usize) -> io::Result<bool> {
        match self {
            Trial::Session => session_cut(alloc, row, number),
            Trial::Script => script_cut(alloc, row, number),
            Trial::ProfileReader => {
                let mut profile = Source::failing(row.profile, number);
                reader_fails(alloc, row, &mut profile, &mut Source::whole(row.session))
            }
            Trial::SessionReader => {
                let mut session = Source::failing(row.session, number);
                reader_fails(alloc, row, &mut Source::whole(row.profile), &mut session)
            }
            Trial::FailingWriter => writer_stops(alloc, row, number, true),
            Trial::FullWriter => writer_stops(alloc, row, number, false),
        }
    }

    /// The number of the first run that did not go as it should.
    pub fn first_wrong(self, alloc: Global, row: &Row<'_>) -> io::Result<Option<usize>> {
        for number in 0..self.runs(row) {
            if !self.holds(alloc, row, number)? {
                return Ok(Some(number));
            }
        }
        Ok(None)
    }
}

/// Whether the run of a row ends before its session is read.
fn is_refused_before(row: &Row<'_>) -> bool {
    row.output.starts_with("profile ") || row.output.starts_with("engine ")
}

/// What the front of a session has to print: all of it where it ends with a command, else what comes before the
/// answer to its last line.
fn is_front_printed(row: &Row<'_>, length: usize, printed: &str) -> bool {
    if length == row.session.len() {
        return printed == row.output;
    }
    let front = row.session.get(..length).unwrap_or("");
    let (commands, rest) = cuts::whole_commands(front);
    let with_next = row.session.get(..length.saturating_add(1)).unwrap_or("");
    let ended = cuts::whole_commands(with_next).0.max(commands);
    let known = cuts::first_answers(row.output, ended);
    let is_over = cuts::is_skipped(rest) || cuts::status_of(known) == "2";
    let number = front.len().saturating_sub(rest.len());
    let number = front.get(..number).unwrap_or("").split('\n').count();
    if ended > commands || is_over {
        printed == known
    } else {
        printed
            .strip_prefix(known)
            .is_some_and(|more| cuts::is_an_answer(more, number))
    }
}

/// Runs a row's profile with another session. Gives whether all drivers are idle then, and the status is the one of what
/// was printed.
fn ends_well(
    alloc: Global,
    row: &Row<'_>,
    session: &str,
    printed: &mut Vec<u8>,
) -> io::Result<bool> {
    let mut profile = row.profile.as_bytes();
    let mut session = session.as_bytes();
    let ran = run(alloc, &mut profile, &mut session, printed, row.failing)?;
    let text = str::from_utf8(printed.as_slice()).unwrap_or("");
    let status = if is_refused_before(row) {
        "2"
    } else {
        cuts::status_of(text)
    };
    Ok(ran.is_idle && ran.status == status)
}

fn session_cut(alloc: Global, row: &Row<'_>, length: usize) -> io::Result<bool> {
    let Some(front) = row.session.get(..length) else {
        return Ok(true);
    };
    let mut printed = Vec::new(alloc);
    if !ends_well(alloc, row, front, &mut printed)? {
        return Ok(false);
    }
    let printed = str::from_utf8(printed.as_slice()).unwrap_or("");
    if is_refused_before(row) {
        Ok(printed == row.output)
    } else {
        Ok(is_front_printed(row, length, printed))
    }
}

fn script_cut(alloc: Global, row: &Row<'_>, at: usize) -> io::Result<bool> {
    let Some(session) = cuts::script_cut(alloc, row.session, at)? else {
        return Ok(true);
    };
    let mut printed = Vec::new(alloc);
    if !ends_well(alloc, row, session.as_str(), &mut printed)? {
        return Ok(false);
    }
    let printed = str::from_utf8(printed.as_slice()).unwrap_or("");
    let (commands, _) = cuts::whole_commands(row.session.get(..at).unwrap_or(""));
    let known = cuts::first_answers(row.output, commands);
    Ok(printed.starts_with(known) && cuts::answers_in(printed) == cuts::answers_in(row.output))
}

/// Whether nothing is printed, since a reader fails; or what the row prints, where its session is not read.
fn reader_fails(
    alloc: Global,
    row: &Row<'_>,
    profile: &mut Source<'_>,
    session: &mut Source<'_>,
) -> io::Result<bool> {
    let mut printed = Vec::new(alloc);
    let ran = run(alloc, profile, session, &mut printed, row.failing)?;
    let is_fault = ran.status == FAULT && printed.is_empty();
    let is_refused = is_refused_before(row) && ran.status == "2";
    let is_row = is_refused && printed.as_slice() == row.output.as_bytes();
    Ok(ran.is_idle && (is_fault || is_row))
}

/// Whether the front of the output stands that there was room for, and the run is a fault if there is more.
fn writer_stops(alloc: Global, row: &Row<'_>, room: usize, fails: bool) -> io::Result<bool> {
    let mut out = Sink::new(alloc, room, fails);
    let mut profile = Source::whole(row.profile);
    let mut session = Source::whole(row.session);
    let ran = run(alloc, &mut profile, &mut session, &mut out, row.failing)?;
    let front = row.output.get(..room).unwrap_or("").as_bytes();
    let status = if room < row.output.len() {
        FAULT
    } else {
        row.status
    };
    Ok(ran.is_idle && ran.status == status && out.kept.as_slice() == front)
}
