//! Reading the commands of a conversation.
ghost use Rattle.std.specs.Prelude.{◌≡◌, ◌≤◌, [], length, IfOk};
ghost use Rattle.asremote.specs.Commands.{section_lines, lines_behind, most_command, ReadsLines, ReadsCommand};

use ang_remote::{Heard, read_line};
use asrun_lines::{LineError, SessionLine, is_skipped, session_line, shown};
use asrun_session::{IoFault, SessionError};
use std::alloc::Global;
use std::io::Read;

/// The most bytes of a command, with its section.
const MOST_COMMAND: usize = 16_777_216;

/// What was read in the place of a command.
#[derive(Clone, Copy)]
pub enum Next {
    /// A line, with those of its section; another may follow.
    Command,
    /// A line, with those of its section that are there: the input ends.
    Last,
    /// More bytes than a command may have.
    TooLong,
    /// Nothing: the input ends.
    End,
}

/// How many lines of a section follow a line of this form.
fn section_lines(line: &SessionLine) -> u64
    ensures exact { result ≡ section_lines line.now }
{
    match line {
        SessionLine::Section { name: _, lines } => *lines,
        SessionLine::Module { name: _, mask: _ } => 0,
        SessionLine::Mask { name: _, mask: _ } => 0,
        SessionLine::Build { name: _ } => 0,
        SessionLine::Bind {
            name: _,
            index: _,
            exporter: _,
            decl: _,
        } => 0,
        SessionLine::Unbind { name: _, index: _ } => 0,
        SessionLine::Discard { name: _ } => 0,
        SessionLine::Remove { name: _ } => 0,
        SessionLine::Call {
            name: _,
            args: _,
            decl: _,
        } => 0,
        SessionLine::Budget(_) => 0,
    }
}

/// How many lines of a section follow the line.
#[tactic(auto, unfolding(crate::specs::Commands::lines_behind))]
fn lines_behind(alloc: Global, line: &[u8]) -> Result<u64, SessionError>
    ensures exact { IfOk result (λ n. n ≡ lines_behind line.now) }
{
    if is_skipped(line) {
        return Ok(0);
    }
    match session_line(alloc, line) {
        Ok(line) => Ok(section_lines(&line)),
        Err(LineError::BadLine) => Ok(0),
        Err(LineError::Memory) => Err(SessionError::Memory),
    }
}

/// Reads this many lines, or fewer where the input ends, and appends them to the text.
fn read_section<S: Read>(
    input: &mut S,
    text: &mut Vec<u8>,
    lines: u64,
) -> Result<Next, SessionError>
    requires few { length text.old.items ≤ most_command }
    ensures read { IfOk result (ReadsLines lines text.old.items text.new.items
        (S.remaining input.old) (S.remaining input.new)) }
{
    for _ in 0..lines {
        match read_line(input, text, MOST_COMMAND) {
            Heard::Line => {}
            Heard::Last => return Ok(Next::Last),
            Heard::End => return Ok(Next::Last),
            Heard::Long => return Ok(Next::TooLong),
            Heard::Memory => return Err(SessionError::Memory),
            Heard::Failed => return Err(SessionError::Fault(IoFault::Read)),
        }
    }
    Ok(Next::Command)
}

/// Reads a line, and those of its section, into an empty text.
///
/// # Errors
/// A read fault, and want of memory.
pub fn read_command<S: Read>(
    alloc: Global,
    input: &mut S,
    text: &mut Vec<u8>,
) -> Result<Next, SessionError>
    requires empty { text.old.items ≡ [] }
    ensures read { IfOk result (λ next. ReadsCommand (S.remaining input.old)
        (S.remaining input.new) next text.new.items) }
{
    match read_line(input, text, MOST_COMMAND) {
        Heard::Line => {
            let lines = lines_behind(alloc, shown(text.as_slice()))?;
            read_section(input, text, lines)
        }
        Heard::Last => Ok(Next::Last),
        Heard::Long => Ok(Next::TooLong),
        Heard::End => Ok(Next::End),
        Heard::Memory => Err(SessionError::Memory),
        Heard::Failed => Err(SessionError::Fault(IoFault::Read)),
    }
}
