//! What the lines of a session do.
ghost use Rattle.std.specs.Prelude.{◌+◌, ◌≤◌, IfOk, length, option_and_then};
ghost use Rattle.asrun_session.specs.Acts.{Gives};
ghost use Rattle.asrun_lines.specs.Lines.{lines_of};
ghost use Rattle.asrun_session.specs.Session.{act_of, section_act};
ghost use Rattle.asrun_lines.specs.SessionLines.{session_line_of};

use ang_engine::Command;
use ang_kinds::List;
use asrun_lines::{LineError, SessionLine, first_lines, session_line};
use std::alloc::Global;

/// What a line of a session does.
#[derive(Drop)]
pub enum Action {
    /// Hands a command to the engine.
    Command(Command),
    /// Sets the ticks that each later command may take.
    Budget(u64),
}

/// An action, with the lines of its section.
#[derive(Drop)]
pub struct Act<'a> {
    /// The action.
    pub action: Action,
    /// How many of the lines after it are its section's.
    pub lines: u64,
    /// What follows them.
    pub rest: &'a [u8],
}

/// A command that adds a section, whose text is the first `lines` lines of `rest`.
fn section(alloc: Global, name: List<u8>, lines: u64, rest: &[u8]) -> Result<Act<'_>, LineError>
    ensures exact { Gives result (lines_of rest.now) (section_act (lines_of rest.now) name lines) }
    ensures room { IfOk result (λ act. act.lines + length act.rest.now ≤ length rest.now) }
{
    let (text, rest) = first_lines(rest, lines).ok_or(LineError::BadLine)?;
    let text = List::from_vec(Vec::from_slice(alloc, text)?);
    Ok(Act {
        action: Action::Command(Command::AddSection { name, text }),
        lines,
        rest,
    })
}

/// What the line does, where `rest` follows it and its commands may take `budget` ticks.
///
/// # Errors
/// `BadLine` where the line is of another form or `rest` has too few lines for its section; and `Memory` where a
/// growth of memory was refused.
pub fn read_act<'a>(
    alloc: Global,
    budget: u64,
    line: &[u8],
    rest: &'a [u8],
) -> Result<Act<'a>, LineError>
    ensures exact { Gives result (lines_of rest.now)
        (option_and_then (act_of budget (lines_of rest.now)) (session_line_of line.now)) }
    ensures room { IfOk result (λ act. act.lines + length act.rest.now ≤ length rest.now) }
{
    let action = match session_line(alloc, line)? {
        SessionLine::Section { name, lines } => return section(alloc, name, lines, rest),
        SessionLine::Module { name, mask } => Action::Command(Command::NewModule { name, mask }),
        SessionLine::Mask { name, mask } => Action::Command(Command::SetMask { name, mask }),
        SessionLine::Build { name } => Action::Command(Command::Build { name, budget }),
        SessionLine::Bind {
            name,
            index,
            exporter,
            decl,
        } => Action::Command(Command::Bind {
            name,
            index,
            exporter,
            decl,
        }),
        SessionLine::Unbind { name, index } => Action::Command(Command::Unbind { name, index }),
        SessionLine::Discard { name } => Action::Command(Command::Discard { name }),
        SessionLine::Remove { name } => Action::Command(Command::RemoveGroup { name }),
        SessionLine::Call { name, args, decl } => Action::Command(Command::Call {
            name,
            decl,
            args,
            budget,
        }),
        SessionLine::Budget(ticks) => Action::Budget(ticks),
    };
    Ok(Act {
        action,
        lines: 0,
        rest,
    })
}
