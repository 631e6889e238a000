//! The commands of a session that is cut somewhere, and the answers to them.

use std::alloc::{AllocError, Global};

/// Whether a line of an output is the last one of an answer.
fn is_outcome(line: &str) -> bool {
    let word = line.split([' ', '\n']).next().unwrap_or("");
    matches!(word, "ok" | "fault" | "refused" | "line")
}

/// How many answers an output has.
pub fn answers_in(output: &str) -> usize {
    output
        .split_inclusive('\n')
        .filter(|line| is_outcome(line))
        .count()
}

/// The front of an output that has so many answers; all of it where it has not more.
pub fn first_answers(output: &str, count: usize) -> &str {
    let mut answers = 0usize;
    let mut length = 0usize;
    for line in output.split_inclusive('\n') {
        if answers == count {
            break;
        }
        length = length.saturating_add(line.len());
        if is_outcome(line) {
            answers = answers.saturating_add(1);
        }
    }
    output.get(..length).unwrap_or(output)
}

/// The status of a run that printed this, none of whose streams failed.
pub fn status_of(output: &str) -> &'static str {
    let mut outcomes = output.split_inclusive('\n').filter(|line| is_outcome(line));
    if output.starts_with("line ") || output.contains("\nline ") {
        "2"
    } else if outcomes.all(|line| line.starts_with("ok")) {
        "0"
    } else {
        "1"
    }
}

/// Whether this is the answer to one line of a session, which has this number: that it is of another form, or what a
/// command may print.
pub fn is_an_answer(text: &str, number: usize) -> bool {
    let lines = text.split_inclusive('\n');
    match text
        .strip_prefix("line ")
        .and_then(|rest| rest.strip_suffix(" BadLine\n"))
    {
        Some(digits) => digits.parse::<usize>().ok() == Some(number),
        None => answers_in(text) == 1 && lines.last().is_some_and(|line| is_whole_outcome(line)),
    }
}

fn is_whole_outcome(line: &str) -> bool {
    is_outcome(line) && line.ends_with('\n')
}

/// The name of the module that a line gives a section, and the number of its lines; nothing where it is no such line.
fn section_of(line: &str) -> Option<(&str, u64)> {
    let (name, count) = line
        .strip_prefix("section ")?
        .trim_ascii_end()
        .split_once(' ')?;
    Some((name, count.parse::<u64>().ok()?))
}

/// Whether a line of a session says nothing.
pub fn is_skipped(line: &str) -> bool {
    line.starts_with('#') || line.trim_ascii_end().is_empty()
}

/// How many commands are whole in the front of a session, each with its LF, and what comes after the last of them.
pub fn whole_commands(text: &str) -> (usize, &str) {
    let mut commands = 0usize;
    let mut wanted = 0u64;
    let mut length = 0usize;
    let mut whole = 0usize;
    for line in text
        .split_inclusive('\n')
        .filter(|line| line.ends_with('\n'))
    {
        length = length.saturating_add(line.len());
        let skipped = wanted == 0 && is_skipped(line);
        wanted = if wanted > 0 {
            wanted - 1
        } else {
            section_of(line).map_or(0, |section| section.1)
        };
        if wanted == 0 {
            whole = length;
            commands = commands.saturating_add(usize::from(!skipped));
        }
    }
    (commands, text.get(whole..).unwrap_or(""))
}

/// What comes after so many lines of a text.
fn after_lines(text: &str, count: u64) -> &str {
    let mut length = 0usize;
    let mut lines = text.split_inclusive('\n');
    for _ in 0..count {
        let Some(line) = lines.next() else { break };
        length = length.saturating_add(line.len());
    }
    text.get(length..).unwrap_or("")
}

/// The session with the script around the byte `at` cut there. Nothing where no script is.
pub fn script_cut(alloc: Global, session: &str, at: usize) -> Result<Option<String>, AllocError> {
    let rest = session
        .get(..at)
        .map_or("", |front| whole_commands(front).1);
    let Some((header, script)) = rest.split_once('\n') else {
        return Ok(None);
    };
    let Some((name, lines)) = section_of(header) else {
        return Ok(None);
    };
    let from = at.saturating_sub(rest.len());
    let front = session.get(..from).unwrap_or("");
    let back = session.get(from..).unwrap_or("");
    let after = after_lines(back, lines.saturating_add(1));
    let count = script.split('\n').count();
    let text = format!(in alloc; "{front}section {name} {count}\n{script}\n{after}")?;
    Ok(Some(text))
}
