//! What is wrong with a line that ended a run, for whoever reads standard error.
ghost use Rattle.std.specs.Prelude.{◌≡◌, Err, IfSome};
ghost use Rattle.asrun_lines.specs.Lines.{lines_of};
ghost use Rattle.asrun_session.specs.Profile.{loaded};
ghost use Rattle.asrun_session.specs.Whole.{fresh};

use crate::action::read_act;
use crate::forms::{GROUPS, NO_RESULT, profile_form, registration_form, session_form};
use crate::profile::{LoadedProfile, ProfileFault, ProfileStop, load};
use crate::reading::{MOST_PROFILE, MOST_SESSION};
use asrun_lines::{LineError, first_line, first_lines, is_skipped, shown};
use std::alloc::{AllocError, Global};

/// The bytes of a line that are shown.
const MOST_SHOWN: usize = 80;

/// What ends a run at a line of the profile of this text. None also where memory was refused.
fn profile_fault(alloc: Global, text: &[u8]) -> Option<ProfileFault>
    ensures fault { IfSome result (λ fault. loaded 1 fresh (lines_of text.now) ≡ Err fault) }
{
    if MOST_PROFILE < text.len() {
        return None;
    }
    let mut profile = LoadedProfile::new(alloc);
    let ended = load(&mut profile, text);
    drop(profile);
    match ended {
        Err(ProfileStop::Fault(fault)) => Some(fault),
        Err(ProfileStop::Memory) => None,
        Ok(()) => None,
    }
}

fn line_of(fault: ProfileFault) -> u64 {
    match fault {
        ProfileFault::BadLine(number) => number,
        ProfileFault::Refused(number, _) => number,
        ProfileFault::GroupRefused(number, _) => number,
        ProfileFault::NotVoid(number) => number,
    }
}

/// What is wanted in place of a line of a profile that this is wrong with.
fn wanted_by(fault: ProfileFault, line: &[u8]) -> &'static str {
    match fault {
        ProfileFault::BadLine(_) => profile_form(line),
        ProfileFault::Refused(_, why) => registration_form(why),
        ProfileFault::GroupRefused(_, _) => GROUPS,
        ProfileFault::NotVoid(_) => NO_RESULT,
    }
}

/// How many lines a line of a session takes, with those of its section, and what follows them.
fn passed<'a>(alloc: Global, line: &[u8], after: &'a [u8]) -> Result<(u64, &'a [u8]), LineError> {
    if is_skipped(line) {
        return Ok((1, after));
    }
    let act = read_act(alloc, 1, line, after)?;
    let (lines, rest) = (act.lines, act.rest);
    drop(act);
    Ok((lines.saturating_add(1), rest))
}

/// The number of the first line of a session that is of another form. None also where the session is too long, which
/// ended the run before any line did, and where memory was refused.
fn bad_line(alloc: Global, text: &[u8]) -> Option<u64> {
    if MOST_SESSION < text.len() {
        return None;
    }
    let mut rest = text;
    let mut number: u64 = 1;
    for _ in 0..MOST_SESSION {
        let (line, after) = first_line(rest)?;
        match passed(alloc, shown(line), after) {
            Ok((lines, left)) => {
                number = number.saturating_add(lines);
                rest = left;
            }
            Err(LineError::BadLine) => return Some(number),
            Err(LineError::Memory) => return None,
        }
    }
    None
}

/// The line of this number, counted from 1; empty where there is none.
fn line_at(text: &[u8], number: u64) -> &[u8] {
    let Some((_, rest)) = first_lines(text, number.saturating_sub(1)) else {
        return &text[..0];
    };
    match first_line(rest) {
        Some((line, _)) => shown(line),
        None => rest,
    }
}

fn push_digit(out: &mut String, digit: u8) -> Result<(), AllocError> {
    match char::from_digit(u32::from(digit), 16) {
        Some(digit) => out.push(digit),
        None => Ok(()),
    }
}

/// Puts a byte as it is where ASCII prints it, and else as `\x` and two digits.
fn push_readable(out: &mut String, byte: u8) -> Result<(), AllocError> {
    if b' ' <= byte && byte <= b'~' {
        return out.push(char::from(byte));
    }
    out.push_str("\\x")?;
    push_digit(out, byte / 16)?;
    push_digit(out, byte % 16)
}

/// The line as a screen may show it, its first 80 bytes alone.
fn readable(alloc: Global, line: &[u8]) -> Result<String, AllocError> {
    let mut out = String::from_str(alloc, "")?;
    for byte in &line[..line.len().min(MOST_SHOWN)] {
        push_readable(&mut out, *byte)?;
    }
    if MOST_SHOWN < line.len() {
        out.push_str(" ..")?;
    }
    Ok(out)
}

/// Says which line of which text ended the run, if there is memory for that.
fn print_line(
    rt: &impl Eprint,
    alloc: Global,
    program: &str,
    of: &str,
    number: u64,
    line: &[u8],
    wanted: &str,
) {
    if let Ok(line) = readable(alloc, line) {
        let line = line.as_str();
        let _ = eprintln!(rt;
            "{program}: line {number} of the {of} is '{line}'; wanted is {wanted}"
        );
    }
}

/// Says on standard error which line of a profile ended the run, with its text, and what was wanted there. Says nothing
/// where none did, or where there is no memory for it.
pub fn print_profile_line(rt: &impl Eprint, alloc: Global, program: &str, text: &[u8]) {
    let Some(fault) = profile_fault(alloc, text) else {
        return;
    };
    let number = line_of(fault);
    let line = line_at(text, number);
    let wanted = wanted_by(fault, line);
    print_line(rt, alloc, program, "profile", number, line, wanted);
}

/// Says on standard error which line of a session ended the run, as `print_profile_line` does of a profile.
pub fn print_session_line(rt: &impl Eprint, alloc: Global, program: &str, text: &[u8]) {
    let Some(number) = bad_line(alloc, text) else {
        return;
    };
    let line = line_at(text, number);
    print_line(
        rt,
        alloc,
        program,
        "session",
        number,
        line,
        session_form(line),
    );
}
