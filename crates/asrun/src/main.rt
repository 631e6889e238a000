//! Runs a session of scripts over a profile of what a host offers them, both read from files
//! (docs/HOST.md, "The program").
#![tactic(auto)]

ghost use Rattle.std.specs.Prelude.{◌<◌, ◌^◌, length};

mod command;
mod options;

use crate::command::RunOptions;
use ang_drivers::{Cell, Console, Counter};
use ang_host::Driver;
pub use asrun_session::{IoFault, SessionEnd, Status, session};
use asrun_session::{
    Kept, ProgramExit, exit_status, print_no_memory, print_outcome, print_profile_line,
    print_session_line, traced_session,
};
use std::alloc::AllocError;
use std::fs::File;
use std::process::ExitCode;
use std::{env, io};

/// The program's name, which stands in front of what it says on standard error.
const NAME: &str = "asrun";

/// Opens a file to read it, or says on standard error that it can't be opened.
fn open_or_say(rt: &HostRuntime, path: &str) -> Option<File> {
    match File::open(rt, path) {
        Ok(file) => Some(file),
        Err(_) => {
            let _ = eprintln!(rt; "asrun: cannot open {path}");
            None
        }
    }
}

/// Runs the session with these drivers, on standard output.
fn run_boxes(
    rt: &HostRuntime,
    options: &RunOptions,
    profile: &mut Kept<File>,
    session: &mut Kept<File>,
    boxes: Vec<Box<dyn Driver>>,
) -> SessionEnd
    requires few { length boxes.items < 2 ^ 60 }
{
    let alloc = rt.alloc();
    let mut out = io::writer(rt);
    if options.trace {
        return traced_session(alloc, profile, session, &mut out, boxes, options.budget);
    }
    crate::session(alloc, profile, session, &mut out, boxes, options.budget)
}

/// Runs the session of these files with these drivers, and says on standard error what it can't print.
fn run_opened(
    rt: &HostRuntime,
    options: &RunOptions,
    profile: File,
    session: File,
    boxes: Vec<Box<dyn Driver>>,
) -> ProgramExit
    requires few { length boxes.items < 2 ^ 60 }
{
    let alloc = rt.alloc();
    let mut profile = Kept::new(alloc, profile);
    let mut session = Kept::new(alloc, session);
    let SessionEnd { outcome, drivers } = run_boxes(rt, options, &mut profile, &mut session, boxes);
    drop(drivers);
    print_outcome(rt, NAME, outcome);
    if let Ok(Status::BadInput) = outcome {
        print_profile_line(rt, alloc, NAME, profile.text());
        print_session_line(rt, alloc, NAME, session.text());
    }
    ProgramExit::Ran(outcome)
}

/// Makes the drivers, opens the files and runs the session.
///
/// # Errors
/// A growth of memory was refused before the session.
fn run_files(rt: &HostRuntime, options: &RunOptions) -> Result<ProgramExit, AllocError> {
    let alloc = rt.alloc();
    let mut boxes: Vec<Box<dyn Driver>> = Vec::new(alloc);
    boxes.push(Box::new(alloc, Console::new(alloc)?)?)?;
    boxes.push(Box::new(alloc, Counter::new(alloc)?)?)?;
    boxes.push(Box::new(alloc, Cell::new(alloc)?)?)?;
    let Some(profile) = open_or_say(rt, options.profile.as_str()) else {
        return Ok(ProgramExit::CannotOpen);
    };
    let Some(session) = open_or_say(rt, options.session.as_str()) else {
        return Ok(ProgramExit::CannotOpen);
    };
    Ok(run_opened(rt, options, profile, session, boxes))
}

/// The words of the command line. None where one of them is not text, which is said on standard error.
///
/// # Errors
/// They could not be read, or a growth of memory was refused.
fn words_of(rt: &HostRuntime) -> io::Result<Option<Vec<String>>> {
    match env::args(rt) {
        Ok(words) => {
            let words: Vec<String> = words.collect(rt.alloc())?;
            Ok(Some(words))
        }
        Err(error) if error.kind() == io::ErrorKind::InvalidData => {
            let _ = eprintln!(rt; "asrun: an argument is not text in UTF-8");
            Ok(None)
        }
        Err(error) => Err(error),
    }
}

/// Prints what is wrong with a command line, or the help that it asks for.
fn print_error(rt: &HostRuntime, error: &clap::Error) -> ProgramExit {
    if error.kind() == clap::error::ErrorKind::OutOfMemory {
        print_no_memory(rt, NAME);
        return ProgramExit::NoMemory;
    }
    let _ = error.print(rt);
    if error.use_stderr() {
        ProgramExit::BadCommandLine
    } else {
        ProgramExit::Helped
    }
}

/// Reads the command line, and runs the files that it names.
///
/// # Errors
/// A growth of memory was refused before the session.
fn run_words(rt: &HostRuntime) -> io::Result<ProgramExit> {
    let Some(words) = words_of(rt)? else {
        return Ok(ProgramExit::BadCommandLine);
    };
    let alloc = rt.alloc();
    let words: Vec<&str> = words.iter().map(|word| word.as_str()).collect(alloc)?;
    match options::options(alloc, words.as_slice()) {
        Ok(options) => Ok(run_files(rt, &options)?),
        Err(error) => Ok(print_error(rt, &error)),
    }
}

fn main(rt: HostRuntime) -> ExitCode {
    let ending = match run_words(&rt) {
        Ok(ending) => ending,
        Err(_) => {
            print_no_memory(&rt, NAME);
            ProgramExit::NoMemory
        }
    };
    ExitCode::from(exit_status(ending))
}
