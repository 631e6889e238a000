//! Holds a conversation with a host over standard input and output: the host writes the commands of a session, and
//! answers what the drivers are asked (docs/FORMATS.md, "The conversation of asremote").
#![tactic(auto)]

ghost use Rattle.std.specs.Prelude.{◌<◌, ◌^◌, length};

mod command;
mod commands;
mod conversation;
mod echo;
pub mod laws;
mod obeying;
mod options;
mod own_lines;
mod posted;
mod prepared;
mod replies;
mod shared;
mod turns;

use crate::command::RemoteOptions;
use crate::conversation::converse;
use crate::echo::Echo;
use crate::posted::{PostedFunction, numbers_for, posted_in};
use crate::shared::Shared;
use ang_host::Driver;
use ang_remote::Remote;
use asrun_session::{
    BoundedText, MOST_PROFILE, ProgramExit, SessionEnd, Status, exit_status, outcome_of,
    print_long_profile, print_no_memory, print_outcome, print_profile_line, read_text,
};
use std::alloc::AllocError;
use std::fs::File;
use std::io::{Stdin, Stdout};
use std::process::ExitCode;
use std::{env, io};

/// What is read: standard input, in several hands, shown where that is asked for.
type Input = Echo<Shared<Stdin>, Stdout>;

/// The program's name, which stands in front of what it says on standard error.
const NAME: &str = "asremote";

/// The text of the profile, or how the program ends without it, which it says: on standard output that the profile is
/// too long, and on standard error all else.
fn read_or_say(rt: &HostRuntime, path: &str) -> Result<Vec<u8>, ProgramExit> {
    let Ok(mut file) = File::open(rt, path) else {
        let _ = eprintln!(rt; "asremote: cannot open {path}");
        return Err(ProgramExit::CannotOpen);
    };
    let ended = match read_text(rt.alloc(), &mut file, MOST_PROFILE) {
        Ok(BoundedText::Whole(text)) => return Ok(text),
        Ok(BoundedText::TooLong) => print_long_profile(&mut rt.stdout()),
        Err(stop) => Err(stop),
    };
    let outcome = outcome_of(ended);
    print_outcome(rt, NAME, outcome);
    Err(ProgramExit::Ran(outcome))
}

/// A driver of this number, which is told which of its functions are posted, over a hand of the input.
///
/// # Errors
/// A growth of memory was refused.
fn remote_driver(
    rt: &HostRuntime,
    options: &RemoteOptions,
    number: u32,
    functions: &[PostedFunction],
    shared: &Shared<Stdin>,
) -> Result<Remote<Input, Stdout>, AllocError> {
    let alloc = rt.alloc();
    let posted = numbers_for(alloc, number, functions)?;
    let input = Echo::new(shared.share()?, rt.stdout(), options.echo);
    Ok(Remote::new(alloc, number, posted, input, rt.stdout()))
}

/// Holds the conversation over this profile with these drivers, and says on standard error what it can't print.
fn hold(
    rt: &HostRuntime,
    options: &RemoteOptions,
    text: &[u8],
    shared: Shared<Stdin>,
    boxes: Vec<Box<dyn Driver>>,
) -> ProgramExit
    requires few { length boxes.items < 2 ^ 60 }
{
    let alloc = rt.alloc();
    let mut profile = text;
    let mut input = Echo::new(shared, rt.stdout(), options.echo);
    let mut out = rt.stdout();
    let SessionEnd { outcome, drivers } = converse(
        alloc,
        &mut profile,
        &mut input,
        &mut out,
        boxes,
        options.budget,
    );
    drop(drivers);
    print_outcome(rt, NAME, outcome);
    if let Ok(Status::BadInput) = outcome {
        print_profile_line(rt, alloc, NAME, text);
    }
    ProgramExit::Ran(outcome)
}

/// Makes the drivers, and holds the conversation over this profile. The commands and the drivers share standard input,
/// and what was read of it ahead.
///
/// # Errors
/// A growth of memory was refused before the conversation.
fn run_profile(
    rt: &HostRuntime,
    options: &RemoteOptions,
    text: &[u8],
) -> Result<ProgramExit, AllocError> {
    let alloc = rt.alloc();
    let functions = posted_in(alloc, text)?;
    let shared = Shared::new(alloc, rt.stdin())?;
    let mut boxes: Vec<Box<dyn Driver>> = Vec::new(alloc);
    for number in 0..options.drivers {
        let driver = remote_driver(rt, options, number, &functions, &shared)?;
        boxes.push(Box::new(alloc, driver)?)?;
    }
    // There are as many boxes as drivers. That they are few is what `converse` asks for.
    if boxes.len() > 64 {
        return Ok(ProgramExit::BadCommandLine);
    }
    Ok(hold(rt, options, text, shared, boxes))
}

/// Reads the profile, and holds the conversation over it.
///
/// # Errors
/// A growth of memory was refused before the conversation.
fn run_file(rt: &HostRuntime, options: &RemoteOptions) -> Result<ProgramExit, AllocError> {
    match read_or_say(rt, options.profile.as_str()) {
        Ok(text) => run_profile(rt, options, text.as_slice()),
        Err(ending) => Ok(ending),
    }
}

/// The words of the command line. None where one of them is not text, which is said on standard error.
///
/// # Errors
/// They could not be read, or a growth of memory was refused.
fn words_of(rt: &HostRuntime) -> io::Result<Option<Vec<String>>> {
    match env::args(rt) {
        Ok(words) => {
            let words: Vec<String> = words.collect(rt.alloc())?;
            Ok(Some(words))
        }
        Err(error) if error.kind() == io::ErrorKind::InvalidData => {
            let _ = eprintln!(rt; "asremote: an argument is not text in UTF-8");
            Ok(None)
        }
        Err(error) => Err(error),
    }
}

/// Prints what is wrong with a command line, or the help that it asks for.
fn print_error(rt: &HostRuntime, error: &clap::Error) -> ProgramExit {
    if error.kind() == clap::error::ErrorKind::OutOfMemory {
        print_no_memory(rt, NAME);
        return ProgramExit::NoMemory;
    }
    let _ = error.print(rt);
    if error.use_stderr() {
        ProgramExit::BadCommandLine
    } else {
        ProgramExit::Helped
    }
}

/// Reads the command line, and holds the conversation that it asks for.
///
/// # Errors
/// A growth of memory was refused before the conversation.
fn run_words(rt: &HostRuntime) -> io::Result<ProgramExit> {
    let Some(words) = words_of(rt)? else {
        return Ok(ProgramExit::BadCommandLine);
    };
    let alloc = rt.alloc();
    let words: Vec<&str> = words.iter().map(|word| word.as_str()).collect(alloc)?;
    match options::options(alloc, words.as_slice()) {
        Ok(options) => Ok(run_file(rt, &options)?),
        Err(error) => Ok(print_error(rt, &error)),
    }
}

fn main(rt: HostRuntime) -> ExitCode {
    let ending = match run_words(&rt) {
        Ok(ending) => ending,
        Err(_) => {
            print_no_memory(&rt, NAME);
            ProgramExit::NoMemory
        }
    };
    ExitCode::from(exit_status(ending))
}
