//! How a program that runs sessions ends, with which exit status, and what it says on standard error.
ghost use Rattle.std.specs.Prelude.{◌≡◌};
ghost use Rattle.asrun_session.specs.Exit.{exit_status};

use crate::ending::{IoFault, Status};

/// How the program ended.
#[derive(Clone, Copy)]
pub enum ProgramExit {
    /// A session or a conversation was held, with this outcome.
    Ran(Result<Status, IoFault>),
    /// The command line asked for help, which was shown.
    Helped,
    /// The command line is of another form.
    BadCommandLine,
    /// A file could not be opened.
    CannotOpen,
    /// A growth of memory was refused before there was a session.
    NoMemory,
}

/// The exit status of each ending: 0 to 3.
pub fn exit_status(ending: ProgramExit) -> u8
    ensures exact { result ≡ exit_status ending }
{
    match ending {
        ProgramExit::Ran(Ok(Status::AllOk)) | ProgramExit::Helped => 0,
        ProgramExit::Ran(Ok(Status::SomeRefused)) => 1,
        ProgramExit::Ran(Ok(Status::BadInput)) | ProgramExit::Ran(Err(_)) => 2,
        ProgramExit::BadCommandLine | ProgramExit::CannotOpen => 2,
        ProgramExit::Ran(Ok(Status::Memory)) | ProgramExit::NoMemory => 3,
    }
}

/// Says on standard error that there is no memory for the program.
pub fn print_no_memory(rt: &impl Eprint, program: &str) {
    let _ = eprintln!(rt; "{program}: no memory");
}

/// Says on standard error what a session's outcome is, if it is one that the session can't print.
pub fn print_outcome(rt: &impl Eprint, program: &str, outcome: Result<Status, IoFault>) {
    match outcome {
        Ok(Status::Memory) => print_no_memory(rt, program),
        Ok(_) => {}
        Err(fault) => {
            let _ = eprintln!(rt; "{program}: {fault}");
        }
    }
}
