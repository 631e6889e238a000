//! What whole runs are tried with: a profile and a session, and what they print.
ghost use Rattle.std.specs.Prelude.{◌<◌, ◌^◌, length, IfOk};

use ang_drivers::{Cell, Console, Counter};
use ang_host::Driver;
use asrun_session::{IoFault, SessionEnd, Status, session};
use std::alloc::{AllocError, Global};
use std::io::{Read, Write};

pub const PROFILE: &str = "mask 00000001\nfunction 0 0 void print(int)\n";

pub const SESSION: &str =
    "module a 00000001\nsection a 1\nvoid main(){ print(1+2); }\nbuild a\ncall a () void main()\n";

pub const OUTPUT: &str = "ok\nok\nok\nhost a 0 0 - (3) void\nok\n";

/// A console, a counter and a cell.
pub fn three_drivers(alloc: Global) -> Result<Vec<Box<dyn Driver>>, AllocError>
    ensures few { IfOk result (λ boxes. length boxes.items < 2 ^ 60) }
{
    let mut boxes: Vec<Box<dyn Driver>> = Vec::new(alloc);
    boxes.push(Box::new(alloc, Console::new(alloc)?)?)?;
    boxes.push(Box::new(alloc, Counter::new(alloc)?)?)?;
    boxes.push(Box::new(alloc, Cell::new(alloc)?)?)?;
    Ok(boxes)
}

/// Whether there are so many drivers, all of them idle.
pub fn are_idle(drivers: &Vec<Box<dyn Driver>>, count: usize) -> bool {
    drivers.len() == count && drivers.iter().all(|driver| driver.idle())
}

/// The outcome of a session with a console, a counter and a cell as its drivers, if all drivers are handed back idle.
pub fn run_to<P: Read, S: Read, W: Write>(
    alloc: Global,
    profile: &mut P,
    session_text: &mut S,
    out: &mut W,
) -> Result<Option<Result<Status, IoFault>>, AllocError> {
    let boxes = three_drivers(alloc)?;
    let SessionEnd { outcome, drivers } = session(
        alloc,
        profile,
        session_text,
        out,
        boxes,
        1_000_000,
    );
    let is_idle = are_idle(&drivers, 3);
    drop(drivers);
    Ok(is_idle.then_some(outcome))
}

/// What such a session wrote, and its outcome, if all drivers are handed back idle.
pub fn run<P: Read, S: Read>(
    alloc: Global,
    profile: &mut P,
    session_text: &mut S,
) -> Result<Option<(Vec<u8>, Result<Status, IoFault>)>, AllocError> {
    let mut out: Vec<u8> = Vec::new(alloc);
    let outcome = run_to(alloc, profile, session_text, &mut out)?;
    Ok(outcome.map(|outcome| (out, outcome)))
}
