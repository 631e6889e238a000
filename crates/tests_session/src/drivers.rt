//! How many drivers a session takes: 64 at most, and none where nothing is registered that has one.
ghost use Rattle.std.specs.Prelude.{◌<◌, ◌^◌, length, IfOk};

use crate::harness::{OUTPUT, PROFILE, SESSION, are_idle};
use ang_drivers::Console;
use ang_host::Driver;
use asrun_session::{SessionEnd, Status, session};
use std::alloc::{AllocError, Global};

/// Enumerations alone, which no driver is asked for.
const ENUMERATIONS: &str = "mask 00000001\nenum Color\nvalue Color RED 1\nvalue Color BLUE -2\n";

const USE_OF_ENUMERATIONS: &str = "\
module a 00000001
section a 1
int m(){ Color c = BLUE; return c + Color::RED; }
build a
call a () int m()
";

/// So many consoles, of which no run here has more than 65.
fn consoles(alloc: Global, count: usize) -> Result<Vec<Box<dyn Driver>>, AllocError>
    ensures few { IfOk result (λ boxes. length boxes.items < 2 ^ 60) }
{
    let mut boxes: Vec<Box<dyn Driver>> = Vec::new(alloc);
    for _ in 0..count {
        boxes.push(Box::new(alloc, Console::new(alloc)?)?)?;
    }
    // What `session` asks for, and true of all that are tried here.
    if boxes.len() > 65 {
        return Err(AllocError);
    }
    Ok(boxes)
}

/// How many consoles a session has, its profile and its text, what it writes, and its status.
type Row = (usize, &'static str, &'static str, &'static str, Status);

const ROWS: &[Row] = &[
    (64, PROFILE, SESSION, OUTPUT, Status::AllOk),
    (65, PROFILE, SESSION, "engine TooMany\n", Status::BadInput),
    (0, PROFILE, SESSION, "engine NoDriver\n", Status::BadInput),
    (
        0,
        ENUMERATIONS,
        USE_OF_ENUMERATIONS,
        "ok\nok\nok\nok -1\n",
        Status::AllOk,
    ),
];

/// Whether a session writes this and has this status, and gives its consoles back idle.
fn writes(alloc: Global, row: &Row) -> Result<bool, AllocError> {
    let (count, profile, text, output, status) = *row;
    let boxes = consoles(alloc, count)?;
    let mut profile = profile.as_bytes();
    let mut text = text.as_bytes();
    let mut out: Vec<u8> = Vec::new(alloc);
    let SessionEnd { outcome, drivers } = session(
        alloc,
        &mut profile,
        &mut text,
        &mut out,
        boxes,
        1_000_000,
    );
    let are_back = are_idle(&drivers, count);
    drop(drivers);
    Ok(are_back && outcome == Ok(status) && out.as_slice() == output.as_bytes())
}

#[test]
fn a_session_takes_no_driver_to_64(rt: HostRuntime) -> Result<(), AllocError> {
    for row in ROWS {
        assert!(rt; writes(rt.alloc(), row)?, "{} drivers, {}", row.0, row.3);
    }
    Ok(())
}
