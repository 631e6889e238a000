//! What a machine keeps of its last run.
use crate::machine::{answer_alone, end, with_drivers};
use crate::operators::DIVIDE;
use crate::program::{BLANK, Module, table_of};
use ang_code::Frame;
use ang_code::Instruction::{Drop, Enter, PushBits, Return};
use ang_kinds::{Fault, Value};
use ang_meaning::{Callee, Routine};
use std::alloc::{AllocError, Global};

/// A body that calls one that calls one that divides by 0, and a body that gives a value.
const BODIES: Module = Module {
    name: b'l',
    texts: list! {
        (&[], 1, &[Enter(Callee::Own(1)), Return(0)]),
        (&[], 1, &[PushBits(7), Drop, Enter(Callee::Own(2)), Return(0)]),
        (&[], 2, &[PushBits(1), PushBits(0), DIVIDE, Return(0)]),
        (&[], 1, &[PushBits(9), Return(0)]),
    },
    ..BLANK
};

/// A body, its budget, and what it gives; the bodies that ran, each with the place after its own; and the ticks left.
type Row = (
    usize,
    u64,
    Result<Option<Value>, Fault>,
    &'static [(usize, usize)],
    u64,
);

const ROWS: &[Row] = &[
    (
        0,
        10,
        Err(Fault::DivideByZero),
        &[(0, 1), (1, 3), (2, 3)],
        7,
    ),
    (0, 2, Err(Fault::Budget), &[(0, 1), (1, 3)], 0),
    (3, 10, Ok(Some(Value::Uint(9))), &[], 9),
    (3, 0, Err(Fault::Budget), &[], 0),
];

fn are(frames: &[Frame], places: &[(usize, usize)]) -> bool {
    let same = |(frame, place): (&Frame, &(usize, usize))| (frame.of.number, frame.at) == *place;
    frames.len() == places.len() && frames.iter().zip(places.iter()).all(same)
}

/// Whether that is kept. Where a growth of memory was refused, all frames are, or none.
fn keeps(alloc: Global, row: &Row) -> Result<bool, AllocError> {
    let table = table_of(alloc, &[BODIES])?;
    let Some(mut machine) = with_drivers(alloc)? else {
        return Ok(false);
    };
    let entry = Routine {
        home: 0,
        number: row.0,
    };
    let answer = answer_alone(alloc, &table, &mut machine, entry, row.1);
    let is_kept = are(machine.last.frames.as_slice(), row.3) && machine.last.left == row.4;
    let is_lost = machine.last.frames.is_empty() && !row.3.is_empty();
    end(machine);
    if answer == Err(Fault::Memory) || is_lost {
        return Err(AllocError);
    }
    Ok(answer == row.2 && is_kept)
}

#[test]
fn frames_and_ticks_of_the_last_run_are_kept(rt: HostRuntime) -> Result<(), AllocError> {
    for row in ROWS {
        assert!(rt; keeps(rt.alloc(), row)?);
    }
    Ok(())
}
