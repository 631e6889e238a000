//! Which drivers a list takes.
use ang_drivers::{Cell, Console, Counter};
use ang_host::{Driver, Drivers, DriversError, Made};
use ang_kinds::Value;
use std::alloc::{AllocError, Global};

type Boxes = Vec<Box<dyn Driver>>;

/// What becomes of drivers: whether they are taken, or why not, and how many are given back then.
fn taken(boxes: Boxes) -> (Option<DriversError>, usize) {
    match Drivers::new(boxes) {
        Ok(drivers) => (None, drivers.into_boxes().len()),
        Err((why, boxes)) => (Some(why), boxes.len()),
    }
}

fn consoles(alloc: Global, count: usize) -> Result<Boxes, AllocError> {
    let mut boxes: Boxes = Vec::new(alloc);
    for _ in 0..count {
        boxes.push(Box::new(alloc, Console::new(alloc)?)?)?;
    }
    Ok(boxes)
}

/// So many counters, and a cell that has an object.
fn counters_and_cell(alloc: Global, count: usize) -> Result<Boxes, AllocError> {
    let mut boxes: Boxes = Vec::new(alloc);
    for _ in 0..count {
        boxes.push(Box::new(alloc, Counter::new(alloc)?)?)?;
    }
    let mut cell = Cell::new(alloc)?;
    if cell.make(0, &[Value::Int(1)]) == Made::Key(0) {
        boxes.push(Box::new(alloc, cell)?)?;
    }
    Ok(boxes)
}

/// Whether a cell in use stands after the other drivers, how many these are, how many all, and why the list is refused,
/// if it is.
const LISTS: &[(bool, usize, usize, Option<DriversError>)] = &[
    (false, 0, 0, None),
    (false, 1, 1, None),
    (false, 64, 64, None),
    (false, 65, 65, Some(DriversError::TooMany)),
    (true, 1, 2, Some(DriversError::Busy)),
    (true, 64, 65, Some(DriversError::TooMany)),
];

/// What becomes of so many drivers, and of a cell in use after them.
fn listed(
    alloc: Global,
    is_used: bool,
    count: usize,
) -> Result<(Option<DriversError>, usize), AllocError> {
    if is_used {
        Ok(taken(counters_and_cell(alloc, count)?))
    } else {
        Ok(taken(consoles(alloc, count)?))
    }
}

#[test]
fn the_list_takes_64_idle_drivers(rt: HostRuntime) -> Result<(), AllocError> {
    for (is_used, count, all, why) in LISTS {
        assert!(rt;
            listed(rt.alloc(), *is_used, *count)? == (*why, *all),
            "{count}"
        );
    }
    Ok(())
}
