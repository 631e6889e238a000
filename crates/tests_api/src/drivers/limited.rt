//! A counter behind a limit, and taken out of it again.
use crate::drivers::asking::first_wrong;
use crate::drivers::failing::{LIMITED_OBJECT, THREE};
use crate::drivers::limited_counter;
use ang_drivers::{Counter, Limited};
use ang_host::{Answer, Driver, Made};
use ang_kinds::Value;
use std::alloc::{AllocError, Global};

/// What is made before and after a reset, and how many host calls are left then.
fn makings(limited: &mut Limited<Counter>) -> ([Made; 2], [u64; 3]) {
    let before = limited.remaining();
    let refused = limited.make(0, &[]);
    limited.reset();
    let anew = limited.remaining();
    let next = limited.make(0, &[]);
    ([refused, next], [before, anew, limited.remaining()])
}

/// What the driver inside answers, of which a reference was added.
fn added(limited: Limited<Counter>) -> Answer {
    let mut counter = limited.into_inner();
    counter.call(2, None, &[])
}

/// Whether objects behind a limit are answered as they have to.
fn is_limited(alloc: Global) -> Result<bool, AllocError> {
    let mut limited = limited_counter(alloc, THREE)?;
    let wrong = first_wrong(&mut limited, LIMITED_OBJECT);
    let makings = makings(&mut limited);
    let added = added(limited);
    Ok(
        wrong == None
            && makings == ([Made::Fault(77), Made::Key(1)], [0, 3, 2])
            && added == Answer::Gave(Value::Uint(1)),
    )
}

#[test]
fn objects_behind_a_limit_end(rt: HostRuntime) -> Result<(), AllocError> {
    assert!(rt; is_limited(rt.alloc())?);
    Ok(())
}
