//! Runs of code, beside what they are to give and to list.
use crate::program::table;
use crate::runs::Turn::{Call, Faults, Gives, Initializes};
use crate::runs::{Case, Turn, Wrong, wrong_in};
use ang_kinds::Fault;
use ang_vm_stack::table::Table;
use std::alloc::{AllocError, Global};

const A: u32 = 1;

const C: u32 = 3;

/// A loop takes a tick at its entry, one before it and one for each turn back. A body that calls itself ends by the
/// depth, or by the budget where that is less. Where there is less on the stack than is taken, a run is `Null`. An
/// initializer takes no tick at its entry.
const TURNS: &[Turn] = list! {
    Call(0, Some(10), 1000, Ok(55)),
    Call(1, None, 12, Ok(10)),
    Call(1, None, 11, Err(Fault::Budget)),
    Call(1, None, 0, Err(Fault::Budget)),
    Call(2, None, 1000, Err(Fault::Depth)),
    Call(2, None, 200, Err(Fault::Depth)),
    Call(2, None, 199, Err(Fault::Budget)),
    Gives(3, u64::MAX - 24),
    Faults(5, Fault::DivideByZero),
    Gives(6, 40),
    Gives(6, 80),
    Faults(7, Fault::Host(77)),
    Faults(8, Fault::BadAnswer),
    Gives(9, 300),
    Gives(10, 9),
    Initializes(12, 3, Ok(3)),
    Gives(13, 6),
    Initializes(14, 1, Err(Fault::Budget)),
    Faults(0, Fault::Null),
};

/// The runs are of one machine, one after the other.
const CASE: Case = (
    "numbers",
    0,
    TURNS,
    "host m 12 0 - (5) void / host m 13 0 - (30,2) 32 / host m 12 0 - (9) void / host m 12 0 - (1) void / \
     host m 15 0 - () 0 / host m 15 0 - (40) void / host m 15 0 - () 40 / host m 15 0 - (80) void / \
     host m 14 0 - (77) fault 77 / host m 17 0 - (200,0) 200 / host m 15 0 - (300) void / host m 15 0 - () 300",
);

/// Objects of the host, in the module `a`. What each body does is written above its text.
const HOST_OBJECTS: &[Case] = list! {
    ("a counter", A, &[Gives(0, 8)],
        "host a 2 1 - (5) made #0 / host a 5 1 #0 (3) void / host a 3 1 #0 () void / \
        host a 4 1 #0 () 8 / end 1 #0"),
    ("a handle over itself", A, &[Gives(1, 0)],
        "host a 7 2 - (1) made #0 / host a 7 2 - (2) made #1 / end 2 #1 / \
        host a 11 2 - (#0) #0 / end 2 #0"),
    ("an object by `&out`", A, &[Gives(3, 1)],
        "host a 7 2 - (1) made #0 / host a 9 2 #0 () 1 / end 2 #0"),
    ("a fault in an argument", A, &[Faults(4, Fault::DivideByZero)],
        "host a 7 2 - (1) made #0 / end 2 #0"),
    ("a method of null", A, &[Faults(5, Fault::Null)],
        ""),
    ("copies", A, &[Gives(6, 0)],
        "host a 7 2 - (1) made #0 / host a 7 2 - (2) made #1 / host a 12 0 - (1) void / \
        end 2 #1 / host a 12 0 - (2) void / host a 10 2 #0 (7) void / host a 9 2 #0 () 7 / \
        host a 12 0 - (7) void / end 2 #0"),
    ("comparisons", A, &[Gives(7, 0)],
        "host a 7 2 - (1) made #0 / host a 2 1 - (2) made #0 / host a 12 0 - (1) void / \
        host a 12 0 - (1) void / host a 12 0 - (0) void / host a 12 0 - (0) void / \
        host a 11 2 - (null) null / host a 12 0 - (1) void / host a 7 2 - (3) made #1 / \
        end 2 #1 / host a 12 0 - (0) void / end 1 #0 / end 2 #0"),
    ("a property", A, &[Gives(8, 11)],
        "host a 2 1 - (5) made #0 / host a 5 1 #0 () 1 / host a 12 0 - (1) void / \
        host a 5 1 #0 () 1 / host a 5 1 #0 (5) void / host a 12 0 - (5) void / \
        host a 5 1 #0 () 5 / host a 5 1 #0 (6) void / host a 12 0 - (5) void / \
        host a 3 1 #0 () void / host a 4 1 #0 () 11 / end 1 #0"),
    ("a property by 0", A, &[Faults(9, Fault::DivideByZero)],
        "host a 2 1 - (5) made #0 / host a 5 1 #0 () 1 / end 1 #0"),
    ("a fault in a call", A, &[Faults(11, Fault::DivideByZero)],
        "host a 7 2 - (0) made #0 / host a 7 2 - (1) made #1 / host a 2 1 - (2) made #0 / \
        host a 7 2 - (3) made #2 / end 2 #2 / end 1 #0 / end 2 #1 / end 2 #0"),
    ("an argument before null", A, &[Faults(12, Fault::Null)],
        "host a 7 2 - (4) made #0 / host a 9 2 #0 () 4 / end 2 #0"),
    ("a driver's fault in an argument", A, &[Faults(13, Fault::Host(2))],
        "host a 7 2 - (1) made #0 / host a 13 0 - (9223372036854775807,1) fault 2 / end 2 #0"),
    ("a global", A, &[Gives(14, 0), Gives(15, 1), Gives(16, 0), Gives(17, 0)],
        "host a 7 2 - (1) made #0 / host a 9 2 #0 () 1 / host a 7 2 - (2) made #1 / \
        end 2 #0 / host a 12 0 - (7) void / end 2 #1"),
    ("a global after a fault", A, &[Faults(18, Fault::Host(9)), Gives(17, 0)],
        "host a 7 2 - (1) made #0 / host a 14 0 - (9) fault 9 / end 2 #0"),
    ("too deep", A, &[Faults(20, Fault::Depth)],
        "host a 7 2 - (1) made #0 / end 2 #0"),
    ("null for an object", A, &[Faults(22, Fault::Null)],
        "host a 7 2 - (1) made #0 / end 2 #0"),
    ("an unbound import", A, &[Faults(23, Fault::Unbound)],
        "host a 7 2 - (1) made #0 / end 2 #0"),
    ("a bound import", A, &[Gives(24, 3)],
        "host b 7 2 - (3) made #0 / host a 9 2 #0 () 3 / end 2 #0"),
    ("a result that nobody takes", A, &[Gives(25, 0)],
        "host a 7 2 - (5) made #0 / host a 11 2 - (#0) #0 / end 2 #0"),
    ("an object as an argument", A, &[Gives(26, 3)],
        "host a 7 2 - (1) made #0 / host a 8 2 - (#0,2) made #1 / end 2 #0 / \
        host a 9 2 #1 () 3 / end 2 #1"),
    ("objects of a loop", A, &[Call(27, None, 4, Err(Fault::Budget))],
        "host a 7 2 - (1) made #0 / end 2 #0 / host a 7 2 - (1) made #1 / end 2 #1 / \
        host a 7 2 - (1) made #2 / end 2 #2"),
    ("parameters and locals", A, &[Gives(29, 0)],
        "host a 7 2 - (1) made #0 / host a 2 1 - (2) made #0 / host a 7 2 - (3) made #1 / \
        host a 7 2 - (4) made #2 / end 2 #2 / end 2 #1 / end 1 #0 / end 2 #0 / \
        host a 12 0 - (8) void"),
};

/// Script objects, in the module `c`.
const SCRIPT_OBJECTS: &[Case] = list! {
    ("fields of a base class", C, &[Gives(2, 0)],
        "host c 7 2 - (1) made #0 / host c 7 2 - (2) made #1 / end 2 #0 / end 2 #1"),
    ("a receiver that outlives its global", C, &[Initializes(8, 10, Ok(9)), Gives(9, 5)],
        "host c 2 1 - (5) made #0 / host c 4 1 #0 () 5 / end 1 #0"),
    ("a half-made object", C, &[Faults(11, Fault::DivideByZero)],
        "host c 7 2 - (1) made #0 / end 2 #0"),
    ("a method of the class", C, &[Gives(5, 2)],
        ""),
    ("a cast that holds", C, &[Gives(12, 1)],
        ""),
    ("casts to null", C, &[Gives(13, 0)],
        "host c 7 2 - (1) made #0 / end 2 #0 / host c 12 0 - (1) void / \
        host c 12 0 - (2) void / host c 7 2 - (1) made #1 / end 2 #1 / \
        host c 12 0 - (0) void / host c 12 0 - (1) void"),
    ("numbers in fields", C, &[Gives(15, 0)],
        "host c 12 0 - (5) void / host c 12 0 - (9) void / host c 12 0 - (9) void / \
        host c 12 0 - (10) void / host c 12 0 - (-126) void / host c 12 0 - (0) void"),
    ("fields by `&out`", C, &[Gives(18, 2)],
        "host c 7 2 - (1) made #0 / host c 7 2 - (2) made #1 / end 2 #0 / \
        host c 12 0 - (44) void / host c 9 2 #1 () 2 / end 2 #1"),
    ("objects inside objects", C, &[Gives(19, 0)],
        "host c 7 2 - (1) made #0 / host c 7 2 - (9) made #1 / end 2 #0 / end 2 #1"),
    ("an object in two fields", C, &[Gives(20, 0)],
        "host c 7 2 - (1) made #0 / host c 12 0 - (1) void / host c 12 0 - (2) void / \
        end 2 #0 / host c 12 0 - (3) void"),
    ("a method of null", C, &[Faults(21, Fault::Null)],
        "host c 7 2 - (1) made #0 / end 2 #0"),
    ("no method", C, &[Faults(22, Fault::Unbound)],
        "host c 7 2 - (1) made #0 / end 2 #0"),
    ("a global after a fault", C, &[Gives(23, 0), Faults(24, Fault::DivideByZero), Gives(26, 0)],
        "host c 7 2 - (1) made #0 / host c 7 2 - (2) made #1 / host c 9 2 #0 () 1 / \
        end 2 #1 / end 2 #0"),
    ("a field stored again", C, &[Gives(27, 0)],
        "host c 7 2 - (1) made #0 / host c 7 2 - (2) made #1 / end 2 #0 / \
        host c 12 0 - (3) void / end 2 #1"),
    ("a field of null", C, &[Faults(28, Fault::Null)],
        "host c 7 2 - (1) made #0 / end 2 #0"),
};

const CASES: &[&[Case]] = &[&[CASE], HOST_OBJECTS, SCRIPT_OBJECTS];

/// The first case that is not as it should be.
fn first_wrong(
    alloc: Global,
    table: &Table,
    cases: &[Case],
) -> Result<Option<(&'static str, Wrong)>, AllocError> {
    for case in cases {
        if let Some(wrong) = wrong_in(alloc, table, case)? {
            return Ok(Some((case.0, wrong)));
        }
    }
    Ok(None)
}

fn wrong_case(alloc: Global, cases: &[Case]) -> Result<Option<(&'static str, Wrong)>, AllocError> {
    let table = table(alloc)?;
    first_wrong(alloc, &table, cases)
}

#[test]
fn runs_give_and_ask_and_end_objects(rt: HostRuntime) -> Result<(), AllocError> {
    for cases in CASES {
        assert_eq!(rt; wrong_case(rt.alloc(), cases)?, None);
    }
    Ok(())
}
