use ang_kinds::{Comparison, Fault, Operator, Prim};
use ang_meaning::Update;
use ang_vm_numbers::{change, compare, complement, convert, deny, negate, work};

// The 64 bits of a negative number.
const MINUS_1: u64 = u64::MAX;

const MINUS_3: u64 = u64::MAX - 2;

const MINUS_4: u64 = u64::MAX - 3;

const MINUS_8: u64 = u64::MAX - 7;

const MINUS_56: u64 = u64::MAX - 55;

const LEAST_INT: u64 = u64::MAX - 0x7FFF_FFFF;

const WORKS: &[(Operator, Prim, u64, u64, Result<u64, Fault>)] = &[
    (Operator::ShiftRight, Prim::I32, MINUS_8, 1, Ok(2147483644)),
    (
        Operator::ShiftRightArithmetic,
        Prim::I32,
        MINUS_8,
        1,
        Ok(MINUS_4),
    ),
    (Operator::ShiftLeft, Prim::U8, 0x81, 9, Ok(2)),
    (
        Operator::Divide,
        Prim::I32,
        LEAST_INT,
        MINUS_1,
        Err(Fault::DivideOverflow),
    ),
    (
        Operator::Divide,
        Prim::I64,
        LEAST_INT,
        MINUS_1,
        Ok(2147483648),
    ),
    (Operator::Divide, Prim::I32, 10, 0, Err(Fault::DivideByZero)),
    (Operator::Remainder, Prim::I32, MINUS_8, 5, Ok(MINUS_3)),
    (Operator::Add, Prim::I32, 0, MINUS_56, Ok(MINUS_56)),
];

#[test]
fn operators(rt: HostRuntime) {
    for (what, at, x, y, want) in WORKS {
        assert!(rt; work(*what, *at, *x, *y) == *want, "{x} and {y}");
    }
}

const STEP: Update = Update {
    operator: Operator::Add,
    at: Prim::I32,
    to: Prim::U8,
    old: true,
};

/// A change of 255 by 1 and what it gives, a conversion, `-`, `~`, two comparisons, and `!`.
fn values() -> [u64; 8] {
    let (stored, given) = change(STEP, 255, 1).map_or((1, 1), |a| (a.stored, a.given));
    [
        stored,
        given,
        convert(Prim::I8, 200),
        negate(Prim::U8, 1),
        complement(Prim::I32, 3),
        compare(Comparison::Less, true, MINUS_8, 1),
        compare(Comparison::Less, false, MINUS_8, 1),
        deny(0),
    ]
}

#[test]
fn values_are_worked_out(rt: HostRuntime) {
    assert!(rt; values() == [0, 255, MINUS_56, 255, MINUS_4, 1, 0, 1]);
}
