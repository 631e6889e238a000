//! A console, counters and cells.
use crate::drivers::asking::Asking::{Call, Read, Write};
use crate::drivers::asking::Row;
use crate::drivers::asking::Row::{Adds, Alone, IsIdle, Makes, MakesFrom, Of, Passes, Releases};
use crate::drivers::{Sample, Session};
use ang_host::Answer::{Fault, Gave, Void};
use ang_host::{Answer, Made};
use ang_kinds::Value::{Bool, Int, Key, Uint};

const UNKNOWN: Answer = Fault(1);

const ADDS: &[Row] = &[
    Alone(Call(1, &[Int(2), Int(3)]), Gave(Int(5))),
    Alone(Call(1, &[Int(i64::MAX), Int(1)]), Fault(2)),
    Alone(Call(1, &[Int(i64::MIN), Int(-1)]), Fault(2)),
    Alone(Call(1, &[Int(2), Uint(3)]), UNKNOWN),
    Alone(Call(2, &[Uint(7), Uint(7)]), UNKNOWN),
    Alone(Call(3, &[Int(2), Int(3)]), UNKNOWN),
    Alone(Call(2, &[Uint(7)]), Fault(7)),
    Alone(Call(2, &[Uint(4_294_967_296)]), UNKNOWN),
];

const NOTES: &[Row] = &[
    Alone(Call(0, &[Bool(true), Key(None), Int(-4)]), Void),
    Alone(Call(0, &[]), Void),
    Alone(Read(0), Gave(Int(0))),
    Alone(Write(0, Int(-5)), Void),
    Alone(Read(0), Gave(Int(-5))),
    Alone(Write(0, Uint(6)), UNKNOWN),
    Alone(Write(1, Int(6)), UNKNOWN),
    Alone(Read(0), Gave(Int(-5))),
    Alone(Read(1), UNKNOWN),
    Makes(0, &[], Made::Fault(1)),
    IsIdle(true),
];

/// The sum wraps. Then one reference was added, and another counter counts anew.
const COUNTS: &[Row] = &[
    IsIdle(true),
    Makes(1, &[Int(5)], Made::Key(0)),
    IsIdle(false),
    Of(Read(0), Gave(Int(1))),
    Of(Write(0, Int(3)), Void),
    Of(Read(0), Gave(Int(3))),
    Of(Call(0, &[]), Void),
    Of(Call(1, &[]), Gave(Int(8))),
    Of(Write(0, Int(2_147_483_647)), Void),
    Of(Call(0, &[]), Void),
    Of(Call(1, &[]), Gave(Int(-2_147_483_641))),
    Adds,
    Releases(false),
    Releases(true),
    IsIdle(true),
    Alone(Call(2, &[]), Gave(Uint(1))),
    Makes(0, &[], Made::Key(1)),
    Of(Call(1, &[]), Gave(Int(0))),
];

/// What no counter does.
const NO_COUNTER: &[Row] = &[
    Makes(0, &[Int(5)], Made::Fault(1)),
    Makes(1, &[Uint(5)], Made::Fault(1)),
    Makes(1, &[Int(2_147_483_648)], Made::Fault(1)),
    Makes(1, &[Int(-2_147_483_649)], Made::Fault(1)),
    Makes(2, &[Int(5)], Made::Fault(1)),
    Makes(1, &[], Made::Fault(1)),
    Makes(0, &[], Made::Key(0)),
    Of(Call(2, &[]), UNKNOWN),
    Of(Call(0, &[Int(1)]), UNKNOWN),
    Of(Read(1), UNKNOWN),
    Of(Write(1, Int(1)), UNKNOWN),
    Of(Write(0, Int(2_147_483_648)), UNKNOWN),
    Alone(Call(0, &[]), UNKNOWN),
    Alone(Call(2, &[Int(1)]), UNKNOWN),
    Alone(Read(0), UNKNOWN),
    Alone(Write(0, Int(1)), UNKNOWN),
];

const HOLDS: &[Row] = &[
    IsIdle(true),
    Makes(0, &[Int(1)], Made::Key(0)),
    Of(Call(0, &[]), Gave(Int(1))),
    Of(Call(1, &[Int(9)]), Void),
    Of(Call(0, &[]), Gave(Int(9))),
    Of(Call(1, &[Int(2_147_483_648)]), UNKNOWN),
    Of(Call(0, &[Int(9)]), UNKNOWN),
    Of(Read(0), UNKNOWN),
    Of(Write(0, Int(9)), UNKNOWN),
    Adds,
    Releases(false),
    Releases(true),
    IsIdle(true),
    Alone(Call(2, &[Key(None)]), Gave(Key(None))),
    Alone(Call(2, &[Int(0)]), UNKNOWN),
    Makes(0, &[Int(2_147_483_648)], Made::Fault(1)),
    Makes(1, &[Key(None), Int(1)], Made::Fault(1)),
];

/// The value of a new cell that is so much above another one, of the value 9. At the end one is handed back.
const ABOVE: &[Row] = &[
    Makes(0, &[Int(9)], Made::Key(0)),
    MakesFrom(1, -10, Made::Key(1)),
    Of(Call(0, &[]), Gave(Int(-1))),
    Makes(0, &[Int(9)], Made::Key(2)),
    MakesFrom(1, 2_147_483_647, Made::Key(3)),
    Of(Call(0, &[]), Gave(Int(-2_147_483_640))),
    Makes(0, &[Int(9)], Made::Key(4)),
    MakesFrom(1, 4_294_967_297, Made::Key(5)),
    Of(Call(0, &[]), Gave(Int(10))),
    Makes(0, &[Int(4)], Made::Key(6)),
    Passes(2, Gave(Key(Some(6)))),
];

pub const SESSIONS: &[Session] = &[
    ("a console adds and faults", Sample::Console, ADDS),
    (
        "a console notes and keeps a register",
        Sample::Console,
        NOTES,
    ),
    ("a counter counts by steps", Sample::Counter, COUNTS),
    ("a counter is asked otherwise", Sample::Counter, NO_COUNTER),
    ("a cell holds a number", Sample::Cell, HOLDS),
    ("a cell is made from another", Sample::Cell, ABOVE),
];
