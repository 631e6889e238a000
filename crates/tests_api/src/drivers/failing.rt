//! A counter of which one asking fails, each way to fail, and a counter behind a limit: what is let through, the fault
//! above that, and a count that begins anew.
use crate::drivers::asking::Asking::{Call, Read, Write};
use crate::drivers::asking::Row;
use crate::drivers::asking::Row::{Adds, Alone, IsIdle, Makes, Of, Releases};
use crate::drivers::{Sample, Session};
use ang_drivers::{CallLimit, Failing};
use ang_host::Answer::{Fault, Full, Gave, Memory, Void};
use ang_host::{Answer, Made};
use ang_kinds::Value::{Int, Uint};

const UNKNOWN: Answer = Fault(1);

const NONE_ADDED: Answer = Gave(Uint(0));

const FAULT: &[Row] = &[
    Alone(Call(2, &[]), NONE_ADDED),
    Alone(Call(2, &[]), Fault(9)),
    Alone(Call(2, &[]), NONE_ADDED),
    Alone(Read(0), UNKNOWN),
];

const NOTHING: &[Row] = &[
    Alone(Call(2, &[]), NONE_ADDED),
    Alone(Read(0), Fault(9)),
    Alone(Call(2, &[]), NONE_ADDED),
    Alone(Call(3, &[]), UNKNOWN),
];

const MEMORY: &[Row] = &[
    Alone(Call(2, &[]), NONE_ADDED),
    Alone(Write(0, Int(1)), Memory),
    Alone(Call(2, &[]), NONE_ADDED),
    Alone(Write(0, Int(1)), UNKNOWN),
];

const FULL: &[Row] = &[
    Alone(Call(2, &[]), NONE_ADDED),
    Alone(Call(2, &[]), Full),
    Alone(Read(0), Full),
    Alone(Write(0, Int(1)), Full),
];

const MAKING_FAULT: &[Row] = &[
    Makes(1, &[Int(5)], Made::Key(0)),
    Makes(0, &[], Made::Fault(9)),
    Makes(0, &[], Made::Key(1)),
];

const MAKING_NOTHING: &[Row] = &[
    Makes(1, &[Int(5)], Made::Key(0)),
    Makes(0, &[], Made::Nothing),
    Makes(0, &[], Made::Key(1)),
];

const MAKING_MEMORY: &[Row] = &[
    Makes(1, &[Int(5)], Made::Key(0)),
    Makes(0, &[], Made::Memory),
    Makes(0, &[], Made::Key(1)),
];

const MAKING_FULL: &[Row] = &[
    Makes(1, &[Int(5)], Made::Key(0)),
    Makes(0, &[], Made::Full),
    Makes(0, &[], Made::Full),
];

/// A step is set, and the value told after two additions, of which the second one fails.
const OF_AN_OBJECT: &[Row] = &[
    IsIdle(true),
    Makes(1, &[Int(5)], Made::Key(0)),
    Of(Write(0, Int(3)), Void),
    Of(Call(0, &[]), Void),
    Of(Call(0, &[]), Fault(9)),
    Of(Call(1, &[]), Gave(Int(8))),
    Adds,
    Releases(false),
    Releases(true),
    IsIdle(true),
];

pub const THREE: CallLimit = CallLimit {
    calls: 3,
    fault: 77,
    reset: 40,
};

const REFUSED: Answer = Fault(77);

/// Three host calls are let through, and after a reset three more, of which the driver inside refuses two itself.
const LIMITED: &[Row] = &[
    Alone(Call(2, &[]), NONE_ADDED),
    Alone(Read(0), UNKNOWN),
    Alone(Write(0, Int(1)), UNKNOWN),
    Alone(Call(2, &[]), REFUSED),
    Alone(Read(0), REFUSED),
    Alone(Write(0, Int(1)), REFUSED),
    Alone(Call(40, &[]), Void),
    Alone(Write(0, Int(1)), UNKNOWN),
    Alone(Call(41, &[]), UNKNOWN),
    Alone(Call(2, &[]), NONE_ADDED),
    Alone(Call(2, &[]), REFUSED),
];

/// The fourth host call of an object is refused, and it ends all the same.
pub const LIMITED_OBJECT: &[Row] = &[
    Makes(1, &[Int(5)], Made::Key(0)),
    Of(Call(0, &[]), Void),
    Of(Call(1, &[]), Gave(Int(6))),
    Of(Call(0, &[]), REFUSED),
    Adds,
    Releases(false),
    Releases(true),
    IsIdle(true),
];

pub const SESSIONS: &[Session] = &[
    ("a fault", Sample::FaultyAtSecond(Failing::Fault), FAULT),
    ("nothing", Sample::FaultyAtSecond(Failing::Nothing), NOTHING),
    ("no memory", Sample::FaultyAtSecond(Failing::Memory), MEMORY),
    ("full", Sample::FaultyAtSecond(Failing::Full), FULL),
    (
        "a fault of a making",
        Sample::FaultyAtSecond(Failing::Fault),
        MAKING_FAULT,
    ),
    (
        "nothing is made",
        Sample::FaultyAtSecond(Failing::Nothing),
        MAKING_NOTHING,
    ),
    (
        "no memory for a making",
        Sample::FaultyAtSecond(Failing::Memory),
        MAKING_MEMORY,
    ),
    (
        "full for a making",
        Sample::FaultyAtSecond(Failing::Full),
        MAKING_FULL,
    ),
    (
        "a fault of an object",
        Sample::FaultyAtFourth(Failing::Fault),
        OF_AN_OBJECT,
    ),
    ("a limit", Sample::Limited(THREE), LIMITED),
];
