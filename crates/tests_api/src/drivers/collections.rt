//! Lists and maps of numbers: what each call answers, the bound, the ends of indices, and keys in their order.
use crate::drivers::asking::Asking::{Call, Read, Write};
use crate::drivers::asking::Row;
use crate::drivers::asking::Row::{Adds, Alone, AtLast, IsIdle, Makes, MakesAtLast, Of, Releases};
use crate::drivers::{Sample, Session};
use ang_drivers::{NO_SUCH_INDEX, NO_SUCH_KEY};
use ang_host::Answer::{Fault, Gave, Memory, Void};
use ang_host::{Answer, Made};
use ang_kinds::Value::{Bool, Int, Uint};

const UNKNOWN: Answer = Fault(1);

const OUTSIDE: Answer = Fault(NO_SUCH_INDEX);

const NO_KEY: Answer = Fault(NO_SUCH_KEY);

const YES: Answer = Gave(Bool(true));

const NO: Answer = Gave(Bool(false));

/// A list that holds four numbers: 0 puts one at the end, 1 tells the one at an index, 2 changes it, 3 tells how many
/// there are, 4 removes one and 5 all.
const LIST: &[Row] = &[
    IsIdle(true),
    Makes(0, &[], Made::Key(0)),
    // four numbers are put into it, and told
    Of(Call(3, &[]), Gave(Int(0))),
    Of(Call(0, &[Int(3)]), Void),
    Of(Call(0, &[Int(-5)]), Void),
    Of(Call(0, &[Int(i64::MIN)]), Void),
    Of(Call(0, &[Int(i64::MAX)]), Void),
    Of(Call(0, &[Int(9)]), Memory),
    Of(Call(3, &[]), Gave(Int(4))),
    Of(Call(1, &[Int(0)]), Gave(Int(3))),
    Of(Call(1, &[Int(3)]), Gave(Int(i64::MAX))),
    Of(Call(1, &[Int(4)]), OUTSIDE),
    Of(Call(1, &[Int(-1)]), OUTSIDE),
    // the second of four is removed, and another comes in the place of the last
    Of(Call(4, &[Int(1)]), Void),
    Of(Call(1, &[Int(0)]), Gave(Int(3))),
    Of(Call(1, &[Int(1)]), Gave(Int(i64::MIN))),
    Of(Call(1, &[Int(2)]), Gave(Int(i64::MAX))),
    Of(Call(1, &[Int(3)]), OUTSIDE),
    Of(Call(2, &[Int(2), Int(7)]), Void),
    Of(Call(1, &[Int(2)]), Gave(Int(7))),
    Of(Call(2, &[Int(3), Int(7)]), OUTSIDE),
    Of(Call(2, &[Int(-1), Int(7)]), OUTSIDE),
    Of(Call(4, &[Int(3)]), OUTSIDE),
    Of(Call(4, &[Int(i64::MIN)]), OUTSIDE),
    Of(Call(0, &[Int(9)]), Void),
    // all are removed
    Of(Call(3, &[]), Gave(Int(4))),
    Of(Call(5, &[]), Void),
    Of(Call(3, &[]), Gave(Int(0))),
    Of(Call(1, &[Int(0)]), OUTSIDE),
    // what no list does
    Of(Call(0, &[]), UNKNOWN),
    Of(Call(0, &[Uint(3)]), UNKNOWN),
    Of(Call(1, &[Int(0), Int(0)]), UNKNOWN),
    Of(Call(2, &[Int(0)]), UNKNOWN),
    Of(Call(3, &[Int(0)]), UNKNOWN),
    Of(Call(6, &[]), UNKNOWN),
    Of(Read(0), UNKNOWN),
    Of(Write(0, Int(3)), UNKNOWN),
    Adds,
    Releases(false),
    Releases(true),
    IsIdle(true),
    Makes(0, &[Int(5)], Made::Fault(1)),
    Makes(1, &[], Made::Fault(1)),
    Makes(0, &[Uint(0)], Made::Fault(1)),
    Alone(Call(3, &[]), UNKNOWN),
    Alone(Call(0, &[Int(1)]), UNKNOWN),
    Alone(Read(0), UNKNOWN),
    Alone(Write(0, Int(1)), UNKNOWN),
];

/// A list is full and ends, and another one is made.
const NEXT_LIST: &[Row] = &[
    Makes(0, &[], Made::Key(0)),
    Of(Call(0, &[Int(1)]), Void),
    Of(Call(0, &[Int(2)]), Memory),
    Adds,
    Releases(false),
    Releases(true),
    Makes(0, &[], Made::Key(1)),
    Of(Call(3, &[]), Gave(Int(0))),
];

/// Run with each growth of memory refused in turn, an asking may find none, and the next one does.
const REFUSED_GROWTH: &[Row] = &[
    MakesAtLast(0, &[], Made::Key(0)),
    AtLast(Call(0, &[Int(5)]), Void),
    AtLast(Call(0, &[Int(6)]), Void),
    Of(Call(3, &[]), Gave(Int(2))),
    Of(Call(1, &[Int(1)]), Gave(Int(6))),
];

/// A map that holds three keys: 0 tells whether there is a key, 1 its number, 2 sets that, 3 tells how many keys there
/// are, 4 removes one, 5 all, and 6 tells one by its index.
const MAP: &[Row] = &[
    IsIdle(true),
    Makes(0, &[], Made::Key(0)),
    // three keys are set, not in their order
    Of(Call(3, &[]), Gave(Int(0))),
    Of(Call(0, &[Int(5)]), NO),
    Of(Call(1, &[Int(5)]), NO_KEY),
    Of(Call(2, &[Int(5), Int(50)]), Void),
    Of(Call(2, &[Int(i64::MAX), Int(70)]), Void),
    Of(Call(2, &[Int(-3), Int(i64::MIN)]), Void),
    Of(Call(2, &[Int(4), Int(40)]), Memory),
    Of(Call(2, &[Int(5), Int(51)]), Void),
    Of(Call(3, &[]), Gave(Int(3))),
    Of(Call(0, &[Int(5)]), YES),
    Of(Call(0, &[Int(4)]), NO),
    Of(Call(1, &[Int(5)]), Gave(Int(51))),
    // the keys by index, and the one in the middle is removed
    Of(Call(6, &[Int(0)]), Gave(Int(-3))),
    Of(Call(6, &[Int(1)]), Gave(Int(5))),
    Of(Call(6, &[Int(2)]), Gave(Int(i64::MAX))),
    Of(Call(6, &[Int(3)]), OUTSIDE),
    Of(Call(6, &[Int(-1)]), OUTSIDE),
    Of(Call(4, &[Int(5)]), YES),
    Of(Call(4, &[Int(5)]), NO),
    Of(Call(1, &[Int(5)]), NO_KEY),
    Of(Call(6, &[Int(1)]), Gave(Int(i64::MAX))),
    Of(Call(6, &[Int(2)]), OUTSIDE),
    Of(Call(1, &[Int(-3)]), Gave(Int(i64::MIN))),
    Of(Call(2, &[Int(4), Int(40)]), Void),
    // all are removed
    Of(Call(6, &[Int(1)]), Gave(Int(4))),
    Of(Call(5, &[]), Void),
    Of(Call(3, &[]), Gave(Int(0))),
    Of(Call(0, &[Int(4)]), NO),
    // what no map does
    Of(Call(0, &[]), UNKNOWN),
    Of(Call(0, &[Uint(3)]), UNKNOWN),
    Of(Call(1, &[Int(0), Int(0)]), UNKNOWN),
    Of(Call(2, &[Int(0)]), UNKNOWN),
    Of(Call(3, &[Int(0)]), UNKNOWN),
    Of(Call(7, &[Int(0)]), UNKNOWN),
    Of(Read(0), UNKNOWN),
    Of(Write(0, Int(3)), UNKNOWN),
    Adds,
    Releases(false),
    Releases(true),
    IsIdle(true),
    Makes(0, &[Int(5)], Made::Fault(1)),
    Makes(1, &[], Made::Fault(1)),
    Makes(0, &[Uint(0)], Made::Fault(1)),
    Alone(Call(3, &[]), UNKNOWN),
    Alone(Call(0, &[Int(1)]), UNKNOWN),
    Alone(Read(0), UNKNOWN),
    Alone(Write(0, Int(1)), UNKNOWN),
];

/// A map with a key ends, and another one is made.
const NEXT_MAP: &[Row] = &[
    Makes(0, &[], Made::Key(0)),
    Of(Call(2, &[Int(1), Int(2)]), Void),
    Adds,
    Releases(false),
    Releases(true),
    Makes(0, &[], Made::Key(1)),
    Of(Call(3, &[]), Gave(Int(0))),
];

pub const SESSIONS: &[Session] = &[
    ("a list holds numbers", Sample::Lists(4), LIST),
    ("a list begins empty", Sample::Lists(1), NEXT_LIST),
    (
        "a refused growth changes no list",
        Sample::Lists(4),
        REFUSED_GROWTH,
    ),
    ("a map holds numbers by key", Sample::Maps(3), MAP),
    ("a map begins empty", Sample::Maps(1), NEXT_MAP),
];
