//! Outside examples: a whole profile, the refusals that the documents name, limits, and what modules see.

use ang_kinds::{EntityNo, Mask, TypeRef};
use ang_registry::{Entry, EntryKind, RegError, Registry, View};
use std::alloc::{AllocError, Global};

/// One call that adds an entry.
enum Line {
    Type(&'static [u8], u32),
    Factory(&'static [u8], u32, &'static [u8]),
    Method(&'static [u8], u32, &'static [u8]),
    Property(&'static [u8], u32, &'static [u8]),
    Function(u32, u32, &'static [u8]),
    Global(u32, u32, &'static [u8]),
    Enum(&'static [u8]),
    Value(&'static [u8], &'static [u8], i32),
    Blank,
}

fn add(registry: &mut Registry, line: &Line) -> Result<EntityNo, RegError> {
    match line {
        Line::Type(name, driver) => registry.type_(name, *driver),
        Line::Factory(name, f, decl) => registry.factory(name, *f, decl),
        Line::Method(name, f, decl) => registry.method(name, *f, decl),
        Line::Property(name, f, decl) => registry.property(name, *f, decl),
        Line::Function(driver, f, decl) => registry.function(*driver, *f, decl),
        Line::Global(driver, f, decl) => registry.global_property(*driver, *f, decl),
        Line::Enum(name) => registry.enum_(name),
        Line::Value(enumeration, name, value) => registry.enum_value(enumeration, name, *value),
        Line::Blank => registry.blank(),
    }
}

/// What is kept of an entry.
enum Kept {
    Kind(EntryKind),
    Owner(Option<EntityNo>),
    /// The numbers of the driver, and of the driver for it.
    Asked(u32, u32),
    Mask(u32),
    Name(&'static [u8]),
    ReadOnly,
    /// The first parameter is of the enumeration of that name.
    Takes(&'static [u8]),
}

/// The name of the enumeration that the first parameter of an entry is of.
fn first_enumeration(entry: &Entry) -> Option<&[u8]> {
    match &entry.signature.params.as_slice().first()?.ty {
        TypeRef::Enumeration { name } => Some(name.as_slice()),
        _ => None,
    }
}

fn keeps(entry: &Entry, kept: &Kept) -> bool {
    match kept {
        Kept::Kind(kind) => entry.kind == *kind,
        Kept::Owner(owner) => entry.owner == *owner,
        Kept::Asked(driver, f) => entry.driver == *driver && entry.f == *f,
        Kept::Mask(mask) => entry.mask == Mask(*mask),
        Kept::Name(name) => entry.signature.name.as_slice() == *name,
        Kept::ReadOnly => entry.signature.read_only,
        Kept::Takes(name) => first_enumeration(entry) == Some(*name),
    }
}

/// What a module sees.
enum Seen {
    /// Whether the entry of that number is seen.
    Entry(u32, bool),
    /// So many entries, seen or not.
    Length(usize),
    /// A type by its name.
    Type(&'static [u8], Option<EntityNo>),
    /// An enumeration by its name.
    Enumeration(&'static [u8], Option<EntityNo>),
    /// So many values by that name alone.
    Values(&'static [u8], usize),
    /// So many values of that name in the enumeration of that number.
    Members(u32, &'static [u8], usize),
}

fn is_seen(view: &View, seen: &Seen) -> bool {
    match seen {
        Seen::Entry(number, want) => view.get(EntityNo(*number)).is_some() == *want,
        Seen::Length(count) => view.len() == *count,
        Seen::Type(name, want) => view.find_type(name) == *want,
        Seen::Enumeration(name, want) => view.find_enumeration(name) == *want,
        Seen::Values(name, count) => view.values(name).len() == *count,
        Seen::Members(number, name, count) => {
            view.members(EntityNo(*number), name).len() == *count
        }
    }
}

/// Whether a module of the mask sees that.
fn sees(alloc: Global, registry: &Registry, mask: u32, seen: &Seen) -> bool {
    match registry.seen(alloc, Mask(mask)) {
        Ok(view) => {
            let is_seen = is_seen(&view, seen);
            drop(view);
            is_seen
        }
        Err(_) => false,
    }
}

/// One call, and what it gives.
enum Step {
    /// The line's entry gets this number.
    Number(u32, Line),
    /// The line is taken.
    Taken(Line),
    /// The line is refused.
    Refused(RegError, Line),
    /// Blank entries get the numbers from the first one up to the second one, without it.
    Blanks(u32, u32),
    /// The first one is set as the mask for what is added from here on, and the second one was it.
    Mask(u32, u32),
    /// There are that many entries, and none is of that number.
    Length(u32),
    /// That is kept of the entry of this number.
    Keeps(u32, Kept),
    /// The type of that name has this number.
    Type(&'static [u8], u32),
    /// The enumeration of that name has this number.
    Enumeration(&'static [u8], u32),
    /// Whether a module of that mask finds a function of the name.
    Function(u32, &'static [u8], bool),
    /// What a module of that mask sees.
    Sees(u32, Seen),
}

fn adds_blanks(registry: &mut Registry, from: u32, to: u32) -> bool {
    for number in from..to {
        if registry.blank() != Ok(EntityNo(number)) {
            return false;
        }
    }
    true
}

/// Whether the list is so.
fn is_so(alloc: Global, registry: &Registry, step: &Step) -> bool {
    match step {
        Step::Length(count) => {
            registry.len() == *count as usize && registry.get(EntityNo(*count)).is_none()
        }
        Step::Keeps(number, kept) => match registry.get(EntityNo(*number)) {
            Some(entry) => keeps(entry, kept),
            None => false,
        },
        Step::Type(name, number) => registry.find_type(name) == Some(EntityNo(*number)),
        Step::Enumeration(name, number) => {
            registry.find_enumeration(name) == Some(EntityNo(*number))
        }
        Step::Function(mask, name, want) => {
            registry.find_function(Mask(*mask), name).is_some() == *want
        }
        Step::Sees(mask, seen) => sees(alloc, registry, *mask, seen),
        _ => false,
    }
}

/// Whether a call gives what it has to.
fn gives(alloc: Global, registry: &mut Registry, step: &Step) -> bool {
    match step {
        Step::Number(number, line) => add(registry, line) == Ok(EntityNo(*number)),
        Step::Taken(line) => add(registry, line).is_ok(),
        Step::Refused(why, line) => add(registry, line) == Err(*why),
        Step::Blanks(from, to) => adds_blanks(registry, *from, *to),
        Step::Mask(mask, before) => registry.set_default_mask(Mask(*mask)) == Mask(*before),
        _ => is_so(alloc, registry, step),
    }
}

/// The place of the first call that does not give what it has to.
fn first_wrong(alloc: Global, registry: &mut Registry, steps: &[Step]) -> Option<usize> {
    for (at, step) in steps.iter().enumerate() {
        if !gives(alloc, registry, step) {
            return Some(at);
        }
    }
    None
}

/// Calls over a list that is empty at first: their name, the ones that come first, and the others.
type Case = (&'static str, &'static [Step], &'static [Step]);

/// The number of the list of calls, and the place of the first one in it that does not give what it has to.
fn wrong_in(alloc: Global, registry: &mut Registry, case: &Case) -> Option<(u32, usize)> {
    if let Some(at) = first_wrong(alloc, registry, case.1) {
        return Some((1, at));
    }
    let at = first_wrong(alloc, registry, case.2)?;
    Some((2, at))
}

/// The same over a list that is empty at first.
fn wrong_in_new(alloc: Global, case: &Case) -> Option<(u32, usize)> {
    let mut registry = Registry::new(alloc);
    let wrong = wrong_in(alloc, &mut registry, case);
    drop(registry);
    wrong
}

/// Types `Counter` and `Cell` with their members, functions of three drivers, and two global properties.
const PROFILE: &[Step] = &[
    Step::Number(0, Line::Type(b"Counter", 1)),
    Step::Number(1, Line::Factory(b"Counter", 0, b"Counter@ f()")),
    Step::Number(2, Line::Factory(b"Counter", 1, b"Counter@ f(int)")),
    Step::Number(3, Line::Method(b"Counter", 0, b"void bump()")),
    Step::Number(4, Line::Method(b"Counter", 1, b"int value() const")),
    Step::Number(5, Line::Property(b"Counter", 0, b"int step")),
    Step::Number(6, Line::Type(b"Cell", 2)),
    Step::Number(7, Line::Factory(b"Cell", 0, b"Cell@ f(int)")),
    Step::Number(8, Line::Factory(b"Cell", 1, b"Cell@ f(Cell@+, int)")),
    Step::Number(9, Line::Method(b"Cell", 0, b"int get() const")),
    Step::Number(10, Line::Method(b"Cell", 1, b"void set(int)")),
    Step::Number(11, Line::Function(2, 2, b"Cell@+ pick(Cell@+)")),
    Step::Number(12, Line::Function(0, 0, b"void print(int64)")),
    Step::Number(13, Line::Function(0, 1, b"int64 sum(int64, int64)")),
    Step::Number(14, Line::Function(0, 2, b"void fail(uint)")),
    Step::Number(15, Line::Global(0, 0, b"int64 reg")),
    Step::Number(16, Line::Global(0, 0, b"const int64 limit")),
    Step::Length(17),

    // a method
    Step::Keeps(10, Kept::Kind(EntryKind::Method)),
    Step::Keeps(10, Kept::Owner(Some(EntityNo(6)))),
    Step::Keeps(10, Kept::Asked(2, 1)),
    Step::Keeps(10, Kept::Mask(1)),
    Step::Keeps(10, Kept::Name(b"set")),
    // a global property
    Step::Keeps(16, Kept::Kind(EntryKind::Global)),
    Step::Keeps(16, Kept::Owner(None)),
    Step::Keeps(16, Kept::ReadOnly),
];

/// Calls over the whole profile.
const OVER_PROFILE: &[Step] = &[
    Step::Refused(RegError::BadDeclaration, Line::Type(b"1x", 64)),
    Step::Refused(RegError::BadDeclaration, Line::Type(b"int", 3)),
    Step::Refused(
        RegError::BadDeclaration,
        Line::Factory(b"Row", 0, b"Cell@ f()"),
    ),
    Step::Refused(
        RegError::BadDeclaration,
        Line::Function(0, 0, b"void f(Cell, Row@+)"),
    ),
    Step::Refused(RegError::UnknownType, Line::Factory(b"Row", 0, b"Row@ f()")),
    Step::Refused(
        RegError::UnknownType,
        Line::Function(0, 0, b"void f(Cell@+, Row@+)"),
    ),
    Step::Refused(RegError::WrongDriver, Line::Type(b"Cell", 2)),
    Step::Refused(RegError::WrongDriver, Line::Type(b"Row", 64)),
    Step::Refused(
        RegError::WrongDriver,
        Line::Method(b"Counter", 0, b"const Cell@+ c()"),
    ),
    Step::Refused(RegError::Duplicate, Line::Type(b"limit", 63)),
    Step::Refused(RegError::Duplicate, Line::Function(0, 0, b"void Cell(int)")),
    Step::Refused(
        RegError::Duplicate,
        Line::Function(0, 0, b"int print(int64 x)"),
    ),
    Step::Refused(RegError::Duplicate, Line::Global(0, 0, b"bool sum")),
    Step::Refused(
        RegError::Duplicate,
        Line::Factory(b"Counter", 9, b"Counter@ g(int)"),
    ),
    Step::Refused(
        RegError::Duplicate,
        Line::Method(b"Counter", 9, b"int64 value() const"),
    ),
    Step::Refused(
        RegError::Duplicate,
        Line::Method(b"Counter", 9, b"void step(int)"),
    ),
    Step::Refused(
        RegError::Duplicate,
        Line::Property(b"Counter", 9, b"int bump"),
    ),
    Step::Length(17),
    Step::Taken(Line::Function(0, 0, b"void print(int)")),
    Step::Taken(Line::Function(2, 0, b"void pick(const Cell@+)")),
    Step::Taken(Line::Method(b"Counter", 0, b"int value()")),
    Step::Taken(Line::Property(b"Counter", 0, b"int f")),
    Step::Taken(Line::Method(b"Cell", 0, b"void bump()")),
];

/// An enumeration of two values, a function that takes one, and a type.
const COLORS: &[Step] = &[
    Step::Number(0, Line::Enum(b"Color")),
    Step::Number(1, Line::Value(b"Color", b"RED", 1)),
    Step::Number(2, Line::Value(b"Color", b"BLUE", -2)),
    Step::Number(3, Line::Function(0, 0, b"void paint(Color)")),
    Step::Number(4, Line::Type(b"Cell", 2)),
];

/// Calls over these.
const OVER_COLORS: &[Step] = &[
    Step::Refused(RegError::UnknownType, Line::Value(b"Colour", b"RED", 1)),
    Step::Refused(RegError::UnknownType, Line::Value(b"Cell", b"RED", 1)),
    Step::Refused(RegError::BadDeclaration, Line::Value(b"Colour", b"1x", 1)),
    Step::Refused(RegError::BadDeclaration, Line::Value(b"Color", b"int", 1)),
    Step::Refused(RegError::Duplicate, Line::Value(b"Color", b"RED", 3)),
    Step::Refused(RegError::BadDeclaration, Line::Enum(b"")),
    Step::Refused(RegError::BadDeclaration, Line::Enum(b"enum Color")),
    Step::Refused(RegError::Duplicate, Line::Enum(b"Color")),
    Step::Refused(RegError::Duplicate, Line::Enum(b"paint")),
    Step::Refused(RegError::Duplicate, Line::Enum(b"Cell")),
    Step::Refused(RegError::Duplicate, Line::Type(b"Color", 3)),
    Step::Refused(RegError::Duplicate, Line::Global(0, 0, b"int Color")),
    Step::Refused(
        RegError::Duplicate,
        Line::Function(0, 0, b"void Color(int)"),
    ),
    Step::Refused(
        RegError::Duplicate,
        Line::Function(0, 0, b"int paint(Color c)"),
    ),
    Step::Refused(
        RegError::BadDeclaration,
        Line::Function(0, 0, b"void f(Cell)"),
    ),
    Step::Refused(
        RegError::BadDeclaration,
        Line::Function(0, 0, b"void f(Nope, Cell)"),
    ),
    Step::Refused(
        RegError::BadDeclaration,
        Line::Function(0, 0, b"void f(Color@+)"),
    ),
    Step::Refused(
        RegError::BadDeclaration,
        Line::Function(0, 0, b"const Color f()"),
    ),
    Step::Refused(
        RegError::BadDeclaration,
        Line::Global(0, 0, b"const Cell c"),
    ),
    Step::Refused(RegError::UnknownType, Line::Function(0, 0, b"void f(Nope)")),
    Step::Refused(RegError::UnknownType, Line::Global(0, 0, b"Nope n")),
    Step::Refused(
        RegError::UnknownType,
        Line::Method(b"Color", 0, b"void f()"),
    ),
    Step::Refused(RegError::UnknownType, Line::Property(b"Color", 0, b"int f")),
    Step::Refused(
        RegError::BadDeclaration,
        Line::Factory(b"Color", 0, b"Color@ f()"),
    ),
    Step::Length(5),
    Step::Number(5, Line::Function(0, 1, b"void paint(int)")),
    Step::Number(6, Line::Function(0, 2, b"Color mixed(Color, Color)")),
    Step::Number(7, Line::Global(0, 0, b"Color tint")),
    Step::Number(8, Line::Global(0, 0, b"const Color base")),
    Step::Number(9, Line::Factory(b"Cell", 0, b"Cell@ f(Color)")),
    Step::Number(10, Line::Method(b"Cell", 0, b"Color color() const")),
    Step::Number(11, Line::Function(0, 3, b"void RED()")),
    Step::Number(12, Line::Enum(b"Light")),
    Step::Number(13, Line::Value(b"Light", b"RED", 2147483647)),
    Step::Mask(0, 1),
    Step::Refused(RegError::EmptyMask, Line::Enum(b"int")),
    Step::Number(14, Line::Value(b"Color", b"Cell", -2147483648)),

    // a value, which has the mask of its enumeration, whatever the default one was
    Step::Keeps(14, Kept::Kind(EntryKind::EnumValue(-2147483648))),
    Step::Keeps(14, Kept::Owner(Some(EntityNo(0)))),
    Step::Keeps(14, Kept::Mask(1)),
    // a parameter
    Step::Keeps(3, Kept::Takes(b"Color")),
];

/// An enumeration for one mask, its value under another default mask, and a function for both that takes one: what names
/// a hidden enumeration is hidden.
const HIDDEN_COLORS: &[Step] = &[
    Step::Number(0, Line::Enum(b"Color")),
    Step::Mask(2, 1),
    Step::Number(1, Line::Value(b"Color", b"RED", 1)),
    Step::Mask(3, 2),
    Step::Number(2, Line::Function(0, 0, b"void paint(Color)")),
    Step::Enumeration(b"Color", 0),
    Step::Sees(1, Seen::Entry(0, true)),
    Step::Sees(2, Seen::Entry(0, false)),
    Step::Sees(1, Seen::Entry(1, true)),
    Step::Sees(2, Seen::Entry(1, false)),
    Step::Sees(1, Seen::Entry(2, true)),
    Step::Sees(2, Seen::Entry(2, false)),
];

const MOST: &[u8] = b"void f(int,int,int,int,int,int,int,int,int,int,int,int,int,int,int,int,\
    int,int,int,int,int,int,int,int,int,int,int,int,int,int,int,int)";

const MORE: &[u8] = b"void g(int,int,int,int,int,int,int,int,int,int,int,int,int,int,int,int,\
    int,int,int,int,int,int,int,int,int,int,int,int,int,int,int,int,int)";

/// A function of the most parameters, and as many entries as there may be. Limits go first.
const LIMITS: &[Step] = &[
    Step::Number(0, Line::Function(0, 0, MOST)),
    Step::Mask(0, 1),
    Step::Refused(RegError::Limit, Line::Function(64, 0, MORE)),
    Step::Refused(RegError::EmptyMask, Line::Function(64, 0, MOST)),
    Step::Blanks(1, 1024),
    Step::Refused(RegError::Limit, Line::Blank),
    Step::Refused(RegError::Limit, Line::Type(b"1x", 64)),
    Step::Refused(RegError::Limit, Line::Enum(b"1x")),
    Step::Refused(RegError::Limit, Line::Value(b"Color", b"1x", 1)),
    Step::Length(1024),
];

/// A type for one mask, and for two masks what names it, and last a function that does not: what names a hidden type is
/// hidden.
const NAMING: &[Step] = &[
    Step::Number(0, Line::Type(b"Cell", 2)),
    Step::Mask(3, 1),
    Step::Number(1, Line::Function(2, 2, b"Cell@+ made()")),
    Step::Number(2, Line::Function(2, 2, b"void take(const Cell@+)")),
    Step::Number(3, Line::Factory(b"Cell", 0, b"Cell@ f(int)")),
    Step::Number(4, Line::Method(b"Cell", 0, b"int get() const")),
    Step::Number(5, Line::Property(b"Cell", 0, b"int size")),
    Step::Number(6, Line::Function(2, 2, b"void plain(int)")),
    Step::Type(b"Cell", 0),
    Step::Sees(1, Seen::Length(7)),
    Step::Sees(1, Seen::Type(b"Cell", Some(EntityNo(0)))),
    Step::Sees(2, Seen::Length(7)),
    Step::Sees(2, Seen::Type(b"Cell", None)),
    Step::Sees(1, Seen::Entry(0, true)),
    Step::Sees(2, Seen::Entry(0, false)),
    Step::Sees(1, Seen::Entry(1, true)),
    Step::Sees(2, Seen::Entry(1, false)),
    Step::Sees(1, Seen::Entry(2, true)),
    Step::Sees(2, Seen::Entry(2, false)),
    Step::Sees(1, Seen::Entry(3, true)),
    Step::Sees(2, Seen::Entry(3, false)),
    Step::Sees(1, Seen::Entry(4, true)),
    Step::Sees(2, Seen::Entry(4, false)),
    Step::Sees(1, Seen::Entry(5, true)),
    Step::Sees(2, Seen::Entry(5, false)),
    Step::Sees(1, Seen::Entry(6, true)),
    Step::Sees(2, Seen::Entry(6, true)),
];

const PRINT_ONE: &[Step] = &[
    Step::Mask(0x0000_0001, 1),
    Step::Number(0, Line::Function(0, 0, b"void print(int)")),
    Step::Sees(0x0000_0001, Seen::Entry(0, true)),
    Step::Function(0x0000_0001, b"print", true),
    Step::Sees(0x0000_0002, Seen::Entry(0, false)),
    Step::Function(0x0000_0002, b"print", false),
    Step::Sees(0x0000_0000, Seen::Entry(0, false)),
    Step::Function(0x0000_0000, b"print", false),
];

const PRINT_LAST: &[Step] = &[
    Step::Mask(0x8000_0000, 1),
    Step::Number(0, Line::Function(0, 0, b"void print(int)")),
    Step::Sees(0x8000_0000, Seen::Entry(0, true)),
    Step::Function(0x8000_0000, b"print", true),
];

const PRINT_TWO: &[Step] = &[
    Step::Mask(0x0000_0003, 1),
    Step::Number(0, Line::Function(0, 0, b"void print(int)")),
    Step::Sees(0x0000_0002, Seen::Entry(0, true)),
    Step::Function(0x0000_0002, b"print", true),
];

/// `Color` of entry 0 for the first bit with `RED` and `BLUE`, and `Light` of entry 3 for the second one with `RED`, as
/// modules of different masks find them by name.
const VALUES: &[Step] = &[
    Step::Number(0, Line::Enum(b"Color")),
    Step::Number(1, Line::Value(b"Color", b"RED", 1)),
    Step::Number(2, Line::Value(b"Color", b"BLUE", -2)),
    Step::Mask(2, 1),
    Step::Number(3, Line::Enum(b"Light")),
    Step::Number(4, Line::Value(b"Light", b"RED", 5)),
    Step::Sees(0, Seen::Values(b"RED", 0)),
    Step::Sees(0, Seen::Members(0, b"RED", 0)),
    Step::Sees(0, Seen::Members(3, b"RED", 0)),
    Step::Sees(0, Seen::Enumeration(b"Light", None)),
    Step::Sees(1, Seen::Values(b"RED", 1)),
    Step::Sees(1, Seen::Members(0, b"RED", 1)),
    Step::Sees(1, Seen::Members(3, b"RED", 0)),
    Step::Sees(1, Seen::Enumeration(b"Light", None)),
    Step::Sees(2, Seen::Values(b"RED", 1)),
    Step::Sees(2, Seen::Members(0, b"RED", 0)),
    Step::Sees(2, Seen::Members(3, b"RED", 1)),
    Step::Sees(2, Seen::Enumeration(b"Light", Some(EntityNo(3)))),
    Step::Sees(3, Seen::Values(b"RED", 2)),
    Step::Sees(3, Seen::Members(0, b"RED", 1)),
    Step::Sees(3, Seen::Members(3, b"RED", 1)),
    Step::Sees(3, Seen::Enumeration(b"Light", Some(EntityNo(3)))),
];

const NONE: &[Step] = &[];

const PROFILE_CASES: &[Case] = &[("over a whole profile", PROFILE, OVER_PROFILE)];

const ENUMERATION_CASES: &[Case] = &[("over an enumeration", COLORS, OVER_COLORS)];

const MASK_CASES: &[Case] = &[
    (
        "a hidden name is taken too",
        NONE,
        &[
            Step::Number(0, Line::Function(0, 0, b"void p(int)")),
            Step::Mask(2, 1),
            Step::Refused(RegError::Duplicate, Line::Function(0, 0, b"void p(int)")),
        ],
    ),
    (
        "an empty mask",
        NONE,
        &[
            Step::Mask(0, 1),
            Step::Refused(RegError::EmptyMask, Line::Function(0, 0, b"void p()")),
            Step::Number(0, Line::Blank),
        ],
    ),
    ("the first bit alone", PRINT_ONE, NONE),
    ("the last bit alone", PRINT_LAST, NONE),
    ("two bits", PRINT_TWO, NONE),
    ("a hidden enumeration", HIDDEN_COLORS, NONE),
    ("a hidden type", NAMING, NONE),
];

const OTHER_CASES: &[Case] = &[
    (
        "a type that is not there",
        NONE,
        &[Step::Refused(
            RegError::UnknownType,
            Line::Method(b"Cell", 0, b"int get()"),
        )],
    ),
    (
        "a type of another driver",
        NONE,
        &[
            Step::Number(0, Line::Type(b"Cell", 2)),
            Step::Refused(
                RegError::WrongDriver,
                Line::Function(0, 0, b"void take(Cell@+)"),
            ),
        ],
    ),
    ("limits", LIMITS, NONE),
    ("values by name", VALUES, NONE),
];

// (one test a list, since all the lists of one function are proved as one)
#[test]
fn a_profile_is_taken_and_refused(rt: HostRuntime) {
    for case in PROFILE_CASES {
        assert_eq!(rt; wrong_in_new(rt.alloc(), case), None, "{}", case.0);
    }
}

#[test]
fn enumerations_are_taken_and_refused(rt: HostRuntime) {
    for case in ENUMERATION_CASES {
        assert_eq!(rt; wrong_in_new(rt.alloc(), case), None, "{}", case.0);
    }
}

#[test]
fn masks_are_taken_and_refused(rt: HostRuntime) {
    for case in MASK_CASES {
        assert_eq!(rt; wrong_in_new(rt.alloc(), case), None, "{}", case.0);
    }
}

#[test]
fn other_entries_are_taken_and_refused(rt: HostRuntime) {
    for case in OTHER_CASES {
        assert_eq!(rt; wrong_in_new(rt.alloc(), case), None, "{}", case.0);
    }
}

// Run with each growth of memory refused in turn, a call may find none, and the next one does.
fn adds_again(registry: &mut Registry) -> bool {
    if registry.function(0, 0, b"void print(int)") == Err(RegError::Memory) {
        registry.len() == 0 && registry.function(0, 0, b"void print(int)") == Ok(EntityNo(0))
    } else {
        true
    }
}

/// Whether a module of the first mask sees the first entry.
fn sees_first(alloc: Global, registry: &Registry) -> Result<bool, AllocError> {
    let view = registry.seen(alloc, Mask(1))?;
    let is_seen = view.get(EntityNo(0)).is_some();
    drop(view);
    Ok(is_seen)
}

fn sees_again(alloc: Global, registry: &Registry) -> Result<bool, AllocError> {
    match sees_first(alloc, registry) {
        Ok(is_seen) => Ok(is_seen),
        Err(_) => sees_first(alloc, registry),
    }
}

/// Whether an entry is added, how many there are then, and whether it is seen.
fn added_at_last(alloc: Global) -> Result<(bool, usize, bool), AllocError> {
    let mut registry = Registry::new(alloc);
    let is_added = adds_again(&mut registry);
    let count = registry.len();
    let is_seen = sees_again(alloc, &registry);
    drop(registry);
    Ok((is_added, count, is_seen?))
}

#[test]
fn a_refused_growth_changes_nothing(rt: HostRuntime) -> Result<(), AllocError> {
    assert_eq!(rt; added_at_last(rt.alloc())?, (true, 1, true));
    Ok(())
}
