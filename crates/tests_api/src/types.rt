use ang_kinds::{List, Pass, Prim};
use ang_types::{ArgType, Candidate, Lineage, Pick, common, rank, resolve};
use std::alloc::{AllocError, Global};

// interfaces and classes by number: `class Base : Shape {}`, `class Derived : Base {}`, and one apart
const SHAPE: u32 = 0;

const BASE: u32 = 1;

const DERIVED: u32 = 2;

const APART: u32 = 3;

const INT: ArgType = ArgType::Plain(Prim::I32);

const INT64: ArgType = ArgType::Plain(Prim::I64);

const BOOL: ArgType = ArgType::Plain(Prim::Bool);

// two enumerations by number
const COLOR: ArgType = ArgType::Enumeration { number: 4 };

const SIDE: ArgType = ArgType::Enumeration { number: 5 };

const BASE_OBJECT: ArgType = ArgType::Object {
    number: BASE,
    read_only: false,
};

const CONST_BASE_OBJECT: ArgType = ArgType::Object {
    number: BASE,
    read_only: true,
};

const DERIVED_OBJECT: ArgType = ArgType::Object {
    number: DERIVED,
    read_only: false,
};

const SHAPE_HANDLE: ArgType = ArgType::Handle {
    number: SHAPE,
    read_only: false,
};

const CONST_SHAPE_HANDLE: ArgType = ArgType::Handle {
    number: SHAPE,
    read_only: true,
};

const BASE_HANDLE: ArgType = ArgType::Handle {
    number: BASE,
    read_only: false,
};

const CONST_BASE_HANDLE: ArgType = ArgType::Handle {
    number: BASE,
    read_only: true,
};

const DERIVED_HANDLE: ArgType = ArgType::Handle {
    number: DERIVED,
    read_only: false,
};

const CONST_DERIVED_HANDLE: ArgType = ArgType::Handle {
    number: DERIVED,
    read_only: true,
};

const APART_HANDLE: ArgType = ArgType::Handle {
    number: APART,
    read_only: false,
};

/// What each of them derives from.
const LINES: &[&[u32]] = &[&[], &[SHAPE], &[BASE, SHAPE], &[]];

fn lineage(alloc: Global) -> Result<Lineage, AllocError> {
    let mut lines = Vec::with_capacity(alloc, 4)?;
    for line in LINES {
        lines.push(Vec::from_slice(alloc, line)?)?;
    }
    Lineage::new(alloc, lines)
}

/// Two types of integers, and their common one.
const COMMON: &[(Prim, Prim, Prim)] = &[
    (Prim::I8, Prim::I8, Prim::I32),
    (Prim::U8, Prim::U16, Prim::U32),
    (Prim::I8, Prim::U8, Prim::U32),
    (Prim::I32, Prim::U32, Prim::U32),
    (Prim::U32, Prim::I64, Prim::I64),
    (Prim::I16, Prim::U64, Prim::U64),
    (Prim::U64, Prim::I64, Prim::U64),
];

#[test]
fn integers_meet_in_their_common_type(rt: HostRuntime) {
    for (one, other, want) in COMMON {
        assert!(rt; common(*one, *other) == *want, "{one:?} and {other:?}");
    }
}

/// From which type to which one, and the rank.
const RANKS: &[(ArgType, ArgType, Option<u8>)] = &[
    (INT, INT, Some(0)),
    (BOOL, BOOL, Some(0)),
    (INT, INT64, Some(2)),
    (ArgType::Plain(Prim::U8), ArgType::Plain(Prim::U16), Some(2)),
    (INT64, INT, Some(3)),
    (INT, ArgType::Plain(Prim::U64), Some(3)),
    (ArgType::Plain(Prim::U32), INT, Some(3)),
    (BOOL, INT, None),
    (INT, BOOL, None),
    (ArgType::Null, BASE_HANDLE, Some(1)),
    (ArgType::Null, CONST_BASE_HANDLE, Some(1)),
    (ArgType::Null, BASE_OBJECT, None),
    (ArgType::Null, INT, None),
    (ArgType::Void, INT, None),
    (BASE_OBJECT, BASE_OBJECT, Some(0)),
    (BASE_OBJECT, CONST_BASE_OBJECT, Some(1)),
    (BASE_OBJECT, BASE_HANDLE, Some(1)),
    (BASE_HANDLE, BASE_OBJECT, Some(1)),
    (BASE_HANDLE, CONST_BASE_HANDLE, Some(1)),
    (CONST_BASE_HANDLE, BASE_HANDLE, None),
    (CONST_BASE_OBJECT, BASE_HANDLE, None),
    (DERIVED_HANDLE, BASE_HANDLE, Some(4)),
    (DERIVED_OBJECT, CONST_SHAPE_HANDLE, Some(4)),
    (BASE_HANDLE, DERIVED_HANDLE, None),
    (CONST_DERIVED_HANDLE, BASE_HANDLE, None),
    (APART_HANDLE, BASE_HANDLE, None),
    (APART_HANDLE, INT, None),
    (COLOR, COLOR, Some(0)),
    (COLOR, INT, Some(2)),
    (COLOR, INT64, Some(3)),
    (COLOR, ArgType::Plain(Prim::I8), Some(3)),
    (COLOR, ArgType::Plain(Prim::U32), Some(3)),
    (COLOR, BOOL, None),
    (COLOR, SIDE, None),
    (SIDE, COLOR, None),
    (INT, COLOR, None),
    (ArgType::Null, COLOR, None),
];

/// The place of the first conversion that has another rank.
fn first_wrong_rank(lineage: &Lineage) -> Option<usize> {
    for (at, (from, to, want)) in RANKS.iter().enumerate() {
        if rank(lineage, *from, *to) != *want {
            return Some(at);
        }
    }
    None
}

fn wrong_rank(alloc: Global) -> Result<Option<usize>, AllocError> {
    let lineage = lineage(alloc)?;
    Ok(first_wrong_rank(&lineage))
}

#[test]
fn conversions_have_their_ranks(rt: HostRuntime) -> Result<(), AllocError> {
    assert_eq!(rt; wrong_rank(rt.alloc())?, None);
    Ok(())
}

/// Functions by their parameters.
type Functions = &'static [&'static [(ArgType, Pass)]];

/// `put(int64)` and `put(int)`, with a literal that is an `int`
const PUT: Functions = &[&[(INT64, Pass::Value)], &[(INT, Pass::Value)]];

const FIRST_PUT: Functions = &[&[(INT64, Pass::Value)]];

/// `f(int64, int)` and `f(int, int64)`
const CROSSED: Functions = &[
    &[(INT64, Pass::Value), (INT, Pass::Value)],
    &[(INT, Pass::Value), (INT64, Pass::Value)],
];

/// A third that is better than both makes it clear.
const CLEAR: Functions = &[
    &[(INT64, Pass::Value), (INT, Pass::Value)],
    &[(INT, Pass::Value), (INT64, Pass::Value)],
    &[(INT, Pass::Value), (INT, Pass::Value)],
];

/// What comes out converts to the variable.
const GETS: Functions = &[
    &[(DERIVED_HANDLE, Pass::RefOut)],
    &[(SHAPE_HANDLE, Pass::RefOut)],
];

/// An object argument: a handle and a `const` object cost the same.
const TAKES: Functions = &[
    &[(BASE_HANDLE, Pass::Value)],
    &[(CONST_BASE_OBJECT, Pass::RefIn)],
];

/// A name, the functions of that name, the types of the arguments, and what is picked.
type Choice = (&'static str, Functions, &'static [ArgType], Pick);

const CHOICES: &[Choice] = &[
    ("put(int)", PUT, &[INT], Pick::One(1)),
    ("put(int) of one", FIRST_PUT, &[INT], Pick::One(0)),
    ("f(int, int)", CROSSED, &[INT, INT], Pick::Ambiguous),
    ("f(int64, int)", CROSSED, &[INT64, INT], Pick::One(0)),
    ("f(int, bool)", CROSSED, &[INT, BOOL], Pick::NoViable),
    ("f(int)", CROSSED, &[INT], Pick::NoViable),
    ("of none", &[], &[], Pick::NoViable),
    ("put(color)", PUT, &[COLOR], Pick::One(1)),
    ("f(color, int)", CROSSED, &[COLOR, INT], Pick::Ambiguous),
    ("f(int, int) of three", CLEAR, &[INT, INT], Pick::One(2)),
    // what comes out converts to the variable
    ("get(base)", GETS, &[BASE_HANDLE], Pick::One(0)),
    ("get(shape)", GETS, &[SHAPE_HANDLE], Pick::One(1)),
    ("get(apart)", GETS, &[APART_HANDLE], Pick::NoViable),
    ("take(object)", TAKES, &[BASE_OBJECT], Pick::Ambiguous),
    ("take(handle)", TAKES, &[BASE_HANDLE], Pick::One(0)),
];

fn candidates(alloc: Global, functions: Functions) -> Result<Vec<Candidate>, AllocError> {
    let mut candidates = Vec::new(alloc);
    for params in functions {
        let params = List::from_vec(Vec::from_slice(alloc, params)?);
        candidates.push(Candidate { params })?;
    }
    Ok(candidates)
}

/// What is picked among these functions.
fn picked(alloc: Global, functions: Functions, args: &[ArgType]) -> Result<Pick, AllocError> {
    let candidates = candidates(alloc, functions)?;
    let lineage = lineage(alloc)?;
    Ok(resolve(&lineage, &candidates, args))
}

#[test]
fn the_best_candidate_is_picked(rt: HostRuntime) -> Result<(), AllocError> {
    for (name, functions, args, want) in CHOICES {
        assert!(rt; picked(rt.alloc(), functions, args)? == *want, "{name}");
    }
    Ok(())
}
