//! Small functions as resolved trees, and the core trees that docs/CLAIMS.md ("From a script to the core tree") gives
//! them.
use crate::shown::is_shown;
use crate::written::One::{Cast, Complement, Convert, Naming, Negate, Not};
use crate::written::Step::{
    Ask, Assign, At, Begin, Block, Break, Call, Change, Choose, Continue, Count, Declare,
    DeclareTwo, DoWhile, Evaluate, For, If, Local, Make, Nothing, Null, Number, Of, One, Out, Read,
    Return, Truth, Two, Value, While,
};
use crate::written::Two::{And, Compare, Operate, Or, Same};
use crate::written::{INT, Step, Written, module};
use ang_core::CoreBody;
use ang_kinds::{Comparison, EntityNo, Operator, Pass, Prim};
use ang_lower::lower;
use ang_typed::{HostEntity, StepKind, TypedCallee, TypedMember, TypedParameter, TypedVariable};
use ang_types::ArgType;
use std::alloc::{AllocError, Global};

// ---- what they come to

/// The place of the first body that has another text, or that one of the two lists lacks.
fn first_unlike(
    alloc: Global,
    bodies: &[CoreBody],
    texts: &[&str],
) -> Result<Option<usize>, AllocError> {
    for (at, body) in bodies.iter().enumerate() {
        match texts.get(at) {
            Some(text) if is_shown(alloc, body, text)? => {}
            _ => return Ok(Some(at)),
        }
    }
    Ok((bodies.len() < texts.len()).then_some(bodies.len()))
}

fn bodies_of(alloc: Global, written: &Written) -> Result<Vec<CoreBody>, AllocError> {
    let module = module(alloc, written)?;
    let bodies = lower(alloc, &module);
    drop(module);
    bodies
}

/// The place of the first body of a module that has another text than it has to.
fn first_wrong(alloc: Global, row: &Row) -> Result<Option<usize>, AllocError> {
    let bodies = bodies_of(alloc, &row.1)?;
    first_unlike(alloc, bodies.as_slice(), row.2)
}

/// A module, and the texts of its bodies.
type Row = (&'static str, Written, &'static [&'static str]);

#[test]
fn modules_are_lowered(rt: HostRuntime) -> Result<(), AllocError> {
    for row in ROWS {
        assert_eq!(rt; first_wrong(rt.alloc(), row)?, None, "{}", row.0);
    }
    Ok(())
}

// ---- functions

const IN: TypedParameter = TypedParameter {
    ty: INT,
    pass: Pass::Value,
};

const OUT: TypedParameter = TypedParameter {
    ty: INT,
    pass: Pass::RefOut,
};

const NOTHING: Written = Written {
    parameters: &[],
    result: INT,
    statements: &[],
    positions: &[],
    globals: &[],
};

/// `int f(int a, int &out b) { int c = a + 1; b = c; return c; }`
const COUNTING: Written = Written {
    parameters: &[IN, OUT],
    statements: list! {
        Local(0), Number(1), Two(Operate(Operator::Add)), Declare,
        Local(2), At(TypedVariable::Local(1)), Assign, Evaluate,
        Local(2), Return,
    },
    ..NOTHING
};

const COUNTED: &str = "[Out, In] { declare (Binary(Add, I32)) l1 1; (l1 =) l0; return l0; }";

/// `int f(int n) { for (int i = 0; i < n; ++i) { if (i == n) continue; else break; } while (true) { n--; } do ; while (false); }`
const LOOPING: Written = Written {
    parameters: &[IN],
    statements: list! {
        Begin, Number(0), Declare,
        Local(1), Local(0), Two(Compare(Comparison::Less)),
        At(TypedVariable::Local(1)), Count(StepKind::IncrementBefore),
        Begin, Local(1), Local(0), Two(Compare(Comparison::Equal)), Begin, Continue, Begin, Break, If,
        For,
        Truth(true), Begin, At(TypedVariable::Local(0)), Count(StepKind::DecrementAfter), Evaluate, While,
        Begin, Nothing, Truth(false), DoWhile,
    },
    ..NOTHING
};

const LOOPED: &str = "[In] { { declare 0; while (Compare(Less, true)) l0 l1;\
    { if (Compare(Equal, true)) l0 l1;{ continue; }{ break; } }\
    { (l0 Update { operator: Add, at: I32, to: I32, old: false }) 1; } } \
    while 1;{ (l0 Update { operator: Subtract, at: I32, to: I32, old: true }) 1; }skip; \
    do while 0;{ skip; } }";

/// `put`, which is entity 17
const PUT: HostEntity = HostEntity {
    entity: EntityNo(17),
    driver: 0,
    f: 5,
};

const CALL: Step = Call(TypedCallee::Own(0));

const OUT_LOCAL: Step = Out(TypedVariable::Local(0), INT, INT);

/// `int f() { int a, b; return f(a, g) + put(1); }`, where both parameters of f are `&out`, the second one for a global
/// of the number 4, which is of the type `int8`.
const CALLING: Written = Written {
    statements: list! {
        DeclareTwo,
        OUT_LOCAL, Out(TypedVariable::Global(4), INT, ArgType::Plain(Prim::I8)), CALL,
        Number(1), Value, Ask(PUT), Two(Operate(Operator::Add)), Return,
    },
    ..NOTHING
};

/// The last target comes first.
const CALLED: &str = "[] { declare 0; declare 0; return (Binary(Add, I32)) (Own(0) [\
    Target { spot: Global(4), to: Some(I8) }, Target { spot: Local(1), to: Some(I32) }]) 0 0 \
    (Ask(EntityNo(17))) 1; }";

/// The same where the global is of an enumeration.
const CALLING_FOR_ENUMERATION: Written = Written {
    statements: list! {
        DeclareTwo,
        OUT_LOCAL, Out(TypedVariable::Global(4), INT, ArgType::Enumeration { number: 3 }), CALL,
        Number(1), Value, Ask(PUT), Two(Operate(Operator::Add)), Return,
    },
    ..NOTHING
};

/// A variable of an enumeration takes an `int`.
const CALLED_FOR_ENUMERATION: &str =
    "[] { declare 0; declare 0; return (Binary(Add, I32)) (Own(0) [\
    Target { spot: Global(4), to: Some(I32) }, Target { spot: Local(1), to: Some(I32) }]) 0 0 \
    (Ask(EntityNo(17))) 1; }";

/// The property p.
const P: TypedVariable = TypedVariable::Property(HostEntity {
    entity: EntityNo(13),
    driver: 2,
    f: 0,
});

/// The property q.
const Q: TypedVariable = TypedVariable::Property(HostEntity {
    entity: EntityNo(14),
    driver: 2,
    f: 0,
});

/// `{ p = g; g ^= !(1 > 2 && true || false) ? -1 : ~q; }` of a global g of the number 2, the operator in `int64`. (The
/// types do not fit: the lowering does not look at them.)
const CHOOSING: Written = Written {
    statements: list! {
        Begin,
        At(TypedVariable::Global(2)), Read, At(P), Assign, Evaluate,
        Number(1), Number(2), Two(Compare(Comparison::Greater)), Truth(true), Two(And),
        Truth(false), Two(Or), One(Not),
        Number(1), One(Negate(Prim::I64)),
        At(Q), Read, One(Complement(Prim::I64)),
        Choose, At(TypedVariable::Global(2)), Change(Prim::U8, Operator::BitXor, Prim::I64), Evaluate,
        Block,
    },
    ..NOTHING
};

const CHOSEN: &str = "[] { { (Write(EntityNo(13))) (GlobalGet(2)); \
    (GlobalChange(2, Update { operator: BitXor, at: I64, to: U8, old: false })) \
    [(Not) [[(Compare(Greater, true)) 1 2 ? 1 : 0] ? 1 : 0] ? 18446744073709551615 : \
    (Complement(I64)) (Read(EntityNo(14)))]; } }";

/// `{ uint8(300); int8(200); int64(int8(200)); uint64(int8(p)); ~0; !true; }` of a local p, `~` in `uint16`.
const LITERALS: Written = Written {
    parameters: &[IN],
    statements: list! {
        Number(300), One(Convert(Prim::U8)), Evaluate,
        Number(200), One(Convert(Prim::I8)), Evaluate,
        Number(200), One(Convert(Prim::I8)), One(Convert(Prim::I64)), Evaluate,
        Local(0), One(Convert(Prim::I8)), One(Convert(Prim::U64)), Evaluate,
        Number(0), One(Complement(Prim::U16)), Evaluate,
        Truth(true), One(Not), Evaluate,
    },
    ..NOTHING
};

/// Operations on literals are done.
const NUMBERS: &str = "[In] { 44; 18446744073709551560; 18446744073709551560; \
    (Convert(U64)) (Convert(I8)) l0; 65535; 0; }";

/// `{ uint8(V); cast<T>(a); }` of a value V of an enumeration, which is 300 and entity 6, of a host type T, which is
/// entity 2, and of a parameter a. An entry that is named leaves no trace.
const NAMES: Written = Written {
    parameters: &[IN],
    statements: list! {
        Number(300), One(Naming(6)), One(Convert(Prim::U8)), Evaluate,
        Local(0), One(Naming(2)), Evaluate,
    },
    ..NOTHING
};

/// `int a; int b = 5; int c = b + 1;` and a function without statements.
const INITIALIZING: Written = Written {
    globals: list! {
        &[],
        &[Number(5)],
        &[At(TypedVariable::Global(1)), Read, Number(1), Two(Operate(Operator::Add))],
    },
    ..NOTHING
};

/// Initializers follow the functions.
const INITIALIZED: &[&str] = &[
    "[] { }",
    "[] (GlobalSet(1)) 5;",
    "[] (GlobalSet(2)) (Binary(Add, I32)) (GlobalGet(1)) 1;",
];

/// `int f(int a) { return b; }` of a local b that is not alive, which has place 0
const DEAD: Written = Written {
    parameters: &[IN],
    statements: list! { Local(1), Return },
    ..NOTHING
};

// ---- methods

/// A receiver of a script's class, which is never null, and a parameter `T@ o`: `this` is local 0 and o is local 1.
const RECEIVER_AND_O: &[TypedParameter] = &[
    TypedParameter {
        ty: ArgType::Object {
            number: 1024,
            read_only: false,
        },
        pass: Pass::RefInOut,
    },
    TypedParameter {
        ty: HANDLE,
        pass: Pass::Value,
    },
];

const HANDLE: ArgType = ArgType::Handle {
    number: 1024,
    read_only: false,
};

/// `.a`, which is field 2
const FIELD: Step = Of(TypedMember::Field(2));

/// `.p`, which is entity 21
const PROPERTY: Step = Of(TypedMember::Property(HostEntity {
    entity: EntityNo(21),
    driver: 0,
    f: 3,
}));

/// `o.a = 1; o.p = 2; o.a += 3; o.p++; return o.a;`
const CHANGING: Written = Written {
    parameters: RECEIVER_AND_O,
    statements: list! {
        Number(1), Local(1), FIELD, Assign, Evaluate,
        Number(2), Local(1), PROPERTY, Assign, Evaluate,
        Number(3), Local(1), FIELD, Change(Prim::I32, Operator::Add, Prim::I32), Evaluate,
        Local(1), PROPERTY, Count(StepKind::IncrementAfter), Evaluate,
        Local(1), FIELD, Read, Return,
    },
    ..NOTHING
};

/// A member's object comes after the value.
const CHANGED: &str = "[In, Object] { (FieldSet(2)) 1 l0; (Write(EntityNo(21))) 2 l0; \
    (FieldChange(2, Update { operator: Add, at: I32, to: I32, old: false })) 3 l0; \
    (Alter(EntityNo(21), Update { operator: Add, at: I32, to: I32, old: true })) 1 l0; \
    return (FieldGet(2)) l0; }";

/// `a = 1; --a; g(b, c); return a;` of fields a, b and c of `this`, which are 0, 1 and 2, where both parameters of
/// the import g, which is 7, are `&out`
const OWN: Written = Written {
    parameters: RECEIVER_AND_O,
    statements: list! {
        Number(1), At(TypedVariable::Field(0)), Assign, Evaluate,
        At(TypedVariable::Field(0)), Count(StepKind::DecrementBefore), Evaluate,
        Out(TypedVariable::Field(1), INT, INT), Out(TypedVariable::Field(2), INT, ArgType::Plain(Prim::U8)),
        Call(TypedCallee::Import(7)), Evaluate,
        At(TypedVariable::Field(0)), Read, Return,
    },
    ..NOTHING
};

/// A field of `this` is one of local 0.
const OWNED: &str = "[In, Object] { (FieldSet(0)) 1 l1; \
    (FieldChange(0, Update { operator: Subtract, at: I32, to: I32, old: false })) 1 l1; \
    (Import(7) [Target { spot: Field { object: 1, field: 2 }, to: Some(U8) }, \
    Target { spot: Field { object: 1, field: 1 }, to: Some(I32) }]) 0 0; return (FieldGet(0)) l1; }";

/// `T(5); U(); f(o); cast<V>(o) is null;` of classes T, U and V, which are 0, 1 and 6, where T's constructor is body
/// 3 and U has none, and f is the method of slot 4 with an `&out` parameter
const MAKING: Written = Written {
    parameters: RECEIVER_AND_O,
    statements: list! {
        Number(5), Value, Make(0, Some(3)), Evaluate,
        Make(1, None), Evaluate,
        Local(0), Value, Out(TypedVariable::Local(1), HANDLE, HANDLE), Call(TypedCallee::Chosen(4)), Evaluate,
        Local(1), One(Cast(6)), Null, Two(Same), Evaluate,
    },
    ..NOTHING
};

/// A new object is the first argument of its constructor.
const MADE: &str = "[In, Object] { (Own(3) []) (Make(0)) 5; (Make(1)); \
    (Virtual(4) [Target { spot: Local(0), to: None }]) l1 null; (Same) (Cast(6)) l0 null; }";

const ROWS: &[Row] = &[
    ("locals count from the innermost", COUNTING, &[COUNTED]),
    ("loops and their steps", LOOPING, &[LOOPED]),
    ("`&out` arguments", CALLING, &[CALLED]),
    (
        "`&out` of an enumeration",
        CALLING_FOR_ENUMERATION,
        &[CALLED_FOR_ENUMERATION],
    ),
    ("choices and variables", CHOOSING, &[CHOSEN]),
    ("operations on literals", LITERALS, &[NUMBERS]),
    ("named entries", NAMES, &["[In] { 44; l0; }"]),
    ("initializers", INITIALIZING, INITIALIZED),
    ("a local that is not alive", DEAD, &["[In] { return l0; }"]),
    ("members of objects", CHANGING, &[CHANGED]),
    ("fields of `this`", OWN, &[OWNED]),
    ("objects and methods", MAKING, &[MADE]),
];
