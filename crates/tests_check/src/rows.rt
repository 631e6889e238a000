//! What a section is refused for, and what is built of it.

use crate::host::Line;
use crate::outcomes::Outcome::{Built, Calls, Errors, Refused};
use crate::outcomes::{Case, Row};
use ang_kinds::ErrorKind;

/// `void put(int64)` under 00000003 (entry 0), and under 00000001 `void put(int)`, `const int64 limit`, `int64 reg` and
/// `int64 sum(int64, int64)`.
const HOST: &[Line] = &[
    Line::Mask(3),
    Line::Function(0, 0, b"void put(int64)"),
    Line::Mask(1),
    Line::Function(0, 0, b"void put(int)"),
    Line::Global(0, 0, b"const int64 limit"),
    Line::Global(0, 0, b"int64 reg"),
    Line::Function(0, 1, b"int64 sum(int64, int64)"),
];

const BODIES: &[Row] = &[
    (
        "void m() { if (1) {} }",
        Refused(ErrorKind::NotBool, 1, 16, ""),
    ),
    (
        "void m() { break; }",
        Refused(ErrorKind::Jump, 1, 12, "break"),
    ),
    (
        "void o(int &out a) {} void m() { o(1); }",
        Refused(ErrorKind::BadOut, 1, 36, ""),
    ),
    (
        "void f(int64 a, int b) {} void f(int a, int64 b) {} void m() { f(1, 2); }",
        Refused(ErrorKind::Ambiguous, 1, 64, "f"),
    ),
    (
        "void w() { limit = 4; }",
        Refused(ErrorKind::Const, 1, 12, "limit"),
    ),
    (
        "int m() { while (false) {} }",
        Refused(ErrorKind::NoReturn, 1, 5, "m"),
    ),
    (
        "void main(){ log(1); }",
        Refused(ErrorKind::UnknownName, 1, 14, "log"),
    ),
    // a variable in parentheses, or one that can't be written, takes no `&out` value
    (
        "void o(int &out a) {} void m() { int x; o((x)); }",
        Refused(ErrorKind::BadOut, 1, 43, ""),
    ),
    (
        "void o(int64 &out a) {} void m() { o(limit); }",
        Refused(ErrorKind::BadOut, 1, 38, ""),
    ),
    (
        "void f(int a, int b) {} void m() { f(1); }",
        Refused(ErrorKind::NoMatch, 1, 36, "f"),
    ),
    // arguments are judged before what is called
    (
        "void m() { g(q); }",
        Refused(ErrorKind::UnknownName, 1, 14, "q"),
    ),
    (
        "void m() { g(1); }",
        Refused(ErrorKind::UnknownName, 1, 12, "g"),
    ),
    (
        "int m() { return 1 ? 2 : 3; }",
        Refused(ErrorKind::NotBool, 1, 18, ""),
    ),
    (
        "void m() { 5 = 6; }",
        Refused(ErrorKind::BadConversion, 1, 12, ""),
    ),
    (
        "int n() { return; }",
        Refused(ErrorKind::BadConversion, 1, 11, ""),
    ),
    (
        "void n() { return 1; }",
        Refused(ErrorKind::BadConversion, 1, 19, ""),
    ),
];

const LOCALS: &[Row] = &[
    (
        "void m() { int x; int x; }",
        Refused(ErrorKind::Duplicate, 1, 23, "x"),
    ),
    (
        "void m() { int x = x; }",
        Refused(ErrorKind::UnknownName, 1, 20, "x"),
    ),
    (
        "void m() { Nope x; }",
        Refused(ErrorKind::UnknownType, 1, 12, "Nope"),
    ),
    (
        "void m() { void x; }",
        Refused(ErrorKind::BadType, 1, 12, "void"),
    ),
    (
        "void m() { int x(1); }",
        Refused(ErrorKind::NoMatch, 1, 12, "int"),
    ),
    (
        "void m() { bool x = 1; }",
        Refused(ErrorKind::BadConversion, 1, 21, ""),
    ),
    (
        "void m() { const int x = 1; x = 2; }",
        Refused(ErrorKind::Const, 1, 29, "x"),
    ),
    (
        "void m() { { int x; } x = 1; }",
        Refused(ErrorKind::UnknownName, 1, 23, "x"),
    ),
    (
        "void m() { if (true) int x; x = 1; }",
        Refused(ErrorKind::UnknownName, 1, 29, "x"),
    ),
    (
        "void m() { for (int x; ;) {} x = 1; }",
        Refused(ErrorKind::UnknownName, 1, 30, "x"),
    ),
    (
        "void m(int x) { int x; { int x; } for (int x; ;) int x; }",
        Built,
    ),
];

const ORDER: &[Row] = &[
    (
        "void m() { if (a) b; else c; }",
        Refused(ErrorKind::UnknownName, 1, 16, "a"),
    ),
    (
        "void m() { while (a) b; }",
        Refused(ErrorKind::UnknownName, 1, 19, "a"),
    ),
    (
        "void m() { do a; while (b); }",
        Refused(ErrorKind::UnknownName, 1, 15, "a"),
    ),
    (
        "void m() { for (a; b; c) d; }",
        Refused(ErrorKind::UnknownName, 1, 17, "a"),
    ),
    (
        "void m() { for (; ; c) d; }",
        Refused(ErrorKind::UnknownName, 1, 21, "c"),
    ),
];

const SEVERAL: &[Row] = &[(
    "void a() { break; break; } int g = true, h = z; int b() { g = 1; }",
    Errors(&[
        (ErrorKind::Jump, 12),
        (ErrorKind::BadConversion, 36),
        (ErrorKind::UnknownName, 46),
        (ErrorKind::NoReturn, 53),
    ]),
)];

/// What a module of the mask 1 calls, and one of the mask 2.
const FOR_ONE: &[Row] = &[("void main(){ put(5); }", Calls(1))];

const FOR_TWO: &[Row] = &[
    ("void main(){ put(5); }", Calls(0)),
    (
        "void main(){ sum(1, 2); }",
        Refused(ErrorKind::UnknownName, 1, 14, "sum"),
    ),
];

pub const CASES: &[Case] = &[
    ("bodies give their first refusal", HOST, 1, BODIES),
    ("locals are known in their block", HOST, 1, LOCALS),
    ("parts are judged in the order of the text", HOST, 1, ORDER),
    (
        "each body and initializer gives one error",
        HOST,
        1,
        SEVERAL,
    ),
    (
        "the mask decides which function is called",
        HOST,
        1,
        FOR_ONE,
    ),
    ("another mask decides otherwise", HOST, 2, FOR_TWO),
];
