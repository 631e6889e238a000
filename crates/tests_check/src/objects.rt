//! What bodies that use objects of the host are refused for.

use crate::host::Line;
use crate::outcomes::Outcome::Refused;
use crate::outcomes::{Case, Row};
use ang_kinds::ErrorKind;

/// A type that is made without arguments too, and one that is made from a number alone.
const HOST: &[Line] = &[
    Line::Type(b"Counter", 1),
    Line::Factory(b"Counter", 0, b"Counter@ f()"),
    Line::Method(b"Counter", 0, b"void bump()"),
    Line::Property(b"Counter", 0, b"int step"),
    Line::Type(b"Cell", 2),
    Line::Factory(b"Cell", 0, b"Cell@ f(int)"),
    Line::Method(b"Cell", 1, b"void set(int)"),
    Line::Function(2, 2, b"Cell@+ pick(Cell@+)"),
];

const OBJECTS: &[Row] = &[
    (
        "void m() { Cell x; }",
        Refused(ErrorKind::NoDefault, 1, 12, "Cell"),
    ),
    (
        "void m() { Cell@ x; x = null; }",
        Refused(ErrorKind::NoAssign, 1, 23, ""),
    ),
    (
        "void m() { Counter x; @x = null; }",
        Refused(ErrorKind::Const, 1, 24, "x"),
    ),
    (
        "void m() { const Counter@ x; x.step++; }",
        Refused(ErrorKind::Const, 1, 32, "step"),
    ),
    (
        "void m() { Cell@ const x = null; @x = null; }",
        Refused(ErrorKind::Const, 1, 35, "x"),
    ),
    (
        "void m(Cell@ x, const Cell@ y) { (true ? x : y).set(1); }",
        Refused(ErrorKind::Const, 1, 49, "set"),
    ),
    (
        "void m(const Cell@ x) { Cell@ y = x; }",
        Refused(ErrorKind::BadConversion, 1, 35, ""),
    ),
    (
        "void m(Cell@ c) { cast<Counter>(c); }",
        Refused(ErrorKind::BadConversion, 1, 33, ""),
    ),
    (
        "void m(Cell@ c, Counter@ d) { c == d; }",
        Refused(ErrorKind::BadConversion, 1, 31, ""),
    ),
    (
        "void m(Cell@ x) { true ? x : null; }",
        Refused(ErrorKind::BadConversion, 1, 30, ""),
    ),
    (
        "void o(Counter@ &out c) {} void m() { Counter x; o(x); }",
        Refused(ErrorKind::BadOut, 1, 52, ""),
    ),
    (
        "void m(const Cell@ x) { pick(x); }",
        Refused(ErrorKind::NoMatch, 1, 25, "pick"),
    ),
    (
        "void m() { Cell@ c(1); }",
        Refused(ErrorKind::NoMatch, 1, 12, "Cell"),
    ),
    (
        "void m(Counter@ c) { c.step(); }",
        Refused(ErrorKind::UnknownName, 1, 24, "step"),
    ),
];

pub const CASES: &[Case] = &[("objects are used as they may be", HOST, 1, OBJECTS)];
