//! What bodies that use enumerations of the host are refused for, and what is built of them.

use crate::host::Line;
use crate::outcomes::Outcome::{Brings, Built, Converts, Gives, Refused, Undeclared};
use crate::outcomes::{Case, Row};
use ang_kinds::ErrorKind;

/// `enum Color { RED = 1, BLUE = -2 }`, `void paint(Color)` and `enum Shade { DARK = 0, RED = 3 }`, all under 00000001.
const HOST: &[Line] = &[
    Line::Mask(1),
    Line::Enum(b"Color"),
    Line::Value(b"Color", b"RED", 1),
    Line::Value(b"Color", b"BLUE", -2),
    Line::Function(0, 0, b"void paint(Color)"),
    Line::Enum(b"Shade"),
    Line::Value(b"Shade", b"DARK", 0),
    Line::Value(b"Shade", b"RED", 3),
];

const REFUSED: &[Row] = &[
    // arguments and values are no enumerations
    (
        "void m(){ paint(1); }",
        Refused(ErrorKind::NoMatch, 1, 11, "paint"),
    ),
    (
        "void m(){ Color c = 1; }",
        Refused(ErrorKind::BadConversion, 1, 21, ""),
    ),
    (
        "void m(){ Shade s = BLUE; }",
        Refused(ErrorKind::BadConversion, 1, 21, ""),
    ),
    (
        "void o(int &out a) {} void m(){ Color c; o(c); }",
        Refused(ErrorKind::NoMatch, 1, 42, "o"),
    ),
    // not as objects, handles or references
    (
        "void m(){ Color c(1); }",
        Refused(ErrorKind::NoMatch, 1, 11, "Color"),
    ),
    (
        "void m(){ Color@ c; }",
        Refused(ErrorKind::BadType, 1, 11, "Color"),
    ),
    (
        "void m(){ cast<Color>(BLUE); }",
        Refused(ErrorKind::BadType, 1, 16, "Color"),
    ),
    (
        "void m(){ BLUE is BLUE; }",
        Refused(ErrorKind::BadConversion, 1, 11, ""),
    ),
    // operators
    (
        "void m(){ Color c; c++; }",
        Refused(ErrorKind::BadConversion, 1, 20, ""),
    ),
    (
        "void m(){ Color c; --c; }",
        Refused(ErrorKind::BadConversion, 1, 22, ""),
    ),
    (
        "void m(){ Color c; c += 1; }",
        Refused(ErrorKind::BadConversion, 1, 20, ""),
    ),
    (
        "void m(){ Color c; c <<= 1; }",
        Refused(ErrorKind::BadConversion, 1, 20, ""),
    ),
    (
        "void m(){ Color c = BLUE + 1; }",
        Refused(ErrorKind::BadConversion, 1, 21, ""),
    ),
    (
        "void m(){ Color c = true ? BLUE : Shade::RED; }",
        Refused(ErrorKind::BadConversion, 1, 21, ""),
    ),
    (
        "void m(){ bool(BLUE); }",
        Refused(ErrorKind::BadConversion, 1, 16, ""),
    ),
    (
        "void m(){ if (BLUE) {} }",
        Refused(ErrorKind::NotBool, 1, 15, ""),
    ),
    (
        "void m(){ BLUE = BLUE; }",
        Refused(ErrorKind::BadConversion, 1, 11, ""),
    ),
    (
        "void m(){ BLUE.x; }",
        Refused(ErrorKind::UnknownName, 1, 16, "x"),
    ),
    // calls of the name
    (
        "void m(){ Color(); }",
        Refused(ErrorKind::NoMatch, 1, 11, "Color"),
    ),
    (
        "void m(){ Color(1, 2); }",
        Refused(ErrorKind::NoMatch, 1, 11, "Color"),
    ),
    (
        "void m(){ Color(true); }",
        Refused(ErrorKind::NoMatch, 1, 11, "Color"),
    ),
    (
        "void m(){ Color(m()); }",
        Refused(ErrorKind::NoMatch, 1, 11, "Color"),
    ),
    (
        "void m(){ Color(null); }",
        Refused(ErrorKind::NoMatch, 1, 11, "Color"),
    ),
    // values by name
    (
        "void m(){ RED; }",
        Refused(ErrorKind::Ambiguous, 1, 11, "RED"),
    ),
    (
        "void m(){ Color::GREY; }",
        Refused(ErrorKind::UnknownName, 1, 18, "GREY"),
    ),
    (
        "void m(){ Color::paint; }",
        Refused(ErrorKind::UnknownName, 1, 18, "paint"),
    ),
    (
        "void m(){ Hue::RED; }",
        Refused(ErrorKind::UnknownName, 1, 11, "Hue"),
    ),
    (
        "void m(){ BLUE(); }",
        Refused(ErrorKind::UnknownName, 1, 11, "BLUE"),
    ),
    (
        "class Hue {} void m(){ Hue::RED; }",
        Refused(ErrorKind::UnknownName, 1, 24, "Hue"),
    ),
    (
        "void m(){ Color; }",
        Refused(ErrorKind::UnknownName, 1, 11, "Color"),
    ),
    (
        "void m(){ const Color c = BLUE; c = BLUE; }",
        Refused(ErrorKind::Const, 1, 33, "c"),
    ),
];

const UNDECLARED: &[Row] = &[
    (
        "class Color {}",
        Undeclared(ErrorKind::Duplicate, 1, 7, "Color"),
    ),
    (
        "void Color() {}",
        Undeclared(ErrorKind::Duplicate, 1, 6, "Color"),
    ),
    (
        "int Color;",
        Undeclared(ErrorKind::Duplicate, 1, 5, "Color"),
    ),
    (
        "void f(Color a) {} void f(Color b) {}",
        Undeclared(ErrorKind::Duplicate, 1, 25, "f"),
    ),
    (
        "void m(Color &inout c) {}",
        Undeclared(ErrorKind::BadType, 1, 8, "Color"),
    ),
    (
        "void m(Color@ c) {}",
        Undeclared(ErrorKind::BadType, 1, 8, "Color"),
    ),
    (
        "class K { Color@ c; }",
        Undeclared(ErrorKind::BadType, 1, 11, "Color"),
    ),
];

const HIDDEN: &[Row] = &[
    (
        "void m(){ Color c; }",
        Refused(ErrorKind::UnknownType, 1, 11, "Color"),
    ),
    (
        "int m(){ return RED; }",
        Refused(ErrorKind::UnknownName, 1, 17, "RED"),
    ),
    (
        "int m(){ return Color::RED; }",
        Refused(ErrorKind::UnknownName, 1, 17, "Color"),
    ),
    (
        "int m(){ return Color(1); }",
        Refused(ErrorKind::UnknownName, 1, 17, "Color"),
    ),
];

const BUILT: &[Row] = &[
    (
        "int m() { Color c = BLUE; paint(c); paint(Color(9)); return c + Color::RED; }",
        Built,
    ),
    (
        "void m() { Color c = true ? BLUE : Color::RED; int x = true ? BLUE : Shade::RED; }",
        Built,
    ),
    (
        "void m() { int x = BLUE; int64 y = BLUE; uint8 z = BLUE; int8 w = int8(BLUE); }",
        Built,
    ),
    (
        "bool m() { return BLUE == Shade::RED || BLUE < 3 || ~BLUE != -BLUE; }",
        Built,
    ),
    (
        "Shade m() { Color c = Color(int64(5)); return Shade(c); }",
        Built,
    ),
    (
        "Color g = BLUE; const Color h = Color::RED; Color f(const Color c) { g = c; return h; }",
        Built,
    ),
    (
        "void o(Color &out c) {} void m() { Color c; int x; int64 y; o(c); o(x); o(y); }",
        Built,
    ),
    (
        "void f(int a) {} void f(int64 a) {} void m() { f(BLUE); }",
        Built,
    ),
    (
        "void f(Color a) {} void f(int a) {} void f(Shade a) {} void m() { f(BLUE); f(1); }",
        Built,
    ),
    (
        "void m() { int BLUE = 7; int x = BLUE; Color c = Color::BLUE; }",
        Built,
    ),
    (
        "bool BLUE; void m() { bool b = BLUE; Color c = Color::BLUE; }",
        Built,
    ),
    (
        "class K { Color c; bool RED; bool m() { c = BLUE; Color d = c; return RED; } }",
        Built,
    ),
    (
        "import Color take(Color c) from \"other\"; void m() { Color c = take(BLUE); }",
        Built,
    ),
];

/// The values that functions return, of which some are brought into an `int` or converted to `Shade` first.
const VALUES: &[Row] = &[
    ("Color m() { return Color::RED; }", Gives(1, 1)),
    (
        "Color m() { return BLUE; }",
        Gives(2, 0xffff_ffff_ffff_fffe),
    ),
    ("int m() { return BLUE; }", Brings(2, 0xffff_ffff_ffff_fffe)),
    ("Shade m() { return Shade(Color::RED); }", Converts(4, 1, 1)),
];

pub const CASES: &[Case] = &[
    ("enumerations are used as they may be", HOST, 1, REFUSED),
    (
        "enumerations are declared as they may be",
        HOST,
        1,
        UNDECLARED,
    ),
    (
        "a mask hides an enumeration and its values",
        HOST,
        2,
        HIDDEN,
    ),
    ("enumerations stand where `int` does", HOST, 1, BUILT),
    ("a value is a number in two's complement", HOST, 1, VALUES),
];
