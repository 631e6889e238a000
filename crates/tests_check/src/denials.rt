//! Denials of refused builds, by the calls of a host: which rows a refused use has.
use crate::host::Line;
use crate::outcomes::Case;
use crate::outcomes::Outcome::Denied;

/// A function.
const PRINT: &[Line] = &[Line::Function(0, 0, b"void print(int)")];

/// A type under one mask, and a function that takes it under another one.
const PICK: &[Line] = &[
    Line::Type(b"Cell", 2),
    Line::Mask(2),
    Line::Function(2, 2, b"Cell@+ pick(Cell@+)"),
];

/// Two functions of one name.
const LOG: &[Line] = &[
    Line::Function(0, 0, b"void log(int)"),
    Line::Function(0, 1, b"void log(int,int)"),
];

/// A type and its factory.
const COUNTER: &[Line] = &[
    Line::Type(b"Counter", 1),
    Line::Factory(b"Counter", 1, b"Counter@ f(int)"),
];

/// A type that a module of mask 3 sees, and of its factories the one that takes an integer.
const COUNTERS: &[Line] = &[
    Line::Mask(2),
    Line::Type(b"Counter", 1),
    Line::Mask(4),
    Line::Factory(b"Counter", 0, b"Counter@ f()"),
    Line::Mask(1),
    Line::Factory(b"Counter", 1, b"Counter@ f(int)"),
    Line::Mask(4),
    Line::Factory(b"Counter", 2, b"Counter@ f(int,int)"),
];

/// A type, and a method of it under one mask, `const` under another one.
const CELL: &[Line] = &[
    Line::Mask(3),
    Line::Type(b"Cell", 2),
    Line::Mask(2),
    Line::Method(b"Cell", 0, b"int get()"),
    Line::Mask(1),
    Line::Method(b"Cell", 0, b"int get() const"),
];

/// An enumeration with two values, and a function that takes it.
const COLOR: &[Line] = &[
    Line::Enum(b"Color"),
    Line::Value(b"Color", b"RED", 1),
    Line::Value(b"Color", b"BLUE", -2),
    Line::Function(0, 0, b"void paint(Color)"),
];

/// Two enumerations with a value of one name, and a global property of that name under another mask.
const VALUES: &[Line] = &[
    Line::Mask(3),
    Line::Enum(b"Near"),
    Line::Value(b"Near", b"NONE", 0),
    Line::Enum(b"Far"),
    Line::Value(b"Far", b"NONE", 0),
    Line::Mask(1),
    Line::Global(0, 0, b"int NONE"),
];

/// Hidden entries that would resolve a use are told. Names that stay the script's, a name that nothing has, and
/// arguments that what is hidden does not take have no rows.
pub const CASES: &[Case] = &[
    (
        "a function",
        PRINT,
        2,
        &[
            ("void main(){ print(1+2); }", Denied(&[(14, 0, 1, 2)])),
            ("void main(){ int print = 1; print(2); }", Denied(&[])),
        ],
    ),
    (
        "a function, and no bit at all",
        PRINT,
        0,
        &[("void main(){ print(1+2); }", Denied(&[(14, 0, 1, 0)]))],
    ),
    (
        "a type and what takes it",
        PICK,
        2,
        &[("void main(){ pick(null); }", Denied(&[(14, 0, 1, 2)]))],
    ),
    (
        "two functions of one name",
        LOG,
        2,
        &[
            ("void main(){ log(1); }", Denied(&[(14, 0, 1, 2)])),
            ("int log; void main(){ log(1); }", Denied(&[])),
            ("void main(){ lag(1); }", Denied(&[])),
        ],
    ),
    (
        "a factory",
        COUNTER,
        2,
        &[
            (
                "void m(){ Counter(5); }",
                Denied(&[(11, 0, 1, 2), (11, 1, 1, 2)]),
            ),
            ("void m(){ Counter c(5); }", Denied(&[(11, 0, 1, 2)])),
            ("void m(){ int Counter; Counter(5); }", Denied(&[])),
            ("void m(){ int Counter; Counter c(5); }", Denied(&[])),
        ],
    ),
    (
        "factories of a seen type",
        COUNTERS,
        3,
        &[
            (
                "void m() { int Counter; Counter(); }",
                Denied(&[(25, 1, 4, 3)]),
            ),
            (
                "void m(int Counter) { Counter(); }",
                Denied(&[(23, 1, 4, 3)]),
            ),
            (
                "class C { int Counter; void m() { Counter(); } }",
                Denied(&[(35, 1, 4, 3)]),
            ),
            (
                "void m() { int Counter; Counter c; }",
                Denied(&[(25, 1, 4, 3)]),
            ),
            (
                "void m() { int Counter; Counter c(1, 2); }",
                Denied(&[(25, 3, 4, 3)]),
            ),
            (
                "class C { void Counter() {} void m() { Counter c; } }",
                Denied(&[(40, 1, 4, 3)]),
            ),
            (
                "class C { void Counter(int x) {} void m() { Counter(); } }",
                Denied(&[]),
            ),
        ],
    ),
    (
        "a method",
        CELL,
        2,
        &[(
            "void m(const Cell@ c) { c.get(); }",
            Denied(&[(27, 2, 1, 2)]),
        )],
    ),
    (
        "an enumeration",
        COLOR,
        2,
        &[
            (
                "int m(){ return RED; }",
                Denied(&[(17, 0, 1, 2), (17, 1, 1, 2)]),
            ),
            ("int m(){ return Color::RED; }", Denied(&[(17, 0, 1, 2)])),
            ("void m(){ Color c; }", Denied(&[(11, 0, 1, 2)])),
            ("void m(){ Color(9); }", Denied(&[(11, 0, 1, 2)])),
            ("void RED(){} int m(){ return RED; }", Denied(&[])),
            ("void m(){ Color(true); }", Denied(&[])),
            ("void m(){ paint(1); }", Denied(&[])),
        ],
    ),
    (
        "values of one name",
        VALUES,
        2,
        &[("int m(){ return NONE; }", Denied(&[(17, 4, 1, 2)]))],
    ),
];
