//! Where the statements of bodies stand.

use crate::host::Line;
use crate::outcomes::Outcome::Stands;
use crate::outcomes::{Case, Row};

const HOST: &[Line] = &[];

const FUNCTIONS: &[Row] = &[
    ("void f() {}", Stands(0, &[])),
    (
        "void f() { int a = 1, b; a = b; ; const int c = 2; }",
        Stands(0, &[(0, 11), (0, 25), (0, 32), (0, 34)]),
    ),
    (
        "void f(int a)\n{\n  if (a > 0) { a + 1; } else\n    -a;\n}",
        Stands(0, &[(2, 2), (2, 13), (2, 15), (3, 4)]),
    ),
    (
        "void f(int a) { for (int i = 0; i < a; ++i, --a) while (a > 2) break; }",
        Stands(0, &[(0, 16), (0, 21), (0, 49), (0, 63)]),
    ),
    (
        "void f(int a) { for (;;) { do a++; while (a < 3); continue; } }",
        Stands(0, &[(0, 16), (0, 21), (0, 25), (0, 27), (0, 30), (0, 50)]),
    ),
    (
        "void f(int a) { for (a = 1; a < 2;) if (true) return; else if (false) ; }",
        Stands(0, &[(0, 16), (0, 21), (0, 36), (0, 46), (0, 59), (0, 70)]),
    ),
    (
        "int f(int a) { { return (a + 1) * 2; } f(a); (a); int(a) + 1; a += 2; a > 1 ? a : 2; return 0; }",
        Stands(
            0,
            &[
                (0, 15),
                (0, 17),
                (0, 39),
                (0, 45),
                (0, 50),
                (0, 62),
                (0, 70),
                (0, 85),
            ],
        ),
    ),
];

const MEMBERS: &[Row] = &[
    ("class A { A() { int a; } }", Stands(0, &[(0, 16), (0, 23)])),
    (
        "class A { A(int a) {} } class B : A { B() { super(1); ; } }",
        Stands(1, &[(0, 44), (0, 54), (0, 56)]),
    ),
    (
        "class A { A() {} } class B : A { B() { return; } }",
        Stands(1, &[(0, 33), (0, 39), (0, 47)]),
    ),
    (
        "class A { } class B : A { B() { } void m() { m(); } }",
        Stands(0, &[(0, 32)]),
    ),
    (
        "class A { } class B : A { B() { } void m() { m(); } }",
        Stands(1, &[(0, 45)]),
    ),
];

pub const CASES: &[Case] = &[
    ("statements stand at their first tokens", HOST, 1, FUNCTIONS),
    (
        "constructors begin at `super` and end at the brace",
        HOST,
        1,
        MEMBERS,
    ),
];
