//! What `parse` answers: worked errors and limits of the grammar.

use ang_lex::lex;
use ang_parse::{ParseError, parse};
use ang_tree::Script;
use std::alloc::{AllocError, Global};

/// What `parse` has to answer.
#[derive(Clone, Copy)]
pub enum Want<'a> {
    Script,
    TooDeep {
        line: u32,
        column: u32,
    },
    Syntax {
        line: u32,
        column: u32,
        name: &'a [u8],
    },
}

/// Whether `parse` answers so on the text.
pub fn answers(alloc: Global, text: &[u8], want: Want<'_>) -> bool {
    let Ok(tokens) = lex(alloc, text, 0) else {
        return false;
    };
    is_answer(&parse(alloc, text, &tokens), want)
}

fn is_answer(answer: &Result<Script, ParseError>, want: Want<'_>) -> bool {
    match answer {
        Ok(_) => matches!(want, Want::Script),
        Err(fault) => is_fault(fault, want),
    }
}

fn is_fault(fault: &ParseError, want: Want<'_>) -> bool {
    match (fault, want) {
        (ParseError::TooDeep(place), Want::TooDeep { line, column }) => place.line == line
            && place.column == column,
        (ParseError::Syntax(place, found), Want::Syntax { line, column, name }) => {
            place.line == line && place.column == column && found.as_slice() == name
        }
        _ => false,
    }
}

/// A text, and the line, the column and the text of the token that no script can have there.
const FAULTS: &[(&str, u32, u32, &str)] = &[
    ("void m() { return }", 1, 19, "}"),
    ("int f(", 1, 7, ""),
    ("int", 1, 4, ""),
    ("int a\n= 1", 2, 4, ""),
    ("int a;\n  int 5;", 2, 7, "5"),
    ("void m() {} else", 1, 13, "else"),
    ("class A { int x = 1; }", 1, 17, "="),
    ("import void f() \"m\";", 1, 17, "\"m\""),
    ("int a = 1 + );", 1, 13, ")"),
    ("void f(int a b) {}", 1, 14, "b"),
    ("void f(int a,) {}", 1, 14, ")"),
    // a variable, since no parameters have a sign
    ("A x(B + C) {", 1, 12, "{"),
    // a function, since no arguments begin so
    ("A x(int b);", 1, 11, ";"),
    // no parameters go on at the number, and no arguments at `)`
    ("A x(B, 1 + ) {", 1, 12, ")"),
    // a name stands after `::`, and no second `::` after that name
    ("int a = E::;", 1, 12, ";"),
    ("int a = E::V::W;", 1, 13, "::"),
];

#[test]
fn faults_have_their_places(rt: HostRuntime) {
    for row in FAULTS {
        let (text, line, column, name) = *row;
        let name = name.as_bytes();
        let want = Want::Syntax { line, column, name };
        assert!(rt; answers(rt.alloc(), text.as_bytes(), want), "{text:?}");
    }
}

/// Pieces of a text, each with how often it stands there.
type Pieces = &'static [(&'static str, usize)];

/// Texts of which nothing is written, and those that are as deep as may be, or one deeper.
const LIMITS: &[(Pieces, Want<'static>)] = &[
    // nothing is a script
    (&[], Want::Script),
    (&[(" // nothing\n", 1)], Want::Script),
    // 64 brackets can be open, with that of the function's body
    (
        &[
            ("int m(){return ", 1),
            ("(", 63),
            ("1", 1),
            (")", 63),
            (";}", 1),
        ],
        Want::Script,
    ),
    (
        &[
            ("int m(){return ", 1),
            ("(", 64),
            ("1", 1),
            (")", 64),
            (";}", 1),
        ],
        Want::TooDeep {
            line: 1,
            column: 79,
        },
    ),
    // a statement has 256 operators
    (
        &[("int m(){return 1", 1), ("+1", 256), (";}", 1)],
        Want::Script,
    ),
    (
        &[("int m(){return 1", 1), ("+1", 257), (";}", 1)],
        Want::TooDeep {
            line: 1,
            column: 529,
        },
    ),
    // depth is judged before the grammar, and over all the tokens
    (
        &[("5 ", 1), ("{", 65)],
        Want::TooDeep {
            line: 1,
            column: 67,
        },
    ),
];

/// Adds a piece `times` times.
fn add(text: &mut Vec<u8>, piece: &str, times: usize) -> Result<(), AllocError> {
    for _ in 0..times {
        text.extend_from_slice(piece.as_bytes())?;
    }
    Ok(())
}

fn add_each(text: &mut Vec<u8>, pieces: &[(&str, usize)]) -> Result<(), AllocError> {
    for row in pieces {
        let (piece, times) = *row;
        add(text, piece, times)?;
    }
    Ok(())
}

/// Whether `parse` answers so on the text of these pieces.
fn answers_on(alloc: Global, pieces: &[(&str, usize)], want: Want<'_>) -> bool {
    let mut text = Vec::new(alloc);
    add_each(&mut text, pieces).is_ok() && answers(alloc, &text, want)
}

#[test]
fn limits_are_met_and_no_more(rt: HostRuntime) {
    for row in LIMITS {
        let (pieces, want) = *row;
        assert!(rt; answers_on(rt.alloc(), pieces, want), "{pieces:?}");
    }
}
