//! Which function of a module a text names.

use ang_engine_call::{find_function, is_callable};
use ang_kinds::Mask;
use ang_lex::lex;
use ang_names::{Names, ScriptFunction, declare};
use ang_parse::parse;
use ang_registry::{RegError, Registry, View};
use ang_tree::Script;
use std::alloc::{AllocError, Global};
use std::slice;

/// The functions 0 to 8. Those named `f` differ in one thing each.
const MODULE: &[u8] =
    b"void f() {} int f(int a) { return a; } int f(const int a) { return a; } int f(int &in a) { return a; } int f(int &out a) { a = 1; return a; } const int c() { return 1; } uint g(uint8 a, int64 b, bool d) { return 1; } void u(int x) {} Color k(Color a, const Color b) { return a; }";

/// Puts into the registry `void print(int)`, the type `Cell`, and the enumerations `Color` and `Shade`.
fn register(registry: &mut Registry) -> Result<(), RegError> {
    let _ = registry.function(0, 0, b"void print(int)")?;
    let _ = registry.type_(b"Cell", 2)?;
    let _ = registry.enum_(b"Color")?;
    let _ = registry.enum_(b"Shade")?;
    Ok(())
}

fn seen(alloc: Global, registry: &mut Registry) -> Option<View> {
    if register(registry).is_err() {
        return None;
    }
    registry.seen(alloc, Mask(1)).ok()
}

/// What a module sees of these.
pub(crate) fn view(alloc: Global) -> Option<View> {
    let mut registry = Registry::new(alloc);
    let view = seen(alloc, &mut registry);
    drop(registry);
    view
}

fn script_in(alloc: Global, text: &[u8]) -> Option<Script> {
    let tokens = lex(alloc, text, 0).ok()?;
    parse(alloc, text, tokens.as_slice()).ok()
}

/// The names of one section, or nothing where it has an error.
pub(crate) fn names_in(alloc: Global, view: &View, text: &[u8]) -> Option<Names> {
    let script = script_in(alloc, text)?;
    let names = declare(alloc, view, slice::from_ref(&script));
    drop(script);
    names.ok()
}

/// Which function of the module each text names.
const NAMED: &[(&str, usize)] = &[
    ("void f()", 0),
    ("void f(void)", 0),
    ("\u{FEFF} void\r\n\tf/* of nothing */( ) // a comment", 0),
    ("void f() //", 0),
    ("int f(int)", 1),
    ("int f(int other)", 1),
    ("int32 f(int32 a)", 1),
    ("int f(const int)", 2),
    ("int f(int &in)", 3),
    ("int f(int&in b)", 3),
    ("int f(int &out)", 4),
    ("const int c()", 5),
    ("const int32 c(void)", 5),
    ("uint g(uint8, int64, bool)", 6),
    ("uint32 g(uint8 x, int64 y, bool z)", 6),
    ("void u(int)", 7),
    ("Color k(Color, const Color)", 8),
    ("Color k(Color x, const Color y)", 8),
];

/// Headings that no function of the module has, and texts of another form.
const NOT_NAMED: &[&str] = &[
    "int f()",
    "const void f()",
    "void f(int)",
    "int f(uint)",
    "int f(int, int)",
    "int f(const int &in)",
    "int f(int &inout)",
    "int f(int &)",
    "int c()",
    "const uint c()",
    "uint g(int64, uint8, bool)",
    "uint g(uint8, int64)",
    "void v()",
    "void F()",
    "void print(int)",
    "",
    "f",
    "f()",
    "void f",
    "void f(",
    "void f();",
    ";void f()",
    "void f() x",
    "void f() const",
    "void f() {}",
    "void f() {} //",
    "void f() {} void u(int x)",
    "void f() /*",
    "void f() \"",
    "void f() # ",
    "void f(Nope)",
    "Nope f()",
    "void f(Cell@ c)",
    "int k(Color, const Color)",
    "Color k(int, const int)",
    "Color k(Color, Color)",
    "Shade k(Color, const Color)",
    "Color k(Shade, const Color)",
    "Color k(Color@, const Color)",
    "class C",
    "import void f() from \"m\"",
];

/// As many bytes of `void f()` and spaces as have room for an empty body after them, and one more.
const LENGTHS: &[(&str, usize, Option<usize>)] = &[
    ("the longest text", 65_533, Some(0)),
    ("a longer text", 65_534, None),
];

/// Which functions of the module can be called: those that take primitives and enumerations by value.
const CALLABLE: &[(&str, bool)] = &[
    ("void f()", true),
    ("int f(int)", true),
    ("int f(const int)", true),
    ("int f(int &in)", false),
    ("int f(int &out)", false),
    ("const int c()", true),
    ("uint g(uint8, int64, bool)", true),
    ("void u(int)", true),
    ("Color k(Color, const Color)", true),
];

/// `void f()` and spaces, as many bytes as that.
fn spaced(alloc: Global, length: usize) -> Result<Vec<u8>, AllocError> {
    let mut text = Vec::from_slice(alloc, b"void f()")?;
    for _ in 8..length {
        text.push(b' ')?;
    }
    Ok(text)
}

pub(crate) fn is_found(
    alloc: Global,
    view: &View,
    names: &Names,
    decl: &[u8],
    wanted: Option<usize>,
) -> bool {
    if names.families().len() > 256 {
        return false;
    }
    match find_function(alloc, view, names, decl) {
        Ok(found) => found == wanted,
        Err(_) => false,
    }
}

fn wrong_name(alloc: Global, view: &View, names: &Names) -> Option<&'static str> {
    for row in NAMED {
        let (decl, number) = *row;
        if !is_found(alloc, view, names, decl.as_bytes(), Some(number)) {
            return Some(decl);
        }
    }
    None
}

fn wrongly_named(alloc: Global, view: &View, names: &Names) -> Option<&'static str> {
    for decl in NOT_NAMED {
        if !is_found(alloc, view, names, decl.as_bytes(), None) {
            return Some(*decl);
        }
    }
    None
}

fn is_spaced_found(
    alloc: Global,
    view: &View,
    names: &Names,
    length: usize,
    wanted: Option<usize>,
) -> bool {
    let Ok(text) = spaced(alloc, length) else {
        return false;
    };
    is_found(alloc, view, names, &text, wanted)
}

fn wrong_length(alloc: Global, view: &View, names: &Names) -> Option<&'static str> {
    for row in LENGTHS {
        let (what, length, wanted) = *row;
        if !is_spaced_found(alloc, view, names, length, wanted) {
            return Some(what);
        }
    }
    None
}

fn wrongly_callable(functions: &[ScriptFunction]) -> Option<&'static str> {
    for (i, row) in CALLABLE.iter().enumerate() {
        let (heading, wanted) = *row;
        match functions.get(i) {
            Some(function) if is_callable(function) == wanted => {}
            _ => return Some(heading),
        }
    }
    if functions.len() == CALLABLE.len() {
        None
    } else {
        Some("another function")
    }
}

/// What the module's names are asked.
#[derive(Clone, Copy)]
enum Asked {
    Named,
    NotNamed,
    Lengths,
    Callable,
}

fn wrong_in(alloc: Global, view: &View, names: &Names, asked: Asked) -> Option<&'static str> {
    match asked {
        Asked::Named => wrong_name(alloc, view, names),
        Asked::NotNamed => wrongly_named(alloc, view, names),
        Asked::Lengths => wrong_length(alloc, view, names),
        Asked::Callable => wrongly_callable(names.functions()),
    }
}

fn wrong_in_view(alloc: Global, view: &View, asked: Asked) -> Option<&'static str> {
    let Some(names) = names_in(alloc, view, MODULE) else {
        return Some("the module");
    };
    let wrong = wrong_in(alloc, view, &names, asked);
    drop(names);
    wrong
}

/// The first row that is answered wrongly.
fn first_wrong(alloc: Global, asked: Asked) -> Option<&'static str> {
    let Some(view) = view(alloc) else {
        return Some("the view");
    };
    let wrong = wrong_in_view(alloc, &view, asked);
    drop(view);
    wrong
}

#[test]
fn a_declaration_names_its_function(rt: HostRuntime) {
    let wrong = first_wrong(rt.alloc(), Asked::Named);
    assert!(rt; wrong.is_none(), "{wrong:?}");
}

#[test]
fn another_heading_or_form_names_nothing(rt: HostRuntime) {
    let wrong = first_wrong(rt.alloc(), Asked::NotNamed);
    assert!(rt; wrong.is_none(), "{wrong:?}");
}

#[test]
fn a_text_has_room_for_an_empty_body(rt: HostRuntime) {
    let wrong = first_wrong(rt.alloc(), Asked::Lengths);
    assert!(rt; wrong.is_none(), "{wrong:?}");
}

#[test]
fn primitives_by_value_can_be_passed(rt: HostRuntime) {
    let wrong = first_wrong(rt.alloc(), Asked::Callable);
    assert!(rt; wrong.is_none(), "{wrong:?}");
}
