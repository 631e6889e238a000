//! The texts of declarations: what is written of what a section declares, and that a function's text names it.

use crate::headings::{is_found, names_in, view};
use ang_engine_call::{find_import, push_function, push_global};
use ang_names::Names;
use ang_registry::View;
use std::alloc::Global;

const MODULE: &[u8] = b"class C {} interface I {} void f() {}
int f(int8 a, int16 b, int32 c, int64 d) {}
uint f(uint8, uint16 b, uint32, uint64 d, bool) {}
const Cell@ f(const Cell &in c, Cell &inout d, Cell@ e, const Cell@ const g) {}
Color k(const Color, Color &in, Color &out o, Shade s) {}
C@ const h(const C &in, C &, C@ &in, const C@ &out o, I@ const i) {}
const void w() {}
int a = 1, b = 2; const bool t = true; Cell@ const r; const C@ q; C x;
import int f(int n, Cell@ c) from \"m\"; import void g() from \"n\";
import int f(Cell@ c, int n) from \"o\"; import void h(const Cell@) from \"m\";";

/// The texts of the functions, in order.
const FUNCTIONS: &[&str] = &[
    "void f()",
    "int f(int8 a, int16 b, int c, int64 d)",
    "uint f(uint8, uint16 b, uint, uint64 d, bool)",
    "const Cell@ f(const Cell &in c, Cell &inout d, Cell@ e, const Cell@ const g)",
    "Color k(const Color, Color &in, Color &out o, Shade s)",
    "C@ const h(const C &in, C &inout, C@ &in, const C@ &out o, I@ const i)",
    "const void w()",
];

/// The texts of the global variables.
const GLOBALS: &[&str] = &[
    "int a",
    "int b",
    "const bool t",
    "Cell@ const r",
    "const C@ q",
    "C x",
];

/// The texts of the imports, each with the number that is found by it.
const IMPORTS: &[(&str, usize)] = &[
    ("int f(int n, Cell@ c)", 0),
    ("void g()", 1),
    ("int f(Cell@ c, int n)", 2),
    ("void h(const Cell@)", 3),
];

fn writes_function(alloc: Global, view: &View, names: &Names, number: usize, wanted: &str) -> bool {
    let mut out = Vec::new(alloc);
    let Some(function) = names.functions().get(number) else {
        return false;
    };
    let written = push_function(&mut out, view, names, function);
    written.is_ok()
        && out.as_slice() == wanted.as_bytes()
        && is_found(alloc, view, names, &out, Some(number))
}

fn writes_global(alloc: Global, view: &View, names: &Names, number: usize, wanted: &str) -> bool {
    let mut out = Vec::new(alloc);
    let Some(global) = names.globals().get(number) else {
        return false;
    };
    let written = push_global(&mut out, view, names, global);
    written.is_ok() && out.as_slice() == wanted.as_bytes()
}

fn is_import(alloc: Global, view: &View, names: &Names, decl: &[u8], wanted: usize) -> bool {
    if names.families().len() > 256 {
        return false;
    }
    match find_import(alloc, view, names, decl) {
        Ok(Some(found)) => found == wanted,
        _ => false,
    }
}

fn writes_import(
    alloc: Global,
    view: &View,
    names: &Names,
    number: usize,
    row: (&str, usize),
) -> bool {
    let mut out = Vec::new(alloc);
    let Some(import) = names.imports().get(number) else {
        return false;
    };
    let written = push_function(&mut out, view, names, import);
    let (wanted, found) = row;
    written.is_ok()
        && out.as_slice() == wanted.as_bytes()
        && is_import(alloc, view, names, &out, found)
}

fn wrong_function(alloc: Global, view: &View, names: &Names) -> Option<&'static str> {
    for (number, wanted) in FUNCTIONS.iter().enumerate() {
        if !writes_function(alloc, view, names, number, *wanted) {
            return Some(*wanted);
        }
    }
    None
}

fn wrong_global(alloc: Global, view: &View, names: &Names) -> Option<&'static str> {
    for (number, wanted) in GLOBALS.iter().enumerate() {
        if !writes_global(alloc, view, names, number, *wanted) {
            return Some(*wanted);
        }
    }
    None
}

fn wrong_import(alloc: Global, view: &View, names: &Names) -> Option<&'static str> {
    for (number, row) in IMPORTS.iter().enumerate() {
        if !writes_import(alloc, view, names, number, *row) {
            return Some(row.0);
        }
    }
    None
}

/// What is written.
#[derive(Clone, Copy)]
enum Written {
    Functions,
    Globals,
    Imports,
}

fn wrong_in(alloc: Global, view: &View, names: &Names, written: Written) -> Option<&'static str> {
    match written {
        Written::Functions => wrong_function(alloc, view, names),
        Written::Globals => wrong_global(alloc, view, names),
        Written::Imports => wrong_import(alloc, view, names),
    }
}

fn wrong_in_view(alloc: Global, view: &View, written: Written) -> Option<&'static str> {
    let Some(names) = names_in(alloc, view, MODULE) else {
        return Some("the module");
    };
    let wrong = wrong_in(alloc, view, &names, written);
    drop(names);
    wrong
}

/// The first text that is written otherwise, or not found again.
fn first_wrong(alloc: Global, written: Written) -> Option<&'static str> {
    let Some(view) = view(alloc) else {
        return Some("the view");
    };
    let wrong = wrong_in_view(alloc, &view, written);
    drop(view);
    wrong
}

#[test]
fn a_function_is_found_by_its_text(rt: HostRuntime) {
    let wrong = first_wrong(rt.alloc(), Written::Functions);
    assert!(rt; wrong.is_none(), "{wrong:?}");
}

#[test]
fn a_global_has_its_type_as_written(rt: HostRuntime) {
    let wrong = first_wrong(rt.alloc(), Written::Globals);
    assert!(rt; wrong.is_none(), "{wrong:?}");
}

#[test]
fn an_import_is_found_by_its_text(rt: HostRuntime) {
    let wrong = first_wrong(rt.alloc(), Written::Imports);
    assert!(rt; wrong.is_none(), "{wrong:?}");
}
