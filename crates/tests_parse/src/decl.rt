//! Worked declarations: those of a profile that has every kind of entity, and refused ones.

use ang_decl::{
    DeclError, parse_factory, parse_function, parse_method, parse_property, parse_type,
};
use ang_kinds::{Param, Pass, Prim, Shape, Signature, TypeRef};
use std::alloc::Global;

/// One of the five parsers.
#[derive(Clone, Copy)]
enum Parser {
    Type,
    Function,
    Method,
    Property,
    Factory,
}

fn parsed(alloc: Global, parser: Parser, text: &str) -> Result<Signature, DeclError> {
    let text = text.as_bytes();
    match parser {
        Parser::Type => parse_type(alloc, text),
        Parser::Function => parse_function(alloc, text),
        Parser::Method => parse_method(alloc, text),
        Parser::Property => parse_property(alloc, text),
        Parser::Factory => parse_factory(alloc, text),
    }
}

/// What a test wants a type to be.
#[derive(Clone, Copy)]
enum Want {
    Void,
    Plain(Prim),
    /// The type's name, its shape, and whether the object is `const`. No handle is.
    Object(&'static str, Shape, bool),
}

const INT: Want = Want::Plain(Prim::I32);

const INT64: Want = Want::Plain(Prim::I64);

const UINT: Want = Want::Plain(Prim::U32);

const CELL: Want = Want::Object("Cell", Shape::AutoHandle, false);

const CONST_CELL: Want = Want::Object("Cell", Shape::AutoHandle, true);

/// A bare name, which the registry makes an enumeration where one has it.
const COLOR: Want = Want::Object("Color", Shape::ByValue, false);

const CONST_COLOR: Want = Want::Object("Color", Shape::ByValue, true);

const MADE_CELL: Want = Want::Object("Cell", Shape::Handle, false);

const MADE_COUNTER: Want = Want::Object("Counter", Shape::Handle, false);

/// A declaration and the signature that it has: its name, its result, each parameter with its name, and
/// whether it is read only.
type Worked = (
    Parser,
    &'static str,
    &'static str,
    Want,
    &'static [(Want, &'static str)],
    bool,
);

/// Those of a profile with two types, and others that have what these lack.
static WORKED: [Worked; 25] = [
    (
        Parser::Factory,
        "Counter@ f()",
        "f",
        MADE_COUNTER,
        &[],
        false,
    ),
    (
        Parser::Factory,
        "Counter@ f(int)",
        "f",
        MADE_COUNTER,
        &[(INT, "")],
        false,
    ),
    (
        Parser::Method,
        "void bump()",
        "bump",
        Want::Void,
        &[],
        false,
    ),
    (Parser::Method, "int value() const", "value", INT, &[], true),
    (Parser::Property, "int step", "step", INT, &[], false),
    (
        Parser::Factory,
        "Cell@ f(int)",
        "f",
        MADE_CELL,
        &[(INT, "")],
        false,
    ),
    (
        Parser::Factory,
        "Cell@ f(Cell@+, int)",
        "f",
        MADE_CELL,
        &[(CELL, ""), (INT, "")],
        false,
    ),
    (Parser::Method, "int get() const", "get", INT, &[], true),
    (
        Parser::Method,
        "void set(int)",
        "set",
        Want::Void,
        &[(INT, "")],
        false,
    ),
    (
        Parser::Function,
        "Cell@+ pick(Cell@+)",
        "pick",
        CELL,
        &[(CELL, "")],
        false,
    ),
    (
        Parser::Function,
        "void print(int64)",
        "print",
        Want::Void,
        &[(INT64, "")],
        false,
    ),
    (
        Parser::Function,
        "int64 sum(int64, int64)",
        "sum",
        INT64,
        &[(INT64, ""), (INT64, "")],
        false,
    ),
    (
        Parser::Function,
        "void fail(uint)",
        "fail",
        Want::Void,
        &[(UINT, "")],
        false,
    ),
    (Parser::Property, "int64 reg", "reg", INT64, &[], false),
    (
        Parser::Property,
        "const int64 limit",
        "limit",
        INT64,
        &[],
        true,
    ),
    (Parser::Type, "const Cell@+", "", CONST_CELL, &[], false),
    (
        Parser::Function,
        "uint32 f ( /* none */ void )",
        "f",
        UINT,
        &[],
        false,
    ),
    (
        Parser::Function,
        "void f(int32 count, const Cell @ + other)",
        "f",
        Want::Void,
        &[(INT, "count"), (CONST_CELL, "other")],
        false,
    ),
    (
        Parser::Function,
        "void paint(Color)",
        "paint",
        Want::Void,
        &[(COLOR, "")],
        false,
    ),
    (
        Parser::Function,
        "Color mixed(Color a, int)",
        "mixed",
        COLOR,
        &[(COLOR, "a"), (INT, "")],
        false,
    ),
    (
        Parser::Factory,
        "Cell@ f(Color)",
        "f",
        MADE_CELL,
        &[(COLOR, "")],
        false,
    ),
    (
        Parser::Method,
        "Color color() const",
        "color",
        COLOR,
        &[],
        true,
    ),
    (Parser::Property, "Color tint", "tint", COLOR, &[], false),
    (
        Parser::Property,
        "const Color base",
        "base",
        CONST_COLOR,
        &[],
        true,
    ),
    (Parser::Type, "Color", "", COLOR, &[], false),
];

/// Texts that are of no form, or of one that is left out.
static REFUSED: [(Parser, &str, DeclError); 25] = [
    (Parser::Function, "", DeclError::Syntax),
    (Parser::Function, "void f(int,)", DeclError::Syntax),
    (Parser::Function, "void f(int a = 1)", DeclError::Syntax),
    (Parser::Function, "void if()", DeclError::Syntax),
    (Parser::Function, "void f() const", DeclError::Syntax),
    (Parser::Function, "void f(int # a)", DeclError::Syntax),
    (Parser::Function, "void f(Cell@+@)", DeclError::Syntax),
    (Parser::Method, "void f() const const", DeclError::Syntax),
    (Parser::Factory, "Cell@+ f()", DeclError::Syntax),
    (Parser::Factory, "Cell f()", DeclError::Syntax),
    (Parser::Factory, "int@ f()", DeclError::Syntax),
    (Parser::Property, "int", DeclError::Syntax),
    (Parser::Type, "int step", DeclError::Syntax),
    (
        Parser::Function,
        "void f(int &in a)",
        DeclError::Unsupported,
    ),
    (Parser::Function, "void f(int &)", DeclError::Unsupported),
    (
        Parser::Function,
        "void f(Color &in)",
        DeclError::Unsupported,
    ),
    (
        Parser::Function,
        "void f(const Color)",
        DeclError::Unsupported,
    ),
    (Parser::Function, "void f(Cell@)", DeclError::Unsupported),
    (
        Parser::Function,
        "void f(const int)",
        DeclError::Unsupported,
    ),
    (
        Parser::Function,
        "void f(int, void)",
        DeclError::Unsupported,
    ),
    (Parser::Function, "const Color f()", DeclError::Unsupported),
    (Parser::Function, "Cell@ f()", DeclError::Unsupported),
    (
        Parser::Method,
        "void f(Cell@+ const) const",
        DeclError::Unsupported,
    ),
    (Parser::Property, "Cell@+ next", DeclError::Unsupported),
    (Parser::Type, "int@", DeclError::Unsupported),
];

fn is_type(ty: &TypeRef, want: Want) -> bool {
    match (ty, want) {
        (TypeRef::Void, Want::Void) => true,
        (TypeRef::Plain(primitive), Want::Plain(wanted)) => *primitive == wanted,
        (
            TypeRef::Object {
                name,
                shape,
                const_object,
                const_handle,
            },
            Want::Object(wanted, wanted_shape, is_const),
        ) => name.as_slice() == wanted.as_bytes()
            && *shape == wanted_shape
            && *const_object == is_const
            && !*const_handle,
        _ => false,
    }
}

fn is_parameter(param: &Param, want: Want, name: &str) -> bool {
    is_type(&param.ty, want)
        && param.pass == Pass::Value
        && !param.read_only
        && param.name.as_slice() == name.as_bytes()
}

fn are_parameters(params: &[Param], wanted: &[(Want, &str)]) -> bool {
    for (i, param) in params.iter().enumerate() {
        match wanted.get(i) {
            Some((want, name)) if is_parameter(param, *want, name) => {}
            _ => return false,
        }
    }
    params.len() == wanted.len()
}

fn is_signature(
    signature: &Signature,
    name: &str,
    gives: Want,
    params: &[(Want, &str)],
    read_only: bool,
) -> bool {
    signature.name.as_slice() == name.as_bytes()
        && is_type(&signature.result, gives)
        && are_parameters(signature.params.as_slice(), params)
        && signature.read_only == read_only
}

fn has_signature(alloc: Global, row: &Worked) -> bool {
    let (parser, text, name, result, params, read_only) = *row;
    match &parsed(alloc, parser, text) {
        Ok(signature) => is_signature(signature, name, result, params, read_only),
        Err(_) => false,
    }
}

#[test]
fn declarations_have_their_signatures(rt: HostRuntime) {
    for row in &WORKED {
        assert!(rt; has_signature(rt.alloc(), row), "{}", row.1);
    }
}

/// Why a text is refused, if it is.
fn refusal(alloc: Global, parser: Parser, text: &str) -> Option<DeclError> {
    match &parsed(alloc, parser, text) {
        Ok(_) => None,
        Err(error) => Some(*error),
    }
}

#[test]
fn other_texts_are_refused(rt: HostRuntime) {
    for row in &REFUSED {
        let (parser, text, why) = *row;
        assert!(rt; refusal(rt.alloc(), parser, text) == Some(why), "{text}");
    }
}

/// Whether the text is taken, or is refused for want of memory and is taken when it is read again.
fn is_taken(alloc: Global, parser: Parser, text: &str) -> bool {
    match refusal(alloc, parser, text) {
        None => true,
        Some(why) => why == DeclError::Memory && refusal(alloc, parser, text).is_none(),
    }
}

// Run with each growth of memory refused in turn, one declaration is answered so, and is taken when it is read again.
#[test]
fn a_refused_growth_is_want_of_memory(rt: HostRuntime) {
    for row in &WORKED {
        assert!(rt; is_taken(rt.alloc(), row.0, row.1), "{}", row.1);
    }
}
