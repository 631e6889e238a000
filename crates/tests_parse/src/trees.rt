//! Worked examples of the grammar: the trees of short scripts.

use ang_lex::{TokenKind, lex};
use ang_parse::parse;
use ang_tree::{
    Class, Declaration, Expression, Function, Initializer, Member, Parameter, Parameters,
    Reference, Script, Variables,
};
use std::alloc::Global;

/// What a declaration is.
#[derive(Clone, Copy, PartialEq, Eq)]
enum Sort {
    Globals,
    Class,
    Interface,
    Import,
    Function,
    Empty,
}

/// What an expression is, as far as the rows below ask.
#[derive(Clone, Copy, PartialEq, Eq)]
enum Kind {
    Literal,
    Name,
    ScopedCall,
    ScopedName,
    Member,
    Prefix,
    Binary(TokenKind),
    Conditional,
    Assignment,
    Another,
}

/// What a variable begins with.
#[derive(Clone, Copy, PartialEq, Eq)]
enum Start {
    Absent,
    Value,
    Constructor,
}

/// What a parameter has: a comma in front of it, `const`, `@`, `&`, a word after `&`, a name.
#[derive(Clone, Copy, PartialEq, Eq)]
struct Parts {
    comma: bool,
    constant: bool,
    handle: bool,
    reference: bool,
    direction: Option<TokenKind>,
    name: bool,
}

/// What a member of a class is, and what it has.
#[derive(Clone, Copy, PartialEq, Eq)]
enum Shape {
    Fields {
        access: bool,
        names: usize,
    },
    Method {
        constant: bool,
        attributes: usize,
    },
    Constructor {
        calls_super: bool,
        statements: usize,
    },
}

/// What a script has to have.
#[derive(Clone, Copy)]
enum Fact {
    /// Its declarations.
    Declarations(&'static [Sort]),
    /// The first variable's value, and that value's first and last operand.
    Value(Kind, Kind, Kind),
    /// What each variable begins with.
    Starts(&'static [Start]),
    /// Whether the function's word `void` stands for no parameters, and its parameters.
    Parameters(bool, &'static [Parts]),
    /// The function's result is a handle, how many parameters it has, and how many statements.
    Function(usize, usize),
    /// Whether the class is `final`, how many names are after its colon, and its members.
    Class(bool, usize, &'static [Shape]),
}

fn sort_of(declaration: &Declaration) -> Sort {
    match declaration {
        Declaration::Globals(_) => Sort::Globals,
        Declaration::Class(_) => Sort::Class,
        Declaration::Interface(_) => Sort::Interface,
        Declaration::Import(_) => Sort::Import,
        Declaration::Function(_) => Sort::Function,
        Declaration::Empty(_) => Sort::Empty,
    }
}

fn are_sorts(declarations: &[Declaration], sorts: &[Sort]) -> bool {
    for (i, declaration) in declarations.iter().enumerate() {
        if sorts.get(i).copied() != Some(sort_of(declaration)) {
            return false;
        }
    }
    declarations.len() == sorts.len()
}

fn kind_of(tree: &Expression) -> Kind {
    match tree {
        Expression::Literal(_) => Kind::Literal,
        Expression::Name(_) => Kind::Name,
        Expression::ScopedCall { .. } => Kind::ScopedCall,
        Expression::ScopedName { .. } => Kind::ScopedName,
        Expression::Member { .. } => Kind::Member,
        Expression::Prefix { .. } => Kind::Prefix,
        Expression::Binary { operator, .. } => Kind::Binary(operator.kind),
        Expression::Conditional { .. } => Kind::Conditional,
        Expression::Assignment { .. } => Kind::Assignment,
        _ => Kind::Another,
    }
}

/// The kinds of the first and the last operand.
fn ends_of(tree: &Expression) -> (Kind, Kind) {
    match tree {
        Expression::Prefix { operand, .. } => (kind_of(operand), kind_of(operand)),
        Expression::Binary { left, right, .. } => (kind_of(left), kind_of(right)),
        Expression::Conditional {
            condition,
            otherwise,
            ..
        } => (kind_of(condition), kind_of(otherwise)),
        _ => (Kind::Another, Kind::Another),
    }
}

fn start_of(initializer: &Initializer) -> Start {
    match initializer {
        Initializer::Absent => Start::Absent,
        Initializer::Value(_) => Start::Value,
        Initializer::Constructor(_) => Start::Constructor,
    }
}

fn are_starts(variables: &Variables, starts: &[Start]) -> bool {
    for (i, item) in variables.items.iter().enumerate() {
        if starts.get(i).copied() != Some(start_of(&item.initializer)) {
            return false;
        }
    }
    variables.items.len() == starts.len()
}

fn direction_of(reference: Option<Reference>) -> Option<TokenKind> {
    match reference?.direction {
        Some(word) => Some(word.kind),
        None => None,
    }
}

fn parts_of(parameter: &Parameter) -> Parts {
    Parts {
        comma: parameter.comma.is_some(),
        constant: parameter.declared_type.constant.is_some(),
        handle: parameter.declared_type.handle.is_some(),
        reference: parameter.reference.is_some(),
        direction: direction_of(parameter.reference),
        name: parameter.name.is_some(),
    }
}

fn are_parameters(found: &Parameters, has_void: bool, parts: &[Parts]) -> bool {
    for (i, item) in found.items.iter().enumerate() {
        if parts.get(i).copied() != Some(parts_of(item)) {
            return false;
        }
    }
    found.items.len() == parts.len() && found.void_word.is_some() == has_void
}

fn shape_of(member: &Member) -> Shape {
    match member {
        Member::Fields(fields) => Shape::Fields {
            access: fields.access.is_some(),
            names: fields.names.len(),
        },
        Member::Method(method) => Shape::Method {
            constant: method.constant.is_some(),
            attributes: method.attributes.len(),
        },
        Member::Constructor(constructor) => Shape::Constructor {
            calls_super: constructor.super_call.is_some(),
            statements: constructor.statements.len(),
        },
    }
}

fn is_class(class: &Class, is_final: bool, bases: usize, shapes: &[Shape]) -> bool {
    for (i, member) in class.members.iter().enumerate() {
        if shapes.get(i).copied() != Some(shape_of(member)) {
            return false;
        }
    }
    class.members.len() == shapes.len()
        && class.final_word.is_some() == is_final
        && class.bases.len() == bases
}

fn is_function(function: &Function, parameters: usize, statements: usize) -> bool {
    function.result.handle.is_some()
        && function.parameters.items.len() == parameters
        && function.body.statements.len() == statements
}

/// The value of the first variable.
fn value_of(variables: &Variables) -> Option<&Expression> {
    match &variables.items.first()?.initializer {
        Initializer::Value(assigned) => Some(&assigned.value),
        _ => None,
    }
}

fn is_value(value: &Expression, fact: Fact) -> bool {
    match fact {
        Fact::Value(whole, first, last) => {
            kind_of(value) == whole && ends_of(value) == (first, last)
        }
        _ => false,
    }
}

fn are_globals(variables: &Variables, fact: Fact) -> bool {
    match (fact, value_of(variables)) {
        (Fact::Starts(starts), _) => are_starts(variables, starts),
        (_, Some(value)) => is_value(value, fact),
        (_, None) => false,
    }
}

/// Whether the first declaration is as it is said.
fn is_first(first: &Declaration, fact: Fact) -> bool {
    match (first, fact) {
        (Declaration::Globals(variables), _) => are_globals(variables, fact),
        (Declaration::Function(function), Fact::Parameters(has_void, parts)) => {
            are_parameters(&function.parameters, has_void, parts)
        }
        (Declaration::Function(function), Fact::Function(parameters, statements)) => {
            is_function(function, parameters, statements)
        }
        (Declaration::Class(class), Fact::Class(is_final, bases, shapes)) => {
            is_class(class, is_final, bases, shapes)
        }
        _ => false,
    }
}

fn has(script: &Script, fact: Fact) -> bool {
    match (fact, script.declarations.first()) {
        (Fact::Declarations(sorts), _) => are_sorts(&script.declarations, sorts),
        (_, Some(first)) => is_first(first, fact),
        (_, None) => false,
    }
}

/// Whether the text is a script that keeps it, and has what it has to.
fn is_so(alloc: Global, text: &[u8], fact: Fact) -> bool {
    let Ok(tokens) = lex(alloc, text, 3) else {
        return false;
    };
    match &parse(alloc, text, &tokens) {
        Ok(script) => script.source.as_slice() == text && has(script, fact),
        Err(_) => false,
    }
}

/// `void`
const TYPE: Parts = Parts {
    comma: false,
    constant: false,
    handle: false,
    reference: false,
    direction: None,
    name: false,
};

/// `, D`
const MORE_TYPE: Parts = Parts {
    comma: true,
    ..TYPE
};

/// `void x`
const NAMED: Parts = Parts { name: true, ..TYPE };

/// `const A@ const &in a`
const IN: Parts = Parts {
    comma: false,
    constant: true,
    handle: true,
    reference: true,
    direction: Some(TokenKind::In),
    name: true,
};

/// `, int& out b`
const OUT: Parts = Parts {
    comma: true,
    constant: false,
    handle: false,
    reference: true,
    direction: Some(TokenKind::Out),
    name: true,
};

/// `, B &inout`
const IN_OUT: Parts = Parts {
    direction: Some(TokenKind::InOut),
    name: false,
    ..OUT
};

/// `, C& c`
const NO_WORD: Parts = Parts {
    direction: None,
    ..OUT
};

const ALL_SORTS: &str =
    "int a; class B {} interface I {} import void f() from \"m\"; void g() {} ;";

const BLOCK: &str = "A@ f(B, int &out c) { return c; } class D {}";

const BASES: &str = "class A : B, C {} class D {}";

/// A script, and what it has to have.
const SCRIPTS: &[(&str, Fact)] = &[
    (
        ALL_SORTS,
        Fact::Declarations(&[
            Sort::Globals,
            Sort::Class,
            Sort::Interface,
            Sort::Import,
            Sort::Function,
            Sort::Empty,
        ]),
    ),
    // multiplication binds tighter
    (
        "int v = 1 + 2 * 3;",
        Fact::Value(
            Kind::Binary(TokenKind::Plus),
            Kind::Literal,
            Kind::Binary(TokenKind::Star),
        ),
    ),
    // subtraction groups to the left
    (
        "int v = a - b - c;",
        Fact::Value(
            Kind::Binary(TokenKind::Minus),
            Kind::Binary(TokenKind::Minus),
            Kind::Name,
        ),
    ),
    // `a ? b : (c = d)`
    (
        "int v = a ? b : c = d;",
        Fact::Value(Kind::Conditional, Kind::Name, Kind::Assignment),
    ),
    // a member binds tighter than a prefix
    (
        "int v = -a.b;",
        Fact::Value(Kind::Prefix, Kind::Member, Kind::Member),
    ),
    // two names with `::` between them are a value, and with a parenthesis behind them a call
    (
        "int v = E::V;",
        Fact::Value(Kind::ScopedName, Kind::Another, Kind::Another),
    ),
    (
        "int v = E::V + 1;",
        Fact::Value(
            Kind::Binary(TokenKind::Plus),
            Kind::ScopedName,
            Kind::Literal,
        ),
    ),
    (
        "int v = E::V(1);",
        Fact::Value(Kind::ScopedCall, Kind::Another, Kind::Another),
    ),
    // `void` alone is no parameters
    ("void f() {}", Fact::Parameters(false, &[])),
    ("void f(void) {}", Fact::Parameters(true, &[])),
    ("void f(void x) {}", Fact::Parameters(false, &[NAMED])),
    (
        "void f(void, void) {}",
        Fact::Parameters(false, &[TYPE, MORE_TYPE]),
    ),
    (
        "void f(const A@ const &in a, int& out b, B &inout, C& c, D) {}",
        Fact::Parameters(false, &[IN, OUT, IN_OUT, NO_WORD, MORE_TYPE]),
    ),
    // a block makes a function
    (BLOCK, Fact::Function(2, 1)),
    // the group is parameters as well, and a semicolon tells
    ("A x(B & C);", Fact::Starts(&[Start::Constructor])),
    (
        "const int a = (1), b, c((2) + 3);",
        Fact::Starts(&[Start::Value, Start::Absent, Start::Constructor]),
    ),
    // bases are names after a colon
    (BASES, Fact::Class(false, 2, &[])),
    // `final` stands in front of `class`
    ("final class A {}", Fact::Class(true, 0, &[])),
    // a parenthesis tells members apart
    (
        "class A { private int x, y; A@ f(int a) const final override { b; } A() { super(1); c; } A d; }",
        Fact::Class(
            false,
            0,
            &[
                Shape::Fields {
                    access: true,
                    names: 2,
                },
                Shape::Method {
                    constant: true,
                    attributes: 2,
                },
                Shape::Constructor {
                    calls_super: true,
                    statements: 1,
                },
                Shape::Fields {
                    access: false,
                    names: 1,
                },
            ],
        ),
    ),
];

#[test]
fn scripts_have_their_trees(rt: HostRuntime) {
    for (i, row) in SCRIPTS.iter().enumerate() {
        let (text, fact) = *row;
        assert!(rt; is_so(rt.alloc(), text.as_bytes(), fact), "row {i}: {text}");
    }
}
