//! Examples of the language's rules, on operands made by hand.

use self::Asked::{
    Between, Chosen, ConstantCountedDown, Converted, CountedUp, GroupCountedUp, InFront, Literal,
    Seated, Stored, StoredInValue,
};
use ang_check_operators::{
    Operand, SiteUse, TypingError, assignment, binary, boxed, conditional, convert, group, literal,
    plain_operand, postfix, prefix, reading,
};
use ang_kinds::{ErrorKind, Place, Prim};
use ang_lex::{Span, Token, TokenKind};
use ang_typed::{TypedExpression, TypedSite, TypedVariable};
use ang_types::{ArgType, Lineage};
use std::alloc::Global;

fn at(column: u32) -> Place {
    Place {
        sect: 0,
        line: 1,
        column,
    }
}

fn token(kind: TokenKind, column: u32) -> Token {
    Token {
        kind,
        span: Span { start: 0, end: 0 },
        place: at(column),
    }
}

/// A value of this type.
fn value(alloc: Global, ty: ArgType, column: u32) -> Result<Operand, TypingError> {
    let tree = boxed(alloc, TypedExpression::Null)?;
    Ok(plain_operand(at(column), ty, tree))
}

/// A local variable of this type.
fn variable(
    alloc: Global,
    ty: ArgType,
    column: u32,
    read_only: bool,
) -> Result<Operand, TypingError> {
    let target = SiteUse {
        read_only,
        bare: true,
        name: token(TokenKind::Name, column),
    };
    let site = TypedSite::Named(TypedVariable::Local(0));
    Ok(reading(alloc, at(column), site, ty, target)?)
}

type Typing = Result<ArgType, Option<(ErrorKind, u32)>>;

/// The type that was given, or what was refused and in which column.
fn typing(typed: Result<Operand, TypingError>) -> Typing {
    match typed {
        Ok(operand) => Ok(operand.ty),
        Err(TypingError::Refused(refusal)) => Err(Some((refusal.kind, refusal.place.column))),
        Err(TypingError::Memory) => Err(None),
    }
}

/// The operator between values of these types.
fn between(
    alloc: Global,
    lineage: &Lineage,
    left: ArgType,
    operator: TokenKind,
    right: ArgType,
) -> Result<Operand, TypingError> {
    let left = value(alloc, left, 1)?;
    let right = value(alloc, right, 5)?;
    binary(alloc, lineage, left, operator, right)
}

/// The operator in front of a value of this type.
fn in_front(
    alloc: Global,
    lineage: &Lineage,
    operator: TokenKind,
    ty: ArgType,
) -> Result<Operand, TypingError> {
    let operand = value(alloc, ty, 2)?;
    prefix(alloc, lineage, &token(operator, 1), operand)
}

/// A conversion to the primitive type that is written in front of a value of this type.
fn converted(
    alloc: Global,
    lineage: &Lineage,
    to: Prim,
    ty: ArgType,
) -> Result<Operand, TypingError> {
    let operand = value(alloc, ty, 6)?;
    let word = token(TokenKind::Primitive(to), 1);
    convert(alloc, lineage, &word, operand)
}

/// `++` after a variable in parentheses.
fn group_counted_up(alloc: Global) -> Result<Operand, TypingError> {
    let inner = variable(alloc, I8, 2, false)?;
    postfix(alloc, group(at(1), inner), TokenKind::Increment)
}

/// `--` after a variable that can't be written.
fn constant_counted_down(alloc: Global) -> Result<Operand, TypingError> {
    let constant = variable(alloc, I8, 2, true)?;
    postfix(alloc, constant, TokenKind::Decrement)
}

/// `++` in front of a variable of this type.
fn counted_up(alloc: Global, lineage: &Lineage, ty: ArgType) -> Result<Operand, TypingError> {
    let operand = variable(alloc, ty, 2, false)?;
    prefix(alloc, lineage, &token(TokenKind::Increment, 1), operand)
}

/// A value of this type assigned to what is written in front of it.
fn stored(
    alloc: Global,
    lineage: &Lineage,
    written: Result<Operand, TypingError>,
    operator: TokenKind,
    ty: ArgType,
) -> Result<Operand, TypingError> {
    let written = written?;
    let value = value(alloc, ty, 6)?;
    assignment(alloc, lineage, written, &token(operator, 4), value)
}

/// `@` in front of a variable.
fn seat(
    alloc: Global,
    lineage: &Lineage,
    ty: ArgType,
    read_only: bool,
) -> Result<Operand, TypingError> {
    let inner = variable(alloc, ty, 2, read_only)?;
    prefix(alloc, lineage, &token(TokenKind::At, 1), inner)
}

/// `?:` with values of these types.
fn chosen(
    alloc: Global,
    lineage: &Lineage,
    then: ArgType,
    otherwise: ArgType,
) -> Result<Operand, TypingError> {
    let condition = value(alloc, BOOL, 1)?;
    let then = value(alloc, then, 5)?;
    let otherwise = value(alloc, otherwise, 9)?;
    conditional(alloc, lineage, condition, then, otherwise)
}

const BOOL: ArgType = ArgType::Plain(Prim::Bool);

const I8: ArgType = ArgType::Plain(Prim::I8);

const I32: ArgType = ArgType::Plain(Prim::I32);

const COLOR: ArgType = ArgType::Enumeration { number: 2 };

const SIDE: ArgType = ArgType::Enumeration { number: 3 };

const CELL: ArgType = ArgType::Object {
    number: 0,
    read_only: false,
};

const HANDLE: ArgType = ArgType::Handle {
    number: 0,
    read_only: false,
};

const TO_CONST: ArgType = ArgType::Handle {
    number: 0,
    read_only: true,
};

const OTHER: ArgType = ArgType::Handle {
    number: 1,
    read_only: false,
};

/// What is typed.
enum Asked {
    /// The operator between values of these types.
    Between(ArgType, TokenKind, ArgType),
    /// The operator in front of a value of this type.
    InFront(TokenKind, ArgType),
    /// A conversion to the primitive type of a value of this type.
    Converted(Prim, ArgType),
    /// A number.
    Literal(&'static [u8]),
    /// `++` after a variable in parentheses.
    GroupCountedUp,
    /// `--` after a variable that can't be written.
    ConstantCountedDown,
    /// `++` in front of a variable of this type.
    CountedUp(ArgType),
    /// A value assigned to a variable of the first type.
    Stored(ArgType, TokenKind, ArgType),
    /// A value assigned to a value of the first type.
    StoredInValue(ArgType, TokenKind, ArgType),
    /// `@v = e`: the variable's type, whether it is `const`, and the value's type.
    Seated(ArgType, bool, ArgType),
    /// `c ? a : b` of values of these types.
    Chosen(ArgType, ArgType),
}

/// What is typed, and what comes of it.
type Row = (Asked, Typing);

fn typed(alloc: Global, lineage: &Lineage, asked: &Asked) -> Result<Operand, TypingError> {
    match *asked {
        Between(left, operator, right) => between(alloc, lineage, left, operator, right),
        InFront(operator, ty) => in_front(alloc, lineage, operator, ty),
        Converted(to, ty) => converted(alloc, lineage, to, ty),
        Literal(text) => literal(alloc, &token(TokenKind::Number, 1), text),
        GroupCountedUp => group_counted_up(alloc),
        ConstantCountedDown => constant_counted_down(alloc),
        CountedUp(ty) => counted_up(alloc, lineage, ty),
        Stored(to, operator, ty) => stored(
            alloc,
            lineage,
            variable(alloc, to, 1, false),
            operator,
            ty,
        ),
        StoredInValue(to, operator, ty) => stored(
            alloc,
            lineage,
            value(alloc, to, 1),
            operator,
            ty,
        ),
        Seated(to, read_only, ty) => {
            stored(
                alloc,
                lineage,
                seat(alloc, lineage, to, read_only),
                TokenKind::Assign,
                ty,
            )
        }
        Chosen(then, otherwise) => chosen(alloc, lineage, then, otherwise),
    }
}

/// The number of the first row of which something else comes.
fn first_wrong_over(alloc: Global, lineage: &Lineage, rows: &[Row]) -> Option<usize> {
    for (at, (asked, outcome)) in rows.iter().enumerate() {
        if typing(typed(alloc, lineage, asked)) != *outcome {
            return Some(at);
        }
    }
    None
}

/// The same over objects above which nothing stands; where there is no memory for these, how many rows there are.
fn first_wrong(alloc: Global, rows: &[Row]) -> Option<usize> {
    match Lineage::new(alloc, Vec::new(alloc)) {
        Ok(lineage) => first_wrong_over(alloc, &lineage, rows),
        Err(_) => Some(rows.len()),
    }
}

/// Two operands, the operator between them, and the type that they have together.
const TYPES: &[Row] = &[
    (
        Between(
            ArgType::Plain(Prim::I8),
            TokenKind::Plus,
            ArgType::Plain(Prim::I8),
        ),
        Ok(ArgType::Plain(Prim::I32)),
    ),
    (
        Between(
            ArgType::Plain(Prim::U8),
            TokenKind::Plus,
            ArgType::Plain(Prim::I8),
        ),
        Ok(ArgType::Plain(Prim::U32)),
    ),
    (
        Between(
            ArgType::Plain(Prim::I32),
            TokenKind::Star,
            ArgType::Plain(Prim::U32),
        ),
        Ok(ArgType::Plain(Prim::U32)),
    ),
    (
        Between(
            ArgType::Plain(Prim::I64),
            TokenKind::Ampersand,
            ArgType::Plain(Prim::U32),
        ),
        Ok(ArgType::Plain(Prim::I64)),
    ),
    (
        Between(
            ArgType::Plain(Prim::I64),
            TokenKind::Pipe,
            ArgType::Plain(Prim::U64),
        ),
        Ok(ArgType::Plain(Prim::U64)),
    ),
    (
        Between(
            ArgType::Plain(Prim::I8),
            TokenKind::ShiftLeft,
            ArgType::Plain(Prim::U64),
        ),
        Ok(ArgType::Plain(Prim::I32)),
    ),
    (
        Between(
            ArgType::Plain(Prim::U16),
            TokenKind::ShiftRight,
            ArgType::Plain(Prim::I64),
        ),
        Ok(ArgType::Plain(Prim::U32)),
    ),
    (
        Between(
            ArgType::Plain(Prim::I8),
            TokenKind::Less,
            ArgType::Plain(Prim::U64),
        ),
        Ok(ArgType::Plain(Prim::Bool)),
    ),
    (
        Between(
            ArgType::Plain(Prim::Bool),
            TokenKind::Equal,
            ArgType::Plain(Prim::Bool),
        ),
        Ok(ArgType::Plain(Prim::Bool)),
    ),
    (
        Between(
            ArgType::Plain(Prim::Bool),
            TokenKind::Xor,
            ArgType::Plain(Prim::Bool),
        ),
        Ok(ArgType::Plain(Prim::Bool)),
    ),
    (
        Between(
            ArgType::Plain(Prim::Bool),
            TokenKind::And,
            ArgType::Plain(Prim::Bool),
        ),
        Ok(ArgType::Plain(Prim::Bool)),
    ),
    (
        Between(
            ArgType::Plain(Prim::Bool),
            TokenKind::Or,
            ArgType::Plain(Prim::Bool),
        ),
        Ok(ArgType::Plain(Prim::Bool)),
    ),
];

/// Two operands, the operator between them, and what is refused in which column.
const REFUSALS: &[Row] = &[
    (
        Between(
            ArgType::Plain(Prim::I32),
            TokenKind::Plus,
            ArgType::Plain(Prim::Bool),
        ),
        Err(Some((ErrorKind::BadConversion, 5))),
    ),
    (
        Between(
            ArgType::Plain(Prim::Bool),
            TokenKind::Plus,
            ArgType::Plain(Prim::Bool),
        ),
        Err(Some((ErrorKind::BadConversion, 1))),
    ),
    (
        Between(
            ArgType::Plain(Prim::Bool),
            TokenKind::Equal,
            ArgType::Plain(Prim::I32),
        ),
        Err(Some((ErrorKind::BadConversion, 5))),
    ),
    (
        Between(
            ArgType::Plain(Prim::I32),
            TokenKind::Equal,
            ArgType::Plain(Prim::Bool),
        ),
        Err(Some((ErrorKind::BadConversion, 5))),
    ),
    (
        Between(
            ArgType::Plain(Prim::Bool),
            TokenKind::Less,
            ArgType::Plain(Prim::Bool),
        ),
        Err(Some((ErrorKind::BadConversion, 1))),
    ),
    (
        Between(
            ArgType::Plain(Prim::I32),
            TokenKind::And,
            ArgType::Plain(Prim::I32),
        ),
        Err(Some((ErrorKind::NotBool, 1))),
    ),
    (
        Between(
            ArgType::Plain(Prim::Bool),
            TokenKind::Or,
            ArgType::Plain(Prim::I32),
        ),
        Err(Some((ErrorKind::NotBool, 5))),
    ),
];

/// One operand.
const RAISED: &[Row] = &[
    (
        InFront(TokenKind::Minus, ArgType::Plain(Prim::U8)),
        Ok(ArgType::Plain(Prim::U32)),
    ),
    (
        InFront(TokenKind::Tilde, ArgType::Plain(Prim::I16)),
        Ok(ArgType::Plain(Prim::I32)),
    ),
    (
        InFront(TokenKind::Not, I32),
        Err(Some((ErrorKind::NotBool, 2))),
    ),
    (
        Converted(Prim::I8, ArgType::Plain(Prim::U64)),
        Ok(ArgType::Plain(Prim::I8)),
    ),
    (
        Converted(Prim::I8, BOOL),
        Err(Some((ErrorKind::BadConversion, 6))),
    ),
    (Literal(b"0xFF"), Ok(ArgType::Plain(Prim::U32))),
];

/// What is changed.
const TARGETS: &[Row] = &[
    (GroupCountedUp, Ok(ArgType::Plain(Prim::I8))),
    (ConstantCountedDown, Err(Some((ErrorKind::Const, 2)))),
    (Stored(I8, TokenKind::PlusAssign, I32), Ok(I8)),
    (
        Stored(I32, TokenKind::ShiftLeftAssign, BOOL),
        Err(Some((ErrorKind::BadConversion, 6))),
    ),
    (
        StoredInValue(I32, TokenKind::Assign, BOOL),
        Err(Some((ErrorKind::BadConversion, 1))),
    ),
];

/// What stands in front of `is` or `!is` and after it, and what comes of it.
const IDENTITIES: &[Row] = &[
    (Between(ArgType::Null, TokenKind::Is, HANDLE), Ok(BOOL)),
    (Between(ArgType::Null, TokenKind::NotIs, HANDLE), Ok(BOOL)),
    (Between(CELL, TokenKind::Is, OTHER), Ok(BOOL)),
    (Between(CELL, TokenKind::NotIs, OTHER), Ok(BOOL)),
    (
        Between(I32, TokenKind::Is, ArgType::Null),
        Err(Some((ErrorKind::BadConversion, 1))),
    ),
    (
        Between(I32, TokenKind::NotIs, ArgType::Null),
        Err(Some((ErrorKind::BadConversion, 1))),
    ),
    (
        Between(HANDLE, TokenKind::Is, ArgType::Void),
        Err(Some((ErrorKind::BadConversion, 5))),
    ),
    (
        Between(HANDLE, TokenKind::NotIs, ArgType::Void),
        Err(Some((ErrorKind::BadConversion, 5))),
    ),
];

/// A variable's type, whether it is `const`, a value's type, and what comes of `@v = e`.
const SEATS: &[Row] = &[
    (Seated(HANDLE, false, HANDLE), Ok(HANDLE)),
    (Seated(HANDLE, false, CELL), Ok(HANDLE)),
    (Seated(HANDLE, false, ArgType::Null), Ok(HANDLE)),
    (
        Seated(HANDLE, false, TO_CONST),
        Err(Some((ErrorKind::BadConversion, 6))),
    ),
    (
        Seated(HANDLE, true, HANDLE),
        Err(Some((ErrorKind::Const, 2))),
    ),
    (
        Seated(CELL, false, HANDLE),
        Err(Some((ErrorKind::Const, 2))),
    ),
    (
        Seated(I32, false, HANDLE),
        Err(Some((ErrorKind::BadConversion, 2))),
    ),
];

/// Objects that are assigned by value.
const BY_VALUE: &[Row] = &[
    (
        Stored(CELL, TokenKind::Assign, CELL),
        Err(Some((ErrorKind::NoAssign, 4))),
    ),
    (
        Stored(HANDLE, TokenKind::Assign, HANDLE),
        Err(Some((ErrorKind::NoAssign, 4))),
    ),
];

/// Two values and what comes of `c ? a : b`.
const CHOICES: &[Row] = &[
    (
        Chosen(I32, ArgType::Plain(Prim::U32)),
        Ok(ArgType::Plain(Prim::U32)),
    ),
    (Chosen(BOOL, I32), Err(Some((ErrorKind::BadConversion, 9)))),
    (Chosen(CELL, CELL), Ok(CELL)),
    (Chosen(CELL, HANDLE), Ok(HANDLE)),
    (Chosen(TO_CONST, HANDLE), Ok(TO_CONST)),
    (
        Chosen(ArgType::Null, HANDLE),
        Err(Some((ErrorKind::BadConversion, 5))),
    ),
    (
        Chosen(HANDLE, ArgType::Null),
        Err(Some((ErrorKind::BadConversion, 9))),
    ),
    (
        Chosen(HANDLE, OTHER),
        Err(Some((ErrorKind::BadConversion, 9))),
    ),
    (Chosen(COLOR, COLOR), Ok(COLOR)),
    (Chosen(COLOR, SIDE), Ok(I32)),
    (Chosen(I8, COLOR), Ok(I32)),
    (
        Chosen(COLOR, BOOL),
        Err(Some((ErrorKind::BadConversion, 9))),
    ),
];

/// Two operands of which one is of an enumeration, the operator between them, and what comes of it.
const OF_ENUMERATIONS: &[Row] = &[
    (Between(COLOR, TokenKind::Plus, COLOR), Ok(I32)),
    (Between(COLOR, TokenKind::ShiftLeft, I8), Ok(I32)),
    (Between(COLOR, TokenKind::Equal, SIDE), Ok(BOOL)),
    (Between(I8, TokenKind::Less, COLOR), Ok(BOOL)),
    (
        Between(COLOR, TokenKind::Equal, BOOL),
        Err(Some((ErrorKind::BadConversion, 5))),
    ),
    (
        Between(COLOR, TokenKind::And, BOOL),
        Err(Some((ErrorKind::NotBool, 1))),
    ),
    (
        Between(COLOR, TokenKind::Is, COLOR),
        Err(Some((ErrorKind::BadConversion, 1))),
    ),
    (
        Between(ArgType::Null, TokenKind::Is, COLOR),
        Err(Some((ErrorKind::BadConversion, 5))),
    ),
];

/// One operand that is of an enumeration.
const ONE_ENUMERATION: &[Row] = &[
    (InFront(TokenKind::Minus, COLOR), Ok(I32)),
    (
        InFront(TokenKind::At, COLOR),
        Err(Some((ErrorKind::BadConversion, 2))),
    ),
    (Converted(Prim::I8, COLOR), Ok(I8)),
    (
        Converted(Prim::Bool, COLOR),
        Err(Some((ErrorKind::BadConversion, 6))),
    ),
    (CountedUp(COLOR), Err(Some((ErrorKind::BadConversion, 2)))),
];

/// A variable's type, the sign of an assignment, a value's type, and what comes of them.
const STORED: &[Row] = &[
    (Stored(COLOR, TokenKind::Assign, COLOR), Ok(COLOR)),
    (Stored(I32, TokenKind::Assign, COLOR), Ok(I32)),
    (Stored(I8, TokenKind::PlusAssign, COLOR), Ok(I8)),
    (
        Stored(COLOR, TokenKind::Assign, I32),
        Err(Some((ErrorKind::BadConversion, 6))),
    ),
    (
        Stored(COLOR, TokenKind::Assign, SIDE),
        Err(Some((ErrorKind::BadConversion, 6))),
    ),
    (
        Stored(COLOR, TokenKind::PlusAssign, I32),
        Err(Some((ErrorKind::BadConversion, 1))),
    ),
];

const CASES: &[(&str, &[Row])] = &[
    ("two integers work in their common type", TYPES),
    ("the first operand that cannot stand is named", REFUSALS),
    ("one operand is raised", RAISED),
    ("a target is a variable that can be written", TARGETS),
    ("identity is of objects, handles and null", IDENTITIES),
    ("a handle is put in the place of another", SEATS),
    ("objects are not assigned by value", BY_VALUE),
    ("a choice has the type of both", CHOICES),
    ("an enumeration is worked with as an int", OF_ENUMERATIONS),
    (
        "one enumeration becomes an int and is not counted",
        ONE_ENUMERATION,
    ),
    ("a value of an enumeration is put in its variables", STORED),
];

#[test]
fn operators_are_typed_by_their_operands(rt: HostRuntime) {
    for (name, rows) in CASES {
        assert_eq!(rt; first_wrong(rt.alloc(), rows), None, "{name}");
    }
}
