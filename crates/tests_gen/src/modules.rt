//! Small modules, with the code that docs/CLAIMS.md ("Code") gives for each construct.
use crate::written::Step::{
    At, Begin, Break, Call, Choose, Continue, Count, Declare, DoWhile, Evaluate, If, Local, Number,
    Out, Return, Truth, Two, Value, While,
};
use crate::written::Two::{Compare, Operate};
use crate::written::{INT, Step, Written, module};
use ang_code::{Instruction, Mark, RoutineCode};
use ang_gen::generate_module;
use ang_kinds::{Comparison, Operator, Pass, Position, Prim};
use ang_lower::lower;
use ang_meaning::{Callee, Operation, Passing, Update};
use ang_typed::{StepKind, TypedCallee, TypedParameter, TypedVariable};
use ang_types::ArgType;
use std::alloc::{AllocError, Global};

// ---- modules

const IN: TypedParameter = TypedParameter {
    ty: INT,
    pass: Pass::Value,
};

/// `int f() {}`
const NOTHING: Written = Written {
    parameters: &[],
    result: INT,
    statements: &[],
    positions: &[],
    globals: &[],
};

/// `void f(int n) { while (n > 0) { --n; } } int a; int b = 5;`
const LOOPING: Written = Written {
    parameters: &[IN],
    result: ArgType::Void,
    statements: list! {
        Local(0), Number(0), Two(Compare(Comparison::Greater)),
        Begin, At(TypedVariable::Local(0)), Count(StepKind::DecrementBefore), Evaluate,
        While,
    },
    positions: POSITIONS,
    globals: list! { &[], &[Number(5)] },
};

/// Where `while` and `--n` stand in the text.
const POSITIONS: &[Position] = &[
    Position {
        line: 0,
        column: 16,
    },
    Position {
        line: 0,
        column: 32,
    },
];

/// `return b ? a : 2;` with the parameters a and b.
const CHOOSING: Written = Written {
    parameters: &[IN, IN],
    statements: list! { Local(1), Local(0), Number(2), Choose, Return },
    ..NOTHING
};

/// `while (b) { int x = 7; if (b) break; else continue; }` with the parameter b.
const LEAVING: Written = Written {
    parameters: &[IN],
    statements: list! {
        Local(0), Begin, Number(7), Declare, Local(0), Begin, Break, Begin, Continue, If, While,
    },
    ..NOTHING
};

/// `if (b) return 7;` with the parameter b.
const RETURNING: Written = Written {
    parameters: &[IN],
    statements: list! { Local(0), Begin, Number(7), Return, Begin, If },
    ..NOTHING
};

/// `do { } while (true);`
const REPEATING: Written = Written {
    statements: list! { Begin, Truth(true), DoWhile },
    ..NOTHING
};

/// `1 - f(a, a);` where the second parameter of f is `&out`, with the parameter a.
const CALLING: Written = Written {
    parameters: &[IN],
    statements: list! {
        Number(1), Local(0), Value, Out(TypedVariable::Local(0), INT, INT), Call(TypedCallee::Own(3)),
        Two(Operate(Operator::Subtract)), Evaluate,
    },
    ..NOTHING
};

// ---- codes

/// How code takes its arguments, the primitive type of its value, its height, and its instructions.
type Code = (
    &'static [Passing],
    Option<Prim>,
    usize,
    &'static [Instruction],
);

const LESS: Update = Update {
    operator: Operator::Subtract,
    at: Prim::I32,
    to: Prim::I32,
    old: false,
};

/// The jump back of a loop is the loop's own, though it stands after the loop's body.
const LOOPED: Code = (
    &[Passing::In],
    None,
    2,
    &[
        Instruction::Tick,
        Instruction::Load(0),
        Instruction::PushBits(0),
        Instruction::Apply(Operation::Compare(Comparison::Greater, true)),
        Instruction::JumpIfFalse(4),
        Instruction::PushBits(1),
        Instruction::Update(LESS, 0),
        Instruction::Drop,
        Instruction::LoopBack(7),
        Instruction::PushBits(0),
        Instruction::Return(0),
    ],
);

const INITIALIZER: Code = (
    &[],
    None,
    1,
    &[
        Instruction::PushBits(5),
        Instruction::Apply(Operation::GlobalSet(1)),
        Instruction::Drop,
        Instruction::PushBits(0),
        Instruction::Return(0),
    ],
);

const CHOICE: &[Instruction] = &[
    Instruction::Load(0),
    Instruction::JumpIfFalse(2),
    Instruction::Load(1),
    Instruction::Jump(1),
    Instruction::PushBits(2),
    Instruction::Return(0),
    Instruction::PushBits(0),
    Instruction::Return(0),
];

const LOOP_LEFT: &[Instruction] = &[
    Instruction::Tick,
    Instruction::Load(0),
    Instruction::JumpIfFalse(10),
    Instruction::PushBits(7),
    Instruction::Load(1),
    Instruction::JumpIfFalse(3),
    Instruction::Leave(1),
    Instruction::Jump(5),
    Instruction::Jump(2),
    Instruction::Leave(1),
    Instruction::Jump(1),
    Instruction::Leave(1),
    Instruction::LoopBack(11),
    Instruction::PushBits(0),
    Instruction::Return(0),
];

const CHOICE_WITHOUT_ELSE: &[Instruction] = &[
    Instruction::Load(0),
    Instruction::JumpIfFalse(2),
    Instruction::PushBits(7),
    Instruction::Return(0),
    Instruction::PushBits(0),
    Instruction::Return(0),
];

const DO_LOOP: &[Instruction] = &[
    Instruction::Jump(3),
    Instruction::Tick,
    Instruction::PushBits(1),
    Instruction::JumpIfFalse(1),
    Instruction::LoopBack(2),
    Instruction::PushBits(0),
    Instruction::Return(0),
];

/// Operands from left to right.
const CALL: &[Instruction] = &[
    Instruction::PushBits(1),
    Instruction::Load(1),
    Instruction::PushBits(0),
    Instruction::Enter(Callee::Own(3)),
    Instruction::Swap {
        to: Some(Prim::I32),
        under: 1,
        with: 3,
    },
    Instruction::DropUnder(1),
    Instruction::Apply(Operation::Binary(Operator::Subtract, Prim::I32)),
    Instruction::Drop,
    Instruction::PushBits(0),
    Instruction::Return(0),
];

/// The first instruction of each mark of a code, and the column of its statement.
type Marks = &'static [(u32, u16)];

/// A module, its codes, and the marks of each, if the module says where its statements stand.
type Row = (&'static str, Written, &'static [Code], &'static [Marks]);

const ROWS: &[Row] = &[
    (
        "a function and an initializer",
        LOOPING,
        &[LOOPED, INITIALIZER],
        &[&[(0, 16), (5, 32), (8, 16)], &[]],
    ),
    (
        "a choice of values",
        CHOOSING,
        &[(&[Passing::In, Passing::In], Some(Prim::I32), 1, CHOICE)],
        &[],
    ),
    (
        "a loop that is left",
        LEAVING,
        &[(&[Passing::In], Some(Prim::I32), 2, LOOP_LEFT)],
        &[],
    ),
    (
        "an `if` without `else`",
        RETURNING,
        &[(&[Passing::In], Some(Prim::I32), 1, CHOICE_WITHOUT_ELSE)],
        &[],
    ),
    (
        "a loop that tests last",
        REPEATING,
        &[(&[], Some(Prim::I32), 1, DO_LOOP)],
        &[],
    ),
    (
        "a call with `&out`",
        CALLING,
        &[(&[Passing::In], Some(Prim::I32), 3, CALL)],
        &[],
    ),
];

// ---- what they come to

fn is_same_operation(one: Operation, other: Operation) -> bool {
    match (one, other) {
        (Operation::Binary(one, at), Operation::Binary(other, its)) => one == other && at == its,
        (
            Operation::Compare(Comparison::Greater, one),
            Operation::Compare(Comparison::Greater, other),
        ) => { one == other }
        (Operation::GlobalSet(one), Operation::GlobalSet(other)) => one == other,
        _ => false,
    }
}

/// Whether two instructions are the same, of the forms that are wanted here.
fn is_same(one: Instruction, other: Instruction) -> bool {
    match (one, other) {
        (Instruction::PushBits(one), Instruction::PushBits(other)) => one == other,
        (Instruction::Load(one), Instruction::Load(other)) => one == other,
        (Instruction::Update(by, to), Instruction::Update(other, its)) => by == other && to == its,
        (Instruction::Apply(one), Instruction::Apply(other)) => is_same_operation(one, other),
        (Instruction::Drop, Instruction::Drop) => true,
        (Instruction::Leave(one), Instruction::Leave(other)) => one == other,
        (Instruction::JumpIfFalse(one), Instruction::JumpIfFalse(other)) => one == other,
        (Instruction::Jump(one), Instruction::Jump(other)) => one == other,
        (Instruction::Tick, Instruction::Tick) => true,
        (Instruction::LoopBack(one), Instruction::LoopBack(other)) => one == other,
        (Instruction::Enter(Callee::Own(one)), Instruction::Enter(Callee::Own(other))) => {
            one == other
        }
        (
            Instruction::Swap { to, under, with },
            Instruction::Swap {
                to: its,
                under: below,
                with: at,
            },
        ) => to == its && under == below && with == at,
        (Instruction::DropUnder(one), Instruction::DropUnder(other)) => one == other,
        (Instruction::Return(one), Instruction::Return(other)) => one == other,
        _ => false,
    }
}

fn is_text(text: &[Instruction], want: &[Instruction]) -> bool {
    for (at, one) in text.iter().enumerate() {
        match want.get(at) {
            Some(other) if is_same(*one, *other) => {}
            _ => return false,
        }
    }
    text.len() == want.len()
}

fn is_code(code: &RoutineCode, want: Option<&Code>) -> bool {
    match want {
        Some((params, ty, height, text)) => {
            code.params.as_slice() == *params
                && code.result == *ty
                && code.height == *height
                && is_text(code.text.as_slice(), text)
        }
        None => false,
    }
}

/// The place of the first code that is not the one that is wanted, or that one of the two lists lacks.
fn first_unlike(codes: &[RoutineCode], wanted: &[Code]) -> Option<usize> {
    for (at, code) in codes.iter().enumerate() {
        if !is_code(code, wanted.get(at)) {
            return Some(at);
        }
    }
    (codes.len() < wanted.len()).then_some(codes.len())
}

fn are_marks(marks: &[Mark], wanted: &[(u32, u16)]) -> bool {
    for (at, mark) in marks.iter().enumerate() {
        match wanted.get(at) {
            Some((first, column)) if mark.at == *first && mark.position.column == *column => {}
            _ => return false,
        }
    }
    marks.len() == wanted.len()
}

/// What of a module's codes is not as it should be.
#[derive(Clone, Copy, PartialEq, Eq, Debug)]
enum Wrong {
    /// The code of that number.
    Code(usize),
    /// The marks of a code.
    Marks,
}

/// Whether each code has the marks that are wanted.
fn are_marked(codes: &[RoutineCode], wanted: &[Marks]) -> bool {
    for (at, code) in codes.iter().enumerate() {
        match wanted.get(at) {
            Some(marks) if are_marks(code.marks.as_slice(), marks) => {}
            _ => return false,
        }
    }
    codes.len() == wanted.len()
}

fn wrong_of(codes: &[RoutineCode], row: &Row) -> Option<Wrong> {
    match first_unlike(codes, row.2) {
        Some(at) => Some(Wrong::Code(at)),
        None if row.1.positions.is_empty() => None,
        None => (!are_marked(codes, row.3)).then_some(Wrong::Marks),
    }
}

fn codes_of(alloc: Global, written: &Written) -> Result<Vec<RoutineCode>, AllocError> {
    let module = module(alloc, written)?;
    let bodies = lower(alloc, &module);
    drop(module);
    generate_module(alloc, bodies?)
}

fn wrong_in(alloc: Global, row: &Row) -> Result<Option<Wrong>, AllocError> {
    let codes = codes_of(alloc, &row.1)?;
    Ok(wrong_of(codes.as_slice(), row))
}

#[test]
fn modules_have_their_code(rt: HostRuntime) -> Result<(), AllocError> {
    for row in ROWS {
        assert_eq!(rt; wrong_in(rt.alloc(), row)?, None, "{}", row.0);
    }
    Ok(())
}
