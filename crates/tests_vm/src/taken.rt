//! Steps: where they stand in a text, and what each does at once.
use crate::known::KNOWN;
use crate::operators::{LATER, PLUS};
use ang_code::Instruction;
use ang_code::Instruction::{
    Apply, Drop, DropUnder, Enter, JumpIfFalse, Leave, Load, LoopBack, PushBits, PushNull, Return,
    Store, Tick, Update as Changed,
};
use ang_kinds::{Comparison, EntityNo, Operator, Prim};
use ang_meaning::{Callee, Operation, Slot, Update};
use ang_vm_fused::fused::take;
use ang_vm_stack::fuse::fuse;
use ang_vm_stack::kind::Dispatch;
use ang_vm_stack::place::Cursor;
use ang_vm_stack::step::{HandleOperand, Step};
use std::alloc::{AllocError, Global};

const LESS: Comparison = Comparison::Less;

const ADD: Operator = Operator::Add;

const SUBTRACT: Operator = Operator::Subtract;

const I64: Prim = Prim::I64;

const U64: Prim = Prim::U64;

/// A step on a stack of four where 5 and 3 are in use, with nine ticks, which it leaves: the place after it from place 7
/// on, how many values are in use then, and the first three of them.
pub type Row = (Step, Left);

/// The place, how many values are in use, and the first three of them.
pub type Left = (usize, usize, u64, u64, u64);

/// An odd number is 1 as a truth value. Where a comparison does not hold, four instructions more are passed.
const TAKEN: &[Row] = &[
    (Step::Push(4), (8, 3, 5, 3, 4)),
    (Step::Keep(0), (9, 1, 3, 3, 0)),
    (Step::Move(1, 0), (10, 2, 5, 5, 0)),
    (Step::LoadConverted(Prim::Bool, 1), (9, 3, 5, 3, 1)),
    (Step::Convert(Prim::Bool), (8, 2, 5, 1, 0)),
    (Step::TestLocals(LESS, true, 1, 0, 4), (15, 2, 5, 3, 0)),
    (Step::TestConstant(LESS, true, 0, 10, 4), (11, 2, 5, 3, 0)),
    (Step::TestTopLocal(LESS, true, 1, 4), (10, 1, 5, 3, 0)),
    (Step::TestTopConstant(LESS, true, 2, 4), (14, 1, 5, 3, 0)),
    (Step::TestTops(LESS, true, 4), (13, 0, 5, 3, 0)),
    (Step::WorkLocals(ADD, I64, 1, 0), (10, 3, 5, 3, 8)),
    (Step::WorkConstant(ADD, I64, 1, 10), (10, 3, 5, 3, 15)),
    (Step::WorkTopLocal(ADD, I64, 1), (9, 2, 5, 8, 0)),
    (Step::WorkTopConstant(ADD, I64, 10), (9, 2, 5, 13, 0)),
    (Step::WorkTops(SUBTRACT, I64), (8, 1, 2, 3, 0)),
    (Step::KeepLocals(ADD, I64, 1, 0, 1), (12, 2, 8, 3, 0)),
    (Step::KeepConstant(ADD, I64, 0, 10, 0), (12, 2, 5, 13, 0)),
    (Step::KeepTopLocal(ADD, I64, 1, 0), (11, 1, 8, 3, 0)),
    (Step::KeepTopConstant(ADD, I64, 10, 0), (11, 1, 13, 3, 0)),
    (Step::ChangeConstant(LATER, 1, 2), (10, 2, 7, 3, 0)),
    (Step::ChangeLocal(LATER, 0, 1), (10, 2, 5, 8, 0)),
    (Step::ChangeTop(LATER, 0), (9, 1, 8, 3, 0)),
    (Step::Drop, (8, 1, 5, 3, 0)),
    (Step::Leave(1), (8, 1, 5, 3, 0)),
    (Step::Leave(2), (8, 0, 5, 3, 0)),
    (Step::DropUnder(1), (8, 1, 3, 3, 0)),
    (Step::Swap(None, 0, 1), (8, 2, 3, 5, 0)),
    (Step::Swap(Some(Prim::Bool), 0, 1), (8, 2, 1, 5, 0)),
    (Step::Jump(4), (12, 2, 5, 3, 0)),
    (Step::JumpIfFalse(4), (8, 1, 5, 3, 0)),
];

/// A tick is taken, at a loop's end too.
const BACK: &[Row] = &[
    (Step::ChangeBack(LATER, 1, 2, 3), (7, 2, 7, 3, 0)),
    (Step::AddBack32(true, 0, 1, 3), (7, 2, 5, 4, 0)),
    (Step::AddBack64(true, 0, 1, 3), (7, 2, 5, 4, 0)),
    (Step::AddBackU32(true, 0, 1, 3), (7, 2, 5, 4, 0)),
    (Step::AddBackU64(true, 0, 1, 3), (7, 2, 5, 4, 0)),
    (Step::LeaveBack(1, 3), (5, 1, 5, 3, 0)),
    (Step::LeaveBack(2, 3), (5, 0, 5, 3, 0)),
    (Step::Tick, (8, 2, 5, 3, 0)),
    (Step::LoopBack(3), (4, 2, 5, 3, 0)),
];

/// Calls, returns, host calls, loads, fields, globals and handles are left to the run, and so is what faults, finds no
/// value, brings it to a rare type or names no instructions. Each says which it is.
const LEFT: &[(Step, Dispatch)] = list! {
    (Step::Other, Dispatch::Alone), (Step::Ask(1), Dispatch::Alone), (Step::Load(1), Dispatch::Load),
    (Step::Move(2, 0), Dispatch::Move),
    (Step::Same(HandleOperand::Local(1), HandleOperand::Null), Dispatch::Same),
    (Step::GetField(0, 0), Dispatch::GetField), (Step::PutField(0, 0), Dispatch::PutField),
    (Step::ChangeField(LATER, 0, 0), Dispatch::ChangeField),
    (Step::ChangeFieldByLocal(LATER, 1, 0, 0), Dispatch::ChangeFieldByLocal),
    (Step::MoveField(0, 0, 1, 0), Dispatch::MoveField), (Step::GetGlobal(0), Dispatch::GetGlobal),
    (Step::PutGlobal(0), Dispatch::PutGlobal), (Step::ChangeGlobal(LATER, 0), Dispatch::ChangeGlobal),
    (Step::MoveGlobal(0, 1), Dispatch::MoveGlobal), (Step::Enter(Callee::Own(0)), Dispatch::Enter),
    (Step::Return(0), Dispatch::Return), (Step::ReturnNothing(0), Dispatch::ReturnNothing),
    (Step::Keep(2), Dispatch::Value), (Step::DropUnder(2), Dispatch::Value),
    (Step::KeepOut(None, 0), Dispatch::Value), (Step::KeepLastOut(None, 0), Dispatch::Value),
    (Step::WorkTopConstant(Operator::Divide, I64, 0), Dispatch::Value),
};

/// A place, and the numbers in the first three places of the stack.
#[derive(Clone, Copy, PartialEq, Eq)]
struct After {
    place: Cursor,
    first: Slot,
    second: Slot,
    third: Slot,
}

/// What a step comes to where `top` of these numbers are in use, or which kind of step it is where it is not taken.
fn taken(top: usize, numbers: [u64; 3], ticks: u64, step: Step) -> Result<After, Dispatch> {
    if top > 4 {
        return Err(Dispatch::Alone);
    }
    let [first, second, third] = numbers;
    let mut stack = [
        Slot::Bits(first),
        Slot::Bits(second),
        Slot::Bits(third),
        Slot::Bits(0),
    ];
    let here = Cursor { at: 7, top, ticks };
    let place = take(&mut stack, here, 4, &step)?;
    Ok(After {
        place,
        first: stack[0],
        second: stack[1],
        third: stack[2],
    })
}

/// That, with `ticks` ticks left.
fn left(ticks: u64, want: Left) -> Result<After, Dispatch> {
    let (at, top, first, second, third) = want;
    Ok(After {
        place: Cursor { at, top, ticks },
        first: Slot::Bits(first),
        second: Slot::Bits(second),
        third: Slot::Bits(third),
    })
}

/// The place of the first step that comes to something else where 5 and 3 are in use, with nine ticks.
fn first_wrong(rows: &[Row], ticks: u64) -> Option<usize> {
    for (at, (step, want)) in rows.iter().enumerate() {
        if taken(2, [5, 3, 0], 9, *step) != left(ticks, *want) {
            return Some(at);
        }
    }
    None
}

/// The place of the first step that is not left to the run as that kind of step, with so many ticks.
fn first_taken(rows: &[(Step, Dispatch)], ticks: u64) -> Option<usize> {
    for (at, (step, kind)) in rows.iter().enumerate() {
        if taken(2, [5, 3, 0], ticks, *step) != Err(*kind) {
            return Some(at);
        }
    }
    None
}

/// The place of the first step that is taken without a tick.
fn first_without_tick(rows: &[Row]) -> Option<usize> {
    for (at, (step, _)) in rows.iter().enumerate() {
        if taken(2, [5, 3, 0], 0, *step) != Err(Dispatch::Value) {
            return Some(at);
        }
    }
    None
}

/// How many values are in use, the numbers in the first three places, and how many ticks there are; a step; and the
/// ticks that are left and what it comes to, or how it is left to the run.
type Single = (usize, [u64; 3], u64, Step, Result<(u64, Left), Dispatch>);

const SINGLES: &[Single] = list! {
    (3, [2, 9, 5], 9, Step::KeepTops(SUBTRACT, I64, 0), Ok((9, (10, 1, 4, 9, 5)))),
    (3, [2, 9, 5], 9, Step::DropUnder(2), Ok((9, (8, 1, 5, 9, 5)))),
    (3, [2, 9, 5], 9, Step::KeepOut(None, 0), Ok((9, (10, 1, 9, 9, 5)))),
    (3, [2, 9, 5], 9, Step::KeepOut(Some(Prim::Bool), 0), Ok((9, (10, 1, 1, 9, 5)))),
    (4, [2, 9, 5], 9, Step::KeepLastOut(Some(I64), 0), Ok((9, (10, 1, 5, 9, 5)))),
    (3, [5, 3, 0], 9, Step::JumpIfFalse(4), Ok((9, (12, 2, 5, 3, 0)))),
    (2, [5, 3, 0], 0, Step::LeaveAddBack32(true, 1, 0, 4, 3), Err(Dispatch::Leave)),
    (2, [5, 3, 0], 9, Step::LeaveAddBack32(true, 1, 0, 4, 3), Ok((8, (8, 1, 9, 3, 0)))),
    (3, [2, 9, 5], 9, Step::LeaveAddBack32(false, 2, 0, 4, 20), Ok((8, (0, 1, 6, 9, 5)))),
    (2, [5, 3, 0], 9, Step::DropAddBack32(true, 0, 4, 3), Ok((8, (8, 1, 9, 3, 0)))),
    (2, [5, 3, 0], 0, Step::DropAddBack32(true, 0, 4, 3), Err(Dispatch::Value)),
    (1, [5, 3, 0], 9, Step::MaskXor(U64, 0, 0, 4), Ok((9, (12, 2, 5, 1, 0)))),
    // no room
    (2, [5, 3, 0], 9, Step::MaskXor(U64, 1, 0, 2), Err(Dispatch::Value)),
    (4, [2, 9, 5], 9, Step::Push(4), Err(Dispatch::Value)),
    // a rare type
    (3, [2, 9, 5], 9, Step::KeepOut(Some(Prim::I8), 0), Err(Dispatch::Value)),
};

fn is_single(single: &Single) -> bool {
    let (top, numbers, ticks, step, want) = *single;
    match want {
        Ok((rest, after)) => taken(top, numbers, ticks, step) == left(rest, after),
        Err(kind) => taken(top, numbers, ticks, step) == Err(kind),
    }
}

fn first_wrong_single() -> Option<usize> {
    for (at, single) in SINGLES.iter().enumerate() {
        if !is_single(single) {
            return Some(at);
        }
    }
    None
}

/// In each list of steps the first that is not as it should be.
fn wrong_steps() -> [Option<usize>; 6] {
    [
        first_wrong(TAKEN, 9),
        first_wrong(KNOWN, 9),
        first_wrong(BACK, 8),
        first_without_tick(BACK),
        first_wrong_single(),
        first_taken(LEFT, 9),
    ]
}

#[test]
fn steps_are_taken_or_left(rt: HostRuntime) {
    assert_eq!(rt; wrong_steps(), [None; 6]);
}

/// `int64 i = 0; for (; i < 10; i++) {} return i;`
const COUNTING: &[Instruction] = list! {
    PushBits(0), Tick, Load(0), PushBits(10), Apply(Operation::Compare(LESS, true)),
    JumpIfFalse(4), PushBits(1), Changed(LATER, 0), Drop,
    LoopBack(7), Load(0), Return(1),
};

/// Steps of a text by their places.
type Places = &'static [(usize, Option<Step>)];

/// The last place is past the text.
const STEPS: Places = &[
    (0, Some(Step::Push(0))),
    (1, Some(Step::Tick)),
    (2, Some(Step::LessConstant(0, 10, 4))),
    (3, Some(Step::LessTopConstant(10, 4))),
    (4, Some(Step::TestTops(LESS, true, 4))),
    (5, Some(Step::JumpIfFalse(4))),
    (6, Some(Step::AddBack64(true, 0, 1, 7))),
    (7, Some(Step::AddTopToLocal64(true, 0))),
    (9, Some(Step::LoopBack(7))),
    (10, Some(Step::Load(0))),
    (11, Some(Step::Return(1))),
    (12, None),
];

/// `c.set(n + 1); c.set(3); return n;` where `set` is a method of the host
const ASKING: &[Instruction] = list! {
    Load(0), Load(2), PushBits(1), Apply(Operation::Binary(ADD, I64)),
    Apply(Operation::Ask(EntityNo(7))), Drop, Load(0), PushBits(3), Apply(Operation::Ask(EntityNo(7))),
    Drop, Load(1), Return(2),
};

/// A host call whose operands are pushed one after the other begins where the first of them is loaded.
const ASKED: Places = &[
    (0, Some(Step::Load(0))),
    (1, Some(Step::AddConstant64(2, 1))),
    (4, Some(Step::Other)),
    (6, Some(Step::Ask(2))),
    (7, Some(Step::Push(3))),
    (10, Some(Step::Load(1))),
];

/// A local and the top value are stored, and a function is entered; a body is left with 0, and with another number.
const CALLING: &[Instruction] = list! {
    Load(1), Store(2), Drop, Enter(Callee::Own(3)), Store(4), Drop,
    PushBits(0), Return(5), PushBits(1), Return(6),
};

/// What gives back 0 is one step with the return after it, as that of a function without a value.
const CALLS: Places = &[
    (0, Some(Step::Move(1, 2))),
    (1, Some(Step::Keep(2))),
    (3, Some(Step::Enter(Callee::Own(3)))),
    (4, Some(Step::Keep(4))),
    (6, Some(Step::ReturnNothing(5))),
    (7, Some(Step::Return(5))),
    (8, Some(Step::Push(1))),
    (9, Some(Step::Return(6))),
];

/// A change of a `uint` by `^`.
const DIFFER: Update = Update {
    operator: Operator::BitXor,
    at: Prim::U32,
    to: Prim::U32,
    old: false,
};

/// A change of an `int` by `+`.
const COUNTED: Update = Update { old: true, ..PLUS };

/// Two operators that stand together, values that are given up at a loop's end, and such that are given up below the top
/// one or change places, one after the other; at the end the top one is given up after those below it.
const PAIRED: &[Instruction] = list! {
    Load(1), Load(1), Apply(Operation::Binary(Operator::Multiply, I64)), PushBits(16),
    Apply(Operation::Binary(Operator::ShiftRightArithmetic, I64)),
    Load(1), Load(1), Apply(Operation::Binary(ADD, I64)), PushBits(9),
    Apply(Operation::Compare(Comparison::Greater, true)), JumpIfFalse(4),
    Load(1), Load(1), Apply(Operation::Binary(SUBTRACT, I64)), Load(2), Apply(Operation::Binary(ADD, I64)),
    Store(0), Drop, Load(1), Load(1), Apply(Operation::Binary(Operator::Multiply, Prim::I32)), Load(2),
    Apply(Operation::Compare(Comparison::LessEqual, true)), JumpIfFalse(4),
    Load(1), Load(1), Apply(Operation::Binary(Operator::Remainder, Prim::I32)), PushBits(0),
    Apply(Operation::Compare(Comparison::Equal, true)), JumpIfFalse(4),
    Load(1), Load(1), PushBits(255), Apply(Operation::Binary(Operator::BitAnd, Prim::U32)),
    Apply(Operation::Binary(Operator::BitXor, Prim::U32)),
    Load(1), PushBits(15), Apply(Operation::Binary(Operator::ShiftRight, Prim::U32)), Changed(DIFFER, 0),
    Drop, Load(1), Load(1), Apply(Operation::Binary(Operator::BitXor, Prim::I32)),
    Apply(Operation::Convert(I64)), Changed(LATER, 0), Drop,
    Leave(2), LoopBack(9), Leave(3), LoopBack(9), Leave(2),
    Drop, DropUnder(2), DropUnder(3), Instruction::Swap { to: Some(Prim::I32), under: 0, with: 2 },
    DropUnder(1), Drop, DropUnder(2), Drop, DropUnder(3), Drop,
    DropUnder(1), Leave(2), PushBits(1), Changed(COUNTED, 1), Drop, LoopBack(9),
    Instruction::Jump(5), Drop, PushBits(1), Changed(COUNTED, 1), Drop, LoopBack(9),
    Load(1), PushBits(2), Apply(Operation::Binary(Operator::Remainder, I64)), PushBits(0),
    Apply(Operation::Compare(Comparison::Equal, true)), JumpIfFalse(4),
};

/// Each of them is one step. Three values and more are given up alone.
const PAIRS: Places = &[
    (0, Some(Step::MultiplyShift64(1, 0, 16))),
    (5, Some(Step::AddTestGreater64(1, 0, 9, 4))),
    (11, Some(Step::SubtractAddKeep64(1, 0, 1, 0))),
    (18, Some(Step::MultiplyTestLessEqual32(1, 0, 1, 4))),
    (24, Some(Step::RemainderTestEqual32(1, 0, 0, 4))),
    (30, Some(Step::MaskXor(Prim::U32, 1, 0, 255))),
    (35, Some(Step::ShiftXorToLocalU32(false, 0, 1, 15))),
    (40, Some(Step::XorAddToLocal64(true, 0, 1, 0))),
    (46, Some(Step::LeaveBack(2, 9))),
    (48, Some(Step::Other)),
    (50, Some(Step::Leave(2))),
    (51, Some(Step::Drop)),
    (52, Some(Step::DropUnder(2))),
    (53, Some(Step::Other)),
    (54, Some(Step::Swap(Some(Prim::I32), 0, 2))),
    (55, Some(Step::DropUnder(1))),
    (56, Some(Step::Drop)),
    (57, Some(Step::DropUnder(2))),
    (59, Some(Step::Other)),
    (61, Some(Step::DropUnder(1))),
    (62, Some(Step::LeaveAddBack32(true, 2, 1, 1, 9))),
    (67, Some(Step::Jump(5))),
    (68, Some(Step::DropAddBack32(true, 1, 1, 9))),
    (73, Some(Step::RemainderConstantTestEqual64(1, 2, 0, 4))),
];

/// Values of `&out` arguments that change places with locals: of one, of two, of one of a rare type, of one at a place
/// that is none of a local's, and of one of a call whose value is used.
const OUTS: &[Instruction] = list! {
    Instruction::Swap { to: Some(I64), under: 1, with: 2 }, DropUnder(1), Drop,
    Instruction::Swap { to: None, under: 2, with: 4 },
    Instruction::Swap { to: Some(Prim::Bool), under: 1, with: 3 }, DropUnder(2), Drop,
    Instruction::Swap { to: Some(Prim::I8), under: 1, with: 2 }, DropUnder(1), Drop,
    Instruction::Swap { to: None, under: 1, with: 1 }, DropUnder(1), Drop,
    Instruction::Swap { to: None, under: 1, with: 2 }, DropUnder(1), Load(0),
};

/// One of them, or the last of two, is stored by the step that gives up the call's value.
const OUT_STEPS: Places = &[
    (0, Some(Step::KeepOut(Some(I64), 0))),
    (3, Some(Step::Swap(None, 2, 4))),
    (4, Some(Step::KeepLastOut(Some(Prim::Bool), 0))),
    (7, Some(Step::Swap(Some(Prim::I8), 1, 2))),
    (10, Some(Step::Swap(None, 1, 1))),
    (13, Some(Step::Swap(None, 1, 2))),
];

/// A change of a `uint64` by `^`.
const DIFFER_64: Update = Update {
    at: U64,
    to: U64,
    ..DIFFER
};

/// A hash in 64 bits: a multiplication by a number of more than 32 bits, and shifts to both sides.
const HASHING: &[Instruction] = list! {
    Load(1), Load(1), PushBits(255), Apply(Operation::Binary(Operator::BitAnd, U64)),
    Apply(Operation::Binary(Operator::BitXor, U64)), PushBits(0x1_0000_01B3),
    Apply(Operation::Binary(Operator::Multiply, U64)), Store(0), Drop, PushBits(0x1_0000_01B3),
    Apply(Operation::Binary(Operator::Multiply, U64)), PushBits(0x1_0000_01B3),
    Apply(Operation::Binary(ADD, U64)), Load(1), PushBits(13),
    Apply(Operation::Binary(Operator::ShiftLeft, U64)), Changed(DIFFER_64, 0), Drop, Load(1),
    PushBits(7), Apply(Operation::Binary(Operator::ShiftRight, U64)), Changed(DIFFER_64, 0), Drop,
};

/// The steps of the hash. The mask is of the type of the `^` after it.
const HASHED: Places = &[
    (0, Some(Step::MaskXor(U64, 1, 0, 255))),
    (2, Some(Step::AndTopConstant(U64, 255))),
    (5, Some(Step::MultiplyKeepTopConstantU64(0x1_0000_01B3, 0))),
    (9, Some(Step::MultiplyTopConstantU64(0x1_0000_01B3))),
    (11, Some(Step::Push(0x1_0000_01B3))),
    (13, Some(Step::ShiftLeftXorToLocalU64(false, 0, 1, 13))),
    (16, Some(Step::XorTopToLocalU64(false, 0))),
    (18, Some(Step::ShiftRightXorToLocalU64(false, 0, 1, 7))),
];

/// A field of an object that a local holds is stored into another one, and is changed. Then it is stored into a field of
/// the object that it holds itself, and at the end the stored value is kept.
const OBJECTS: &[Instruction] = list! {
    Load(1), Apply(Operation::FieldGet(2)), Load(3), Apply(Operation::FieldSet(4)), Drop,
    Load(5), Apply(Operation::FieldChange(LATER, 6)), Drop,
    Load(1), Apply(Operation::FieldGet(2)), Load(0), Apply(Operation::FieldSet(4)), Drop,
    Load(1), Apply(Operation::FieldGet(2)), Load(3), Apply(Operation::FieldSet(4)), Return(1),
    Load(2), Load(5), Apply(Operation::FieldChange(LATER, 6)), Drop,
};

/// Each is one step, but where the object is the value that was pushed, or the value is kept.
const FIELDS: Places = &[
    (0, Some(Step::MoveField(1, 2, 2, 4))),
    (1, Some(Step::Other)),
    (2, Some(Step::PutField(3, 4))),
    (5, Some(Step::ChangeField(LATER, 5, 6))),
    (8, Some(Step::GetField(1, 2))),
    (10, Some(Step::PutField(0, 4))),
    (13, Some(Step::GetField(1, 2))),
    (15, Some(Step::Load(3))),
    (18, Some(Step::ChangeFieldByLocal(LATER, 2, 4, 6))),
    (19, Some(Step::ChangeField(LATER, 5, 6))),
];

/// A global is stored into another one, and is changed; at the end the stored value is kept.
const GLOBALS: &[Instruction] = list! {
    Apply(Operation::GlobalGet(2)), Apply(Operation::GlobalSet(3)),
    Drop, Apply(Operation::GlobalChange(LATER, 4)), Drop,
    Apply(Operation::GlobalGet(2)), Apply(Operation::GlobalSet(3)), Return(1),
};

/// Each is one step, but where the value is kept.
const GLOBAL_STEPS: Places = &[
    (0, Some(Step::MoveGlobal(2, 3))),
    (1, Some(Step::PutGlobal(3))),
    (3, Some(Step::ChangeGlobal(LATER, 4))),
    (5, Some(Step::GetGlobal(2))),
    (6, Some(Step::Other)),
];

/// Handles of locals, of a global and null are compared; at the end the second one is the first.
const COMPARING: &[Instruction] = list! {
    Load(1), Load(1), Apply(Operation::Same), Apply(Operation::GlobalGet(3)),
    PushNull, Apply(Operation::Same), PushNull, Load(3), Apply(Operation::Same),
    Load(1), Load(0), Apply(Operation::Same),
};

/// Each pair is one step, but where the second one is the value that the first one pushes.
const COMPARED: Places = list! {
    (0, Some(Step::Same(HandleOperand::Local(1), HandleOperand::Local(0)))),
    (3, Some(Step::Same(HandleOperand::Global(3), HandleOperand::Null))), (4, Some(Step::Other)),
    (6, Some(Step::Same(HandleOperand::Null, HandleOperand::Local(2)))),
    (9, Some(Step::Load(1))), (10, Some(Step::Load(0))),
};

/// What a step comes to where 9, 7, 5 and 3 are in use, and there is room for four values more.
fn ends(step: Step) -> Option<After> {
    let mut stack = [
        Slot::Bits(9),
        Slot::Bits(7),
        Slot::Bits(5),
        Slot::Bits(3),
        Slot::Bits(0),
        Slot::Bits(0),
        Slot::Bits(0),
        Slot::Bits(0),
    ];
    let here = Cursor {
        at: 20,
        top: 4,
        ticks: 9,
    };
    let place = take(&mut stack, here, 8, &step).ok()?;
    Some(After {
        place,
        first: stack[2],
        second: stack[3],
        third: stack[4],
    })
}

/// Whether two steps on fields are the same.
fn is_same_on_fields(step: Step, wanted: Step) -> bool {
    match (step, wanted) {
        (Step::GetField(place, field), Step::GetField(other, its)) => {
            place == other && field == its
        }
        (Step::PutField(place, field), Step::PutField(other, its)) => {
            place == other && field == its
        }
        (Step::ChangeField(by, place, field), Step::ChangeField(to, other, its)) => {
            by == to && place == other && field == its
        }
        (Step::ChangeFieldByLocal(by, a, b, i), Step::ChangeFieldByLocal(to, c, d, j)) => {
            by == to && a == c && b == d && i == j
        }
        (Step::MoveField(from, field, to, into), Step::MoveField(other, its, at, its_into)) => {
            from == other && field == its && to == at && into == its_into
        }
        _ => false,
    }
}

/// Whether two steps on globals are the same.
fn is_same_on_globals(step: Step, wanted: Step) -> bool {
    match (step, wanted) {
        (Step::GetGlobal(number), Step::GetGlobal(other)) => number == other,
        (Step::PutGlobal(number), Step::PutGlobal(other)) => number == other,
        (Step::ChangeGlobal(by, number), Step::ChangeGlobal(to, other)) => {
            by == to && number == other
        }
        (Step::MoveGlobal(from, to), Step::MoveGlobal(other, its)) => from == other && to == its,
        _ => false,
    }
}

/// Whether two steps do the same, or are left to the run in the same way.
fn is_same(step: Step, wanted: Step) -> bool {
    match (step, wanted) {
        (Step::Other, Step::Other) => true,
        (Step::Ask(count), Step::Ask(other)) => count == other,
        (Step::Push(number), Step::Push(other)) => number == other,
        (Step::Load(place), Step::Load(other)) => place == other,
        (Step::Keep(to), Step::Keep(other)) => to == other,
        (Step::KeepOut(to, place), Step::KeepOut(other, its)) => to == other && place == its,
        (Step::KeepLastOut(to, place), Step::KeepLastOut(other, its)) => {
            to == other && place == its
        }
        (Step::Move(from, to), Step::Move(other, its)) => from == other && to == its,
        (Step::Swap(to, under, with), Step::Swap(other, its, at)) => {
            to == other && under == its && with == at
        }
        (Step::Same(one, two), Step::Same(other, its)) => one == other && two == its,
        (Step::Enter(Callee::Own(number)), Step::Enter(Callee::Own(other))) => number == other,
        (Step::Return(count), Step::Return(other)) => count == other,
        (Step::ReturnNothing(count), Step::ReturnNothing(other)) => count == other,
        _ => match ends(wanted) {
            Some(after) => ends(step) == Some(after),
            None => is_same_on_fields(step, wanted) || is_same_on_globals(step, wanted),
        },
    }
}

/// Whether that step stands there, or none does.
fn stands(step: Option<Step>, wanted: Option<Step>) -> bool {
    match (step, wanted) {
        (Some(step), Some(wanted)) => is_same(step, wanted),
        (None, None) => true,
        _ => false,
    }
}

/// The first of the places at which another step stands. No text is of a million instructions.
fn first_other(
    alloc: Global,
    text: &[Instruction],
    wanted: &[(usize, Option<Step>)],
) -> Result<Option<usize>, AllocError> {
    if text.len() > 1_000_000 {
        return Ok(Some(text.len()));
    }
    let steps = fuse(alloc, text)?;
    for (at, step) in wanted {
        if !stands(steps.get(*at).copied(), *step) {
            return Ok(Some(*at));
        }
    }
    Ok(None)
}

const TEXTS: &[(&str, &[Instruction], Places)] = &[
    ("counting", COUNTING, STEPS),
    ("asking", ASKING, ASKED),
    ("calling", CALLING, CALLS),
    ("pairs", PAIRED, PAIRS),
    ("`&out`", OUTS, OUT_STEPS),
    ("hashing", HASHING, HASHED),
    ("objects", OBJECTS, FIELDS),
    ("globals", GLOBALS, GLOBAL_STEPS),
    ("comparing", COMPARING, COMPARED),
];

/// A place inside what is done at once has a step of its own.
#[test]
fn each_place_has_its_step(rt: HostRuntime) -> Result<(), AllocError> {
    for (name, text, places) in TEXTS {
        assert_eq!(rt; first_other(rt.alloc(), text, places)?, None, "{name}");
    }
    Ok(())
}
