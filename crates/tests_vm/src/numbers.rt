//! A module of numbers.
use crate::entities::{FAIL, PRINT, REGISTER, SMALL_SUM, SUM};
use crate::operators::{ADD, DIVIDE, LATER, PLUS, SUBTRACT};
use crate::program::{BLANK, Module, Text};
use ang_code::Instruction;
use ang_code::Instruction::{
    Apply, Drop, DropUnder, Enter, JumpIfFalse, Load, LoopBack, PushBits, Return, Store, Swap,
    Tick, Update as Changed,
};
use ang_kinds::Comparison;
use ang_meaning::{Callee, Operation, Passing, Slot};

/// The module `m`, with two globals.
pub const NUMBERS: Module = Module {
    name: b'm',
    texts: TEXTS,
    globals: &[Slot::Bits(0), Slot::Bits(0)],
    ..BLANK
};

/// Adds an `int` to the register; its value is the new one.
const ADD_TO_REG: Instruction = Apply(Operation::Alter(REGISTER, PLUS));

/// The bodies by number.
const TEXTS: &[Text] = list! {
    // 0: int fib(int n) { return n < 2 ? n : fib(n - 1) + fib(n - 2); }
    (&[Passing::In], 4, &[Load(0), PushBits(2), Apply(Operation::Compare(Comparison::Less, true)),
        JumpIfFalse(2), Load(0), Return(0), Load(0), PushBits(1), SUBTRACT, Enter(Callee::Own(0)),
        Load(1), PushBits(2), SUBTRACT, Enter(Callee::Own(0)), ADD, Return(0)]),
    // 1: int64 i = 0; for (; i < 10; i++) {} return i;
    (&[], 3, &[PushBits(0), Tick, Load(0), PushBits(10),
        Apply(Operation::Compare(Comparison::Less, true)), JumpIfFalse(4), PushBits(1),
        Changed(LATER, 0), Drop, LoopBack(7), Load(0), Return(1)]),
    // 2: int d() { return d(); }
    (&[], 1, &[Enter(Callee::Own(2)), Return(0)]),
    // 3: 7 - sum(30, 2), after a note of 5.
    (&[], 4, &[PushBits(5), PRINT, Drop, PushBits(7), PushBits(30), PushBits(2), SUM, SUBTRACT,
        Return(0)]),
    // 4: A note of 1, and 1 / 0.
    (&[], 2, &[PushBits(1), PRINT, Drop, PushBits(1), PushBits(0), DIVIDE, Return(0)]),
    // 5: A note of 9, a call of the body that divides, and a note of what it gives.
    (&[], 2, &[PushBits(9), PRINT, Drop, Enter(Callee::Own(4)), PRINT, Return(0)]),
    // 6: int m() { return reg += 40; }
    (&[], 2, &[PushBits(40), ADD_TO_REG, Return(0)]),
    // 7: void m() { fail(77); }
    (&[], 2, &[PushBits(77), FAIL, Return(0)]),
    // 8: A sum of 200, which is too large.
    (&[], 2, &[PushBits(200), PushBits(0), SMALL_SUM, Return(0)]),
    // 9: int m() { reg = 300; return reg; }
    (&[], 2, &[PushBits(300), Apply(Operation::Write(REGISTER)), Drop, Apply(Operation::Read(REGISTER)),
        Return(0)]),
    // 10: A call of the body below, whose &out parameter is kept in the local.
    (&[], 3, &[PushBits(1), PushBits(0), PushBits(3), Enter(Callee::Own(11)),
        Swap { to: None, under: 1, with: 2 }, DropUnder(1), Drop, Load(0), Return(1)]),
    // 11: int k(int &out x, int y) { return x = 9; }
    (&[Passing::In, Passing::Out], 1, &[PushBits(9), Store(1), Return(0)]),
    // 12: the second global is 6.
    (&[], 1, &[PushBits(6), Apply(Operation::GlobalSet(1)), Return(0)]),
    // 13: The difference of both globals.
    (&[], 2, &[Apply(Operation::GlobalGet(1)), Apply(Operation::GlobalGet(0)), SUBTRACT, Return(0)]),
    // 14: two ticks.
    (&[], 1, &[Tick, Tick, PushBits(0), Return(0)]),
};
