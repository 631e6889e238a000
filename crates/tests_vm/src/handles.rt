//! Modules whose code holds objects of the host.
use crate::entities::{
    BUMP, CELL_ABOVE, FAIL, GET, NEW_CELL, NEW_COUNTER, PICK, PRINT, SET, STEP, SUM, VALUE,
};
use crate::operators::{DIVIDE, PLUS};
use crate::program::{BLANK, Module, Text};
use ang_code::Instruction;
use ang_code::Instruction::{
    Apply, Drop, DropUnder, Enter, Leave, Load, LoopBack, PushBits, PushNull, Return, Store, Swap,
    Tick,
};
use ang_kinds::Operator;
use ang_meaning::{Callee, Operation, Passing, Routine, Slot, Update};

/// The module `a`, with two globals.
pub const HANDLES: Module = Module {
    name: b'a',
    texts: TEXTS,
    imports: &[
        (&[Passing::In], None),
        (&[Passing::In], Some(Routine { home: 2, number: 0 })),
    ],
    globals: &[Slot::Script(None), Slot::Script(None)],
    ..BLANK
};

/// The module `b`, of which the module `a` imports a function.
pub const EXPORTER: Module = Module {
    name: b'b',
    texts: &[(&[Passing::In], 1, EXPORTED)],
    ..BLANK
};

/// `c.step += n`
const STEP_PLUS: Instruction = Apply(Operation::Alter(STEP, PLUS));

/// `c.step++`, before the 1 and the object.
const STEP_ON: Instruction = Apply(Operation::Alter(STEP, Update { old: true, ..PLUS }));

/// `c.step /= n`
const STEP_PARTED: Instruction = Apply(Operation::Alter(
    STEP,
    Update {
        operator: Operator::Divide,
        ..PLUS
    },
));

/// `Cell@ get(int x) { return Cell(x); }`
const EXPORTED: &[Instruction] = &[Load(0), NEW_CELL, Return(0)];

/// The bodies by number.
const TEXTS: &[Text] = list! {
    // 0: int p() { Counter c(5); c.step = 3; c.bump(); return c.value(); }
    (&[], 4, &[PushBits(5), NEW_COUNTER, PushBits(3), Load(1), Apply(Operation::Write(STEP)), Drop,
        Load(0), BUMP, Drop, Load(0), VALUE, Return(1)]),
    // 1: void m() { Cell@ a = Cell(1); { Cell@ b = Cell(2); } @a = pick(a); }
    (&[], 4, &[PushBits(1), NEW_CELL, PushBits(2), NEW_CELL, Leave(1), Load(0), PICK, Store(0),
        Drop, PushBits(0), Return(1)]),
    // 2: void mk(Cell@ &out c) { @c = Cell(1); }
    (&[Passing::Out], 2, &[PushBits(1), NEW_CELL, Store(0), Drop, PushBits(0), Return(0)]),
    // 3: int m() { Cell@ x; mk(x); return x.get(); }
    (&[], 4, &[PushNull, PushNull, Enter(Callee::Own(2)), Swap { to: None, under: 1, with: 2 },
        DropUnder(1), Drop, Load(0), GET, Return(1)]),
    // 4: int main() { int z; Cell@ c = Cell(Cell(1), 1/z); return c.get(); }
    (&[], 6, &[PushBits(0), PushBits(1), NEW_CELL, PushBits(1), Load(2), DIVIDE, CELL_ABOVE,
        Load(0), GET, Return(2)]),
    // 5: int m() { Cell@ c; return c.get(); }
    (&[], 3, &[PushNull, Load(0), GET, Return(1)]),
    // 6: void m() { Cell@ a = Cell(1); Cell@ b = Cell(2); print(1); @b = a; print(2); a.set(7); print(b.get()); }
    (&[], 5, &[PushBits(1), NEW_CELL, PushBits(2), NEW_CELL, PushBits(1), PRINT, Drop, Load(1),
        Store(0), Drop, PushBits(2), PRINT, Drop, Load(1), PushBits(7), SET, Drop, Load(0), GET,
        PRINT, Drop, PushBits(0), Return(2)]),
    // 7: Cell@ a = Cell(1); Counter@ b = Counter(2); Cell@ n; Counter@ o; print(n is o); print(a is a); print(a is
    // b); print(a is n); print(pick(n) is n); print(a is Cell(3));
    (&[], 7, &[PushBits(1), NEW_CELL, PushBits(2), NEW_COUNTER, PushNull, PushNull, Load(1),
        Load(1), Apply(Operation::Same), PRINT, Drop, Load(3), Load(4), Apply(Operation::Same), PRINT,
        Drop, Load(3), Load(3), Apply(Operation::Same), PRINT, Drop, Load(3), Load(2),
        Apply(Operation::Same), PRINT, Drop, Load(1), PICK, Load(2), Apply(Operation::Same), PRINT, Drop,
        Load(3), PushBits(3), NEW_CELL, Apply(Operation::Same), PRINT, Drop, PushBits(0), Return(4)]),
    // 8: Counter c(5); print(c.step); print(c.step += 4); print(c.step++); c.bump(); return c.value();
    (&[], 4, &[PushBits(5), NEW_COUNTER, Load(0), Apply(Operation::Read(STEP)), PRINT, Drop,
        PushBits(4), Load(1), STEP_PLUS, PRINT, Drop, PushBits(1), Load(1), STEP_ON, PRINT, Drop,
        Load(0), BUMP, Drop, Load(0), VALUE, Return(1)]),
    // 9: void m() { Counter c(5); c.step /= 0; }
    (&[], 4, &[PushBits(5), NEW_COUNTER, PushBits(0), Load(1), STEP_PARTED, Drop, PushBits(0),
        Return(1)]),
    // 10: void f(Cell@ a, Counter@ b) { Cell@ c = Cell(3); int z; z = 1 / z; }
    (&[Passing::In, Passing::In], 5, &[PushBits(3), NEW_CELL, PushBits(0), PushBits(1), Load(1),
        DIVIDE, Store(0), Drop, PushBits(0), Return(2)]),
    // 11: void m() { Cell@ k = Cell(0); f(Cell(1), Counter(2)); }
    (&[], 4, &[PushBits(0), NEW_CELL, PushBits(1), NEW_CELL, PushBits(2), NEW_COUNTER,
        Enter(Callee::Own(10)), Drop, PushBits(0), Return(1)]),
    // 12: void m() { Cell@ c; c.set(Cell(4).get()); }
    (&[], 4, &[PushNull, Load(0), PushBits(4), NEW_CELL, GET, SET, Drop, PushBits(0), Return(1)]),
    // 13: void m() { f(Cell(1), sum(9223372036854775807, 1)); }
    (&[], 4, &[PushBits(1), NEW_CELL, PushBits(9223372036854775807), PushBits(1), SUM, CELL_ABOVE,
        Drop, PushBits(0), Return(0)]),
    // 14: void k() { @g = Cell(1); }
    (&[], 2, &[PushBits(1), NEW_CELL, Apply(Operation::GlobalSet(0)), Drop, PushBits(0), Return(0)]),
    // 15: int u() { return g.get(); }
    (&[], 2, &[Apply(Operation::GlobalGet(0)), GET, Return(0)]),
    // 16: void r() { @g = Cell(2); print(7); }
    (&[], 2, &[PushBits(2), NEW_CELL, Apply(Operation::GlobalSet(0)), Drop, PushBits(7), PRINT, Drop,
        PushBits(0), Return(0)]),
    // 17: void c() { @g = null; }
    (&[], 1, &[PushNull, Apply(Operation::GlobalSet(0)), Drop, PushBits(0), Return(0)]),
    // 18: void m() { @g = Cell(1); fail(9); }
    (&[], 2, &[PushBits(1), NEW_CELL, Apply(Operation::GlobalSet(0)), Drop, PushBits(9), FAIL, Drop,
        PushBits(0), Return(0)]),
    // 19: void d(Cell@ c) { d(c); }
    (&[Passing::In], 2, &[Load(0), Enter(Callee::Own(19)), Drop, PushBits(0), Return(0)]),
    // 20: void m() { d(Cell(1)); }
    (&[], 2, &[PushBits(1), NEW_CELL, Enter(Callee::Own(19)), Drop, PushBits(0), Return(0)]),
    // 21: void w(Cell@ a, const Cell &in b) {}
    (&[Passing::Object, Passing::In], 1, &[PushBits(0), Return(0)]),
    // 22: void m() { w(Cell(1), null); }
    (&[], 3, &[PushBits(1), NEW_CELL, PushNull, Enter(Callee::Own(21)), Drop, PushBits(0),
        Return(0)]),
    // 23: void m() { import(Cell(1)); }
    (&[], 2, &[PushBits(1), NEW_CELL, Enter(Callee::Import(0)), Drop, PushBits(0), Return(0)]),
    // 24: int main() { Cell@ c = get(3); return c.get(); }
    (&[], 2, &[PushBits(3), Enter(Callee::Import(1)), Load(0), GET, Return(1)]),
    // 25: void m() { pick(Cell(5)); }
    (&[], 2, &[PushBits(5), NEW_CELL, PICK, Drop, PushBits(0), Return(0)]),
    // 26: int m() { return Cell(Cell(1), 2).get(); }
    (&[], 2, &[PushBits(1), NEW_CELL, PushBits(2), CELL_ABOVE, GET, Return(0)]),
    // 27: void m() { while (true) { Cell@ c = Cell(1); } }
    (&[], 2, &[Tick, PushBits(1), NEW_CELL, Leave(1), LoopBack(3), PushBits(0), Return(0)]),
    // 28: void p(Cell@ a, Counter@ b) { Cell@ c = Cell(3); Cell@ d = Cell(4); }
    (&[Passing::In, Passing::In], 4, &[PushBits(3), NEW_CELL, PushBits(4), NEW_CELL, PushBits(0),
        Return(2)]),
    // 29: void m() { p(Cell(1), Counter(2)); print(8); }
    (&[], 3, &[PushBits(1), NEW_CELL, PushBits(2), NEW_COUNTER, Enter(Callee::Own(28)), Drop,
        PushBits(8), PRINT, Drop, PushBits(0), Return(0)]),
};
