//! A module of script classes.
use crate::entities::{GET, NEW_CELL, NEW_COUNTER, PRINT, VALUE};
use crate::operators::{ADD, DIVIDE, PLUS};
use crate::program::{BLANK, ClassRow, Module, Text};
use ang_code::Instruction;
use ang_code::Instruction::{
    Apply, Drop, DropUnder, Enter, Leave, Load, PushBits, PushNull, Return, Store, SwapField,
};
use ang_kinds::Prim::I8;
use ang_meaning::{Callee, Operation, Passing, Slot, Update, ValueKind};

/// The module `c`, with one global.
pub const CLASSES: Module = Module {
    name: b'c',
    texts: TEXTS,
    classes: ROWS,
    slots: &[
        &[Passing::Object],
        &[Passing::Object],
        &[Passing::In, Passing::Object],
    ],
    globals: &[Slot::Script(None)],
    ..BLANK
};

const HANDLE: ValueKind = ValueKind::Handle;

const NUMBER: ValueKind = ValueKind::Number;

/// The classes `A { Cell@ a; }`, `B : A { Cell@ b; }`, `Box { Counter@ c; }`, `N : I { int8 x; Cell@ cell; int y; }` and
/// `Outer { N@ n; Cell@ c; }`; the interface `I` is 9. `A` and `B` have `f`, `Box` has `clear`, both in slot 0.
const ROWS: &[ClassRow] = &[
    (1, &[HANDLE], &[0], &[(0, 3)]),
    (2, &[HANDLE, HANDLE], &[0, 1], &[(0, 4)]),
    (1, &[HANDLE], &[2], &[(0, 7)]),
    (0, &[NUMBER, HANDLE, NUMBER], &[3, 9], &[]),
    (5, &[HANDLE, HANDLE], &[4], &[]),
];

/// `+= n` on an `int8`.
const PLUS_8: Update = Update { to: I8, ..PLUS };

const ADD_TO_0: Instruction = Apply(Operation::FieldChange(PLUS_8, 0));

/// `++` after the field, before the 1 and the object.
const RAISE_0: Instruction = Apply(Operation::FieldChange(
    Update {
        old: true,
        ..PLUS_8
    },
    0,
));

/// The bodies by number.
const TEXTS: &[Text] = list! {
    // 0: A() { @a = Cell(1); }
    (&[Passing::Object], 3, &[PushBits(1), NEW_CELL, Load(1), Apply(Operation::FieldSet(0)), Drop,
        PushBits(0), Return(0)]),
    // 1: B() { super(); @b = Cell(2); }
    (&[Passing::Object], 3, &[Load(0), Enter(Callee::Own(0)), Drop, PushBits(2), NEW_CELL, Load(1),
        Apply(Operation::FieldSet(1)), Drop, PushBits(0), Return(0)]),
    // 2: void main() { B x; }
    (&[], 3, &[Apply(Operation::Make(1)), Load(0), Enter(Callee::Own(1)), Drop, PushBits(0),
        Return(1)]),
    // 3: int f() { return 1; }
    (&[Passing::Object], 1, &[PushBits(1), Return(0)]),
    // 4: int f() override { return A::f() + 1; }
    (&[Passing::Object], 2, &[Load(0), Enter(Callee::Own(3)), PushBits(1), ADD, Return(0)]),
    // 5: int m() { A@ a = B(); return a.f(); }
    (&[], 2, &[Apply(Operation::Make(1)), Load(0), Enter(Callee::Virtual(0)), Return(1)]),
    // 6: Box() { @c = Counter(5); }
    (&[Passing::Object], 3, &[PushBits(5), NEW_COUNTER, Load(1), Apply(Operation::FieldSet(0)), Drop,
        PushBits(0), Return(0)]),
    // 7: int clear() { @g = null; return c.value(); }
    (&[Passing::Object], 2, &[PushNull, Apply(Operation::GlobalSet(0)), Drop, Load(0),
        Apply(Operation::FieldGet(0)), VALUE, Return(0)]),
    // 8: Box@ g = Box();
    (&[], 3, &[Apply(Operation::Make(2)), Load(0), Enter(Callee::Own(6)), Drop,
        Apply(Operation::GlobalSet(0)), Return(0)]),
    // 9: int main() { return g.clear(); }
    (&[], 2, &[Apply(Operation::GlobalGet(0)), Enter(Callee::Virtual(0)), Return(0)]),
    // 10: A() { @a = Cell(1); int z; z = 1 / z; }
    (&[Passing::Object], 4, &[PushBits(1), NEW_CELL, Load(1), Apply(Operation::FieldSet(0)), Drop,
        PushBits(0), PushBits(1), Load(1), DIVIDE, Store(0), Drop, PushBits(0), Return(1)]),
    // 11: void main() { A p; }
    (&[], 3, &[Apply(Operation::Make(0)), Load(0), Enter(Callee::Own(10)), Drop, PushBits(0),
        Return(1)]),
    // 12: bool c() { I@ i = N(); N@ n = cast<N>(i); return n is i; }
    (&[], 5, &[Apply(Operation::Make(3)), Load(0), Apply(Operation::Cast(3)), Load(0), Load(2),
        Apply(Operation::Same), Return(2)]),
    // 13: print(cast<A>(make()) is null); print(2); print(cast<I>(make()) is null); print(cast<A>(null) is null);
    (&[], 3, &[Enter(Callee::Own(14)), Apply(Operation::Cast(0)), PushNull, Apply(Operation::Same), PRINT,
        Drop, PushBits(2), PRINT, Drop, Enter(Callee::Own(14)), Apply(Operation::Cast(9)), PushNull,
        Apply(Operation::Same), PRINT, Drop, PushNull, Apply(Operation::Cast(0)), PushNull,
        Apply(Operation::Same), PRINT, Drop, PushBits(0), Return(0)]),
    // 14: N@ make() { N n; @n.cell = Cell(1); return n; }
    (&[], 4, &[Apply(Operation::Make(3)), PushBits(1), NEW_CELL, Load(1), Apply(Operation::FieldSet(1)),
        Drop, Load(0), Return(1)]),
    // 15: N n; n.x = 5; print(n.x); print(n.x += 4); print(n.x++); print(n.x); print(n.x += 120); print(n.y);
    (&[], 4, &[Apply(Operation::Make(3)), PushBits(5), Load(1), Apply(Operation::FieldSet(0)), Drop,
        Load(0), Apply(Operation::FieldGet(0)), PRINT, Drop, PushBits(4), Load(1), ADD_TO_0, PRINT,
        Drop, PushBits(1), Load(1), RAISE_0, PRINT, Drop, Load(0), Apply(Operation::FieldGet(0)),
        PRINT, Drop, PushBits(120), Load(1), ADD_TO_0, PRINT, Drop, Load(0),
        Apply(Operation::FieldGet(2)), PRINT, Drop, PushBits(0), Return(1)]),
    // 16: void give(Cell@ &out c, int &out n) { @c = Cell(2); n = 300; }
    (&[Passing::Out, Passing::Out], 2, &[PushBits(2), NEW_CELL, Store(1), Drop, PushBits(300),
        Store(0), Drop, PushBits(0), Return(0)]),
    // 17: void fill() { give(cell, x); }
    (&[Passing::Object], 4, &[PushNull, PushBits(0), Enter(Callee::Own(16)),
        SwapField { to: None, under: 2, object: 3, field: 1 },
        SwapField { to: Some(I8), under: 1, object: 3, field: 0 }, DropUnder(2), Drop,
        PushBits(0), Return(0)]),
    // 18: int m() { N n; @n.cell = Cell(1); n.fill(); print(n.x); return n.cell.get(); }
    (&[], 4, &[Apply(Operation::Make(3)), PushBits(1), NEW_CELL, Load(1), Apply(Operation::FieldSet(1)),
        Drop, Load(0), Enter(Callee::Own(17)), Drop, Load(0), Apply(Operation::FieldGet(0)), PRINT,
        Drop, Load(0), Apply(Operation::FieldGet(1)), GET, Return(1)]),
    // 19: void m() { Outer o; @o.n = make(); @o.c = Cell(9); }
    (&[], 4, &[Apply(Operation::Make(4)), Enter(Callee::Own(14)), Load(1), Apply(Operation::FieldSet(0)),
        Drop, PushBits(9), NEW_CELL, Load(1), Apply(Operation::FieldSet(1)), Drop, PushBits(0),
        Return(1)]),
    // 20: B b; { Cell@ c = Cell(1); @b.a = c; @b.b = c; } print(1); @b.a = null; print(2); @b.b = null; print(3);
    (&[], 5, &[Apply(Operation::Make(1)), PushBits(1), NEW_CELL, Load(0), Load(2),
        Apply(Operation::FieldSet(0)), Drop, Load(0), Load(2), Apply(Operation::FieldSet(1)), Drop,
        Leave(1), PushBits(1), PRINT, Drop, PushNull, Load(1), Apply(Operation::FieldSet(0)), Drop,
        PushBits(2), PRINT, Drop, PushNull, Load(1), Apply(Operation::FieldSet(1)), Drop, PushBits(3),
        PRINT, Drop, PushBits(0), Return(1)]),
    // 21: void m() { A@ a; a.g(Cell(1)); }
    (&[], 4, &[PushNull, Load(0), PushBits(1), NEW_CELL, Enter(Callee::Virtual(2)), Drop,
        PushBits(0), Return(1)]),
    // 22: void m() { A a; a.h(); }
    (&[], 3, &[Apply(Operation::Make(0)), Load(0), Enter(Callee::Own(0)), Drop, Load(0),
        Enter(Callee::Virtual(1)), Drop, PushBits(0), Return(1)]),
    // 23: void k() { @g = make(); }
    (&[], 2, &[Enter(Callee::Own(14)), Apply(Operation::GlobalSet(0)), Drop, PushBits(0), Return(0)]),
    // 24: void m() { g.bad(); }
    (&[], 2, &[Apply(Operation::GlobalGet(0)), Enter(Callee::Own(25)), Drop, PushBits(0), Return(0)]),
    // 25: int bad() { Cell@ c = Cell(2); return cell.get() / 0; }
    (&[Passing::Object], 4, &[PushBits(2), NEW_CELL, Load(1), Apply(Operation::FieldGet(1)), GET,
        PushBits(0), DIVIDE, Return(1)]),
    // 26: void c() { @g = null; }
    (&[], 1, &[PushNull, Apply(Operation::GlobalSet(0)), Drop, PushBits(0), Return(0)]),
    // 27: void m() { N n; @n.cell = Cell(1); @n.cell = Cell(2); print(3); }
    (&[], 4, &[Apply(Operation::Make(3)), PushBits(1), NEW_CELL, Load(1), Apply(Operation::FieldSet(1)),
        Drop, PushBits(2), NEW_CELL, Load(1), Apply(Operation::FieldSet(1)), Drop, PushBits(3), PRINT,
        Drop, PushBits(0), Return(1)]),
    // 28: void m() { N@ n; @n.cell = Cell(1); }
    (&[], 4, &[PushNull, PushBits(1), NEW_CELL, Load(1), Apply(Operation::FieldSet(1)), Drop,
        PushBits(0), Return(1)]),
};
