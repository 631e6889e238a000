//! What calls hand out of the values that bodies give, by their types.
use crate::machine::{answer_alone, end, with_drivers};
use crate::program::{BLANK, Module, Text, table_of};
use ang_code::Instruction::{PushBits, PushNull, Return};
use ang_kinds::{Prim, Value};
use ang_meaning::Routine;
use std::alloc::{AllocError, Global};

/// Bodies that give a value.
const TEXTS: &[Text] = list! {
    (&[], 1, &[PushBits(u64::MAX), Return(0)]),
    (&[], 1, &[PushBits(200), Return(0)]),
    (&[], 1, &[PushBits(0), Return(0)]),
    (&[], 1, &[PushNull, Return(0)]),
};

/// The type of a body's value, the body's number, and what a call hands out.
const ANSWERS: &[(Option<Prim>, usize, Option<Value>)] = &[
    (None, 0, None),
    (None, 3, None),
    (Some(Prim::I8), 0, Some(Value::Int(-1))),
    (Some(Prim::I64), 0, Some(Value::Int(-1))),
    (Some(Prim::I32), 1, Some(Value::Int(200))),
    (Some(Prim::U8), 1, Some(Value::Uint(200))),
    (Some(Prim::U64), 0, Some(Value::Uint(u64::MAX))),
    (Some(Prim::Bool), 1, Some(Value::Bool(true))),
    (Some(Prim::Bool), 2, Some(Value::Bool(false))),
];

/// A module whose bodies give values of this type.
fn module_of(ty: Option<Prim>) -> Module {
    Module {
        name: b'v',
        result: ty,
        texts: TEXTS,
        ..BLANK
    }
}

/// Whether a call of a body answers so.
fn answers(
    alloc: Global,
    ty: Option<Prim>,
    number: usize,
    want: Option<Value>,
) -> Result<bool, AllocError> {
    let table = table_of(alloc, &[module_of(ty)])?;
    let Some(mut machine) = with_drivers(alloc)? else {
        return Ok(false);
    };
    let entry = Routine { home: 0, number };
    let answer = answer_alone(alloc, &table, &mut machine, entry, 10);
    end(machine);
    Ok(answer == Ok(want))
}

/// The place of the first row that is answered otherwise.
fn first_wrong(alloc: Global) -> Result<Option<usize>, AllocError> {
    for (at, (ty, number, want)) in ANSWERS.iter().enumerate() {
        if !answers(alloc, *ty, *number, *want)? {
            return Ok(Some(at));
        }
    }
    Ok(None)
}

#[test]
fn values_are_handed_out_by_their_types(rt: HostRuntime) -> Result<(), AllocError> {
    assert_eq!(rt; first_wrong(rt.alloc())?, None);
    Ok(())
}
