//! Arguments of a call, and what can be called.

use ang_engine_call::{arguments, is_callable};
use ang_kinds::{List, Pass, Place, Prim, Value};
use ang_meaning::Slot;
use ang_names_known::{Origin, ScriptFunction, ScriptParameter, Written};
use ang_types::ArgType;
use std::alloc::{AllocError, Global};

const OBJECT: ArgType = ArgType::Object {
    number: 0,
    read_only: false,
};

const HANDLE: ArgType = ArgType::Handle {
    number: 0,
    read_only: true,
};

const ENUMERATION: ArgType = ArgType::Enumeration { number: 3 };

fn without_const(ty: ArgType) -> Written {
    Written {
        ty,
        constant: false,
        const_handle: false,
    }
}

fn parameter(alloc: Global, ty: ArgType, pass: Pass) -> ScriptParameter {
    ScriptParameter {
        written: without_const(ty),
        pass,
        name: List::from_vec(Vec::new(alloc)),
    }
}

fn function(alloc: Global, gives: ArgType, params: Vec<ScriptParameter>) -> ScriptFunction {
    ScriptFunction {
        name: List::from_vec(Vec::new(alloc)),
        place: Place {
            sect: 0,
            line: 1,
            column: 1,
        },
        result: without_const(gives),
        params: List::from_vec(params),
        origin: Origin {
            script: 0,
            declaration: 0,
            variable: 0,
        },
    }
}

/// A function of these parameters, by value.
fn taking(alloc: Global, types: &[ArgType]) -> Result<ScriptFunction, AllocError> {
    let mut params = Vec::new(alloc);
    for ty in types {
        params.push(parameter(alloc, *ty, Pass::Value))?;
    }
    Ok(function(alloc, ArgType::Void, params))
}

fn are_bits(slots: &[Slot], bits: &[u64]) -> bool {
    for (i, slot) in slots.iter().enumerate() {
        match (*slot, bits.get(i)) {
            (Slot::Bits(given), Some(bits)) if given == *bits => {}
            _ => return false,
        }
    }
    slots.len() == bits.len()
}

fn are_passed(
    alloc: Global,
    function: &ScriptFunction,
    values: &[Value],
    bits: Option<&[u64]>,
) -> bool {
    match arguments(alloc, function, values) {
        Ok(Some(slots)) => match bits {
            Some(bits) => are_bits(slots.as_slice(), bits),
            None => false,
        },
        Ok(None) => bits.is_none(),
        Err(_) => false,
    }
}

/// Whether the values are passed to such a function in slots of these bits, or are not passed.
fn passes(alloc: Global, types: &[ArgType], values: &[Value], bits: Option<&[u64]>) -> bool {
    let Ok(function) = taking(alloc, types) else {
        return false;
    };
    let passes = are_passed(alloc, &function, values, bits);
    drop(function);
    passes
}

/// Whether so it is with one argument of this type.
fn passes_one(alloc: Global, of: Prim, value: Value, bits: Option<u64>) -> bool {
    let types = [ArgType::Plain(of)];
    match bits {
        Some(bits) => passes(alloc, &types, &[value], Some(&[bits])),
        None => passes(alloc, &types, &[value], None),
    }
}

/// A parameter's type, a value, and the bits of its slot if the value can be passed.
const VALUES: &[(Prim, Value, Option<u64>)] = &[
    // signed numbers in their range
    (Prim::I8, Value::Int(-128), Some(0xffff_ffff_ffff_ff80)),
    (Prim::I8, Value::Int(127), Some(127)),
    (Prim::I8, Value::Int(-1), Some(u64::MAX)),
    (Prim::I8, Value::Int(-129), None),
    (Prim::I8, Value::Int(128), None),
    (Prim::I8, Value::Uint(1), None),
    (Prim::I8, Value::Bool(true), None),
    (Prim::I16, Value::Int(-32_768), Some(0xffff_ffff_ffff_8000)),
    (Prim::I16, Value::Int(32_767), Some(32_767)),
    (Prim::I16, Value::Int(-1), Some(u64::MAX)),
    (Prim::I16, Value::Int(-32_769), None),
    (Prim::I16, Value::Int(32_768), None),
    (Prim::I16, Value::Uint(1), None),
    (Prim::I16, Value::Bool(true), None),
    (
        Prim::I32,
        Value::Int(-2_147_483_648),
        Some(0xffff_ffff_8000_0000),
    ),
    (Prim::I32, Value::Int(2_147_483_647), Some(2_147_483_647)),
    (Prim::I32, Value::Int(-1), Some(u64::MAX)),
    (Prim::I32, Value::Int(-2_147_483_649), None),
    (Prim::I32, Value::Int(2_147_483_648), None),
    (Prim::I32, Value::Uint(1), None),
    (Prim::I32, Value::Bool(true), None),
    (Prim::I64, Value::Int(i64::MIN), Some(0x8000_0000_0000_0000)),
    (Prim::I64, Value::Int(i64::MAX), Some(0x7fff_ffff_ffff_ffff)),
    (Prim::I64, Value::Uint(1), None),
    // unsigned numbers in theirs
    (Prim::U8, Value::Uint(0), Some(0)),
    (Prim::U8, Value::Uint(255), Some(255)),
    (Prim::U8, Value::Uint(256), None),
    (Prim::U8, Value::Int(1), None),
    (Prim::U8, Value::Key(Some(1)), None),
    (Prim::U16, Value::Uint(0), Some(0)),
    (Prim::U16, Value::Uint(65_535), Some(65_535)),
    (Prim::U16, Value::Uint(65_536), None),
    (Prim::U16, Value::Int(1), None),
    (Prim::U16, Value::Key(Some(1)), None),
    (Prim::U32, Value::Uint(0), Some(0)),
    (Prim::U32, Value::Uint(4_294_967_295), Some(4_294_967_295)),
    (Prim::U32, Value::Uint(4_294_967_296), None),
    (Prim::U32, Value::Int(1), None),
    (Prim::U32, Value::Key(Some(1)), None),
    (Prim::U64, Value::Uint(u64::MAX), Some(u64::MAX)),
    (Prim::U64, Value::Int(1), None),
    // truth values
    (Prim::Bool, Value::Bool(true), Some(1)),
    (Prim::Bool, Value::Bool(false), Some(0)),
    (Prim::Bool, Value::Int(1), None),
    (Prim::Bool, Value::Uint(1), None),
    (Prim::Bool, Value::Key(None), None),
];

#[test]
fn values_are_in_their_range(rt: HostRuntime) {
    for row in VALUES {
        let (of, value, bits) = *row;
        assert!(rt; passes_one(rt.alloc(), of, value, bits), "{of:?} {value:?}");
    }
}

/// The types of parameters, values, and the bits of their slots if they can be passed.
type Passed = (&'static [ArgType], &'static [Value], Option<&'static [u64]>);

const TWO: &[ArgType] = &[ArgType::Plain(Prim::I8), ArgType::Plain(Prim::U8)];

/// Arguments stand in order, and are as many as the parameters.
const ORDERS: &[Passed] = &[
    (TWO, &[Value::Int(3), Value::Uint(4)], Some(&[3, 4])),
    (TWO, &[Value::Uint(4), Value::Int(3)], None),
    (TWO, &[Value::Int(3)], None),
    (TWO, &[], None),
    (&[], &[], Some(&[])),
    (&[], &[Value::Int(3)], None),
];

#[test]
fn arguments_stand_in_order(rt: HostRuntime) {
    for row in ORDERS {
        let (types, values, bits) = *row;
        assert!(rt;
            passes(rt.alloc(), types, values, bits),
            "{types:?} {values:?}"
        );
    }
}

/// An enumeration takes what an `int` does.
const ENUMERATED: &[(Value, Option<u64>)] = &[
    (Value::Int(0), Some(0)),
    (Value::Int(-2_147_483_648), Some(0xffff_ffff_8000_0000)),
    (Value::Int(2_147_483_647), Some(2_147_483_647)),
    (Value::Int(-1), Some(u64::MAX)),
    (Value::Int(-2_147_483_649), None),
    (Value::Int(2_147_483_648), None),
    (Value::Uint(1), None),
    (Value::Bool(true), None),
    (Value::Key(None), None),
];

fn passes_enumeration(alloc: Global, value: Value, bits: Option<u64>) -> bool {
    match bits {
        Some(bits) => passes(alloc, &[ENUMERATION], &[value], Some(&[bits])),
        None => passes(alloc, &[ENUMERATION], &[value], None),
    }
}

#[test]
fn an_enumeration_has_the_range_of_int(rt: HostRuntime) {
    for row in ENUMERATED {
        let (value, bits) = *row;
        assert!(rt; passes_enumeration(rt.alloc(), value, bits), "{value:?}");
    }
}

/// Whether a function of one parameter of this type can't be called, and takes no null handle.
fn takes_none(alloc: Global, ty: ArgType) -> bool {
    let Ok(function) = taking(alloc, &[ty]) else {
        return false;
    };
    let takes = is_callable(&function) || !are_passed(alloc, &function, &[Value::Key(None)], None);
    drop(function);
    !takes
}

#[test]
fn objects_are_not_passed(rt: HostRuntime) {
    for ty in &[OBJECT, HANDLE, ArgType::Void, ArgType::Null] {
        assert!(rt; takes_none(rt.alloc(), *ty), "{ty:?}");
    }
}

/// Whether a function without parameters that has this result can be called.
fn gives(alloc: Global, ty: ArgType) -> bool {
    let function = function(alloc, ty, Vec::new(alloc));
    let gives = is_callable(&function);
    drop(function);
    gives
}

/// A result's type, and whether a function that has it can be called.
const RESULTS: &[(ArgType, bool)] = &[
    (ArgType::Plain(Prim::I8), true),
    (ArgType::Plain(Prim::U64), true),
    (ArgType::Plain(Prim::Bool), true),
    (ENUMERATION, true),
    (ArgType::Void, true),
    // objects are no results
    (OBJECT, false),
    (HANDLE, false),
    (ArgType::Null, false),
];

#[test]
fn results_are_numbers_and_truth_values(rt: HostRuntime) {
    for row in RESULTS {
        let (result, callable) = *row;
        assert_eq!(rt; gives(rt.alloc(), result), callable, "{result:?}");
    }
}
