//! Values that pass between scripts and drivers.
use ang_kinds::{Prim, Value};
use ang_meaning::{HostValueType, Slot};
use ang_vm_numbers::{slot_from, value_from};

const VALUES: &[(Prim, u64, Value)] = &[
    (Prim::I8, 0x7F, Value::Int(0x7F)),
    (Prim::I16, u64::MAX - 0x7FFF, Value::Int(-0x8000)),
    (Prim::I32, u64::MAX - 4, Value::Int(-5)),
    (Prim::I64, 1 << 63, Value::Int(i64::MIN)),
    (Prim::U8, 0xFF, Value::Uint(0xFF)),
    (Prim::U16, 0xFFFF, Value::Uint(0xFFFF)),
    (Prim::U32, 0xFFFF_FFFF, Value::Uint(0xFFFF_FFFF)),
    (Prim::U64, u64::MAX, Value::Uint(u64::MAX)),
    (Prim::Bool, 1, Value::Bool(true)),
];

/// Whether a value passes in both directions.
fn passes(of: Prim, bits: u64, value: Value) -> bool {
    value_from(0, HostValueType::Plain(of), Slot::Bits(bits)) == value
        && slot_from(0, HostValueType::Plain(of), &value) == Some(Slot::Bits(bits))
}

#[test]
fn values_pass(rt: HostRuntime) {
    for (of, bits, value) in VALUES {
        assert!(rt; passes(*of, *bits, *value), "{of:?} {bits}");
    }
}
