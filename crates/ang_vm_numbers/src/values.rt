//! Values between a script and its drivers.
ghost use Rattle.std.specs.Prelude.{◌≡◌, ◌&&◌, nat_lt, ◌^◌, pos, Some};
ghost use Rattle.ang_meaning.specs.Numbers.{bits_of};
ghost use Rattle.ang_kinds.specs.Primitives.{is_signed, width_of};
ghost use Rattle.ang_meaning.specs.Hosts.{plain_value, value_of, is_within, is_unsigned, if_within, slot_of};
ghost use Rattle.ang_meaning.specs.declared.host.HostValueType.TheVariants.{Plain, Handle};
ghost use Rattle.ang_kinds.specs.declared.value.Value.TheVariants.{Int, Uint, Bool as Truth, Key};

use crate::conversions::convert;
use ang_kinds::{Prim, Value};
use ang_meaning::{HostValueType, Slot};

/// A number of a primitive type as it is handed to a driver.
fn plain_value(of: Prim, bits: u64) -> Value
    ensures exact { result ≡ plain_value of bits }
{
    match of {
        Prim::Bool => Value::Bool(bits != 0),
        Prim::I8 | Prim::I16 | Prim::I32 | Prim::I64 => Value::Int(bits.cast_signed()),
        Prim::U8 | Prim::U16 | Prim::U32 | Prim::U64 => Value::Uint(bits),
    }
}

/// A handle as it is handed to a driver: the key of an object of this driver, and else the null key.
fn key_value(driver: u32, slot: Slot) -> Value
    ensures exact { result ≡ value_of driver Handle slot }
{
    match slot {
        Slot::Host(owner, Some(key)) => {
            if driver == owner {
                Value::Key(Some(key))
            } else {
                Value::Key(None)
            }
        }
        Slot::Host(_, None) => Value::Key(None),
        Slot::Bits(_) => Value::Key(None),
        Slot::Script(_) => Value::Key(None),
    }
}

/// A slot as it is handed to the driver of that number, where its declared type is `of`: a number as the
/// value of its type, and a handle as the key of an object of this driver. What is not of the type goes
/// as the null key.
pub fn value_from(driver: u32, of: HostValueType, slot: Slot) -> Value
    ensures exact { result ≡ value_of driver of slot }
{
    match of {
        HostValueType::Nothing => Value::Key(None),
        HostValueType::Handle => key_value(driver, slot),
        HostValueType::Plain(of) => match slot {
            Slot::Bits(bits) => plain_value(of, bits),
            Slot::Script(_) => Value::Key(None),
            Slot::Host(_, _) => Value::Key(None),
        },
    }
}

/// Whether the type is signed and has the number in its range.
fn fits_signed(of: Prim, number: i64) -> bool
    ensures exact { result ≡ (is_signed of && is_within of number) }
{
    match of {
        Prim::I8 => -0x80 <= number && number < 0x80,
        Prim::I16 => -0x8000 <= number && number < 0x8000,
        Prim::I32 => -0x8000_0000 <= number && number < 0x8000_0000,
        Prim::I64 => true,
        Prim::U8 | Prim::U16 | Prim::U32 | Prim::U64 | Prim::Bool => false,
    }
}

/// Whether the type is an integer type without a sign and has the number in its range.
fn fits_unsigned(of: Prim, number: u64) -> bool
    ensures exact { result ≡ (is_unsigned of && nat_lt number (2 ^ width_of of)) }
{
    match of {
        Prim::U8 => number < 0x100,
        Prim::U16 => number < 0x1_0000,
        Prim::U32 => number < 0x1_0000_0000,
        Prim::U64 => true,
        Prim::I8 | Prim::I16 | Prim::I32 | Prim::I64 | Prim::Bool => false,
    }
}

/// A driver's signed number as a slot of a primitive type.
#[tactic(auto, unfolding(ang_meaning::specs::Hosts::slot_of))]
fn signed_slot(driver: u32, of: Prim, number: i64) -> Option<Slot>
    ensures exact { result ≡ slot_of driver (Plain of) (Int number) }
{
    if fits_signed(of, number) {
        Some(Slot::Bits(convert(of, number.cast_unsigned())))
    } else {
        None
    }
}

/// A driver's unsigned number as a slot of a primitive type.
#[tactic(auto, unfolding(ang_meaning::specs::Hosts::slot_of))]
fn unsigned_slot(driver: u32, of: Prim, number: u64) -> Option<Slot>
    ensures exact { result ≡ slot_of driver (Plain of) (Uint number) }
{
    if fits_unsigned(of, number) {
        Some(Slot::Bits(number))
    } else {
        None
    }
}

/// A driver's truth value as a slot of a primitive type.
#[tactic(auto, unfolding(ang_meaning::specs::Hosts::slot_of))]
fn truth_slot(driver: u32, of: Prim, truth: bool) -> Option<Slot>
    ensures exact { result ≡ slot_of driver (Plain of) (Truth truth) }
{
    match of {
        Prim::Bool => {
            if truth {
                Some(Slot::Bits(1))
            } else {
                Some(Slot::Bits(0))
            }
        }
        Prim::I8 => None,
        Prim::I16 => None,
        Prim::I32 => None,
        Prim::I64 => None,
        Prim::U8 => None,
        Prim::U16 => None,
        Prim::U32 => None,
        Prim::U64 => None,
    }
}

/// A driver's value of a primitive type as a slot.
#[tactic(auto, unfolding(ang_meaning::specs::Hosts::slot_of))]
fn plain_slot(driver: u32, of: Prim, value: &Value) -> Option<Slot>
    ensures exact { result ≡ slot_of driver (Plain of) value.now }
{
    match *value {
        Value::Int(number) => signed_slot(driver, of, number),
        Value::Uint(number) => unsigned_slot(driver, of, number),
        Value::Bool(truth) => truth_slot(driver, of, truth),
        Value::Key(_) => None,
    }
}

/// A driver's key as a slot: the null key is the null of all types.
#[tactic(auto, unfolding(ang_meaning::specs::Hosts::slot_of))]
fn key_slot(driver: u32, key: Option<u64>) -> Slot
    ensures exact { Some result ≡ slot_of driver Handle (Key key) }
{
    match key {
        Some(key) => Slot::Host(driver, Some(key)),
        None => Slot::Script(None),
    }
}

/// What a value of the driver of that number is in a slot, where its declared type is `of`: a signed
/// number for a signed type that has it in its range, an unsigned number for an unsigned one, a truth
/// value for `bool`, and for a handle the key, or null. None where it is not of the type or not in its
/// range.
#[tactic(auto, unfolding(ang_meaning::specs::Hosts::slot_of))]
pub fn slot_from(driver: u32, of: HostValueType, value: &Value) -> Option<Slot>
    ensures exact { result ≡ slot_of driver of value.now }
{
    match of {
        HostValueType::Nothing => None,
        HostValueType::Plain(of) => plain_slot(driver, of, value),
        HostValueType::Handle => match *value {
            Value::Key(key) => Some(key_slot(driver, key)),
            Value::Int(_) => None,
            Value::Uint(_) => None,
            Value::Bool(_) => None,
        },
    }
}
