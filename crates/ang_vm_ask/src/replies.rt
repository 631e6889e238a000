//! What a driver's answer gives to the script.
ghost use Rattle.std.specs.Prelude.{◌≡◌, ◌↔◌, ℕ, IsTrue, List, IfSome, Some};
ghost use Rattle.ang_kinds.specs.declared.primitive.Primitive.TheVariants.{I64};
ghost use Rattle.ang_host.specs.declared.answer.HostReply.TheVariants.{Asking};
ghost use Rattle.ang_host.specs.Laws.{IsSound, IsLiveValue, IsLiveAnswer};
ghost use Rattle.ang_kinds.specs.declared.value.Value.TheVariants.{Int};
ghost use Rattle.ang_meaning.specs.declared.slot.Slot.TheVariants.{Bits};
ghost use Rattle.ang_meaning.specs.declared.host.HostValueType.TheVariants.{Plain};
ghost use Rattle.ang_meaning.specs.Counting.{CanGive, HasKey};
ghost use Rattle.ang_meaning.specs.Hosts.{slot_of, is_void, accepted, replied_by};
ghost use Rattle.ang_heap.specs.Parts.{counts_among};
ghost use Rattle.ang_heap.specs.Stores.{world_of, StoreTold, HasMoved};
ghost use Rattle.ang_vm_stack.specs.Arms.{done};
ghost use Rattle.ang_vm_ask.specs.Replies.{with_result};
ghost use Rattle.ang_vm_ask.specs.Askings.{driver_state};

use ang_heap::{Store, hold};
use ang_host::{Answer, Driver};
use ang_kinds::{Fault, Prim, Value};
use ang_meaning::{HostValueType, Slot};
use ang_vm_numbers::slot_from;

fn is_void(of: HostValueType) -> bool
    ensures exact { result ≡ is_void of }
{
    match of {
        HostValueType::Nothing => true,
        HostValueType::Plain(_) => false,
        HostValueType::Handle => false,
    }
}

/// Whether the type is that of all signed numbers of 64 bits.
#[inline(always)]
fn is_int64(of: HostValueType) -> bool
    ensures exact { IsTrue result ↔ (of ≡ Plain I64) }
{
    match of {
        HostValueType::Nothing => false,
        HostValueType::Plain(of) => match of {
            Prim::I64 => true,
            Prim::I8 => false,
            Prim::I16 => false,
            Prim::I32 => false,
            Prim::U8 => false,
            Prim::U16 => false,
            Prim::U32 => false,
            Prim::U64 => false,
            Prim::Bool => false,
        },
        HostValueType::Handle => false,
    }
}

/// A number of that type, as it is kept.
#[inline(always)]
fn int64_bits(number: i64) -> u64
    ensures exact { (d : ℕ) → slot_of d (Plain I64) (Int number) ≡ Some (Bits result) }
{
    number.cast_unsigned()
}

/// Takes a driver's value, which one more place holds then.
///
/// # Errors
/// `BadAnswer` where there is none of the declared type, and `Tally` where a tally has run out.
#[inline(always)]
fn accept(store: &mut Store, value: Option<Slot>) -> Result<Slot, Fault>
    requires there { IfSome value
        (λ v. HasKey v (counts_among ⟦<dyn Driver as Driver>⟧ store.old.drivers)) }
    ensures told { StoreTold ⟦<dyn Driver as Driver>⟧ (accepted value) store.old (done result)
        store.new }
    ensures enough { (vs : List Slot) → CanGive vs (world_of ⟦<dyn Driver as Driver>⟧ store.old)
        → CanGive (with_result result vs) (world_of ⟦<dyn Driver as Driver>⟧ store.new) }
    ensures moves { HasMoved ⟦<dyn Driver as Driver>⟧ store.old store.new }
{
    let Some(value) = value else {
        return Err(Fault::BadAnswer);
    };
    if !hold(store, value) {
        return Err(Fault::Tally);
    }
    Ok(value)
}

/// Takes a value of the driver of that number, where the declared type is `of`. One more place holds an object that
/// it names. It stays apart, so that `take_value` stays small.
///
/// # Errors
/// `BadAnswer` where it is not of the declared type or not in its range, and `Tally` where a tally has run out.
#[inline(never)]
fn take_value_apart(
    store: &mut Store,
    driver: u32,
    of: HostValueType,
    value: Value,
) -> Result<Slot, Fault>
    requires live { IsLiveValue (driver_state ⟦<dyn Driver as Driver>⟧ store.old driver) value }
    requires sound { IsSound (driver_state ⟦<dyn Driver as Driver>⟧ store.old driver) }
    ensures told { StoreTold ⟦<dyn Driver as Driver>⟧ (accepted (slot_of driver of value)) store.old
        (done result) store.new }
    ensures enough { (vs : List Slot) → CanGive vs (world_of ⟦<dyn Driver as Driver>⟧ store.old)
        → CanGive (with_result result vs) (world_of ⟦<dyn Driver as Driver>⟧ store.new) }
    ensures moves { HasMoved ⟦<dyn Driver as Driver>⟧ store.old store.new }
{
    accept(store, slot_from(driver, of, &value))
}

/// The same, with copies of what goes in and out, so that neither stands in memory where a number is taken.
#[inline(always)]
fn take_value_with_copies(
    store: &mut Store,
    driver: u32,
    of: HostValueType,
    value: Value,
) -> Result<Slot, Fault>
    requires live { IsLiveValue (driver_state ⟦<dyn Driver as Driver>⟧ store.old driver) value }
    requires sound { IsSound (driver_state ⟦<dyn Driver as Driver>⟧ store.old driver) }
    ensures told { StoreTold ⟦<dyn Driver as Driver>⟧ (accepted (slot_of driver of value)) store.old
        (done result) store.new }
    ensures enough { (vs : List Slot) → CanGive vs (world_of ⟦<dyn Driver as Driver>⟧ store.old)
        → CanGive (with_result result vs) (world_of ⟦<dyn Driver as Driver>⟧ store.new) }
    ensures moves { HasMoved ⟦<dyn Driver as Driver>⟧ store.old store.new }
{
    match take_value_apart(store, driver, of, value) {
        Ok(slot) => Ok(slot),
        Err(fault) => Err(fault),
    }
}

/// The same, with a number of the type `i64` told from all others first: it needs no test and nothing holds it.
#[inline(always)]
fn take_value(
    store: &mut Store,
    driver: u32,
    of: HostValueType,
    value: Value,
) -> Result<Slot, Fault>
    requires live { IsLiveValue (driver_state ⟦<dyn Driver as Driver>⟧ store.old driver) value }
    requires sound { IsSound (driver_state ⟦<dyn Driver as Driver>⟧ store.old driver) }
    ensures told { StoreTold ⟦<dyn Driver as Driver>⟧ (accepted (slot_of driver of value)) store.old
        (done result) store.new }
    ensures enough { (vs : List Slot) → CanGive vs (world_of ⟦<dyn Driver as Driver>⟧ store.old)
        → CanGive (with_result result vs) (world_of ⟦<dyn Driver as Driver>⟧ store.new) }
    ensures moves { HasMoved ⟦<dyn Driver as Driver>⟧ store.old store.new }
{
    match value {
        Value::Int(number) => {
            if is_int64(of) {
                Ok(Slot::Bits(int64_bits(number)))
            } else {
                take_value_with_copies(store, driver, of, Value::Int(number))
            }
        }
        other => take_value_with_copies(store, driver, of, other),
    }
}

/// Takes what the driver of that number answered, where the declared result is `of`: a value of the type,
/// or for `void` the number 0. One more place holds an object that it names.
///
/// # Errors
/// `BadAnswer` where the answer is not of the declared type or not in its range, the driver's own fault,
/// its want of memory, and `Tally` where one of its tallies has run out.
#[inline(always)]
pub(crate) fn take_answer(
    store: &mut Store,
    driver: u32,
    of: HostValueType,
    answer: Answer,
) -> Result<Slot, Fault>
    requires live { IsLiveAnswer (driver_state ⟦<dyn Driver as Driver>⟧ store.old driver) answer }
    requires sound { IsSound (driver_state ⟦<dyn Driver as Driver>⟧ store.old driver) }
    ensures told { StoreTold ⟦<dyn Driver as Driver>⟧ (replied_by driver of (Asking answer))
        store.old (done result) store.new }
    ensures enough { (vs : List Slot) → CanGive vs (world_of ⟦<dyn Driver as Driver>⟧ store.old)
        → CanGive (with_result result vs) (world_of ⟦<dyn Driver as Driver>⟧ store.new) }
    ensures moves { HasMoved ⟦<dyn Driver as Driver>⟧ store.old store.new }
{
    match answer {
        Answer::Void => {
            if is_void(of) {
                Ok(Slot::Bits(0))
            } else {
                Err(Fault::BadAnswer)
            }
        }
        Answer::Gave(value) => take_value(store, driver, of, value),
        Answer::Fault(number) => Err(Fault::Host(number)),
        Answer::Memory => Err(Fault::Memory),
        Answer::Full => Err(Fault::Tally),
    }
}
