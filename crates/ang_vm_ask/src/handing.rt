//! The operands of a host call, as they stand on the stack.
ghost use Rattle.std.specs.Prelude.{◌≡◌, ◌≤◌, ◌∷◌, List, length, reverse, slice_get, Some, IfSome};
ghost use Rattle.ang_meaning.specs.declared.slot.Slot.TheVariants.{Host as HostSlot};
ghost use Rattle.ang_code.specs.Machine.{take_some};
ghost use Rattle.ang_meaning.specs.Perform.{key_at, receiver_of, behind_first as behind_first_of, arguments_of as arguments_in};
ghost use Rattle.ang_vm_stack.specs.Stacks.{values};
ghost use Rattle.ang_vm_ask.specs.Handing.{object_in};

use ang_kinds::Fault;
use ang_meaning::{HostUse, Slot};

/// The `count` top values, as operands, the last one on top.
#[inline(always)]
pub(crate) fn operands_at(stack: &[Slot], top: usize, count: usize) -> &[Slot]
    requires in_use { count ≤ top }
    requires within { top ≤ length stack.now }
    ensures exact { reverse result.now ≡ take_some count (values stack.now top) }
{
    &stack[top - count..top]
}

#[inline(always)]
pub(crate) fn first_of(slots: &[Slot]) -> Option<Slot>
    ensures exact { result ≡ slice_get slots.now 0 }
{
    slots.first().copied()
}

#[inline(always)]
pub(crate) fn behind_first(slots: &[Slot]) -> &[Slot]
    ensures exact { result.now ≡ behind_first_of slots.now }
{
    if slots.is_empty() { slots } else { &slots[1..] }
}

/// The key of an object of this driver that a handle names. None where it names none.
#[inline(always)]
pub fn key_named(driver: u32, handle: Slot) -> Option<u64>
    ensures named { IfSome result (λ key. handle ≡ HostSlot driver (Some key)) }
{
    match handle {
        Slot::Host(owner, named) => { if owner == driver { named } else { None } }
        Slot::Bits(_) => None,
        Slot::Script(_) => None,
    }
}

/// The same.
///
/// # Errors
/// `Null` where it names none.
#[inline(always)]
fn key_of(driver: u32, handle: Slot) -> Result<Option<u64>, Fault>
    ensures exact { (vs : List Slot) → result ≡ object_in (key_at driver (handle ∷ vs)) }
{
    match handle {
        Slot::Host(owner, named) => match named {
            Some(key) => {
                if driver == owner {
                    Ok(Some(key))
                } else {
                    Err(Fault::Null)
                }
            }
            None => Err(Fault::Null),
        },
        Slot::Bits(_) => Err(Fault::Null),
        Slot::Script(_) => Err(Fault::Null),
    }
}

/// The object that an entry is asked of, which the first place holds; none where it is asked of no object.
///
/// # Errors
/// `Null` where there is no object of the entry's driver.
#[inline(always)]
pub(crate) fn object_of(host: &HostUse, places: &[Slot]) -> Result<Option<u64>, Fault>
    ensures exact { result ≡ object_in (receiver_of host.now places.now) }
{
    if !host.member {
        return Ok(None);
    }
    match first_of(places) {
        Some(handle) => key_of(host.driver, handle),
        None => Err(Fault::Null),
    }
}

/// The operands of a call after the object of which it is asked.
#[inline(always)]
pub(crate) fn arguments_of<'a>(host: &HostUse, operands: &'a [Slot]) -> &'a [Slot]
    ensures exact { result.now ≡ arguments_in host.now operands.now }
{
    if host.member {
        behind_first(operands)
    } else {
        operands
    }
}
