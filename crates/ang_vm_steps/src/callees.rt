//! The function that a call enters.
ghost use Rattle.std.specs.Prelude.{◌≡◌, ℕ, ◌≤◌, List, length};
ghost use Rattle.ang_meaning.specs.World.{Input, with_inputs};
ghost use Rattle.ang_meaning.specs.Environment.{target, bound as bound_to, params_in, receiver_in, virtual_of};
ghost use Rattle.ang_heap.specs.Stores.{world_of};
ghost use Rattle.ang_vm_stack.specs.Stacks.{values};
ghost use Rattle.ang_vm_stack.specs.Arms.{found};
ghost use Rattle.ang_vm_stack.specs.Tables.{setting_of, slot_of};

use ang_heap::Store;
use ang_host::Driver;
use ang_kinds::Fault;
use ang_meaning::{Callee, Routine, Slot};
use ang_vm_stack::stack::peek;
use ang_vm_stack::table::{Table, linked_at, method_at, slot_at};

/// The function that a call from a module enters, where the values on top are its arguments.
///
/// # Errors
/// `Unbound` where an import is bound to none, or the receiver's class has no such method; `Null` where
/// there is no receiver.
#[inline(always)]
pub fn callee_of(
    table: &Table,
    home: u32,
    callee: Callee,
    stack: &[Slot],
    top: usize,
    store: &Store,
) -> Result<Routine, Fault>
    requires within { top ≤ length stack.now }
    ensures exact { (nesting : ℕ) (is : List Input)
        → target (setting_of table.now nesting) home callee (values stack.now top)
        (with_inputs is (world_of ⟦<dyn Driver as Driver>⟧ store.now)) ≡ found result }
{
    match callee {
        Callee::Own(number) => Ok(Routine { home, number }),
        Callee::Import(number) => bound_or_fault(linked_at(table, home, number)),
        Callee::Virtual(slot) => {
            let receiver = receiver_of(table, home, slot, stack, top);
            method_for(table, home, slot, receiver, store)
        }
    }
}

#[inline(always)]
fn bound_or_fault(bound: Option<Routine>) -> Result<Routine, Fault>
    ensures exact { bound_to bound ≡ found result }
{
    match bound {
        Some(routine) => Ok(routine),
        None => Err(Fault::Unbound),
    }
}

/// How many parameters the methods in a slot have.
fn count_of(table: &Table, home: u32, slot: usize) -> usize
    ensures exact { result ≡ length (params_in (slot_of table.now home slot)) }
{
    match slot_at(table, home, slot) {
        Some(params) => params.len(),
        None => 0,
    }
}

/// The value of the first parameter of a slot's methods, the receiver's: it stands lowest of the arguments.
fn receiver_of(table: &Table, home: u32, slot: usize, stack: &[Slot], top: usize) -> Slot
    requires within { top ≤ length stack.now }
    ensures exact { result
        ≡ receiver_in (params_in (slot_of table.now home slot)) (values stack.now top) }
{
    let count = count_of(table, home, slot);
    if count == 0 {
        return Slot::Bits(0);
    }
    if count > top {
        return Slot::Bits(0);
    }
    peek(stack, top, count - 1)
}

/// The method of a receiver's class in a slot.
fn method_for(
    table: &Table,
    home: u32,
    slot: usize,
    receiver: Slot,
    store: &Store,
) -> Result<Routine, Fault>
    ensures exact { (nesting : ℕ) (is : List Input)
        → virtual_of (setting_of table.now nesting) home slot receiver
        (with_inputs is (world_of ⟦<dyn Driver as Driver>⟧ store.now)) ≡ found result }
{
    match receiver {
        Slot::Bits(_) => Err(Fault::Null),
        Slot::Host(_, _) => Err(Fault::Null),
        Slot::Script(handle) => match handle {
            Some(number) => match store.heap.class(number) {
                Some(class) => bound_or_fault(method_at(table, home, class, slot)),
                None => Err(Fault::Null),
            },
            None => Err(Fault::Null),
        },
    }
}
