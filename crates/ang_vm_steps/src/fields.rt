//! `Apply`: operations on script objects.
//!
//! Each is one instruction, with its operands on the stack. What it does to the store is in `fields.rt` of `ang_vm_ask`;
//! `fields.rt` of `ang_vm_fields` does several of these instructions at once.
ghost use Rattle.std.specs.Prelude.{◌≡◌, ℕ, ◌≤◌, ◌∷◌, List, [], length, IfOk};
ghost use Rattle.ang_meaning.specs.declared.operation.Operation.TheVariants.{Make, FieldGet, FieldSet, FieldChange, Cast};
ghost use Rattle.ang_code.specs.declared.instruction.Instruction.TheVariants.{Apply};
ghost use Rattle.ang_heap.specs.Stores.{IsReady, HasMoved, HasMade};
ghost use Rattle.ang_vm_steps.specs.Arms.{AreCounted, ActsOn, TableActs};

use crate::doing::put_answer;
use ang_heap::Store;
use ang_host::Driver;
use ang_meaning::{Routine, Slot, Update};
use ang_vm_ask::fields::{alter, cast_value, get, make, set};
use ang_vm_stack::stack::peek;
use ang_vm_stack::stop::Trap;
use ang_vm_stack::table::{Table, class_at};

/// `Make`: a new object of a class of the running module goes on top, made while so many ticks are left.
pub(crate) fn make_object(
    table: &Table,
    body: Routine,
    stack: &mut [Slot],
    store: &mut Store,
    top: usize,
    room: usize,
    class: usize,
    ticks: u64,
) -> Result<usize, Trap>
    requires in_room { top ≤ room }
    requires within { room ≤ length stack.old }
    requires ready { IsReady ⟦<dyn Driver as Driver>⟧ store.old }
    requires counted { AreCounted ⟦<dyn Driver as Driver>⟧ stack.old top store.old }
    ensures acts { TableActs ⟦<dyn Driver as Driver>⟧ table.now body (Apply (Make class)) room top
        stack.old store.old result stack.new store.new }
    ensures in_room { IfOk result (λ n. n ≤ room) }
    ensures made { IfOk result
        (λ n. (fields : ℕ) × HasMade ticks fields store.old store.new) }
    ensures moves { HasMoved ⟦<dyn Driver as Driver>⟧ store.old store.new }
{
    let found = match class_at(table, body.home, class) {
        Some(found) => found,
        None => return Err(Trap::Stuck),
    };
    if top >= room {
        return Err(Trap::Stuck);
    }
    let answer = make(store, found, ticks);
    put_answer(stack, top, 0, answer)
}

/// `FieldGet`: a field's value takes the place of its object.
pub(crate) fn get_field(
    stack: &mut [Slot],
    store: &mut Store,
    top: usize,
    room: usize,
    index: usize,
) -> Result<usize, Trap>
    requires in_room { top ≤ room }
    requires within { room ≤ length stack.old }
    requires ready { IsReady ⟦<dyn Driver as Driver>⟧ store.old }
    requires counted { AreCounted ⟦<dyn Driver as Driver>⟧ stack.old top store.old }
    ensures acts { ActsOn ⟦<dyn Driver as Driver>⟧ (Apply (FieldGet index)) room top stack.old
        store.old result stack.new store.new }
    ensures in_room { IfOk result (λ n. n ≤ room) }
    ensures moves { HasMoved ⟦<dyn Driver as Driver>⟧ store.old store.new }
{
    if top == 0 {
        return Err(Trap::Stuck);
    }
    let object = peek(stack, top, 0);
    let answer = get(store, object, index);
    put_answer(stack, top, 1, answer)
}

/// `FieldSet`: the value below the object is stored into its field, and takes both places.
pub(crate) fn set_field(
    stack: &mut [Slot],
    store: &mut Store,
    top: usize,
    room: usize,
    index: usize,
) -> Result<usize, Trap>
    requires in_room { top ≤ room }
    requires within { room ≤ length stack.old }
    requires ready { IsReady ⟦<dyn Driver as Driver>⟧ store.old }
    requires counted { AreCounted ⟦<dyn Driver as Driver>⟧ stack.old top store.old }
    ensures acts { ActsOn ⟦<dyn Driver as Driver>⟧ (Apply (FieldSet index)) room top stack.old
        store.old result stack.new store.new }
    ensures in_room { IfOk result (λ n. n ≤ room) }
    ensures moves { HasMoved ⟦<dyn Driver as Driver>⟧ store.old store.new }
{
    if top < 2 {
        return Err(Trap::Stuck);
    }
    let object = peek(stack, top, 0);
    let value = peek(stack, top, 1);
    let answer = set(store, object, index, value);
    put_answer(stack, top, 2, answer)
}

/// `FieldChange`: a field changes by the value below its object, and the change's value takes both places.
pub(crate) fn change_field(
    stack: &mut [Slot],
    store: &mut Store,
    top: usize,
    room: usize,
    index: usize,
    by: Update,
) -> Result<usize, Trap>
    requires in_room { top ≤ room }
    requires within { room ≤ length stack.old }
    requires ready { IsReady ⟦<dyn Driver as Driver>⟧ store.old }
    requires counted { AreCounted ⟦<dyn Driver as Driver>⟧ stack.old top store.old }
    ensures acts { ActsOn ⟦<dyn Driver as Driver>⟧ (Apply (FieldChange by index)) room top stack.old
        store.old result stack.new store.new }
    ensures in_room { IfOk result (λ n. n ≤ room) }
    ensures moves { HasMoved ⟦<dyn Driver as Driver>⟧ store.old store.new }
{
    if top < 2 {
        return Err(Trap::Stuck);
    }
    let object = peek(stack, top, 0);
    let operand = peek(stack, top, 1);
    let answer = alter(store, object, index, by, operand);
    put_answer(stack, top, 2, answer)
}

/// `Cast`: the top value, or null where it is no object of that class or interface of the running module.
pub(crate) fn cast(
    table: &Table,
    body: Routine,
    stack: &mut [Slot],
    store: &mut Store,
    top: usize,
    room: usize,
    class: usize,
) -> Result<usize, Trap>
    requires in_room { top ≤ room }
    requires within { room ≤ length stack.old }
    requires ready { IsReady ⟦<dyn Driver as Driver>⟧ store.old }
    requires counted { AreCounted ⟦<dyn Driver as Driver>⟧ stack.old top store.old }
    ensures acts { TableActs ⟦<dyn Driver as Driver>⟧ table.now body (Apply (Cast class)) room top
        stack.old store.old result stack.new store.new }
    ensures in_room { IfOk result (λ n. n ≤ room) }
    ensures moves { HasMoved ⟦<dyn Driver as Driver>⟧ store.old store.new }
{
    if top == 0 {
        return Err(Trap::Stuck);
    }
    let value = peek(stack, top, 0);
    let answer = cast_value(table, store, body.home, class, value);
    put_answer(stack, top, 1, answer)
}
