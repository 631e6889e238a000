//! `Apply`: operations on the globals of the running module.
//!
//! Each is one instruction, with its operands on the stack. What it does to the store is in `globals.rt` of `ang_vm_ask`;
//! `globals.rt` of `ang_vm_fields` does several of these instructions at once.
ghost use Rattle.std.specs.Prelude.{◌≡◌, ◌≤◌, ◌∷◌, List, [], length, IfOk};
ghost use Rattle.ang_meaning.specs.declared.operation.Operation.TheVariants.{GlobalGet, GlobalSet, GlobalChange};
ghost use Rattle.ang_code.specs.declared.instruction.Instruction.TheVariants.{Apply};
ghost use Rattle.ang_heap.specs.Stores.{IsReady, HasMoved};
ghost use Rattle.ang_vm_steps.specs.Arms.{AreCounted, BodyActs};

use crate::doing::put_answer;
use ang_heap::Store;
use ang_host::Driver;
use ang_meaning::{Routine, Slot, Update};
use ang_vm_ask::globals::{alter, get, set};
use ang_vm_stack::stack::peek;
use ang_vm_stack::stop::Trap;

/// `GlobalGet`: the value of a global goes on top.
pub(crate) fn get_global(
    body: Routine,
    stack: &mut [Slot],
    store: &mut Store,
    top: usize,
    room: usize,
    number: usize,
) -> Result<usize, Trap>
    requires in_room { top ≤ room }
    requires within { room ≤ length stack.old }
    requires ready { IsReady ⟦<dyn Driver as Driver>⟧ store.old }
    requires counted { AreCounted ⟦<dyn Driver as Driver>⟧ stack.old top store.old }
    ensures acts { BodyActs ⟦<dyn Driver as Driver>⟧ body (Apply (GlobalGet number)) room top stack.old
        store.old result stack.new store.new }
    ensures in_room { IfOk result (λ n. n ≤ room) }
    ensures moves { HasMoved ⟦<dyn Driver as Driver>⟧ store.old store.new }
{
    if top >= room {
        return Err(Trap::Stuck);
    }
    let answer = get(store, body.home, number);
    put_answer(stack, top, 0, answer)
}

/// `GlobalSet`: the top value is stored into a global, and stays on top.
pub(crate) fn set_global(
    body: Routine,
    stack: &mut [Slot],
    store: &mut Store,
    top: usize,
    room: usize,
    number: usize,
) -> Result<usize, Trap>
    requires in_room { top ≤ room }
    requires within { room ≤ length stack.old }
    requires ready { IsReady ⟦<dyn Driver as Driver>⟧ store.old }
    requires counted { AreCounted ⟦<dyn Driver as Driver>⟧ stack.old top store.old }
    ensures acts { BodyActs ⟦<dyn Driver as Driver>⟧ body (Apply (GlobalSet number)) room top stack.old
        store.old result stack.new store.new }
    ensures in_room { IfOk result (λ n. n ≤ room) }
    ensures moves { HasMoved ⟦<dyn Driver as Driver>⟧ store.old store.new }
{
    if top == 0 {
        return Err(Trap::Stuck);
    }
    let value = peek(stack, top, 0);
    let answer = set(store, body.home, number, value);
    put_answer(stack, top, 1, answer)
}

/// `GlobalChange`: a global changes by the top value, which the change's value replaces.
pub(crate) fn change_global(
    body: Routine,
    stack: &mut [Slot],
    store: &mut Store,
    top: usize,
    room: usize,
    number: usize,
    by: Update,
) -> Result<usize, Trap>
    requires in_room { top ≤ room }
    requires within { room ≤ length stack.old }
    requires ready { IsReady ⟦<dyn Driver as Driver>⟧ store.old }
    requires counted { AreCounted ⟦<dyn Driver as Driver>⟧ stack.old top store.old }
    ensures acts { BodyActs ⟦<dyn Driver as Driver>⟧ body (Apply (GlobalChange by number)) room top
        stack.old store.old result stack.new store.new }
    ensures in_room { IfOk result (λ n. n ≤ room) }
    ensures moves { HasMoved ⟦<dyn Driver as Driver>⟧ store.old store.new }
{
    if top == 0 {
        return Err(Trap::Stuck);
    }
    let operand = peek(stack, top, 0);
    let answer = alter(store, body.home, number, by, operand);
    put_answer(stack, top, 1, answer)
}
