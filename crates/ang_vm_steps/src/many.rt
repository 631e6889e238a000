//! Instructions that give up several values at once, and what a fault gives up.
//!
//! Where nothing lives nothing is given up, so that a script without objects pays one test for all of its
//! values.
ghost use Rattle.std.specs.Prelude.{◌≡◌, ℕ, ◌+◌, ◌-◌, ◌<◌, ◌≤◌, List, [], ◌∷◌, length, IfOk, IsTrue};
ghost use Rattle.ang_meaning.specs.World.{give as give_in, give_all};
ghost use Rattle.ang_meaning.specs.Results.{give_some, give_back, local_at};
ghost use Rattle.ang_meaning.specs.Counting.{CanGive};
ghost use Rattle.ang_code.specs.declared.instruction.Instruction.TheVariants.{Leave, DropUnder};
ghost use Rattle.ang_code.specs.Machine.{take_some};
ghost use Rattle.ang_heap.specs.Stores.{world_of, IsReady, HasMoved, StoreBecomes};
ghost use Rattle.ang_vm_stack.specs.Stacks.{values};
ghost use Rattle.ang_vm_steps.specs.Arms.{AreCounted, ActsOn};

use ang_heap::{Store, give};
use ang_host::Driver;
use ang_meaning::Slot;
use ang_vm_stack::stack::{peek, push};
use ang_vm_stack::stop::Trap;

/// Whether no object lives, so that there is nothing to be given up.
#[inline(always)]
pub fn nothing_lives(store: &Store) -> bool
    requires ready { IsReady ⟦<dyn Driver as Driver>⟧ store.now }
    ensures nothing { IsTrue result → (value : Slot)
        → StoreBecomes ⟦<dyn Driver as Driver>⟧ (give_in value) store.now store.now }
{
    store.live == 0 && store.heap.is_empty()
}

/// Gives up the top value, in line where it is a number or a script object that other places hold as well.
#[inline(always)]
fn give_last(stack: &[Slot], store: &mut Store, top: usize)
    requires in_use { 0 < top }
    requires within { top ≤ length stack.now }
    requires ready { IsReady ⟦<dyn Driver as Driver>⟧ store.old }
    requires enough { CanGive (local_at (values stack.now top) 0 ∷ [])
        (world_of ⟦<dyn Driver as Driver>⟧ store.old) }
    ensures given { StoreBecomes ⟦<dyn Driver as Driver>⟧
        (give_in (local_at (values stack.now top) 0)) store.old store.new }
    ensures moves { HasMoved ⟦<dyn Driver as Driver>⟧ store.old store.new }
{
    match stack[top - 1] {
        Slot::Bits(_) => {}
        Slot::Script(handle) => give(store, Slot::Script(handle)),
        Slot::Host(driver, key) => give(store, Slot::Host(driver, key)),
    }
}

/// Gives up `count` values from the top one by one, the top one first, in line.
#[inline(always)]
fn give_each_in_line(stack: &[Slot], store: &mut Store, top: usize, count: usize)
    requires in_use { count ≤ top }
    requires within { top ≤ length stack.now }
    requires ready { IsReady ⟦<dyn Driver as Driver>⟧ store.old }
    requires enough { CanGive (values stack.now top) (world_of ⟦<dyn Driver as Driver>⟧ store.old) }
    ensures given { StoreBecomes ⟦<dyn Driver as Driver>⟧ (give_some count (values stack.now top))
        store.old store.new }
    ensures moves { HasMoved ⟦<dyn Driver as Driver>⟧ store.old store.new }
{
    for given in 0..count {
        give_last(stack, store, top - given);
    }
}

/// Gives up `count` values from the top one by one, the top one first. It stays apart, so that the loop over a body, which
/// comes here only where objects live, stays small.
#[inline(never)]
fn give_each(stack: &[Slot], store: &mut Store, top: usize, count: usize)
    requires in_use { count ≤ top }
    requires within { top ≤ length stack.now }
    requires ready { IsReady ⟦<dyn Driver as Driver>⟧ store.old }
    requires enough { CanGive (values stack.now top) (world_of ⟦<dyn Driver as Driver>⟧ store.old) }
    ensures given { StoreBecomes ⟦<dyn Driver as Driver>⟧ (give_some count (values stack.now top))
        store.old store.new }
    ensures moves { HasMoved ⟦<dyn Driver as Driver>⟧ store.old store.new }
{
    give_each_in_line(stack, store, top, count);
}

/// Gives up `count` values from the top, the top one first.
#[inline(always)]
pub fn give_top(stack: &[Slot], store: &mut Store, top: usize, count: usize)
    requires in_use { count ≤ top }
    requires within { top ≤ length stack.now }
    requires ready { IsReady ⟦<dyn Driver as Driver>⟧ store.old }
    requires enough { CanGive (values stack.now top) (world_of ⟦<dyn Driver as Driver>⟧ store.old) }
    ensures given { StoreBecomes ⟦<dyn Driver as Driver>⟧ (give_some count (values stack.now top))
        store.old store.new }
    ensures moves { HasMoved ⟦<dyn Driver as Driver>⟧ store.old store.new }
{
    if count == 0 || nothing_lives(store) {
        return;
    }
    give_each(stack, store, top, count);
}

/// Gives up `count` values from the top, the top one first, in line. A body's end does so: most of what it gives up are numbers,
/// and a receiver that its caller holds as well.
#[inline(always)]
pub fn give_top_in_line(stack: &[Slot], store: &mut Store, top: usize, count: usize)
    requires in_use { count ≤ top }
    requires within { top ≤ length stack.now }
    requires ready { IsReady ⟦<dyn Driver as Driver>⟧ store.old }
    requires enough { CanGive (values stack.now top) (world_of ⟦<dyn Driver as Driver>⟧ store.old) }
    ensures given { StoreBecomes ⟦<dyn Driver as Driver>⟧ (give_some count (values stack.now top))
        store.old store.new }
    ensures moves { HasMoved ⟦<dyn Driver as Driver>⟧ store.old store.new }
{
    if count == 0 || nothing_lives(store) {
        return;
    }
    give_each_in_line(stack, store, top, count);
}

/// Gives up all values in use, the top one first, as a fault does.
pub fn give_all_in_use(stack: &[Slot], store: &mut Store, top: usize)
    requires within { top ≤ length stack.now }
    requires ready { IsReady ⟦<dyn Driver as Driver>⟧ store.old }
    requires enough { CanGive (values stack.now top) (world_of ⟦<dyn Driver as Driver>⟧ store.old) }
    ensures given { StoreBecomes ⟦<dyn Driver as Driver>⟧ (give_all (values stack.now top))
        store.old store.new }
    ensures moves { HasMoved ⟦<dyn Driver as Driver>⟧ store.old store.new }
{
    give_top(stack, store, top, top);
}

/// Gives up `count` values from the top one by one, the lowest of them first. It stays apart as `give_each` does.
#[inline(never)]
fn give_each_upwards(stack: &[Slot], store: &mut Store, top: usize, count: usize)
    requires in_use { count ≤ top }
    requires within { top ≤ length stack.now }
    requires ready { IsReady ⟦<dyn Driver as Driver>⟧ store.old }
    requires enough { CanGive (values stack.now top) (world_of ⟦<dyn Driver as Driver>⟧ store.old) }
    ensures given { StoreBecomes ⟦<dyn Driver as Driver>⟧
        (give_back (take_some count (values stack.now top))) store.old store.new }
    ensures moves { HasMoved ⟦<dyn Driver as Driver>⟧ store.old store.new }
{
    for given in 0..count {
        let value = peek(stack, top - count + given + 1, 0);
        give(store, value);
    }
}

/// Gives up `count` values from the top, the lowest of them first.
#[inline(always)]
fn give_lowest_first(stack: &[Slot], store: &mut Store, top: usize, count: usize)
    requires in_use { count ≤ top }
    requires within { top ≤ length stack.now }
    requires ready { IsReady ⟦<dyn Driver as Driver>⟧ store.old }
    requires enough { CanGive (values stack.now top) (world_of ⟦<dyn Driver as Driver>⟧ store.old) }
    ensures given { StoreBecomes ⟦<dyn Driver as Driver>⟧
        (give_back (take_some count (values stack.now top))) store.old store.new }
    ensures moves { HasMoved ⟦<dyn Driver as Driver>⟧ store.old store.new }
{
    if nothing_lives(store) {
        return;
    }
    give_each_upwards(stack, store, top, count);
}

/// `Leave`: the top values are given up.
pub fn leave(
    stack: &[Slot],
    store: &mut Store,
    top: usize,
    room: usize,
    count: usize,
) -> Result<usize, Trap>
    requires in_room { top ≤ room }
    requires within { room ≤ length stack.now }
    requires ready { IsReady ⟦<dyn Driver as Driver>⟧ store.old }
    requires counted { AreCounted ⟦<dyn Driver as Driver>⟧ stack.now top store.old }
    ensures acts { ActsOn ⟦<dyn Driver as Driver>⟧ (Leave count) room top stack.now store.old result
        stack.now store.new }
    ensures in_room { IfOk result (λ n. n ≤ room) }
    ensures moves { HasMoved ⟦<dyn Driver as Driver>⟧ store.old store.new }
{
    if count > top {
        return Err(Trap::Stuck);
    }
    give_top(stack, store, top, count);
    Ok(top - count)
}

/// `DropUnder`: `count` values below the top one are given up, the lowest first.
pub fn drop_under(
    stack: &mut [Slot],
    store: &mut Store,
    top: usize,
    room: usize,
    count: usize,
) -> Result<usize, Trap>
    requires in_room { top ≤ room }
    requires within { room ≤ length stack.old }
    requires ready { IsReady ⟦<dyn Driver as Driver>⟧ store.old }
    requires counted { AreCounted ⟦<dyn Driver as Driver>⟧ stack.old top store.old }
    ensures acts { ActsOn ⟦<dyn Driver as Driver>⟧ (DropUnder count) room top stack.old store.old
        result stack.new store.new }
    ensures in_room { IfOk result (λ n. n ≤ room) }
    ensures moves { HasMoved ⟦<dyn Driver as Driver>⟧ store.old store.new }
{
    if top == 0 {
        return Err(Trap::Stuck);
    }
    let rest = top - 1;
    if count > rest {
        return Err(Trap::Stuck);
    }
    let value = peek(stack, top, 0);
    give_lowest_first(stack, store, rest, count);
    push(stack, rest - count, value);
    Ok(rest - count + 1)
}
