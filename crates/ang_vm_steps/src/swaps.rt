//! Values that change places with a variable, for the targets of `&out` parameters.
ghost use Rattle.std.specs.Prelude.{◌≡◌, ◌<◌, ◌≤◌, List, length, IfOk};
ghost use Rattle.ang_meaning.specs.Results.{brought};
ghost use Rattle.ang_code.specs.declared.instruction.Instruction.TheVariants.{Swap, SwapGlobal, SwapField};
ghost use Rattle.ang_heap.specs.Stores.{IsReady, HasMoved};
ghost use Rattle.ang_vm_steps.specs.Arms.{AreCounted, ActsOn, ActsAlone, BodyActs};

use ang_heap::Store;
use ang_host::Driver;
use ang_kinds::Prim;
use ang_meaning::{Routine, Slot};
use ang_vm_ask::fields::trade_member;
use ang_vm_ask::globals::trade_global;
use ang_vm_numbers::convert;
use ang_vm_stack::stack::{peek, poke};
use ang_vm_stack::stop::Trap;

/// A value brought to its target's type.
#[inline(always)]
#[tactic(auto, unfolding(ang_meaning::specs::Results::brought))]
pub(crate) fn bring(to: Option<Prim>, value: Slot) -> Slot
    ensures exact { result ≡ brought to value }
{
    match value {
        Slot::Bits(n) => match to {
            Some(prim) => Slot::Bits(convert(prim, n)),
            None => value,
        },
        Slot::Script(_) | Slot::Host(_, _) => value,
    }
}

/// `Swap`: the value at the place `under`, brought to the type, and the one at the place `with` change
/// places.
#[inline(always)]
pub fn swap_local(
    stack: &mut [Slot],
    top: usize,
    room: usize,
    to: Option<Prim>,
    under: usize,
    with: usize,
) -> Result<usize, Trap>
    requires in_room { top ≤ room }
    requires within { room ≤ length stack.old }
    ensures acts { ActsAlone (Swap to under with) room top stack.old result stack.new }
    ensures in_room { IfOk result (λ n. n ≤ room) }
{
    if under >= top {
        return Err(Trap::Stuck);
    }
    if with >= top {
        return Err(Trap::Stuck);
    }
    let moved = bring(to, peek(stack, top, under));
    let old = peek(stack, top, with);
    poke(stack, top, under, old);
    poke(stack, top, with, moved);
    Ok(top)
}

/// `SwapGlobal`: the value at the place `under`, brought to the type, and a global change places. Each place
/// holds what it held, so nothing is held or given up.
pub fn swap_global(
    body: Routine,
    stack: &mut [Slot],
    store: &mut Store,
    top: usize,
    room: usize,
    to: Option<Prim>,
    under: usize,
    global: usize,
) -> Result<usize, Trap>
    requires in_room { top ≤ room }
    requires within { room ≤ length stack.old }
    requires ready { IsReady ⟦<dyn Driver as Driver>⟧ store.old }
    requires counted { AreCounted ⟦<dyn Driver as Driver>⟧ stack.old top store.old }
    ensures acts { BodyActs ⟦<dyn Driver as Driver>⟧ body (SwapGlobal to under global) room top
        stack.old store.old result stack.new store.new }
    ensures in_room { IfOk result (λ n. n ≤ room) }
    ensures moves { HasMoved ⟦<dyn Driver as Driver>⟧ store.old store.new }
{
    if under >= top {
        return Err(Trap::Stuck);
    }
    let moved = bring(to, peek(stack, top, under));
    let old = trade_global(store, body.home, global, moved);
    poke(stack, top, under, old);
    Ok(top)
}

/// `SwapField`: the value at the place `under`, brought to the type, and a field of the object at the place
/// `object` change places, where the object is there and the field may take the value.
pub fn swap_field(
    stack: &mut [Slot],
    store: &mut Store,
    top: usize,
    room: usize,
    to: Option<Prim>,
    under: usize,
    object: usize,
    field: usize,
) -> Result<usize, Trap>
    requires in_room { top ≤ room }
    requires within { room ≤ length stack.old }
    requires ready { IsReady ⟦<dyn Driver as Driver>⟧ store.old }
    requires counted { AreCounted ⟦<dyn Driver as Driver>⟧ stack.old top store.old }
    ensures acts { ActsOn ⟦<dyn Driver as Driver>⟧ (SwapField to under object field) room top
        stack.old store.old result stack.new store.new }
    ensures in_room { IfOk result (λ n. n ≤ room) }
    ensures moves { HasMoved ⟦<dyn Driver as Driver>⟧ store.old store.new }
{
    if under >= top {
        return Err(Trap::Stuck);
    }
    if object >= top {
        return Err(Trap::Stuck);
    }
    let moved = bring(to, peek(stack, top, under));
    let holder = peek(stack, top, object);
    let old = trade_member(store, holder, field, moved);
    poke(stack, top, under, old);
    Ok(top)
}
