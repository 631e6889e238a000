//! Where a body is left.
ghost use Rattle.std.specs.Prelude.{◌≡◌, ℕ, ◌+◌, ◌-◌, ◌<◌, ◌≤◌, ◌∷◌, ◌++◌, List, [], length, Some, IfSome};
ghost use Rattle.ang_meaning.specs.declared.slot.Slot.{Slot};
ghost use Rattle.ang_meaning.specs.declared.routine.Routine.{Routine};
ghost use Rattle.ang_meaning.specs.World.{World};
ghost use Rattle.ang_meaning.specs.Environment.{Environment, params_of};
ghost use Rattle.ang_meaning.specs.Counting.{CanGive};
ghost use Rattle.ang_meaning.specs.Results.{give_others as others_given, outs_of};
ghost use Rattle.ang_code.specs.declared.instruction.Instruction.TheVariants.{Return};
ghost use Rattle.ang_code.specs.declared.instruction.Frame.{Frame};
ghost use Rattle.ang_code.specs.Machine.{Texts, act, back};
ghost use Rattle.ang_heap.specs.Stores.{world_of, IsReady, StoreTold, HasMoved, StoreBecomes};
ghost use Rattle.ang_vm_stack.specs.Stacks.{values};
ghost use Rattle.ang_vm.specs.Legs.{given_by, with_out, Unmoved, handed, resumed};
ghost use Rattle.ang_vm_steps.specs.Arms.{AreCounted};

use ang_code::Frame;
use ang_heap::{Store, give};
use ang_host::Driver;
use ang_meaning::{Passing, Routine, Slot};
use ang_vm_stack::body::LoadedBody;
use ang_vm_stack::place::{Cursor, Activation};
use ang_vm_stack::stack::{peek, push};
use ang_vm_steps::many::{give_top, give_top_in_line, nothing_lives};

/// What a body leaves.
#[derive(Clone, Copy)]
pub struct Parted {
    /// The value that it gives.
    pub value: Slot,
    /// How many values are in use below it.
    pub kept: usize,
}

/// A parameter's value at its body's end: that of an `&out` parameter stays, and any other is given up.
#[inline(always)]
fn give_unless_out(passing: Passing, value: Slot, store: &mut Store)
    requires ready { IsReady ⟦<dyn Driver as Driver>⟧ store.old }
    requires held { CanGive (value ∷ []) (world_of ⟦<dyn Driver as Driver>⟧ store.old) }
    ensures given { StoreBecomes ⟦<dyn Driver as Driver>⟧ (given_by passing value) store.old
        store.new }
    ensures moves { HasMoved ⟦<dyn Driver as Driver>⟧ store.old store.new }
{
    match passing {
        Passing::In => give(store, value),
        Passing::Out => {}
        Passing::Object => give(store, value),
    }
}

/// The parameters other than `&out` give up their values, the last parameter first. It stays apart, so that a body's end,
/// which comes here only where objects live, stays small.
#[inline(never)]
fn give_others_apart(params: &[Passing], stack: &[Slot], store: &mut Store, top: usize)
    requires enough { length params.now ≤ top }
    requires within { top ≤ length stack.now }
    requires ready { IsReady ⟦<dyn Driver as Driver>⟧ store.old }
    requires held { CanGive (values stack.now top) (world_of ⟦<dyn Driver as Driver>⟧ store.old) }
    ensures given { StoreBecomes ⟦<dyn Driver as Driver>⟧
        (others_given params.now (values stack.now top)) store.old store.new }
    ensures moves { HasMoved ⟦<dyn Driver as Driver>⟧ store.old store.new }
{
    for (i, passing) in params.iter().enumerate() {
        let value = peek(stack, top - i, 0);
        give_unless_out(*passing, value, store);
    }
}

/// The same, with a look before it whether anything lives.
#[inline(always)]
pub fn give_others(params: &[Passing], stack: &[Slot], store: &mut Store, top: usize)
    requires enough { length params.now ≤ top }
    requires within { top ≤ length stack.now }
    requires ready { IsReady ⟦<dyn Driver as Driver>⟧ store.old }
    requires held { CanGive (values stack.now top) (world_of ⟦<dyn Driver as Driver>⟧ store.old) }
    ensures given { StoreBecomes ⟦<dyn Driver as Driver>⟧
        (others_given params.now (values stack.now top)) store.old store.new }
    ensures moves { HasMoved ⟦<dyn Driver as Driver>⟧ store.old store.new }
{
    if nothing_lives(store) {
        return;
    }
    give_others_apart(params, stack, store, top);
}

/// A parameter's value at its body's end, where it is one of an `&out` parameter: it moves down on top of the
/// first `kept` values. How many are in use then.
#[inline(always)]
fn keep_if_out(passing: Passing, stack: &mut [Slot], kept: usize, value: Slot) -> usize
    requires room { kept < length stack.old }
    ensures kept { values stack.new result ≡ with_out passing value (values stack.old kept) }
    ensures unmoved { Unmoved stack.old stack.new (kept + 1) }
    ensures most { result ≤ kept + 1 }
{
    match passing {
        Passing::In => kept,
        Passing::Out => {
            push(stack, kept, value);
            kept + 1
        }
        Passing::Object => kept,
    }
}

/// The values of the `&out` parameters move down to where the parameters begin; how many values are in use
/// then.
pub fn keep_outs(params: &[Passing], stack: &mut [Slot], top: usize) -> usize
    requires enough { length params.now ≤ top }
    requires within { top ≤ length stack.old }
    ensures kept { values stack.new result
        ≡ outs_of params.now (values stack.old top) ++ values stack.old (top - length params.now) }
    ensures fewer { result ≤ top }
{
    let count = params.len();
    let base = top - count;
    let mut kept = base;
    for i in 0..count {
        let value = peek(stack, base + i + 1, 0);
        kept = keep_if_out(params[count - 1 - i], stack, kept, value);
    }
    kept
}

/// The parameters are left: those other than `&out` give up their values, and the values of the others move down
/// to where the parameters begin. How many values are in use then.
#[inline(always)]
fn leave_params(params: &[Passing], stack: &mut [Slot], store: &mut Store, top: usize) -> usize
    requires enough { length params.now ≤ top }
    requires within { top ≤ length stack.old }
    requires ready { IsReady ⟦<dyn Driver as Driver>⟧ store.old }
    requires held { CanGive (values stack.old top) (world_of ⟦<dyn Driver as Driver>⟧ store.old) }
    ensures given { StoreBecomes ⟦<dyn Driver as Driver>⟧
        (others_given params.now (values stack.old top)) store.old store.new }
    ensures held { CanGive (values stack.new result) (world_of ⟦<dyn Driver as Driver>⟧ store.new) }
    ensures kept { values stack.new result
        ≡ outs_of params.now (values stack.old top) ++ values stack.old (top - length params.now) }
    ensures fewer { result ≤ top }
    ensures moves { HasMoved ⟦<dyn Driver as Driver>⟧ store.old store.new }
{
    give_others(params, stack, store, top);
    keep_outs(params, stack, top)
}

/// `Return`: a body with `top` values in use gives up `count` locals and its parameters, and leaves the top value,
/// above those of its `&out` parameters. None where it finds less than it takes.
#[inline(always)]
pub fn leave_body(
    code: &LoadedBody,
    stack: &mut [Slot],
    store: &mut Store,
    top: usize,
    count: usize,
) -> Option<Parted>
    requires within { top ≤ length stack.old }
    requires ready { IsReady ⟦<dyn Driver as Driver>⟧ store.old }
    requires counted { AreCounted ⟦<dyn Driver as Driver>⟧ stack.old top store.old }
    ensures told { (z : Environment) (texts : Texts) (f : Routine) (at room : ℕ) (frames : List Frame)
        (ticks : ℕ) → code.now.params.items ≡ params_of z f
        → StoreTold ⟦<dyn Driver as Driver>⟧ (act z texts (Some (Return count)) f at room
        (values stack.old top) frames ticks) store.old (handed result stack.new frames ticks)
        store.new }
    ensures held { IfSome result (λ parted. CanGive (values stack.new parted.kept)
        (world_of ⟦<dyn Driver as Driver>⟧ store.new)) }
    ensures fewer { IfSome result (λ parted. parted.kept < top) }
    ensures moves { HasMoved ⟦<dyn Driver as Driver>⟧ store.old store.new }
{
    if top == 0 {
        return None;
    }
    if count > top - 1 {
        return None;
    }
    let params = code.params();
    let base = top - 1 - count;
    if params.len() > base {
        return None;
    }
    if !code.has_outs() {
        give_top_in_line(stack, store, top - 1, count + params.len());
        let value = peek(stack, top, 0);
        let kept = base - params.len();
        return Some(Parted { value, kept });
    }
    let value = peek(stack, top, 0);
    give_top(stack, store, top - 1, count);
    let kept = leave_params(params, stack, store, base);
    Some(Parted { value, kept })
}

/// A caller goes on with a value on top of those in use, if there is room for it.
#[inline(always)]
pub fn resume(stack: &mut [Slot], caller: Frame, parted: Parted, ticks: u64) -> Option<Activation>
    requires below { parted.kept < length stack.old }
    ensures told { (frames : List Frame) (w : World)
        → back (caller ∷ frames) parted.value [] (values stack.old parted.kept) ticks w
        ≡ resumed result stack.new frames w }
    ensures fits { IfSome result (λ s. (s.place.top ≤ s.room) × (s.room ≡ caller.room)) }
{
    if parted.kept >= caller.room {
        return None;
    }
    push(stack, parted.kept, parted.value);
    let Routine { home, number } = caller.of;
    Some(Activation {
        body: Routine { home, number },
        room: caller.room,
        place: Cursor {
            at: caller.at,
            top: parted.kept + 1,
            ticks,
        },
    })
}
