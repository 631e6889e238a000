//! From body to body, to a run's end.
ghost use Rattle.std.specs.Prelude.{◌≡◌, ℕ, ◌<◌, ◌≤◌, List, [], ◌∷◌, length, reverse, Err, Some, IfSome};
ghost use Rattle.ang_code.specs.declared.instruction.Frame.{Frame};
ghost use Rattle.ang_code.specs.declared.instruction.Instruction.TheVariants.{Return};
ghost use Rattle.ang_meaning.specs.declared.routine.Routine.{Routine};
ghost use Rattle.ang_meaning.specs.World.{World, with_inputs};
ghost use Rattle.ang_meaning.specs.Environment.{Environment, params_of};
ghost use Rattle.ang_meaning.specs.Counting.{CanGive};
ghost use Rattle.ang_code.specs.Machine.{Texts, Over, act, back, fault as faulted};
ghost use Rattle.ang_heap.specs.Stores.{world_of, IsReady, StoreTold, HasMoved};
ghost use Rattle.ang_vm_stack.specs.Stacks.{values};
ghost use Rattle.ang_vm_stack.specs.Tables.{body_of, setting_of, texts_of};
ghost use Rattle.ang_vm_stack.specs.declared.place.RunResult.TheVariants as endings;
ghost use Rattle.ang_vm.specs.Legs.{Fits, begun, handed, outcome, resumed, standing};
ghost use Rattle.ang_vm.specs.Crossings.{Comes, HasFaulted, IfFault};
ghost use Rattle.ang_vm.specs.BodyRunning.{MayRun, RunMoves};
ghost use Rattle.ang_vm.specs.Running.{RunReaches};
ghost use Rattle.ang_vm.specs.Traces.{HasHalted, IfStops, ended_by};
ghost use Rattle.ang_vm_steps.specs.Arms.{AreCounted};

use crate::calls::enter;
use crate::last::{LastRun, note_fault};
use crate::returns::{Parted, leave_body, resume};
use crate::turns::run_body;
use ang_code::Frame;
use ang_heap::Store;
use ang_host::Driver;
use ang_kinds::Fault;
use ang_meaning::{Routine, Slot};
use ang_vm_stack::body::LoadedBody;
use ang_vm_stack::place::{Activation, Cursor, RunResult};
use ang_vm_stack::stop::Trap;
use ang_vm_stack::table::{Table, body_at};
use ang_vm_steps::crossing::Crossing;
use ang_vm_steps::many::give_all_in_use;

/// The run faults: all values in use are given up, the top one first.
pub fn fail(stack: &Vec<Slot>, store: &mut Store, top: usize, fault: Fault) -> RunResult
    requires within { top ≤ length stack.now.items }
    requires ready { IsReady ⟦<dyn Driver as Driver>⟧ store.old }
    requires held { CanGive (values stack.now.items top)
        (world_of ⟦<dyn Driver as Driver>⟧ store.old) }
    ensures told { StoreTold ⟦<dyn Driver as Driver>⟧ (faulted fault (values stack.now.items top))
        store.old (λ w. Over (outcome result w)) store.new }
    ensures moves { HasMoved ⟦<dyn Driver as Driver>⟧ store.old store.new }
    ensures result { result ≡ endings.Stops fault }
{
    give_all_in_use(stack.as_slice(), store, top);
    RunResult::Stops(fault)
}

/// The end of a run whose next body does not begin, while `top` values are in use.
pub fn give_up(stack: &Vec<Slot>, store: &mut Store, top: usize, stop: Trap) -> RunResult
    requires within { top ≤ length stack.now.items }
    requires ready { IsReady ⟦<dyn Driver as Driver>⟧ store.old }
    requires held { CanGive (values stack.now.items top)
        (world_of ⟦<dyn Driver as Driver>⟧ store.old) }
    ensures told { (frames : List Frame)
        → StoreTold ⟦<dyn Driver as Driver>⟧ (begun (Err stop) top stack.now.items frames) store.old
        (λ w. Over (outcome result w)) store.new }
    ensures moves { HasMoved ⟦<dyn Driver as Driver>⟧ store.old store.new }
    ensures result { result ≡ ended_by stop }
{
    match stop {
        Trap::Fails(fault) => fail(stack, store, top, fault),
        Trap::Stuck => RunResult::Stuck,
    }
}

/// The running body, over the whole stack.
#[inline(always)]
fn run_within(
    table: &Table,
    code: &LoadedBody,
    stack: &mut Vec<Slot>,
    store: &mut Store,
    from: Activation,
    noted: &mut Cursor,
) -> (Cursor, Crossing)
    requires there { body_of table.now from.body ≡ Some code.now }
    requires in_room { from.place.top ≤ from.room }
    requires within { from.room ≤ length stack.old.items }
    requires may_run { MayRun ⟦<dyn Driver as Driver>⟧ table.now
        (values stack.old.items from.place.top) store.old }
    ensures comes { Comes table.now from.body from.room from.place stack.old.items
        (world_of ⟦<dyn Driver as Driver>⟧ store.old) result stack.new.items
        (world_of ⟦<dyn Driver as Driver>⟧ store.new) }
    ensures same { length stack.new.items ≡ length stack.old.items }
    ensures moves { RunMoves ⟦<dyn Driver as Driver>⟧ table.now store.old store.new }
    ensures faults { IfFault result.1 (λ x. HasFaulted table.now from.body from.room from.place
        stack.old.items (world_of ⟦<dyn Driver as Driver>⟧ store.old) noted.new result.0.top x
        stack.new.items (world_of ⟦<dyn Driver as Driver>⟧ store.new)) }
{
    run_body(
        table,
        from.body,
        code,
        stack.as_mut_slice(),
        store,
        from.room,
        from.place,
        noted,
    )
}

/// The running body is left, over the whole stack.
#[inline(always)]
fn leave_within(
    code: &LoadedBody,
    stack: &mut Vec<Slot>,
    store: &mut Store,
    top: usize,
    count: usize,
) -> Option<Parted>
    requires within { top ≤ length stack.old.items }
    requires ready { IsReady ⟦<dyn Driver as Driver>⟧ store.old }
    requires counted { AreCounted ⟦<dyn Driver as Driver>⟧ stack.old.items top store.old }
    ensures told { (z : Environment) (texts : Texts) (f : Routine) (at room : ℕ) (frames : List Frame)
        (ticks : ℕ) → code.now.params.items ≡ params_of z f
        → StoreTold ⟦<dyn Driver as Driver>⟧ (act z texts (Some (Return count)) f at room
        (values stack.old.items top) frames ticks) store.old
        (handed result stack.new.items frames ticks) store.new }
    ensures held { IfSome result (λ parted. CanGive (values stack.new.items parted.kept)
        (world_of ⟦<dyn Driver as Driver>⟧ store.new)) }
    ensures fewer { IfSome result (λ parted. parted.kept < top) }
    ensures same { length stack.new.items ≡ length stack.old.items }
    ensures moves { HasMoved ⟦<dyn Driver as Driver>⟧ store.old store.new }
{
    leave_body(code, stack.as_mut_slice(), store, top, count)
}

/// A caller goes on, over the whole stack.
#[inline(always)]
fn resume_within(
    stack: &mut Vec<Slot>,
    caller: Frame,
    parted: Parted,
    ticks: u64,
) -> Option<Activation>
    requires below { parted.kept < length stack.old.items }
    ensures told { (frames : List Frame) (w : World)
        → back (caller ∷ frames) parted.value [] (values stack.old.items parted.kept) ticks w
        ≡ resumed result stack.new.items frames w }
    ensures fits { IfSome result (λ s. (s.place.top ≤ s.room) × (s.room ≡ caller.room)) }
    ensures same { length stack.new.items ≡ length stack.old.items }
{
    resume(stack.as_mut_slice(), caller, parted, ticks)
}

/// The end of a run whose last body was left: what it holds besides its value is given up.
fn finish(stack: &Vec<Slot>, store: &mut Store, parted: Parted, ticks: u64) -> RunResult
    requires within { parted.kept ≤ length stack.now.items }
    requires ready { IsReady ⟦<dyn Driver as Driver>⟧ store.old }
    requires held { CanGive (values stack.now.items parted.kept)
        (world_of ⟦<dyn Driver as Driver>⟧ store.old) }
    ensures told { StoreTold ⟦<dyn Driver as Driver>⟧
        (back [] parted.value [] (values stack.now.items parted.kept) ticks) store.old
        (λ w. Over (outcome result w)) store.new }
    ensures moves { HasMoved ⟦<dyn Driver as Driver>⟧ store.old store.new }
    ensures result { result ≡ endings.Gives parted.value ticks }
{
    give_all_in_use(stack.as_slice(), store, parted.kept);
    RunResult::Gives(parted.value, ticks)
}

/// Goes on until the run is over; `nesting` functions may stand one inside the other. Where it faults, `last` has
/// the place; its frames are the callers of the running body.
///
/// The body is named by its parts here and in `resume`: a copy of the whole takes the bytes between them along at each call.
pub fn run_from(
    table: &Table,
    nesting: usize,
    stack: &mut Vec<Slot>,
    last: &mut LastRun,
    store: &mut Store,
    from: Activation,
) -> RunResult
    requires fits { Fits from stack.old.items last.old.frames.items }
    requires may_run { MayRun ⟦<dyn Driver as Driver>⟧ table.now
        (values stack.old.items from.place.top) store.old }
    ensures ends { RunReaches ⟦<dyn Driver as Driver>⟧ table.now nesting
        (standing from stack.old.items (reverse last.old.frames.items)) store.old
        (λ w. Over (outcome result w)) store.new }
    ensures moves { RunMoves ⟦<dyn Driver as Driver>⟧ table.now store.old store.new }
    ensures halted { IfStops result (λ x. HasHalted (setting_of table.now nesting)
        (texts_of table.now) (λ is. standing from stack.old.items (reverse last.old.frames.items)
        (with_inputs is (world_of ⟦<dyn Driver as Driver>⟧ store.old))) x last.new.frames.items
        last.new.left) }
{
    let Routine { home, number } = from.body;
    let mut here = Activation {
        body: Routine { home, number },
        ..from
    };
    let Some(mut code) = body_at(table, from.body) else {
        return RunResult::Stuck;
    };
    loop {
        let (place, crossing) = run_within(table, code, stack, store, here, &mut last.place);
        match crossing {
            Crossing::Enters(callee) => {
                let left = Activation { place, ..here };
                let (next, its) = match enter(
                    table,
                    nesting,
                    stack,
                    &mut last.frames,
                    store,
                    left,
                    code.text().len(),
                    callee,
                ) {
                    Ok(both) => both,
                    Err(stop) => {
                        last.place = place;
                        note_fault(last, here.body, here.room);
                        return give_up(stack, store, place.top, stop);
                    }
                };
                here = next;
                code = its;
            }
            Crossing::Returns(count) => {
                let Some(parted) = leave_within(code, stack, store, place.top, count) else {
                    return RunResult::Stuck;
                };
                let Some(caller) = last.frames.pop() else {
                    return finish(stack, store, parted, place.ticks);
                };
                let Some(next) = resume_within(stack, caller, parted, place.ticks) else {
                    return RunResult::Stuck;
                };
                let Some(its) = body_at(table, next.body) else {
                    return RunResult::Stuck;
                };
                here = next;
                code = its;
            }
            Crossing::Faults(fault) => {
                note_fault(last, here.body, here.room);
                return fail(stack, store, place.top, fault);
            }
            Crossing::Stuck => return RunResult::Stuck,
        }
    }
}
