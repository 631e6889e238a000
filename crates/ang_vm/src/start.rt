//! How a run begins.
ghost use Rattle.std.specs.Prelude.{◌≡◌, ℕ, List, [], reverse, IfOk};
ghost use Rattle.ang_meaning.specs.Counting.{IsCounted};
ghost use Rattle.ang_code.specs.Machine.{begins, call_begins, initializer_begins};
ghost use Rattle.ang_heap.specs.Stores.{world_of, IsReady, HasMoved};
ghost use Rattle.ang_vm_stack.specs.Tables.{setting_of, texts_of};
ghost use Rattle.ang_vm.specs.Legs.{Fits, left};
ghost use Rattle.ang_vm.specs.Running.{RunReaches};

use crate::bodies::{fail, give_up};
use crate::calls::begin;
use ang_code::Frame;
use ang_heap::Store;
use ang_host::Driver;
use ang_kinds::Fault;
use ang_meaning::{Routine, Slot};
use ang_vm_stack::place::{Activation, RunResult};
use ang_vm_stack::table::Table;

/// A body begins on a stack of its own, with no callers.
fn start(
    table: &Table,
    stack: &mut Vec<Slot>,
    frames: &mut Vec<Frame>,
    store: &mut Store,
    entry: Routine,
    ticks: u64,
) -> Result<Activation, RunResult>
    requires ready { IsReady ⟦<dyn Driver as Driver>⟧ store.old }
    requires counted { IsCounted (reverse stack.old.items)
        (world_of ⟦<dyn Driver as Driver>⟧ store.old) }
    ensures starts { (nesting : ℕ)
        → RunReaches ⟦<dyn Driver as Driver>⟧ table.now nesting
        (begins (texts_of table.now) entry (reverse stack.old.items) [] ticks) store.old
        (left result stack.new.items (reverse frames.new.items)) store.new }
    ensures fits { IfOk result (λ s. Fits s stack.new.items frames.new.items) }
    ensures moves { HasMoved ⟦<dyn Driver as Driver>⟧ store.old store.new }
    ensures callers { frames.new.items ≡ [] }
{
    frames.clear();
    let top = stack.len();
    match begin(table, entry, stack, top, ticks) {
        Ok(standing) => Ok(standing),
        Err(stop) => Err(give_up(stack, store, top, stop)),
    }
}

/// A command's call of a function begins, with a budget of ticks. The stack holds its arguments and nothing
/// else, the last one on top; whatever frames there were go.
///
/// # Errors
/// The end of a run that ends at once: without a tick, or without memory for the body's values.
pub fn start_call(
    table: &Table,
    stack: &mut Vec<Slot>,
    frames: &mut Vec<Frame>,
    store: &mut Store,
    entry: Routine,
    budget: u64,
) -> Result<Activation, RunResult>
    requires ready { IsReady ⟦<dyn Driver as Driver>⟧ store.old }
    requires counted { IsCounted (reverse stack.old.items)
        (world_of ⟦<dyn Driver as Driver>⟧ store.old) }
    ensures starts { (nesting : ℕ)
        → RunReaches ⟦<dyn Driver as Driver>⟧ table.now nesting (call_begins
        (setting_of table.now nesting) (texts_of table.now) budget entry
        (reverse stack.old.items)) store.old
        (left result stack.new.items (reverse frames.new.items)) store.new }
    ensures fits { IfOk result (λ s. Fits s stack.new.items frames.new.items) }
    ensures moves { HasMoved ⟦<dyn Driver as Driver>⟧ store.old store.new }
    ensures callers { frames.old.items ≡ [] → frames.new.items ≡ [] }
{
    if budget == 0 {
        let held = stack.len();
        return Err(fail(stack, store, held, Fault::Budget));
    }
    start(table, stack, frames, store, entry, budget - 1)
}

/// The body of a global's initializer begins, whose entry takes no tick. Whatever frames there were go.
///
/// # Errors
/// The end of a run that ends at once: without memory for the body's values.
pub fn start_initializer(
    table: &Table,
    stack: &mut Vec<Slot>,
    frames: &mut Vec<Frame>,
    store: &mut Store,
    entry: Routine,
    ticks: u64,
) -> Result<Activation, RunResult>
    requires empty { stack.old.items ≡ [] }
    requires ready { IsReady ⟦<dyn Driver as Driver>⟧ store.old }
    requires counted { IsCounted [] (world_of ⟦<dyn Driver as Driver>⟧ store.old) }
    ensures starts { (nesting : ℕ)
        → RunReaches ⟦<dyn Driver as Driver>⟧ table.now nesting
        (initializer_begins (setting_of table.now nesting) (texts_of table.now) ticks entry)
        store.old (left result stack.new.items (reverse frames.new.items)) store.new }
    ensures fits { IfOk result (λ s. Fits s stack.new.items frames.new.items) }
    ensures moves { HasMoved ⟦<dyn Driver as Driver>⟧ store.old store.new }
    ensures callers { frames.new.items ≡ [] }
{
    start(table, stack, frames, store, entry, ticks)
}
