//! Globals that end.
ghost use Rattle.std.specs.Prelude.{ℕ, Bool, ◌≡◌, ◌+◌, ◌≤◌, List, [], slice_index_or, slice_set};
ghost use Rattle.ang_host.specs.Logs.{listed_in, is_heard, log_len, log_capacity};
ghost use Rattle.ang_host.specs.declared.event.Role.{Role};
ghost use Rattle.ang_host.specs.Boxes.{members};
ghost use Rattle.ang_meaning.specs.World.{Bounds, Input};
ghost use Rattle.ang_meaning.specs.Results.{give_back as given_back};
ghost use Rattle.ang_meaning.specs.Counting.{EnoughIn, CountedIn, IsCounted};
ghost use Rattle.ang_heap.specs.Globals.{values_in};
ghost use Rattle.ang_heap.specs.Heaps.{IsTallied, IsLess, objects_of};
ghost use Rattle.ang_heap.specs.Parts.{world_by, AreReady, PartsMove, states_among, counts_among, live_among};
ghost use Rattle.ang_heap.specs.Stores.{world_of, IsReady, HasMoved, StoreBecomes};
ghost use Rattle.ang_vm.specs.Machines.{lent};
ghost use Rattle.ang_engine_modules.specs.World.{globals_ended, all_ended};

use ang_heap::{Globals, Heap};
use ang_host::{Driver, Drivers, EventBuffer};
use ang_meaning::Slot;
use ang_vm::Machine;
use std::alloc::Global;
use std::mem;

/// Values are given up, the last one first. The end of each host object that ends is listed, in the
/// room that is kept for it.
fn give_back(heap: &mut Heap, drivers: &mut Drivers, events: &mut EventBuffer, values: &[Slot])
    requires ready { AreReady (states_among ⟦<dyn Driver as Driver>⟧ drivers.old)
        (log_len events.old) (log_capacity events.old) }
    requires enough { EnoughIn values.now (objects_of heap.old)
        (counts_among ⟦<dyn Driver as Driver>⟧ drivers.old) }
    ensures gives { (gs : List (List Slot)) (n : ℕ) (sp : Bool) (b : Bounds) (is : List Input)
        → given_back values.now (world_by (objects_of heap.old)
        (counts_among ⟦<dyn Driver as Driver>⟧ drivers.old) gs (listed_in events.old) n sp b is)
        ≡ world_by (objects_of heap.new) (counts_among ⟦<dyn Driver as Driver>⟧ drivers.new) gs
        (listed_in events.new) n sp b is }
    ensures ready { AreReady (states_among ⟦<dyn Driver as Driver>⟧ drivers.new)
        (log_len events.new) (log_capacity events.new) }
    ensures level { log_len events.new + live_among ⟦<dyn Driver as Driver>⟧ drivers.new
        ≡ log_len events.old + live_among ⟦<dyn Driver as Driver>⟧ drivers.old }
    ensures fewer { live_among ⟦<dyn Driver as Driver>⟧ drivers.new
        ≤ live_among ⟦<dyn Driver as Driver>⟧ drivers.old }
    ensures capacity { log_capacity events.new ≡ log_capacity events.old }
    ensures heard { is_heard events.new ≡ is_heard events.old }
    ensures moves { (roles : List Role)
        → PartsMove ⟦<dyn Driver as Driver>⟧ roles (members drivers.old) (listed_in events.old)
        (members drivers.new) (listed_in events.new) }
    ensures counted { IsTallied heap.old → IsTallied heap.new }
    ensures less { IsLess heap.old heap.new }
{
    let mut left = values.len();
    while left > 0 {
        left -= 1;
        heap.give_up(drivers, events, values[left]);
    }
}

/// The values of a module's globals, of which it has none from here on.
fn take_globals(alloc: Global, globals: &mut Globals, home: usize) -> Vec<Slot>
    ensures taken { result.items ≡ slice_index_or (values_in globals.old) home [] }
    ensures none { values_in globals.new ≡ slice_set (values_in globals.old) home [] }
{
    if home < globals.modules.len() {
        return mem::replace(&mut *globals.modules[home], Vec::new(alloc));
    }
    Vec::new(alloc)
}

/// The globals of a module end.
fn end_module(
    alloc: Global,
    heap: &mut Heap,
    globals: &mut Globals,
    drivers: &mut Drivers,
    events: &mut EventBuffer,
    home: usize,
)
    requires ready { AreReady (states_among ⟦<dyn Driver as Driver>⟧ drivers.old)
        (log_len events.old) (log_capacity events.old) }
    requires counted { CountedIn [] (objects_of heap.old)
        (counts_among ⟦<dyn Driver as Driver>⟧ drivers.old) (values_in globals.old) }
    ensures ended { (n : ℕ) (sp : Bool) (b : Bounds) (is : List Input)
        → globals_ended home (world_by (objects_of heap.old)
        (counts_among ⟦<dyn Driver as Driver>⟧ drivers.old) (values_in globals.old)
        (listed_in events.old) n sp b is)
        ≡ world_by (objects_of heap.new) (counts_among ⟦<dyn Driver as Driver>⟧ drivers.new)
        (values_in globals.new) (listed_in events.new) n sp b is }
    ensures ready { AreReady (states_among ⟦<dyn Driver as Driver>⟧ drivers.new)
        (log_len events.new) (log_capacity events.new) }
    ensures level { log_len events.new + live_among ⟦<dyn Driver as Driver>⟧ drivers.new
        ≡ log_len events.old + live_among ⟦<dyn Driver as Driver>⟧ drivers.old }
    ensures fewer { live_among ⟦<dyn Driver as Driver>⟧ drivers.new
        ≤ live_among ⟦<dyn Driver as Driver>⟧ drivers.old }
    ensures capacity { log_capacity events.new ≡ log_capacity events.old }
    ensures heard { is_heard events.new ≡ is_heard events.old }
    ensures moves { (roles : List Role)
        → PartsMove ⟦<dyn Driver as Driver>⟧ roles (members drivers.old) (listed_in events.old)
        (members drivers.new) (listed_in events.new) }
    ensures counted { IsTallied heap.old → IsTallied heap.new }
    ensures less { IsLess heap.old heap.new }
{
    let values = take_globals(alloc, globals, home);
    give_back(heap, drivers, events, &values);
}

/// The globals of the modules of these numbers end, the last one's first. It takes no memory: their
/// ends go where room is kept for them.
pub fn end_all(
    alloc: Global,
    heap: &mut Heap,
    globals: &mut Globals,
    drivers: &mut Drivers,
    ends: &mut EventBuffer,
    order: &[u32],
)
    requires ready { AreReady (states_among ⟦<dyn Driver as Driver>⟧ drivers.old) (log_len ends.old)
        (log_capacity ends.old) }
    requires counted { CountedIn [] (objects_of heap.old)
        (counts_among ⟦<dyn Driver as Driver>⟧ drivers.old) (values_in globals.old) }
    ensures ended { (n : ℕ) (sp : Bool) (b : Bounds) (is : List Input)
        → all_ended order.now (world_by (objects_of heap.old)
        (counts_among ⟦<dyn Driver as Driver>⟧ drivers.old) (values_in globals.old)
        (listed_in ends.old) n sp b is)
        ≡ world_by (objects_of heap.new) (counts_among ⟦<dyn Driver as Driver>⟧ drivers.new)
        (values_in globals.new) (listed_in ends.new) n sp b is }
    ensures ready { AreReady (states_among ⟦<dyn Driver as Driver>⟧ drivers.new) (log_len ends.new)
        (log_capacity ends.new) }
    ensures moves { (roles : List Role)
        → PartsMove ⟦<dyn Driver as Driver>⟧ roles (members drivers.old) (listed_in ends.old)
        (members drivers.new) (listed_in ends.new) }
{
    let mut left = order.len();
    while left > 0 {
        left -= 1;
        end_module(alloc, heap, globals, drivers, ends, order[left] as usize);
    }
}

/// The globals of a module end in a command, which lists what ends.
pub fn end_globals(alloc: Global, machine: &mut Machine, events: &mut EventBuffer, home: usize)
    requires ready { IsReady ⟦<dyn Driver as Driver>⟧ (lent machine.old events.old) }
    requires counted { IsCounted []
        (world_of ⟦<dyn Driver as Driver>⟧ (lent machine.old events.old)) }
    ensures ended { StoreBecomes ⟦<dyn Driver as Driver>⟧ (globals_ended home)
        (lent machine.old events.old) (lent machine.new events.new) }
    ensures moves { HasMoved ⟦<dyn Driver as Driver>⟧ (lent machine.old events.old)
        (lent machine.new events.new) }
{
    let store = &mut machine.store;
    let before = events.len();
    end_module(
        alloc,
        &mut store.heap,
        &mut store.globals,
        &mut store.drivers,
        events,
        home,
    );
    store.live -= events.len() - before;
}
