//! Runs of a table's code of one module after another.
ghost use Rattle.std.specs.Prelude.{◌≡◌, ◌<◌, ◌^◌, List, [], length};
ghost use Rattle.ang_host.specs.Boxes.{members};
ghost use Rattle.ang_host.specs.declared.event.Role.{Role};
ghost use Rattle.ang_meaning.specs.Counting.{IsCounted};
ghost use Rattle.ang_heap.specs.Stores.{world_of, IsReady, StoreMoves};
ghost use Rattle.ang_vm_stack.specs.Tables.{module_at as code_at};
ghost use Rattle.ang_vm_ask.specs.Entities.{DriversThere, HaveRoles};
ghost use Rattle.ang_vm.specs.Machines.{lent};
ghost use Rattle.ang_engine_modules.specs.Ends.{completed};
ghost use Rattle.ang_engine_modules.specs.Loaded.{codes_of};
ghost use Rattle.ang_engine_modules.specs.Started.{HasBegun};

use ang_host::{Driver, EventBuffer};
use ang_kinds::Fault;
use ang_meaning::Routine;
use ang_vm::{Machine, Table, run_initializer};

/// How many bodies a module has.
pub fn body_count(table: &Table, home: u32) -> usize
    ensures exact { result ≡ length (codes_of (code_at table.now home)) }
{
    match table.modules.get(home as usize) {
        Some(code) => code.bodies.len(),
        None => 0,
    }
}

/// Runs the initializers of the numbers from `first` on and below `end` in turn, on one budget.
///
/// # Errors
/// The fault of the one that ended them.
pub fn run_initializers(
    table: &Table,
    machine: &mut Machine,
    home: u32,
    first: usize,
    end: usize,
    budget: u64,
    events: &mut EventBuffer,
) -> Result<(), Fault>
    requires drivers { DriversThere table.now (length (members machine.old.store.drivers)) }
    requires ready { IsReady ⟦<dyn Driver as Driver>⟧ (lent machine.old events.old) }
    requires counted { IsCounted []
        (world_of ⟦<dyn Driver as Driver>⟧ (lent machine.old events.old)) }
    ensures begun { HasBegun table.now budget home first end
        (world_of ⟦<dyn Driver as Driver>⟧ (lent machine.old events.old)) (completed result)
        (world_of ⟦<dyn Driver as Driver>⟧ (lent machine.new events.new)) }
    ensures moves { (roles : List Role) → HaveRoles table.now roles
        → StoreMoves ⟦<dyn Driver as Driver>⟧ roles (lent machine.old events.old)
        (lent machine.new events.new) }
    ensures ready { IsReady ⟦<dyn Driver as Driver>⟧ (lent machine.new events.new) }
    ensures count { length (members machine.new.store.drivers)
        ≡ length (members machine.old.store.drivers) }
{
    let mut ticks = budget;
    let mut number = first;
    while number < end {
        let entry = Routine { home, number };
        ticks = run_initializer(table, machine, entry, ticks, events)?;
        number += 1;
    }
    Ok(())
}
