//! Operations that ask the host.
ghost use Rattle.std.specs.Prelude.{◌≡◌, ℕ, ◌+◌, ◌-◌, ◌<◌, ◌≤◌, true, List, length, IfOk};
ghost use Rattle.ang_host.specs.Boxes.{members};
ghost use Rattle.ang_meaning.specs.Environment.{is_fit};
ghost use Rattle.ang_meaning.specs.Perform.{perform, operands as operand_count};
ghost use Rattle.ang_code.specs.declared.instruction.Instruction.TheVariants.{Apply};
ghost use Rattle.ang_code.specs.Machine.{take_some};
ghost use Rattle.ang_heap.specs.Stores.{IsReady, StoreTold};
ghost use Rattle.ang_vm_ask.specs.Asks.{asks_host};
ghost use Rattle.ang_vm_ask.specs.Entities.{DriversThere};
ghost use Rattle.ang_vm_stack.specs.Arms.{done};
ghost use Rattle.ang_vm_steps.specs.Arms.{AreCounted, TableActs};
ghost use Rattle.ang_vm_stack.specs.Stacks.{values};
ghost use Rattle.ang_vm_stack.specs.Tables.{setting_of};
ghost use Rattle.ang_vm_ask.specs.Askings.{HasMovedOver};

use crate::doing::put_answer;
use crate::many::give_top;
use ang_heap::Store;
use ang_host::Driver;
use ang_kinds::Fault;
use ang_meaning::{Operation, Routine, Slot};
use ang_vm_ask::{ask, given_count, operands};
use ang_vm_stack::stop::Trap;
use ang_vm_stack::table::Table;

/// Does an operation on the host for a module, and then gives up those of its operands that are not its value.
/// They are the top values, `count` of them, the last one on top.
///
/// # Errors
/// Those of `ang_vm_ask::ask`; the operands are then still held.
fn perform_on_host(
    table: &Table,
    home: u32,
    stack: &[Slot],
    top: usize,
    count: usize,
    store: &mut Store,
    operation: Operation,
) -> Result<Slot, Fault>
    requires in_use { count ≤ top }
    requires within { top ≤ length stack.now }
    requires drivers { DriversThere table.now (length (members store.old.drivers)) }
    requires ready { IsReady ⟦<dyn Driver as Driver>⟧ store.old }
    requires counted { AreCounted ⟦<dyn Driver as Driver>⟧ stack.now top store.old }
    ensures told { (nesting : ℕ) → asks_host operation ≡ true
        → is_fit (setting_of table.now nesting) home operation ≡ true
        → count ≡ operand_count (setting_of table.now nesting) home operation
        → StoreTold ⟦<dyn Driver as Driver>⟧ (perform (setting_of table.now nesting) home operation
        (take_some count (values stack.now top))) store.old (done result) store.new }
    ensures moves { HasMovedOver ⟦<dyn Driver as Driver>⟧ table.now store.old store.new }
    ensures ready { IsReady ⟦<dyn Driver as Driver>⟧ store.new }
    ensures count { length (members store.new.drivers) ≡ length (members store.old.drivers) }
{
    let alloc = *store.events.allocator();
    match ask(alloc, table, home, stack, top, count, store, operation) {
        Ok(value) => {
            give_top(stack, store, top, given_count(operation, count));
            Ok(value)
        }
        Err(fault) => Err(fault),
    }
}

/// An operation that asks the host: its operands stand on top, and its value takes their place.
pub(crate) fn ask_host(
    table: &Table,
    body: Routine,
    stack: &mut [Slot],
    store: &mut Store,
    top: usize,
    room: usize,
    operation: Operation,
) -> Result<usize, Trap>
    requires in_room { top ≤ room }
    requires within { room ≤ length stack.old }
    requires ready { IsReady ⟦<dyn Driver as Driver>⟧ store.old }
    requires counted { AreCounted ⟦<dyn Driver as Driver>⟧ stack.old top store.old }
    requires drivers { DriversThere table.now (length (members store.old.drivers)) }
    requires asks { asks_host operation ≡ true }
    ensures acts { TableActs ⟦<dyn Driver as Driver>⟧ table.now body (Apply operation) room top
        stack.old store.old result stack.new store.new }
    ensures in_room { IfOk result (λ n. n ≤ room) }
    ensures moves { HasMovedOver ⟦<dyn Driver as Driver>⟧ table.now store.old store.new }
    ensures ready { IsReady ⟦<dyn Driver as Driver>⟧ store.new }
    ensures count { length (members store.new.drivers) ≡ length (members store.old.drivers) }
{
    match operands(table, body.home, operation) {
        Some(count) => {
            if count > top {
                return Err(Trap::Stuck);
            }
            if top - count >= room {
                return Err(Trap::Stuck);
            }
            let answer = perform_on_host(table, body.home, stack, top, count, store, operation);
            put_answer(stack, top, count, answer)
        }
        None => Err(Trap::Stuck),
    }
}
