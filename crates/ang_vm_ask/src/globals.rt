//! Operations on the globals of a module.
//!
//! Here they are done on the store, without a stack. `globals.rt` of `ang_vm_steps` does the same as single instructions,
//! with their operands on the stack, and that of `ang_vm_fields` does several of these instructions at once.
ghost use Rattle.std.specs.Prelude.{◌≡◌, ◌∷◌, []};
ghost use Rattle.ang_meaning.specs.declared.operation.Operation.TheVariants.{GlobalGet, GlobalSet, GlobalChange};
ghost use Rattle.ang_meaning.specs.Environment.{Environment};
ghost use Rattle.ang_meaning.specs.Perform.{perform, global_or, global_put};
ghost use Rattle.ang_heap.specs.Stores.{world_of, IsReady, StoreTold, HasMoved, StoreBecomes};
ghost use Rattle.ang_vm_stack.specs.Arms.{done};
ghost use Rattle.ang_vm_ask.specs.Counts.{StandCounted};

use ang_heap::{Store, give, hold};
use ang_host::Driver;
use ang_kinds::Fault;
use ang_meaning::{Slot, Update};
use ang_vm_numbers::change_slot;

/// Puts a value into a global of a module, and answers its old one; the value itself where there is no such
/// global. Nothing is held or given up.
pub fn trade_global(store: &mut Store, home: u32, number: usize, value: Slot) -> Slot
    requires ready { IsReady ⟦<dyn Driver as Driver>⟧ store.old }
    ensures old { result
        ≡ global_or home number value (world_of ⟦<dyn Driver as Driver>⟧ store.old) }
    ensures put { StoreBecomes ⟦<dyn Driver as Driver>⟧ (global_put home number value) store.old
        store.new }
    ensures moves { HasMoved ⟦<dyn Driver as Driver>⟧ store.old store.new }
{
    let old = store.globals.get_or(home, number, value);
    store.globals.put(home, number, value);
    old
}

/// The value of a global, which one more place holds.
///
/// # Errors
/// `Tally` where a tally is full.
pub fn get(store: &mut Store, home: u32, number: usize) -> Result<Slot, Fault>
    requires counted { StandCounted [] (world_of ⟦<dyn Driver as Driver>⟧ store.old) }
    ensures told { (z : Environment)
        → StoreTold ⟦<dyn Driver as Driver>⟧ (perform z home (GlobalGet number) []) store.old
        (done result) store.new }
    ensures moves { HasMoved ⟦<dyn Driver as Driver>⟧ store.old store.new }
{
    let value = store.globals.get_or(home, number, Slot::Bits(0));
    if !hold(store, value) {
        return Err(Fault::Tally);
    }
    Ok(value)
}

/// Stores a value into a global, and then gives up its old one. The value is the operation's too.
///
/// # Errors
/// `Tally` where a tally is full.
pub fn set(store: &mut Store, home: u32, number: usize, value: Slot) -> Result<Slot, Fault>
    requires ready { IsReady ⟦<dyn Driver as Driver>⟧ store.old }
    requires counted { StandCounted (value ∷ []) (world_of ⟦<dyn Driver as Driver>⟧ store.old) }
    ensures told { (z : Environment)
        → StoreTold ⟦<dyn Driver as Driver>⟧ (perform z home (GlobalSet number) (value ∷ []))
        store.old (done result) store.new }
    ensures moves { HasMoved ⟦<dyn Driver as Driver>⟧ store.old store.new }
{
    if !hold(store, value) {
        return Err(Fault::Tally);
    }
    let old = trade_global(store, home, number, value);
    give(store, old);
    Ok(value)
}

/// Changes a global by an operand: both have to be numbers.
///
/// # Errors
/// `Null` where one is no number, and the faults of the change.
pub fn alter(
    store: &mut Store,
    home: u32,
    number: usize,
    by: Update,
    operand: Slot,
) -> Result<Slot, Fault>
    requires ready { IsReady ⟦<dyn Driver as Driver>⟧ store.old }
    ensures told { (z : Environment)
        → StoreTold ⟦<dyn Driver as Driver>⟧
        (perform z home (GlobalChange by number) (operand ∷ [])) store.old (done result) store.new }
    ensures moves { HasMoved ⟦<dyn Driver as Driver>⟧ store.old store.new }
{
    let old = store.globals.get_or(home, number, Slot::Bits(0));
    match change_slot(by, old, operand) {
        Ok(altered) => {
            trade_global(store, home, number, Slot::Bits(altered.stored));
            Ok(Slot::Bits(altered.given))
        }
        Err(fault) => Err(fault),
    }
}
