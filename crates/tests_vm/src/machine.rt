//! The machine with the sample drivers, and runs on it.
ghost use Rattle.std.specs.Prelude.{◌≡◌, ◌≢◌, Err, IsTrue, IfOk, IfSome, [], length};
ghost use Rattle.std.specs.List.{list_all};
ghost use Rattle.ang_kinds.specs.declared.fault.Fault.TheVariants.{Null as NullFault};
ghost use Rattle.ang_host.specs.Boxes.{members};
ghost use Rattle.ang_host.specs.Members.{states_of, AreFresh};
ghost use Rattle.ang_meaning.specs.Counting.{IsCounted};
ghost use Rattle.ang_heap.specs.Stores.{world_of, IsReady};
ghost use Rattle.ang_vm.specs.Machines.{lent};
ghost use Rattle.ang_vm_ask.specs.Entities.{DriversThere};
ghost use Rattle.tests_vm.specs.Ready.{is_below, names_nothing, IsAtRest, MayBegin};

use crate::program::first_globals;
use ang_drivers::{Cell, Console, Counter};
use ang_heap::{Globals, Heap, Limits, Store};
use ang_host::{Driver, Drivers, EventBuffer};
use ang_kinds::{Fault, Value};
use ang_meaning::{HostUse, Routine, Slot};
use ang_vm::{LastRun, Machine, run, run_initializer};
use ang_vm_stack::table::{ModuleCode, Table};
use std::alloc::{AllocError, Global};

/// Whether an entity's driver is one of the first `count`.
fn has_driver(entity: &Option<HostUse>, count: usize) -> bool
    ensures exact { result ≡ is_below count entity.now }
{
    match entity {
        Some(host) => (host.driver as usize) < count,
        None => true,
    }
}

fn has_drivers(code: &ModuleCode, count: usize) -> bool
    ensures exact { result ≡ list_all (is_below count) code.now.entities.items }
{
    code.entities.iter().all(|entity| has_driver(entity, count))
}

fn have_drivers(table: &Table, count: usize) -> bool
    ensures exact { result ≡ list_all
        (λ m. list_all (is_below count) m.entities.items) table.now.modules.items }
{
    table
        .modules
        .iter()
        .all(|module| has_drivers(module, count))
}

/// Whether the driver of each entity of a table is one of the first `count`.
fn drivers_are_there(table: &Table, count: usize) -> bool
    ensures there { IsTrue result → DriversThere table.now count }
{
    have_drivers(table, count)
}

fn is_empty(value: &Slot) -> bool
    ensures exact { result ≡ names_nothing value.now }
{
    match value {
        Slot::Bits(_) => true,
        Slot::Script(None) => true,
        Slot::Script(Some(_)) => false,
        Slot::Host(_, _) => false,
    }
}

fn are_empty(globals: &Vec<Slot>) -> bool
    ensures exact { result ≡ list_all names_nothing globals.now.items }
{
    globals.iter().all(|value| is_empty(value))
}

/// Whether no global of any module holds an object.
fn all_are_empty(modules: &Vec<Box<Vec<Slot>>>) -> bool
    ensures exact { result ≡ list_all
        (λ globals. list_all names_nothing globals.value.items) modules.now.items }
{
    modules.iter().all(|globals| are_empty(globals))
}

/// A machine on these drivers, with such globals.
fn machine_of(alloc: Global, drivers: Drivers, modules: Vec<Box<Vec<Slot>>>) -> Machine
    requires fresh { AreFresh (states_of ⟦<dyn Driver as Driver>⟧ (members drivers)) }
    requires empty { IsTrue (list_all
        (λ globals. list_all names_nothing globals.value.items) modules.items) }
    ensures rest { IsAtRest ⟦<dyn Driver as Driver>⟧ result }
{
    let heap = Heap::new(alloc);
    let ends = EventBuffer::new(alloc);
    Machine {
        store: Store {
            heap,
            globals: Globals { modules },
            drivers,
            events: EventBuffer::new(alloc),
            ends,
            live: 0,
            spent: false,
            limits: Limits::none(),
            made: 0,
            made_at: 0,
        },
        last: LastRun::none(alloc),
    }
}

/// Puts a console, a counter and a cell behind these drivers.
fn push_drivers(alloc: Global, boxes: &mut Vec<Box<dyn Driver>>) -> Result<(), AllocError> {
    boxes.push(Box::new(alloc, Console::new(alloc)?)?)?;
    boxes.push(Box::new(alloc, Counter::new(alloc)?)?)?;
    boxes.push(Box::new(alloc, Cell::new(alloc)?)?)?;
    Ok(())
}

/// The machine with a console, a counter and a cell, and with the globals of all modules.
pub fn with_drivers(alloc: Global) -> Result<Option<Machine>, AllocError>
    ensures rest { IfOk result (λ made. IfSome made (IsAtRest ⟦<dyn Driver as Driver>⟧)) }
{
    let globals = first_globals(alloc)?;
    if !all_are_empty(&globals) {
        return Ok(None);
    }
    let mut boxes: Vec<Box<dyn Driver>> = Vec::new(alloc);
    push_drivers(alloc, &mut boxes)?;
    match Drivers::new(boxes) {
        Ok(drivers) => Ok(Some(machine_of(alloc, drivers, globals))),
        Err(_) => Ok(None),
    }
}

/// Takes a machine apart, which can't be dropped.
pub fn end(machine: Machine) {
    let Machine { store, last: _ } = machine;
    let Store {
        heap: _,
        globals: _,
        drivers,
        events: _,
        ends: _,
        live: _,
        spent: _,
        limits: _,
        made: _,
        made_at: _,
    } = store;
    drop(drivers.into_boxes());
}

/// A list for the events of a run, with room for the end of each host object that lives.
pub fn events_for(alloc: Global, machine: &Machine) -> Result<EventBuffer, AllocError>
    requires rest { IsAtRest ⟦<dyn Driver as Driver>⟧ machine.now }
    ensures begins { IfOk result (MayBegin ⟦<dyn Driver as Driver>⟧ machine.now) }
{
    let mut events = EventBuffer::new(alloc);
    events.reserve(machine.store.live)?;
    Ok(events)
}

/// A call of a body, with no arguments.
///
/// # Errors
/// The fault of the script.
fn call_alone(
    table: &Table,
    machine: &mut Machine,
    entry: Routine,
    budget: u64,
    events: &mut EventBuffer,
) -> Result<Option<Value>, Fault>
    requires drivers { DriversThere table.now (length (members machine.old.store.drivers)) }
    requires begins { MayBegin ⟦<dyn Driver as Driver>⟧ machine.old events.old }
    ensures ready { IsReady ⟦<dyn Driver as Driver>⟧ (lent machine.new events.new) }
    ensures counted { result ≢ Err NullFault →
        IsCounted [] (world_of ⟦<dyn Driver as Driver>⟧ (lent machine.new events.new)) }
{
    run(table, machine, entry, &[], budget, events)
}

/// What a call of a body without arguments answers.
///
/// # Errors
/// The fault of the script; `Null` too where the driver of an entity is not there, and `Memory` where there is no room
/// for events.
pub fn answer_alone(
    alloc: Global,
    table: &Table,
    machine: &mut Machine,
    entry: Routine,
    budget: u64,
) -> Result<Option<Value>, Fault>
    requires rest { IsAtRest ⟦<dyn Driver as Driver>⟧ machine.old }
{
    if !drivers_are_there(table, machine.store.drivers.len()) {
        return Err(Fault::Null);
    }
    let Ok(mut events) = events_for(alloc, machine) else {
        return Err(Fault::Memory);
    };
    call_alone(table, machine, entry, budget, &mut events)
}

/// A call of a body, with a number.
///
/// # Errors
/// The fault of the script.
fn call_with(
    table: &Table,
    machine: &mut Machine,
    entry: Routine,
    number: u64,
    budget: u64,
    events: &mut EventBuffer,
) -> Result<Option<Value>, Fault>
    requires drivers { DriversThere table.now (length (members machine.old.store.drivers)) }
    requires begins { MayBegin ⟦<dyn Driver as Driver>⟧ machine.old events.old }
    ensures ready { IsReady ⟦<dyn Driver as Driver>⟧ (lent machine.new events.new) }
    ensures counted { result ≢ Err NullFault →
        IsCounted [] (world_of ⟦<dyn Driver as Driver>⟧ (lent machine.new events.new)) }
{
    run(table, machine, entry, &[Slot::Bits(number)], budget, events)
}

/// The number that a run gives.
///
/// # Errors
/// The fault of the script, and `Null` too where the value is no unsigned number.
fn number_of(ended: Result<Option<Value>, Fault>) -> Result<u64, Fault>
    ensures same { result ≢ Err NullFault → ended ≢ Err NullFault }
{
    match ended {
        Ok(Some(value)) => match value {
            Value::Uint(number) => Ok(number),
            Value::Int(_) => Err(Fault::Null),
            Value::Bool(_) => Err(Fault::Null),
            Value::Key(_) => Err(Fault::Null),
        },
        Ok(None) => Err(Fault::Null),
        Err(fault) => Err(fault),
    }
}

/// A call of a body, with a number or with nothing.
///
/// # Errors
/// The fault of the script; `Null` too where its value is no number, or where the driver of an entity is not there.
pub fn call(
    table: &Table,
    machine: &mut Machine,
    entry: Routine,
    arg: Option<u64>,
    budget: u64,
    events: &mut EventBuffer,
) -> Result<u64, Fault>
    requires begins { MayBegin ⟦<dyn Driver as Driver>⟧ machine.old events.old }
    ensures begins { result ≢ Err NullFault →
        MayBegin ⟦<dyn Driver as Driver>⟧ machine.new events.new }
{
    if !drivers_are_there(table, machine.store.drivers.len()) {
        return Err(Fault::Null);
    }
    match arg {
        Some(number) => number_of(call_with(table, machine, entry, number, budget, events)),
        None => number_of(call_alone(table, machine, entry, budget, events)),
    }
}

/// A run of an initializer: the ticks that it leaves.
///
/// # Errors
/// The fault of the script.
fn initialize_alone(
    table: &Table,
    machine: &mut Machine,
    entry: Routine,
    ticks: u64,
    events: &mut EventBuffer,
) -> Result<u64, Fault>
    requires drivers { DriversThere table.now (length (members machine.old.store.drivers)) }
    requires begins { MayBegin ⟦<dyn Driver as Driver>⟧ machine.old events.old }
    ensures ready { IsReady ⟦<dyn Driver as Driver>⟧ (lent machine.new events.new) }
    ensures counted { result ≢ Err NullFault →
        IsCounted [] (world_of ⟦<dyn Driver as Driver>⟧ (lent machine.new events.new)) }
{
    run_initializer(table, machine, entry, ticks, events)
}

/// The same.
///
/// # Errors
/// The fault of the script, and `Null` too where the driver of an entity is not there.
pub fn initialize(
    table: &Table,
    machine: &mut Machine,
    entry: Routine,
    ticks: u64,
    events: &mut EventBuffer,
) -> Result<u64, Fault>
    requires begins { MayBegin ⟦<dyn Driver as Driver>⟧ machine.old events.old }
    ensures begins { result ≢ Err NullFault →
        MayBegin ⟦<dyn Driver as Driver>⟧ machine.new events.new }
{
    if !drivers_are_there(table, machine.store.drivers.len()) {
        return Err(Fault::Null);
    }
    initialize_alone(table, machine, entry, ticks, events)
}
