//! One operation of a script on the host.
ghost use Rattle.std.specs.Prelude.{◌≡◌, ℕ, ◌<◌, ◌≤◌, ◌∷◌, true, List, [], Some, None, Ok, length, reverse};
ghost use Rattle.ang_kinds.specs.declared.mask.EntityNo.{EntityNo};
ghost use Rattle.ang_host.specs.declared.event.Role.{Role};
ghost use Rattle.ang_host.specs.declared.event.Role.TheVariants.{Making as MakingRole, Calling as CallingRole, Property as PropertyRole};
ghost use Rattle.ang_host.specs.Boxes.{members};
ghost use Rattle.ang_host.specs.Laws.{IsLiveOption, IsLiveValue, AreLive};
ghost use Rattle.ang_code.specs.Machine.{take_some};
ghost use Rattle.ang_meaning.specs.declared.operation.Operation.TheVariants.{Ask, Read, Write, Alter};
ghost use Rattle.ang_meaning.specs.declared.host.HostValueType.TheVariants.{Nothing};
ghost use Rattle.ang_meaning.specs.Counting.{CanGive, CanGiveEach};
ghost use Rattle.ang_meaning.specs.Hosts.{value_of, values_of, asked};
ghost use Rattle.ang_meaning.specs.Numbers.{Changed};
ghost use Rattle.ang_meaning.specs.Perform.{Receiver, receiver_of, arguments_of as arguments_in, in_place_of, altered_to, operands as operand_count};
ghost use Rattle.ang_meaning.specs.Environment.{Environment, is_called_by, is_fit};
ghost use Rattle.ang_heap.specs.Stores.{world_of, IsReady, StoreTold};
ghost use Rattle.ang_vm_numbers.specs.Answers.{altered_of};
ghost use Rattle.ang_vm_stack.specs.Arms.{done};
ghost use Rattle.ang_vm_stack.specs.Stacks.{values};
ghost use Rattle.ang_vm_stack.specs.Tables.{setting_of};
ghost use Rattle.ang_vm_ask.specs.Asks.{asked_by, asks_host, asks};
ghost use Rattle.ang_vm_ask.specs.Askings.{Sees, Performed, StoreAsked, StillGives, driver_state, HasMovedOver};
ghost use Rattle.ang_vm_ask.specs.Entities.{DriversThere, AsksEntry};
ghost use Rattle.ang_vm_ask.specs.Handing.{object_in};

use crate::asking::{call, call_with, make, make_with, read, write};
use crate::fitting::entry_of;
use crate::handing::{arguments_of, behind_first, first_of, object_of, operands_at};
use ang_heap::{Store, give};
use ang_host::{Driver, Role};
use ang_kinds::{EntityNo, Fault, Value};
use ang_meaning::{HostUse, Operation, Slot, Update};
use ang_vm_numbers::{Updated, change_slot};
use ang_vm_stack::table::{Table, name_at};
use std::alloc::Global;

/// Writes a property, and answers `given` where that went well.
fn put(
    store: &mut Store,
    caller: &[u8],
    entity: EntityNo,
    host: &HostUse,
    number: u32,
    object: Option<u64>,
    stored: Slot,
    given: Slot,
) -> Result<Slot, Fault>
    requires role { host.now.role ≡ PropertyRole number }
    requires in_list { host.now.driver < length (members store.old.drivers) }
    requires ready { IsReady ⟦<dyn Driver as Driver>⟧ store.old }
    requires object_live { IsLiveOption
        (driver_state ⟦<dyn Driver as Driver>⟧ store.old host.now.driver) object }
    requires value_live { IsLiveValue
        (driver_state ⟦<dyn Driver as Driver>⟧ store.old host.now.driver)
        (value_of host.now.driver host.now.result stored) }
    ensures told { (z : Environment) (m : ℕ) → Sees z m caller.now entity host.now
        → StoreTold ⟦<dyn Driver as Driver>⟧ (λ w. in_place_of given (asked z m entity object
        (value_of host.now.driver host.now.result stored ∷ []) Nothing w)) store.old
        (done result) store.new }
    ensures enough { StillGives ⟦<dyn Driver as Driver>⟧ store.old store.new }
    ensures asked { StoreAsked ⟦<dyn Driver as Driver>⟧ entity host.now.role store.old store.new }
{
    match write(store, caller, entity, host, number, object, stored) {
        Ok(_) => Ok(given),
        Err(fault) => Err(fault),
    }
}

/// Writes what was worked out of a property's value into it, and answers the value that is to be given.
/// Where nothing could be worked out, the value that was read is given up.
fn put_changed(
    store: &mut Store,
    caller: &[u8],
    entity: EntityNo,
    host: &HostUse,
    number: u32,
    object: Option<u64>,
    old: Slot,
    altered: Result<Updated, Fault>,
) -> Result<Slot, Fault>
    requires role { host.now.role ≡ PropertyRole number }
    requires in_list { host.now.driver < length (members store.old.drivers) }
    requires ready { IsReady ⟦<dyn Driver as Driver>⟧ store.old }
    requires object_live { IsLiveOption
        (driver_state ⟦<dyn Driver as Driver>⟧ store.old host.now.driver) object }
    requires held { CanGive (old ∷ []) (world_of ⟦<dyn Driver as Driver>⟧ store.old) }
    ensures told { (z : Environment) (m : ℕ) (r : Receiver) (to : Changed)
        → Sees z m caller.now entity host.now → object_in r ≡ Ok object → altered ≡ altered_of to
        → StoreTold ⟦<dyn Driver as Driver>⟧ (altered_to z m entity r old to) store.old
        (done result) store.new }
    ensures enough { (vs : List Slot)
        → CanGive (old ∷ vs) (world_of ⟦<dyn Driver as Driver>⟧ store.old)
        → CanGive vs (world_of ⟦<dyn Driver as Driver>⟧ store.new) }
    ensures asked { StoreAsked ⟦<dyn Driver as Driver>⟧ entity host.now.role store.old store.new }
{
    match altered {
        Ok(altered) => {
            let stored = Slot::Bits(altered.stored);
            let given = Slot::Bits(altered.given);
            put(store, caller, entity, host, number, object, stored, given)
        }
        Err(fault) => {
            give(store, old);
            Err(fault)
        }
    }
}

/// Calls the function or method that the entry is, or asks for a new object where it is a factory. A property
/// is `Null`, and nothing is asked.
#[inline(never)]
fn perform_ask(
    alloc: Global,
    store: &mut Store,
    caller: &[u8],
    entity: EntityNo,
    host: &HostUse,
    operands: &[Slot],
) -> Result<Slot, Fault>
    requires in_list { host.now.driver < length (members store.old.drivers) }
    requires ready { IsReady ⟦<dyn Driver as Driver>⟧ store.old }
    requires enough { CanGiveEach operands.now (world_of ⟦<dyn Driver as Driver>⟧ store.old) }
    ensures performed { Performed caller.now entity host.now (Ask entity) operands.now
        (world_of ⟦<dyn Driver as Driver>⟧ store.old) result
        (world_of ⟦<dyn Driver as Driver>⟧ store.new) }
    ensures enough { StillGives ⟦<dyn Driver as Driver>⟧ store.old store.new }
    ensures asked { StoreAsked ⟦<dyn Driver as Driver>⟧ entity host.now.role store.old store.new }
{
    let object = match object_of(host, operands) {
        Ok(object) => object,
        Err(fault) => return Err(fault),
    };
    let args = arguments_of(host, operands);
    match host.role {
        Role::Calling(number) => { call(alloc, store, caller, entity, host, number, object, args) }
        Role::Making(number) => make(alloc, store, caller, entity, host, number, args),
        Role::Property(_) => Err(Fault::Null),
    }
}

/// Reads the property that the entry is. What is no property is `Null`, and nothing is asked.
fn perform_read(
    store: &mut Store,
    caller: &[u8],
    entity: EntityNo,
    host: &HostUse,
    operands: &[Slot],
) -> Result<Slot, Fault>
    requires in_list { host.now.driver < length (members store.old.drivers) }
    requires ready { IsReady ⟦<dyn Driver as Driver>⟧ store.old }
    requires enough { CanGiveEach operands.now (world_of ⟦<dyn Driver as Driver>⟧ store.old) }
    ensures performed { Performed caller.now entity host.now (Read entity) operands.now
        (world_of ⟦<dyn Driver as Driver>⟧ store.old) result
        (world_of ⟦<dyn Driver as Driver>⟧ store.new) }
    ensures enough { StillGives ⟦<dyn Driver as Driver>⟧ store.old store.new }
    ensures asked { StoreAsked ⟦<dyn Driver as Driver>⟧ entity host.now.role store.old store.new }
{
    let Role::Property(number) = host.role else {
        return Err(Fault::Null);
    };
    match object_of(host, operands) {
        Ok(object) => read(store, caller, entity, host, number, object),
        Err(fault) => Err(fault),
    }
}

/// Writes the first operand to the property that the entry is, and answers that operand. What is no property is
/// `Null`, and nothing is asked.
fn perform_write(
    store: &mut Store,
    caller: &[u8],
    entity: EntityNo,
    host: &HostUse,
    operands: &[Slot],
) -> Result<Slot, Fault>
    requires in_list { host.now.driver < length (members store.old.drivers) }
    requires ready { IsReady ⟦<dyn Driver as Driver>⟧ store.old }
    requires enough { CanGiveEach operands.now (world_of ⟦<dyn Driver as Driver>⟧ store.old) }
    ensures performed { Performed caller.now entity host.now (Write entity) operands.now
        (world_of ⟦<dyn Driver as Driver>⟧ store.old) result
        (world_of ⟦<dyn Driver as Driver>⟧ store.new) }
    ensures enough { StillGives ⟦<dyn Driver as Driver>⟧ store.old store.new }
    ensures asked { StoreAsked ⟦<dyn Driver as Driver>⟧ entity host.now.role store.old store.new }
{
    let Role::Property(number) = host.role else {
        return Err(Fault::Null);
    };
    let Some(value) = first_of(operands) else {
        return Err(Fault::Null);
    };
    match object_of(host, behind_first(operands)) {
        Ok(object) => put(store, caller, entity, host, number, object, value, value),
        Err(fault) => Err(fault),
    }
}

/// Reads the property that the entry is, changes its value by the first operand, and writes it. The answer is the
/// old value or the new one, as `by` says. What is no property is `Null`, and nothing is asked.
fn perform_alter(
    store: &mut Store,
    caller: &[u8],
    entity: EntityNo,
    host: &HostUse,
    by: Update,
    operands: &[Slot],
) -> Result<Slot, Fault>
    requires in_list { host.now.driver < length (members store.old.drivers) }
    requires ready { IsReady ⟦<dyn Driver as Driver>⟧ store.old }
    requires enough { CanGiveEach operands.now (world_of ⟦<dyn Driver as Driver>⟧ store.old) }
    ensures performed { Performed caller.now entity host.now (Alter entity by) operands.now
        (world_of ⟦<dyn Driver as Driver>⟧ store.old) result
        (world_of ⟦<dyn Driver as Driver>⟧ store.new) }
    ensures enough { StillGives ⟦<dyn Driver as Driver>⟧ store.old store.new }
    ensures asked { StoreAsked ⟦<dyn Driver as Driver>⟧ entity host.now.role store.old store.new }
{
    let Role::Property(number) = host.role else {
        return Err(Fault::Null);
    };
    let Some(operand) = first_of(operands) else {
        return Err(Fault::Null);
    };
    let object = match object_of(host, behind_first(operands)) {
        Ok(object) => object,
        Err(fault) => return Err(fault),
    };
    match read(store, caller, entity, host, number, object) {
        Ok(old) => {
            let altered = change_slot(by, old, operand);
            put_changed(store, caller, entity, host, number, object, old, altered)
        }
        Err(fault) => Err(fault),
    }
}

/// An operation on the host by the entry that it asks. It stays apart, so that `perform` stays small.
#[inline(never)]
fn perform_apart(
    alloc: Global,
    store: &mut Store,
    caller: &[u8],
    host: &HostUse,
    operation: &Operation,
    operands: &[Slot],
) -> Result<Slot, Fault>
    requires in_list { host.now.driver < length (members store.old.drivers) }
    requires ready { IsReady ⟦<dyn Driver as Driver>⟧ store.old }
    requires enough { CanGiveEach operands.now (world_of ⟦<dyn Driver as Driver>⟧ store.old) }
    ensures performed { (e : EntityNo) → asked_by operation.now ≡ Some e
        → Performed caller.now e host.now operation.now operands.now
        (world_of ⟦<dyn Driver as Driver>⟧ store.old) result
        (world_of ⟦<dyn Driver as Driver>⟧ store.new) }
    ensures enough { StillGives ⟦<dyn Driver as Driver>⟧ store.old store.new }
    ensures asked { (e : EntityNo) → asked_by operation.now ≡ Some e
        → StoreAsked ⟦<dyn Driver as Driver>⟧ e host.now.role store.old store.new }
{
    match *operation {
        Operation::Ask(entity) => perform_ask(alloc, store, caller, entity, host, operands),
        Operation::Read(entity) => perform_read(store, caller, entity, host, operands),
        Operation::Write(entity) => perform_write(store, caller, entity, host, operands),
        Operation::Alter(entity, by) => { perform_alter(store, caller, entity, host, by, operands) }
        Operation::Binary(_, _) => Err(Fault::Null),
        Operation::Compare(_, _) => Err(Fault::Null),
        Operation::Convert(_) => Err(Fault::Null),
        Operation::Negate(_) => Err(Fault::Null),
        Operation::Complement(_) => Err(Fault::Null),
        Operation::Not => Err(Fault::Null),
        Operation::Same => Err(Fault::Null),
        Operation::GlobalGet(_) => Err(Fault::Null),
        Operation::GlobalSet(_) => Err(Fault::Null),
        Operation::GlobalChange(_, _) => Err(Fault::Null),
        Operation::Make(_) => Err(Fault::Null),
        Operation::FieldGet(_) => Err(Fault::Null),
        Operation::FieldSet(_) => Err(Fault::Null),
        Operation::FieldChange(_, _) => Err(Fault::Null),
        Operation::Cast(_) => Err(Fault::Null),
    }
}

/// The same, with calls told from all others first.
#[inline(always)]
fn perform(
    alloc: Global,
    store: &mut Store,
    caller: &[u8],
    host: &HostUse,
    operation: &Operation,
    operands: &[Slot],
) -> Result<Slot, Fault>
    requires in_list { host.now.driver < length (members store.old.drivers) }
    requires ready { IsReady ⟦<dyn Driver as Driver>⟧ store.old }
    requires enough { CanGiveEach operands.now (world_of ⟦<dyn Driver as Driver>⟧ store.old) }
    ensures performed { (e : EntityNo) → asked_by operation.now ≡ Some e
        → Performed caller.now e host.now operation.now operands.now
        (world_of ⟦<dyn Driver as Driver>⟧ store.old) result
        (world_of ⟦<dyn Driver as Driver>⟧ store.new) }
    ensures enough { StillGives ⟦<dyn Driver as Driver>⟧ store.old store.new }
    ensures asked { (e : EntityNo) → asked_by operation.now ≡ Some e
        → StoreAsked ⟦<dyn Driver as Driver>⟧ e host.now.role store.old store.new }
{
    match *operation {
        Operation::Ask(entity) => perform_ask(alloc, store, caller, entity, host, operands),
        _ => perform_apart(alloc, store, caller, host, operation, operands),
    }
}

/// Does an operation on the host for a module, and answers its value. Its operands are the top values,
/// `count` of them, the last one on top. Each of them is held by some place, be it one of these or not. They
/// are all still there then, and `given_count` says how many of them, from the top, are to be given up after
/// the value; the value of a write is its operand itself.
///
/// Each host call is listed after the events, whatever the driver answered. The memory for its event, and room
/// for the end of each object that may live then, is taken before the driver is asked. A property that is
/// altered is asked twice: it is read and then written, and between the two its value is changed by the
/// operand. A driver is handed the operands by their declared types: numbers, the keys of its own objects, and
/// null for what is neither.
///
/// # Errors
/// `Memory` where there is none for an event, and then that driver is not asked; `Null` where the object of
/// which the entry is asked is none of its driver; `NoObject` where a factory made none; `BadAnswer` where the
/// answer is not of the declared type or not in its range; `Tally` where a tally of the driver has run out; the
/// driver's own faults and its want of memory; and of a property that is altered the faults of the change, with
/// the property read and not written.
///
/// It has to be an operation of which `operands` says that it takes `count`: of others nothing is promised but
/// that the drivers follow what was listed.
pub fn ask(
    alloc: Global,
    table: &Table,
    home: u32,
    stack: &[Slot],
    top: usize,
    count: usize,
    store: &mut Store,
    operation: Operation,
) -> Result<Slot, Fault>
    requires in_use { count ≤ top }
    requires within { top ≤ length stack.now }
    requires drivers { DriversThere table.now (length (members store.old.drivers)) }
    requires ready { IsReady ⟦<dyn Driver as Driver>⟧ store.old }
    requires enough { CanGiveEach (take_some count (values stack.now top))
        (world_of ⟦<dyn Driver as Driver>⟧ store.old) }
    ensures told { (nesting : ℕ) → asks_host operation ≡ true
        → is_fit (setting_of table.now nesting) home operation ≡ true
        → count ≡ operand_count (setting_of table.now nesting) home operation
        → StoreTold ⟦<dyn Driver as Driver>⟧ (asks (setting_of table.now nesting) home operation
        (take_some count (values stack.now top))) store.old (done result) store.new }
    ensures enough { StillGives ⟦<dyn Driver as Driver>⟧ store.old store.new }
    ensures ready { IsReady ⟦<dyn Driver as Driver>⟧ store.new }
    ensures same { length (members store.new.drivers) ≡ length (members store.old.drivers) }
    ensures moves { HasMovedOver ⟦<dyn Driver as Driver>⟧ table.now store.old store.new }
{
    let Some(host) = entry_of(table, home, &operation) else {
        return Err(Fault::Null);
    };
    ask_entry(
        alloc, table, home, host, stack, top, count, store, &operation,
    )
}

/// The same of an operation whose entry was looked up: `entry_of` found it.
#[inline(always)]
pub fn ask_entry(
    alloc: Global,
    table: &Table,
    home: u32,
    host: &HostUse,
    stack: &[Slot],
    top: usize,
    count: usize,
    store: &mut Store,
    operation: &Operation,
) -> Result<Slot, Fault>
    requires entry { AsksEntry table.now home operation.now host.now }
    requires in_use { count ≤ top }
    requires within { top ≤ length stack.now }
    requires drivers { DriversThere table.now (length (members store.old.drivers)) }
    requires ready { IsReady ⟦<dyn Driver as Driver>⟧ store.old }
    requires enough { CanGiveEach (take_some count (values stack.now top))
        (world_of ⟦<dyn Driver as Driver>⟧ store.old) }
    ensures told { (nesting : ℕ) → is_fit (setting_of table.now nesting) home operation.now ≡ true
        → count ≡ operand_count (setting_of table.now nesting) home operation.now
        → StoreTold ⟦<dyn Driver as Driver>⟧ (asks (setting_of table.now nesting) home operation.now
        (take_some count (values stack.now top))) store.old (done result) store.new }
    ensures enough { StillGives ⟦<dyn Driver as Driver>⟧ store.old store.new }
    ensures ready { IsReady ⟦<dyn Driver as Driver>⟧ store.new }
    ensures same { length (members store.new.drivers) ≡ length (members store.old.drivers) }
    ensures moves { HasMovedOver ⟦<dyn Driver as Driver>⟧ table.now store.old store.new }
{
    let caller = name_at(table, home);
    let operands = operands_at(stack, top, count);
    perform(alloc, store, caller, host, operation, operands)
}

/// Calls a function or method for a module, of an object or of none, with the values that its driver is handed, and
/// answers its value. The operands from which they come needn't stand on a stack, and are all still there then.
///
/// What is listed, and when the driver isn't asked, is as `ask` says, and so are the errors but `NoObject`.
#[inline(always)]
pub fn call_entry(
    table: &Table,
    home: u32,
    host: &HostUse,
    number: u32,
    object: Option<u64>,
    args: &[Value],
    store: &mut Store,
    entity: EntityNo,
) -> Result<Slot, Fault>
    requires entry { AsksEntry table.now home (Ask entity) host.now }
    requires role { host.now.role ≡ CallingRole number }
    requires drivers { DriversThere table.now (length (members store.old.drivers)) }
    requires ready { IsReady ⟦<dyn Driver as Driver>⟧ store.old }
    requires object_live { IsLiveOption
        (driver_state ⟦<dyn Driver as Driver>⟧ store.old host.now.driver) object }
    requires args_live { AreLive (driver_state ⟦<dyn Driver as Driver>⟧ store.old host.now.driver)
        args.now }
    ensures called { (ops : List Slot) → object_in (receiver_of host.now ops) ≡ Ok object
        → values_of host.now.driver host.now.params (arguments_in host.now ops) ≡ args.now
        → (nesting : ℕ) → StoreTold ⟦<dyn Driver as Driver>⟧ (asks (setting_of table.now nesting) home (Ask entity)
        (reverse ops)) store.old (done result) store.new }
    ensures enough { StillGives ⟦<dyn Driver as Driver>⟧ store.old store.new }
    ensures ready { IsReady ⟦<dyn Driver as Driver>⟧ store.new }
    ensures same { length (members store.new.drivers) ≡ length (members store.old.drivers) }
    ensures moves { HasMovedOver ⟦<dyn Driver as Driver>⟧ table.now store.old store.new }
{
    let name = name_at(table, home);
    call_with(store, name, entity, host, number, object, args)
}

/// Asks for a new object by a factory for a module, with the values that its driver is handed, and answers its handle.
#[inline(always)]
fn make_entry(
    table: &Table,
    home: u32,
    host: &HostUse,
    number: u32,
    args: &[Value],
    store: &mut Store,
    entity: EntityNo,
) -> Result<Slot, Fault>
    requires entry { AsksEntry table.now home (Ask entity) host.now }
    requires role { host.now.role ≡ MakingRole number }
    requires drivers { DriversThere table.now (length (members store.old.drivers)) }
    requires ready { IsReady ⟦<dyn Driver as Driver>⟧ store.old }
    requires args_live { AreLive (driver_state ⟦<dyn Driver as Driver>⟧ store.old host.now.driver)
        args.now }
    ensures made { (ops : List Slot) → object_in (receiver_of host.now ops) ≡ Ok None
        → values_of host.now.driver host.now.params (arguments_in host.now ops) ≡ args.now
        → (nesting : ℕ) → StoreTold ⟦<dyn Driver as Driver>⟧ (asks (setting_of table.now nesting) home (Ask entity)
        (reverse ops)) store.old (done result) store.new }
    ensures enough { StillGives ⟦<dyn Driver as Driver>⟧ store.old store.new }
    ensures ready { IsReady ⟦<dyn Driver as Driver>⟧ store.new }
    ensures same { length (members store.new.drivers) ≡ length (members store.old.drivers) }
    ensures moves { HasMovedOver ⟦<dyn Driver as Driver>⟧ table.now store.old store.new }
{
    let asking = name_at(table, home);
    make_with(store, asking, entity, host, number, args)
}

/// Asks an entry that is called, a function, a method or a factory, for a module, of an object or of none, with the
/// values that its driver is handed, and answers its value. The operands from which they come needn't stand on a stack,
/// and are all still there then. The role is the entry's, which a caller may know by then.
///
/// What is listed, when the driver isn't asked, and the errors are as `ask` says.
#[inline(always)]
pub fn ask_called(
    table: &Table,
    home: u32,
    host: &HostUse,
    role: Role,
    object: Option<u64>,
    args: &[Value],
    store: &mut Store,
    entity: EntityNo,
) -> Result<Slot, Fault>
    requires entry { AsksEntry table.now home (Ask entity) host.now }
    requires called { is_called_by host.now.role host.now.member ≡ true }
    requires role { host.now.role ≡ role }
    requires drivers { DriversThere table.now (length (members store.old.drivers)) }
    requires ready { IsReady ⟦<dyn Driver as Driver>⟧ store.old }
    requires object_live { IsLiveOption
        (driver_state ⟦<dyn Driver as Driver>⟧ store.old host.now.driver) object }
    requires args_live { AreLive (driver_state ⟦<dyn Driver as Driver>⟧ store.old host.now.driver)
        args.now }
    ensures called { (ops : List Slot) → object_in (receiver_of host.now ops) ≡ Ok object
        → values_of host.now.driver host.now.params (arguments_in host.now ops) ≡ args.now
        → (nesting : ℕ) → StoreTold ⟦<dyn Driver as Driver>⟧ (asks (setting_of table.now nesting) home (Ask entity)
        (reverse ops)) store.old (done result) store.new }
    ensures enough { StillGives ⟦<dyn Driver as Driver>⟧ store.old store.new }
    ensures ready { IsReady ⟦<dyn Driver as Driver>⟧ store.new }
    ensures same { length (members store.new.drivers) ≡ length (members store.old.drivers) }
    ensures moves { HasMovedOver ⟦<dyn Driver as Driver>⟧ table.now store.old store.new }
{
    match role {
        Role::Calling(number) => {
            call_entry(table, home, host, number, object, args, store, entity)
        }
        Role::Making(number) => make_entry(table, home, host, number, args, store, entity),
        Role::Property(_) => unreachable!(),
    }
}
