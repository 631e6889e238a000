//! One host call of a driver, over the store of a run.
//!
//! All memory is taken first: for the event, and for the end of each object that lives or may live then. So a driver
//! whose answer can't be listed is never asked, and giving up takes no memory. What would go beyond the store's limits is
//! refused there too, as where there is no memory.
ghost use Rattle.std.specs.Prelude.{◌≡◌, ℕ, ◌+◌, ◌^◌, ◌<◌, [], ◌∷◌, List, length, None};
ghost use Rattle.ang_host.specs.declared.event.Role.TheVariants.{Making as MakingRole, Calling as CallingRole, Property as PropertyRole};
ghost use Rattle.ang_host.specs.Boxes.{members};
ghost use Rattle.ang_host.specs.Laws.{IsLiveOption, IsLiveValue, AreLive};
ghost use Rattle.ang_meaning.specs.declared.host.HostValueType.TheVariants.{Nothing};
ghost use Rattle.ang_meaning.specs.Counting.{CanGive};
ghost use Rattle.ang_meaning.specs.Hosts.{value_of, values_of, asked};
ghost use Rattle.ang_meaning.specs.Environment.{Environment};
ghost use Rattle.ang_heap.specs.Stores.{world_of, IsReady, StoreTold};
ghost use Rattle.ang_vm_ask.specs.Askings.{Sees, StoreAsked, driver_state};
ghost use Rattle.ang_vm_stack.specs.Arms.{done};
ghost use Rattle.ang_vm_ask.specs.Replies.{with_result, made_as, objects_made};

use crate::arguments::arguments_for;
use crate::replies::take_answer;
use crate::rooms::{room_for_call, room_for_ends};
use ang_heap::Store;
use ang_host::{Driver, Made, call_listed, make_listed, read_listed, write_listed};
use ang_kinds::{EntityNo, Fault, Value};
use ang_meaning::{HostUse, HostValueType, Slot};
use ang_vm_numbers::value_from;
use std::alloc::Global;

/// Calls the function or method of that number of its driver, with the values that it is handed. The event is
/// listed, whatever the answer. The number is that of the entry's role, and each object that is named lives.
///
/// # Errors
/// `Memory` where there is none for the event, or it would be beyond the store's limit, and then the driver is not
/// asked; the driver's own faults and its want of memory; `BadAnswer` where the answer is not of the declared type or
/// not in its range, and `Tally` where a tally of the driver has run out (docs/HOST.md, "Drivers").
#[inline(always)]
pub(crate) fn call_with(
    store: &mut Store,
    caller: &[u8],
    entity: EntityNo,
    host: &HostUse,
    number: u32,
    object: Option<u64>,
    args: &[Value],
) -> Result<Slot, Fault>
    requires role { host.now.role ≡ CallingRole number }
    requires in_list { host.now.driver < length (members store.old.drivers) }
    requires ready { IsReady ⟦<dyn Driver as Driver>⟧ store.old }
    requires object_live { IsLiveOption
        (driver_state ⟦<dyn Driver as Driver>⟧ store.old host.now.driver) object }
    requires args_live { AreLive (driver_state ⟦<dyn Driver as Driver>⟧ store.old host.now.driver)
        args.now }
    ensures told { (z : Environment) (m : ℕ) → Sees z m caller.now entity host.now
        → StoreTold ⟦<dyn Driver as Driver>⟧
        (asked z m entity object args.now host.now.result) store.old (done result) store.new }
    ensures enough { (vs : List Slot) → CanGive vs (world_of ⟦<dyn Driver as Driver>⟧ store.old)
        → CanGive (with_result result vs) (world_of ⟦<dyn Driver as Driver>⟧ store.new) }
    ensures asked { StoreAsked ⟦<dyn Driver as Driver>⟧ entity host.now.role store.old store.new }
{
    let most = store.limits.events;
    let Ok(()) = room_for_call(&mut store.events, most, store.live, caller, args.len()) else {
        return Err(Fault::Memory);
    };
    let answer = call_listed(
        &mut store.drivers,
        &mut store.events,
        caller,
        entity,
        host.driver,
        number,
        object,
        args,
    );
    take_answer(store, host.driver, host.result, answer)
}

/// Calls the function or method of that number of its driver. The event is listed, whatever the answer.
pub(crate) fn call(
    alloc: Global,
    store: &mut Store,
    caller: &[u8],
    entity: EntityNo,
    host: &HostUse,
    number: u32,
    object: Option<u64>,
    args: &[Slot],
) -> Result<Slot, Fault>
    requires role { host.now.role ≡ CallingRole number }
    requires in_list { host.now.driver < length (members store.old.drivers) }
    requires ready { IsReady ⟦<dyn Driver as Driver>⟧ store.old }
    requires object_live { IsLiveOption
        (driver_state ⟦<dyn Driver as Driver>⟧ store.old host.now.driver) object }
    requires args_live { AreLive (driver_state ⟦<dyn Driver as Driver>⟧ store.old host.now.driver)
        (values_of host.now.driver host.now.params args.now) }
    ensures told { (z : Environment) (m : ℕ) → Sees z m caller.now entity host.now
        → StoreTold ⟦<dyn Driver as Driver>⟧ (asked z m entity object
        (values_of host.now.driver host.now.params args.now) host.now.result) store.old
        (done result) store.new }
    ensures enough { (vs : List Slot) → CanGive vs (world_of ⟦<dyn Driver as Driver>⟧ store.old)
        → CanGive (with_result result vs) (world_of ⟦<dyn Driver as Driver>⟧ store.new) }
    ensures asked { StoreAsked ⟦<dyn Driver as Driver>⟧ entity host.now.role store.old store.new }
{
    let Ok(values) = arguments_for(alloc, host, args) else {
        return Err(Fault::Memory);
    };
    call_with(
        store,
        caller,
        entity,
        host,
        number,
        object,
        values.as_slice(),
    )
}

/// Reads the property of that number of its driver. The event is listed, whatever the answer.
pub(crate) fn read(
    store: &mut Store,
    caller: &[u8],
    entity: EntityNo,
    host: &HostUse,
    number: u32,
    object: Option<u64>,
) -> Result<Slot, Fault>
    requires role { host.now.role ≡ PropertyRole number }
    requires in_list { host.now.driver < length (members store.old.drivers) }
    requires ready { IsReady ⟦<dyn Driver as Driver>⟧ store.old }
    requires object_live { IsLiveOption
        (driver_state ⟦<dyn Driver as Driver>⟧ store.old host.now.driver) object }
    ensures told { (z : Environment) (m : ℕ) → Sees z m caller.now entity host.now
        → StoreTold ⟦<dyn Driver as Driver>⟧ (asked z m entity object [] host.now.result) store.old
        (done result) store.new }
    ensures enough { (vs : List Slot) → CanGive vs (world_of ⟦<dyn Driver as Driver>⟧ store.old)
        → CanGive (with_result result vs) (world_of ⟦<dyn Driver as Driver>⟧ store.new) }
    ensures asked { StoreAsked ⟦<dyn Driver as Driver>⟧ entity host.now.role store.old store.new }
{
    let most = store.limits.events;
    let Ok(()) = room_for_call(&mut store.events, most, store.live, caller, 0) else {
        return Err(Fault::Memory);
    };
    let answer = read_listed(
        &mut store.drivers,
        &mut store.events,
        caller,
        entity,
        host.driver,
        number,
        object,
    );
    take_answer(store, host.driver, host.result, answer)
}

/// Writes the property of that number of its driver, and answers 0 where it went well. The event is listed,
/// whatever the answer.
pub(crate) fn write(
    store: &mut Store,
    caller: &[u8],
    entity: EntityNo,
    host: &HostUse,
    number: u32,
    object: Option<u64>,
    value: Slot,
) -> Result<Slot, Fault>
    requires role { host.now.role ≡ PropertyRole number }
    requires in_list { host.now.driver < length (members store.old.drivers) }
    requires ready { IsReady ⟦<dyn Driver as Driver>⟧ store.old }
    requires object_live { IsLiveOption
        (driver_state ⟦<dyn Driver as Driver>⟧ store.old host.now.driver) object }
    requires value_live { IsLiveValue
        (driver_state ⟦<dyn Driver as Driver>⟧ store.old host.now.driver)
        (value_of host.now.driver host.now.result value) }
    ensures told { (z : Environment) (m : ℕ) → Sees z m caller.now entity host.now
        → StoreTold ⟦<dyn Driver as Driver>⟧
        (asked z m entity object (value_of host.now.driver host.now.result value ∷ []) Nothing)
        store.old (done result) store.new }
    ensures enough { (vs : List Slot) → CanGive vs (world_of ⟦<dyn Driver as Driver>⟧ store.old)
        → CanGive (with_result result vs) (world_of ⟦<dyn Driver as Driver>⟧ store.new) }
    ensures asked { StoreAsked ⟦<dyn Driver as Driver>⟧ entity host.now.role store.old store.new }
{
    let most = store.limits.events;
    let Ok(()) = room_for_call(&mut store.events, most, store.live, caller, 1) else {
        return Err(Fault::Memory);
    };
    let value = value_from(host.driver, host.result, value);
    let answer = write_listed(
        &mut store.drivers,
        &mut store.events,
        caller,
        entity,
        host.driver,
        number,
        object,
        value,
    );
    take_answer(store, host.driver, HostValueType::Nothing, answer)
}

/// One host object more lives.
fn made(store: &mut Store)
    requires fits { store.old.live + 1 < 2 ^ 64 }
    ensures live { store.new ≡ record store.old { live = store.old.live + 1 } }
{
    store.live += 1;
}

/// Takes what the driver of that number made: the object, which has its first place then.
///
/// # Errors
/// `NoObject` where it made none, the driver's own fault, its want of memory, and `Tally` where one of its
/// tallies has run out.
fn take_made(store: &mut Store, driver: u32, answer: Made) -> Result<Slot, Fault>
    requires fits { store.old.live + 1 < 2 ^ 64 }
    ensures exact { result ≡ made_as driver answer }
    ensures live { store.new ≡ record store.old { live = store.old.live + objects_made answer } }
{
    match answer {
        Made::Key(key) => {
            made(store);
            Ok(Slot::Host(driver, Some(key)))
        }
        Made::Nothing => Err(Fault::NoObject),
        Made::Fault(number) => Err(Fault::Host(number)),
        Made::Memory => Err(Fault::Memory),
        Made::Full => Err(Fault::Tally),
    }
}

/// Asks for a new object by the factory of that number of its driver, with the values that it is handed. The event is
/// listed, whatever the answer.
#[inline(always)]
pub(crate) fn make_with(
    store: &mut Store,
    caller: &[u8],
    entity: EntityNo,
    host: &HostUse,
    number: u32,
    args: &[Value],
) -> Result<Slot, Fault>
    requires role { host.now.role ≡ MakingRole number }
    requires in_list { host.now.driver < length (members store.old.drivers) }
    requires ready { IsReady ⟦<dyn Driver as Driver>⟧ store.old }
    requires args_live { AreLive (driver_state ⟦<dyn Driver as Driver>⟧ store.old host.now.driver)
        args.now }
    ensures told { (z : Environment) (m : ℕ) → Sees z m caller.now entity host.now
        → StoreTold ⟦<dyn Driver as Driver>⟧
        (asked z m entity None args.now host.now.result) store.old (done result) store.new }
    ensures enough { (vs : List Slot) → CanGive vs (world_of ⟦<dyn Driver as Driver>⟧ store.old)
        → CanGive (with_result result vs) (world_of ⟦<dyn Driver as Driver>⟧ store.new) }
    ensures asked { StoreAsked ⟦<dyn Driver as Driver>⟧ entity host.now.role store.old store.new }
{
    if store.live >= store.limits.objects {
        return Err(Fault::Memory);
    }
    let most = store.limits.events;
    let ends = store.live + 1;
    let Ok(()) = room_for_call(&mut store.events, most, ends, caller, args.len()) else {
        return Err(Fault::Memory);
    };
    let Ok(()) = room_for_ends(&mut store.ends, ends) else {
        return Err(Fault::Memory);
    };
    let answer = make_listed(
        &mut store.drivers,
        &mut store.events,
        caller,
        entity,
        host.driver,
        number,
        args,
    );
    take_made(store, host.driver, answer)
}

/// Asks for a new object by the factory of that number of its driver. The event is listed, whatever the
/// answer.
pub(crate) fn make(
    alloc: Global,
    store: &mut Store,
    caller: &[u8],
    entity: EntityNo,
    host: &HostUse,
    number: u32,
    args: &[Slot],
) -> Result<Slot, Fault>
    requires role { host.now.role ≡ MakingRole number }
    requires in_list { host.now.driver < length (members store.old.drivers) }
    requires ready { IsReady ⟦<dyn Driver as Driver>⟧ store.old }
    requires args_live { AreLive (driver_state ⟦<dyn Driver as Driver>⟧ store.old host.now.driver)
        (values_of host.now.driver host.now.params args.now) }
    ensures told { (z : Environment) (m : ℕ) → Sees z m caller.now entity host.now
        → StoreTold ⟦<dyn Driver as Driver>⟧
        (asked z m entity None (values_of host.now.driver host.now.params args.now) host.now.result)
        store.old (done result) store.new }
    ensures enough { (vs : List Slot) → CanGive vs (world_of ⟦<dyn Driver as Driver>⟧ store.old)
        → CanGive (with_result result vs) (world_of ⟦<dyn Driver as Driver>⟧ store.new) }
    ensures asked { StoreAsked ⟦<dyn Driver as Driver>⟧ entity host.now.role store.old store.new }
{
    let Ok(values) = arguments_for(alloc, host, args) else {
        return Err(Fault::Memory);
    };
    make_with(store, caller, entity, host, number, values.as_slice())
}
