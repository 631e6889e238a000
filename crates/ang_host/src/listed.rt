//! Host calls and releases of drivers that are listed as events.
//!
//! The engine calls these functions, and hosts call none of them. The caller has reserved room for the event
//! (`EventBuffer::reserve_call`, and for an end `reserve`), so listing it takes no memory. Each function says what
//! the one driver did, and that the list of drivers follows the event: the answer in it is the driver's own.
ghost use Rattle.std.specs.Prelude.{◌≡◌, ◌+◌, ◌<◌, ◌++◌, ◌∷◌, [], List, None, length};
ghost use Rattle.ang_host.specs.declared.event.HostEvent.TheVariants.{Called};
ghost use Rattle.ang_host.specs.declared.event.Role.{Role};
ghost use Rattle.ang_host.specs.declared.event.Role.TheVariants.{Making as MakingRole, Calling as CallingRole, Property as PropertyRole};
ghost use Rattle.ang_host.specs.declared.answer.HostReply.TheVariants.{Making, Asking};
ghost use Rattle.ang_host.specs.State.{make, call, read, write};
ghost use Rattle.ang_host.specs.Laws.{IsLive, IsLiveOption, IsLiveValue, AreLive, Answered, WasMade, WasReleased};
ghost use Rattle.ang_host.specs.Members.{state_at, states_of, DriverMoved};
ghost use Rattle.ang_host.specs.Boxes.{members};
ghost use Rattle.ang_host.specs.Events.{role_at, ends, DriversFollow};
ghost use Rattle.ang_host.specs.Logs.{listed_in, log_len, log_capacity, HasRoomForCall, is_heard};

use crate::answer::{Answer, HostReply, Made};
use crate::driver::Driver;
use crate::drivers::Drivers;
use crate::event_buffer::EventBuffer;
use ang_kinds::{EntityNo, Value};

/// Asks the driver to make an object by its function `f`, which is registered as the factory `entity`, and
/// lists the event, whatever the answer. The caller has reserved room for the event.
pub fn make_listed(
    drivers: &mut Drivers,
    events: &mut EventBuffer,
    caller: &[u8],
    entity: EntityNo,
    driver: u32,
    f: u32,
    args: &[Value],
) -> Made
    requires in_list { driver < length (members drivers.old) }
    requires room { log_len events.old < log_capacity events.old }
    requires call { HasRoomForCall caller.now (length args.now) events.old }
    requires args_live { AreLive
        (state_at (states_of ⟦<dyn Driver as Driver>⟧ (members drivers.old)) driver)
        args.now }
    ensures listed { listed_in events.new ≡ listed_in events.old
        ++ Called caller.now entity driver None args.now (Making result) ∷ [] }
    ensures len { log_len events.new ≡ log_len events.old + 1 }
    ensures capacity { log_capacity events.new ≡ log_capacity events.old }
    ensures heard { is_heard events.new ≡ is_heard events.old }
    ensures moved { DriverMoved ⟦<dyn Driver as Driver>⟧ (members drivers.old) driver
        (λ r s t. WasMade r s (make f args.now) result t) (members drivers.new) }
    ensures follow { (roles : List Role) → role_at roles entity.0 ≡ MakingRole f
        → DriversFollow ⟦<dyn Driver as Driver>⟧ roles (members drivers.old)
        (Called caller.now entity driver None args.now (Making result) ∷ []) (members drivers.new) }
{
    let answer = drivers.make(driver, f, args);
    let reply = HostReply::Making(answer);
    events.push_call(caller, entity, driver, None, args, reply);
    answer
}

/// Calls the driver's function `f`, which is registered as the function or method `entity`, and lists the
/// event, whatever the answer. The caller has reserved room for the event.
#[inline(always)]
pub fn call_listed(
    drivers: &mut Drivers,
    events: &mut EventBuffer,
    caller: &[u8],
    entity: EntityNo,
    driver: u32,
    f: u32,
    object: Option<u64>,
    args: &[Value],
) -> Answer
    requires in_list { driver < length (members drivers.old) }
    requires room { log_len events.old < log_capacity events.old }
    requires call { HasRoomForCall caller.now (length args.now) events.old }
    requires object_live { IsLiveOption
        (state_at (states_of ⟦<dyn Driver as Driver>⟧ (members drivers.old)) driver)
        object }
    requires args_live { AreLive
        (state_at (states_of ⟦<dyn Driver as Driver>⟧ (members drivers.old)) driver)
        args.now }
    ensures listed { listed_in events.new ≡ listed_in events.old
        ++ Called caller.now entity driver object args.now (Asking result) ∷ [] }
    ensures len { log_len events.new ≡ log_len events.old + 1 }
    ensures capacity { log_capacity events.new ≡ log_capacity events.old }
    ensures heard { is_heard events.new ≡ is_heard events.old }
    ensures moved { DriverMoved ⟦<dyn Driver as Driver>⟧ (members drivers.old) driver
        (λ r s t. Answered r s (call f object args.now) result t) (members drivers.new) }
    ensures follow { (roles : List Role) → role_at roles entity.0 ≡ CallingRole f
        → DriversFollow ⟦<dyn Driver as Driver>⟧ roles (members drivers.old)
        (Called caller.now entity driver object args.now (Asking result) ∷ []) (members drivers.new) }
{
    let answer = drivers.call(driver, f, object, args);
    let reply = HostReply::Asking(answer);
    events.push_call(caller, entity, driver, object, args, reply);
    answer
}

/// Reads the driver's property `f`, which is registered as `entity`, and lists the event, whatever the
/// answer. The caller has reserved room for the event.
pub fn read_listed(
    drivers: &mut Drivers,
    events: &mut EventBuffer,
    caller: &[u8],
    entity: EntityNo,
    driver: u32,
    f: u32,
    object: Option<u64>,
) -> Answer
    requires in_list { driver < length (members drivers.old) }
    requires room { log_len events.old < log_capacity events.old }
    requires call { HasRoomForCall caller.now 0 events.old }
    requires object_live { IsLiveOption
        (state_at (states_of ⟦<dyn Driver as Driver>⟧ (members drivers.old)) driver)
        object }
    ensures listed { listed_in events.new ≡ listed_in events.old
        ++ Called caller.now entity driver object [] (Asking result) ∷ [] }
    ensures len { log_len events.new ≡ log_len events.old + 1 }
    ensures capacity { log_capacity events.new ≡ log_capacity events.old }
    ensures heard { is_heard events.new ≡ is_heard events.old }
    ensures moved { DriverMoved ⟦<dyn Driver as Driver>⟧ (members drivers.old) driver
        (λ r s t. Answered r s (read f object) result t) (members drivers.new) }
    ensures follow { (roles : List Role) → role_at roles entity.0 ≡ PropertyRole f
        → DriversFollow ⟦<dyn Driver as Driver>⟧ roles (members drivers.old)
        (Called caller.now entity driver object [] (Asking result) ∷ []) (members drivers.new) }
{
    let answer = drivers.read(driver, f, object);
    let reply = HostReply::Asking(answer);
    events.push_call(caller, entity, driver, object, &[], reply);
    answer
}

/// Writes the driver's property `f`, which is registered as `entity`, and lists the event, whatever the
/// answer. The caller has reserved room for the event, whose one argument is the new value.
pub fn write_listed(
    drivers: &mut Drivers,
    events: &mut EventBuffer,
    caller: &[u8],
    entity: EntityNo,
    driver: u32,
    f: u32,
    object: Option<u64>,
    value: Value,
) -> Answer
    requires in_list { driver < length (members drivers.old) }
    requires room { log_len events.old < log_capacity events.old }
    requires call { HasRoomForCall caller.now 1 events.old }
    requires object_live { IsLiveOption
        (state_at (states_of ⟦<dyn Driver as Driver>⟧ (members drivers.old)) driver)
        object }
    requires value_live { IsLiveValue
        (state_at (states_of ⟦<dyn Driver as Driver>⟧ (members drivers.old)) driver)
        value }
    ensures listed { listed_in events.new ≡ listed_in events.old
        ++ Called caller.now entity driver object (value ∷ []) (Asking result) ∷ [] }
    ensures len { log_len events.new ≡ log_len events.old + 1 }
    ensures capacity { log_capacity events.new ≡ log_capacity events.old }
    ensures heard { is_heard events.new ≡ is_heard events.old }
    ensures moved { DriverMoved ⟦<dyn Driver as Driver>⟧ (members drivers.old) driver
        (λ r s t. Answered r s (write f object value) result t) (members drivers.new) }
    ensures follow { (roles : List Role) → role_at roles entity.0 ≡ PropertyRole f
        → DriversFollow ⟦<dyn Driver as Driver>⟧ roles (members drivers.old)
        (Called caller.now entity driver object (value ∷ []) (Asking result) ∷ []) (members drivers.new) }
{
    let answer = drivers.write(driver, f, object, value);
    let reply = HostReply::Asking(answer);
    events.push_call(caller, entity, driver, object, &[value], reply);
    answer
}

/// Releases one reference to the key, and tells whether it was the last: then it lists the key's end. The
/// caller has reserved room for the event.
pub fn release_listed(
    drivers: &mut Drivers,
    events: &mut EventBuffer,
    driver: u32,
    key: u64,
) -> bool
    requires in_list { driver < length (members drivers.old) }
    requires room { log_len events.old < log_capacity events.old }
    requires key_live { IsLive
        (state_at (states_of ⟦<dyn Driver as Driver>⟧ (members drivers.old)) driver)
        key }
    ensures listed { listed_in events.new ≡ listed_in events.old ++ ends driver key result }
    ensures len { log_len events.new ≡ log_len events.old + length (ends driver key result) }
    ensures capacity { log_capacity events.new ≡ log_capacity events.old }
    ensures heard { is_heard events.new ≡ is_heard events.old }
    ensures moved { DriverMoved ⟦<dyn Driver as Driver>⟧ (members drivers.old) driver
        (λ r s t. WasReleased r s key result t) (members drivers.new) }
    ensures follow { (roles : List Role)
        → DriversFollow ⟦<dyn Driver as Driver>⟧ roles (members drivers.old)
        (ends driver key result) (members drivers.new) }
{
    let ended = drivers.release(driver, key);
    if ended {
        events.push_end(driver, key);
    }
    ended
}
