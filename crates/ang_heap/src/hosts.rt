//! Places that hold a host object.
ghost use Rattle.std.specs.Prelude.{ℕ, Bool, ◌+◌, ◌≡◌, ◌<◌, ◌≤◌, false, List, [], Some, if◌then◌else◌};
ghost use Rattle.ang_host.specs.Logs.{listed_in, is_heard, log_len, log_capacity};
ghost use Rattle.ang_host.specs.declared.event.Role.{Role};
ghost use Rattle.ang_host.specs.State.{count_at};
ghost use Rattle.ang_host.specs.Laws.{IsFull};
ghost use Rattle.ang_host.specs.Members.{state_at};
ghost use Rattle.ang_host.specs.Boxes.{members};
ghost use Rattle.ang_host.specs.Events.{DriversFollow};
ghost use Rattle.ang_meaning.specs.declared.slot.Slot.TheVariants.{Host};
ghost use Rattle.ang_meaning.specs.World.{Bounds, ScriptObjects, Input, give, host_raised};
ghost use Rattle.ang_heap.specs.Parts.{world_by, AreReady, PartsMove, states_among, counts_among, live_among};

use ang_host::{Driver, Drivers, EventBuffer, release_listed};
use ang_meaning::Slot;

/// One place gives up a host object, and whether it was the last. Then the object's end is listed, in the room that
/// is kept for it.
pub fn release(drivers: &mut Drivers, events: &mut EventBuffer, driver: u32, key: u64) -> bool
    requires ready { AreReady (states_among ⟦<dyn Driver as Driver>⟧ drivers.old)
        (log_len events.old) (log_capacity events.old) }
    requires held { 0 < count_at (counts_among ⟦<dyn Driver as Driver>⟧ drivers.old driver) key }
    ensures gives { (os : ScriptObjects) (gs : List (List Slot)) (n : ℕ) (sp : Bool)
        (b : Bounds) (is : List Input)
        → give (Host driver (Some key))
        (world_by os (counts_among ⟦<dyn Driver as Driver>⟧ drivers.old) gs
        (listed_in events.old) n sp b is)
        ≡ world_by os (counts_among ⟦<dyn Driver as Driver>⟧ drivers.new) gs
        (listed_in events.new) n sp b is }
    ensures ready { AreReady (states_among ⟦<dyn Driver as Driver>⟧ drivers.new)
        (log_len events.new) (log_capacity events.new) }
    ensures level { log_len events.new + live_among ⟦<dyn Driver as Driver>⟧ drivers.new
        ≡ log_len events.old + live_among ⟦<dyn Driver as Driver>⟧ drivers.old }
    ensures ended { log_len events.new ≡ log_len events.old + (if result then 1 else 0) }
    ensures fewer { live_among ⟦<dyn Driver as Driver>⟧ drivers.new
        ≤ live_among ⟦<dyn Driver as Driver>⟧ drivers.old }
    ensures capacity { log_capacity events.new ≡ log_capacity events.old }
    ensures heard { is_heard events.new ≡ is_heard events.old }
    ensures moves { (roles : List Role)
        → PartsMove ⟦<dyn Driver as Driver>⟧ roles (members drivers.old) (listed_in events.old)
        (members drivers.new) (listed_in events.new) }
{
    release_listed(drivers, events, driver, key)
}

/// One more place holds a host object. False where a tally is full, and then nothing is done.
pub fn add(drivers: &mut Drivers, driver: u32, key: u64) -> bool
    requires held { 0 < count_at (counts_among ⟦<dyn Driver as Driver>⟧ drivers.old driver) key }
    ensures counts { counts_among ⟦<dyn Driver as Driver>⟧ drivers.new
        ≡ (if result
        then host_raised driver key (counts_among ⟦<dyn Driver as Driver>⟧ drivers.old)
        else (counts_among ⟦<dyn Driver as Driver>⟧ drivers.old)) }
    ensures live { live_among ⟦<dyn Driver as Driver>⟧ drivers.new
        ≡ live_among ⟦<dyn Driver as Driver>⟧ drivers.old }
    ensures ready { (len capacity : ℕ)
        → AreReady (states_among ⟦<dyn Driver as Driver>⟧ drivers.old) len capacity
        → AreReady (states_among ⟦<dyn Driver as Driver>⟧ drivers.new) len capacity }
    ensures full { result ≡ false
        → IsFull (state_at (states_among ⟦<dyn Driver as Driver>⟧ drivers.old) driver) }
    ensures unchanged { result ≡ false
        → states_among ⟦<dyn Driver as Driver>⟧ drivers.new
        ≡ states_among ⟦<dyn Driver as Driver>⟧ drivers.old }
    ensures follow { (roles : List Role)
        → DriversFollow ⟦<dyn Driver as Driver>⟧ roles (members drivers.old) []
        (members drivers.new) }
{
    drivers.add_ref(driver, key)
}
