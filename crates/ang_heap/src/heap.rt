//! Script objects, and how they are given up.
ghost use Rattle.std.specs.Prelude.{ℕ, ◌+◌, ◌-◌, ◌^◌, ◌≡◌, ◌<◌, ◌≤◌, ◌↔◌, Bool, false, IsTrue, List, [], ◌∷◌, Some, IfSome, IfNone, is_ok, OnErr, if◌then◌else◌};
ghost use Rattle.std.specs.FinMap as map;
ghost use Rattle.ang_host.specs.Logs.{listed_in, is_heard, log_len, log_capacity};
ghost use Rattle.ang_host.specs.declared.event.Role.{Role};
ghost use Rattle.ang_host.specs.Events.{DriversFollow};
ghost use Rattle.ang_host.specs.Boxes.{members};
ghost use Rattle.ang_meaning.specs.World.{Bounds, Input, Gone, Kept, script_raised, script_lowered, hold as hold_in, give as give_in, if_told};
ghost use Rattle.ang_meaning.specs.Told.{Told};
ghost use Rattle.ang_meaning.specs.Counting.{EnoughIn, HasKey, count_of_object};
ghost use Rattle.slab.specs.Slab.{get as slab_get, slab_len, with_value};
ghost use Rattle.ang_heap.specs.Parts.{world_by, noted, AreReady, IsTallyFull, PartsMove, states_among, counts_among, live_among};
ghost use Rattle.ang_heap.specs.Heaps.{objects_in, objects_of, IsTallied, IsLess};
ghost use Rattle.ang_meaning.specs.Slots.{slots_of};

use crate::hosts::{add, release};
use ang_host::{Driver, Drivers, EventBuffer, HostEvent};
use ang_meaning::Slot;
use slab::Slab;
use std::alloc::Global;

/// A script object.
#[derive(Drop)]
pub struct ScriptObject {
    /// Its class's number in the module that made it.
    pub class: usize,
    /// Its class's rank: a field holds objects of a lower one only.
    pub rank: usize,
    /// How many places hold it.
    pub count: u64,
    /// Its fields, those of the base class first, in order of declaration.
    pub fields: Vec<Slot>,
}

/// The script objects that live, by their numbers.
#[derive(Drop)]
pub struct Heap {
    pub(crate) alloc: Global,
    pub(crate) records: Slab<ScriptObject>,
    /// How many slots the objects take.
    pub(crate) slots: usize,
}

/// There is no room for one place more: the driver's tallies, or the script object's count, have run out.
#[derive(Clone, Copy, Drop)]
pub struct Tally;

impl Heap {
    /// One more place holds the value.
    ///
    /// # Errors
    /// The driver's tallies, or the script object's count, have run out, and then nothing changes.
    pub fn hold(&mut self, drivers: &mut Drivers, value: Slot) -> Result<(), Tally>
        requires there { HasKey value (counts_among ⟦<dyn Driver as Driver>⟧ drivers.old) }
        ensures holds { (gs : List (List Slot)) (es : List HostEvent) (n : ℕ) (sp : Bool) (b : Bounds)
            → Told (λ is. hold_in value (world_by (objects_of self.old)
            (counts_among ⟦<dyn Driver as Driver>⟧ drivers.old) gs es n sp b is))
            (λ is. if_told (is_ok result) (world_by (objects_of self.new)
            (counts_among ⟦<dyn Driver as Driver>⟧ drivers.new) gs es
            n (noted value (is_ok result) sp) b is)) }
        ensures full { OnErr result (IsTallyFull value (objects_of self.old)
            (states_among ⟦<dyn Driver as Driver>⟧ drivers.old)) }
        ensures same_objects { OnErr result (objects_of self.new ≡ objects_of self.old) }
        ensures same_drivers { OnErr result (states_among ⟦<dyn Driver as Driver>⟧ drivers.new
            ≡ states_among ⟦<dyn Driver as Driver>⟧ drivers.old) }
        ensures live { live_among ⟦<dyn Driver as Driver>⟧ drivers.new
            ≡ live_among ⟦<dyn Driver as Driver>⟧ drivers.old }
        ensures ready { (len capacity : ℕ)
            → AreReady (states_among ⟦<dyn Driver as Driver>⟧ drivers.old) len capacity
            → AreReady (states_among ⟦<dyn Driver as Driver>⟧ drivers.new) len capacity }
        ensures follow { (roles : List Role)
            → DriversFollow ⟦<dyn Driver as Driver>⟧ roles (members drivers.old) []
            (members drivers.new) }
        ensures counted { IsTallied self.old → IsTallied self.new }
        ensures less { IsLess self.old self.new }
    {
        if hold(&mut self.records, drivers, value) {
            return Ok(());
        }
        Err(Tally)
    }

    /// Whether no script object lives.
    pub fn is_empty(&self) -> bool
        ensures exact { IsTrue result ↔ (objects_of self.now ≡ map.empty) }
    {
        self.records.is_empty()
    }

    /// One place gives up its value, and each object that ends gives up its fields. It takes no memory and
    /// always succeeds: the end of each host object has its room in `events`.
    pub fn give_up(&mut self, drivers: &mut Drivers, events: &mut EventBuffer, value: Slot)
        requires ready { AreReady (states_among ⟦<dyn Driver as Driver>⟧ drivers.old)
            (log_len events.old) (log_capacity events.old) }
        requires enough { EnoughIn (value ∷ []) (objects_of self.old)
            (counts_among ⟦<dyn Driver as Driver>⟧ drivers.old) }
        ensures gives { (gs : List (List Slot)) (n : ℕ) (sp : Bool) (b : Bounds) (is : List Input)
            → give_in value (world_by (objects_of self.old)
            (counts_among ⟦<dyn Driver as Driver>⟧ drivers.old) gs (listed_in events.old) n sp b is)
            ≡ world_by (objects_of self.new) (counts_among ⟦<dyn Driver as Driver>⟧ drivers.new) gs
            (listed_in events.new) n sp b is }
        ensures ready { AreReady (states_among ⟦<dyn Driver as Driver>⟧ drivers.new)
            (log_len events.new) (log_capacity events.new) }
        ensures level { log_len events.new + live_among ⟦<dyn Driver as Driver>⟧ drivers.new
            ≡ log_len events.old + live_among ⟦<dyn Driver as Driver>⟧ drivers.old }
        ensures fewer { live_among ⟦<dyn Driver as Driver>⟧ drivers.new
            ≤ live_among ⟦<dyn Driver as Driver>⟧ drivers.old }
        ensures capacity { log_capacity events.new ≡ log_capacity events.old }
        ensures heard { is_heard events.new ≡ is_heard events.old }
        ensures moves { (roles : List Role)
            → PartsMove ⟦<dyn Driver as Driver>⟧ roles (members drivers.old) (listed_in events.old)
            (members drivers.new) (listed_in events.new) }
        ensures counted { IsTallied self.old → IsTallied self.new }
        ensures less { IsLess self.old self.new }
    {
        match value {
            Slot::Host(driver, named) => match named {
                Some(key) => {
                    release(drivers, events, driver, key);
                }
                None => {}
            },
            _ => give_up(&mut self.records, &mut self.slots, drivers, events, value),
        }
    }
}

fn set_count(records: &mut Slab<ScriptObject>, key: usize, count: u64)
    ensures set { (o : ScriptObject) → slab_get records.old key ≡ Some o
        → records.new ≡ with_value records.old key (record o { count = count }) }
{
    if let Some(o) = records.get_mut(key) {
        o.count = count;
    }
}

/// One more place holds a script object. False where its count is full, and then nothing is done. True where
/// there is no such object: its number then names nothing, and to hold that changes nothing.
#[inline(always)]
pub(crate) fn raise(records: &mut Slab<ScriptObject>, key: usize) -> bool
    ensures raised { objects_in records.new
        ≡ (if result then script_raised key (objects_in records.old) else objects_in records.old) }
    ensures full { result ≡ false
        → 2 ^ 64 - 1 ≤ count_of_object (map.get (objects_in records.old) key) }
    ensures kept { result ≡ false → records.new ≡ records.old }
    ensures slots { slots_of (objects_in records.new) ≡ slots_of (objects_in records.old) }
{
    let count = match records.get(key) {
        Some(o) => o.count,
        None => return true,
    };
    if count < u64::MAX {
        set_count(records, key, count + 1);
        return true;
    }
    false
}

/// One more place holds the value. False where a tally or a count has run out, and then nothing is done.
fn hold(records: &mut Slab<ScriptObject>, drivers: &mut Drivers, value: Slot) -> bool
    requires there { HasKey value (counts_among ⟦<dyn Driver as Driver>⟧ drivers.old) }
    ensures holds { (gs : List (List Slot)) (es : List HostEvent) (n : ℕ) (sp : Bool) (b : Bounds)
        → Told (λ is. hold_in value (world_by (objects_in records.old)
        (counts_among ⟦<dyn Driver as Driver>⟧ drivers.old) gs es n sp b is))
        (λ is. if_told result (world_by (objects_in records.new)
        (counts_among ⟦<dyn Driver as Driver>⟧ drivers.new) gs es n (noted value result sp) b is)) }
    ensures full { result ≡ false
        → IsTallyFull value (objects_in records.old)
        (states_among ⟦<dyn Driver as Driver>⟧ drivers.old) }
    ensures same_objects { result ≡ false → objects_in records.new ≡ objects_in records.old }
    ensures same_drivers { result ≡ false
        → states_among ⟦<dyn Driver as Driver>⟧ drivers.new
        ≡ states_among ⟦<dyn Driver as Driver>⟧ drivers.old }
    ensures live { live_among ⟦<dyn Driver as Driver>⟧ drivers.new
        ≡ live_among ⟦<dyn Driver as Driver>⟧ drivers.old }
    ensures ready { (len capacity : ℕ)
        → AreReady (states_among ⟦<dyn Driver as Driver>⟧ drivers.old) len capacity
        → AreReady (states_among ⟦<dyn Driver as Driver>⟧ drivers.new) len capacity }
    ensures follow { (roles : List Role)
        → DriversFollow ⟦<dyn Driver as Driver>⟧ roles (members drivers.old) []
        (members drivers.new) }
    ensures slots { slots_of (objects_in records.new) ≡ slots_of (objects_in records.old) }
{
    match value {
        Slot::Bits(_) => true,
        Slot::Host(driver, named) => match named {
            Some(key) => add(drivers, driver, key),
            None => true,
        },
        Slot::Script(handle) => match handle {
            Some(number) => raise(records, number),
            None => true,
        },
    }
}

/// One place less holds a script object that other places hold as well. False where no other place does or
/// there is no such object, and then nothing is done.
#[inline(always)]
pub(crate) fn lower_shared(records: &mut Slab<ScriptObject>, key: usize) -> bool
    ensures lowered { IsTrue result
        → script_lowered key (objects_in records.old) ≡ Kept (objects_in records.new) }
    ensures last { result ≡ false
        → count_of_object (map.get (objects_in records.old) key) ≤ 1 }
    ensures same { result ≡ false → records.new ≡ records.old }
    ensures slots { slots_of (objects_in records.new) ≡ slots_of (objects_in records.old) }
{
    if let Some(o) = records.get_mut(key) {
        if o.count > 1 {
            o.count -= 1;
            return true;
        }
    }
    false
}

/// One place less holds a script object: the object, where it was the last.
fn lower(records: &mut Slab<ScriptObject>, key: usize) -> Option<ScriptObject>
    ensures gone { IfSome result (λ o. script_lowered key (objects_in records.old)
        ≡ Gone o.fields.items (objects_in records.new)) }
    ensures shorter { IfSome result (λ o. slab_len records.new < slab_len records.old) }
    ensures kept { IfNone result
        (script_lowered key (objects_in records.old) ≡ Kept (objects_in records.new)) }
    ensures same_length { IfNone result (slab_len records.new ≡ slab_len records.old) }
{
    let count = match records.get(key) {
        Some(o) => o.count,
        None => return None,
    };
    if count > 1 {
        set_count(records, key, count - 1);
        return None;
    }
    records.try_remove(key)
}

/// One place gives up its value, and each object that ends gives up its fields, which can't hold it: an
/// object that ended is no record any more.
fn give_up(
    records: &mut Slab<ScriptObject>,
    slots: &mut usize,
    drivers: &mut Drivers,
    events: &mut EventBuffer,
    value: Slot,
)
    requires ready { AreReady (states_among ⟦<dyn Driver as Driver>⟧ drivers.old)
        (log_len events.old) (log_capacity events.old) }
    requires enough { EnoughIn (value ∷ []) (objects_in records.old)
        (counts_among ⟦<dyn Driver as Driver>⟧ drivers.old) }
    ensures gives { (gs : List (List Slot)) (n : ℕ) (sp : Bool) (b : Bounds) (is : List Input)
        → give_in value (world_by (objects_in records.old)
        (counts_among ⟦<dyn Driver as Driver>⟧ drivers.old) gs (listed_in events.old) n sp b is)
        ≡ world_by (objects_in records.new) (counts_among ⟦<dyn Driver as Driver>⟧ drivers.new) gs
        (listed_in events.new) n sp b is }
    ensures ready { AreReady (states_among ⟦<dyn Driver as Driver>⟧ drivers.new)
        (log_len events.new) (log_capacity events.new) }
    ensures level { log_len events.new + live_among ⟦<dyn Driver as Driver>⟧ drivers.new
        ≡ log_len events.old + live_among ⟦<dyn Driver as Driver>⟧ drivers.old }
    ensures fewer { live_among ⟦<dyn Driver as Driver>⟧ drivers.new
        ≤ live_among ⟦<dyn Driver as Driver>⟧ drivers.old }
    ensures capacity { log_capacity events.new ≡ log_capacity events.old }
    ensures heard { is_heard events.new ≡ is_heard events.old }
    ensures shorter { slab_len records.new ≤ slab_len records.old }
    ensures moves { (roles : List Role)
        → PartsMove ⟦<dyn Driver as Driver>⟧ roles (members drivers.old) (listed_in events.old)
        (members drivers.new) (listed_in events.new) }
    ensures counted { slots.old ≡ slots_of (objects_in records.old)
        → slots.new ≡ slots_of (objects_in records.new) }
    ensures less { slots.new ≤ slots.old }
{
    match value {
        Slot::Bits(_) => {}
        Slot::Host(driver, named) => match named {
            Some(key) => {
                release(drivers, events, driver, key);
            }
            None => {}
        },
        Slot::Script(handle) => match handle {
            Some(number) => {
                if let Some(object) = lower(records, number) {
                    *slots = slots.saturating_sub(1).saturating_sub(object.fields.len());
                    for i in 0..object.fields.len() {
                        give_up(records, slots, drivers, events, object.fields[i]);
                    }
                }
            }
            None => {}
        },
    }
}
