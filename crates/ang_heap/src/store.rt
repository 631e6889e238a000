//! What lies outside the stack of a run, as one thing.
ghost use Rattle.std.specs.Prelude.{◌≡◌, ◌<◌, ◌≤◌, ◌+◌, ℕ, ◌∷◌, false, [], Option, Some, IfSome, IfNone, max};
ghost use Rattle.ang_host.specs.State.{count_at};
ghost use Rattle.ang_host.specs.Laws.{IsFull};
ghost use Rattle.ang_host.specs.Members.{state_at};
ghost use Rattle.ang_meaning.specs.declared.slot.Slot.TheVariants.{Script as Handle, Host};
ghost use Rattle.ang_meaning.specs.World.{hold as hold_in, give as give_in, if_told};
ghost use Rattle.ang_meaning.specs.Counting.{CanGive, HasKey};
ghost use Rattle.ang_heap.specs.Heaps.{objects_of};
ghost use Rattle.ang_meaning.specs.Slots.{slots_of};
ghost use Rattle.ang_heap.specs.Parts.{IsTallyFull, states_among, counts_among, live_among};
ghost use Rattle.ang_heap.specs.Stores.{world_of, bounds_of, IsKept, IsReady, StoreTold, HasMoved, StoreBecomes, made_while};

use crate::globals::Globals;
use crate::heap::{Heap, lower_shared, raise};
use crate::hosts::{add, release};
use crate::limits::{Held, Limits};
use ang_host::{Driver, Drivers, EventBuffer};
use ang_meaning::Slot;

/// What lies outside the stack of a run. A run puts its caller's list in the place of `events`, and takes it
/// out again at its end; between runs nothing is read of `events`, and nothing is said of what it holds.
pub struct Store {
    /// The script objects.
    pub heap: Heap,
    /// The values of the globals.
    pub globals: Globals,
    /// The drivers, with the host objects that they keep.
    pub drivers: Drivers,
    /// What the drivers were asked and which host objects ended, in order. It has room for the end of each
    /// live host object.
    pub events: EventBuffer,
    /// Empty, with room for the end of each live host object: the ends go here when the engine itself is
    /// given up.
    pub ends: EventBuffer,
    /// How many host objects live.
    pub live: usize,
    /// Whether a driver refused one more reference to an object. Then some driver's tally has run out.
    pub spent: bool,
    /// How much scripts may hold. Where less is allowed than is held already, that stays, and nothing is added.
    pub limits: Limits,
    /// How many slots of script objects this command has made while `made_at` ticks were left.
    pub made: usize,
    /// The ticks that were left when a script object was made last.
    pub made_at: u64,
}

/// From now on these are the limits. Whatever is held already stays.
pub fn set_limits(store: &mut Store, limits: Limits)
    requires kept { IsKept ⟦<dyn Driver as Driver>⟧ store.old }
    ensures kept { IsKept ⟦<dyn Driver as Driver>⟧ store.new }
    ensures world { world_of ⟦<dyn Driver as Driver>⟧ store.new
        ≡ record (world_of ⟦<dyn Driver as Driver>⟧ store.old) { bounds = bounds_of limits } }
    ensures set { store.new ≡ record store.old { limits = limits } }
{
    store.limits = limits;
}

/// A command begins, which has made nothing yet. All that it runs is counted together.
pub fn begin_command(store: &mut Store)
    requires kept { IsKept ⟦<dyn Driver as Driver>⟧ store.old }
    ensures kept { IsKept ⟦<dyn Driver as Driver>⟧ store.new }
    ensures world { world_of ⟦<dyn Driver as Driver>⟧ store.new
        ≡ world_of ⟦<dyn Driver as Driver>⟧ store.old }
    ensures set { store.new ≡ record store.old { made = 0 } }
{
    store.made = 0;
}

/// How many slots were made while so many ticks were left.
#[inline(always)]
fn made_while(store: &Store, ticks: u64) -> usize
    ensures exact { result ≡ made_while ticks store.now }
{
    if store.made_at == ticks {
        return store.made;
    }
    0
}

/// How many slots were made while so many ticks were left, if one object more of so many fields is made. None where it
/// may not be made: either the objects that live or those made in this tick would take more slots than the limit.
#[inline(always)]
pub fn made_with(store: &Store, fields: usize, ticks: u64) -> Option<usize>
    ensures counted { IfSome result (λ n. n ≡ made_while ticks store.now + (1 + fields)) }
    ensures held { IfSome result (λ n. store.now.heap.slots + (1 + fields) ≤ store.now.limits.slots) }
    ensures few { IfSome result (λ n. n ≤ store.now.limits.slots) }
    ensures refused { IfNone result (store.now.limits.slots
        < max store.now.heap.slots (made_while ticks store.now) + (1 + fields)) }
{
    let most = store.limits.slots;
    let made = made_while(store, ticks);
    if made < most && fields < most - made && store.heap.has_slots(fields, most) {
        return Some(made + 1 + fields);
    }
    None
}

/// How much scripts hold.
pub fn held(store: &Store) -> Held
    requires kept { IsKept ⟦<dyn Driver as Driver>⟧ store.now }
    ensures slots { result.slots ≡ slots_of (objects_of store.now.heap) }
    ensures objects { result.objects
        ≡ live_among ⟦<dyn Driver as Driver>⟧ store.now.drivers }
{
    Held {
        slots: store.heap.slots(),
        objects: store.live,
    }
}

/// One more place holds the value. False where a tally is full, and then nothing is done.
#[inline(always)]
pub fn hold(store: &mut Store, value: Slot) -> bool
    requires there { HasKey value (counts_among ⟦<dyn Driver as Driver>⟧ store.old.drivers) }
    ensures told { StoreTold ⟦<dyn Driver as Driver>⟧ (hold_in value) store.old (if_told result)
        store.new }
    ensures full { result ≡ false
        → IsTallyFull value (objects_of store.old.heap)
        (states_among ⟦<dyn Driver as Driver>⟧ store.old.drivers) }
    ensures unchanged { result ≡ false
        → states_among ⟦<dyn Driver as Driver>⟧ store.new.drivers
        ≡ states_among ⟦<dyn Driver as Driver>⟧ store.old.drivers }
    ensures kept { (handle : Option ℕ) → value ≡ Handle handle → result ≡ false
        → store.new ≡ store.old }
    ensures moves { HasMoved ⟦<dyn Driver as Driver>⟧ store.old store.new }
{
    match value {
        Slot::Bits(_) => true,
        Slot::Script(handle) => match handle {
            Some(number) => raise(&mut store.heap.records, number),
            None => true,
        },
        Slot::Host(driver, named) => match named {
            Some(key) => hold_host(store, driver, key),
            None => true,
        },
    }
}

/// One more place holds a host object. It stays apart as `give_script` does.
#[inline(never)]
fn hold_host(store: &mut Store, driver: u32, key: u64) -> bool
    requires held { 0 < count_at
        (counts_among ⟦<dyn Driver as Driver>⟧ store.old.drivers driver) key }
    ensures told { StoreTold ⟦<dyn Driver as Driver>⟧ (hold_in (Host driver (Some key))) store.old
        (if_told result) store.new }
    ensures full { result ≡ false
        → IsFull (state_at (states_among ⟦<dyn Driver as Driver>⟧ store.old.drivers) driver) }
    ensures unchanged { result ≡ false
        → states_among ⟦<dyn Driver as Driver>⟧ store.new.drivers
        ≡ states_among ⟦<dyn Driver as Driver>⟧ store.old.drivers }
    ensures moves { HasMoved ⟦<dyn Driver as Driver>⟧ store.old store.new }
{
    if add(&mut store.drivers, driver, key) {
        return true;
    }
    store.spent = true;
    false
}

/// One place gives up the value. It takes no memory and always succeeds.
#[inline(always)]
pub fn give(store: &mut Store, value: Slot)
    requires ready { IsReady ⟦<dyn Driver as Driver>⟧ store.old }
    requires enough { CanGive (value ∷ []) (world_of ⟦<dyn Driver as Driver>⟧ store.old) }
    ensures given { StoreBecomes ⟦<dyn Driver as Driver>⟧ (give_in value) store.old store.new }
    ensures moves { HasMoved ⟦<dyn Driver as Driver>⟧ store.old store.new }
{
    match value {
        Slot::Bits(_) => {}
        Slot::Script(handle) => match handle {
            Some(number) => {
                if !lower_shared(&mut store.heap.records, number) {
                    give_script(store, number);
                }
            }
            None => {}
        },
        Slot::Host(driver, named) => match named {
            Some(key) => give_host(store, driver, key),
            None => {}
        },
    }
}

/// One place gives up a script object, and each object that ends gives up its fields. It stays apart, so that what
/// gives up a script object that other places hold as well stays small.
#[inline(never)]
fn give_script(store: &mut Store, number: usize)
    requires ready { IsReady ⟦<dyn Driver as Driver>⟧ store.old }
    requires enough { CanGive (Handle (Some number) ∷ [])
        (world_of ⟦<dyn Driver as Driver>⟧ store.old) }
    ensures given { StoreBecomes ⟦<dyn Driver as Driver>⟧ (give_in (Handle (Some number))) store.old
        store.new }
    ensures moves { HasMoved ⟦<dyn Driver as Driver>⟧ store.old store.new }
{
    let before = store.events.len();
    let value = Slot::Script(Some(number));
    store
        .heap
        .give_up(&mut store.drivers, &mut store.events, value);
    store.live -= store.events.len() - before;
}

/// One place gives up a host object. It stays apart as `give_script` does.
#[inline(never)]
fn give_host(store: &mut Store, driver: u32, key: u64)
    requires ready { IsReady ⟦<dyn Driver as Driver>⟧ store.old }
    requires held { 0 < count_at
        (counts_among ⟦<dyn Driver as Driver>⟧ store.old.drivers driver) key }
    ensures given { StoreBecomes ⟦<dyn Driver as Driver>⟧ (give_in (Host driver (Some key)))
        store.old store.new }
    ensures moves { HasMoved ⟦<dyn Driver as Driver>⟧ store.old store.new }
{
    if release(&mut store.drivers, &mut store.events, driver, key) {
        store.live -= 1;
    }
}
