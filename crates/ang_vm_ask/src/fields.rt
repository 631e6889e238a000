//! Operations on script objects: one is made, its fields are read, stored and changed, and handles are cast.
//!
//! Here they are done on the store, without a stack. `fields.rt` of `ang_vm_steps` does the same as single instructions,
//! with their operands on the stack, and that of `ang_vm_fields` does several of these instructions at once.
ghost use Rattle.std.specs.Prelude.{◌≡◌, ℕ, Bool, ◌∷◌, nat_eq, List, [], IfOk, length};
ghost use Rattle.std.specs.List.{list_any};
ghost use Rattle.ang_host.specs.declared.event.HostEvent.{HostEvent};
ghost use Rattle.ang_meaning.specs.declared.operation.Operation.TheVariants.{Make, FieldGet, FieldSet, FieldChange, Cast};
ghost use Rattle.ang_meaning.specs.World.{Bounds, HostCounts, Input};
ghost use Rattle.ang_meaning.specs.Environment.{Environment, class_at as class_of_number};
ghost use Rattle.ang_meaning.specs.Perform.{perform, may_take as may_take_in, member_or, member_put};
ghost use Rattle.ang_heap.specs.Heaps.{objects_of};
ghost use Rattle.ang_heap.specs.Parts.{world_by};
ghost use Rattle.ang_heap.specs.Stores.{world_of, IsReady, StoreTold, HasMoved, HasMade, StoreBecomes};
ghost use Rattle.ang_vm_stack.specs.Tables.{setting_of};
ghost use Rattle.ang_vm_stack.specs.Arms.{done};
ghost use Rattle.ang_vm_ask.specs.Counts.{StandCounted};
ghost use Rattle.ang_vm_ask.specs.Fields.{number_in, is_lower_rank, is_class_under};

use ang_heap::{Heap, Store, give, hold, made_with};
use ang_host::Driver;
use ang_kinds::Fault;
use ang_meaning::{Class, Slot, Update};
use ang_vm_numbers::change_slot;
use ang_vm_stack::table::{Table, class_at};

/// The number of the script object that a value names, where it names one.
fn number_of(value: Slot) -> Option<usize>
    ensures exact { result ≡ number_in value }
{
    match value {
        Slot::Bits(_) => None,
        Slot::Script(handle) => handle,
        Slot::Host(_, _) => None,
    }
}

/// Whether both ranks are there, and the first is the lower one.
fn is_lower(first: Option<usize>, second: Option<usize>) -> bool
    ensures exact { result ≡ is_lower_rank first second }
{
    match first {
        Some(lower) => match second {
            Some(upper) => lower < upper,
            None => false,
        },
        None => false,
    }
}

/// Whether a field of an object may take a value: a script object has to be of a lower rank than its holder.
fn may_take(heap: &Heap, number: usize, value: Slot) -> bool
    ensures exact { (hs : HostCounts) (gs : List (List Slot)) (es : List HostEvent) (n : ℕ)
        (sp : Bool) (b : Bounds) (is : List Input)
        → result ≡ may_take_in number value (world_by (objects_of heap.now) hs gs es n sp b is) }
{
    match value {
        Slot::Bits(_) => true,
        Slot::Script(handle) => match handle {
            Some(held) => is_lower(heap.rank(held), heap.rank(number)),
            None => true,
        },
        Slot::Host(_, _) => true,
    }
}

/// A value and a field of an object change places, where the value names an object whose field may take it;
/// else the value comes back. Nothing is held or given up.
pub fn trade_member(store: &mut Store, object: Slot, index: usize, value: Slot) -> Slot
    requires ready { IsReady ⟦<dyn Driver as Driver>⟧ store.old }
    ensures old { result
        ≡ member_or index object value (world_of ⟦<dyn Driver as Driver>⟧ store.old) }
    ensures put { StoreBecomes ⟦<dyn Driver as Driver>⟧ (member_put index object value) store.old
        store.new }
    ensures moves { HasMoved ⟦<dyn Driver as Driver>⟧ store.old store.new }
{
    let number = match number_of(object) {
        Some(number) => number,
        None => return value,
    };
    if may_take(&store.heap, number, value) {
        return store.heap.set_field(number, index, value);
    }
    value
}

/// A new object of a class, made while so many ticks are left.
///
/// # Errors
/// `Memory` where there is none for it, or where it would take more slots than script objects may, or than one tick may
/// make of them.
pub fn make(store: &mut Store, class: &Class, ticks: u64) -> Result<Slot, Fault>
    requires ready { IsReady ⟦<dyn Driver as Driver>⟧ store.old }
    ensures told { (z : Environment) (home number : ℕ) → class_of_number z home number ≡ class.now
        → StoreTold ⟦<dyn Driver as Driver>⟧ (perform z home (Make number) []) store.old
        (done result) store.new }
    ensures made { IfOk result
        (λ v. HasMade ticks (length class.now.fields) store.old store.new) }
    ensures moves { HasMoved ⟦<dyn Driver as Driver>⟧ store.old store.new }
{
    let Some(made) = made_with(store, class.fields.as_slice().len(), ticks) else {
        return Err(Fault::Memory);
    };
    match store.heap.make(class) {
        Ok(number) => {
            store.made = made;
            store.made_at = ticks;
            Ok(Slot::Script(Some(number)))
        }
        Err(_) => Err(Fault::Memory),
    }
}

/// The value of a field, which one more place holds; then the object is given up.
///
/// # Errors
/// `Null` where the value names no script object, `Tally` where a tally is full.
pub fn get(store: &mut Store, object: Slot, index: usize) -> Result<Slot, Fault>
    requires ready { IsReady ⟦<dyn Driver as Driver>⟧ store.old }
    requires counted { StandCounted (object ∷ []) (world_of ⟦<dyn Driver as Driver>⟧ store.old) }
    ensures told { (z : Environment) (home : ℕ)
        → StoreTold ⟦<dyn Driver as Driver>⟧ (perform z home (FieldGet index) (object ∷ []))
        store.old (done result) store.new }
    ensures moves { HasMoved ⟦<dyn Driver as Driver>⟧ store.old store.new }
{
    let number = match number_of(object) {
        Some(number) => number,
        None => return Err(Fault::Null),
    };
    let found = store.heap.field(number, index, Slot::Bits(0));
    if !hold(store, found) {
        return Err(Fault::Tally);
    }
    give(store, object);
    Ok(found)
}

/// Stores a value into a field, then gives up its old one, and then the object. The value is the operation's
/// too.
///
/// # Errors
/// `Null` where the object is none or its field can't take the value, `Tally` where a tally is full.
pub fn set(store: &mut Store, object: Slot, index: usize, value: Slot) -> Result<Slot, Fault>
    requires ready { IsReady ⟦<dyn Driver as Driver>⟧ store.old }
    requires counted { StandCounted (object ∷ value ∷ [])
        (world_of ⟦<dyn Driver as Driver>⟧ store.old) }
    ensures told { (z : Environment) (home : ℕ)
        → StoreTold ⟦<dyn Driver as Driver>⟧ (perform z home (FieldSet index) (object ∷ value ∷ []))
        store.old (done result) store.new }
    ensures moves { HasMoved ⟦<dyn Driver as Driver>⟧ store.old store.new }
{
    let number = match number_of(object) {
        Some(number) => number,
        None => return Err(Fault::Null),
    };
    if !may_take(&store.heap, number, value) {
        return Err(Fault::Null);
    }
    if !hold(store, value) {
        return Err(Fault::Tally);
    }
    let old = store.heap.set_field(number, index, value);
    give(store, old);
    give(store, object);
    Ok(value)
}

/// Changes a field by an operand, where both are numbers, and then gives up the object.
///
/// # Errors
/// `Null` where the object is none, or one of both is no number, and the faults of the change.
pub fn alter(
    store: &mut Store,
    object: Slot,
    index: usize,
    by: Update,
    operand: Slot,
) -> Result<Slot, Fault>
    requires ready { IsReady ⟦<dyn Driver as Driver>⟧ store.old }
    requires counted { StandCounted (object ∷ operand ∷ [])
        (world_of ⟦<dyn Driver as Driver>⟧ store.old) }
    ensures told { (z : Environment) (home : ℕ)
        → StoreTold ⟦<dyn Driver as Driver>⟧
        (perform z home (FieldChange by index) (object ∷ operand ∷ [])) store.old (done result)
        store.new }
    ensures moves { HasMoved ⟦<dyn Driver as Driver>⟧ store.old store.new }
{
    let number = match number_of(object) {
        Some(number) => number,
        None => return Err(Fault::Null),
    };
    let old = store.heap.field(number, index, Slot::Bits(0));
    match change_slot(by, old, operand) {
        Ok(altered) => {
            store
                .heap
                .set_field(number, index, Slot::Bits(altered.stored));
            give(store, object);
            Ok(Slot::Bits(altered.given))
        }
        Err(fault) => Err(fault),
    }
}

/// Whether a class is or stands under the class or interface of that number.
fn stands_under(class: &Class, number: usize) -> bool
    ensures exact { result ≡ list_any (nat_eq number) class.now.under }
{
    class.under.as_slice().iter().any(|under| number == *under)
}

/// Whether the class of an object, where there is an object, is or stands under that class or interface.
fn is_under(table: &Table, home: u32, number: usize, class: Option<usize>) -> bool
    ensures exact { (nesting : ℕ)
        → result ≡ is_class_under (setting_of table.now nesting) home number class }
{
    match class {
        Some(own) => match class_at(table, home, own) {
            Some(found) => stands_under(found, number),
            None => false,
        },
        None => false,
    }
}

/// The value, where it is null or an object of that class; else it is given up, and null is the value.
///
/// # Errors
/// `Null` where the value is no handle of a script class.
pub fn cast_value(
    table: &Table,
    store: &mut Store,
    home: u32,
    class: usize,
    value: Slot,
) -> Result<Slot, Fault>
    requires ready { IsReady ⟦<dyn Driver as Driver>⟧ store.old }
    requires counted { StandCounted (value ∷ []) (world_of ⟦<dyn Driver as Driver>⟧ store.old) }
    ensures told { (nesting : ℕ)
        → StoreTold ⟦<dyn Driver as Driver>⟧
        (perform (setting_of table.now nesting) home (Cast class) (value ∷ [])) store.old
        (done result) store.new }
    ensures moves { HasMoved ⟦<dyn Driver as Driver>⟧ store.old store.new }
{
    let handle = match value {
        Slot::Bits(_) => return Err(Fault::Null),
        Slot::Script(handle) => handle,
        Slot::Host(_, _) => return Err(Fault::Null),
    };
    let number = match handle {
        Some(number) => number,
        None => return Ok(value),
    };
    if is_under(table, home, class, store.heap.class(number)) {
        return Ok(value);
    }
    give(store, value);
    Ok(Slot::Script(None))
}
