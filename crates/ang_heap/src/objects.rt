//! Script objects made, read and changed.
ghost use Rattle.std.specs.Prelude.{◌≡◌, ◌+◌, ◌≤◌, ◌↔◌, IsTrue, Some, None, IfOk, OnErr, length, map as list_map, slice_index_or, slice_set};
ghost use Rattle.std.specs.FinMap as map;
ghost use Rattle.ang_meaning.specs.Perform.{field_of, with_field, new_object};
ghost use Rattle.ang_meaning.specs.Environment.{default_of};
ghost use Rattle.slab.specs.Slab.{get as slab_get, with_value};
ghost use Rattle.ang_meaning.specs.Slots.{slots_of};
ghost use Rattle.ang_heap.specs.Heaps.{IsTallied, IsLess, record_of, objects_in, objects_of, class_of_record, rank_of_record};

use crate::heap::{Heap, ScriptObject};
use ang_meaning::{Class, Slot, ValueKind};
use slab::Slab;
use std::alloc::{AllocError, Global};

impl Heap {
    /// A heap without objects.
    pub fn new(alloc: Global) -> Heap
        ensures empty { objects_of result ≡ map.empty }
        ensures counted { IsTallied result }
    {
        Heap {
            alloc,
            records: Slab::new(alloc),
            slots: 0,
        }
    }

    /// How many slots the objects take.
    pub fn slots(&self) -> usize
        ensures exact { IsTallied self.now → result ≡ slots_of (objects_of self.now) }
    {
        self.slots
    }

    /// Whether the objects take no more than `most` slots with one object more, of so many fields.
    #[inline(always)]
    pub fn has_slots(&self, fields: usize, most: usize) -> bool
        ensures exact { IsTrue result ↔ (self.now.slots + (1 + fields) ≤ most) }
    {
        self.slots < most && fields < most - self.slots
    }

    /// Makes an object of a class, whose fields name nothing and which has its first place, and answers its
    /// number.
    ///
    /// # Errors
    /// Want of memory, and then nothing changes.
    pub fn make(&mut self, class: &Class) -> Result<usize, AllocError>
        ensures free { IfOk result (λ n. map.get (objects_of self.old) n ≡ None) }
        ensures made { IfOk result
            (λ n. objects_of self.new ≡ map.insert (objects_of self.old) n (new_object class.now)) }
        ensures unchanged { OnErr result (objects_of self.new ≡ objects_of self.old) }
        ensures counted { IsTallied self.old → IsTallied self.new }
        ensures grown { self.new.slots ≤ self.old.slots + (1 + length class.now.fields) }
    {
        let kinds = class.fields.as_slice();
        if !self.has_slots(kinds.len(), usize::MAX) {
            return Err(AllocError);
        }
        let fields = defaults(self.alloc, kinds)?;
        let number = insert(&mut self.records, new_record(class, fields))?;
        self.slots += 1 + kinds.len();
        Ok(number)
    }

    /// The class of an object, where there is one of that number.
    pub fn class(&self, number: usize) -> Option<usize>
        ensures exact { result ≡ class_of_record (map.get (objects_of self.now) number) }
    {
        match self.records.get(number) {
            Some(object) => Some(object.class),
            None => None,
        }
    }

    /// The rank of an object, where there is one of that number.
    pub fn rank(&self, number: usize) -> Option<usize>
        ensures exact { result ≡ rank_of_record (map.get (objects_of self.now) number) }
    {
        match self.records.get(number) {
            Some(object) => Some(object.rank),
            None => None,
        }
    }

    /// A field of an object, and `other` where there is no such field.
    #[inline(always)]
    pub fn field(&self, number: usize, index: usize, other: Slot) -> Slot
        ensures exact { result ≡ field_of (map.get (objects_of self.now) number) index other }
    {
        match self.records.get(number) {
            Some(object) => value_or(object.fields.as_slice(), index, other),
            None => other,
        }
    }

    /// Stores a value into a field of an object, where there is such a field, and gives the old value back;
    /// where there is none, the value itself. Only a script object of a lower rank than the object should
    /// be stored: else objects could hold one another in a circle, and would never be given up. That is no
    /// condition of this function, which does the same with any value.
    #[inline(always)]
    pub fn set_field(&mut self, number: usize, index: usize, value: Slot) -> Slot
        ensures old { result ≡ field_of (map.get (objects_of self.old) number) index value }
        ensures put { objects_of self.new
            ≡ with_field number (map.get (objects_of self.old) number) index value
            (objects_of self.old) }
        ensures counted { IsTallied self.old → IsTallied self.new }
        ensures less { IsLess self.old self.new }
    {
        let old = self.field(number, index, value);
        store(&mut self.records, number, index, value);
        old
    }
}

fn default_slot(kind: ValueKind) -> Slot
    ensures exact { result ≡ default_of kind }
{
    match kind {
        ValueKind::Number => Slot::Bits(0),
        ValueKind::Handle => Slot::Script(None),
    }
}

/// The fields of a new object.
fn defaults(alloc: Global, kinds: &[ValueKind]) -> Result<Vec<Slot>, AllocError>
    ensures exact { IfOk result (λ fields. fields.items ≡ list_map default_of kinds.now) }
{
    Ok(kinds.iter().map(|kind| default_slot(*kind)).collect(alloc)?)
}

fn new_record(class: &Class, fields: Vec<Slot>) -> ScriptObject
    ensures exact { record_of result ≡ record (new_object class.now) { fields = fields.items } }
{
    ScriptObject {
        class: class.number,
        rank: class.rank,
        count: 1,
        fields,
    }
}

fn insert(records: &mut Slab<ScriptObject>, object: ScriptObject) -> Result<usize, AllocError>
    ensures free { IfOk result (λ n. map.get (objects_in records.old) n ≡ None) }
    ensures made { IfOk result
        (λ n. objects_in records.new ≡ map.insert (objects_in records.old) n (record_of object)) }
    ensures unchanged { OnErr result (objects_in records.new ≡ objects_in records.old) }
{
    records.reserve(1)?;
    Ok(records.insert_reserved(object))
}

/// The value at an index, and `other` where there is none.
#[inline(always)]
fn value_or(values: &[Slot], index: usize, other: Slot) -> Slot
    ensures exact { result ≡ slice_index_or values.now index other }
{
    match values.get(index) {
        Some(value) => *value,
        None => other,
    }
}

/// Stores a value into a field, where there is such a field.
#[inline(always)]
fn put_field(object: &mut ScriptObject, index: usize, value: Slot)
    ensures put { record_of object.new
        ≡ record (record_of object.old) { fields = slice_set object.old.fields.items index value } }
{
    if index < object.fields.len() {
        object.fields[index] = value;
    }
}

#[inline(always)]
fn store(records: &mut Slab<ScriptObject>, number: usize, index: usize, value: Slot)
    ensures stored { (o : ScriptObject) → slab_get records.old number ≡ Some o
        → (p : ScriptObject) × (records.new ≡ with_value records.old number p)
        × (record_of p ≡ record (record_of o) { fields = slice_set o.fields.items index value }) }
    ensures missing { slab_get records.old number ≡ None → records.new ≡ records.old }
{
    if let Some(object) = records.get_mut(number) {
        put_field(object, index, value);
    }
}
