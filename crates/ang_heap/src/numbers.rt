//! Numbers in fields and globals, which are read and put without a look at any count: a number is held by
//! nothing, and giving it up does nothing.
ghost use Rattle.std.specs.Prelude.{◌≡◌, false, IsTrue, IfSome, is_some, [], slice_index_or, slice_set};
ghost use Rattle.std.specs.FinMap as map;
ghost use Rattle.ang_meaning.specs.declared.slot.Slot.TheVariants.{Bits, Script};
ghost use Rattle.ang_meaning.specs.Perform.{field_of, with_field};
ghost use Rattle.ang_heap.specs.Globals.{values_in};
ghost use Rattle.ang_heap.specs.Heaps.{IsTallied, IsLess, record_of, objects_in, objects_of};
ghost use Rattle.ang_heap.specs.Numbers.{number_in, HasNumber};

use crate::globals::{Globals, values_of};
use crate::heap::{Heap, ScriptObject};
use ang_meaning::Slot;
use slab::Slab;

impl Heap {
    /// The number in a field of an object, where one stands there.
    #[inline(always)]
    pub fn number(&self, number: usize, index: usize) -> Option<u64>
        ensures exact { result
            ≡ number_in (field_of (map.get (objects_of self.now) number) index (Script None)) }
        ensures there { IfSome result (λ n. (other : Slot)
            → field_of (map.get (objects_of self.now) number) index other ≡ Bits n) }
    {
        match self.records.get(number) {
            Some(object) => number_at(object.fields.as_slice(), index),
            None => None,
        }
    }

    /// Puts a number into a field of an object, in the place of the number that stands there. False where
    /// none stands there, and then nothing is done.
    #[inline(always)]
    pub fn put_number(&mut self, number: usize, index: usize, value: u64) -> bool
        ensures exact { result ≡ is_some (number_in
            (field_of (map.get (objects_of self.old) number) index (Script None))) }
        ensures there { IsTrue result
            → HasNumber (field_of (map.get (objects_of self.old) number) index) }
        ensures put { IsTrue result → objects_of self.new
            ≡ with_field number (map.get (objects_of self.old) number) index (Bits value)
            (objects_of self.old) }
        ensures kept { result ≡ false → self.new ≡ self.old }
        ensures counted { IsTallied self.old → IsTallied self.new }
        ensures less { IsLess self.old self.new }
    {
        put_number_of(&mut self.records, number, index, value)
    }
}

impl Globals {
    /// The number in a global, where one stands there.
    #[inline(always)]
    pub fn number(&self, home: u32, number: usize) -> Option<u64>
        ensures exact { result ≡ number_in
            (slice_index_or (slice_index_or (values_in self.now) home []) number (Script None)) }
        ensures there { IfSome result (λ n. (other : Slot)
            → slice_index_or (slice_index_or (values_in self.now) home []) number other
            ≡ Bits n) }
    {
        number_at(values_of(self, home), number)
    }

    /// Puts a number into a global, in the place of the number that stands there. False where none stands
    /// there, and then nothing is done.
    #[inline(always)]
    pub fn put_number(&mut self, home: u32, number: usize, value: u64) -> bool
        ensures exact { result ≡ is_some (number_in
            (slice_index_or (slice_index_or (values_in self.old) home []) number (Script None))) }
        ensures there { IsTrue result
            → HasNumber (slice_index_or (slice_index_or (values_in self.old) home []) number) }
        ensures put { IsTrue result → values_in self.new
            ≡ slice_set (values_in self.old) home
            (slice_set (slice_index_or (values_in self.old) home []) number (Bits value)) }
        ensures kept { result ≡ false → self.new ≡ self.old }
    {
        let home = home as usize;
        if home < self.modules.len() {
            return put_number_at(&mut self.modules[home], number, value);
        }
        false
    }
}

/// The number at an index, where one stands there.
#[inline(always)]
fn number_at(values: &[Slot], index: usize) -> Option<u64>
    ensures exact { result ≡ number_in (slice_index_or values.now index (Script None)) }
{
    if index < values.len() {
        match values[index] {
            Slot::Bits(n) => return Some(n),
            Slot::Script(_) => return None,
            Slot::Host(_, _) => return None,
        }
    }
    None
}

/// Puts a number in the place of a number, of which the bits alone are written. False where none stands there, and then
/// nothing is done.
#[inline(always)]
fn put_number_in_slot(slot: &mut Slot, value: u64) -> bool
    ensures exact { result ≡ is_some (number_in slot.old) }
    ensures put { IsTrue result → slot.new ≡ Bits value }
    ensures kept { result ≡ false → slot.new ≡ slot.old }
{
    match slot {
        Slot::Bits(bits) => {
            *bits = value;
            true
        }
        Slot::Script(_) | Slot::Host(_, _) => false,
    }
}

/// Puts a number in the place of the number at an index. False where none stands there, and then nothing is
/// done.
#[inline(always)]
fn put_number_at(values: &mut Vec<Slot>, index: usize, value: u64) -> bool
    ensures exact { result
        ≡ is_some (number_in (slice_index_or values.old.items index (Script None))) }
    ensures put { IsTrue result
        → values.new.items ≡ slice_set values.old.items index (Bits value) }
    ensures kept { result ≡ false → values.new ≡ values.old }
{
    if index < values.len() {
        return put_number_in_slot(&mut values[index], value);
    }
    false
}

/// Puts a number into a field of this object, where one stands there; whether it did.
#[inline(always)]
fn put_number_in(object: &mut ScriptObject, index: usize, value: u64) -> bool
    ensures exact { result
        ≡ is_some (number_in (slice_index_or object.old.fields.items index (Script None))) }
    ensures put { IsTrue result → record_of object.new
        ≡ record (record_of object.old) {
          fields
              = slice_set object.old.fields.items index (Bits value);
        } }
    ensures kept { result ≡ false → object.new ≡ object.old }
{
    put_number_at(&mut object.fields, index, value)
}

/// Puts a number into a field of the object of that number, where one stands there; whether it did.
#[inline(always)]
fn put_number_of(records: &mut Slab<ScriptObject>, number: usize, index: usize, value: u64) -> bool
    ensures exact { result ≡ is_some (number_in
        (field_of (map.get (objects_in records.old) number) index (Script None))) }
    ensures put { IsTrue result → objects_in records.new
        ≡ with_field number (map.get (objects_in records.old) number) index (Bits value)
        (objects_in records.old) }
    ensures kept { result ≡ false → records.new ≡ records.old }
{
    match records.get_mut(number) {
        Some(object) => put_number_in(object, index, value),
        None => false,
    }
}
