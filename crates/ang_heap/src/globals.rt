//! The globals.
ghost use Rattle.std.specs.Prelude.{◌≡◌, [], slice_index_or, slice_set};
ghost use Rattle.ang_heap.specs.Globals.{values_in};

use ang_meaning::Slot;

/// The values of all globals, by module and number.
#[derive(Drop)]
pub struct Globals {
    /// The values of each module's globals. Each list has a box, so that its place is found without a product, which the
    /// loop over a body's steps would carry through all of them.
    pub modules: Vec<Box<Vec<Slot>>>,
}

impl Globals {
    /// The value of a global, and `other` where there is none.
    #[inline(always)]
    pub fn get_or(&self, home: u32, number: usize, other: Slot) -> Slot
        ensures exact { result
            ≡ slice_index_or (slice_index_or (values_in self.now) home []) number other }
    {
        value_or(values_of(self, home), number, other)
    }

    /// Puts a value into a global, where there is one.
    #[inline(always)]
    pub fn put(&mut self, home: u32, number: usize, value: Slot)
        ensures put { values_in self.new
            ≡ slice_set (values_in self.old) home
            (slice_set (slice_index_or (values_in self.old) home []) number value) }
    {
        let home = home as usize;
        if home < self.modules.len() {
            put_at(&mut self.modules[home], number, value);
        }
    }
}

/// The globals of a module, none where there is no such module.
#[inline(always)]
pub(crate) fn values_of(globals: &Globals, home: u32) -> &[Slot]
    ensures exact { result.now ≡ slice_index_or (values_in globals.now) home [] }
{
    match globals.modules.get(home as usize) {
        Some(module) => module,
        None => &[],
    }
}

/// The value of that number, and `other` where there is none.
#[inline(always)]
fn value_or(values: &[Slot], number: usize, other: Slot) -> Slot
    ensures exact { result ≡ slice_index_or values.now number other }
{
    match values.get(number) {
        Some(value) => *value,
        None => other,
    }
}

/// Puts a value in the place of that number, where there is one.
#[inline(always)]
fn put_at(values: &mut Vec<Slot>, number: usize, value: Slot)
    ensures put { values.new.items ≡ slice_set values.old.items number value }
{
    if number < values.len() {
        values[number] = value;
    }
}
