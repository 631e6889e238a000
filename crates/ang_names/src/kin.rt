//! The nearest of the classes of which one has methods, by the slots of these: where an interface asks for many, each is looked up,
//! and not looked for in all classes above.
ghost use Rattle.std.specs.Prelude.{◌≡◌, ◌==◌, ◌<◌, if◌then◌else◌, ℕ, None, Some, length, true, IfOk, slice_get};
ghost use Rattle.std.specs.List.{list_any};
ghost use Rattle.std.specs.Option.{option_or};
ghost use Rattle.ang_names.specs.Rows as spec;

use crate::heirs::{methods_of, order_of};
use crate::indexed::Indexed;
use ang_names_known::{Family, ScriptMethod};
use std::alloc::{AllocError, Global};

/// Looking for a method in a class takes as long as going through so many.
const LOOK_UP: usize = 4;

/// Whether a table has this slot, and nothing is noted there.
fn is_free(nearest: &[Option<u8>], slot: usize) -> bool
    ensures exact { result ≡ spec.is_free (slice_get nearest.now slot) }
    ensures within { result ≡ true → slot < length nearest.now }
{
    match nearest.get(slot) {
        None => false,
        Some(noted) => noted.is_none(),
    }
}

/// Notes a number at a slot, if the table has the slot and nothing is noted there.
fn note(nearest: &mut [Option<u8>], slot: usize, number: u8)
    ensures size { length nearest.new ≡ length nearest.old }
    ensures noted { (s : ℕ) → s < length nearest.old → spec.noted_at nearest.new s
        ≡ option_or (spec.noted_at nearest.old s) (if slot == s then Some number else None) }
{
    if is_free(nearest, slot) {
        nearest[slot] = Some(number);
    }
}

/// The same at the slots of these methods.
fn note_methods(nearest: &mut [Option<u8>], number: u8, methods: &[ScriptMethod])
    ensures size { length nearest.new ≡ length nearest.old }
    ensures noted { (s : ℕ) → s < length nearest.old → spec.noted_at nearest.new s
        ≡ option_or (spec.noted_at nearest.old s)
        (if list_any (λ m. m.slot == s) methods.now then Some number else None) }
{
    for method in methods {
        note(nearest, method.slot, number);
    }
}

/// The same with the numbers of these classes and interfaces, at the slots of the methods that each declares itself.
fn note_families(nearest: &mut [Option<u8>], families: &[Family], order: &[u8])
    ensures size { length nearest.new ≡ length nearest.old }
    ensures noted { (s : ℕ) → s < length nearest.old → spec.noted_at nearest.new s
        ≡ option_or (spec.noted_at nearest.old s)
        (spec.first_with_slot families.now s order.now) }
{
    for number in order {
        note_methods(nearest, *number, methods_of(families, *number as usize));
    }
}

/// How many methods there are in all. So many slots there can be: each is the number of a method.
fn slot_count(families: &[Family]) -> usize {
    let mut count: usize = 0;
    for family in families {
        count = count.saturating_add(family.methods.as_slice().len());
    }
    count
}

/// Of these classes and interfaces the first that declares a method of a slot, at each slot.
fn first_by_slot(
    alloc: Global,
    families: &[Family],
    order: &[u8],
) -> Result<Vec<Option<u8>>, AllocError>
    ensures exact { IfOk result (λ nearest. (s : ℕ) → s < length nearest.items
        → spec.noted_at nearest.items s ≡ spec.first_with_slot families.now s order.now) }
{
    let mut nearest = vec![in alloc; None; slot_count(families)]?;
    note_families(&mut nearest, families, order);
    Ok(nearest)
}

/// How many methods these classes and interfaces declare.
fn declared_count(families: &[Family], order: &[u8]) -> usize {
    let mut count: usize = 0;
    for number in order {
        count = count.saturating_add(methods_of(families, *number as usize).len());
    }
    count
}

/// Whether to look in each of these classes for so many methods takes less time than to go through all that they declare.
fn are_few(asked: usize, families: &[Family], order: &[u8]) -> bool {
    asked.saturating_mul(order.len()) < declared_count(families, order) / LOOK_UP
}

/// The numbers of the classes from which a class has its methods, at the slots of these. No slot has an entry where so few methods
/// are asked for that the table would take longer than to look for each.
///
/// The only error is want of memory.
pub fn nearest_by_slot(
    alloc: Global,
    families: &Indexed<'_>,
    class: usize,
    asked: usize,
) -> Result<Vec<Option<u8>>, AllocError>
    ensures exact { IfOk result (λ nearest.
        spec.HasNearest families.now class nearest.items) }
{
    let all = families.families();
    let order = order_of(all, class);
    if are_few(asked, all, order) {
        return Ok(Vec::new(alloc));
    }
    let nearest = first_by_slot(alloc, all, order)?;
    Ok(nearest)
}
