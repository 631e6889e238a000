//! The numbers of entries by name, those of members and factories by type, and those of values by their own names.
ghost use Rattle.std.specs.Prelude.{◌≡◌, ◌≤◌, ◌+◌, ◌*◌, ◌==◌, ℕ, length, IfOk, OnErr, OnOk};
ghost use Rattle.std.specs.List.{position};
ghost use Rattle.ang_index.specs.Rows.{Rows};
ghost use Rattle.ang_kinds.specs.declared.mask.EntityNo.{EntityNo};
ghost use Rattle.ang_view.specs.Named as spec;
ghost use Rattle.ang_view.specs.Blanks as blanks;

use crate::{Entry, EntryKind};
use ang_index::Index;
use ang_kinds::EntityNo;
use std::alloc::{AllocError, Global};

/// The scope of what is used by its name alone.
pub(crate) const BARE: u64 = 0;

/// The scope of the members of a type, and of the values of an enumeration.
pub(crate) fn member_scope(ty: EntityNo) -> u64
    ensures exact { result ≡ 2 * ty.0 + 1 }
{
    2 * ty.0 as u64 + 1
}

/// The scope of the factories of a type.
pub(crate) fn maker_scope(ty: EntityNo) -> u64
    ensures exact { result ≡ 2 * ty.0 + 2 }
{
    2 * ty.0 as u64 + 2
}

fn scope_of(entry: &Entry) -> Option<u64>
    ensures exact { result ≡ spec.scope_by entry.now.kind entry.now.owner }
{
    match entry.kind {
        EntryKind::HostType | EntryKind::Function | EntryKind::Global | EntryKind::Enumeration =>
            Some(BARE),
        EntryKind::Method | EntryKind::Property | EntryKind::EnumValue(_) => {
            Some(member_scope(entry.owner?))
        }
        EntryKind::Factory => Some(maker_scope(entry.owner?)),
    }
}

/// The scope in which an entry stands.
fn scope_in(entry: &Option<Entry>) -> Option<u64>
    ensures exact { result ≡ spec.scope_in entry.now }
{
    let Some(entry) = entry else {
        return None;
    };
    scope_of(entry)
}

/// The scope in which an entry stands in the index of values: none but values stand there.
fn value_scope_in(entry: &Option<Entry>) -> Option<u64>
    ensures exact { result ≡ spec.value_scope_in entry.now }
{
    match entry.as_ref()?.kind {
        EntryKind::EnumValue(_) => Some(BARE),
        _ => None,
    }
}

fn name_of(entry: &Entry) -> &[u8]
    ensures exact { result.now ≡ spec.name_by entry.now.kind entry.now.signature.name }
{
    match entry.kind {
        EntryKind::HostType | EntryKind::Function | EntryKind::Global | EntryKind::Enumeration =>
            entry.signature.name.as_slice(),
        EntryKind::Method | EntryKind::Property | EntryKind::EnumValue(_) => {
            entry.signature.name.as_slice()
        }
        EntryKind::Factory => &[],
    }
}

/// The name by which an entry stands in its scope.
fn name_in(entry: &Option<Entry>) -> &[u8]
    ensures exact { result.now ≡ spec.name_in entry.now }
{
    match entry {
        None => &[],
        Some(entry) => name_of(entry),
    }
}

/// Puts the number of an entry in, where it stands in a scope. After want of memory all is as before.
///
/// The only error is want of memory.
#[tactic(auto, using(crate::proofs::Named::entry_put, crate::proofs::Named::entry_not_put))]
pub(crate) fn push_entry(
    alloc: Global,
    index: &mut Index<EntityNo>,
    entry: &Option<Entry>,
    number: EntityNo,
) -> Result<(), AllocError>
    ensures pushed { OnOk result
        (spec.PutsEntry spec.scope_in index.old index.new entry.now number.0) }
    ensures unchanged { OnErr result (index.new ≡ index.old) }
{
    if let Some(scope) = scope_in(entry) {
        index.push(alloc, scope, name_in(entry), number)?;
    }
    Ok(())
}

/// Puts the number of a value in; of any other entry nothing. After want of memory all is as before.
///
/// The only error is want of memory.
#[tactic(auto, using(crate::proofs::Named::entry_put, crate::proofs::Named::entry_not_put))]
fn push_value(
    alloc: Global,
    values: &mut Index<EntityNo>,
    entry: &Option<Entry>,
    number: EntityNo,
) -> Result<(), AllocError>
    ensures pushed { OnOk result
        (spec.PutsEntry spec.value_scope_in values.old values.new entry.now number.0) }
    ensures unchanged { OnErr result (values.new ≡ values.old) }
{
    if let Some(scope) = value_scope_in(entry) {
        values.push(alloc, scope, name_in(entry), number)?;
    }
    Ok(())
}

/// Takes the number of an entry out again, which was put in last.
#[tactic(auto, using(crate::proofs::Named::entry_not_taken))]
fn take_entry(index: &mut Index<EntityNo>, entry: &Option<Entry>)
    ensures taken { (before : Rows EntityNo) (number : ℕ) →
        spec.PutsEntry spec.scope_in before index.old entry.now number →
        spec.FindsSame before index.new }
{
    if let Some(scope) = scope_in(entry) {
        index.pop(scope, name_in(entry));
    }
}

/// Puts the number of an entry into both indexes. After want of memory both find what they found before.
///
/// The only error is want of memory.
pub(crate) fn push_names(
    alloc: Global,
    index: &mut Index<EntityNo>,
    values: &mut Index<EntityNo>,
    entry: &Option<Entry>,
    number: EntityNo,
) -> Result<(), AllocError>
    ensures pushed { OnOk result
        (spec.PutsEntry spec.scope_in index.old index.new entry.now number.0) }
    ensures pushed_value { OnOk result
        (spec.PutsEntry spec.value_scope_in values.old values.new entry.now number.0) }
    ensures same { OnErr result (spec.FindsSame index.old index.new) }
    ensures unchanged { OnErr result (values.new ≡ values.old) }
{
    push_entry(alloc, index, entry, number)?;
    if let Err(error) = push_value(alloc, values, entry, number) {
        take_entry(index, entry);
        return Err(error);
    }
    Ok(())
}

/// The first place at which a number stands.
fn place_of(numbers: &[EntityNo], number: EntityNo) -> Option<usize>
    ensures exact { result ≡ position (λ (e : EntityNo). e.0 == number.0) numbers.now }
{
    numbers.iter().position(|other| other.0 == number.0)
}

/// Takes a number out of those that stand under a scope and a name, where it is one of them.
#[tactic(auto, using(crate::proofs::Blanking::place_within))]
fn take_number(index: &mut Index<EntityNo>, scope: u64, name: &[u8], number: EntityNo)
    ensures taken { blanks.TakesOut index.old index.new scope name.now number.0 }
{
    if let Some(place) = place_of(index.find(scope, name), number) {
        index.remove(scope, name, place);
    }
}

/// Takes the number of an entry out, where it stands in a scope.
#[tactic(auto, using(crate::proofs::Blanking::entry_blanked, crate::proofs::Blanking::nothing_blanked))]
fn take_indexed(index: &mut Index<EntityNo>, entry: &Option<Entry>, number: EntityNo)
    ensures taken { blanks.TakesEntry spec.scope_in index.old index.new entry.now number.0 }
{
    if let Some(scope) = scope_in(entry) {
        take_number(index, scope, name_in(entry), number);
    }
}

/// Takes the number of a value out; of any other entry nothing.
#[tactic(auto, using(crate::proofs::Blanking::entry_blanked, crate::proofs::Blanking::nothing_blanked))]
fn take_value(values: &mut Index<EntityNo>, entry: &Option<Entry>, number: EntityNo)
    ensures taken { blanks.TakesEntry spec.value_scope_in values.old values.new entry.now
        number.0 }
{
    if let Some(scope) = value_scope_in(entry) {
        take_number(values, scope, name_in(entry), number);
    }
}

/// Takes the number of an entry out of both indexes, as it becomes a blank. It takes no memory.
pub(crate) fn take_names(
    index: &mut Index<EntityNo>,
    values: &mut Index<EntityNo>,
    entry: &Option<Entry>,
    number: EntityNo,
)
    ensures taken { blanks.TakesEntry spec.scope_in index.old index.new entry.now number.0 }
    ensures taken_value { blanks.TakesEntry spec.value_scope_in values.old values.new entry.now
        number.0 }
{
    take_indexed(index, entry, number);
    take_value(values, entry, number);
}

/// The numbers of all entries.
///
/// The only error is want of memory.
pub(crate) fn index_of(
    alloc: Global,
    entries: &[Option<Entry>],
) -> Result<Index<EntityNo>, AllocError>
    requires few { length entries.now ≤ 1024 }
    ensures exact { IfOk result (λ index. spec.Indexes spec.scope_in entries.now index) }
{
    let mut index = Index::new(alloc);
    for (number, entry) in entries.iter().enumerate() {
        push_entry(alloc, &mut index, entry, EntityNo(number as u32))?;
    }
    Ok(index)
}

/// The numbers of all values.
///
/// The only error is want of memory.
pub(crate) fn values_of(
    alloc: Global,
    entries: &[Option<Entry>],
) -> Result<Index<EntityNo>, AllocError>
    requires few { length entries.now ≤ 1024 }
    ensures exact { IfOk result (λ values. spec.Indexes spec.value_scope_in entries.now values) }
{
    let mut values = Index::new(alloc);
    for (number, entry) in entries.iter().enumerate() {
        push_value(alloc, &mut values, entry, EntityNo(number as u32))?;
    }
    Ok(values)
}
