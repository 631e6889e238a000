//! What comes with each entry where it is added, of that whose own mask does not meet a module's: the entry, and the types
//! that its declaration names.
ghost use Rattle.std.specs.Prelude.{◌≡◌, ◌++◌, ◌∷◌, [], if◌then◌else◌, IfOk, OnOk, Some, filter, map as list_map};
ghost use Rattle.std.specs.List.{flat_map};
ghost use Rattle.ang_view.specs.Hidden as views;
ghost use Rattle.ang_view.specs.Named.{find, is_type_entry};
ghost use Rattle.ang_view.specs.Registration.{entry_at};
ghost use Rattle.ang_view.specs.Registration as registration;
ghost use Rattle.ang_check_added.specs.Brought as spec;

use ang_kinds::{EntityNo, Mask, Param, TypeRef};
use ang_names_known::KindRows;
use ang_view::{Entry, EntryKind, View, spells};
use std::alloc::{AllocError, Global};

/// Puts a number at the end, where it is kept.
pub fn push_kept(numbers: &mut Vec<u32>, keeps: bool, number: u32) -> Result<(), AllocError>
    ensures pushed { OnOk result (numbers.new.items
        ≡ numbers.old.items ++ (if keeps then number ∷ [] else [])) }
{
    if keeps {
        numbers.push(number)?;
    }
    Ok(())
}

fn is_type(entry: &Entry) -> bool
    ensures exact { result ≡ registration.is_type entry.now.kind }
{
    matches!(entry.kind, EntryKind::HostType | EntryKind::Enumeration)
}

/// Whether the entry of this number is an object type or an enumeration.
fn is_type_at(whole: &View, number: u32) -> bool
    ensures exact { result ≡ is_type_entry (entry_at whole.now number) }
{
    match whole.get(EntityNo(number)) {
        None => false,
        Some(entry) => is_type(entry),
    }
}

/// The numbers of all object types and enumerations of a list, rising. The only error is want of memory.
pub fn all_types(alloc: Global, whole: &View) -> Result<Vec<u32>, AllocError>
    ensures exact { IfOk result (λ numbers. numbers.items ≡ spec.all_types whole.now) }
{
    let mut numbers = Vec::new(alloc);
    for number in 0..whole.len() as u32 {
        push_kept(&mut numbers, is_type_at(whole, number), number)?;
    }
    Ok(numbers)
}

/// Whether the entry of this number is there, and its own mask does not meet this one.
fn is_unmet(whole: &View, mask: Mask, number: u32) -> bool
    ensures exact { result ≡ views.is_unmet whole.now mask.0 number }
{
    match whole.get(EntityNo(number)) {
        None => false,
        Some(entry) => !entry.mask.meets(mask),
    }
}

/// Whether the entry of this number is a type that is spelled so, and its own mask does not meet this one.
fn is_unmet_type(whole: &View, mask: Mask, ty: &TypeRef, number: u32) -> bool
    ensures exact { result ≡ spec.is_unmet_type whole.now mask.0 ty.now number }
{
    match whole.get(EntityNo(number)) {
        None => false,
        Some(entry) => {
            !entry.mask.meets(mask) && is_type(entry) && spells(ty, entry.signature.name.as_slice())
        }
    }
}

/// Puts the types that are spelled so, by this name, at the end.
fn push_found(
    numbers: &mut Vec<u32>,
    whole: &View,
    mask: Mask,
    ty: &TypeRef,
    name: &[u8],
) -> Result<(), AllocError>
    ensures pushed { OnOk result (numbers.new.items ≡ numbers.old.items
        ++ filter (spec.is_unmet_type whole.now mask.0 ty.now) (find whole.now name.now)) }
{
    let found = whole.find(name);
    for number in found {
        let keeps = is_unmet_type(whole, mask, ty, number.0);
        push_kept(numbers, keeps, number.0)?;
    }
    Ok(())
}

/// Puts the types that are spelled so at the end.
fn push_spelled(
    numbers: &mut Vec<u32>,
    whole: &View,
    mask: Mask,
    ty: &TypeRef,
) -> Result<(), AllocError>
    ensures pushed { OnOk result (numbers.new.items
        ≡ numbers.old.items ++ spec.unmet_spelled whole.now mask.0 ty.now) }
{
    match ty {
        TypeRef::Void | TypeRef::Plain(_) => Ok(()),
        TypeRef::Enumeration { name } | TypeRef::Object { name, .. } => push_found(
            numbers,
            whole,
            mask,
            ty,
            name.as_slice(),
        ),
    }
}

/// Puts the types of these parameters at the end.
fn push_params(
    numbers: &mut Vec<u32>,
    whole: &View,
    mask: Mask,
    params: &[Param],
) -> Result<(), AllocError>
    ensures pushed { OnOk result (numbers.new.items ≡ numbers.old.items
        ++ flat_map (λ p. spec.unmet_spelled whole.now mask.0 p.ty) params.now) }
{
    for param in params {
        push_spelled(numbers, whole, mask, &param.ty)?;
    }
    Ok(())
}

/// Puts the own type of an entry at the end.
fn push_owner(
    numbers: &mut Vec<u32>,
    whole: &View,
    mask: Mask,
    owner: Option<EntityNo>,
) -> Result<(), AllocError>
    ensures pushed { OnOk result (numbers.new.items
        ≡ numbers.old.items ++ spec.unmet_owner whole.now mask.0 owner) }
{
    match owner {
        None => Ok(()),
        Some(EntityNo(number)) => {
            let keeps = is_unmet(whole, mask, number) && is_type_at(whole, number);
            push_kept(numbers, keeps, number)
        }
    }
}

/// Puts the types that the declaration of an entry names at the end.
fn push_named(
    numbers: &mut Vec<u32>,
    whole: &View,
    mask: Mask,
    entry: &Entry,
) -> Result<(), AllocError>
    ensures pushed { OnOk result (numbers.new.items
        ≡ numbers.old.items ++ spec.unmet_named whole.now mask.0 (Some entry.now)) }
{
    if is_type(entry) {
        return Ok(());
    }
    push_owner(numbers, whole, mask, entry.owner)?;
    push_spelled(numbers, whole, mask, &entry.signature.result)?;
    push_params(numbers, whole, mask, entry.signature.params.as_slice())
}

/// Puts what comes with the entry of this number at the end.
#[tactic(auto, unfolding(crate::specs::Brought::brought))]
fn push_brought(
    numbers: &mut Vec<u32>,
    whole: &View,
    mask: Mask,
    number: u32,
) -> Result<(), AllocError>
    ensures pushed { OnOk result (numbers.new.items
        ≡ numbers.old.items ++ spec.brought whole.now mask.0 number) }
{
    push_kept(numbers, is_unmet(whole, mask, number), number)?;
    match whole.get(EntityNo(number)) {
        None => Ok(()),
        Some(entry) => push_named(numbers, whole, mask, entry),
    }
}

/// Puts the row of the entry of this number at the end. `row` is room for it.
fn push_row(
    rows: &mut KindRows,
    row: &mut Vec<u32>,
    whole: &View,
    mask: Mask,
    number: u32,
) -> Result<(), AllocError>
    ensures pushed { OnOk result
        (rows.new ≡ rows.old ++ Some (spec.brought whole.now mask.0 number) ∷ []) }
{
    row.clear();
    push_brought(row, whole, mask, number)?;
    rows.push(row.as_slice())
}

/// What comes with each entry of a list, of that whose own mask does not meet this one: a row of numbers for each, in any
/// order. The only error is want of memory.
pub fn brought_rows(alloc: Global, whole: &View, mask: Mask) -> Result<KindRows, AllocError>
    ensures exact { IfOk result (λ rows. rows ≡ spec.all_brought whole.now mask.0) }
{
    let mut rows = KindRows::new(alloc);
    let mut row = Vec::new(alloc);
    for number in 0..whole.len() as u32 {
        push_row(&mut rows, &mut row, whole, mask, number)?;
    }
    Ok(rows)
}

/// The numbers of the row at a place, none past the end.
pub fn numbers_at(rows: &KindRows, number: u32) -> &[u32]
    ensures exact { result.now ≡ spec.numbers_at rows.now number }
{
    match rows.row(number as usize) {
        None => &[],
        Some(numbers) => numbers,
    }
}

/// Whether a number is the only one of a row.
fn is_only(number: u32, row: &[u32]) -> bool
    ensures exact { result ≡ spec.is_only number row.now }
{
    match row {
        [only] => *only == number,
        _ => false,
    }
}

/// For each entry of a list whether it is the only one of its row, of the rows of what comes with each. The only error is want
/// of memory.
pub fn alone_marks(alloc: Global, whole: &View, rows: &KindRows) -> Result<Vec<bool>, AllocError>
    ensures exact { IfOk result (λ marks. marks.items ≡ list_map
        (λ n. spec.is_only n (spec.numbers_at rows.now n)) (views.numbers_of whole.now)) }
{
    let mut marks = Vec::new(alloc);
    for number in 0..whole.len() as u32 {
        let is_alone = is_only(number, numbers_at(rows, number));
        marks.push(is_alone)?;
    }
    Ok(marks)
}
