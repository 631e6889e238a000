//! What a use would mean, where a hidden entry is added to what a module sees.
ghost use Rattle.std.specs.Prelude.{◌≡◌, not, ◌&&◌, List, IfOk, None, slice_index_or};
ghost use Rattle.ang_types.specs.declared.asks.Asks.TheVariants as asks_of;
ghost use Rattle.ang_types.specs.declared.candidate.Candidate.{Candidate};
ghost use Rattle.ang_names_known.specs.Kinds.{numbered};
ghost use Rattle.ang_view.specs.Named.{values_named};
ghost use Rattle.ang_view.specs.Registration.{entry_at, seen};
ghost use Rattle.ang_check_contest.specs.declared.host.WantedProperty.TheVariants as sought_property;
ghost use Rattle.ang_check_contest.specs.Added.{added_property};
ghost use Rattle.ang_check_contest.specs.Host.{property_found};
ghost use Rattle.ang_names_known.specs.Items.{is_empty};
ghost use Rattle.ang_names_known.specs.Spaces as spaces;
ghost use Rattle.ang_check_uses.specs.Uses.{candidates_of, functions_of};
ghost use Rattle.ang_check_denials.specs.Added as spec;
ghost use Rattle.ang_check_contest.specs.Told.{IsTable, table_of};
ghost use Rattle.ang_check_added.specs.Made as candidates;
ghost use Rattle.ang_check_denials.specs.Names.{types_named};
ghost use Rattle.ang_check_denials.specs.Others.{AreOthers};

use crate::beside::{Beside, makers_of};
use crate::masked::Masked;
use crate::named::{is_a_type_named, is_called_at, is_enumeration_named, named_with};
use ang_check_contest::{Rivalry, Scope, SeenProperty, Wanted, WantedProperty, property_at};
use ang_check_uses::takes_number;
use ang_kinds::EntityNo;
use ang_names_known::{BorrowedText, Named, Names, family_of_type};
use ang_types::{ArgType, Asks, Lineage};
use ang_view::{EntryKind, View};
use std::alloc::{AllocError, Global};

/// Whether the script has a global of this name.
fn has_global(names: &Names, name: &[u8]) -> bool
    ensures exact { result ≡ spec.has_global names.now.globals name.now }
{
    match names.global_named(name) {
        None => false,
        Some(number) => names.globals().get(number).is_some(),
    }
}

/// Of the property of the entry that is added, and of the one that is seen, the one of the lower number.
fn first_property(added: Option<SeenProperty>, seen: Option<SeenProperty>) -> Option<SeenProperty>
    ensures exact { result ≡ added_property added seen }
{
    match (added, seen) {
        (None, seen) => seen,
        (Some(added), None) => Some(added),
        (Some(added), Some(seen)) => {
            if added.entity.0 < seen.entity.0 {
                Some(added)
            } else {
                Some(seen)
            }
        }
    }
}

/// Whether a property is that of the entry of this number.
fn is_property_of(property: Option<SeenProperty>, number: u32) -> bool
    ensures exact { result ≡ spec.is_property_of number property }
{
    match property {
        None => false,
        Some(property) => property.entity.0 == number,
    }
}

/// Whether the property that is wanted would be that of the entry that is added, beside the one that is seen.
#[inline(never)]
fn property_wins(
    masked: &Masked<'_>,
    added: u32,
    wanted: &WantedProperty<'_>,
    seen: Option<SeenProperty>,
) -> bool
    ensures exact { result ≡ spec.property_wins masked.now.list added wanted.now seen }
{
    let found = property_at(masked.whole(), wanted, EntityNo(added));
    is_property_of(first_property(found, seen), added)
}

/// Whether the entry of this number is a value of this name, of some enumeration.
fn is_value_at(whole: &View, number: u32, name: &[u8]) -> bool
    ensures exact { result ≡ spec.is_value_at name.now number (entry_at whole.now number) }
{
    match whole.get(EntityNo(number)) {
        None => false,
        Some(entry) => {
            matches!(entry.kind, EntryKind::EnumValue(_))
                && entry.owner.is_some()
                && entry.signature.name.as_slice() == name
        }
    }
}

/// Whether no enumeration that is seen has a value of this name.
fn has_no_values(view: &View, name: &[u8]) -> bool
    ensures exact { result ≡ is_empty (values_named view.now name.now) }
{
    view.values(name).is_empty()
}

/// Whether a bare name that is no global of the script would mean the entry that is added: this property is what the name
/// means of the host, or else it is the only value of the name.
fn value_wins(
    masked: &Masked<'_>,
    scope: &Scope<'_>,
    name: &[u8],
    added: u32,
    property: Option<SeenProperty>,
) -> bool
    ensures exact { result
        ≡ spec.value_wins masked.now.list scope.now name.now added property }
{
    match property {
        Some(property) => property.entity.0 == added,
        None => { is_value_at(masked.whole(), added, name) && has_no_values(scope.view(), name) }
    }
}

/// Whether a bare name would mean the global property or the value that is added.
#[inline(never)]
fn value_means(
    masked: &Masked<'_>,
    scope: &Scope<'_>,
    added: u32,
    name: &[u8],
    seen: Option<SeenProperty>,
) -> bool
    ensures exact { result ≡ (not (spec.has_global scope.now.names.globals name.now)
        && spec.value_wins masked.now.list scope.now name.now added (added_property
        (property_found (sought_property.Global name.now) masked.now.list added
        (entry_at masked.now.list added)) seen)) }
{
    let wanted = WantedProperty::Global(BorrowedText::new(name));
    let found = property_at(masked.whole(), &wanted, EntityNo(added));
    !has_global(scope.names(), name)
        && value_wins(masked, scope, name, added, first_property(found, seen))
}

/// Whether a type's name would mean the type that is added.
#[inline(never)]
fn type_wins(
    masked: &Masked<'_>,
    scope: &Scope<'_>,
    added: u32,
    name: &[u8],
    beside: &Beside,
) -> bool
    requires view { scope.now.view ≡ seen masked.now.list masked.now.mask }
    requires named { beside.now.named.numbers.items ≡ types_named masked.now.list name.now }
    requires family { beside.now.named.family ≡ spec.family_of_name scope.now name.now }
    ensures exact { result ≡ spec.adds masked.now.list scope.now name.now added
        (spec.named_with masked.now.list masked.now.mask scope.now added name.now) asks_of.Type }
{
    is_a_type_named(masked.whole(), added, name)
        && is_number_of(added, named_with(masked, scope, added, name, &beside.named))
}

fn is_number_of(number: u32, named: Named) -> bool
    ensures exact { result ≡ spec.is_number_of number named }
{
    match named {
        Named::Unknown => false,
        Named::Object(own) | Named::Enumeration(own) => own == number,
    }
}

/// Whether the name of an enumeration, in front of `::`, would mean the one that is added.
#[inline(never)]
fn enumeration_wins(
    masked: &Masked<'_>,
    scope: &Scope<'_>,
    added: u32,
    name: &[u8],
    beside: &Beside,
) -> bool
    requires view { scope.now.view ≡ seen masked.now.list masked.now.mask }
    requires named { beside.now.named.numbers.items ≡ types_named masked.now.list name.now }
    requires family { beside.now.named.family ≡ spec.family_of_name scope.now name.now }
    ensures exact { result ≡ spec.adds masked.now.list scope.now name.now added
        (spec.named_with masked.now.list masked.now.mask scope.now added name.now)
        asks_of.Enumeration }
{
    is_enumeration_named(masked.whole(), added, name)
        && is_enumeration_number(added, named_with(masked, scope, added, name, &beside.named))
}

fn is_enumeration_number(number: u32, named: Named) -> bool
    ensures exact { result ≡ spec.is_enumeration_number number named }
{
    match named {
        Named::Unknown | Named::Object(_) => false,
        Named::Enumeration(own) => own == number,
    }
}

/// Whether the function, factory or method that is added, where it is wanted, would be the best of all.
#[inline(never)]
fn wins(
    masked: &Masked<'_>,
    lineage: &Lineage,
    added: u32,
    wanted: &Wanted<'_>,
    rivals: &Rivalry,
    types: &[ArgType],
    table: &Option<Vec<Vec<Option<u8>>>>,
) -> bool
    requires table { IsTable lineage.now (numbered 0 masked.now.kinds) types.now
        (table_of table.now) }
    ensures exact { (cs : List Candidate) → AreOthers rivals.now lineage.now cs types.now →
        result ≡ spec.wins lineage.now (candidates.candidate_of wanted.now) cs types.now
        (candidates.found_in masked.now.list added wanted.now) }
{
    let Some(candidate) = masked.candidate(wanted, added) else {
        return false;
    };
    let params = candidate.params.as_slice();
    rivals.would_win(lineage, params, types, table, masked.row(added))
}

/// Whether the entry of this number, as a candidate, would be the best of all.
#[inline(always)]
pub fn made_wins(
    masked: &Masked<'_>,
    lineage: &Lineage,
    added: u32,
    rivals: &Rivalry,
    types: &[ArgType],
    table: &Option<Vec<Vec<Option<u8>>>>,
) -> bool
    requires table { IsTable lineage.now (numbered 0 masked.now.kinds) types.now
        (table_of table.now) }
    ensures exact { (cs : List Candidate) → AreOthers rivals.now lineage.now cs types.now →
        result ≡ candidates.is_won lineage.now cs types.now
        (slice_index_or (candidates.made masked.now.list) added None) }
{
    let Some(candidate) = masked.made(added) else {
        return false;
    };
    let params = candidate.params.as_slice();
    rivals.would_win(lineage, params, types, table, masked.row(added))
}

/// Whether the factory that is added would be the best that makes an object of the type of this number.
fn factory_wins(
    alloc: Global,
    masked: &Masked<'_>,
    scope: &Scope<'_>,
    added: u32,
    number: u32,
    beside: &Beside,
    table: &Option<Vec<Vec<Option<u8>>>>,
) -> Result<bool, AllocError>
    requires makers { AreOthers beside.now.makers scope.now.ancestors
        (spec.factories scope.now.view beside.now.made) beside.now.types.items }
    requires table { IsTable scope.now.ancestors (numbered 0 masked.now.kinds)
        beside.now.types.items (table_of table.now) }
    ensures exact { IfOk result (λ won. won ≡ spec.factory_wins masked.now.list scope.now
        beside.now.types.items added number (spaces.family_of_type number)) }
{
    if family_of_type(number).is_some() {
        return Ok(false);
    }
    let types = beside.types.as_slice();
    let lineage = scope.lineage();
    let wanted = Wanted::Factory(number);
    if number == beside.made {
        let makers = &beside.makers;
        return Ok(wins(masked, lineage, added, &wanted, makers, types, table));
    }
    let makers = makers_of(alloc, scope, number, types)?;
    Ok(wins(masked, lineage, added, &wanted, &makers, types, table))
}

/// Whether a call of a name would mean the entry that is added, which is a function, a factory or an enumeration.
#[inline(never)]
fn call_wins(
    alloc: Global,
    masked: &Masked<'_>,
    scope: &Scope<'_>,
    added: u32,
    name: &[u8],
    beside: &Beside,
    table: &Option<Vec<Vec<Option<u8>>>>,
) -> Result<bool, AllocError>
    requires view { scope.now.view ≡ seen masked.now.list masked.now.mask }
    requires rivals { AreOthers beside.now.rivals scope.now.ancestors
        (candidates_of (functions_of scope.now name.now)) beside.now.types.items }
    requires makers { AreOthers beside.now.makers scope.now.ancestors
        (spec.factories scope.now.view beside.now.made) beside.now.types.items }
    requires named { beside.now.named.numbers.items ≡ types_named masked.now.list name.now }
    requires family { beside.now.named.family ≡ spec.family_of_name scope.now name.now }
    requires table { IsTable scope.now.ancestors (numbered 0 masked.now.kinds)
        beside.now.types.items (table_of table.now) }
    ensures exact { IfOk result (λ won. won ≡ spec.call_wins masked.now.list scope.now name.now
        beside.now.types.items added
        (spec.named_with masked.now.list masked.now.mask scope.now added name.now)) }
{
    let types = beside.types.as_slice();
    match named_with(masked, scope, added, name, &beside.named) {
        Named::Object(number) => factory_wins(alloc, masked, scope, added, number, beside, table),
        Named::Enumeration(number) => Ok(number == added && takes_number(types)),
        Named::Unknown => {
            let wanted = Wanted::Function(BorrowedText::new(name));
            let lineage = scope.lineage();
            let rivals = &beside.rivals;
            Ok(wins(masked, lineage, added, &wanted, rivals, types, table))
        }
    }
}

/// Whether a call of a name would mean the entry that is added: most entries are neither functions or enumerations of the
/// name nor factories of a type of it.
fn call_means(
    alloc: Global,
    masked: &Masked<'_>,
    scope: &Scope<'_>,
    added: u32,
    name: &[u8],
    beside: &Beside,
    table: &Option<Vec<Vec<Option<u8>>>>,
) -> Result<bool, AllocError>
    requires view { scope.now.view ≡ seen masked.now.list masked.now.mask }
    requires rivals { AreOthers beside.now.rivals scope.now.ancestors
        (candidates_of (functions_of scope.now name.now)) beside.now.types.items }
    requires makers { AreOthers beside.now.makers scope.now.ancestors
        (spec.factories scope.now.view beside.now.made) beside.now.types.items }
    requires named { beside.now.named.numbers.items ≡ types_named masked.now.list name.now }
    requires family { beside.now.named.family ≡ spec.family_of_name scope.now name.now }
    requires table { IsTable scope.now.ancestors (numbered 0 masked.now.kinds)
        beside.now.types.items (table_of table.now) }
    ensures exact { IfOk result (λ won. won ≡ (spec.is_called_by masked.now.list name.now added
        && spec.call_wins masked.now.list scope.now name.now beside.now.types.items added
        (spec.named_with masked.now.list masked.now.mask scope.now added name.now))) }
{
    if is_called_at(masked.whole(), name, added) {
        call_wins(alloc, masked, scope, added, name, beside, table)
    } else {
        Ok(false)
    }
}

/// Whether a use of this name would mean the entry that is added to what a module sees, where `beside` is what is kept
/// for that use. The only error is want of memory.
pub fn adds(
    alloc: Global,
    masked: &Masked<'_>,
    scope: &Scope<'_>,
    name: &[u8],
    asks: &Asks,
    beside: &Beside,
    added: u32,
    table: &Option<Vec<Vec<Option<u8>>>>,
) -> Result<bool, AllocError>
    requires view { scope.now.view ≡ seen masked.now.list masked.now.mask }
    requires rivals { AreOthers beside.now.rivals scope.now.ancestors
        (spec.candidates_for scope.now name.now asks.now) beside.now.types.items }
    requires types { beside.now.types.items ≡ spec.types_of asks.now }
    requires property { beside.now.property ≡ spec.property_for scope.now name.now asks.now }
    requires makers { AreOthers beside.now.makers scope.now.ancestors
        (spec.factories scope.now.view beside.now.made) beside.now.types.items }
    requires named { beside.now.named.numbers.items ≡ types_named masked.now.list name.now }
    requires family { beside.now.named.family ≡ spec.family_of_name scope.now name.now }
    requires table { IsTable scope.now.ancestors (numbered 0 masked.now.kinds)
        beside.now.types.items (table_of table.now) }
    ensures exact { IfOk result (λ won. won ≡ spec.adds masked.now.list scope.now name.now added
        (spec.named_with masked.now.list masked.now.mask scope.now added name.now) asks.now) }
{
    let lineage = scope.lineage();
    let rivals = &beside.rivals;
    let types = beside.types.as_slice();
    match asks {
        Asks::Value => Ok(value_means(masked, scope, added, name, beside.property)),
        Asks::Type => Ok(type_wins(masked, scope, added, name, beside)),
        Asks::Enumeration => Ok(enumeration_wins(masked, scope, added, name, beside)),
        Asks::Call(_) => call_means(alloc, masked, scope, added, name, beside, table),
        Asks::Make(number, _) | Asks::Default(number) => {
            let wanted = Wanted::Factory(*number);
            Ok(wins(masked, lineage, added, &wanted, rivals, types, table))
        }
        Asks::Property(number) => {
            let wanted = WantedProperty::Member(*number, BorrowedText::new(name));
            Ok(property_wins(masked, added, &wanted, beside.property))
        }
        Asks::Method(number, _, _) => {
            let wanted = Wanted::Method(*number, BorrowedText::new(name));
            Ok(wins(masked, lineage, added, &wanted, rivals, types, table))
        }
    }
}
