//! The types that a declaration names, by name and by driver.
ghost use Rattle.std.specs.Prelude.{◌≡◌, Some, map};
ghost use Rattle.std.specs.List.{list_all, list_any};
ghost use Rattle.ang_view.specs.Registration.{entry_at};
ghost use Rattle.ang_registry.specs.Among as foreign;
ghost use Rattle.ang_registry.specs.Types as spec;

use ang_kinds::{EntityNo, Param, Signature, TypeRef};
use ang_view::{Entry, EntryKind, View, spells};

/// The greatest number of a driver.
const LAST_DRIVER: u32 = 63;

/// Whether the list has an enumeration of the name.
pub fn has_enumeration(list: &View, name: &[u8]) -> bool
    ensures exact { result ≡ spec.has_enumeration list.now name.now }
{
    list.find_enumeration(name).is_some()
}

fn is_known(list: &View, ty: &TypeRef) -> bool
    ensures exact { result ≡ spec.is_known list.now ty.now }
{
    match ty {
        TypeRef::Void | TypeRef::Plain(_) => true,
        TypeRef::Enumeration { name } => has_enumeration(list, name.as_slice()),
        TypeRef::Object { name, .. } => list.find_type(name.as_slice()).is_some(),
    }
}

fn are_known(list: &View, params: &[Param]) -> bool
    ensures exact { result ≡ list_all (λ p. spec.is_known list.now p.ty) params.now }
{
    params.iter().all(|param| is_known(list, &param.ty))
}

/// Whether some type that the signature names is not registered.
#[tactic(auto, unfolding(crate::specs::Types::names_unknown))]
pub fn names_unknown(list: &View, signature: &Signature) -> bool
    ensures exact { result ≡ spec.names_unknown list.now signature.now }
{
    !(is_known(list, &signature.result) && are_known(list, signature.params.as_slice()))
}

fn is_type_of(entry: &Option<Entry>, driver: u32) -> bool
    ensures exact { result ≡ spec.is_type_of driver entry.now }
{
    match entry {
        None => false,
        Some(entry) => matches!(entry.kind, EntryKind::HostType) && entry.driver == driver,
    }
}

fn has_type(entries: &[Option<Entry>], driver: u32) -> bool
    ensures exact { result ≡ list_any (spec.is_type_of driver) entries.now }
{
    entries.iter().any(|entry| is_type_of(entry, driver))
}

/// Whether an entry is an object type of another driver that is spelled so.
fn is_foreign_spelled(entry: &Entry, ty: &TypeRef, driver: u32) -> bool
    ensures exact { result ≡ foreign.is_spelled_foreign driver ty.now (Some entry.now) }
{
    matches!(entry.kind, EntryKind::HostType)
        && spells(ty, entry.signature.name.as_slice())
        && entry.driver != driver
}

fn is_foreign_at(list: &View, number: EntityNo, ty: &TypeRef, driver: u32) -> bool
    ensures exact { result
        ≡ foreign.is_spelled_foreign driver ty.now (entry_at list.now number.0) }
{
    match list.get(number) {
        None => false,
        Some(entry) => is_foreign_spelled(entry, ty, driver),
    }
}

/// The entries of the name with which a type is spelled; none where it has none.
fn spelled<'a>(list: &'a View, ty: &TypeRef) -> &'a [EntityNo]
    ensures exact { map (λ number. number.0) result.now ≡ foreign.spelled list.now ty.now }
{
    match ty {
        TypeRef::Void | TypeRef::Plain(_) => &[],
        TypeRef::Enumeration { name } => list.find(name.as_slice()),
        TypeRef::Object { name, .. } => list.find(name.as_slice()),
    }
}

fn is_foreign_among(list: &View, numbers: &[EntityNo], ty: &TypeRef, driver: u32) -> bool
    ensures exact { result ≡ list_any
        (λ n. foreign.is_spelled_foreign driver ty.now (entry_at list.now n.0)) numbers.now }
{
    numbers
        .iter()
        .any(|number| is_foreign_at(list, *number, ty, driver))
}

/// Whether some object type of another driver is spelled so.
fn spells_foreign(list: &View, ty: &TypeRef, driver: u32) -> bool
    ensures exact { result ≡ list_any (foreign.is_spelled_foreign driver ty.now) list.now }
{
    is_foreign_among(list, spelled(list, ty), ty, driver)
}

fn any_foreign(list: &View, params: &[Param], driver: u32) -> bool
    ensures exact { result
        ≡ list_any (λ p. list_any (foreign.is_spelled_foreign driver p.ty) list.now) params.now }
{
    params
        .iter()
        .any(|param| spells_foreign(list, &param.ty, driver))
}

fn names_foreign(list: &View, signature: &Signature, driver: u32) -> bool
    ensures exact { result ≡ list_any (spec.is_foreign signature.now driver) list.now }
{
    let own = spells_foreign(list, &signature.result, driver);
    let others = any_foreign(list, signature.params.as_slice(), driver);
    own || others
}

/// Whether the entry can't be one of its driver's: the number is too great, it would be the driver's
/// second type, or it names an object type of another driver.
#[tactic(auto, unfolding(crate::specs::Types::is_wrong_driver))]
pub fn is_wrong_driver(list: &View, entry: &Entry) -> bool
    ensures exact { result
        ≡ spec.is_wrong_driver list.now entry.now.kind entry.now.driver entry.now.signature }
{
    entry.driver > LAST_DRIVER
        || (matches!(entry.kind, EntryKind::HostType) && has_type(list.entries(), entry.driver))
        || names_foreign(list, &entry.signature, entry.driver)
}
