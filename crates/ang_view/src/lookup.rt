//! The types and enumerations of a registration list, by name.
ghost use Rattle.std.specs.Prelude.{◌≡◌, Some, None, IfSome, IfNone};
ghost use Rattle.ang_view.specs.Types as spec;

use crate::{Entry, EntryKind, View};
use ang_kinds::EntityNo;

/// A registered type: its number, and the driver that answers for it.
#[derive(Clone, Copy)]
pub struct FoundType {
    /// Its place in the registration list, from 0.
    pub number: EntityNo,
    /// The number of the driver that answers for its objects.
    pub driver: u32,
}

pub(crate) fn is_type_named(entry: &Option<Entry>, name: &[u8]) -> bool
    ensures exact { result ≡ spec.is_type_named name.now entry.now }
{
    match entry {
        None => false,
        Some(entry) => {
            matches!(entry.kind, EntryKind::HostType) && entry.signature.name.as_slice() == name
        }
    }
}

pub(crate) fn is_enumeration_named(entry: &Option<Entry>, name: &[u8]) -> bool
    ensures exact { result ≡ spec.is_enumeration_named name.now entry.now }
{
    match entry {
        None => false,
        Some(entry) => {
            matches!(entry.kind, EntryKind::Enumeration) && entry.signature.name.as_slice() == name
        }
    }
}

fn driver_of(list: &View, number: EntityNo) -> u32
    ensures exact { result ≡ spec.driver_at list.now (Some number.0) }
{
    match list.get(number) {
        None => 0,
        Some(entry) => entry.driver,
    }
}

/// The type of this name. It takes no memory.
pub fn find_type(list: &View, name: &[u8]) -> Option<FoundType>
    ensures number { IfSome result (λ t. spec.type_named list.now name.now ≡ Some t.number.0) }
    ensures driver { IfSome result (λ t. t.driver ≡ spec.driver_at list.now (Some t.number.0)) }
    ensures absent { IfNone result (spec.type_named list.now name.now ≡ None) }
{
    let number = list.find_type(name)?;
    Some(FoundType {
        number,
        driver: driver_of(list, number),
    })
}
