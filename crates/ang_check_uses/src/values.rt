//! Values of the host's enumerations, and what converts to one.
ghost use Rattle.std.specs.Prelude.{◌≡◌, map as list_map};
ghost use Rattle.ang_check_uses.specs.Uses as spec;

use crate::uses::{EnumerationValue, Resolution};
use ang_kinds::{EntityNo, ErrorKind, Prim};
use ang_types::ArgType;
use ang_view::{Entry, EntryKind, View};

/// The entry of this number as a value of the enumeration that it names.
fn value_in(number: EntityNo, entry: &Entry) -> Option<EnumerationValue>
    ensures exact { result ≡ spec.value_by number.0 entry.now.kind entry.now.owner }
{
    match entry.kind {
        EntryKind::HostType
        | EntryKind::Factory
        | EntryKind::Method
        | EntryKind::Property
        | EntryKind::Function
        | EntryKind::Global
        | EntryKind::Enumeration => None,
        EntryKind::EnumValue(value) => {
            let owner = entry.owner?;
            Some(EnumerationValue {
                entity: number,
                enumeration: owner.0,
                number: value,
            })
        }
    }
}

fn value_at(view: &View, number: EntityNo) -> Option<EnumerationValue>
    ensures exact { result ≡ spec.value_at view.now number.0 }
{
    match view.get(number) {
        None => None,
        Some(entry) => value_in(number, entry),
    }
}

fn first_value(view: &View, numbers: &[EntityNo]) -> Option<EnumerationValue>
    ensures exact { result
        ≡ spec.first_value view.now (list_map (λ number. number.0) numbers.now) }
{
    match numbers.first() {
        None => None,
        Some(number) => value_at(view, *number),
    }
}

/// The value of this name of the enumeration of this number, where the module sees it. It takes no memory.
#[tactic(auto, unfolding(crate::specs::Uses::value_of))]
pub fn value_of(view: &View, enumeration: u32, name: &[u8]) -> Option<EnumerationValue>
    ensures exact { result ≡ spec.value_of view.now enumeration name.now }
{
    first_value(view, view.members(EntityNo(enumeration), name))
}

fn one_value(value: Option<EnumerationValue>) -> Resolution
    ensures exact { result ≡ spec.one_value value }
{
    match value {
        None => Resolution::Refused(ErrorKind::UnknownName),
        Some(value) => Resolution::Value(value),
    }
}

fn value_among(view: &View, numbers: &[EntityNo]) -> Resolution
    ensures exact { result
        ≡ spec.value_among view.now (list_map (λ number. number.0) numbers.now) }
{
    match numbers {
        [] => Resolution::Refused(ErrorKind::UnknownName),
        [number] => one_value(value_at(view, *number)),
        _ => Resolution::Refused(ErrorKind::Ambiguous),
    }
}

/// The value of this name of the one enumeration that has it, among those that the module sees. It takes no memory.
#[tactic(auto, unfolding(crate::specs::Uses::value_meant))]
pub(crate) fn value_meant(view: &View, name: &[u8]) -> Resolution
    ensures exact { result ≡ spec.value_meant view.now name.now }
{
    value_among(view, view.values(name))
}

fn is_numeric(ty: ArgType) -> bool
    ensures exact { result ≡ spec.is_numeric ty }
{
    match ty {
        ArgType::Plain(Prim::Bool) => false,
        ArgType::Plain(_) | ArgType::Enumeration { .. } => true,
        ArgType::Void | ArgType::Null | ArgType::Object { .. } | ArgType::Handle { .. } => false,
    }
}

/// Whether an enumeration can be called with arguments of these types: with one integer, or one value of an enumeration.
pub fn takes_number(args: &[ArgType]) -> bool
    ensures exact { result ≡ spec.takes_number args.now }
{
    match args {
        [ty] => is_numeric(*ty),
        _ => false,
    }
}

/// What a call of an enumeration's name means.
pub(crate) fn enumeration_called(number: u32, args: &[ArgType]) -> Resolution
    ensures exact { result ≡ spec.enumeration_called number args.now }
{
    if takes_number(args) {
        Resolution::Enumeration(number)
    } else {
        Resolution::Refused(ErrorKind::NoMatch)
    }
}
