//! Groups of entries, and what of a list names a type of one.
ghost use Rattle.std.specs.Prelude.{◌≡◌, Some};
ghost use Rattle.std.specs.Option.{option_copied};
ghost use Rattle.ang_view.specs.Groups as spec;
ghost use Rattle.ang_view.specs.Outside as outside;

use crate::view::{is_type, spells};
use crate::{Entry, View};
use ang_kinds::{EntityNo, List, Signature, TypeRef};

/// Entries that were registered while a group was open: their numbers stand side by side, blanks among them.
#[derive(Drop)]
pub struct Group {
    /// The group's name, an identifier.
    pub name: List<u8>,
    /// The number of its first entry.
    pub first: u32,
    /// The number after that of its last entry; `first` where it has none.
    pub after: u32,
}

/// Whether the entry of this number is of the group.
pub fn is_in(group: &Group, number: usize) -> bool
    ensures exact { result ≡ spec.is_in group.now number }
{
    group.first as usize <= number && number < group.after as usize
}

/// Whether an entry outside a group names a type or an enumeration of it, in its declaration or as its own. It takes no
/// memory. Its time is that of looking up the types that the entries outside spell.
pub fn is_named_outside(list: &View, group: &Group) -> bool
    ensures exact { result ≡ spec.is_named_outside list.now group.now }
{
    for number in 0..list.len() {
        if !is_in(group, number) && names_into(list, group, list.get(EntityNo(number as u32))) {
            return true;
        }
    }
    false
}

/// Whether what stands under a number names a type of the group.
fn names_into(list: &View, group: &Group, found: Option<&Entry>) -> bool
    ensures exact { result ≡ spec.names_into list.now group.now (option_copied found.entry) }
{
    match found {
        None => false,
        Some(entry) => entry_names_into(list, group, entry),
    }
}

/// Whether the declaration of an entry names a type of the group: its own, or one that its signature spells.
fn entry_names_into(list: &View, group: &Group, entry: &Entry) -> bool
    ensures exact { result ≡ outside.declared_in list.now group.now entry.now }
{
    !is_type(entry)
        && (owner_is_in(list, group, entry.owner) || signature_is_in(list, group, &entry.signature))
}

fn owner_is_in(list: &View, group: &Group, owner: Option<EntityNo>) -> bool
    ensures exact { result ≡ outside.owner_in list.now group.now owner }
{
    match owner {
        None => false,
        Some(number) => is_in(group, number.0 as usize) && list.has_type(number),
    }
}

fn signature_is_in(list: &View, group: &Group, signature: &Signature) -> bool
    ensures exact { result ≡ outside.signature_in list.now group.now signature.now }
{
    spelled_is_in(list, group, &signature.result)
        || signature
            .params
            .as_slice()
            .iter()
            .any(|param| spelled_is_in(list, group, &param.ty))
}

/// Whether a type that is spelled so is of the group.
fn spelled_is_in(list: &View, group: &Group, ty: &TypeRef) -> bool
    ensures exact { result ≡ outside.spelled_in list.now group.now ty.now }
{
    match ty {
        TypeRef::Void | TypeRef::Plain(_) => false,
        TypeRef::Enumeration { name } | TypeRef::Object { name, .. } => list
            .find(name.as_slice())
            .iter()
            .any(|number| is_spelled_in(list.get(*number), group, *number, ty)),
    }
}

/// Whether the entry of a number is of the group, and a type that is spelled so.
fn is_spelled_in(found: Option<&Entry>, group: &Group, number: EntityNo, ty: &TypeRef) -> bool
    ensures exact { result
        ≡ outside.spelled_here group.now ty.now number.0 (option_copied found.entry) }
{
    match found {
        None => false,
        Some(entry) => {
            is_in(group, number.0 as usize)
                && is_type(entry)
                && spells(ty, entry.signature.name.as_slice())
        }
    }
}
