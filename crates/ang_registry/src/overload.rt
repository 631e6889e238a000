//! What can stand beside what.
ghost use Rattle.std.specs.Prelude.{◌≡◌, map};
ghost use Rattle.std.specs.List.{list_any};
ghost use Rattle.ang_view.specs.Named.{is_bare};
ghost use Rattle.ang_view.specs.Registration.{entry_at};
ghost use Rattle.ang_registry.specs.Among as among;
ghost use Rattle.ang_registry.specs.Overloads as spec;
ghost use Rattle.ang_registry.specs.Overloads.{is_handle, same_type, same_parameter, same_parameters};

use crate::{Entry, EntryKind};
use ang_kinds::{EntityNo, Param, Shape, Signature, TypeRef};
use ang_view::View;

/// The entries of the same name, or of a factory those of the same type: no others can take its name. Methods,
/// properties and values share names with those of their own type or enumeration alone.
fn rivals_of<'a>(list: &'a View, entry: &Entry) -> &'a [EntityNo]
    ensures exact { map (λ number. number.0) result.now ≡ among.rivals list.now entry.now.kind
        entry.now.owner entry.now.signature.name }
{
    let name = entry.signature.name.as_slice();
    match entry.kind {
        EntryKind::HostType | EntryKind::Function | EntryKind::Global | EntryKind::Enumeration =>
            list.find(name),
        EntryKind::Method | EntryKind::Property | EntryKind::EnumValue(_) => match entry.owner {
            None => &[],
            Some(owner) => list.owned(owner, name),
        },
        EntryKind::Factory => match entry.owner {
            None => &[],
            Some(owner) => list.makers(owner),
        },
    }
}

fn clashes_at(list: &View, entry: &Entry, number: EntityNo) -> bool
    ensures exact { result ≡ spec.clashes entry.now.kind entry.now.owner entry.now.signature
        (entry_at list.now number.0) }
{
    match list.get(number) {
        None => false,
        Some(other) => clash_with(entry, other),
    }
}

fn clashes_among(list: &View, entry: &Entry, numbers: &[EntityNo]) -> bool
    ensures exact { result ≡ list_any (λ n. spec.clashes entry.now.kind entry.now.owner
        entry.now.signature (entry_at list.now n.0)) numbers.now }
{
    numbers
        .iter()
        .any(|number| clashes_at(list, entry, *number))
}

/// Whether the entry can't stand beside what is registered.
pub fn is_duplicate(list: &View, entry: &Entry) -> bool
    ensures exact { result
        ≡ spec.is_taken list.now entry.now.kind entry.now.owner entry.now.signature }
{
    clashes_among(list, entry, rivals_of(list, entry))
}

fn clash_with(entry: &Entry, other: &Entry) -> bool
    ensures exact { result
        ≡ spec.clashes_with entry.now.kind entry.now.owner entry.now.signature other.now }
{
    let own = &entry.signature;
    match entry.kind {
        EntryKind::HostType | EntryKind::Global | EntryKind::Enumeration => {
            is_bare(other.kind) && is_same_name(&other.signature, own)
        }
        EntryKind::Factory => {
            matches!(other.kind, EntryKind::Factory)
                && is_same_owner(other.owner, entry.owner)
                && have_same_types(other.signature.params.as_slice(), own.params.as_slice())
        }
        EntryKind::Method => {
            is_same_owner(other.owner, entry.owner)
                && is_same_name(&other.signature, own)
                && excludes_method(other, own)
        }
        EntryKind::Property => {
            is_member_name(other.kind)
                && is_same_owner(other.owner, entry.owner)
                && is_same_name(&other.signature, own)
        }
        EntryKind::Function => {
            is_same_name(&other.signature, own) && excludes_function(other, own)
        }
        EntryKind::EnumValue(_) => {
            matches!(other.kind, EntryKind::EnumValue(_))
                && is_same_owner(other.owner, entry.owner)
                && is_same_name(&other.signature, own)
        }
    }
}

fn is_bare(kind: EntryKind) -> bool
    ensures exact { result ≡ is_bare kind }
{
    match kind {
        EntryKind::HostType | EntryKind::Function | EntryKind::Global | EntryKind::Enumeration =>
            true,
        EntryKind::Factory | EntryKind::Method | EntryKind::Property | EntryKind::EnumValue(_) =>
            false,
    }
}

fn is_member_name(kind: EntryKind) -> bool
    ensures exact { result ≡ spec.is_member_name kind }
{
    match kind {
        EntryKind::Method | EntryKind::Property => true,
        EntryKind::HostType
        | EntryKind::Factory
        | EntryKind::Function
        | EntryKind::Global
        | EntryKind::Enumeration
        | EntryKind::EnumValue(_) => false,
    }
}

fn is_same_name(other: &Signature, signature: &Signature) -> bool
    ensures exact { result ≡ spec.same_name other.now signature.now }
{
    other.name.as_slice() == signature.name.as_slice()
}

fn is_same_owner(other: Option<EntityNo>, owner: Option<EntityNo>) -> bool
    ensures exact { result ≡ spec.same_owner other owner }
{
    match (other, owner) {
        (Some(EntityNo(other)), Some(EntityNo(owner))) => other == owner,
        _ => false,
    }
}

fn excludes_function(other: &Entry, signature: &Signature) -> bool
    ensures exact { result
        ≡ spec.excludes_function other.now.kind other.now.signature signature.now }
{
    match other.kind {
        EntryKind::HostType | EntryKind::Global | EntryKind::Enumeration => true,
        EntryKind::Factory | EntryKind::Method | EntryKind::Property | EntryKind::EnumValue(_) =>
            false,
        EntryKind::Function => have_same_types(
            other.signature.params.as_slice(),
            signature.params.as_slice(),
        ),
    }
}

fn excludes_method(other: &Entry, signature: &Signature) -> bool
    ensures exact { result
        ≡ spec.excludes_method other.now.kind other.now.signature signature.now }
{
    match other.kind {
        EntryKind::HostType
        | EntryKind::Factory
        | EntryKind::Function
        | EntryKind::Global
        | EntryKind::Enumeration
        | EntryKind::EnumValue(_) => false,
        EntryKind::Property => true,
        EntryKind::Method => {
            have_same_types(
                other.signature.params.as_slice(),
                signature.params.as_slice(),
            ) && other.signature.read_only == signature.read_only
        }
    }
}

fn have_same_types(others: &[Param], params: &[Param]) -> bool
    ensures exact { result ≡ same_parameters others.now params.now }
{
    others.len() == params.len()
        && others
            .iter()
            .zip(params)
            .all(|(other, param)| is_same_parameter(other, param))
}

fn is_same_parameter(other: &Param, param: &Param) -> bool
    ensures exact { result ≡ same_parameter other.now param.now }
{
    is_same_type(&other.ty, &param.ty)
        && other.pass == param.pass
        && other.read_only == param.read_only
}

fn is_same_type(other: &TypeRef, ty: &TypeRef) -> bool
    ensures exact { result ≡ same_type other.now ty.now }
{
    match (other, ty) {
        (TypeRef::Void, TypeRef::Void) => true,
        (TypeRef::Plain(a), TypeRef::Plain(b)) => a == b,
        (TypeRef::Enumeration { name: a }, TypeRef::Enumeration { name: b }) => {
            a.as_slice() == b.as_slice()
        }
        (
            TypeRef::Object {
                name: a,
                shape: s,
                const_object: i,
                const_handle: g,
            },
            TypeRef::Object {
                name: b,
                shape: t,
                const_object: o,
                const_handle: h,
            },
        ) => a.as_slice() == b.as_slice()
            && is_handle_shape(*s) == is_handle_shape(*t)
            && i == o
            && g == h,
        _ => false,
    }
}

/// Whether it is a handle, which an auto handle is too.
pub fn is_handle_shape(shape: Shape) -> bool
    ensures exact { result ≡ is_handle shape }
{
    match shape {
        Shape::ByValue => false,
        Shape::Handle | Shape::AutoHandle => true,
    }
}
