//! The fields that a class or an interface declares itself, and what they can hold.
ghost use Rattle.std.specs.Prelude.{◌≡◌, length, IfOk};
ghost use Rattle.ang_names_known.specs.Spaces as spaces;
ghost use Rattle.ang_names_classes.specs.Hierarchy as spec;
ghost use Rattle.ang_names_classes.specs.Tables as tables;

use ang_names_known::{Space, Written, family_of_type};
use ang_names_listed::{Declaring, MemberKind, TypePosition, written_in};
use ang_types::ArgType;
use std::alloc::{AllocError, Global};

/// The type of a member, if it is a field. It takes no memory.
pub fn field_type(
    space: &Space<'_>,
    family: &Declaring<'_, '_>,
    kind: &MemberKind<'_>,
) -> Option<Written>
    ensures exact { result ≡ spec.field_type space.now family.now kind.now }
{
    match kind {
        MemberKind::Field(declared) => {
            Some(written_in(space, TypePosition::Field, family.text(), declared))
        }
        MemberKind::Method(_, _, _) | MemberKind::Constructor(_) => None,
    }
}

fn is_field(kind: &MemberKind<'_>) -> bool
    ensures exact { result ≡ tables.is_field kind.now }
{
    matches!(kind, MemberKind::Field(_))
}

/// How many fields a class or an interface declares itself. It takes no memory.
#[tactic(auto, using(crate::proofs::Counts::fields_counted))]
pub fn field_count(family: &Declaring<'_, '_>) -> usize
    ensures exact { (E : spaces.Space) → result ≡ length (spec.field_types E family.now) }
{
    let members = family.shape().members.as_slice();
    members
        .iter()
        .filter(|member| is_field(&member.kind))
        .count()
}

/// The class or interface to which a type is a handle.
fn held_by(ty: ArgType) -> Option<usize>
    ensures exact { result ≡ spec.held_by ty }
{
    match ty {
        ArgType::Handle { number, .. } => family_of_type(number),
        ArgType::Void => None,
        ArgType::Null => None,
        ArgType::Plain(_) => None,
        ArgType::Enumeration { .. } => None,
        ArgType::Object { .. } => None,
    }
}

/// The class or interface to which a field of this type is a handle, where there is a field.
fn held_in(written: Option<Written>) -> Option<usize>
    ensures exact { result ≡ tables.held_in written }
{
    match written {
        None => None,
        Some(written) => held_by(written.ty),
    }
}

/// The numbers of the classes and interfaces to which a family's own fields are handles.
pub fn held_places(
    alloc: Global,
    space: &Space<'_>,
    family: &Declaring<'_, '_>,
) -> Result<Vec<usize>, AllocError>
    ensures exact { IfOk result
        (λ places. places.items ≡ tables.held_places space.now family.now) }
{
    let mut places = Vec::new(alloc);
    let members = family.shape().members.as_slice();
    for member in members {
        if let Some(place) = held_in(field_type(space, family, &member.kind)) {
            places.push(place)?;
        }
    }
    Ok(places)
}
