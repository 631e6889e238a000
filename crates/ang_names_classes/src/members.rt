//! Fields, methods and constructors, each with its number.
ghost use Rattle.std.specs.Prelude.{◌≡◌, ◌+◌, ◌++◌, [], length, if◌then◌else◌, IfOk, OnOk, Some, None};
ghost use Rattle.ang_names_known.specs.Items.{each_after};
ghost use Rattle.ang_names_classes.specs.Hierarchy as hierarchy;
ghost use Rattle.ang_names_classes.specs.Resolved as spec;

use crate::{Signatures, field_type, heading_of, maker_of, slot_of};
use ang_kinds::List;
use ang_names_known::{Field, ScriptConstructor, ScriptFunction, ScriptMethod, Space, Written};
use ang_names_listed::{Attributes, Declaring, ListedMember, MemberKind, copy_at};
use std::alloc::{AllocError, Global};

/// A field of this number.
fn field_with(
    alloc: Global,
    family: &Declaring<'_, '_>,
    member: &ListedMember<'_>,
    number: usize,
    written: Written,
) -> Result<Field, AllocError>
    ensures exact { IfOk result (λ f. f ≡ spec.field_with family.now member.now number written) }
{
    Ok(Field {
        name: copy_at(alloc, family.text(), &member.name)?,
        place: member.name.place,
        written,
        access: member.access,
        number,
    })
}

/// Puts a member after the fields before it, if it is one.
fn push_field(
    alloc: Global,
    space: &Space<'_>,
    family: &Declaring<'_, '_>,
    member: &ListedMember<'_>,
    number: usize,
    found: &mut Vec<Field>,
) -> Result<(), AllocError>
    ensures pushed { OnOk result (found.new.items ≡ found.old.items
        ++ spec.field_numbered family.now member.now number
        (hierarchy.field_type space.now family.now member.now.kind)) }
{
    match field_type(space, family, &member.kind) {
        None => Ok(()),
        Some(written) => {
            found.push(field_with(alloc, family, member, number, written)?)?;
            Ok(())
        }
    }
}

/// The fields that a class declares itself, before which its objects have the inherited ones, a byte each.
///
/// The only error is want of memory.
pub fn fields_of(
    alloc: Global,
    space: &Space<'_>,
    family: &Declaring<'_, '_>,
    inherited: &[u8],
) -> Result<List<Field>, AllocError>
    ensures exact { IfOk result (λ fs. fs ≡ each_after (spec.fields_after
        space.now family.now (length inherited.now)) [] family.now.shape.members) }
{
    let members = family.shape().members.as_slice();
    let mut found = Vec::new(alloc);
    for member in members {
        let number = inherited.len() + found.len();
        push_field(alloc, space, family, member, number, &mut found)?;
    }
    Ok(List::from_vec(found))
}

/// Whether a member has a body, in a class or in an interface.
fn has_body(is_class: bool, kind: &MemberKind<'_>) -> bool
    ensures exact { result ≡ spec.has_body is_class kind.now }
{
    match kind {
        MemberKind::Field(_) => false,
        MemberKind::Method(_, _, _) => is_class,
        MemberKind::Constructor(_) => true,
    }
}

/// A byte more for the body of a member of a class or an interface, if it has one.
fn add_body(
    family: &Declaring<'_, '_>,
    kind: &MemberKind<'_>,
    bodies: &mut Vec<u8>,
) -> Result<(), AllocError>
    ensures exact { OnOk result (length bodies.new.items ≡ length bodies.old.items
        + (if spec.has_body family.now.shape.is_class kind.now then 1 else 0)) }
{
    if has_body(family.shape().is_class, kind) {
        bodies.push(0)?;
    }
    Ok(())
}

/// A byte more for each body of a class or an interface.
///
/// The only error is want of memory.
pub fn add_bodies(family: &Declaring<'_, '_>, bodies: &mut Vec<u8>) -> Result<(), AllocError>
    ensures exact { OnOk result (length bodies.new.items
        ≡ length bodies.old.items + length (spec.body_members family.now)) }
{
    let members = family.shape().members.as_slice();
    for member in members {
        add_body(family, &member.kind, bodies)?;
    }
    Ok(())
}

fn body_number(is_class: bool, body: usize) -> Option<usize>
    ensures exact { result ≡ (if is_class then Some body else None) }
{
    if is_class { Some(body) } else { None }
}

/// A method with this heading and this body.
fn method_with(
    alloc: Global,
    signatures: &Signatures,
    family: &Declaring<'_, '_>,
    member: &ListedMember<'_>,
    body: usize,
    function: ScriptFunction,
    attributes: Attributes,
) -> Result<ScriptMethod, AllocError>
    ensures exact { IfOk result (λ method. method ≡ spec.method_with
        signatures.now family.now member.now body function attributes) }
{
    let slot = slot_of(alloc, signatures, &function, attributes.read_only)?;
    Ok(ScriptMethod {
        function,
        access: member.access,
        read_only: attributes.read_only,
        is_final: attributes.is_final,
        is_override: attributes.is_override,
        slot,
        body: body_number(family.shape().is_class, body),
    })
}

/// Puts a member after the methods before it, if it is one.
fn push_method(
    alloc: Global,
    space: &Space<'_>,
    signatures: &Signatures,
    family: &Declaring<'_, '_>,
    member: &ListedMember<'_>,
    body: usize,
    found: &mut Vec<ScriptMethod>,
) -> Result<(), AllocError>
    ensures pushed { OnOk result (found.new.items ≡ found.old.items
        ++ spec.methods_by space.now signatures.now family.now member.now body member.now.kind) }
{
    match &member.kind {
        MemberKind::Method(result, params, attributes) => {
            let function = heading_of(
                alloc,
                space,
                family.origin(),
                family.text(),
                &member.name,
                result,
                params.items(),
            )?;
            let method = method_with(
                alloc,
                signatures,
                family,
                member,
                body,
                function,
                *attributes,
            )?;
            found.push(method)?;
            Ok(())
        }
        MemberKind::Field(_) | MemberKind::Constructor(_) => Ok(()),
    }
}

/// The methods that a class or an interface declares itself, before whose bodies stand these, a byte each.
///
/// The only error is want of memory.
pub fn methods_of(
    alloc: Global,
    space: &Space<'_>,
    signatures: &Signatures,
    family: &Declaring<'_, '_>,
    before: &[u8],
) -> Result<List<ScriptMethod>, AllocError>
    ensures exact { IfOk result (λ ms. ms ≡ each_after
        (spec.methods_after space.now signatures.now family.now
        (length before.now)) [] family.now.shape.members) }
{
    let members = family.shape().members.as_slice();
    let mut found = Vec::new(alloc);
    let mut bodies = Vec::new(alloc);
    for member in members {
        let body = before.len() + bodies.len();
        push_method(alloc, space, signatures, family, member, body, &mut found)?;
        add_body(family, &member.kind, &mut bodies)?;
    }
    Ok(List::from_vec(found))
}

/// Puts a member after the constructors before it, if it is one.
fn push_constructor(
    alloc: Global,
    space: &Space<'_>,
    family: &Declaring<'_, '_>,
    member: &ListedMember<'_>,
    body: usize,
    found: &mut Vec<ScriptConstructor>,
) -> Result<(), AllocError>
    ensures pushed { OnOk result (found.new.items ≡ found.old.items
        ++ spec.constructors_by space.now family.now member.now body member.now.kind) }
{
    match &member.kind {
        MemberKind::Constructor(params) => {
            let function = maker_of(
                alloc,
                space,
                family.origin(),
                family.text(),
                &member.name,
                params.items(),
            )?;
            found.push(ScriptConstructor { function, body })?;
            Ok(())
        }
        MemberKind::Field(_) | MemberKind::Method(_, _, _) => Ok(()),
    }
}

/// The constructors of a class, before whose bodies stand these, a byte each.
///
/// The only error is want of memory.
pub fn constructors_of(
    alloc: Global,
    space: &Space<'_>,
    family: &Declaring<'_, '_>,
    before: &[u8],
) -> Result<List<ScriptConstructor>, AllocError>
    ensures exact { IfOk result (λ ks. ks ≡ each_after (spec.constructors_after
        space.now family.now (length before.now)) [] family.now.shape.members) }
{
    let members = family.shape().members.as_slice();
    let mut found = Vec::new(alloc);
    let mut bodies = Vec::new(alloc);
    for member in members {
        let body = before.len() + bodies.len();
        push_constructor(alloc, space, family, member, body, &mut found)?;
        add_body(family, &member.kind, &mut bodies)?;
    }
    Ok(List::from_vec(found))
}
