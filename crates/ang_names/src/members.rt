//! Bases and members of classes and interfaces that can't stand where they stand, and too many members.
ghost use Rattle.std.specs.Prelude.{◌≡◌, [], true, false, not, bytes_eq, IfOk};
ghost use Rattle.std.specs.List.{list_any};
ghost use Rattle.std.specs.Option.{option_or};
ghost use Rattle.std.proofs.Math.Bool.{beq};
ghost use Rattle.ang_lex.specs.Text.{text_of};
ghost use Rattle.ang_names.specs.Before as earlier;
ghost use Rattle.ang_names.specs.Refusals as spec;

use crate::before::Before;
use crate::families::base_named;
use crate::headings::{parameter_list_refusal, refusal_if, type_refusal_of};
use ang_kinds::ErrorKind;
use ang_lex::{Token, text_of};
use ang_names_classes::Placed;
use ang_names_known::Space;
use ang_names_listed::{
    Attributes, ListedDeclaration, ListedFamily, ListedMember, MemberKind, TypePosition,
    have_same_types,
};
use ang_tree::Parameter;
use ang_types::Refused;
use std::alloc::{AllocError, Global};

/// The members of one class or interface.
const MOST_MEMBERS: usize = 256;

fn same_const(one: Attributes, other: Attributes) -> bool
    ensures exact { result ≡ beq one.read_only other.read_only }
{
    one.read_only == other.read_only
}

/// Whether a member can't stand beside an earlier one of its name.
fn excludes_member(text: &[u8], kind: &MemberKind<'_>, other: &MemberKind<'_>) -> bool
    ensures exact { result ≡ spec.excludes_member text.now kind.now other.now }
{
    match (kind, other) {
        (MemberKind::Field(_), _) => true,
        (MemberKind::Method(_, _, _), MemberKind::Field(_)) => true,
        (MemberKind::Method(_, params, one), MemberKind::Method(_, others, other)) => {
            have_same_types(text, params.items(), text, others.items()) && same_const(*one, *other)
        }
        (MemberKind::Method(_, _, _), MemberKind::Constructor(_)) => false,
        (MemberKind::Constructor(_), MemberKind::Field(_)) => true,
        (MemberKind::Constructor(_), MemberKind::Method(_, _, _)) => false,
        (MemberKind::Constructor(params), MemberKind::Constructor(others)) => {
            have_same_types(text, params.items(), text, others.items())
        }
    }
}

fn clashes(text: &[u8], member: &ListedMember<'_>, earlier: &ListedMember<'_>) -> bool
    ensures exact { result ≡ spec.clashes_with_member text.now member.now earlier.now }
{
    text_of(text, &member.name) == text_of(text, &earlier.name)
        && excludes_member(text, &member.kind, &earlier.kind)
}

/// Whether a member clashes with the earlier one of this number.
fn clashes_with_earlier(
    before: &Before<'_, '_, '_>,
    number: usize,
    member: &ListedMember<'_>,
) -> bool
    ensures exact { result ≡ earlier.clashes_at before.now member.now number }
{
    match before.items().get(number) {
        None => false,
        Some(earlier) => clashes(before.text(), member, earlier),
    }
}

/// Whether a member clashes with one of the earlier ones of these numbers.
fn clashes_with_one(before: &Before<'_, '_, '_>, row: &[usize], member: &ListedMember<'_>) -> bool
    ensures exact { result ≡ list_any (earlier.clashes_at before.now member.now) row.now }
{
    row.iter()
        .any(|number| clashes_with_earlier(before, *number, member))
}

fn is_duplicate(before: &Before<'_, '_, '_>, member: &ListedMember<'_>) -> bool
    ensures exact { result
        ≡ list_any (spec.clashes_with_member before.now.text member.now) before.now.items }
{
    clashes_with_one(before, before.row(member), member)
}

fn duplicate(
    alloc: Global,
    before: &Before<'_, '_, '_>,
    member: &ListedMember<'_>,
) -> Result<Option<Refused>, AllocError>
    ensures exact { IfOk result
        (λ r. r ≡ spec.duplicate before.now.text before.now.items member.now) }
{
    let is_refused = is_duplicate(before, member);
    refusal_if(
        alloc,
        is_refused,
        ErrorKind::Duplicate,
        before.text(),
        &member.name,
    )
}

/// What is refused of the name and the parameters of a method or a constructor.
fn name_refusal(
    alloc: Global,
    space: &Space<'_>,
    before: &Before<'_, '_, '_>,
    member: &ListedMember<'_>,
    params: &[Parameter],
) -> Result<Option<Refused>, AllocError>
    ensures exact { IfOk result (λ r. r
        ≡ option_or (spec.duplicate before.now.text before.now.items member.now)
        (spec.parameter_list_refusal space.now before.now.text false member.now.name params.now)) }
{
    if let Some(refused) = duplicate(alloc, before, member)? {
        return Ok(Some(refused));
    }
    parameter_list_refusal(alloc, space, before.text(), false, &member.name, params)
}

/// The error of a constructor that has not its class's name.
fn misnamed(
    alloc: Global,
    text: &[u8],
    family: &[u8],
    name: &Token,
) -> Result<Option<Refused>, AllocError>
    ensures exact { IfOk result (λ r. r ≡ spec.refusal_if
        (not (bytes_eq (text_of text.now name.now) family.now)) ErrorKind.BadType text.now
        name.now) }
{
    let is_refused = text_of(text, name) != family;
    refusal_if(alloc, is_refused, ErrorKind::BadType, text, name)
}

/// What is refused of a member of the family of this name, after the members before it.
fn member_refusal(
    alloc: Global,
    space: &Space<'_>,
    family: &[u8],
    before: &Before<'_, '_, '_>,
    member: &ListedMember<'_>,
) -> Result<Option<Refused>, AllocError>
    ensures exact { IfOk result (λ r. r ≡ spec.member_refusal space.now before.now.text
        family.now before.now.items member.now member.now.kind) }
{
    let text = before.text();
    match &member.kind {
        MemberKind::Field(declared) => {
            match type_refusal_of(alloc, space, text, TypePosition::Field, declared)? {
                Some(refused) => Ok(Some(refused)),
                None => duplicate(alloc, before, member),
            }
        }
        MemberKind::Method(declared, params, _) => {
            match type_refusal_of(alloc, space, text, TypePosition::Result, declared)? {
                Some(refused) => Ok(Some(refused)),
                None => name_refusal(alloc, space, before, member, params.items()),
            }
        }
        MemberKind::Constructor(params) => match misnamed(alloc, text, family, &member.name)? {
            Some(refused) => Ok(Some(refused)),
            None => name_refusal(alloc, space, before, member, params.items()),
        },
    }
}

/// What is refused of the members of the family of this name: of the first that something is refused of.
fn members_refusal(
    alloc: Global,
    space: &Space<'_>,
    text: &[u8],
    family: &[u8],
    members: &[ListedMember<'_>],
) -> Result<Option<Refused>, AllocError>
    ensures exact { IfOk result (λ r. r
        ≡ spec.members_refusal space.now text.now family.now [] members.now) }
{
    let mut before = Before::new(alloc, text);
    for (i, member) in members.iter().enumerate() {
        let refused = member_refusal(alloc, space, family, &before, member)?;
        if refused.is_some() {
            return Ok(refused);
        }
        before.grow(alloc, &members[..i + 1], member)?;
    }
    Ok(None)
}

/// What is refused of the names after `:`: the first that can't stand there.
fn bases_refusal(
    alloc: Global,
    families: &Placed<'_, '_, '_>,
    text: &[u8],
    is_class: bool,
    bases: &[Token],
) -> Result<Option<Refused>, AllocError>
    ensures exact { IfOk result (λ r. r
        ≡ spec.bases_refusal families.now text.now is_class false bases.now) }
{
    let mut has_class = false;
    for base in bases {
        let (is_bad, names_class) = base_named(families, is_class, has_class, text_of(text, base));
        let refused = refusal_if(alloc, is_bad, ErrorKind::BadBase, text, base)?;
        if refused.is_some() {
            return Ok(refused);
        }
        has_class = has_class || names_class;
    }
    Ok(None)
}

fn member_limit(
    alloc: Global,
    declared: &ListedDeclaration<'_>,
    shape: &ListedFamily<'_>,
) -> Result<Option<Refused>, AllocError>
    ensures exact { IfOk result (λ r. r ≡ spec.member_limit declared.now shape.now) }
{
    let is_refused = shape.members.as_slice().len() > MOST_MEMBERS;
    refusal_if(
        alloc,
        is_refused,
        ErrorKind::Limit,
        declared.text.bytes(),
        &declared.name,
    )
}

/// What is refused of a class or an interface, in the order of the text.
///
/// The only error is want of memory.
pub fn family_refusal(
    alloc: Global,
    space: &Space<'_>,
    families: &Placed<'_, '_, '_>,
    declared: &ListedDeclaration<'_>,
    shape: &ListedFamily<'_>,
) -> Result<Option<Refused>, AllocError>
    ensures exact { IfOk result (λ r. r
        ≡ spec.family_refusal space.now families.now declared.now shape.now) }
{
    let text = declared.text.bytes();
    if let Some(refused) = member_limit(alloc, declared, shape)? {
        return Ok(Some(refused));
    }
    if let Some(refused) = bases_refusal(
        alloc,
        families,
        text,
        shape.is_class,
        shape.bases.as_slice(),
    )? {
        return Ok(Some(refused));
    }
    let name = text_of(text, &declared.name);
    members_refusal(alloc, space, text, name, shape.members.as_slice())
}
