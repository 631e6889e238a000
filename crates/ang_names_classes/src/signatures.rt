//! The methods of all classes and interfaces, and which of them stand for one another.
ghost use Rattle.std.specs.Prelude.{◌≡◌, ◌++◌, IfOk, OnOk};
ghost use Rattle.ang_names_classes.specs.Headings as spec;

use crate::headings::heading_of;
use ang_names_known::{ScriptFunction, Space, same_parameters};
use ang_names_listed::{Declaring, ListedMember, MemberKind};
use std::alloc::{AllocError, Global};

/// A method's heading, and whether it is `const`.
pub type MethodSignature = (ScriptFunction, bool);

/// The signature of a member, if it is a method.
fn signature_of(
    alloc: Global,
    space: &Space<'_>,
    family: &Declaring<'_, '_>,
    member: &ListedMember<'_>,
) -> Result<Option<MethodSignature>, AllocError>
    ensures exact { IfOk result (λ s. s
        ≡ spec.signature_by space.now family.now member.now member.now.kind) }
{
    match &member.kind {
        MemberKind::Method(result, params, attributes) => {
            let function = heading_of(
                alloc,
                space,
                family.origin(),
                family.text(),
                &member.name,
                result,
                params.items(),
            )?;
            Ok(Some((function, attributes.read_only)))
        }
        MemberKind::Field(_) | MemberKind::Constructor(_) => Ok(None),
    }
}

/// Puts the signatures of one class's or interface's methods after those of others.
fn push_signatures(
    alloc: Global,
    space: &Space<'_>,
    family: &Declaring<'_, '_>,
    found: &mut Vec<MethodSignature>,
) -> Result<(), AllocError>
    ensures pushed { OnOk result (found.new.items ≡ found.old.items
        ++ spec.signatures_in space.now family.now) }
{
    let members = family.shape().members.as_slice();
    for member in members {
        if let Some(signature) = signature_of(alloc, space, family, member)? {
            found.push(signature)?;
        }
    }
    Ok(())
}

/// The methods of all classes and interfaces, in order: their places are their numbers.
#[tactic(auto, unfolding(crate::specs::Headings::signatures_of))]
pub fn all_signatures(
    alloc: Global,
    space: &Space<'_>,
    families: &[Declaring<'_, '_>],
) -> Result<Vec<MethodSignature>, AllocError>
    ensures exact { IfOk result
        (λ found. found.items ≡ spec.signatures_of space.now families.now) }
{
    let mut found = Vec::new(alloc);
    for family in families {
        push_signatures(alloc, space, family, &mut found)?;
    }
    Ok(found)
}

/// Whether two methods stand for one another: by equal name, parameters and `const`.
pub fn is_same(function: &ScriptFunction, read_only: bool, other: &MethodSignature) -> bool
    ensures exact { result ≡ spec.same_signature (function.now, read_only) other.now }
{
    function.name.as_slice() == other.0.name.as_slice()
        && same_parameters(function.params.as_slice(), other.0.params.as_slice())
        && read_only == other.1
}
