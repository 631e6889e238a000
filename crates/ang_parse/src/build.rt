//! Lists with one more item at their end.
ghost use Rattle.std.specs.Prelude.{◌≡◌, ◌++◌, [], ◌∷◌, map, IfOk};
ghost use Rattle.ang_tree.specs.View.{view_member, view_method};

use ang_lex::Token;
use ang_tree::{BaseName, FieldName, InterfaceMethod, Member};
use std::alloc::AllocError;

/// The list with one more name of a class or an interface.
pub(crate) fn with_base(first: Vec<BaseName>, next: BaseName) -> Result<Vec<BaseName>, AllocError>
    ensures exact { IfOk result (λ v. v.items ≡ first.items ++ next ∷ []) }
{
    let mut found = first;
    found.push(next)?;
    Ok(found)
}

/// The list with one more name of a field.
pub(crate) fn with_field(
    first: Vec<FieldName>,
    next: FieldName,
) -> Result<Vec<FieldName>, AllocError>
    ensures exact { IfOk result (λ v. v.items ≡ first.items ++ next ∷ []) }
{
    let mut found = first;
    found.push(next)?;
    Ok(found)
}

/// The list with one more word.
pub(crate) fn with_word(first: Vec<Token>, next: Token) -> Result<Vec<Token>, AllocError>
    ensures exact { IfOk result (λ v. v.items ≡ first.items ++ next ∷ []) }
{
    let mut found = first;
    found.push(next)?;
    Ok(found)
}

/// The list with one more member of a class.
pub(crate) fn with_member(first: Vec<Member>, next: Member) -> Result<Vec<Member>, AllocError>
    ensures exact { IfOk result (λ v. map view_member v.items ≡ map view_member first.items
        ++ view_member next ∷ []) }
{
    let mut found = first;
    found.push(next)?;
    Ok(found)
}

/// The list with one more method of an interface.
pub(crate) fn with_method(
    first: Vec<InterfaceMethod>,
    next: InterfaceMethod,
) -> Result<Vec<InterfaceMethod>, AllocError>
    ensures exact { IfOk result (λ v. map view_method v.items ≡ map view_method first.items
        ++ view_method next ∷ []) }
{
    let mut found = first;
    found.push(next)?;
    Ok(found)
}
