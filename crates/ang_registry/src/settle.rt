//! What declarations mean over the whole list: which bare names in them are enumerations.
ghost use Rattle.std.specs.Prelude.{◌≡◌, IfOk, map, Some};
ghost use Rattle.std.specs.List.{list_any};
ghost use Rattle.ang_registry.specs.Types as spec;

use crate::lookup::has_enumeration;
use crate::overload::is_handle_shape;
use ang_kinds::{EntityNo, List, Mask, Param, Signature, TypeRef};
use ang_view::View;
use std::alloc::{AllocError, Global};

/// The type that is written: a bare name that an enumeration has means the enumeration.
fn settled_type(list: &View, ty: TypeRef) -> TypeRef
    ensures exact { result ≡ spec.settled_type list.now ty }
{
    match ty {
        TypeRef::Void => TypeRef::Void,
        TypeRef::Plain(primitive) => TypeRef::Plain(primitive),
        TypeRef::Enumeration { name } => TypeRef::Enumeration { name },
        TypeRef::Object {
            name,
            shape,
            const_object,
            const_handle,
        } => {
            if !is_handle_shape(shape) && has_enumeration(list, name.as_slice()) {
                TypeRef::Enumeration { name }
            } else {
                TypeRef::Object {
                    name,
                    shape,
                    const_object,
                    const_handle,
                }
            }
        }
    }
}

fn settled_param(list: &View, param: Param) -> Param
    ensures exact { result ≡ spec.settled_param list.now param }
{
    Param {
        ty: settled_type(list, param.ty),
        pass: param.pass,
        read_only: param.read_only,
        name: param.name,
    }
}

fn settled_params(alloc: Global, list: &View, params: Vec<Param>) -> Result<Vec<Param>, AllocError>
    ensures exact { IfOk result (λ v. v.items ≡ map (spec.settled_param list.now) params.items) }
{
    let mut settled = Vec::new(alloc);
    for param in params {
        let param = settled_param(list, param);
        settled.push(param)?;
    }
    Ok(settled)
}

fn settled_signature(
    alloc: Global,
    list: &View,
    signature: Signature,
) -> Result<Signature, AllocError>
    ensures exact { IfOk result (λ s. s ≡ spec.settled_signature list.now signature) }
{
    let params = settled_params(alloc, list, signature.params.into_vec())?;
    Ok(Signature {
        name: signature.name,
        result: settled_type(list, signature.result),
        params: List::from_vec(params),
        read_only: signature.read_only,
    })
}

/// What is declared, over the whole list.
///
/// The only error is want of memory.
pub fn settled(
    alloc: Global,
    list: &View,
    declared: Option<Signature>,
) -> Result<Option<Signature>, AllocError>
    ensures exact { IfOk result (λ s. s ≡ spec.settled list.now declared) }
{
    let Some(signature) = declared else {
        return Ok(None);
    };
    Ok(Some(settled_signature(alloc, list, signature)?))
}

/// Whether the type is an object type without `@`, or an enumeration with one.
fn is_misused_type(list: &View, ty: &TypeRef) -> bool
    ensures exact { result ≡ spec.is_misused_type list.now ty.now }
{
    match ty {
        TypeRef::Void | TypeRef::Plain(_) | TypeRef::Enumeration { .. } => false,
        TypeRef::Object { name, shape, .. } => {
            if is_handle_shape(*shape) {
                has_enumeration(list, name.as_slice())
            } else {
                list.find_type(name.as_slice()).is_some()
            }
        }
    }
}

fn any_misused(list: &View, params: &[Param]) -> bool
    ensures exact { result ≡ list_any (λ p. spec.is_misused_type list.now p.ty) params.now }
{
    params.iter().any(|param| is_misused_type(list, &param.ty))
}

/// Whether the declaration has an object type without `@`, or an enumeration with one.
#[tactic(auto, unfolding(crate::specs::Types::is_misused))]
pub fn is_misused(list: &View, signature: &Signature) -> bool
    ensures exact { result ≡ spec.is_misused list.now signature.now }
{
    let own = is_misused_type(list, &signature.result);
    own || any_misused(list, signature.params.as_slice())
}

/// The mask of the entry of this number, 0 at a blank.
pub fn mask_of(list: &View, number: EntityNo) -> Mask
    ensures exact { result ≡ spec.mask_at list.now (Some number.0) }
{
    match list.get(number) {
        None => Mask(0),
        Some(entry) => entry.mask,
    }
}
