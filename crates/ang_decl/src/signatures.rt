//! What declarations declare.
ghost use Rattle.std.specs.Prelude.{◌≡◌, IfOk, map};
ghost use Rattle.ang_lex.specs.Text as lexer;
ghost use Rattle.ang_decl.specs.Signatures as spec;

use crate::taken::is_value_kind;
use crate::tree::{HostFunction, HostHandle, HostParameter, HostProperty, HostType};
use ang_kinds::{List, Param, Pass, Shape, Signature, TypeRef};
use ang_lex::{Token, TokenKind, text_of};
use std::alloc::{AllocError, Global};

fn name_of(alloc: Global, text: &[u8], name: &Option<Token>) -> Result<List<u8>, AllocError>
    ensures exact { IfOk result (λ x. x ≡ lexer.name_of text.now name.now) }
{
    match name {
        None => Ok(List::from_vec(Vec::new(alloc))),
        Some(token) => Ok(List::from_vec(Vec::from_slice(alloc, text_of(text, token))?)),
    }
}

fn shape_of(handle: &Option<HostHandle>) -> Shape
    ensures exact { result ≡ spec.shape_of handle.now }
{
    match handle {
        None => Shape::ByValue,
        Some(handle) => {
            if handle.plus.is_some() {
                Shape::AutoHandle
            } else {
                Shape::Handle
            }
        }
    }
}

fn is_const_handle(handle: &Option<HostHandle>) -> bool
    ensures exact { result ≡ spec.is_const_handle handle.now }
{
    match handle {
        None => false,
        Some(handle) => handle.constant.is_some(),
    }
}

fn object_of(alloc: Global, text: &[u8], host_type: &HostType) -> Result<TypeRef, AllocError>
    ensures exact { IfOk result (λ t. t ≡ spec.object_of text.now host_type.now) }
{
    let name = Vec::from_slice(alloc, text_of(text, &host_type.name))?;
    Ok(TypeRef::Object {
        name: List::from_vec(name),
        shape: shape_of(&host_type.handle),
        const_object: host_type.constant.is_some(),
        const_handle: is_const_handle(&host_type.handle),
    })
}

fn type_of(alloc: Global, text: &[u8], host_type: &HostType) -> Result<TypeRef, AllocError>
    ensures exact { IfOk result (λ t. t ≡ spec.type_of text.now host_type.now) }
{
    match host_type.name.kind {
        TokenKind::Primitive(primitive) => Ok(TypeRef::Plain(primitive)),
        TokenKind::Void => Ok(TypeRef::Void),
        _ => object_of(alloc, text, host_type),
    }
}

fn param_of(alloc: Global, text: &[u8], parameter: &HostParameter) -> Result<Param, AllocError>
    ensures exact { IfOk result (λ p. p ≡ spec.param_of text.now parameter.now) }
{
    let ty = type_of(alloc, text, &parameter.declared_type)?;
    let name = name_of(alloc, text, &parameter.name)?;
    Ok(Param {
        ty,
        pass: Pass::Value,
        read_only: false,
        name,
    })
}

fn params_of(alloc: Global, text: &[u8], items: &[HostParameter]) -> Result<Vec<Param>, AllocError>
    ensures exact { IfOk result (λ v. v.items ≡ map (spec.param_of text.now) items.now) }
{
    let mut params = Vec::new(alloc);
    for item in items {
        let param = param_of(alloc, text, item)?;
        params.push(param)?;
    }
    Ok(params)
}

/// The signature of a function, a method or a factory.
pub fn function_signature(
    alloc: Global,
    text: &[u8],
    function: &HostFunction,
) -> Result<Signature, AllocError>
    ensures exact { IfOk result (λ s. s ≡ spec.function_signature text.now function.now) }
{
    let name = Vec::from_slice(alloc, text_of(text, &function.name))?;
    let result = type_of(alloc, text, &function.result)?;
    let params = params_of(alloc, text, function.parameters.items.as_slice())?;
    Ok(Signature {
        name: List::from_vec(name),
        result,
        params: List::from_vec(params),
        read_only: function.constant.is_some(),
    })
}

fn is_const_value(host_type: &HostType) -> bool
    ensures exact { result ≡ spec.is_const_value host_type.now }
{
    is_value_kind(host_type.name.kind) && host_type.handle.is_none() && host_type.constant.is_some()
}

/// The signature of a property.
pub fn property_signature(
    alloc: Global,
    text: &[u8],
    property: &HostProperty,
) -> Result<Signature, AllocError>
    ensures exact { IfOk result (λ s. s ≡ spec.property_signature text.now property.now) }
{
    let name = Vec::from_slice(alloc, text_of(text, &property.name))?;
    let result = type_of(alloc, text, &property.declared_type)?;
    Ok(Signature {
        name: List::from_vec(name),
        result,
        params: List::from_vec(Vec::new(alloc)),
        read_only: is_const_value(&property.declared_type),
    })
}

/// The signature of a type that stands alone.
pub fn type_signature(
    alloc: Global,
    text: &[u8],
    host_type: &HostType,
) -> Result<Signature, AllocError>
    ensures exact { IfOk result (λ s. s ≡ spec.type_signature text.now host_type.now) }
{
    let result = type_of(alloc, text, host_type)?;
    Ok(Signature {
        name: List::from_vec(Vec::new(alloc)),
        result,
        params: List::from_vec(Vec::new(alloc)),
        read_only: is_const_value(host_type),
    })
}
