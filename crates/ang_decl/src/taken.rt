//! Which declarations hosts can use.
ghost use Rattle.std.specs.Prelude.{◌≡◌};
ghost use Rattle.ang_tree.specs.Kinds.{primitive_kind};
ghost use Rattle.ang_decl.specs.Parsed as form;
ghost use Rattle.ang_decl.specs.Grammar as grammar;
ghost use Rattle.ang_decl.specs.Signatures as spec;

use crate::tree::{HostFunction, HostHandle, HostParameter, HostProperty, HostType};
use ang_lex::TokenKind;

/// Whether the token is the word of a primitive type.
fn is_primitive(kind: TokenKind) -> bool
    ensures exact { result ≡ primitive_kind kind }
{
    matches!(kind, TokenKind::Primitive(_))
}

/// Whether the token is the word of a primitive type, or a name, which may be an enumeration's.
pub fn is_value_kind(kind: TokenKind) -> bool
    ensures exact { result ≡ spec.is_value_kind kind }
{
    is_primitive(kind) || matches!(kind, TokenKind::Name)
}

fn is_auto_handle(handle: &Option<HostHandle>) -> bool
    ensures exact { result ≡ spec.is_auto_handle handle.now }
{
    match handle {
        None => false,
        Some(handle) => handle.plus.is_some() && handle.constant.is_none(),
    }
}

fn is_bare_handle(handle: &Option<HostHandle>) -> bool
    ensures exact { result ≡ grammar.is_bare_handle handle.now }
{
    match handle {
        None => false,
        Some(handle) => handle.plus.is_none() && handle.constant.is_none(),
    }
}

/// Whether the type is `T@`.
fn is_plain_handle(host_type: &HostType) -> bool
    ensures exact { result ≡ grammar.is_plain_handle host_type.now }
{
    matches!(host_type.name.kind, TokenKind::Name)
        && host_type.constant.is_none()
        && is_bare_handle(&host_type.handle)
}

fn is_parameter_type(host_type: &HostType) -> bool
    ensures exact { result ≡ spec.is_parameter_type host_type.now }
{
    let is_value = is_value_kind(host_type.name.kind)
        && host_type.constant.is_none()
        && host_type.handle.is_none();
    is_value
        || (matches!(host_type.name.kind, TokenKind::Name) && is_auto_handle(&host_type.handle))
}

fn is_result_type(host_type: &HostType) -> bool
    ensures exact { result ≡ spec.is_result_type host_type.now }
{
    let is_void = matches!(host_type.name.kind, TokenKind::Void)
        && host_type.constant.is_none()
        && host_type.handle.is_none();
    is_void || is_parameter_type(host_type)
}

fn is_property_type(host_type: &HostType) -> bool
    ensures exact { result ≡ spec.is_property_type host_type.now }
{
    is_value_kind(host_type.name.kind) && host_type.handle.is_none()
}

fn is_parameter(parameter: &HostParameter) -> bool
    ensures exact { result ≡ spec.is_parameter parameter.now }
{
    parameter.reference.is_none() && is_parameter_type(&parameter.declared_type)
}

fn are_parameters(function: &HostFunction) -> bool
    ensures exact { result ≡ spec.are_parameters function.now }
{
    function
        .parameters
        .items
        .as_slice()
        .iter()
        .all(is_parameter)
}

/// Whether hosts can't use it as a function or a method.
pub fn is_function_left_out(function: &HostFunction) -> bool
    ensures exact { result ≡ spec.is_function_left_out function.now }
{
    !(is_result_type(&function.result) && are_parameters(function))
}

/// Whether hosts can't use it as a factory.
pub fn is_factory_left_out(function: &HostFunction) -> bool
    ensures exact { result ≡ spec.is_factory_left_out function.now }
{
    !are_parameters(function)
}

/// Whether hosts can't use the property.
pub fn is_property_left_out(property: &HostProperty) -> bool
    ensures exact { result ≡ spec.is_property_left_out property.now }
{
    !is_property_type(&property.declared_type)
}

/// Whether no declaration can have the type.
pub fn is_type_left_out(host_type: &HostType) -> bool
    ensures exact { result ≡ spec.is_type_left_out host_type.now }
{
    !(is_result_type(host_type) || is_property_type(host_type) || is_plain_handle(host_type))
}

/// Whether it is a function: no `const` stands after the parameters.
pub fn is_function_form(function: &HostFunction) -> bool
    ensures exact { result ≡ form.is_function_form function.now }
{
    function.constant.is_none()
}

/// Whether it is a factory: a function whose result is `T@`.
pub fn is_factory_form(function: &HostFunction) -> bool
    ensures exact { result ≡ form.is_factory_form function.now }
{
    function.constant.is_none() && is_plain_handle(&function.result)
}
