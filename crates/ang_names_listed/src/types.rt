//! What written types mean, and where they can stand.
ghost use Rattle.std.specs.Prelude.{◌≡◌};
ghost use Rattle.std.specs.Option.{option_map_or};
ghost use Rattle.ang_kinds.specs.declared.types.Pass.TheVariants as passing;
ghost use Rattle.ang_names_listed.specs.Types as spec;

use crate::role::TypePosition;
use ang_kinds::{ErrorKind, Pass};
use ang_lex::{Token, TokenKind, text_of};
use ang_names_known::{FIRST_FAMILY, Named, Space, Written};
use ang_tree::{Handle, Reference, TypeName};
use ang_types::ArgType;

/// A primitive type, an enumeration and `void` have no handles.
fn without_handle(ty: ArgType, handle: &Option<Handle>) -> Result<ArgType, ErrorKind>
    ensures exact { result ≡ spec.without_handle ty handle.now }
{
    match handle {
        None => Ok(ty),
        Some(_) => Err(ErrorKind::BadType),
    }
}

fn object_type(named: Named, read_only: bool, handle: &Option<Handle>) -> Result<ArgType, ErrorKind>
    ensures exact { result ≡ spec.object_type named read_only handle.now }
{
    match named {
        Named::Unknown => Err(ErrorKind::UnknownType),
        Named::Object(number) => match handle {
            None => Ok(ArgType::Object { number, read_only }),
            Some(_) => Ok(ArgType::Handle { number, read_only }),
        },
        Named::Enumeration(number) => without_handle(ArgType::Enumeration { number }, handle),
    }
}

fn written_type(space: &Space<'_>, text: &[u8], declared: &TypeName) -> Result<ArgType, ErrorKind>
    ensures exact { result ≡ spec.written_type space.now text.now declared.now
        declared.now.name.kind }
{
    match declared.name.kind {
        TokenKind::Primitive(primitive) => {
            without_handle(ArgType::Plain(primitive), &declared.handle)
        }
        TokenKind::Void => without_handle(ArgType::Void, &declared.handle),
        _ => {
            let named = space.named(text_of(text, &declared.name));
            object_type(named, declared.constant.is_some(), &declared.handle)
        }
    }
}

fn no_void(ty: ArgType) -> Result<ArgType, ErrorKind>
    ensures exact { result ≡ spec.no_void ty }
{
    match ty {
        ArgType::Void => Err(ErrorKind::BadType),
        ty => Ok(ty),
    }
}

fn no_object(ty: ArgType) -> Result<ArgType, ErrorKind>
    ensures exact { result ≡ spec.no_object ty }
{
    match ty {
        ArgType::Object { .. } => Err(ErrorKind::ByValue),
        ty => Ok(ty),
    }
}

/// `&in` takes no object but a `const` one.
fn taken_in(ty: ArgType) -> Result<ArgType, ErrorKind>
    ensures exact { result ≡ spec.taken_in ty }
{
    match ty {
        ArgType::Object { read_only, .. } => {
            if read_only {
                Ok(ty)
            } else {
                Err(ErrorKind::ByValue)
            }
        }
        ty => Ok(ty),
    }
}

/// `&inout` takes objects alone.
fn changed(ty: ArgType) -> Result<ArgType, ErrorKind>
    ensures exact { result ≡ spec.changed ty }
{
    match ty {
        ArgType::Object { .. } => Ok(ty),
        ArgType::Void
        | ArgType::Null
        | ArgType::Plain(_)
        | ArgType::Enumeration { .. }
        | ArgType::Handle { .. } => Err(ErrorKind::BadType),
    }
}

fn passed(pass: Pass, ty: ArgType) -> Result<ArgType, ErrorKind>
    ensures exact { result ≡ spec.passed pass ty }
{
    match pass {
        Pass::Value | Pass::RefOut => no_object(ty),
        Pass::RefIn => taken_in(ty),
        Pass::RefInOut => changed(ty),
    }
}

/// What passes between modules: a handle to a host type, and a primitive or an enumeration by value.
fn crossing(by_value: bool, ty: ArgType) -> Result<ArgType, ErrorKind>
    ensures exact { result ≡ spec.crossing by_value ty }
{
    match ty {
        ArgType::Void => Ok(ty),
        ArgType::Plain(_) | ArgType::Enumeration { .. } => {
            if by_value {
                Ok(ty)
            } else {
                Err(ErrorKind::BadImport)
            }
        }
        ArgType::Handle { number, .. } => {
            if number < FIRST_FAMILY {
                Ok(ty)
            } else {
                Err(ErrorKind::BadImport)
            }
        }
        ArgType::Null | ArgType::Object { .. } => Err(ErrorKind::BadImport),
    }
}

/// Whether an argument passes by value.
pub fn is_by_value(pass: Pass) -> bool
    ensures exact { result ≡ spec.is_by_value pass }
{
    match pass {
        Pass::Value => true,
        Pass::RefIn | Pass::RefOut | Pass::RefInOut => false,
    }
}

/// A cast gives a handle, whether `@` is written or not.
fn cast_to(ty: ArgType) -> Result<ArgType, ErrorKind>
    ensures exact { result ≡ spec.cast_to ty }
{
    match ty {
        ArgType::Object { number, read_only } | ArgType::Handle { number, read_only } => {
            Ok(ArgType::Handle { number, read_only })
        }
        ArgType::Void | ArgType::Null | ArgType::Plain(_) | ArgType::Enumeration { .. } => {
            Err(ErrorKind::BadType)
        }
    }
}

fn parameter_type(pass: Pass, ty: ArgType) -> Result<ArgType, ErrorKind>
    ensures exact { result ≡ spec.admitted (TypePosition.Parameter pass) ty }
{
    passed(pass, no_void(ty)?)
}

fn admitted(role: TypePosition, ty: ArgType) -> Result<ArgType, ErrorKind>
    ensures exact { result ≡ spec.admitted role ty }
{
    match role {
        TypePosition::Result => no_object(ty),
        TypePosition::Variable => no_void(ty),
        TypePosition::Field => no_object(no_void(ty)?),
        TypePosition::Parameter(pass) => parameter_type(pass, ty),
        TypePosition::ImportResult => crossing(true, no_object(ty)?),
        TypePosition::ImportParameter(pass) => crossing(
            is_by_value(pass),
            parameter_type(pass, ty)?,
        ),
        TypePosition::Cast => cast_to(ty),
    }
}

/// The type that is written where it has this role.
///
/// `UnknownType` where the name is that of no type; `BadType` of a handle to a primitive type, an enumeration or `void`, of `void`
/// that is no result, and of `&inout` of what is no object; `ByValue` of an object where none can be by value; `BadImport` of
/// what does not pass between modules. It takes no memory.
#[tactic(auto, unfolding(crate::specs::Types::type_in))]
pub fn type_in(
    space: &Space<'_>,
    role: TypePosition,
    text: &[u8],
    declared: &TypeName,
) -> Result<ArgType, ErrorKind>
    ensures exact { result ≡ spec.type_in space.now role text.now declared.now }
{
    admitted(role, written_type(space, text, declared)?)
}

fn pass_in(direction: &Option<Token>) -> Pass
    ensures exact { result
        ≡ option_map_or (λ word. spec.pass_by word.kind) direction.now passing.RefInOut }
{
    match direction {
        None => Pass::RefInOut,
        Some(word) => match word.kind {
            TokenKind::In => Pass::RefIn,
            TokenKind::Out => Pass::RefOut,
            _ => Pass::RefInOut,
        },
    }
}

/// How an argument is passed, by what stands after the parameter's type: `&` alone is `&inout` (the AngelScript
/// manual, "Parameter references").
pub fn pass_of(reference: &Option<Reference>) -> Pass
    ensures exact { result ≡ spec.pass_of reference.now }
{
    match reference {
        None => Pass::Value,
        Some(reference) => pass_in(&reference.direction),
    }
}

/// Whether `const` stands after `@`.
pub fn is_const_handle(handle: &Option<Handle>) -> bool
    ensures exact { result ≡ spec.is_const_handle handle.now }
{
    match handle {
        None => false,
        Some(handle) => handle.constant.is_some(),
    }
}

fn settled(meaning: Result<ArgType, ErrorKind>) -> ArgType
    ensures exact { result ≡ spec.settled meaning }
{
    match meaning {
        Ok(ty) => ty,
        Err(_) => ArgType::Void,
    }
}

/// A type as it is written, with what it means: `void` where it is no type, which phases have refused by then.
/// It takes no memory.
pub fn written_in(
    space: &Space<'_>,
    role: TypePosition,
    text: &[u8],
    declared: &TypeName,
) -> Written
    ensures exact { result ≡ spec.written_in space.now role text.now declared.now }
{
    Written {
        ty: settled(type_in(space, role, text, declared)),
        constant: declared.constant.is_some(),
        const_handle: is_const_handle(&declared.handle),
    }
}
