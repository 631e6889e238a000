//! Types that are unknown or can't stand where they stand, and too many parameters.
ghost use Rattle.std.specs.Prelude.{◌≡◌, Some, None, IfOk, if◌then◌else◌};
ghost use Rattle.ang_types.specs.declared.asks.Asks.TheVariants as asking;
ghost use Rattle.ang_names_listed.specs.Types.{is_unknown_type as names_no_type};
ghost use Rattle.ang_names.specs.Refusals as spec;

use ang_kinds::ErrorKind;
use ang_lex::Token;
use ang_names_classes::parameter_role;
use ang_names_known::Space;
use ang_names_listed::{TypePosition, error_at, type_in};
use ang_tree::{Parameter, TypeName};
use ang_types::{ArgType, Asks, Refused};
use std::alloc::{AllocError, Global};

/// The parameters of one function.
const MOST_PARAMETERS: usize = 32;

/// Where something holds, an error at this name, with which no entry of the host could help.
///
/// The only error is want of memory.
pub fn refusal_if(
    alloc: Global,
    is_refused: bool,
    kind: ErrorKind,
    text: &[u8],
    name: &Token,
) -> Result<Option<Refused>, AllocError>
    ensures exact { IfOk result (λ r. r ≡ spec.refusal_if is_refused kind text.now name.now) }
{
    if !is_refused {
        return Ok(None);
    }
    let error = error_at(alloc, text, kind, name)?;
    Ok(Some(Refused::plain(error)))
}

fn is_unknown_type(kind: ErrorKind) -> bool
    ensures exact { result ≡ names_no_type kind }
{
    matches!(kind, ErrorKind::UnknownType)
}

fn asked_type(kind: ErrorKind) -> Option<Asks>
    ensures exact { result ≡ (if names_no_type kind then Some asking.Type else None) }
{
    if is_unknown_type(kind) {
        Some(Asks::Type)
    } else {
        None
    }
}

/// A type that is refused, at its name: an unknown name is a use of it.
fn type_refused(
    alloc: Global,
    kind: ErrorKind,
    text: &[u8],
    name: &Token,
) -> Result<Refused, AllocError>
    ensures exact { IfOk result (λ r. r ≡ spec.type_refused kind text.now name.now) }
{
    let error = error_at(alloc, text, kind, name)?;
    Ok(Refused {
        error,
        asks: asked_type(kind),
        is_there: false,
    })
}

/// Why the type of this name is refused.
fn why_refused(
    alloc: Global,
    text: &[u8],
    name: &Token,
    meaning: Result<ArgType, ErrorKind>,
) -> Result<Option<Refused>, AllocError>
    ensures exact { IfOk result (λ r. r ≡ spec.why_refused text.now name.now meaning) }
{
    match meaning {
        Ok(_) => Ok(None),
        Err(kind) => Ok(Some(type_refused(alloc, kind, text, name)?)),
    }
}

/// Why the type that is written where it has this role is refused.
///
/// The only error is want of memory.
pub fn type_refusal_of(
    alloc: Global,
    space: &Space<'_>,
    text: &[u8],
    role: TypePosition,
    declared: &TypeName,
) -> Result<Option<Refused>, AllocError>
    ensures exact { IfOk result
        (λ r. r ≡ spec.type_refusal_of space.now text.now role declared.now) }
{
    let meaning = type_in(space, role, text, declared);
    why_refused(alloc, text, &declared.name, meaning)
}

/// The first refusal of a parameter, of an import's or of another function's.
fn parameters_refusal(
    alloc: Global,
    space: &Space<'_>,
    text: &[u8],
    imported: bool,
    params: &[Parameter],
) -> Result<Option<Refused>, AllocError>
    ensures exact { IfOk result
        (λ r. r ≡ spec.parameters_refusal space.now text.now imported params.now) }
{
    for param in params {
        let role = parameter_role(imported, param);
        if let Some(refused) = type_refusal_of(alloc, space, text, role, &param.declared_type)? {
            return Ok(Some(refused));
        }
    }
    Ok(None)
}

fn parameter_limit(
    alloc: Global,
    text: &[u8],
    name: &Token,
    params: &[Parameter],
) -> Result<Option<Refused>, AllocError>
    ensures exact { IfOk result (λ r. r ≡ spec.parameter_limit text.now name.now params.now) }
{
    let is_refused = params.len() > MOST_PARAMETERS;
    refusal_if(alloc, is_refused, ErrorKind::Limit, text, name)
}

/// What is refused of what stands after a function's name: too many parameters, at the name, or the first type.
///
/// The only error is want of memory.
pub fn parameter_list_refusal(
    alloc: Global,
    space: &Space<'_>,
    text: &[u8],
    imported: bool,
    name: &Token,
    params: &[Parameter],
) -> Result<Option<Refused>, AllocError>
    ensures exact { IfOk result
        (λ r. r ≡ spec.parameter_list_refusal space.now text.now imported name.now params.now) }
{
    if let Some(refused) = parameter_limit(alloc, text, name, params)? {
        return Ok(Some(refused));
    }
    parameters_refusal(alloc, space, text, imported, params)
}

fn result_role(imported: bool) -> TypePosition
    ensures exact { result ≡ spec.result_role imported }
{
    if imported {
        TypePosition::ImportResult
    } else {
        TypePosition::Result
    }
}

/// What is refused of the heading of an import, or of any other function or a method: the first type that can't stand
/// there, or too many parameters.
///
/// The only error is want of memory.
pub fn heading_refusal(
    alloc: Global,
    space: &Space<'_>,
    text: &[u8],
    imported: bool,
    name: &Token,
    declared: &TypeName,
    params: &[Parameter],
) -> Result<Option<Refused>, AllocError>
    ensures exact { IfOk result (λ r. r
        ≡ spec.heading_refusal space.now text.now imported name.now declared.now params.now) }
{
    let role = result_role(imported);
    if let Some(refused) = type_refusal_of(alloc, space, text, role, declared)? {
        return Ok(Some(refused));
    }
    parameter_list_refusal(alloc, space, text, imported, name, params)
}
