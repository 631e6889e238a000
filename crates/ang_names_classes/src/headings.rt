//! Headings as they are written, with what their types mean.
ghost use Rattle.std.specs.Prelude.{◌≡◌, map as list_map, IfOk};
ghost use Rattle.ang_names_classes.specs.Headings as spec;

use ang_kinds::List;
use ang_lex::Token;
use ang_names_known::{Origin, ScriptFunction, ScriptParameter, Space, Written};
use ang_names_listed::{TypePosition, copy_at, name_at, pass_of, written_in};
use ang_tree::{Parameter, TypeName};
use ang_types::ArgType;
use std::alloc::{AllocError, Global};

/// The role of a parameter of an import, or of any other function.
pub fn parameter_role(imported: bool, parameter: &Parameter) -> TypePosition
    ensures exact { result ≡ spec.parameter_role imported parameter.now }
{
    let pass = pass_of(&parameter.reference);
    if imported {
        TypePosition::ImportParameter(pass)
    } else {
        TypePosition::Parameter(pass)
    }
}

fn parameter_of(
    alloc: Global,
    space: &Space<'_>,
    text: &[u8],
    imported: bool,
    parameter: &Parameter,
) -> Result<ScriptParameter, AllocError>
    ensures exact { IfOk result
        (λ p. p ≡ spec.parameter_of space.now text.now imported parameter.now) }
{
    let name = name_at(alloc, text, &parameter.name)?;
    let role = parameter_role(imported, parameter);
    Ok(ScriptParameter {
        written: written_in(space, role, text, &parameter.declared_type),
        pass: pass_of(&parameter.reference),
        name,
    })
}

/// The parameters of an import, or of any other function.
///
/// The only error is want of memory.
pub fn parameters_of(
    alloc: Global,
    space: &Space<'_>,
    text: &[u8],
    imported: bool,
    params: &[Parameter],
) -> Result<List<ScriptParameter>, AllocError>
    ensures exact { IfOk result
        (λ ps. ps ≡ list_map (spec.parameter_of space.now text.now imported) params.now) }
{
    let mut found = Vec::with_capacity(alloc, params.len())?;
    for param in params {
        let one = parameter_of(alloc, space, text, imported, param)?;
        found.push(one)?;
    }
    Ok(List::from_vec(found))
}

/// A function with this result and these parameters.
///
/// The only error is want of memory.
pub fn function_with(
    alloc: Global,
    origin: Origin,
    text: &[u8],
    name: &Token,
    result_type: Written,
    params: List<ScriptParameter>,
) -> Result<ScriptFunction, AllocError>
    ensures exact { IfOk result (λ f. f
        ≡ spec.function_with origin text.now name.now result_type params) }
{
    Ok(ScriptFunction {
        name: copy_at(alloc, text, name)?,
        place: name.place,
        result: result_type,
        params,
        origin,
    })
}

/// The heading of a function or a method, as it is written there, with what its types mean.
///
/// The only error is want of memory.
pub fn heading_of(
    alloc: Global,
    space: &Space<'_>,
    origin: Origin,
    text: &[u8],
    name: &Token,
    declared: &TypeName,
    params: &[Parameter],
) -> Result<ScriptFunction, AllocError>
    ensures exact { IfOk result (λ f. f
        ≡ spec.heading_of space.now origin text.now name.now declared.now params.now) }
{
    let result_type = written_in(space, TypePosition::Result, text, declared);
    let params = parameters_of(alloc, space, text, false, params)?;
    function_with(alloc, origin, text, name, result_type, params)
}

/// The heading of a constructor, which gives nothing.
///
/// The only error is want of memory.
pub fn maker_of(
    alloc: Global,
    space: &Space<'_>,
    origin: Origin,
    text: &[u8],
    name: &Token,
    params: &[Parameter],
) -> Result<ScriptFunction, AllocError>
    ensures exact { IfOk result
        (λ f. f ≡ spec.maker_of space.now origin text.now name.now params.now) }
{
    let nothing = Written {
        ty: ArgType::Void,
        constant: false,
        const_handle: false,
    };
    let params = parameters_of(alloc, space, text, false, params)?;
    function_with(alloc, origin, text, name, nothing, params)
}
