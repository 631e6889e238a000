//! The function that a text declares without its body.
ghost use Rattle.std.specs.Prelude.{◌≡◌, IfOk};
ghost use Rattle.ang_tree.specs.View.{view_decl, view_function, view_script};
ghost use Rattle.ang_engine_call.specs.Declaration as spec;

use ang_lex::{LexError, lex};
use ang_names::{heading_of, heading_refusal};
use ang_names_known::{Origin, ScriptFunction, Space};
use ang_parse::{ParseError, parse};
use ang_tree::{Declaration, Function, Script};
use std::alloc::{AllocError, Global};

/// Where the text's function stands, which plays no part in what it names.
const NOWHERE: Origin = Origin {
    script: 0,
    declaration: 0,
    variable: 0,
};

/// The text, a line end and `{}`.
fn with_empty_body(alloc: Global, decl: &[u8]) -> Result<Vec<u8>, AllocError>
    ensures exact { IfOk result (λ text. text.items ≡ spec.with_empty_body decl.now) }
{
    let mut text = Vec::from_slice(alloc, decl)?;
    text.extend_from_slice(b"\n{}")?;
    Ok(text)
}

/// The text as a script, if it is one.
#[tactic(auto, unfolding(crate::specs::Declaration::declarations_in))]
fn script_in(alloc: Global, text: &[u8]) -> Result<Option<Script>, AllocError>
    ensures exact { IfOk result (λ found. spec.IsScript found text.now
        (spec.declarations_in text.now)) }
{
    let tokens = match lex(alloc, text, 0) {
        Ok(tokens) => tokens,
        Err(LexError::Memory) => return Err(AllocError),
        Err(_) => return Ok(None),
    };
    match parse(alloc, text, &tokens) {
        Ok(script) => Ok(Some(script)),
        Err(ParseError::Memory) => Err(AllocError),
        Err(_) => Ok(None),
    }
}

/// The function's heading, where each of its types can stand where it is written.
fn function_heading(
    alloc: Global,
    space: &Space<'_>,
    text: &[u8],
    function: &Function,
) -> Result<Option<ScriptFunction>, AllocError>
    ensures exact { IfOk result
        (λ found. found ≡ spec.heading_by space.now text.now (view_function function.now)) }
{
    let name = &function.name;
    let params = function.parameters.items.as_slice();
    match heading_refusal(alloc, space, text, false, name, &function.result, params)? {
        Some(refused) => {
            drop(refused);
            Ok(None)
        }
        None => {
            let heading = heading_of(alloc, space, NOWHERE, text, name, &function.result, params)?;
            Ok(Some(heading))
        }
    }
}

/// The heading of a declaration that is a function.
fn heading_by(
    alloc: Global,
    space: &Space<'_>,
    text: &[u8],
    declaration: &Declaration,
) -> Result<Option<ScriptFunction>, AllocError>
    ensures exact { IfOk result
        (λ found. found ≡ spec.heading_by space.now text.now (view_decl declaration.now)) }
{
    match declaration {
        Declaration::Function(function) => function_heading(alloc, space, text, function),
        Declaration::Class(_) | Declaration::Interface(_) | Declaration::Import(_) => Ok(None),
        Declaration::Globals(_) | Declaration::Empty(_) => Ok(None),
    }
}

/// The heading of a script that is one function, and nothing else.
fn heading_alone(
    alloc: Global,
    space: &Space<'_>,
    text: &[u8],
    script: &Script,
) -> Result<Option<ScriptFunction>, AllocError>
    ensures exact { IfOk result
        (λ found. found ≡ spec.heading_of_one space.now text.now (view_script script.now)) }
{
    match script.declarations.as_slice() {
        [declaration] => heading_by(alloc, space, text, declaration),
        _ => Ok(None),
    }
}

/// The function that a text declares without its body: with a line end and `{}` after it, it is a
/// script of one function and nothing else, each of whose types can stand where it is written. Types are
/// those that the names of the space mean.
///
/// The only error is want of memory.
#[tactic(auto, unfolding(crate::specs::Declaration::declared_by))]
pub fn declared_function(
    alloc: Global,
    space: &Space<'_>,
    decl: &[u8],
) -> Result<Option<ScriptFunction>, AllocError>
    ensures exact { IfOk result (λ found. found ≡ spec.declared_by space.now decl.now) }
{
    let text = with_empty_body(alloc, decl)?;
    match script_in(alloc, &text)? {
        Some(script) => heading_alone(alloc, space, &text, &script),
        None => Ok(None),
    }
}
