//! The function of a module that a text names.
ghost use Rattle.std.specs.Prelude.{◌≡◌, ◌<◌, ◌≤◌, length, IfOk, IfSome};
ghost use Rattle.std.specs.List.{position};
ghost use Rattle.ang_names_known.specs.Lookup.{same_heading};
ghost use Rattle.ang_engine_call.specs.Named.{function_named_by, import_named_by};

use crate::declaration::declared_function;
use ang_names_known::{Names, ScriptFunction, Space, same_heading};
use ang_view::View;
use std::alloc::{AllocError, Global};

/// The number of the module's function that the text declares without its body: its place in
/// `names.functions`.
///
/// `view` is what the module saw of the host when it was built, and `names` are those of its scripts. The
/// text declares a function where it is, with a line end and `{}` after it, a script of one function and
/// nothing else, each of whose types can stand where it is written, among the types of the module
/// (docs/LANGUAGE.md, "Names of a build"). The module's function is that of the same name, the same result
/// and the same parameters, each type with its `const` as it is spelled, and each parameter with its
/// passing; names of parameters don't count. None for every other text: one that is too long, that the lexer
/// or the parser refuses, with a body of its own, with two declarations or none, with an unknown type, or of
/// a function that the module doesn't have.
///
/// The only error is want of memory.
#[tactic(auto, unfolding(crate::specs::Named::function_named_by), using(crate::proofs::Found::place_within))]
pub fn find_function(
    alloc: Global,
    view: &View,
    names: &Names,
    decl: &[u8],
) -> Result<Option<usize>, AllocError>
    requires few { length names.now.families ≤ 256 }
    ensures exact { IfOk result (λ found. found ≡ function_named_by view.now names.now decl.now) }
    ensures within { IfOk result (λ found. IfSome found
        (λ number. number < length names.now.functions)) }
{
    let space = Space::of_names(view, names);
    match declared_function(alloc, &space, decl)? {
        Some(declared) => Ok(names.function_with(&declared)),
        None => Ok(None),
    }
}

/// The place of the first of these with this heading.
fn place_of(functions: &[ScriptFunction], heading: &ScriptFunction) -> Option<usize>
    ensures exact { result ≡ position (same_heading heading.now) functions.now }
{
    functions
        .iter()
        .position(|function| same_heading(heading, function))
}

/// The number of the module's import that the text declares, as `find_function` has it of a function: its place in
/// `names.imports`, in the order of sections and text. No two imports of a build have one heading.
///
/// The only error is want of memory.
#[tactic(auto, unfolding(crate::specs::Named::import_named_by, ang_names_known::specs::Lookup::function_with))]
pub fn find_import(
    alloc: Global,
    view: &View,
    names: &Names,
    decl: &[u8],
) -> Result<Option<usize>, AllocError>
    requires few { length names.now.families ≤ 256 }
    ensures exact { IfOk result (λ found. found ≡ import_named_by view.now names.now decl.now) }
{
    let types = Space::of_names(view, names);
    match declared_function(alloc, &types, decl)? {
        Some(declared) => Ok(place_of(names.imports(), &declared)),
        None => Ok(None),
    }
}
