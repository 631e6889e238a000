//! Functions and imports of the scripts, as ones that a call can mean.
ghost use Rattle.std.specs.Prelude.{◌≡◌, ◌++◌, IfOk, OnOk, slice_get};
ghost use Rattle.std.specs.List.{flat_map};
ghost use Rattle.ang_names_known.specs.Lookup as lookup;
ghost use Rattle.ang_check_uses.specs.CallableKinds as kinds;
ghost use Rattle.ang_check_uses.specs.Uses as spec;

use crate::callables::{Callables, push_callable};
use crate::hosts::{HostCallKind, push_wanted};
use crate::uses::{Callable, Called};
use ang_check_contest::{Scope, Wanted};
use ang_names_known::{BorrowedText, Names, ScriptFunction, parameters_of};
use ang_typed::TypedCallee;
use ang_types::Candidate;
use std::alloc::{AllocError, Global};

/// A list of functions that the scripts declare.
#[derive(Clone, Copy)]
pub enum FunctionList {
    /// Those with a body.
    Functions,
    /// Those that are imported.
    Imports,
}

/// The function of this number in its list.
fn called_in(declared: FunctionList, number: usize) -> Called
    ensures exact { result ≡ kinds.called_in declared number }
{
    match declared {
        FunctionList::Functions => Called::Script(TypedCallee::Own(number)),
        FunctionList::Imports => Called::Script(TypedCallee::Import(number)),
    }
}

pub fn script_callable(
    alloc: Global,
    declared: FunctionList,
    functions: &[ScriptFunction],
    number: usize,
) -> Result<Option<Callable>, AllocError>
    ensures exact { IfOk result (λ c. c
        ≡ spec.callable_in (kinds.function_in declared) number (slice_get functions.now number)) }
{
    let Some(function) = functions.get(number) else {
        return Ok(None);
    };
    let params = parameters_of(alloc, function)?;
    Ok(Some(Callable {
        called: called_in(declared, number),
        result: function.result.ty,
        candidate: Candidate { params },
        reach: None,
    }))
}

/// Puts the functions of these numbers at the end.
fn push_numbered(
    alloc: Global,
    found: &mut Callables,
    declared: FunctionList,
    functions: &[ScriptFunction],
    numbers: &[usize],
) -> Result<(), AllocError>
    ensures pushed { OnOk result (found.new ≡ found.old ++
        flat_map (spec.callable_at (kinds.function_in declared) functions.now) numbers.now) }
{
    for number in numbers {
        let callable = script_callable(alloc, declared, functions, *number)?;
        push_callable(found, callable)?;
    }
    Ok(())
}

/// The functions and the imports of the scripts of this name.
#[tactic(auto, unfolding(crate::specs::Uses::script_callables))]
fn script_callables(alloc: Global, names: &Names, name: &[u8]) -> Result<Callables, AllocError>
    ensures exact { IfOk result (λ c. c ≡ spec.script_callables names.now name.now) }
{
    let mut found = Callables::new(alloc);
    let functions = names.functions_named(name);
    push_numbered(
        alloc,
        &mut found,
        FunctionList::Functions,
        names.functions(),
        functions,
    )?;
    let imports = names.imports_named(name);
    push_numbered(
        alloc,
        &mut found,
        FunctionList::Imports,
        names.imports(),
        imports,
    )?;
    Ok(found)
}

/// The functions of this name: those of the scripts, the imports, and those that the module sees of the host.
///
/// The only error is want of memory.
pub fn functions_of(alloc: Global, scope: &Scope<'_>, name: &[u8]) -> Result<Callables, AllocError>
    ensures exact { IfOk result (λ c. c ≡ spec.functions_of scope.now name.now) }
{
    let mut found = script_callables(alloc, scope.names(), name)?;
    let wanted = Wanted::Function(BorrowedText::new(name));
    push_wanted(
        alloc,
        &mut found,
        scope.view(),
        &wanted,
        HostCallKind::Function,
    )?;
    Ok(found)
}
