//! The arguments of a call from outside.
ghost use Rattle.std.specs.Prelude.{◌≡◌, length, IfOk};
ghost use Rattle.ang_engine_call.specs.Calls as spec;

use crate::callable::{NO_DRIVER, primitive_of};
use ang_kinds::Value;
use ang_meaning::{HostValueType, Slot};
use ang_names_known::{ScriptFunction, ScriptParameter};
use ang_vm_numbers::slot_from;
use std::alloc::{AllocError, Global};

/// The slot of a value for a parameter, if the value is of its type and in its range.
fn argument_of(param: &ScriptParameter, value: &Value) -> Option<Slot>
    ensures exact { result ≡ spec.argument_of param.now value.now }
{
    match primitive_of(param.written.ty) {
        Some(of) => slot_from(NO_DRIVER, HostValueType::Plain(of), value),
        None => None,
    }
}

/// The slots of as many values as there are parameters.
fn arguments_for(
    alloc: Global,
    params: &[ScriptParameter],
    values: &[Value],
) -> Result<Option<Vec<Slot>>, AllocError>
    requires as_many { length values.now ≡ length params.now }
    ensures exact { IfOk result (λ found. spec.AreArguments found
        (spec.arguments_for params.now values.now)) }
{
    let mut slots = Vec::with_capacity(alloc, values.len())?;
    for (i, value) in values.iter().enumerate() {
        let Some(slot) = argument_of(&params[i], value) else {
            return Ok(None);
        };
        slots.push(slot)?;
    }
    Ok(Some(slots))
}

/// The slots of a call's arguments, in the order of the parameters, where the function can be called with
/// these values: there are as many as parameters, and each is of its parameter's type and in its range. A
/// signed type takes an `Int`, an unsigned one a `Uint`, `bool` a `Bool`, an enumeration what `int` takes;
/// another type takes nothing. How a parameter is passed plays no part here: see `is_callable`.
///
/// The only error is want of memory.
#[tactic(auto, unfolding(crate::specs::Calls::arguments_of))]
pub fn arguments(
    alloc: Global,
    function: &ScriptFunction,
    values: &[Value],
) -> Result<Option<Vec<Slot>>, AllocError>
    ensures exact { IfOk result (λ found. spec.AreArguments found
        (spec.arguments_of function.now values.now)) }
{
    let params = function.params.as_slice();
    if values.len() != params.len() {
        return Ok(None);
    }
    arguments_for(alloc, params, values)
}
