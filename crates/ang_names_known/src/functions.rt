//! The parameters of functions and imports.
ghost use Rattle.std.specs.Prelude.{◌≡◌, IfOk};
ghost use Rattle.ang_names_known.specs.Lookup as spec;

use crate::names::ScriptFunction;
use ang_kinds::{List, Pass};
use ang_types::ArgType;
use std::alloc::{AllocError, Global};

/// The types and passings of a function's parameters, as those of a candidate.
///
/// The only error is want of memory.
#[tactic(auto, unfolding(crate::specs::Lookup::parameters_of))]
pub fn parameters_of(
    alloc: Global,
    function: &ScriptFunction,
) -> Result<List<(ArgType, Pass)>, AllocError>
    ensures exact { IfOk result (λ params. params ≡ spec.parameters_of function.now) }
{
    let written = function.params.as_slice();
    let mut params = Vec::new(alloc);
    for param in written {
        params.push((param.written.ty, param.pass))?;
    }
    Ok(List::from_vec(params))
}
