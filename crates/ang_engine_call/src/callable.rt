//! Which functions can be called from outside.
ghost use Rattle.std.specs.Prelude.{◌≡◌, is_some};
ghost use Rattle.std.specs.List.{list_all};
ghost use Rattle.ang_types.specs.ArgTypes.{is_void, primitive_of};
ghost use Rattle.ang_engine_call.specs.Calls as spec;

use ang_kinds::Prim;
use ang_names_known::{ScriptFunction, ScriptParameter};
use ang_names_listed::is_by_value;
use ang_types::ArgType;

/// The driver of values that are no driver's. For a primitive type a driver's number plays no part.
pub const NO_DRIVER: u32 = 0;

/// The primitive type that it is, if it is one. An enumeration counts as `int`.
pub fn primitive_of(ty: ArgType) -> Option<Prim>
    ensures exact { result ≡ primitive_of ty }
{
    match ty {
        ArgType::Plain(primitive) => Some(primitive),
        ArgType::Enumeration { .. } => Some(Prim::I32),
        ArgType::Void => None,
        ArgType::Null => None,
        ArgType::Object { .. } => None,
        ArgType::Handle { .. } => None,
    }
}

fn is_void(ty: ArgType) -> bool
    ensures exact { result ≡ is_void ty }
{
    matches!(ty, ArgType::Void)
}

/// Whether it is a primitive or an enumeration by value.
fn is_plain_parameter(param: &ScriptParameter) -> bool
    ensures exact { result ≡ spec.is_plain_parameter param.now }
{
    is_by_value(param.pass) && primitive_of(param.written.ty).is_some()
}

fn are_plain(params: &[ScriptParameter]) -> bool
    ensures exact { result ≡ list_all spec.is_plain_parameter params.now }
{
    params.iter().all(|param| is_plain_parameter(param))
}

/// Whether the function can be called from outside: each of its parameters is a primitive or an enumeration by
/// value, and its result is one of these or `void`. It takes no memory.
#[tactic(auto, unfolding(crate::specs::Calls::is_callable))]
pub fn is_callable(function: &ScriptFunction) -> bool
    ensures exact { result ≡ spec.is_callable function.now }
{
    are_plain(function.params.as_slice())
        && (is_void(function.result.ty) || primitive_of(function.result.ty).is_some())
}
