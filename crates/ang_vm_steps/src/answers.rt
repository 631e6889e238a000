//! What a call from outside gets.
ghost use Rattle.std.specs.Prelude.{◌≡◌};
ghost use Rattle.ang_code.specs.Values as spec;

use ang_kinds::{Fault, Prim, Value};
use ang_meaning::{HostValueType, Slot};
use ang_vm_numbers::value_from;

/// The driver of values that are no driver's. For a primitive type a driver's number plays no part.
const NO_DRIVER: u32 = 0;

/// The value in a slot, where it is of a primitive type.
fn value_in(ty: Option<Prim>, slot: Slot) -> Option<Value>
    ensures exact { result ≡ spec.value_in ty slot }
{
    match ty {
        Some(ty) => Some(value_from(NO_DRIVER, HostValueType::Plain(ty), slot)),
        None => None,
    }
}

/// How the end of a call is answered whose value is of that type.
///
/// # Errors
/// The fault of the script.
pub fn answer(ty: Option<Prim>, ended: Result<Slot, Fault>) -> Result<Option<Value>, Fault>
    ensures exact { result ≡ spec.answer_of ty ended }
{
    match ended {
        Ok(slot) => Ok(value_in(ty, slot)),
        Err(fault) => Err(fault),
    }
}
