//! Globals before their initializers.
ghost use Rattle.std.specs.Prelude.{◌≡◌, IfOk, map as list_map};
ghost use Rattle.ang_source.specs.Meaning.{default_in};

use ang_meaning::Slot;
use ang_types::ArgType;
use std::alloc::{AllocError, Global};

/// What a variable of a type holds while nothing was stored in it: 0, `false` or null.
fn default_in(ty: ArgType) -> Slot
    ensures exact { result ≡ default_in ty }
{
    match ty {
        ArgType::Void => Slot::Bits(0),
        ArgType::Null => Slot::Script(None),
        ArgType::Plain(_) => Slot::Bits(0),
        ArgType::Enumeration { .. } => Slot::Bits(0),
        ArgType::Object { .. } => Slot::Script(None),
        ArgType::Handle { .. } => Slot::Script(None),
    }
}

/// 0, `false` or null for each global of these types.
///
/// # Errors
/// Want of memory.
pub fn defaults(alloc: Global, globals: &[ArgType]) -> Result<Vec<Slot>, AllocError>
    ensures exact { IfOk result (λ values. values.items ≡ list_map default_in globals.now) }
{
    let mut values = Vec::with_capacity(alloc, globals.len())?;
    for ty in globals {
        values.push(default_in(*ty))?;
    }
    Ok(values)
}
