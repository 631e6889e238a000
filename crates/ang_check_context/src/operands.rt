//! Lists of operands.
ghost use Rattle.std.specs.Prelude.{◌≡◌, IfOk};
ghost use Rattle.ang_check_operators.specs.View.{view_operands};
ghost use Rattle.ang_check_context.specs.Operands as spec;

use ang_check_operators::Operand;
use ang_types::ArgType;
use std::alloc::{AllocError, Global};

/// The types of some operands.
///
/// The only error is want of memory.
pub fn types_of(alloc: Global, operands: &[Operand]) -> Result<Vec<ArgType>, AllocError>
    ensures exact { IfOk result (λ v. v.items ≡ spec.types_of (view_operands operands.now)) }
{
    let mut types = Vec::new(alloc);
    for operand in operands {
        types.push(operand.ty)?;
    }
    Ok(types)
}
