//! Conversions to enumerations.
ghost use Rattle.std.specs.Prelude.{◌≡◌, ◌∷◌, []};
ghost use Rattle.ang_check_operators.specs.Refusals.{Gives};
ghost use Rattle.ang_check_operators.specs.View.{view_operand, view_operands};
ghost use Rattle.ang_check_typing.specs.Calls as spec;

use ang_check_operators::{Operand, TypingError, boxed, integer, plain_operand, refused};
use ang_kinds::{EntityNo, ErrorKind, Place, Prim};
use ang_lex::Token;
use ang_typed::TypedExpression;
use ang_types::ArgType;
use std::alloc::Global;

/// `E(x)`, which keeps the low 32 bits of a number.
fn enumerated(
    alloc: Global,
    place: Place,
    number: u32,
    operand: Operand,
) -> Result<Operand, TypingError>
    ensures exact { Gives view_operand result
        (spec.enumerated place number (view_operand operand)) }
{
    let from = integer(&operand)?;
    let converted = boxed(
        alloc,
        TypedExpression::Convert {
            from,
            to: Prim::I32,
            operand: operand.tree,
        },
    )?;
    let tree = boxed(
        alloc,
        TypedExpression::Naming {
            entity: EntityNo(number),
            operand: converted,
        },
    )?;
    Ok(plain_operand(place, ArgType::Enumeration { number }, tree))
}

/// A call of an enumeration's name, which takes one operand.
///
/// # Errors
///
/// `NoMatch` at the name where there are more operands or none, `BadConversion` at the operand where it is no integer and
/// of no enumeration. `Memory` where a growth was refused.
pub(crate) fn enumerated_of(
    alloc: Global,
    name: &Token,
    number: u32,
    operands: Vec<Operand>,
) -> Result<Operand, TypingError>
    ensures exact { Gives view_operand result
        (spec.enumerated_of name.now number (view_operands operands.items)) }
{
    let mut operands = operands;
    match operands.pop() {
        None => Err(refused(ErrorKind::NoMatch, name)),
        Some(operand) => {
            if operands.is_empty() {
                enumerated(alloc, name.place, number, operand)
            } else {
                Err(refused(ErrorKind::NoMatch, name))
            }
        }
    }
}
