//! Values of enumerations.
ghost use Rattle.std.specs.Prelude.{◌≡◌, IfOk};
ghost use Rattle.ang_check_operators.specs.Refusals.{Gives, use_refused as refusal_of};
ghost use Rattle.ang_check_operators.specs.View.{view_operand};
ghost use Rattle.ang_check_context.specs.Names as spec;
ghost use Rattle.ang_check_context.specs.Scope as scopes;
ghost use Rattle.ang_lex.specs.Text.{text_of};

use crate::context::{BodyContext, is_there, resolved};
use crate::scope::Locals;
use ang_check_operators::{Operand, TypingError, boxed, plain_operand, refused, use_refused};
use ang_check_uses::{EnumerationValue, Resolution, value_of};
use ang_kinds::{ErrorKind, Place, Prim};
use ang_lex::Token;
use ang_typed::TypedExpression;
use ang_types::{ArgType, Asks};
use std::alloc::{AllocError, Global};

/// The 64 bits in which an `int` is kept: two's complement.
fn int_bits(number: i32) -> u64
    ensures exact { result ≡ spec.int_bits number }
{
    i64::from(number).cast_unsigned()
}

/// A value of an enumeration: a number, in which its entry is named.
///
/// The only error is want of memory.
pub(crate) fn value_operand(
    alloc: Global,
    place: Place,
    value: EnumerationValue,
) -> Result<Operand, AllocError>
    ensures exact { IfOk result (λ a. view_operand a ≡ spec.value_operand place value) }
{
    let ty = ArgType::Enumeration {
        number: value.enumeration,
    };
    let operand = boxed(
        alloc,
        TypedExpression::Number {
            ty: Prim::I32,
            value: int_bits(value.number),
        },
    )?;
    let tree = boxed(
        alloc,
        TypedExpression::Naming {
            entity: value.entity,
            operand,
        },
    )?;
    Ok(plain_operand(place, ty, tree))
}

fn value_or_unknown(
    alloc: Global,
    enumeration: &Token,
    name: &Token,
    found: Option<EnumerationValue>,
) -> Result<Operand, TypingError>
    ensures exact { Gives view_operand result
        (spec.value_or_unknown enumeration.now name.now found) }
{
    match found {
        None => Err(refused(ErrorKind::UnknownName, name)),
        Some(value) => Ok(value_operand(alloc, enumeration.place, value)?),
    }
}

/// The refusal of a name in front of `::`. Only then are the locals gone through.
fn enumeration_refused(
    context: &BodyContext<'_>,
    locals: &Locals<'_>,
    kind: ErrorKind,
    name: &Token,
) -> TypingError
    ensures exact { result ≡ TypingError.Refused (refusal_of kind name.now Asks.Enumeration
        (scopes.is_there context.now locals.now (text_of context.now.text name.now))) }
{
    let is_there = is_there(context, locals, context.text_of(name));
    use_refused(kind, name, Asks::Enumeration, is_there)
}

fn scoped_name_use(
    alloc: Global,
    context: &BodyContext<'_>,
    locals: &Locals<'_>,
    enumeration: &Token,
    name: &Token,
    resolution: Resolution,
) -> Result<Operand, TypingError>
    ensures exact { Gives view_operand result
        (spec.scoped_name_use context.now enumeration.now name.now
        (scopes.is_there context.now locals.now
        (text_of context.now.text enumeration.now)) resolution) }
{
    match resolution {
        Resolution::Enumeration(number) => {
            let found = value_of(context.view(), number, context.text_of(name));
            value_or_unknown(alloc, enumeration, name, found)
        }
        Resolution::Refused(kind) => {
            Err(enumeration_refused(context, locals, kind, enumeration))
        }
        Resolution::Variable(..)
        | Resolution::Property(_)
        | Resolution::Call(_)
        | Resolution::Type(_)
        | Resolution::Value(_) => {
            let kind = ErrorKind::UnknownName;
            Err(enumeration_refused(context, locals, kind, enumeration))
        }
    }
}

/// `E::V`: a value by the names of its enumeration and of itself. A local or a member of the
/// enumeration's name plays no part.
///
/// # Errors
///
/// `UnknownName`: at the enumeration's name where the module sees none of that name, else at the
/// value's where it has none of that name. `Memory` where a growth was refused.
#[tactic(auto, unfolding(crate::specs::Names::scoped_name_typing))]
#[inline(never)]
pub fn scoped_name(
    alloc: Global,
    context: &BodyContext<'_>,
    locals: &Locals<'_>,
    enumeration: &Token,
    name: &Token,
) -> Result<Operand, TypingError>
    ensures exact { Gives view_operand result
        (spec.scoped_name_typing context.now locals.now enumeration.now name.now) }
{
    let resolution = resolved(alloc, context, enumeration, &Asks::Enumeration)?;
    scoped_name_use(alloc, context, locals, enumeration, name, resolution)
}
