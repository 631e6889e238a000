//! Casts.
ghost use Rattle.std.specs.Prelude.{◌≡◌, Ok};
ghost use Rattle.ang_check_operators.specs.Operands as operands;
ghost use Rattle.ang_check_operators.specs.Refusals.{Gives};
ghost use Rattle.ang_check_operators.specs.View.{view_operand};
ghost use Rattle.ang_check_context.specs.Casts as spec;
ghost use Rattle.ang_check_context.specs.Scope as scopes;
ghost use Rattle.ang_names_known.specs.Spaces as spaces;
ghost use Rattle.ang_names_listed.specs.Types as types;
ghost use Rattle.ang_typed.specs.Typed as t;
ghost use Rattle.ang_typed.specs.View.{view_tree};

use crate::context::{BodyContext, type_or_refusal};
use crate::receiver::Receiver;
use crate::scope::Locals;
use ang_check_operators::{Operand, TypingError, boxed, fault, object_of, plain_operand};
use ang_kinds::{EntityNo, ErrorKind, Place};
use ang_lex::Token;
use ang_names_known::{Space, family_of_type};
use ang_names_listed::{TypePosition, type_in};
use ang_tree::TypeName;
use ang_typed::TypedExpression;
use ang_types::ArgType;
use std::alloc::Global;

fn written_type(context: &BodyContext<'_>, declared: &TypeName) -> Result<ArgType, ErrorKind>
    ensures exact { result
        ≡ types.type_in (scopes.space_of context.now) TypePosition.Cast context.now.text declared.now }
{
    let space = Space::of_names(context.view(), context.names());
    type_in(&space, TypePosition::Cast, context.text(), declared)
}

/// The type between the `<` and `>` of a cast. It takes no memory.
///
/// # Errors
///
/// At the type's name: `UnknownType` where it names no type, and `BadType` of a type that nothing is
/// cast to.
#[tactic(auto, unfolding(crate::specs::Casts::cast_type))]
pub fn cast_type(
    context: &BodyContext<'_>,
    locals: &Locals<'_>,
    declared: &TypeName,
) -> Result<ArgType, TypingError>
    ensures exact { Gives (λ ty. ty) result (spec.cast_type context.now locals.now declared.now) }
{
    let written = written_type(context, declared);
    type_or_refusal(context, locals, &declared.name, written)
}

fn asked(
    alloc: Global,
    place: Place,
    ty: ArgType,
    family: usize,
    tree: Box<TypedExpression>,
) -> Result<Operand, TypingError>
    ensures exact { Gives view_operand result
        (Ok (operands.operand place ty (t.cast family (view_tree tree)))) }
{
    let tree = boxed(
        alloc,
        TypedExpression::Cast {
            family,
            operand: tree,
        },
    )?;
    Ok(plain_operand(place, ty, tree))
}

/// A cast of a host type to itself: the operand, in which the type is named.
fn itself(
    alloc: Global,
    place: Place,
    ty: ArgType,
    number: u32,
    tree: Box<TypedExpression>,
) -> Result<Operand, TypingError>
    ensures exact { Gives view_operand result (Ok (operands.operand place ty
        (t.naming (record { 0 = number }) (view_tree tree)))) }
{
    let tree = boxed(
        alloc,
        TypedExpression::Naming {
            entity: EntityNo(number),
            operand: tree,
        },
    )?;
    Ok(plain_operand(place, ty, tree))
}

/// A cast to a handle of this type, of an object of the type of the number `from`.
fn cast_between(
    alloc: Global,
    place: Place,
    to: Receiver,
    written: Operand,
    from: u32,
) -> Result<Operand, TypingError>
    ensures exact { Gives view_operand result (spec.cast_between place to.number to.read_only
        (view_operand written) from
        (spaces.family_of_type to.number) (spaces.family_of_type from)) }
{
    let ty = ArgType::Handle {
        number: to.number,
        read_only: to.read_only,
    };
    match family_of_type(to.number) {
        Some(family) => match family_of_type(from) {
            Some(_) => asked(alloc, place, ty, family, written.tree),
            None => Err(fault(ErrorKind::BadConversion, written.place)),
        },
        None => match family_of_type(from) {
            Some(_) => Err(fault(ErrorKind::BadConversion, written.place)),
            None => {
                if to.number == from {
                    itself(alloc, place, ty, to.number, written.tree)
                } else {
                    Err(fault(ErrorKind::BadConversion, written.place))
                }
            }
        },
    }
}

/// A cast of an operand to this type. Between types of the scripts a cast asks the object; a host
/// type is cast to itself alone.
///
/// # Errors
///
/// `BadConversion` at the operand, where it or the type is no object or handle, or between a host
/// type and another type. `Memory` where a growth was refused.
#[tactic(auto, unfolding(crate::specs::Casts::cast_typing))]
pub fn cast(
    alloc: Global,
    word: &Token,
    ty: ArgType,
    written: Operand,
) -> Result<Operand, TypingError>
    ensures exact { Gives view_operand result
        (spec.cast_typing word.now ty (view_operand written)) }
{
    let Some((number, read_only)) = object_of(ty) else {
        return Err(fault(ErrorKind::BadConversion, written.place));
    };
    let Some((from, constant)) = object_of(written.ty) else {
        return Err(fault(ErrorKind::BadConversion, written.place));
    };
    let to = Receiver {
        number,
        read_only: read_only || constant,
    };
    cast_between(alloc, word.place, to, written, from)
}
