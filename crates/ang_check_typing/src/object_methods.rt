//! Methods of objects.
ghost use Rattle.std.specs.Prelude.{None};
ghost use Rattle.ang_check_operators.specs.Refusals.{Gives};
ghost use Rattle.ang_check_operators.specs.View.{view_operand, view_operands};
ghost use Rattle.ang_check_typing.specs.Calls as spec;

use crate::called::{CallSite, called_member, with_receiver};
use crate::methods::own_method;
use ang_check_context::{BodyContext, Receiver, resolved, types_of};
use ang_check_operators::{Operand, TypingError, object_of, refused};
use ang_kinds::{ErrorKind, List};
use ang_lex::Token;
use ang_names_known::family_of_type;
use ang_types::Asks;
use std::alloc::Global;

/// A call of a method of a host type.
fn host_method(
    alloc: Global,
    context: &BodyContext<'_>,
    name: &Token,
    on: Receiver,
    object: Operand,
    operands: Vec<Operand>,
) -> Result<Operand, TypingError>
    ensures exact { Gives view_operand result (spec.method_of_type context.now (view_operand object)
        name.now (view_operands operands.items) on.number on.read_only None) }
{
    let types = types_of(alloc, operands.as_slice())?;
    let asks = Asks::Method(on.number, on.read_only, List::from_vec(types));
    let resolution = resolved(alloc, context, name, &asks)?;
    let place = object.place;
    let operands = with_receiver(object, operands)?;
    let site = CallSite { place, name: *name };
    called_member(alloc, context, site, asks, operands, resolution)
}

/// A call of a method of a family of the scripts.
fn script_method(
    alloc: Global,
    context: &BodyContext<'_>,
    name: &Token,
    on: Receiver,
    family: usize,
    object: Operand,
    operands: Vec<Operand>,
) -> Result<Operand, TypingError>
    ensures exact { Gives view_operand result (spec.own_method context.now family on.number
        on.read_only name.now (view_operand object) (view_operands operands.items)) }
{
    let text = context.text_of(name);
    let methods = context.names().methods_named(alloc, family, text)?;
    own_method(alloc, context, &methods, on, name, object, operands)
}

/// A method of an object, which is its first argument.
///
/// # Errors
///
/// At the name `UnknownName` where the operand is no object or its type has no such method, `Const`, `NoMatch` or
/// `Ambiguous` where none of its methods is the best, `Private` or `Protected` of one that the body may not use,
/// besides the refusals of the arguments. `Memory` where a growth was refused.
#[tactic(auto, unfolding(crate::specs::Calls::method_call_typing))]
#[inline(never)]
pub fn method_call(
    alloc: Global,
    context: &BodyContext<'_>,
    object: Operand,
    name: &Token,
    operands: Vec<Operand>,
) -> Result<Operand, TypingError>
    ensures exact { Gives view_operand result (spec.method_call_typing context.now
        (view_operand object) name.now (view_operands operands.items)) }
{
    let Some((number, read_only)) = object_of(object.ty) else {
        return Err(refused(ErrorKind::UnknownName, name));
    };
    let on = Receiver { number, read_only };
    match family_of_type(number) {
        None => host_method(alloc, context, name, on, object, operands),
        Some(family) => script_method(alloc, context, name, on, family, object, operands),
    }
}
