//! `?:`
ghost use Rattle.std.specs.Prelude.{◌≡◌};
ghost use Rattle.ang_check_operators.specs.Refusals.{Gives};
ghost use Rattle.ang_check_operators.specs.View.{view_operand};
ghost use Rattle.ang_check_operators.specs.Operations as spec;
ghost use Rattle.ang_typed.specs.View.{view_tree};

use crate::trees::choose;
use crate::{Operand, TypingError, fault, fit, integer, object_of, plain_operand, truth};
use ang_kinds::{ErrorKind, Place, Prim};
use ang_typed::TypedExpression;
use ang_types::{ArgType, Lineage, common, rank};
use std::alloc::Global;

/// Both made values of this type.
fn choice_as(
    alloc: Global,
    lineage: &Lineage,
    ty: ArgType,
    place: Place,
    condition: Box<TypedExpression>,
    chosen: Operand,
    otherwise: Operand,
) -> Result<Operand, TypingError>
    ensures exact { Gives view_operand result (spec.choice_as lineage.now ty place
        (view_tree condition) (view_operand chosen) (view_operand otherwise)) }
{
    let chosen = fit(alloc, lineage, ty, chosen)?;
    let otherwise = fit(alloc, lineage, ty, otherwise)?;
    let tree = choose(alloc, condition, chosen, otherwise)?;
    Ok(plain_operand(place, ty, tree))
}

fn choice_of_integers(
    alloc: Global,
    lineage: &Lineage,
    place: Place,
    condition: Box<TypedExpression>,
    chosen: Operand,
    otherwise: Operand,
) -> Result<Operand, TypingError>
    ensures exact { Gives view_operand result (spec.choice_of_integers lineage.now place
        (view_tree condition) (view_operand chosen) (view_operand otherwise)) }
{
    let own = integer(&chosen)?;
    let other = integer(&otherwise)?;
    let ty = ArgType::Plain(common(own, other));
    choice_as(alloc, lineage, ty, place, condition, chosen, otherwise)
}

/// Whether a value of the one type can stand for the other.
fn stands_for(lineage: &Lineage, from: ArgType, to: ArgType) -> bool
    ensures exact { result ≡ spec.stands_for lineage.now from to }
{
    match (from, to) {
        (ArgType::Handle { .. }, ArgType::Object { .. }) => false,
        _ => rank(lineage, from, to).is_some(),
    }
}

/// Of two objects or handles, as a value of the type for which the other can stand.
fn choice_of(
    alloc: Global,
    lineage: &Lineage,
    place: Place,
    condition: Box<TypedExpression>,
    chosen: Operand,
    otherwise: Operand,
) -> Result<Operand, TypingError>
    ensures exact { Gives view_operand result (spec.choice_of lineage.now place
        (view_tree condition) (view_operand chosen) (view_operand otherwise)) }
{
    let (own, other) = (chosen.ty, otherwise.ty);
    if stands_for(lineage, other, own) {
        choice_as(alloc, lineage, own, place, condition, chosen, otherwise)
    } else if stands_for(lineage, own, other) {
        choice_as(alloc, lineage, other, place, condition, chosen, otherwise)
    } else {
        Err(fault(ErrorKind::BadConversion, otherwise.place))
    }
}

fn choice_of_objects(
    alloc: Global,
    lineage: &Lineage,
    place: Place,
    condition: Box<TypedExpression>,
    chosen: Operand,
    otherwise: Operand,
    object: Option<(u32, bool)>,
) -> Result<Operand, TypingError>
    ensures exact { Gives view_operand result (spec.choice_of_objects lineage.now place
        (view_tree condition) (view_operand chosen) (view_operand otherwise) object) }
{
    match object {
        None => Err(fault(ErrorKind::BadConversion, otherwise.place)),
        Some(_) => choice_of(alloc, lineage, place, condition, chosen, otherwise),
    }
}

/// The first is of the enumeration of this number, and the other of this type.
fn choice_of_enumerations(
    alloc: Global,
    lineage: &Lineage,
    place: Place,
    condition: Box<TypedExpression>,
    chosen: Operand,
    otherwise: Operand,
    number: u32,
    other: ArgType,
) -> Result<Operand, TypingError>
    ensures exact { Gives view_operand result (spec.choice_of_enumerations lineage.now place
        (view_tree condition) (view_operand chosen) (view_operand otherwise) number other) }
{
    match other {
        ArgType::Enumeration { number: own } if number == own => {
            let ty = ArgType::Enumeration { number };
            choice_as(alloc, lineage, ty, place, condition, chosen, otherwise)
        }
        _ => choice_of_integers(alloc, lineage, place, condition, chosen, otherwise),
    }
}

#[tactic(auto, unfolding(crate::specs::Operations::choice))]
fn choice(
    alloc: Global,
    lineage: &Lineage,
    place: Place,
    condition: Box<TypedExpression>,
    chosen: Operand,
    otherwise: Operand,
) -> Result<Operand, TypingError>
    ensures exact { Gives view_operand result (spec.choice lineage.now place
        (view_tree condition) (view_operand chosen) (view_operand otherwise)) }
{
    match chosen.ty {
        ArgType::Plain(Prim::Bool) => {
            let ty = ArgType::Plain(Prim::Bool);
            choice_as(alloc, lineage, ty, place, condition, chosen, otherwise)
        }
        ArgType::Enumeration { number } => {
            let other = otherwise.ty;
            choice_of_enumerations(
                alloc, lineage, place, condition, chosen, otherwise, number, other,
            )
        }
        ArgType::Object { .. } | ArgType::Handle { .. } => {
            let object = object_of(otherwise.ty);
            choice_of_objects(alloc, lineage, place, condition, chosen, otherwise, object)
        }
        _ => choice_of_integers(alloc, lineage, place, condition, chosen, otherwise),
    }
}

/// A condition, and the two values of which it chooses one: two truth values, two of one enumeration, two integers,
/// which are made values of their common type, or objects and handles of which one can stand for the other.
///
/// # Errors
///
/// `NotBool` at the condition's first token where it is no truth value; then `BadConversion` at the first token of the
/// first value that can't stand there. `Memory` where a growth was refused.
#[tactic(auto, unfolding(crate::specs::Operations::conditional_typing))]
pub fn conditional(
    alloc: Global,
    lineage: &Lineage,
    condition: Operand,
    chosen: Operand,
    otherwise: Operand,
) -> Result<Operand, TypingError>
    ensures exact { Gives view_operand result (spec.conditional_typing lineage.now
        (view_operand condition) (view_operand chosen) (view_operand otherwise)) }
{
    let place = condition.place;
    let condition = truth(condition)?;
    choice(alloc, lineage, place, condition, chosen, otherwise)
}
