//! One operand: operators in front of it and after it, conversions, and parentheses.
ghost use Rattle.std.specs.Prelude.{◌≡◌};
ghost use Rattle.ang_typed.specs.Typed as t;
ghost use Rattle.ang_check_operators.specs.Refusals.{Gives};
ghost use Rattle.ang_check_operators.specs.View.{view_operand};
ghost use Rattle.ang_check_operators.specs.Operations as spec;

use crate::trees::{complement, negate, not, step_of};
use crate::{
    HandleSite, Operand, SiteUse, TypingError, fault, fit, integer, number, plain_operand, target,
    truth,
};
use ang_kinds::{ErrorKind, Place, Prim};
use ang_lex::{Token, TokenKind};
use ang_typed::StepKind;
use ang_types::{ArgType, Lineage, common};
use std::alloc::Global;

#[tactic(auto, unfolding(crate::specs::Operations::of_raised))]
fn negated(
    alloc: Global,
    lineage: &Lineage,
    place: Place,
    operand: Operand,
) -> Result<Operand, TypingError>
    ensures exact { Gives view_operand result
        (spec.of_raised t.negate lineage.now place (view_operand operand)) }
{
    let own = integer(&operand)?;
    let ty = common(own, own);
    let value = fit(alloc, lineage, ArgType::Plain(ty), operand)?;
    let tree = negate(alloc, ty, value)?;
    Ok(plain_operand(place, ArgType::Plain(ty), tree))
}

#[tactic(auto, unfolding(crate::specs::Operations::of_raised))]
fn complemented(
    alloc: Global,
    lineage: &Lineage,
    place: Place,
    operand: Operand,
) -> Result<Operand, TypingError>
    ensures exact { Gives view_operand result
        (spec.of_raised t.complement lineage.now place (view_operand operand)) }
{
    let own = integer(&operand)?;
    let ty = common(own, own);
    let value = fit(alloc, lineage, ArgType::Plain(ty), operand)?;
    let tree = complement(alloc, ty, value)?;
    Ok(plain_operand(place, ArgType::Plain(ty), tree))
}

#[tactic(auto, unfolding(crate::specs::Operations::of_raised))]
fn raised_operand(
    alloc: Global,
    lineage: &Lineage,
    place: Place,
    operand: Operand,
) -> Result<Operand, TypingError>
    ensures exact { Gives view_operand result
        (spec.of_raised (λ r x. x) lineage.now place (view_operand operand)) }
{
    let own = integer(&operand)?;
    let ty = common(own, own);
    let tree = fit(alloc, lineage, ArgType::Plain(ty), operand)?;
    Ok(plain_operand(place, ArgType::Plain(ty), tree))
}

#[tactic(auto, unfolding(crate::specs::Operations::opposite))]
fn opposite(alloc: Global, place: Place, operand: Operand) -> Result<Operand, TypingError>
    ensures exact { Gives view_operand result (spec.opposite place (view_operand operand)) }
{
    let value = truth(operand)?;
    let tree = not(alloc, value)?;
    Ok(plain_operand(place, ArgType::Plain(Prim::Bool), tree))
}

fn seat_of(is_object: bool, target: Option<SiteUse>) -> Option<HandleSite>
    ensures exact { result ≡ spec.seat_of is_object target }
{
    match target {
        None => None,
        Some(target) => Some(HandleSite { target, is_object }),
    }
}

/// `@` in front of an operand.
#[tactic(auto, unfolding(crate::specs::Operations::handle_typing))]
fn handle_of(place: Place, operand: Operand) -> Result<Operand, TypingError>
    ensures exact { Gives view_operand result (spec.handle_typing place (view_operand operand)) }
{
    match operand.ty {
        ArgType::Void | ArgType::Plain(_) | ArgType::Enumeration { .. } => {
            Err(fault(ErrorKind::BadConversion, operand.place))
        }
        ArgType::Null => Ok(plain_operand(place, ArgType::Null, operand.tree)),
        ArgType::Object { number, read_only } => {
            Ok(Operand {
                place,
                ty: ArgType::Handle { number, read_only },
                tree: operand.tree,
                target: None,
                seat: seat_of(true, operand.target),
            })
        }
        ArgType::Handle { number, read_only } => {
            Ok(Operand {
                place,
                ty: ArgType::Handle { number, read_only },
                tree: operand.tree,
                target: None,
                seat: seat_of(false, operand.target),
            })
        }
    }
}

#[tactic(auto, unfolding(crate::specs::Operations::stepped))]
fn stepped(
    alloc: Global,
    step: StepKind,
    place: Place,
    operand: Operand,
) -> Result<Operand, TypingError>
    ensures exact { Gives view_operand result (spec.stepped step place (view_operand operand)) }
{
    let own = number(&operand);
    let site = target(operand)?;
    let ty = own?;
    let tree = step_of(alloc, site, ty, step)?;
    Ok(plain_operand(place, ArgType::Plain(ty), tree))
}

/// An operand with an operator in front of it.
///
/// # Errors
///
/// `NotBool` or `BadConversion` at the first token of an operand that can't stand there, for `++` and `--` also where it
/// is no site; `Const` at the name of a site that can't be changed. `Memory` where a growth was refused.
#[tactic(auto, unfolding(crate::specs::Operations::prefix_typing))]
pub fn prefix(
    alloc: Global,
    lineage: &Lineage,
    operator: &Token,
    operand: Operand,
) -> Result<Operand, TypingError>
    ensures exact { Gives view_operand result
        (spec.prefix_typing lineage.now operator.now (view_operand operand)) }
{
    match operator.kind {
        TokenKind::Not => opposite(alloc, operator.place, operand),
        TokenKind::Minus => negated(alloc, lineage, operator.place, operand),
        TokenKind::Plus => raised_operand(alloc, lineage, operator.place, operand),
        TokenKind::Tilde => complemented(alloc, lineage, operator.place, operand),
        TokenKind::Increment => stepped(alloc, StepKind::IncrementBefore, operator.place, operand),
        TokenKind::Decrement => stepped(alloc, StepKind::DecrementBefore, operator.place, operand),
        TokenKind::At => handle_of(operator.place, operand),
        _ => Err(fault(ErrorKind::BadConversion, operator.place)),
    }
}

/// An operand with `++` or `--` after it.
///
/// # Errors
///
/// The refusals that `prefix` has for `++` and `--`. `Memory` where a growth was refused.
#[tactic(auto, unfolding(crate::specs::Operations::postfix_typing))]
pub fn postfix(alloc: Global, operand: Operand, operator: TokenKind) -> Result<Operand, TypingError>
    ensures exact { Gives view_operand result
        (spec.postfix_typing (view_operand operand) operator) }
{
    let place = operand.place;
    match operator {
        TokenKind::Increment => stepped(alloc, StepKind::IncrementAfter, place, operand),
        TokenKind::Decrement => stepped(alloc, StepKind::DecrementAfter, place, operand),
        _ => Err(fault(ErrorKind::BadConversion, place)),
    }
}

/// A conversion that is written, `int8(e)` and the like, with the word in front.
///
/// # Errors
///
/// `BadConversion` at the operand's first token where it does not convert. `Memory` where a growth was refused.
#[tactic(auto, unfolding(crate::specs::Operations::convert_typing))]
pub fn convert(
    alloc: Global,
    lineage: &Lineage,
    word: &Token,
    operand: Operand,
) -> Result<Operand, TypingError>
    ensures exact { Gives view_operand result
        (spec.convert_typing lineage.now word.now (view_operand operand)) }
{
    match word.kind {
        TokenKind::Primitive(ty) => {
            let tree = fit(alloc, lineage, ArgType::Plain(ty), operand)?;
            Ok(plain_operand(word.place, ArgType::Plain(ty), tree))
        }
        _ => Err(fault(ErrorKind::BadConversion, word.place)),
    }
}

fn inside(target: Option<SiteUse>) -> Option<SiteUse>
    ensures exact { result ≡ spec.inside target }
{
    let mut target = target?;
    target.bare = false;
    Some(target)
}

/// An operand in parentheses, the first of which stands at this place. A name in them is still a target, but no bare
/// name, and `@` in them names no site. It takes no memory.
pub fn group(place: Place, operand: Operand) -> Operand
    ensures exact { view_operand result ≡ spec.group_typing place (view_operand operand) }
{
    Operand {
        place,
        ty: operand.ty,
        tree: operand.tree,
        target: inside(operand.target),
        seat: None,
    }
}
