//! Assignments.
ghost use Rattle.std.specs.Prelude.{◌≡◌};
ghost use Rattle.ang_types.specs.Integers.{common_type};
ghost use Rattle.ang_check_operators.specs.Refusals.{Gives};
ghost use Rattle.ang_check_operators.specs.View.{view_operand};
ghost use Rattle.ang_check_operators.specs.Operations as spec;
ghost use Rattle.ang_typed.specs.View.{view_site};

use crate::trees::{assign, compound};
use crate::{
    HandleSite, Operand, TypingError, fault, fit, integer, number, plain_operand, seat, target,
};
use ang_kinds::{ErrorKind, Operator, Place, Prim};
use ang_lex::{IntegerOperator, Token, compound_operator};
use ang_typed::TypedSite;
use ang_types::{ArgType, Lineage, common};
use std::alloc::Global;

/// A value put at a site of this type, with `=` at this place.
fn assign_in(
    alloc: Global,
    lineage: &Lineage,
    at: Place,
    place: Place,
    site: TypedSite,
    value: Operand,
    ty: ArgType,
) -> Result<Operand, TypingError>
    ensures exact { Gives view_operand result
        (spec.assign_in lineage.now at place (view_site site) (view_operand value) ty) }
{
    match ty {
        ArgType::Plain(ty) => {
            let value = fit(alloc, lineage, ArgType::Plain(ty), value)?;
            let tree = assign(alloc, site, ArgType::Plain(ty), value)?;
            Ok(plain_operand(place, ArgType::Plain(ty), tree))
        }
        ArgType::Enumeration { number } => {
            let value = fit(alloc, lineage, ArgType::Enumeration { number }, value)?;
            let tree = assign(alloc, site, ArgType::Enumeration { number }, value)?;
            Ok(plain_operand(place, ArgType::Enumeration { number }, tree))
        }
        _ => Err(fault(ErrorKind::NoAssign, at)),
    }
}

#[tactic(auto, unfolding(crate::specs::Operations::assigned))]
fn assigned(
    alloc: Global,
    lineage: &Lineage,
    at: Place,
    written: Operand,
    value: Operand,
) -> Result<Operand, TypingError>
    ensures exact { Gives view_operand result
        (spec.assigned lineage.now at (view_operand written) (view_operand value)) }
{
    let (place, ty) = (written.place, written.ty);
    let site = target(written)?;
    assign_in(alloc, lineage, at, place, site, value, ty)
}

/// `@t = e`
#[tactic(auto, unfolding(crate::specs::Operations::reseated))]
fn reseated(
    alloc: Global,
    lineage: &Lineage,
    written: Operand,
    value: Operand,
) -> Result<Operand, TypingError>
    ensures exact { Gives view_operand result
        (spec.reseated lineage.now (view_operand written) (view_operand value)) }
{
    let (place, ty) = (written.place, written.ty);
    let site = seat(written)?;
    let value = fit(alloc, lineage, ty, value)?;
    let tree = assign(alloc, site, ty, value)?;
    Ok(plain_operand(place, ty, tree))
}

fn assigned_by(
    alloc: Global,
    lineage: &Lineage,
    at: Place,
    written: Operand,
    value: Operand,
    seat: Option<HandleSite>,
) -> Result<Operand, TypingError>
    ensures exact { Gives view_operand result
        (spec.assigned_by lineage.now at (view_operand written) (view_operand value) seat) }
{
    match seat {
        None => assigned(alloc, lineage, at, written, value),
        Some(_) => reseated(alloc, lineage, written, value),
    }
}

/// A compound assignment to a site of the integer type `ty`, whose operator works in the type `operating`.
fn compound_in(
    alloc: Global,
    lineage: &Lineage,
    operator: Operator,
    place: Place,
    site: TypedSite,
    ty: Prim,
    operating: Prim,
    value: Operand,
) -> Result<Operand, TypingError>
    ensures exact { Gives view_operand result (spec.compound_in lineage.now operator place
        (view_site site) ty operating (view_operand value)) }
{
    let value = fit(alloc, lineage, ArgType::Plain(operating), value)?;
    let tree = compound(alloc, site, ty, operator, operating, value)?;
    Ok(plain_operand(place, ArgType::Plain(ty), tree))
}

#[tactic(auto, unfolding(crate::specs::Operations::compounded))]
fn compound_arithmetic(
    alloc: Global,
    lineage: &Lineage,
    operator: Operator,
    written: Operand,
    value: Operand,
) -> Result<Operand, TypingError>
    ensures exact { Gives view_operand result (spec.compounded common_type lineage.now operator
        (view_operand written) (view_operand value)) }
{
    let place = written.place;
    let own = number(&written);
    let site = target(written)?;
    let own = own?;
    let other = integer(&value)?;
    let operating = common(own, other);
    compound_in(alloc, lineage, operator, place, site, own, operating, value)
}

#[tactic(auto, unfolding(crate::specs::Operations::compounded))]
fn compound_shift(
    alloc: Global,
    lineage: &Lineage,
    operator: Operator,
    written: Operand,
    value: Operand,
) -> Result<Operand, TypingError>
    ensures exact { Gives view_operand result (spec.compounded spec.shift_type lineage.now operator
        (view_operand written) (view_operand value)) }
{
    let place = written.place;
    let own = number(&written);
    let site = target(written)?;
    let own = own?;
    let _ = integer(&value)?;
    let operating = common(own, own);
    compound_in(alloc, lineage, operator, place, site, own, operating, value)
}

fn assignment_by(
    alloc: Global,
    lineage: &Lineage,
    at: Place,
    work: Option<IntegerOperator>,
    written: Operand,
    value: Operand,
) -> Result<Operand, TypingError>
    ensures exact { Gives view_operand result
        (spec.assignment_by lineage.now at work (view_operand written) (view_operand value)) }
{
    match work {
        None => {
            let seat = written.seat;
            assigned_by(alloc, lineage, at, written, value, seat)
        }
        Some(IntegerOperator::Arithmetic(operator)) => {
            compound_arithmetic(alloc, lineage, operator, written, value)
        }
        Some(IntegerOperator::Shift(operator)) => compound_shift(
            alloc, lineage, operator, written, value,
        ),
    }
}

/// A target and its value, with `=` or a compound assignment between them. `@t = e` puts the handle `e` in the place of
/// that which stands at `t`.
///
/// # Errors
///
/// `BadConversion` at the first token of what is no target, `Const` at the name of one that can't be written; then
/// `NoAssign` at the `=` in front of which an object or a handle stands without `@`; then `BadConversion` at the first
/// token of the first operand that can't stand there. `Memory` where a growth was refused.
#[tactic(auto, unfolding(crate::specs::Operations::assignment_typing))]
#[inline(never)]
pub fn assignment(
    alloc: Global,
    lineage: &Lineage,
    written: Operand,
    operator: &Token,
    value: Operand,
) -> Result<Operand, TypingError>
    ensures exact { Gives view_operand result (spec.assignment_typing lineage.now
        (view_operand written) operator.now (view_operand value)) }
{
    let work = compound_operator(operator.kind);
    assignment_by(alloc, lineage, operator.place, work, written, value)
}
