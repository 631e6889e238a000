//! Two operands with a binary operator between them.
ghost use Rattle.std.specs.Prelude.{◌≡◌};
ghost use Rattle.ang_kinds.specs.declared.operator.Comparison.TheVariants as cmp;
ghost use Rattle.ang_kinds.specs.declared.primitive.Primitive.TheVariants as prim;
ghost use Rattle.ang_types.specs.Integers.{common_type};
ghost use Rattle.ang_typed.specs.Typed as t;
ghost use Rattle.ang_check_operators.specs.Operands as operands;
ghost use Rattle.ang_check_operators.specs.Refusals.{Gives};
ghost use Rattle.ang_check_operators.specs.View.{view_operand};
ghost use Rattle.ang_check_operators.specs.Operations as spec;
ghost use Rattle.ang_lex.specs.Operators as operators;

use crate::trees::{and, compare, not, operate, or, same};
use crate::{Operand, TypingError, fault, fit, identity, integer, plain_operand, truth};
use ang_kinds::{Comparison, ErrorKind, Operator, Prim};
use ang_lex::{IntegerOperator, OperatorForm, TokenKind, binary_operator};
use ang_types::{ArgType, Lineage, common};
use std::alloc::Global;

/// Both operands made values of the type in which the operator works.
fn worked_in(
    alloc: Global,
    lineage: &Lineage,
    ty: Prim,
    operator: Operator,
    left: Operand,
    right: Operand,
) -> Result<Operand, TypingError>
    ensures exact { Gives view_operand result
        (spec.worked_in lineage.now ty operator (view_operand left) (view_operand right)) }
{
    let place = left.place;
    let left = fit(alloc, lineage, ArgType::Plain(ty), left)?;
    let right = fit(alloc, lineage, ArgType::Plain(ty), right)?;
    let tree = operate(alloc, operator, ty, left, right)?;
    Ok(plain_operand(place, ArgType::Plain(ty), tree))
}

#[tactic(auto, unfolding(crate::specs::Operations::worked))]
fn arithmetic(
    alloc: Global,
    lineage: &Lineage,
    operator: Operator,
    left: Operand,
    right: Operand,
) -> Result<Operand, TypingError>
    ensures exact { Gives view_operand result
        (spec.worked common_type lineage.now operator (view_operand left) (view_operand right)) }
{
    let own = integer(&left)?;
    let other = integer(&right)?;
    worked_in(alloc, lineage, common(own, other), operator, left, right)
}

#[tactic(auto, unfolding(crate::specs::Operations::worked))]
fn shift(
    alloc: Global,
    lineage: &Lineage,
    operator: Operator,
    left: Operand,
    right: Operand,
) -> Result<Operand, TypingError>
    ensures exact { Gives view_operand result
        (spec.worked spec.shift_type lineage.now operator (view_operand left)
        (view_operand right)) }
{
    let own = integer(&left)?;
    let _ = integer(&right)?;
    worked_in(alloc, lineage, common(own, own), operator, left, right)
}

/// Both operands made values of the type in which they are compared.
fn compared_in(
    alloc: Global,
    lineage: &Lineage,
    ty: Prim,
    comparison: Comparison,
    left: Operand,
    right: Operand,
) -> Result<Operand, TypingError>
    ensures exact { Gives view_operand result
        (spec.compared_in lineage.now ty comparison (view_operand left) (view_operand right)) }
{
    let place = left.place;
    let left = fit(alloc, lineage, ArgType::Plain(ty), left)?;
    let right = fit(alloc, lineage, ArgType::Plain(ty), right)?;
    let tree = compare(alloc, comparison, ty, left, right)?;
    Ok(plain_operand(place, ArgType::Plain(Prim::Bool), tree))
}

#[tactic(auto, unfolding(crate::specs::Operations::order))]
fn order(
    alloc: Global,
    lineage: &Lineage,
    comparison: Comparison,
    left: Operand,
    right: Operand,
) -> Result<Operand, TypingError>
    ensures exact { Gives view_operand result
        (spec.order lineage.now comparison (view_operand left) (view_operand right)) }
{
    let own = integer(&left)?;
    let other = integer(&right)?;
    compared_in(alloc, lineage, common(own, other), comparison, left, right)
}

#[tactic(auto, unfolding(crate::specs::Operations::equality))]
fn equality(
    alloc: Global,
    lineage: &Lineage,
    comparison: Comparison,
    left: Operand,
    right: Operand,
) -> Result<Operand, TypingError>
    ensures exact { Gives view_operand result
        (spec.equality lineage.now comparison (view_operand left) (view_operand right)) }
{
    match left.ty {
        ArgType::Plain(Prim::Bool) => {
            compared_in(alloc, lineage, Prim::Bool, comparison, left, right)
        }
        _ => order(alloc, lineage, comparison, left, right),
    }
}

fn conjunction(alloc: Global, left: Operand, right: Operand) -> Result<Operand, TypingError>
    ensures exact { Gives view_operand result
        (spec.tested operands.truth t.and (view_operand left) (view_operand right)) }
{
    let place = left.place;
    let left = truth(left)?;
    let right = truth(right)?;
    let tree = and(alloc, left, right)?;
    Ok(plain_operand(place, ArgType::Plain(Prim::Bool), tree))
}

fn disjunction(alloc: Global, left: Operand, right: Operand) -> Result<Operand, TypingError>
    ensures exact { Gives view_operand result
        (spec.tested operands.truth t.or (view_operand left) (view_operand right)) }
{
    let place = left.place;
    let left = truth(left)?;
    let right = truth(right)?;
    let tree = or(alloc, left, right)?;
    Ok(plain_operand(place, ArgType::Plain(Prim::Bool), tree))
}

fn exclusion(alloc: Global, left: Operand, right: Operand) -> Result<Operand, TypingError>
    ensures exact { Gives view_operand result
        (spec.tested operands.truth (t.compare cmp.NotEqual prim.Bool)
        (view_operand left) (view_operand right)) }
{
    let place = left.place;
    let left = truth(left)?;
    let right = truth(right)?;
    let tree = compare(alloc, Comparison::NotEqual, Prim::Bool, left, right)?;
    Ok(plain_operand(place, ArgType::Plain(Prim::Bool), tree))
}

fn sameness(alloc: Global, left: Operand, right: Operand) -> Result<Operand, TypingError>
    ensures exact { Gives view_operand result
        (spec.tested operands.identity t.same (view_operand left) (view_operand right)) }
{
    let place = left.place;
    let left = identity(left)?;
    let right = identity(right)?;
    let tree = same(alloc, left, right)?;
    Ok(plain_operand(place, ArgType::Plain(Prim::Bool), tree))
}

fn difference(alloc: Global, left: Operand, right: Operand) -> Result<Operand, TypingError>
    ensures exact { Gives view_operand result
        (spec.tested operands.identity (λ x y. t.not (t.same x y))
        (view_operand left) (view_operand right)) }
{
    let place = left.place;
    let left = identity(left)?;
    let right = identity(right)?;
    let is_one = same(alloc, left, right)?;
    let tree = not(alloc, is_one)?;
    Ok(plain_operand(place, ArgType::Plain(Prim::Bool), tree))
}

fn formed(
    alloc: Global,
    lineage: &Lineage,
    form: Option<OperatorForm>,
    left: Operand,
    right: Operand,
) -> Result<Operand, TypingError>
    ensures exact { Gives view_operand result
        (spec.formed lineage.now form (view_operand left) (view_operand right)) }
{
    match form {
        None => Err(fault(ErrorKind::BadConversion, left.place)),
        Some(OperatorForm::Integers(IntegerOperator::Arithmetic(operator))) => {
            arithmetic(alloc, lineage, operator, left, right)
        }
        Some(OperatorForm::Integers(IntegerOperator::Shift(operator))) => shift(
            alloc, lineage, operator, left, right,
        ),
        Some(OperatorForm::Order(comparison)) => order(alloc, lineage, comparison, left, right),
        Some(OperatorForm::Equality(comparison)) => equality(
            alloc, lineage, comparison, left, right,
        ),
        Some(OperatorForm::And) => conjunction(alloc, left, right),
        Some(OperatorForm::Or) => disjunction(alloc, left, right),
        Some(OperatorForm::Xor) => exclusion(alloc, left, right),
        Some(OperatorForm::Same) => sameness(alloc, left, right),
        Some(OperatorForm::Differ) => difference(alloc, left, right),
    }
}

/// What a token does between two operands, if it is a binary operator.
fn form_of(operator: TokenKind) -> Option<OperatorForm>
    ensures exact { result ≡ operators.form_of (operators.binary_operator operator) }
{
    match binary_operator(operator) {
        Some(operator) => Some(operator.form),
        None => None,
    }
}

/// Two operands with a binary operator between them.
///
/// # Errors
///
/// `BadConversion` or, for `&&`, `||` and `xor`, `NotBool` at the first token of the first operand that can't
/// stand there. `Memory` where a growth was refused.
#[tactic(auto, unfolding(crate::specs::Operations::binary_typing))]
#[inline(never)]
pub fn binary(
    alloc: Global,
    lineage: &Lineage,
    left: Operand,
    operator: TokenKind,
    right: Operand,
) -> Result<Operand, TypingError>
    ensures exact { Gives view_operand result
        (spec.binary_typing lineage.now (view_operand left) operator (view_operand right)) }
{
    let form = form_of(operator);
    formed(alloc, lineage, form, left, right)
}
