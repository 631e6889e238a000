//! Core trees of expressions made of their parts.
ghost use Rattle.std.specs.Prelude.{◌≡◌, ◌++◌, ◌∷◌, [], map as list_map, IfOk, OnOk};
ghost use Rattle.ang_lower.specs.ExprTree as tree;
ghost use Rattle.ang_lower.specs.PlainExpr.{plain_expr};
ghost use Rattle.ang_lower.specs.LoweredExpr as spec;

use ang_core::CoreExpression;
use ang_meaning::{Callee, Operation, Target};
use std::alloc::{AllocError, Global};

/// An operation on these operands.
pub fn apply(operation: Operation, operands: Vec<CoreExpression>) -> CoreExpression
    ensures exact { plain_expr result
        ≡ tree.apply operation (tree.exprs (list_map plain_expr operands.items)) }
{
    CoreExpression::Apply(operation, operands)
}

/// A call with these arguments, and targets in a box.
fn call_of(
    callee: Callee,
    arguments: Vec<CoreExpression>,
    targets: Box<Vec<Target>>,
) -> CoreExpression
    ensures exact { plain_expr result
        ≡ tree.call callee (tree.exprs (list_map plain_expr arguments.items)) targets.value.items }
{
    CoreExpression::Call(callee, arguments, targets)
}

/// A call with these arguments and targets.
pub fn call(
    alloc: Global,
    callee: Callee,
    arguments: Vec<CoreExpression>,
    targets: Vec<Target>,
) -> Result<CoreExpression, AllocError>
    ensures exact { IfOk result (λ x. plain_expr x
        ≡ tree.call callee (tree.exprs (list_map plain_expr arguments.items)) targets.items) }
{
    let targets = Box::new(alloc, targets)?;
    Ok(call_of(callee, arguments, targets))
}

/// The list with one more operand at its end.
pub fn with_operand(
    first: Vec<CoreExpression>,
    operand: CoreExpression,
) -> Result<Vec<CoreExpression>, AllocError>
    ensures exact { IfOk result (λ v. list_map plain_expr v.items ≡ list_map plain_expr first.items
        ++ (plain_expr operand ∷ [])) }
{
    let mut found = first;
    found.push(operand)?;
    Ok(found)
}

/// The list of one operand, with room for so many and no more.
fn first_operand(
    alloc: Global,
    room: usize,
    operand: CoreExpression,
) -> Result<Vec<CoreExpression>, AllocError>
    ensures exact { IfOk result (λ v. list_map plain_expr v.items ≡ plain_expr operand ∷ []) }
{
    let found = Vec::with_capacity(alloc, room)?;
    with_operand(found, operand)
}

/// One more operand at the end.
pub fn add_operand(
    found: &mut Vec<CoreExpression>,
    operand: CoreExpression,
) -> Result<(), AllocError>
    ensures exact { OnOk result (list_map plain_expr found.new.items
        ≡ list_map plain_expr found.old.items ++ (plain_expr operand ∷ [])) }
{
    found.push(operand)?;
    Ok(())
}

/// An operation without operands.
pub fn nullary(alloc: Global, operation: Operation) -> CoreExpression
    ensures exact { plain_expr result ≡ tree.apply operation tree.none }
{
    apply(operation, Vec::new(alloc))
}

/// An operation on one operand.
pub fn unary(
    alloc: Global,
    operation: Operation,
    operand: CoreExpression,
) -> Result<CoreExpression, AllocError>
    ensures exact { IfOk result (λ x. plain_expr x ≡ spec.unary operation (plain_expr operand)) }
{
    let operands = first_operand(alloc, 1, operand)?;
    Ok(apply(operation, operands))
}

/// Two operands.
#[derive(Drop)]
pub struct CoreOperands {
    /// The first operand; of a choice the value where the test is true.
    pub left: CoreExpression,
    /// The second operand; of a choice the value where the test is false.
    pub right: CoreExpression,
}

/// An operation on two operands.
pub fn binary(
    alloc: Global,
    operation: Operation,
    pair: CoreOperands,
) -> Result<CoreExpression, AllocError>
    ensures exact { IfOk result (λ x. plain_expr x
        ≡ spec.binary operation (plain_expr pair.left) (plain_expr pair.right)) }
{
    let CoreOperands { left, right } = pair;
    let first = first_operand(alloc, 2, left)?;
    let operands = with_operand(first, right)?;
    Ok(apply(operation, operands))
}

/// A choice by a test: the left one where it is true.
pub fn choice(
    alloc: Global,
    test: CoreExpression,
    pair: CoreOperands,
) -> Result<CoreExpression, AllocError>
    ensures exact { IfOk result (λ x. plain_expr x
        ≡ tree.choose (plain_expr test) (plain_expr pair.left) (plain_expr pair.right)) }
{
    let CoreOperands { left, right } = pair;
    let test = Box::new(alloc, test)?;
    let left = Box::new(alloc, left)?;
    let right = Box::new(alloc, right)?;
    Ok(CoreExpression::Choose(test, left, right))
}
