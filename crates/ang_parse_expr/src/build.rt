//! Expressions made of their parts.
ghost use Rattle.std.specs.Prelude.{◌≡◌, IfOk, None};
ghost use Rattle.ang_tree.specs.Tree as tree;
ghost use Rattle.ang_tree.specs.View.{view_expr, view_args, view_items};

use ang_lex::Token;
use ang_tree::{Argument, Arguments, CastTokens, Expression};
use std::alloc::{AllocError, Global};

/// The list with one more expression at its end.
pub(crate) fn with_argument(
    first: Vec<Argument>,
    comma: Option<Token>,
    value: Expression,
) -> Result<Vec<Argument>, AllocError>
    ensures exact { IfOk result (λ v. view_items v.items
        ≡ tree.added (view_items first.items) comma (view_expr value)) }
{
    let mut found = first;
    found.push(Argument { comma, value })?;
    Ok(found)
}

/// The list of one expression, with room for that one alone.
pub(crate) fn only_argument(alloc: Global, value: Expression) -> Result<Vec<Argument>, AllocError>
    ensures exact { IfOk result (λ v. view_items v.items
        ≡ tree.more None (view_expr value) tree.none) }
{
    let room = Vec::with_capacity(alloc, 1)?;
    with_argument(room, None, value)
}

/// A call of a function by its bare name, or of a type's name.
pub(crate) fn call(
    alloc: Global,
    name: Token,
    arguments: Arguments,
) -> Result<Expression, AllocError>
    ensures exact { IfOk result (λ e. view_expr e ≡ tree.call name (view_args arguments)) }
{
    let arguments = Box::new(alloc, arguments)?;
    Ok(Expression::Call { name, arguments })
}

/// A call of a class's method by the name of both.
pub(crate) fn scoped_call(
    alloc: Global,
    class: Token,
    scope: Token,
    name: Token,
    arguments: Arguments,
) -> Result<Expression, AllocError>
    ensures exact { IfOk result (λ e. view_expr e
        ≡ tree.scoped_call class scope name (view_args arguments)) }
{
    let arguments = Box::new(alloc, arguments)?;
    Ok(Expression::ScopedCall {
        class,
        scope,
        name,
        arguments,
    })
}

/// A call of an object's method.
pub(crate) fn method_call(
    alloc: Global,
    object: Box<Expression>,
    dot: Token,
    name: Token,
    arguments: Arguments,
) -> Result<Expression, AllocError>
    ensures exact { IfOk result (λ e. view_expr e
        ≡ tree.method_call (view_expr object.value) dot name (view_args arguments)) }
{
    let arguments = Box::new(alloc, arguments)?;
    Ok(Expression::MethodCall {
        object,
        dot,
        name,
        arguments,
    })
}

/// Two expressions, each in a box.
fn boxed_both(
    alloc: Global,
    first: Expression,
    second: Expression,
) -> Result<(Box<Expression>, Box<Expression>), AllocError>
    ensures first { IfOk result (λ boxes. boxes.0.value ≡ first) }
    ensures second { IfOk result (λ boxes. boxes.1.value ≡ second) }
{
    match Box::new(alloc, first) {
        Ok(first) => {
            let second = Box::new(alloc, second)?;
            Ok((first, second))
        }
        Err(error) => {
            drop(second);
            Err(AllocError::from(error))
        }
    }
}

/// Three expressions, each in a box.
fn boxed_three(
    alloc: Global,
    first: Expression,
    second: Expression,
    third: Expression,
) -> Result<(Box<Expression>, Box<Expression>, Box<Expression>), AllocError>
    ensures first { IfOk result (λ boxes. boxes.0.value ≡ first) }
    ensures second { IfOk result (λ boxes. boxes.1.value ≡ second) }
    ensures third { IfOk result (λ boxes. boxes.2.value ≡ third) }
{
    match boxed_both(alloc, first, second) {
        Ok((first, second)) => {
            let third = Box::new(alloc, third)?;
            Ok((first, second, third))
        }
        Err(error) => {
            drop(third);
            Err(error)
        }
    }
}

/// A cast of an operand.
pub(crate) fn cast(
    alloc: Global,
    tokens: CastTokens,
    operand: Expression,
) -> Result<Expression, AllocError>
    ensures exact { IfOk result (λ e. view_expr e
        ≡ tree.cast tokens.word tokens.less tokens.target tokens.greater tokens.open
        (view_expr operand) tokens.close) }
{
    let operand = Box::new(alloc, operand)?;
    let tokens = Box::new(alloc, tokens)?;
    Ok(Expression::Cast { tokens, operand })
}

/// Two operands with an operator between them.
pub(crate) fn binary(
    alloc: Global,
    left: Expression,
    operator: Token,
    right: Expression,
) -> Result<Expression, AllocError>
    ensures exact { IfOk result (λ e. view_expr e
        ≡ tree.binary (view_expr left) operator (view_expr right)) }
{
    let (left, right) = boxed_both(alloc, left, right)?;
    Ok(Expression::Binary {
        left,
        operator,
        right,
    })
}

/// A condition and its two values.
pub(crate) fn conditional(
    alloc: Global,
    condition: Expression,
    question: Token,
    then: Expression,
    colon: Token,
    otherwise: Expression,
) -> Result<Expression, AllocError>
    ensures exact { IfOk result (λ e. view_expr e
        ≡ tree.conditional (view_expr condition) question (view_expr «then») colon
        (view_expr otherwise)) }
{
    let (condition, then, otherwise) = boxed_three(alloc, condition, then, otherwise)?;
    Ok(Expression::Conditional {
        condition,
        question,
        then,
        colon,
        otherwise,
    })
}

/// A target and its value.
pub(crate) fn assignment(
    alloc: Global,
    target: Expression,
    operator: Token,
    value: Expression,
) -> Result<Expression, AllocError>
    ensures exact { IfOk result (λ e. view_expr e
        ≡ tree.assignment (view_expr target) operator (view_expr value)) }
{
    let (target, value) = boxed_both(alloc, target, value)?;
    Ok(Expression::Assignment {
        target,
        operator,
        value,
    })
}
