//! The typing of expressions.
//!
//! What nests 250 deep has as many frames of `typing` and of one function below it on the stack. So what names, calls and
//! operators need for themselves stands in frames that are gone when the next operand is typed: those functions are marked.
ghost use Rattle.std.specs.Prelude.{◌≡◌, IfOk, true, ◌++◌, ◌∷◌, []};
ghost use Rattle.ang_tree.specs.View as trees;
ghost use Rattle.ang_check_operators.specs.Refusals.{Gives};
ghost use Rattle.ang_check_operators.specs.View.{view_operand, view_operands};
ghost use Rattle.ang_check_typing.specs.Operands.{has_one_operand, has_two_operands};
ghost use Rattle.ang_check_typing.specs.Operands.{has_three_operands, is_of_object};
ghost use Rattle.ang_check_typing.specs.Typing as spec;

use crate::calls::{call, scoped_call};
use crate::object_methods::method_call;
use ang_check_context::{
    BodyContext, Locals, cast, cast_type, member_of, named, scoped_name, this,
};
use ang_check_operators::{
    Operand, TypingError, assignment, binary, conditional, convert, group, literal, postfix, prefix,
};
use ang_lex::{Token, TokenKind};
use ang_tree::{Argument, Expression};
use std::alloc::{AllocError, Global};

/// The list with one more operand at its end.
fn with_operand(first: Vec<Operand>, operand: Operand) -> Result<Vec<Operand>, AllocError>
    ensures exact { IfOk result (λ v. view_operands v.items
        ≡ view_operands first.items ++ (view_operand operand ∷ [])) }
{
    let mut found = first;
    found.push(operand)?;
    Ok(found)
}

/// A number, `true`, `false`, `null` or `this`.
#[inline(never)]
fn word(alloc: Global, context: &BodyContext<'_>, token: &Token) -> Result<Operand, TypingError>
    ensures exact { Gives view_operand result
        (spec.word_by context.now token.now token.now.kind) }
{
    match token.kind {
        TokenKind::This => this(alloc, context, token),
        _ => literal(alloc, token, context.text_of(token)),
    }
}

/// Expressions with commas between them, typed from left to right, with these parameters and locals
/// alive, the innermost last.
///
/// # Errors
///
/// The first refusal of an item, as `typing` has it; the items after that one are not typed.
/// `Memory` where a growth was refused.
#[cycle(typing)]
pub fn typing_of_all(
    alloc: Global,
    context: &BodyContext<'_>,
    locals: &Locals<'_>,
    items: &[Argument],
) -> Result<Vec<Operand>, TypingError>
    ensures exact { Gives (λ v. view_operands v.items) result
        (spec.typing_of_all context.now locals.now (trees.view_items items.now)) }
{
    let mut found = Vec::new(alloc);
    for item in items {
        let operand = typing(alloc, context, locals, &item.value)?;
        found = with_operand(found, operand)?;
    }
    Ok(found)
}

/// The first two operands of a `?:`, while the third is typed.
#[derive(Drop)]
struct Asked {
    condition: Operand,
    then: Operand,
}

/// The type and the resolved tree of an expression, with these parameters and locals alive, the
/// innermost last.
///
/// # Errors
///
/// The first refusal in reading order: operands from left to right, then the operation. That of a
/// literal, a conversion or an operator comes from a function of `ang_check_operators`, which says
/// when. A name, a member or a method that is not known is `UnknownName` at the name, one that
/// can't be used there `Private` or `Protected`, and the bare name of a value that several
/// enumerations have `Ambiguous`; a call is `NoMatch`, `Ambiguous` or `Const` at the
/// name, then `BadOut` or `BadConversion` at an argument. A cast is `UnknownType` or `BadType` at
/// the type's name, then `BadConversion` at its operand.
///
/// `Memory` where a growth was refused.
#[cycle(typing)]
pub fn typing(
    alloc: Global,
    context: &BodyContext<'_>,
    locals: &Locals<'_>,
    expression: &Expression,
) -> Result<Operand, TypingError>
    ensures exact { Gives view_operand result
        (spec.typing_of context.now locals.now (trees.view_expr expression.now)) }
{
    match expression {
        Expression::Literal(token) => word(alloc, context, token),
        Expression::Name(token) => named(alloc, context, locals, token),
        Expression::Call { name, arguments } => {
            let operands = typing_of_all(alloc, context, locals, arguments.items.as_slice())?;
            call(alloc, context, locals, name, operands)
        }
        Expression::ScopedCall {
            class,
            name,
            arguments,
            ..
        } => {
            let operands = typing_of_all(alloc, context, locals, arguments.items.as_slice())?;
            scoped_call(alloc, context, class, name, operands)
        }
        Expression::ScopedName {
            enumeration,
            name,
            ..
        } => scoped_name(alloc, context, locals, enumeration, name),
        Expression::Cast { .. } | Expression::Member { .. } | Expression::MethodCall { .. } => {
            typing_over_object(alloc, context, locals, expression)
        }
        Expression::Convert { .. }
        | Expression::Parenthesized { .. }
        | Expression::Postfix { .. }
        | Expression::Prefix { .. } => typing_over_one(alloc, context, locals, expression),
        Expression::Binary { .. } | Expression::Assignment { .. } => {
            typing_over_two(alloc, context, locals, expression)
        }
        Expression::Conditional { .. } => typing_over_three(alloc, context, locals, expression),
    }
}

/// The typing of a cast, a member or a call of a method.
#[cycle(typing)]
#[inline(never)]
fn typing_over_object(
    alloc: Global,
    context: &BodyContext<'_>,
    locals: &Locals<'_>,
    expression: &Expression,
) -> Result<Operand, TypingError>
    requires kind { is_of_object (trees.view_expr expression.now) ≡ true }
    ensures exact { Gives view_operand result
        (spec.typing_of context.now locals.now (trees.view_expr expression.now)) }
{
    match expression {
        Expression::Cast { tokens, operand } => {
            let ty = cast_type(context, locals, &tokens.target)?;
            let written = typing(alloc, context, locals, operand)?;
            cast(alloc, &tokens.word, ty, written)
        }
        Expression::Member { object, name, .. } => {
            let object = typing(alloc, context, locals, object)?;
            member_of(alloc, context, object, name)
        }
        Expression::MethodCall {
            object,
            name,
            arguments,
            ..
        } => {
            let object = typing(alloc, context, locals, object)?;
            let operands = typing_of_all(alloc, context, locals, arguments.items.as_slice())?;
            method_call(alloc, context, object, name, operands)
        }
        _ => unreachable!(),
    }
}

/// The typing of an expression with one operand.
#[cycle(typing)]
#[inline(never)]
fn typing_over_one(
    alloc: Global,
    context: &BodyContext<'_>,
    locals: &Locals<'_>,
    expression: &Expression,
) -> Result<Operand, TypingError>
    requires kind { has_one_operand (trees.view_expr expression.now) ≡ true }
    ensures exact { Gives view_operand result
        (spec.typing_of context.now locals.now (trees.view_expr expression.now)) }
{
    match expression {
        Expression::Convert {
            primitive,
            operand,
            ..
        } => {
            let operand = typing(alloc, context, locals, operand)?;
            convert(alloc, context.lineage(), primitive, operand)
        }
        Expression::Parenthesized { open, inner, .. } => {
            let operand = typing(alloc, context, locals, inner)?;
            Ok(group(open.place, operand))
        }
        Expression::Postfix { operand, operator } => {
            let operand = typing(alloc, context, locals, operand)?;
            postfix(alloc, operand, operator.kind)
        }
        Expression::Prefix { operator, operand } => {
            let operand = typing(alloc, context, locals, operand)?;
            prefix(alloc, context.lineage(), operator, operand)
        }
        _ => unreachable!(),
    }
}

/// The typing of an operation on two operands, or of an assignment.
#[cycle(typing)]
#[inline(never)]
fn typing_over_two(
    alloc: Global,
    context: &BodyContext<'_>,
    locals: &Locals<'_>,
    expression: &Expression,
) -> Result<Operand, TypingError>
    requires kind { has_two_operands (trees.view_expr expression.now) ≡ true }
    ensures exact { Gives view_operand result
        (spec.typing_of context.now locals.now (trees.view_expr expression.now)) }
{
    match expression {
        Expression::Binary {
            left,
            operator,
            right,
        } => {
            let left = typing(alloc, context, locals, left)?;
            let right = typing(alloc, context, locals, right)?;
            binary(alloc, context.lineage(), left, operator.kind, right)
        }
        Expression::Assignment {
            target,
            operator,
            value,
        } => {
            let target = typing(alloc, context, locals, target)?;
            let value = typing(alloc, context, locals, value)?;
            assignment(alloc, context.lineage(), target, operator, value)
        }
        _ => unreachable!(),
    }
}

/// The typing of `?:`.
#[cycle(typing)]
#[inline(never)]
fn typing_over_three(
    alloc: Global,
    context: &BodyContext<'_>,
    locals: &Locals<'_>,
    expression: &Expression,
) -> Result<Operand, TypingError>
    requires kind { has_three_operands (trees.view_expr expression.now) ≡ true }
    ensures exact { Gives view_operand result
        (spec.typing_of context.now locals.now (trees.view_expr expression.now)) }
{
    match expression {
        Expression::Conditional {
            condition,
            then,
            otherwise,
            ..
        } => {
            let condition = typing(alloc, context, locals, condition)?;
            let then = typing(alloc, context, locals, then)?;
            let asked = Asked { condition, then };
            let otherwise = typing(alloc, context, locals, otherwise)?;
            let Asked { condition, then } = asked;
            conditional(alloc, context.lineage(), condition, then, otherwise)
        }
        _ => unreachable!(),
    }
}
