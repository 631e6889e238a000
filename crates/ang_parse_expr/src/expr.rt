//! Reading expressions: a function for each rule of the grammar, over the tokens that are left.
//!
//! `depth` bounds the nested calls and the turns of each loop. One more than the number of tokens is
//! always enough.
ghost use Rattle.std.specs.Prelude.{◌≡◌, ℕ};
ghost use Rattle.ang_parse_read.specs.Gives.{Gives};
ghost use Rattle.ang_parse_read.specs.Read.{repeat};
ghost use Rattle.ang_tree.specs.View.{view_expr, view_args, view_items};
ghost use Rattle.ang_parse_expr.specs.ReadExpr as read;

use crate::build::{
    assignment, binary, call, cast, conditional, method_call, only_argument, scoped_call,
    with_argument,
};
use crate::kinds::{binds, is_assignment, is_literal, is_prefix, is_step, precedence};
use crate::types::type_name;
use ang_lex::{Token, TokenKind};
use ang_parse_read::{ReadError, a_colon, a_greater, a_left_paren, a_less, a_name, a_right_paren};
use ang_tree::{Argument, Arguments, CastTokens, Expression};
use std::alloc::Global;

/// Reads one more expression, after a comma.
#[cycle(expression)]
#[tactic(auto, unfolding(crate::specs::ReadExpr::another))]
fn another<'a>(
    alloc: Global,
    first: Vec<Argument>,
    comma: Token,
    tokens: &'a [Token],
    depth: usize,
) -> Result<((Vec<Argument>, bool), &'a [Token]), ReadError<'a>>
    ensures reads { Gives (λ x. ((view_items x.0.0.items, x.0.1), x.1.now)) result
        (read.another (read.expr depth) depth (view_items first.items) comma tokens.now) }
{
    let (value, rest) = expression(alloc, tokens, depth, 0)?;
    let longer = with_argument(first, Some(comma), value)?;
    Ok(((longer, true), rest))
}

/// Reads a comma and one more expression, where a comma stands.
#[cycle(expression)]
#[tactic(auto, unfolding(crate::specs::ReadExpr::other_expression))]
fn other_expression(
    alloc: Global,
    first: Vec<Argument>,
    tokens: &[Token],
    depth: usize,
) -> Result<((Vec<Argument>, bool), &[Token]), ReadError<'_>>
    ensures reads { Gives (λ x. ((view_items x.0.0.items, x.0.1), x.1.now)) result
        (read.other_expression (read.expr depth) depth (view_items first.items) tokens.now) }
{
    match tokens {
        [comma, rest @ ..] if matches!(comma.kind, TokenKind::Comma) => {
            another(alloc, first, *comma, rest, depth)
        }
        _ => Ok(((first, false), tokens)),
    }
}

#[cycle(expression)]
fn other_expressions(
    alloc: Global,
    first: Vec<Argument>,
    tokens: &[Token],
    depth: usize,
) -> Result<(Vec<Argument>, &[Token]), ReadError<'_>>
    ensures reads { Gives (λ x. (view_items x.0.items, x.1.now)) result
        (repeat (read.other_expression (read.expr depth) depth) depth
        (view_items first.items) tokens.now) }
{
    let mut found = first;
    let mut rest = tokens;
    for _ in 0..depth {
        let ((longer, goes_on), after) = other_expression(alloc, found, rest, depth)?;
        if !goes_on {
            return Ok((longer, after));
        }
        found = longer;
        rest = after;
    }
    Err(ReadError::Deep)
}

/// Reads one expression or more, with commas between them.
///
/// `depth` bounds the nested calls and the turns of each loop. A number above that of `tokens` is always
/// enough.
///
/// # Errors
///
/// `Syntax` with the tokens from the first that cannot stand there, or with none where they end too
/// soon. `Deep` where `depth` is too small. `Memory` where a growth was refused.
#[cycle(expression)]
#[tactic(auto, unfolding(crate::specs::ReadExpr::expressions))]
pub fn expressions(
    alloc: Global,
    tokens: &[Token],
    depth: usize,
) -> Result<(Vec<Argument>, &[Token]), ReadError<'_>>
    ensures reads { Gives (λ x. (view_items x.0.items, x.1.now)) result
        (read.expressions (read.expr depth) depth tokens.now) }
{
    let (value, rest) = expression(alloc, tokens, depth, 0)?;
    let first = only_argument(alloc, value)?;
    other_expressions(alloc, first, rest, depth)
}

/// Reads the arguments after the left parenthesis `open`, and the right one. The parenthesis `open` is
/// none of `tokens`.
///
/// `depth` bounds the nested calls and the turns of each loop. A number above that of `tokens` is always
/// enough.
///
/// # Errors
///
/// `Syntax` with the tokens from the first that cannot stand there, or with none where they end too
/// soon. `Deep` where `depth` is too small. `Memory` where a growth was refused.
#[cycle(expression)]
#[tactic(auto, unfolding(crate::specs::ReadExpr::args, crate::specs::ReadExpr::some_args))]
pub fn arguments<'a>(
    alloc: Global,
    open: Token,
    tokens: &'a [Token],
    depth: usize,
) -> Result<(Arguments, &'a [Token]), ReadError<'a>>
    ensures reads { Gives (λ x. (view_args x.0, x.1.now)) result
        (read.args (read.expr depth) depth «open» tokens.now) }
{
    if let [close, rest @ ..] = tokens
        && matches!(close.kind, TokenKind::RightParen)
    {
        let items = Vec::new(alloc);
        return Ok((
            Arguments {
                open,
                items,
                close: *close,
            },
            rest,
        ));
    }
    let (items, rest) = expressions(alloc, tokens, depth)?;
    let (close, rest) = a_right_paren(rest)?;
    Ok((Arguments { open, items, close }, rest))
}

/// Reads what stands after a name and `::`: a name, which may be called.
#[cycle(expression)]
#[tactic(auto, unfolding(crate::specs::ReadExpr::scoped))]
fn scoped<'a>(
    alloc: Global,
    class: Token,
    scope: Token,
    tokens: &'a [Token],
    depth: usize,
) -> Result<(Expression, &'a [Token]), ReadError<'a>>
    ensures reads { Gives (λ x. (view_expr x.0, x.1.now)) result
        (read.scoped (read.expr depth) depth class scope tokens.now) }
{
    let (name, rest) = a_name(tokens)?;
    if let [open, rest @ ..] = rest
        && matches!(open.kind, TokenKind::LeftParen)
    {
        let (arguments, rest) = arguments(alloc, *open, rest, depth)?;
        let called = scoped_call(alloc, class, scope, name, arguments)?;
        return Ok((called, rest));
    }
    Ok((
        Expression::ScopedName {
            enumeration: class,
            scope,
            name,
        },
        rest,
    ))
}

/// Reads what stands after a name: it may be called.
#[cycle(expression)]
#[tactic(auto, unfolding(crate::specs::ReadExpr::named))]
fn named<'a>(
    alloc: Global,
    name: Token,
    tokens: &'a [Token],
    depth: usize,
) -> Result<(Expression, &'a [Token]), ReadError<'a>>
    ensures reads { Gives (λ x. (view_expr x.0, x.1.now)) result
        (read.named (read.expr depth) depth name tokens.now) }
{
    let [token, rest @ ..] = tokens else {
        return Ok((Expression::Name(name), tokens));
    };
    match token.kind {
        TokenKind::LeftParen => {
            let (arguments, rest) = arguments(alloc, *token, rest, depth)?;
            let called = call(alloc, name, arguments)?;
            Ok((called, rest))
        }
        TokenKind::Scope => scoped(alloc, name, *token, rest, depth),
        _ => Ok((Expression::Name(name), tokens)),
    }
}

/// Reads an expression and the right parenthesis after it.
#[cycle(expression)]
#[tactic(auto, unfolding(crate::specs::ReadExpr::inside))]
fn inside(
    alloc: Global,
    tokens: &[Token],
    depth: usize,
) -> Result<((Expression, Token), &[Token]), ReadError<'_>>
    ensures reads { Gives (λ x. ((view_expr x.0.0, x.0.1), x.1.now)) result
        (read.inside (read.expr depth) depth tokens.now) }
{
    let (inner, rest) = expression(alloc, tokens, depth, 0)?;
    match a_right_paren(rest) {
        Ok((close, rest)) => Ok(((inner, close), rest)),
        Err(error) => {
            drop(inner);
            Err(error)
        }
    }
}

/// Reads what stands after the word of a primitive type.
#[cycle(expression)]
#[tactic(auto, unfolding(crate::specs::ReadExpr::converted))]
fn converted<'a>(
    alloc: Global,
    primitive: Token,
    tokens: &'a [Token],
    depth: usize,
) -> Result<(Expression, &'a [Token]), ReadError<'a>>
    ensures reads { Gives (λ x. (view_expr x.0, x.1.now)) result
        (read.converted (read.expr depth) depth primitive tokens.now) }
{
    let (open, rest) = a_left_paren(tokens)?;
    let ((operand, close), rest) = inside(alloc, rest, depth)?;
    let operand = Box::new(alloc, operand)?;
    Ok((
        Expression::Convert {
            primitive,
            open,
            operand,
            close,
        },
        rest,
    ))
}

/// Reads what stands after the word `cast`.
#[cycle(expression)]
#[tactic(auto, unfolding(crate::specs::ReadExpr::casted))]
fn casted<'a>(
    alloc: Global,
    word: Token,
    tokens: &'a [Token],
    depth: usize,
) -> Result<(Expression, &'a [Token]), ReadError<'a>>
    ensures reads { Gives (λ x. (view_expr x.0, x.1.now)) result
        (read.casted (read.expr depth) depth word tokens.now) }
{
    let (less, rest) = a_less(tokens)?;
    let (target, rest) = type_name(rest)?;
    let (greater, rest) = a_greater(rest)?;
    let (open, rest) = a_left_paren(rest)?;
    let ((operand, close), rest) = inside(alloc, rest, depth)?;
    let around = CastTokens {
        word,
        less,
        target,
        greater,
        open,
        close,
    };
    let casted = cast(alloc, around, operand)?;
    Ok((casted, rest))
}

/// Reads what stands after a left parenthesis.
#[cycle(expression)]
#[tactic(auto, unfolding(crate::specs::ReadExpr::grouped))]
fn grouped<'a>(
    alloc: Global,
    open: Token,
    tokens: &'a [Token],
    depth: usize,
) -> Result<(Expression, &'a [Token]), ReadError<'a>>
    ensures reads { Gives (λ x. (view_expr x.0, x.1.now)) result
        (read.grouped (read.expr depth) depth «open» tokens.now) }
{
    let ((inner, close), rest) = inside(alloc, tokens, depth)?;
    let inner = Box::new(alloc, inner)?;
    Ok((Expression::Parenthesized { open, inner, close }, rest))
}

#[cycle(expression)]
#[tactic(auto, unfolding(crate::specs::ReadExpr::primary))]
fn primary(
    alloc: Global,
    tokens: &[Token],
    depth: usize,
) -> Result<(Expression, &[Token]), ReadError<'_>>
    ensures reads { Gives (λ x. (view_expr x.0, x.1.now)) result
        (read.primary (read.expr depth) depth tokens.now) }
{
    let [token, rest @ ..] = tokens else {
        return Err(ReadError::Syntax(tokens));
    };
    match token.kind {
        TokenKind::Name => named(alloc, *token, rest, depth),
        TokenKind::Cast => casted(alloc, *token, rest, depth),
        TokenKind::Primitive(_) => converted(alloc, *token, rest, depth),
        TokenKind::LeftParen => grouped(alloc, *token, rest, depth),
        kind if is_literal(kind) => Ok((Expression::Literal(*token), rest)),
        _ => Err(ReadError::Syntax(tokens)),
    }
}

/// Reads what stands after a dot.
#[cycle(expression)]
#[tactic(auto, unfolding(crate::specs::ReadExpr::membered))]
fn membered<'a>(
    alloc: Global,
    object: Expression,
    dot: Token,
    tokens: &'a [Token],
    depth: usize,
) -> Result<(Expression, &'a [Token]), ReadError<'a>>
    ensures reads { Gives (λ x. (view_expr x.0, x.1.now)) result
        (read.membered (read.expr depth) depth (view_expr object) dot tokens.now) }
{
    let object = Box::new(alloc, object)?;
    let (name, rest) = a_name(tokens)?;
    if let [open, rest @ ..] = rest
        && matches!(open.kind, TokenKind::LeftParen)
    {
        let (arguments, rest) = arguments(alloc, *open, rest, depth)?;
        let called = method_call(alloc, object, dot, name, arguments)?;
        return Ok((called, rest));
    }
    Ok((Expression::Member { object, dot, name }, rest))
}

/// Reads one `++`, `--` or member after an operand, where one stands.
#[cycle(expression)]
#[tactic(auto, unfolding(crate::specs::ReadExpr::suffix))]
fn suffix(
    alloc: Global,
    first: Expression,
    tokens: &[Token],
    depth: usize,
) -> Result<((Expression, bool), &[Token]), ReadError<'_>>
    ensures reads { Gives (λ x. ((view_expr x.0.0, x.0.1), x.1.now)) result
        (read.suffix (read.expr depth) depth (view_expr first) tokens.now) }
{
    let [token, rest @ ..] = tokens else {
        return Ok(((first, false), tokens));
    };
    match token.kind {
        TokenKind::Dot => {
            let (longer, rest) = membered(alloc, first, *token, rest, depth)?;
            Ok(((longer, true), rest))
        }
        kind if is_step(kind) => {
            let operand = Box::new(alloc, first)?;
            let operator = *token;
            Ok(((Expression::Postfix { operand, operator }, true), rest))
        }
        _ => Ok(((first, false), tokens)),
    }
}

#[cycle(expression)]
fn suffixes(
    alloc: Global,
    first: Expression,
    tokens: &[Token],
    depth: usize,
) -> Result<(Expression, &[Token]), ReadError<'_>>
    ensures reads { Gives (λ x. (view_expr x.0, x.1.now)) result
        (repeat (read.suffix (read.expr depth) depth) depth (view_expr first) tokens.now) }
{
    let mut found = first;
    let mut rest = tokens;
    for _ in 0..depth {
        let ((longer, goes_on), after) = suffix(alloc, found, rest, depth)?;
        if !goes_on {
            return Ok((longer, after));
        }
        found = longer;
        rest = after;
    }
    drop(found);
    Err(ReadError::Deep)
}

#[cycle(expression)]
#[tactic(auto, unfolding(crate::specs::ReadExpr::unary, crate::specs::ReadExpr::post))]
fn unary(
    alloc: Global,
    tokens: &[Token],
    depth: usize,
) -> Result<(Expression, &[Token]), ReadError<'_>>
    ensures reads { Gives (λ x. (view_expr x.0, x.1.now)) result
        (read.unary (read.expr depth) depth tokens.now) }
{
    if let [operator, rest @ ..] = tokens
        && is_prefix(operator.kind)
    {
        let (operand, rest) = expression(alloc, rest, depth, 11)?;
        let operand = Box::new(alloc, operand)?;
        let operator = *operator;
        return Ok((Expression::Prefix { operator, operand }, rest));
    }
    let (first, rest) = primary(alloc, tokens, depth)?;
    suffixes(alloc, first, rest, depth)
}

/// Reads the right operand, after a binary operator.
#[cycle(expression)]
#[tactic(auto, unfolding(crate::specs::ReadExpr::operated))]
fn operated<'a>(
    alloc: Global,
    left: Expression,
    operator: Token,
    tokens: &'a [Token],
    depth: usize,
) -> Result<((Expression, bool), &'a [Token]), ReadError<'a>>
    ensures reads { Gives (λ x. ((view_expr x.0.0, x.0.1), x.1.now)) result
        (read.operated (read.expr depth) depth (view_expr left) operator tokens.now) }
{
    match expression(alloc, tokens, depth, precedence(operator.kind) + 1) {
        Ok((right, rest)) => {
            let whole = binary(alloc, left, operator, right)?;
            Ok(((whole, true), rest))
        }
        Err(error) => {
            drop(left);
            Err(error)
        }
    }
}

/// Reads one binary operator and its right operand, where one stands that binds as tightly as `least`.
#[cycle(expression)]
#[tactic(auto, unfolding(crate::specs::ReadExpr::operation))]
fn operation(
    alloc: Global,
    left: Expression,
    tokens: &[Token],
    depth: usize,
    least: u32,
) -> Result<((Expression, bool), &[Token]), ReadError<'_>>
    ensures reads { Gives (λ x. ((view_expr x.0.0, x.0.1), x.1.now)) result
        (read.operation (read.expr depth) depth least (view_expr left) tokens.now) }
{
    match tokens {
        [operator, rest @ ..] if binds(least, precedence(operator.kind)) => {
            operated(alloc, left, *operator, rest, depth)
        }
        _ => Ok(((left, false), tokens)),
    }
}

#[cycle(expression)]
fn operations(
    alloc: Global,
    first: Expression,
    tokens: &[Token],
    depth: usize,
    least: u32,
) -> Result<(Expression, &[Token]), ReadError<'_>>
    ensures reads { Gives (λ x. (view_expr x.0, x.1.now)) result
        (repeat (read.operation (read.expr depth) depth least) depth (view_expr first) tokens.now) }
{
    let mut left = first;
    let mut rest = tokens;
    for _ in 0..depth {
        let ((longer, goes_on), after) = operation(alloc, left, rest, depth, least)?;
        if !goes_on {
            return Ok((longer, after));
        }
        left = longer;
        rest = after;
    }
    drop(left);
    Err(ReadError::Deep)
}

/// Reads the two values of a `?:`, with the colon between them.
#[cycle(expression)]
#[tactic(auto, unfolding(crate::specs::ReadExpr::branches))]
fn branches(
    alloc: Global,
    tokens: &[Token],
    depth: usize,
) -> Result<((Expression, Token, Expression), &[Token]), ReadError<'_>>
    ensures reads { Gives (λ x. ((view_expr x.0.0, x.0.1, view_expr x.0.2), x.1.now)) result
        (read.branches (read.expr depth) depth tokens.now) }
{
    let (then, rest) = expression(alloc, tokens, depth, 0)?;
    match a_colon(rest) {
        Ok((colon, rest)) => match expression(alloc, rest, depth, 0) {
            Ok((otherwise, rest)) => Ok(((then, colon, otherwise), rest)),
            Err(error) => {
                drop(then);
                Err(error)
            }
        },
        Err(error) => {
            drop(then);
            Err(error)
        }
    }
}

/// Reads what stands after `?`.
#[cycle(expression)]
#[tactic(auto, unfolding(crate::specs::ReadExpr::conditioned))]
fn conditioned<'a>(
    alloc: Global,
    condition: Expression,
    question: Token,
    tokens: &'a [Token],
    depth: usize,
) -> Result<(Expression, &'a [Token]), ReadError<'a>>
    ensures reads { Gives (λ x. (view_expr x.0, x.1.now)) result
        (read.conditioned (read.expr depth) depth (view_expr condition) question tokens.now) }
{
    match branches(alloc, tokens, depth) {
        Ok(((then, colon, otherwise), rest)) => {
            let whole = conditional(alloc, condition, question, then, colon, otherwise)?;
            Ok((whole, rest))
        }
        Err(error) => {
            drop(condition);
            Err(error)
        }
    }
}

/// Reads what stands after an assignment operator.
#[cycle(expression)]
#[tactic(auto, unfolding(crate::specs::ReadExpr::assigned))]
fn assigned<'a>(
    alloc: Global,
    target: Expression,
    operator: Token,
    tokens: &'a [Token],
    depth: usize,
) -> Result<(Expression, &'a [Token]), ReadError<'a>>
    ensures reads { Gives (λ x. (view_expr x.0, x.1.now)) result
        (read.assigned (read.expr depth) depth (view_expr target) operator tokens.now) }
{
    match expression(alloc, tokens, depth, 0) {
        Ok((value, rest)) => {
            let whole = assignment(alloc, target, operator, value)?;
            Ok((whole, rest))
        }
        Err(error) => {
            drop(target);
            Err(error)
        }
    }
}

/// Reads the rest of a `?:` or of an assignment, where one stands.
#[cycle(expression)]
#[tactic(auto, unfolding(crate::specs::ReadExpr::tail))]
fn tail(
    alloc: Global,
    first: Expression,
    tokens: &[Token],
    depth: usize,
) -> Result<(Expression, &[Token]), ReadError<'_>>
    ensures reads { Gives (λ x. (view_expr x.0, x.1.now)) result
        (read.tail (read.expr depth) depth (view_expr first) tokens.now) }
{
    let [token, rest @ ..] = tokens else {
        return Ok((first, tokens));
    };
    match token.kind {
        TokenKind::Question => conditioned(alloc, first, *token, rest, depth),
        kind if is_assignment(kind) => assigned(alloc, first, *token, rest, depth),
        _ => Ok((first, tokens)),
    }
}

/// Reads an expression of the rule of the number `least` or a tighter one: 0 for any expression, 1 to
/// 10 for the levels of binary operators, 11 for an operand with prefixes.
///
/// `depth` bounds the nested calls and the turns of each loop. A number above that of `tokens` is always
/// enough.
///
/// # Errors
///
/// `Syntax` with the tokens from the first that cannot stand there, or with none where they end too
/// soon. `Deep` where `depth` is too small, as 0 always is. `Memory` where a growth was refused.
#[cycle(expression)]
#[tactic(auto, unfolding(crate::specs::ReadExpr::expr, crate::specs::ReadExpr::level, crate::specs::ReadExpr::term))]
pub fn expression(
    alloc: Global,
    tokens: &[Token],
    depth: usize,
    least: u32,
) -> Result<(Expression, &[Token]), ReadError<'_>>
    ensures reads { Gives (λ x. (view_expr x.0, x.1.now)) result
        (read.expr depth least tokens.now) }
{
    if depth == 0 {
        return Err(ReadError::Deep);
    }
    let inner = depth - 1;
    let (first, rest) = unary(alloc, tokens, inner)?;
    let (whole, rest) = operations(alloc, first, rest, inner, least)?;
    if least == 0 {
        tail(alloc, whole, rest, inner)
    } else {
        Ok((whole, rest))
    }
}
