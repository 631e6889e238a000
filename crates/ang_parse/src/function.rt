//! Reading what begins with a type at the top of a script: a function or global variables.
//!
//! `limit` bounds the nested calls of expressions and the turns of each loop, `depth` the nested calls
//! of statements. One more than the number of tokens is always enough for both.
ghost use Rattle.std.specs.Prelude.{◌≡◌, option_map};
ghost use Rattle.ang_parse_read.specs.Gives.{Gives};
ghost use Rattle.ang_tree.specs.View.{view_args, view_decl, view_params};
ghost use Rattle.ang_parse.specs.Parts.{view_group};
ghost use Rattle.ang_parse.specs.ReadFunction as read;

use crate::group::{Group, grouped};
use ang_lex::{Token, TokenKind};
use ang_parse_expr::type_name;
use ang_parse_read::{ReadError, a_name};
use ang_parse_stmt::{block, variables_behind, variables_named};
use ang_tree::{Arguments, Declaration, Function, Initializer, Parameters, TypeName, Variable};
use std::alloc::Global;

/// Reads global variables, after the arguments of the first, where there are any.
#[tactic(auto, unfolding(crate::specs::ReadFunction::constructed))]
fn constructed(
    alloc: Global,
    declared_type: TypeName,
    name: Token,
    arguments: Option<Arguments>,
    tokens: &[Token],
    limit: usize,
) -> Result<(Declaration, &[Token]), ReadError<'_>>
    ensures reads { Gives (λ x. (view_decl x.0, x.1.now)) result
        (read.perhaps_constructed limit declared_type name
        (option_map view_args arguments) tokens.now) }
{
    let Some(arguments) = arguments else {
        return Err(ReadError::Syntax(tokens));
    };
    let arguments = Box::new(alloc, arguments)?;
    let first = Variable {
        comma: None,
        name,
        initializer: Initializer::Constructor(arguments),
    };
    let (variables, rest) = variables_behind(alloc, declared_type, first, tokens, limit)?;
    let variables = Box::new(alloc, variables)?;
    Ok((Declaration::Globals(variables), rest))
}

/// Reads global variables, after the name of the first.
#[tactic(auto, unfolding(crate::specs::ReadFunction::declared))]
fn declared(
    alloc: Global,
    declared_type: TypeName,
    name: Token,
    tokens: &[Token],
    limit: usize,
) -> Result<(Declaration, &[Token]), ReadError<'_>>
    ensures reads { Gives (λ x. (view_decl x.0, x.1.now)) result
        (read.declared limit declared_type name tokens.now) }
{
    let (variables, rest) = variables_named(alloc, declared_type, name, tokens, limit)?;
    let variables = Box::new(alloc, variables)?;
    Ok((Declaration::Globals(variables), rest))
}

/// Reads a function, after the left brace of its block.
#[tactic(auto, unfolding(crate::specs::ReadFunction::bodied))]
fn bodied(
    alloc: Global,
    declared_type: TypeName,
    name: Token,
    parameters: Parameters,
    brace: Token,
    tokens: &[Token],
    depth: usize,
    limit: usize,
) -> Result<(Declaration, &[Token]), ReadError<'_>>
    ensures reads { Gives (λ x. (view_decl x.0, x.1.now)) result
        (read.bodied depth limit declared_type name (view_params parameters) brace tokens.now) }
{
    let (body, rest) = block(alloc, brace, tokens, depth, limit)?;
    let function = Function {
        result: declared_type,
        name,
        parameters,
        body,
    };
    let function = Box::new(alloc, function)?;
    Ok((Declaration::Function(function), rest))
}

/// Reads what stands after a type, a name and a group: a block, where the group is parameters, and
/// else what follows the arguments of a variable.
#[tactic(auto, unfolding(crate::specs::ReadFunction::told))]
fn told(
    alloc: Global,
    declared_type: TypeName,
    name: Token,
    group: Group,
    tokens: &[Token],
    depth: usize,
    limit: usize,
) -> Result<(Declaration, &[Token]), ReadError<'_>>
    ensures reads { Gives (λ x. (view_decl x.0, x.1.now)) result
        (read.told depth limit declared_type name (view_group group) tokens.now) }
{
    match tokens {
        [brace, rest @ ..] if matches!(brace.kind, TokenKind::LeftBrace) => {
            let Group {
                parameters,
                arguments,
            } = group;
            let Some(parameters) = parameters else {
                return constructed(alloc, declared_type, name, arguments, tokens, limit);
            };
            drop(arguments);
            bodied(
                alloc,
                declared_type,
                name,
                parameters,
                *brace,
                rest,
                depth,
                limit,
            )
        }
        _ => constructed(
            alloc,
            declared_type,
            name,
            group.into_arguments(),
            tokens,
            limit,
        ),
    }
}

/// Reads what stands after a type and a name.
#[tactic(auto, unfolding(crate::specs::ReadFunction::named, crate::specs::ReadFunction::grouped))]
fn named(
    alloc: Global,
    declared_type: TypeName,
    name: Token,
    tokens: &[Token],
    depth: usize,
    limit: usize,
) -> Result<(Declaration, &[Token]), ReadError<'_>>
    ensures reads { Gives (λ x. (view_decl x.0, x.1.now)) result
        (read.named depth limit declared_type name tokens.now) }
{
    match tokens {
        [open, rest @ ..] if matches!(open.kind, TokenKind::LeftParen) => {
            let (group, rest) = grouped(alloc, *open, rest, limit)?;
            told(alloc, declared_type, name, group, rest, depth, limit)
        }
        _ => declared(alloc, declared_type, name, tokens, limit),
    }
}

/// Reads a function or global variables, from their type on.
///
/// # Errors
///
/// `Syntax` with the tokens from the first that cannot stand there, `Memory` where memory runs out, and
/// `Deep` where a bound is too small.
#[tactic(auto, unfolding(crate::specs::ReadFunction::function_or_globals))]
pub fn function_or_globals(
    alloc: Global,
    tokens: &[Token],
    depth: usize,
    limit: usize,
) -> Result<(Declaration, &[Token]), ReadError<'_>>
    ensures reads { Gives (λ x. (view_decl x.0, x.1.now)) result
        (read.function_or_globals depth limit tokens.now) }
{
    let (declared_type, rest) = type_name(tokens)?;
    let (name, rest) = a_name(rest)?;
    named(alloc, declared_type, name, rest, depth, limit)
}
