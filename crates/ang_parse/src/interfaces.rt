//! Reading interfaces.
//!
//! `limit` bounds the turns of each loop. One more than the number of tokens is always enough.
ghost use Rattle.std.specs.Prelude.{◌≡◌, [], map};
ghost use Rattle.ang_parse_read.specs.Gives.{Gives};
ghost use Rattle.ang_parse_read.specs.Read.{repeat};
ghost use Rattle.ang_tree.specs.View.{view_method, view_decl};
ghost use Rattle.ang_parse.specs.ReadClass as read;

use crate::build::with_method;
use crate::headings::heading;
use ang_lex::{Token, TokenKind};
use ang_parse_expr::type_name;
use ang_parse_read::{ReadError, a_name, a_right_brace, a_semicolon, perhaps_const};
use ang_parse_stmt::a_parameters;
use ang_tree::{Declaration, Interface, InterfaceMethod};
use std::alloc::Global;

/// Reads `type NAME params [ "const" ] ";"`.
#[tactic(auto, unfolding(crate::specs::ReadClass::method))]
fn method(
    alloc: Global,
    tokens: &[Token],
    limit: usize,
) -> Result<(InterfaceMethod, &[Token]), ReadError<'_>>
    ensures reads { Gives (λ x. (view_method x.0, x.1.now)) result (read.method limit tokens.now) }
{
    let (result, rest) = type_name(tokens)?;
    let (name, rest) = a_name(rest)?;
    let (parameters, rest) = a_parameters(alloc, rest, limit)?;
    let (constant, rest) = perhaps_const(rest);
    let (semicolon, rest) = a_semicolon(rest)?;
    Ok((
        InterfaceMethod {
            result,
            name,
            parameters,
            constant,
            semicolon,
        },
        rest,
    ))
}

/// Reads one more method.
#[tactic(auto, unfolding(crate::specs::ReadClass::next_method))]
fn next_method(
    alloc: Global,
    first: Vec<InterfaceMethod>,
    tokens: &[Token],
    limit: usize,
) -> Result<((Vec<InterfaceMethod>, bool), &[Token]), ReadError<'_>>
    ensures reads { Gives (λ x. ((map view_method x.0.0.items, x.0.1), x.1.now)) result
        (read.next_method limit (map view_method first.items) tokens.now) }
{
    let (next, rest) = method(alloc, tokens, limit)?;
    let longer = with_method(first, next)?;
    Ok(((longer, true), rest))
}

/// Reads one more method, where no right brace stands.
#[tactic(auto, unfolding(crate::specs::ReadClass::other_method))]
fn other_method(
    alloc: Global,
    first: Vec<InterfaceMethod>,
    tokens: &[Token],
    limit: usize,
) -> Result<((Vec<InterfaceMethod>, bool), &[Token]), ReadError<'_>>
    ensures reads { Gives (λ x. ((map view_method x.0.0.items, x.0.1), x.1.now)) result
        (read.other_method limit (map view_method first.items) tokens.now) }
{
    match tokens {
        [token, ..] if matches!(token.kind, TokenKind::RightBrace) => Ok(((first, false), tokens)),
        _ => next_method(alloc, first, tokens, limit),
    }
}

/// Reads methods, up to a right brace.
fn methods(
    alloc: Global,
    tokens: &[Token],
    limit: usize,
) -> Result<(Vec<InterfaceMethod>, &[Token]), ReadError<'_>>
    ensures reads { Gives (λ x. (map view_method x.0.items, x.1.now)) result
        (read.methods limit tokens.now) }
{
    let mut found = Vec::new(alloc);
    let mut rest = tokens;
    for _ in 0..limit {
        let ((longer, goes_on), after) = other_method(alloc, found, rest, limit)?;
        if !goes_on {
            return Ok((longer, after));
        }
        found = longer;
        rest = after;
    }
    Err(ReadError::Deep)
}

/// Reads an interface, after the word `interface`: its name, its bases and its methods.
///
/// # Errors
///
/// `Syntax` with the tokens from the first that cannot stand there. `Memory` where memory runs out.
/// `Deep` where `limit` is too small.
#[tactic(auto, unfolding(crate::specs::ReadClass::interface))]
pub fn interface<'a>(
    alloc: Global,
    word: Token,
    tokens: &'a [Token],
    limit: usize,
) -> Result<(Declaration, &'a [Token]), ReadError<'a>>
    ensures reads { Gives (λ x. (view_decl x.0, x.1.now)) result
        (read.interface limit word tokens.now) }
{
    let (heading, rest) = heading(alloc, tokens, limit)?;
    let (methods, rest) = methods(alloc, rest, limit)?;
    let (close, rest) = a_right_brace(rest)?;
    let interface = Interface {
        word,
        name: heading.name,
        bases: heading.bases,
        open: heading.open,
        methods,
        close,
    };
    let interface = Box::new(alloc, interface)?;
    Ok((Declaration::Interface(interface), rest))
}
