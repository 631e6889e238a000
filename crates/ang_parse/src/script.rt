//! Reading a script: a function for each rule of the grammar, over the tokens that are left.
//!
//! `limit` bounds the nested calls and the turns of each loop. One more than the number of tokens is
//! always enough.
ghost use Rattle.std.specs.Prelude.{◌≡◌, [], ◌∷◌, ◌++◌, map, IfOk};
ghost use Rattle.ang_parse_read.specs.Gives.{Gives};
ghost use Rattle.ang_tree.specs.View.{view_decl};
ghost use Rattle.ang_parse.specs.ReadScript as read;

use crate::{class, final_class, function_or_globals, import, interface};
use ang_lex::{Token, TokenKind};
use ang_parse_read::ReadError;
use ang_tree::Declaration;
use std::alloc::{AllocError, Global};

/// The list with one more declaration at its end.
fn with_declaration(
    first: Vec<Declaration>,
    next: Declaration,
) -> Result<Vec<Declaration>, AllocError>
    ensures exact { IfOk result (λ v. map view_decl v.items ≡ map view_decl first.items
        ++ view_decl next ∷ []) }
{
    let mut found = first;
    found.push(next)?;
    Ok(found)
}

/// Reads a declaration, by its first token.
#[tactic(auto, unfolding(crate::specs::ReadScript::declaration))]
fn declaration(
    alloc: Global,
    tokens: &[Token],
    limit: usize,
) -> Result<(Declaration, &[Token]), ReadError<'_>>
    ensures reads { Gives (λ x. (view_decl x.0, x.1.now)) result
        (read.declaration limit tokens.now) }
{
    let [token, rest @ ..] = tokens else {
        return function_or_globals(alloc, tokens, limit, limit);
    };
    match token.kind {
        TokenKind::Class => class(alloc, None, *token, rest, limit, limit),
        TokenKind::Final => final_class(alloc, *token, rest, limit, limit),
        TokenKind::Interface => interface(alloc, *token, rest, limit),
        TokenKind::Import => import(alloc, *token, rest, limit),
        TokenKind::Semicolon => Ok((Declaration::Empty(*token), rest)),
        _ => function_or_globals(alloc, tokens, limit, limit),
    }
}

/// Reads one more declaration, where a token is left.
#[tactic(auto, unfolding(crate::specs::ReadScript::other_declaration, crate::specs::ReadScript::next_declaration))]
fn other_declaration(
    alloc: Global,
    first: Vec<Declaration>,
    tokens: &[Token],
    limit: usize,
) -> Result<((Vec<Declaration>, bool), &[Token]), ReadError<'_>>
    ensures reads { Gives (λ x. ((map view_decl x.0.0.items, x.0.1), x.1.now)) result
        (read.other_declaration limit (map view_decl first.items) tokens.now) }
{
    if tokens.is_empty() {
        return Ok(((first, false), tokens));
    }
    let (next, rest) = declaration(alloc, tokens, limit)?;
    let longer = with_declaration(first, next)?;
    Ok(((longer, true), rest))
}

/// Reads declarations, to the end.
#[tactic(auto, unfolding(crate::specs::ReadScript::script))]
pub(crate) fn script(
    alloc: Global,
    tokens: &[Token],
    limit: usize,
) -> Result<(Vec<Declaration>, &[Token]), ReadError<'_>>
    ensures reads { Gives (λ x. (map view_decl x.0.items, x.1.now)) result
        (read.script limit tokens.now) }
{
    let mut found = Vec::new(alloc);
    let mut rest = tokens;
    for _ in 0..limit {
        let ((longer, goes_on), after) = other_declaration(alloc, found, rest, limit)?;
        if !goes_on {
            return Ok((longer, after));
        }
        found = longer;
        rest = after;
    }
    Err(ReadError::Deep)
}
