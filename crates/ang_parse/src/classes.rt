//! Reading classes.
//!
//! `limit` bounds the nested calls of expressions and the turns of each loop, `depth` the nested calls
//! of statements. One more than the number of tokens is always enough for both.
ghost use Rattle.std.specs.Prelude.{◌≡◌, [], map, Some};
ghost use Rattle.ang_parse_read.specs.Gives.{Gives};
ghost use Rattle.ang_parse_read.specs.Read.{repeat};
ghost use Rattle.ang_tree.specs.View.{view_member, view_decl};
ghost use Rattle.ang_parse.specs.ReadClass as read;

use crate::build::with_member;
use crate::headings::heading;
use crate::members::member;
use ang_lex::{Token, TokenKind};
use ang_parse_read::{ReadError, a_right_brace};
use ang_tree::{Class, Declaration, Member};
use std::alloc::Global;

/// Reads one more member, where no right brace stands.
#[tactic(auto, unfolding(crate::specs::ReadClass::other_member, crate::specs::ReadClass::next_member))]
fn other_member(
    alloc: Global,
    first: Vec<Member>,
    tokens: &[Token],
    depth: usize,
    limit: usize,
) -> Result<((Vec<Member>, bool), &[Token]), ReadError<'_>>
    ensures reads { Gives (λ x. ((map view_member x.0.0.items, x.0.1), x.1.now)) result
        (read.other_member depth limit (map view_member first.items) tokens.now) }
{
    if let [token, ..] = tokens
        && matches!(token.kind, TokenKind::RightBrace)
    {
        return Ok(((first, false), tokens));
    }
    let (next, rest) = member(alloc, tokens, depth, limit)?;
    let longer = with_member(first, next)?;
    Ok(((longer, true), rest))
}

/// Reads members, up to a right brace.
fn members(
    alloc: Global,
    tokens: &[Token],
    depth: usize,
    limit: usize,
) -> Result<(Vec<Member>, &[Token]), ReadError<'_>>
    ensures reads { Gives (λ x. (map view_member x.0.items, x.1.now)) result
        (read.members depth limit tokens.now) }
{
    let mut found = Vec::new(alloc);
    let mut rest = tokens;
    for _ in 0..limit {
        let ((longer, goes_on), after) = other_member(alloc, found, rest, depth, limit)?;
        if !goes_on {
            return Ok((longer, after));
        }
        found = longer;
        rest = after;
    }
    Err(ReadError::Deep)
}

/// Reads a class, after the word `class`: its name, its bases and its members. `final_word` is the
/// word `final`, where it stands in front.
///
/// # Errors
///
/// `Syntax` with the tokens from the first that cannot stand there. `Memory` where memory runs out.
/// `Deep` where `depth` or `limit` is too small.
#[tactic(auto, unfolding(crate::specs::ReadClass::class))]
pub fn class(
    alloc: Global,
    final_word: Option<Token>,
    word: Token,
    tokens: &[Token],
    depth: usize,
    limit: usize,
) -> Result<(Declaration, &[Token]), ReadError<'_>>
    ensures reads { Gives (λ x. (view_decl x.0, x.1.now)) result
        (read.class depth limit final_word word tokens.now) }
{
    let (heading, rest) = heading(alloc, tokens, limit)?;
    let (members, rest) = members(alloc, rest, depth, limit)?;
    let (close, rest) = a_right_brace(rest)?;
    let class = Class {
        final_word,
        word,
        name: heading.name,
        bases: heading.bases,
        open: heading.open,
        members,
        close,
    };
    let class = Box::new(alloc, class)?;
    Ok((Declaration::Class(class), rest))
}

/// Reads a final class, after the word `final`: the word `class` and what stands after it.
///
/// # Errors
///
/// As those of [`class`].
#[tactic(auto, unfolding(crate::specs::ReadClass::final_class, ang_parse_read::specs::Tokens::a_token))]
pub fn final_class<'a>(
    alloc: Global,
    final_word: Token,
    tokens: &'a [Token],
    depth: usize,
    limit: usize,
) -> Result<(Declaration, &'a [Token]), ReadError<'a>>
    ensures reads { Gives (λ x. (view_decl x.0, x.1.now)) result
        (read.final_class depth limit final_word tokens.now) }
{
    match tokens {
        [word, rest @ ..] if matches!(word.kind, TokenKind::Class) => {
            class(alloc, Some(final_word), *word, rest, depth, limit)
        }
        _ => Err(ReadError::Syntax(tokens)),
    }
}
