//! Reading what a class and an interface begin with: the name, the bases and the left brace.
//!
//! `limit` bounds the turns of each loop. One more than the number of tokens is always enough.
ghost use Rattle.std.specs.Prelude.{◌≡◌};
ghost use Rattle.ang_parse_read.specs.Gives.{Gives};
ghost use Rattle.ang_parse_read.specs.Read.{repeat};
ghost use Rattle.ang_parse.specs.MemberParts.{view_heading};
ghost use Rattle.ang_parse.specs.ReadClass as read;

use crate::build::with_base;
use crate::parts::Heading;
use ang_lex::{Token, TokenKind};
use ang_parse_read::{ReadError, a_left_brace, a_name};
use ang_tree::BaseName;
use std::alloc::Global;

/// Reads one more base, after a comma.
#[tactic(auto, unfolding(crate::specs::ReadClass::another_base))]
fn another_base(
    first: Vec<BaseName>,
    separator: Token,
    tokens: &[Token],
) -> Result<((Vec<BaseName>, bool), &[Token]), ReadError<'_>>
    ensures reads { Gives (λ x. ((x.0.0.items, x.0.1), x.1.now)) result
        (read.another_base first.items separator tokens.now) }
{
    let (name, rest) = a_name(tokens)?;
    let longer = with_base(first, BaseName { separator, name })?;
    Ok(((longer, true), rest))
}

/// Reads a comma and one more base, where a comma stands.
#[tactic(auto, unfolding(crate::specs::ReadClass::other_base))]
fn other_base(
    first: Vec<BaseName>,
    tokens: &[Token],
) -> Result<((Vec<BaseName>, bool), &[Token]), ReadError<'_>>
    ensures reads { Gives (λ x. ((x.0.0.items, x.0.1), x.1.now)) result
        (read.other_base first.items tokens.now) }
{
    match tokens {
        [comma, rest @ ..] if matches!(comma.kind, TokenKind::Comma) => {
            another_base(first, *comma, rest)
        }
        _ => Ok(((first, false), tokens)),
    }
}

fn other_bases(
    first: Vec<BaseName>,
    tokens: &[Token],
    limit: usize,
) -> Result<(Vec<BaseName>, &[Token]), ReadError<'_>>
    ensures reads { Gives (λ x. (x.0.items, x.1.now)) result
        (repeat read.other_base limit first.items tokens.now) }
{
    let mut found = first;
    let mut rest = tokens;
    for _ in 0..limit {
        let ((longer, goes_on), after) = other_base(found, rest)?;
        if !goes_on {
            return Ok((longer, after));
        }
        found = longer;
        rest = after;
    }
    Err(ReadError::Deep)
}

/// Reads the bases, after `:`.
#[tactic(auto, unfolding(crate::specs::ReadClass::some_bases))]
fn some_bases<'a>(
    alloc: Global,
    separator: Token,
    tokens: &'a [Token],
    limit: usize,
) -> Result<(Vec<BaseName>, &'a [Token]), ReadError<'a>>
    ensures reads { Gives (λ x. (x.0.items, x.1.now)) result
        (read.some_bases limit separator tokens.now) }
{
    let (name, rest) = a_name(tokens)?;
    let first = with_base(Vec::new(alloc), BaseName { separator, name })?;
    other_bases(first, rest, limit)
}

/// Reads `[ ":" NAME { "," NAME } ]`.
#[tactic(auto, unfolding(crate::specs::ReadClass::bases))]
fn bases(
    alloc: Global,
    tokens: &[Token],
    limit: usize,
) -> Result<(Vec<BaseName>, &[Token]), ReadError<'_>>
    ensures reads { Gives (λ x. (x.0.items, x.1.now)) result (read.bases limit tokens.now) }
{
    match tokens {
        [colon, rest @ ..] if matches!(colon.kind, TokenKind::Colon) => {
            some_bases(alloc, *colon, rest, limit)
        }
        _ => Ok((Vec::new(alloc), tokens)),
    }
}

/// Reads the name, the bases and the left brace.
#[tactic(auto, unfolding(crate::specs::ReadClass::heading))]
pub(crate) fn heading(
    alloc: Global,
    tokens: &[Token],
    limit: usize,
) -> Result<(Heading, &[Token]), ReadError<'_>>
    ensures reads { Gives (λ x. (view_heading x.0, x.1.now)) result
        (read.heading limit tokens.now) }
{
    let (name, rest) = a_name(tokens)?;
    let (bases, rest) = bases(alloc, rest, limit)?;
    let (open, rest) = a_left_brace(rest)?;
    Ok((Heading { name, bases, open }, rest))
}
