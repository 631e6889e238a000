//! The group of parentheses after a name, which may be parameters or arguments or both.
ghost use Rattle.std.specs.Prelude.{◌≡◌, ◌+◌, ◌^◌, ◌<◌, ◌≤◌, length, take, drop, [], Ok, Err};
ghost use Rattle.ang_lex.specs.declared.token.TokenKind.TheVariants.{LeftParen};
ghost use Rattle.ang_parse_read.specs.Gives.{Gives};
ghost use Rattle.ang_parse_read.specs.From.{From};
ghost use Rattle.ang_parse_read.specs.Group as groups;
ghost use Rattle.ang_parse_read.specs.Read.{at};
ghost use Rattle.ang_tree.specs.View.{view_params, view_args};
ghost use Rattle.ang_parse.specs.Parts.{view_group};
ghost use Rattle.ang_parse.specs.ReadFunction as read;

use ang_lex::{Token, TokenKind};
use ang_parse_expr::arguments;
use ang_parse_read::ReadError;
use ang_parse_stmt::parameters;
use ang_tree::{Arguments, Parameters};
use std::alloc::Global;

/// A group as parameters, and as arguments. `()` and `(A)` are both.
#[derive(Drop)]
pub(crate) struct Group {
    pub(crate) parameters: Option<Parameters>,
    pub(crate) arguments: Option<Arguments>,
}

impl Group {
    /// The group as arguments alone.
    pub(crate) fn into_arguments(self) -> Option<Arguments>
        ensures exact { result ≡ self.arguments }
    {
        self.arguments
    }
}

/// How many parentheses are open after a token of this kind, where `depth` are in front of it; nothing
/// where it closes one more than are open.
fn deeper(kind: TokenKind, depth: usize) -> Option<usize>
    requires room { depth + 1 < 2 ^ 64 }
    ensures exact { result ≡ groups.deeper kind depth }
{
    match kind {
        TokenKind::LeftParen => Some(depth + 1),
        TokenKind::RightParen => depth.checked_sub(1),
        _ => Some(depth),
    }
}

/// How many tokens there are up to the right parenthesis that closes one more than are opened, with it;
/// all where there is none.
fn group_len(tokens: &[Token]) -> usize
    ensures within { result ≤ length tokens.now }
    ensures ends { groups.split tokens.now 0 ≡ (take result tokens.now, drop result tokens.now) }
{
    let mut depth = 0;
    for (i, token) in tokens.iter().enumerate() {
        match deeper(token.kind, depth) {
            Some(open) => depth = open,
            None => return i + 1,
        }
    }
    tokens.len()
}

/// All of the tokens as parameters, after the left parenthesis `open`.
#[tactic(auto, unfolding(crate::specs::ReadFunction::whole_params))]
fn whole_parameters<'a>(
    alloc: Global,
    open: Token,
    tokens: &'a [Token],
    limit: usize,
) -> Result<Parameters, ReadError<'a>>
    ensures reads { Gives (λ x. (view_params x, [])) result
        (read.whole_params limit «open» tokens.now) }
{
    let (found, rest) = parameters(alloc, open, tokens, limit)?;
    if !rest.is_empty() {
        return Err(ReadError::Syntax(rest));
    }
    Ok(found)
}

/// All of the tokens as arguments, after the left parenthesis `open`.
#[tactic(auto, unfolding(crate::specs::ReadFunction::whole_args))]
fn whole_arguments<'a>(
    alloc: Global,
    open: Token,
    tokens: &'a [Token],
    limit: usize,
) -> Result<Arguments, ReadError<'a>>
    ensures reads { Gives (λ x. (view_args x, [])) result
        (read.whole_args limit «open» tokens.now) }
{
    let (found, rest) = arguments(alloc, open, tokens, limit)?;
    if !rest.is_empty() {
        return Err(ReadError::Syntax(rest));
    }
    Ok(found)
}

/// A group that is parameters: it may be arguments as well.
fn with_parameters<'a>(
    alloc: Global,
    open: Token,
    parameters: Parameters,
    inside: &'a [Token],
    behind: &'a [Token],
    limit: usize,
) -> Result<(Group, &'a [Token]), ReadError<'a>>
    ensures reads { Gives (λ x. (view_group x.0, x.1.now)) result
        (groups.merged (Ok (view_params parameters, []))
        (read.whole_args limit «open» inside.now) behind.now) }
{
    let parameters = Some(parameters);
    match whole_arguments(alloc, open, inside, limit) {
        Ok(found) => {
            let arguments = Some(found);
            Ok((
                Group {
                    parameters,
                    arguments,
                },
                behind,
            ))
        }
        Err(ReadError::Syntax(_)) => {
            let arguments = None;
            Ok((
                Group {
                    parameters,
                    arguments,
                },
                behind,
            ))
        }
        Err(error) => Err(error),
    }
}

/// A group of `len` tokens that is no parameters, with `fault` left of it: it may be arguments, or the
/// fault is the one further right.
fn without_parameters<'a>(
    alloc: Global,
    open: Token,
    fault: &'a [Token],
    tokens: &'a [Token],
    len: usize,
    limit: usize,
) -> Result<(Group, &'a [Token]), ReadError<'a>>
    requires left { «open».kind ≡ LeftParen }
    requires within { len ≤ length tokens.now }
    requires end { From (take len tokens.now) fault.now }
    ensures reads { Gives (λ x. (view_group x.0, x.1.now)) result
        (groups.merged (Err (at fault.now)) (read.whole_args limit «open» (take len tokens.now))
        (drop len tokens.now)) }
{
    let (inside, behind) = tokens.split_at(len);
    match whole_arguments(alloc, open, inside, limit) {
        Ok(found) => {
            let parameters = None;
            let arguments = Some(found);
            Ok((
                Group {
                    parameters,
                    arguments,
                },
                behind,
            ))
        }
        Err(ReadError::Syntax(other)) => {
            let left = fault.len().min(other.len());
            Err(ReadError::Syntax(&tokens[len - left..]))
        }
        Err(error) => Err(error),
    }
}

/// Reads the group after the left parenthesis `open`, in both ways.
#[tactic(auto, unfolding(crate::specs::ReadFunction::group, ang_parse_read::specs::Group::both))]
pub(crate) fn grouped<'a>(
    alloc: Global,
    open: Token,
    tokens: &'a [Token],
    limit: usize,
) -> Result<(Group, &'a [Token]), ReadError<'a>>
    requires paren { «open».kind ≡ LeftParen }
    ensures reads { Gives (λ x. (view_group x.0, x.1.now)) result
        (read.group limit «open» tokens.now) }
{
    let len = group_len(tokens);
    let (inside, behind) = tokens.split_at(len);
    match whole_parameters(alloc, open, inside, limit) {
        Ok(found) => with_parameters(alloc, open, found, inside, behind, limit),
        Err(ReadError::Syntax(fault)) => without_parameters(alloc, open, fault, tokens, len, limit),
        Err(error) => Err(error),
    }
}
