//! Reading declarations: a function for each rule of the grammar, over the tokens that are left.
//!
//! `limit` bounds the turns of the loop over parameters. One more than the number of tokens is always
//! enough.
ghost use Rattle.std.specs.Prelude.{◌≡◌, [], Ok};
ghost use Rattle.ang_parse_read.specs.Gives.{Gives};
ghost use Rattle.ang_parse_read.specs.Law.{all_of};
ghost use Rattle.ang_parse_read.specs.Read.{repeat};
ghost use Rattle.ang_parse_read.specs.Tokens.{perhaps};
ghost use Rattle.ang_decl.specs.Grammar.{is_bare_void};
ghost use Rattle.ang_decl.specs.Read as read;

use crate::tree::{
    HostFunction, HostHandle, HostParameter, HostParameters, HostProperty, HostType,
};
use ang_kinds::List;
use ang_lex::{Token, TokenKind};
use ang_parse_read::{
    ReadError, a_left_paren, a_name, a_right_paren, perhaps_const, perhaps_name, perhaps_reference,
};
use std::alloc::Global;

#[tactic(auto, unfolding(ang_parse_read::specs::Tokens::perhaps))]
fn perhaps_plus(tokens: &[Token]) -> (Option<Token>, &[Token])
    ensures reads { perhaps read.is_plus tokens.now ≡ Ok (result.0, result.1.now) }
{
    match tokens {
        [token, rest @ ..] if matches!(token.kind, TokenKind::Plus) => (Some(*token), rest),
        _ => (None, tokens),
    }
}

/// Reads `[ "@" [ "+" ] [ "const" ] ]`.
#[tactic(auto, unfolding(crate::specs::Read::a_handle))]
fn handle(tokens: &[Token]) -> (Option<HostHandle>, &[Token])
    ensures reads { read.a_handle tokens.now ≡ Ok (result.0, result.1.now) }
{
    match tokens {
        [at, rest @ ..] if matches!(at.kind, TokenKind::At) => {
            let (plus, rest) = perhaps_plus(rest);
            let (constant, rest) = perhaps_const(rest);
            let handle = HostHandle {
                at: *at,
                plus,
                constant,
            };
            (Some(handle), rest)
        }
        _ => (None, tokens),
    }
}

/// Reads `[ "const" ] ( PRIMITIVE | "void" | NAME ) [ "@" [ "+" ] [ "const" ] ]`. No type is looked up.
#[tactic(auto, unfolding(crate::specs::Read::a_type, ang_parse_read::specs::Tokens::a_token))]
fn host_type(tokens: &[Token]) -> Result<(HostType, &[Token]), ReadError<'_>>
    ensures reads { Gives (λ x. (x.0, x.1.now)) result (read.a_type tokens.now) }
{
    let (constant, rest) = perhaps_const(tokens);
    match rest {
        [name, rest @ ..]
            if matches!(
                name.kind,
                TokenKind::Primitive(_) | TokenKind::Void | TokenKind::Name
            ) => {
            let (handle, rest) = handle(rest);
            Ok((
                HostType {
                    constant,
                    name: *name,
                    handle,
                },
                rest,
            ))
        }
        _ => Err(ReadError::Syntax(rest)),
    }
}

/// Reads a parameter, after its comma.
#[tactic(auto, unfolding(crate::specs::Read::a_param))]
fn parameter(
    comma: Option<Token>,
    tokens: &[Token],
) -> Result<(HostParameter, &[Token]), ReadError<'_>>
    ensures reads { Gives (λ x. (x.0, x.1.now)) result (read.a_param comma tokens.now) }
{
    let (declared_type, rest) = host_type(tokens)?;
    let (reference, rest) = perhaps_reference(rest);
    let (name, rest) = perhaps_name(rest);
    let parameter = HostParameter {
        comma,
        declared_type,
        reference,
        name,
    };
    Ok((parameter, rest))
}

/// Reads one more parameter, after a comma.
#[tactic(auto, unfolding(crate::specs::Read::another_param))]
fn another_parameter<'a>(
    first: Vec<HostParameter>,
    comma: Token,
    tokens: &'a [Token],
) -> Result<((Vec<HostParameter>, bool), &'a [Token]), ReadError<'a>>
    ensures reads { Gives (λ x. ((x.0.0.items, x.0.1), x.1.now)) result
        (read.another_param first.items comma tokens.now) }
{
    let (parameter, rest) = parameter(Some(comma), tokens)?;
    let mut longer = first;
    longer.push(parameter)?;
    Ok(((longer, true), rest))
}

/// Reads a comma and one more parameter, where a comma stands.
#[tactic(auto, unfolding(crate::specs::Read::other_param))]
fn other_parameter(
    first: Vec<HostParameter>,
    tokens: &[Token],
) -> Result<((Vec<HostParameter>, bool), &[Token]), ReadError<'_>>
    ensures reads { Gives (λ x. ((x.0.0.items, x.0.1), x.1.now)) result
        (read.other_param first.items tokens.now) }
{
    match tokens {
        [comma, rest @ ..] if matches!(comma.kind, TokenKind::Comma) => {
            another_parameter(first, *comma, rest)
        }
        _ => Ok(((first, false), tokens)),
    }
}

fn other_parameters(
    first: Vec<HostParameter>,
    tokens: &[Token],
    limit: usize,
) -> Result<(Vec<HostParameter>, &[Token]), ReadError<'_>>
    ensures reads { Gives (λ x. (x.0.items, x.1.now)) result
        (repeat read.other_param limit first.items tokens.now) }
{
    let mut found = first;
    let mut rest = tokens;
    for _ in 0..limit {
        let ((longer, goes_on), after) = other_parameter(found, rest)?;
        if !goes_on {
            return Ok((longer, after));
        }
        found = longer;
        rest = after;
    }
    Err(ReadError::Deep)
}

fn is_bare_void(parameter: &HostParameter) -> bool
    ensures exact { result ≡ is_bare_void parameter.now }
{
    matches!(parameter.declared_type.name.kind, TokenKind::Void)
        && parameter.declared_type.constant.is_none()
        && parameter.declared_type.handle.is_none()
        && parameter.reference.is_none()
        && parameter.name.is_none()
}

/// The parameters between the parentheses. The word `void` alone is the empty list.
fn settled(alloc: Global, open: Token, items: Vec<HostParameter>, close: Token) -> HostParameters
    ensures exact { result ≡ read.settled «open» items.items close }
{
    if let [only] = items.as_slice()
        && is_bare_void(only)
    {
        return HostParameters {
            open,
            void_word: Some(only.declared_type.name),
            items: List::from_vec(Vec::new(alloc)),
            close,
        };
    }
    HostParameters {
        open,
        void_word: None,
        items: List::from_vec(items),
        close,
    }
}

/// Reads one parameter or more, and the right parenthesis.
#[tactic(auto, unfolding(crate::specs::Read::some_params))]
fn some_parameters(
    alloc: Global,
    open: Token,
    tokens: &[Token],
    limit: usize,
) -> Result<(HostParameters, &[Token]), ReadError<'_>>
    ensures reads { Gives (λ x. (x.0, x.1.now)) result (read.some_params limit «open» tokens.now) }
{
    let (parameter, rest) = parameter(None, tokens)?;
    let mut first = Vec::new(alloc);
    first.push(parameter)?;
    let (items, rest) = other_parameters(first, rest, limit)?;
    let (close, rest) = a_right_paren(rest)?;
    Ok((settled(alloc, open, items, close), rest))
}

/// Reads the parameters after the left parenthesis `open`, and the right one.
#[tactic(auto, unfolding(crate::specs::Read::params))]
fn parameters(
    alloc: Global,
    open: Token,
    tokens: &[Token],
    limit: usize,
) -> Result<(HostParameters, &[Token]), ReadError<'_>>
    ensures reads { Gives (λ x. (x.0, x.1.now)) result (read.params limit «open» tokens.now) }
{
    match tokens {
        [close, rest @ ..] if matches!(close.kind, TokenKind::RightParen) => {
            let parameters = HostParameters {
                open,
                void_word: None,
                items: List::from_vec(Vec::new(alloc)),
                close: *close,
            };
            Ok((parameters, rest))
        }
        _ => some_parameters(alloc, open, tokens, limit),
    }
}

/// Reads `type NAME params [ "const" ]`.
#[tactic(auto, unfolding(crate::specs::Read::a_function))]
fn function(
    alloc: Global,
    tokens: &[Token],
    limit: usize,
) -> Result<(HostFunction, &[Token]), ReadError<'_>>
    ensures reads { Gives (λ x. (x.0, x.1.now)) result (read.a_function limit tokens.now) }
{
    let (result, rest) = host_type(tokens)?;
    let (name, rest) = a_name(rest)?;
    let (open, rest) = a_left_paren(rest)?;
    let (parameters, rest) = parameters(alloc, open, rest, limit)?;
    let (constant, rest) = perhaps_const(rest);
    let function = HostFunction {
        result,
        name,
        parameters,
        constant,
    };
    Ok((function, rest))
}

/// Reads `type NAME`.
#[tactic(auto, unfolding(crate::specs::Read::a_property))]
fn property(tokens: &[Token]) -> Result<(HostProperty, &[Token]), ReadError<'_>>
    ensures reads { Gives (λ x. (x.0, x.1.now)) result (read.a_property tokens.now) }
{
    let (declared_type, rest) = host_type(tokens)?;
    let (name, rest) = a_name(rest)?;
    Ok((
        HostProperty {
            declared_type,
            name,
        },
        rest,
    ))
}

/// The declaration `type NAME params [ "const" ]` that all of the tokens are.
#[tactic(auto, unfolding(ang_parse_read::specs::Law::all_of))]
pub fn whole_function(alloc: Global, tokens: &[Token]) -> Result<HostFunction, ReadError<'_>>
    ensures reads { Gives (λ x. (x, [])) result (all_of read.a_function tokens.now) }
{
    let (found, rest) = function(alloc, tokens, tokens.len() + 1)?;
    if !rest.is_empty() {
        return Err(ReadError::Syntax(rest));
    }
    Ok(found)
}

/// The declaration `type NAME` that all of the tokens are.
#[tactic(auto, unfolding(ang_parse_read::specs::Law::all_of))]
pub fn whole_property(tokens: &[Token]) -> Result<HostProperty, ReadError<'_>>
    ensures reads { Gives (λ x. (x, [])) result (all_of (λ n. read.a_property) tokens.now) }
{
    let (found, rest) = property(tokens)?;
    if !rest.is_empty() {
        return Err(ReadError::Syntax(rest));
    }
    Ok(found)
}

/// The type that all of the tokens are.
#[tactic(auto, unfolding(ang_parse_read::specs::Law::all_of))]
pub fn whole_type(tokens: &[Token]) -> Result<HostType, ReadError<'_>>
    ensures reads { Gives (λ x. (x, [])) result (all_of (λ n. read.a_type) tokens.now) }
{
    let (found, rest) = host_type(tokens)?;
    if !rest.is_empty() {
        return Err(ReadError::Syntax(rest));
    }
    Ok(found)
}
