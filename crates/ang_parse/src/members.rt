//! Reading the members of a class.
//!
//! `limit` bounds the nested calls of expressions and the turns of each loop, `depth` the nested calls
//! of statements. One more than the number of tokens is always enough for both.
ghost use Rattle.std.specs.Prelude.{◌≡◌, [], option_map};
ghost use Rattle.ang_parse_read.specs.Gives.{Gives};
ghost use Rattle.ang_parse_read.specs.Read.{repeat};
ghost use Rattle.ang_tree.specs.View.{view_member, view_super};
ghost use Rattle.ang_parse.specs.MemberParts.{view_method_end, view_constructor_end};
ghost use Rattle.ang_parse.specs.ReadClass as read;

use crate::build::{with_field, with_word};
use crate::kinds::{is_access, is_attribute};
use crate::parts::{ConstructorEnd, MemberStart, MethodEnd};
use ang_lex::{Token, TokenKind};
use ang_parse_expr::{arguments, type_name, type_named};
use ang_parse_read::{
    ReadError, a_left_brace, a_left_paren, a_name, a_right_brace, a_semicolon, perhaps_const,
};
use ang_parse_stmt::{block, parameters, statements};
use ang_tree::{Constructor, FieldName, Fields, Member, Method, SuperCall, TypeName};
use std::alloc::Global;

/// Reads one more name of a field, after a comma.
#[tactic(auto, unfolding(crate::specs::ReadClass::another_field))]
fn another_field(
    first: Vec<FieldName>,
    comma: Token,
    tokens: &[Token],
) -> Result<((Vec<FieldName>, bool), &[Token]), ReadError<'_>>
    ensures reads { Gives (λ x. ((x.0.0.items, x.0.1), x.1.now)) result
        (read.another_field first.items comma tokens.now) }
{
    let (name, rest) = a_name(tokens)?;
    let comma = Some(comma);
    let longer = with_field(first, FieldName { comma, name })?;
    Ok(((longer, true), rest))
}

/// Reads a comma and one more name of a field, where a comma stands.
#[tactic(auto, unfolding(crate::specs::ReadClass::other_field))]
fn other_field(
    first: Vec<FieldName>,
    tokens: &[Token],
) -> Result<((Vec<FieldName>, bool), &[Token]), ReadError<'_>>
    ensures reads { Gives (λ x. ((x.0.0.items, x.0.1), x.1.now)) result
        (read.other_field first.items tokens.now) }
{
    match tokens {
        [comma, rest @ ..] if matches!(comma.kind, TokenKind::Comma) => {
            another_field(first, *comma, rest)
        }
        _ => Ok(((first, false), tokens)),
    }
}

fn other_fields(
    first: Vec<FieldName>,
    tokens: &[Token],
    limit: usize,
) -> Result<(Vec<FieldName>, &[Token]), ReadError<'_>>
    ensures reads { Gives (λ x. (x.0.items, x.1.now)) result
        (repeat read.other_field limit first.items tokens.now) }
{
    let mut found = first;
    let mut rest = tokens;
    for _ in 0..limit {
        let ((longer, goes_on), after) = other_field(found, rest)?;
        if !goes_on {
            return Ok((longer, after));
        }
        found = longer;
        rest = after;
    }
    Err(ReadError::Deep)
}

/// Reads fields, after the name of the first.
#[tactic(auto, unfolding(crate::specs::ReadClass::fields))]
fn fields(
    alloc: Global,
    start: MemberStart,
    tokens: &[Token],
    limit: usize,
) -> Result<(Member, &[Token]), ReadError<'_>>
    ensures reads { Gives (λ x. (view_member x.0, x.1.now)) result
        (read.fields limit start tokens.now) }
{
    let MemberStart {
        access,
        declared_type,
        name,
    } = start;
    let comma = None;
    let first = with_field(Vec::new(alloc), FieldName { comma, name })?;
    let (names, rest) = other_fields(first, tokens, limit)?;
    let (semicolon, rest) = a_semicolon(rest)?;
    let fields = Fields {
        access,
        declared_type,
        names,
        semicolon,
    };
    let fields = Box::new(alloc, fields)?;
    Ok((Member::Fields(fields), rest))
}

/// Reads one `final` or `override`, where one stands.
#[tactic(auto, unfolding(crate::specs::ReadClass::attribute))]
fn attribute(
    first: Vec<Token>,
    tokens: &[Token],
) -> Result<((Vec<Token>, bool), &[Token]), ReadError<'_>>
    ensures reads { Gives (λ x. ((x.0.0.items, x.0.1), x.1.now)) result
        (read.attribute first.items tokens.now) }
{
    match tokens {
        [word, rest @ ..] if is_attribute(word.kind) => {
            let longer = with_word(first, *word)?;
            Ok(((longer, true), rest))
        }
        _ => Ok(((first, false), tokens)),
    }
}

/// Reads `{ "final" | "override" }`.
fn attributes(
    alloc: Global,
    tokens: &[Token],
    limit: usize,
) -> Result<(Vec<Token>, &[Token]), ReadError<'_>>
    ensures reads { Gives (λ x. (x.0.items, x.1.now)) result (read.attributes limit tokens.now) }
{
    let mut found = Vec::new(alloc);
    let mut rest = tokens;
    for _ in 0..limit {
        let ((longer, goes_on), after) = attribute(found, rest)?;
        if !goes_on {
            return Ok((longer, after));
        }
        found = longer;
        rest = after;
    }
    Err(ReadError::Deep)
}

/// Reads `[ "const" ] { "final" | "override" } block`.
#[tactic(auto, unfolding(crate::specs::ReadClass::method_end))]
fn method_end(
    alloc: Global,
    tokens: &[Token],
    depth: usize,
    limit: usize,
) -> Result<(MethodEnd, &[Token]), ReadError<'_>>
    ensures reads { Gives (λ x. (view_method_end x.0, x.1.now)) result
        (read.method_end depth limit tokens.now) }
{
    let (constant, rest) = perhaps_const(tokens);
    let (attributes, rest) = attributes(alloc, rest, limit)?;
    let (open, rest) = a_left_brace(rest)?;
    let (body, rest) = block(alloc, open, rest, depth, limit)?;
    Ok((
        MethodEnd {
            constant,
            attributes,
            body,
        },
        rest,
    ))
}

/// Reads a method, after the left parenthesis of its parameters.
#[tactic(auto, unfolding(crate::specs::ReadClass::method_of))]
fn method<'a>(
    alloc: Global,
    start: MemberStart,
    open: Token,
    tokens: &'a [Token],
    depth: usize,
    limit: usize,
) -> Result<(Member, &'a [Token]), ReadError<'a>>
    ensures reads { Gives (λ x. (view_member x.0, x.1.now)) result
        (read.method_of depth limit start «open» tokens.now) }
{
    let (parameters, rest) = parameters(alloc, open, tokens, limit)?;
    let (end, rest) = method_end(alloc, rest, depth, limit)?;
    let MethodEnd {
        constant,
        attributes,
        body,
    } = end;
    let method = Method {
        access: start.access,
        result: start.declared_type,
        name: start.name,
        parameters,
        constant,
        attributes,
        body,
    };
    let method = Box::new(alloc, method)?;
    Ok((Member::Method(method), rest))
}

/// Reads what stands after the word `super`.
#[tactic(auto, unfolding(crate::specs::ReadClass::super_called))]
fn super_called<'a>(
    alloc: Global,
    word: Token,
    tokens: &'a [Token],
    limit: usize,
) -> Result<(Option<SuperCall>, &'a [Token]), ReadError<'a>>
    ensures reads { Gives (λ x. (option_map view_super x.0, x.1.now)) result
        (read.super_called limit word tokens.now) }
{
    let (open, rest) = a_left_paren(tokens)?;
    let (arguments, rest) = arguments(alloc, open, rest, limit)?;
    let (semicolon, rest) = a_semicolon(rest)?;
    Ok((
        Some(SuperCall {
            word,
            arguments,
            semicolon,
        }),
        rest,
    ))
}

/// Reads `[ "super" args ";" ]`.
#[tactic(auto, unfolding(crate::specs::ReadClass::super_call))]
fn super_call(
    alloc: Global,
    tokens: &[Token],
    limit: usize,
) -> Result<(Option<SuperCall>, &[Token]), ReadError<'_>>
    ensures reads { Gives (λ x. (option_map view_super x.0, x.1.now)) result
        (read.super_call limit tokens.now) }
{
    match tokens {
        [word, rest @ ..] if matches!(word.kind, TokenKind::Super) => {
            super_called(alloc, *word, rest, limit)
        }
        _ => Ok((None, tokens)),
    }
}

/// Reads `[ "super" args ";" ] { stmt } "}"`.
#[tactic(auto, unfolding(crate::specs::ReadClass::constructor_end))]
fn constructor_end(
    alloc: Global,
    tokens: &[Token],
    depth: usize,
    limit: usize,
) -> Result<(ConstructorEnd, &[Token]), ReadError<'_>>
    ensures reads { Gives (λ x. (view_constructor_end x.0, x.1.now)) result
        (read.constructor_end depth limit tokens.now) }
{
    let (super_call, rest) = super_call(alloc, tokens, limit)?;
    let (statements, rest) = statements(alloc, rest, depth, limit)?;
    let (close, rest) = a_right_brace(rest)?;
    Ok((
        ConstructorEnd {
            super_call,
            statements,
            close,
        },
        rest,
    ))
}

/// Reads a constructor, after the left parenthesis of its parameters.
#[tactic(auto, unfolding(crate::specs::ReadClass::constructor_of))]
fn constructor<'a>(
    alloc: Global,
    name: Token,
    paren: Token,
    tokens: &'a [Token],
    depth: usize,
    limit: usize,
) -> Result<(Member, &'a [Token]), ReadError<'a>>
    ensures reads { Gives (λ x. (view_member x.0, x.1.now)) result
        (read.constructor_of depth limit name paren tokens.now) }
{
    let (parameters, rest) = parameters(alloc, paren, tokens, limit)?;
    let (open, rest) = a_left_brace(rest)?;
    let (end, rest) = constructor_end(alloc, rest, depth, limit)?;
    let ConstructorEnd {
        super_call,
        statements,
        close,
    } = end;
    let constructor = Constructor {
        name,
        parameters,
        open,
        super_call,
        statements,
        close,
    };
    let constructor = Box::new(alloc, constructor)?;
    Ok((Member::Constructor(constructor), rest))
}

/// Reads fields or a method, after what they begin with.
#[tactic(auto, unfolding(crate::specs::ReadClass::started))]
fn started(
    alloc: Global,
    start: MemberStart,
    tokens: &[Token],
    depth: usize,
    limit: usize,
) -> Result<(Member, &[Token]), ReadError<'_>>
    ensures reads { Gives (λ x. (view_member x.0, x.1.now)) result
        (read.started depth limit start tokens.now) }
{
    match tokens {
        [open, rest @ ..] if matches!(open.kind, TokenKind::LeftParen) => {
            method(alloc, start, *open, rest, depth, limit)
        }
        _ => fields(alloc, start, tokens, limit),
    }
}

/// Reads fields or a method, after their type.
#[tactic(auto, unfolding(crate::specs::ReadClass::typed))]
fn typed(
    alloc: Global,
    access: Option<Token>,
    declared_type: TypeName,
    tokens: &[Token],
    depth: usize,
    limit: usize,
) -> Result<(Member, &[Token]), ReadError<'_>>
    ensures reads { Gives (λ x. (view_member x.0, x.1.now)) result
        (read.typed depth limit access declared_type tokens.now) }
{
    let (name, rest) = a_name(tokens)?;
    let start = MemberStart {
        access,
        declared_type,
        name,
    };
    started(alloc, start, rest, depth, limit)
}

/// Reads fields or a method, after their access.
#[tactic(auto, unfolding(crate::specs::ReadClass::accessed))]
fn accessed(
    alloc: Global,
    access: Option<Token>,
    tokens: &[Token],
    depth: usize,
    limit: usize,
) -> Result<(Member, &[Token]), ReadError<'_>>
    ensures reads { Gives (λ x. (view_member x.0, x.1.now)) result
        (read.accessed depth limit access tokens.now) }
{
    let (declared_type, rest) = type_name(tokens)?;
    typed(alloc, access, declared_type, rest, depth, limit)
}

/// Reads what begins with a name: a constructor, where `(` stands after it, and else fields or a
/// method.
#[tactic(auto, unfolding(crate::specs::ReadClass::named, crate::specs::ReadClass::type_started))]
fn named<'a>(
    alloc: Global,
    name: Token,
    tokens: &'a [Token],
    depth: usize,
    limit: usize,
) -> Result<(Member, &'a [Token]), ReadError<'a>>
    ensures reads { Gives (λ x. (view_member x.0, x.1.now)) result
        (read.named depth limit name tokens.now) }
{
    if let [open, rest @ ..] = tokens
        && matches!(open.kind, TokenKind::LeftParen)
    {
        return constructor(alloc, name, *open, rest, depth, limit);
    }
    let (declared_type, rest) = type_named(None, name, tokens);
    typed(alloc, None, declared_type, rest, depth, limit)
}

/// Reads a member of a class.
#[tactic(auto, unfolding(crate::specs::ReadClass::member))]
pub(crate) fn member(
    alloc: Global,
    tokens: &[Token],
    depth: usize,
    limit: usize,
) -> Result<(Member, &[Token]), ReadError<'_>>
    ensures reads { Gives (λ x. (view_member x.0, x.1.now)) result
        (read.member depth limit tokens.now) }
{
    let [token, rest @ ..] = tokens else {
        return accessed(alloc, None, tokens, depth, limit);
    };
    match token.kind {
        TokenKind::Name => named(alloc, *token, rest, depth, limit),
        kind if is_access(kind) => accessed(alloc, Some(*token), rest, depth, limit),
        _ => accessed(alloc, None, tokens, depth, limit),
    }
}
