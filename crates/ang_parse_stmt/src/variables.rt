//! Reading variables, and what may stand where variables may: `vars | [ assign ] ";"`.
//!
//! `limit` bounds the nested calls of expressions and the turns of each loop. One more than the number
//! of tokens is always enough.
ghost use Rattle.std.specs.Prelude.{◌≡◌, ◌++◌, [], ◌∷◌, map, IfOk};
ghost use Rattle.ang_parse_read.specs.Gives.{Gives};
ghost use Rattle.ang_parse_read.specs.Read.{repeat};
ghost use Rattle.ang_tree.specs.View.{view_init, view_var, view_vars, view_start, view_option};
ghost use Rattle.ang_parse_stmt.specs.ReadVars as read;

use ang_lex::{Token, TokenKind};
use ang_parse_expr::{arguments, expression, is_type_name, type_named};
use ang_parse_read::{ReadError, a_name, a_semicolon, perhaps_const};
use ang_tree::{
    Assigned, Expression, ForStart, Handle, Initializer, TypeName, Variable, Variables,
};
use std::alloc::{AllocError, Global};

/// The list with one more variable at its end.
fn with_variable(first: Vec<Variable>, next: Variable) -> Result<Vec<Variable>, AllocError>
    ensures exact { IfOk result (λ v. map view_var v.items ≡ map view_var first.items
        ++ view_var next ∷ []) }
{
    let mut found = first;
    found.push(next)?;
    Ok(found)
}

/// The list of one variable, with room for that one alone.
fn only_variable(alloc: Global, first: Variable) -> Result<Vec<Variable>, AllocError>
    ensures exact { IfOk result (λ v. map view_var v.items ≡ view_var first ∷ []) }
{
    let room = Vec::with_capacity(alloc, 1)?;
    with_variable(room, first)
}

/// Reads `[ "=" assign | args ]`: what a variable begins with. Where neither `=` nor `(` stands in front,
/// that is nothing, and no error comes.
///
/// `limit` bounds the nested calls of expressions and the turns of each loop. A number above that of
/// `tokens` is always enough.
///
/// # Errors
///
/// `Syntax` with the tokens from the first that cannot stand there, or with none where they end too
/// soon. `Deep` where `limit` is too small. `Memory` where a growth was refused.
#[tactic(auto, unfolding(crate::specs::ReadVars::init, crate::specs::ReadVars::valued, crate::specs::ReadVars::constructed))]
pub fn initializer(
    alloc: Global,
    tokens: &[Token],
    limit: usize,
) -> Result<(Initializer, &[Token]), ReadError<'_>>
    ensures reads { Gives (λ x. (view_init x.0, x.1.now)) result (read.init limit tokens.now) }
{
    let [token, rest @ ..] = tokens else {
        return Ok((Initializer::Absent, tokens));
    };
    match token.kind {
        TokenKind::Assign => {
            let (value, rest) = expression(alloc, rest, limit, 0)?;
            let equals = *token;
            let assigned = Box::new(alloc, Assigned { equals, value })?;
            Ok((Initializer::Value(assigned), rest))
        }
        TokenKind::LeftParen => {
            let (list, rest) = arguments(alloc, *token, rest, limit)?;
            let list = Box::new(alloc, list)?;
            Ok((Initializer::Constructor(list), rest))
        }
        _ => Ok((Initializer::Absent, tokens)),
    }
}

/// Reads what stands after a variable's name: its initializer, if it has one. The comma in front of the
/// name and the name are read already, and the variable keeps them.
///
/// `limit` bounds the nested calls of expressions and the turns of each loop. A number above that of
/// `tokens` is always enough.
///
/// # Errors
///
/// `Syntax` with the tokens from the first that cannot stand there, or with none where they end too
/// soon. `Deep` where `limit` is too small. `Memory` where a growth was refused.
#[tactic(auto, unfolding(crate::specs::ReadVars::variable_named))]
pub fn variable_named<'a>(
    alloc: Global,
    comma: Option<Token>,
    name: Token,
    tokens: &'a [Token],
    limit: usize,
) -> Result<(Variable, &'a [Token]), ReadError<'a>>
    ensures reads { Gives (λ x. (view_var x.0, x.1.now)) result
        (read.variable_named limit comma name tokens.now) }
{
    let (initializer, rest) = initializer(alloc, tokens, limit)?;
    Ok((
        Variable {
            comma,
            name,
            initializer,
        },
        rest,
    ))
}

/// Reads one more variable, after a comma.
#[tactic(auto, unfolding(crate::specs::ReadVars::another_variable))]
fn another_variable<'a>(
    alloc: Global,
    first: Vec<Variable>,
    comma: Token,
    tokens: &'a [Token],
    limit: usize,
) -> Result<((Vec<Variable>, bool), &'a [Token]), ReadError<'a>>
    ensures reads { Gives (λ x. ((map view_var x.0.0.items, x.0.1), x.1.now)) result
        (read.another_variable limit (map view_var first.items) comma tokens.now) }
{
    let (name, rest) = a_name(tokens)?;
    let (variable, rest) = variable_named(alloc, Some(comma), name, rest, limit)?;
    let longer = with_variable(first, variable)?;
    Ok(((longer, true), rest))
}

/// Reads a comma and one more variable, where a comma stands.
#[tactic(auto, unfolding(crate::specs::ReadVars::other_variable))]
fn other_variable(
    alloc: Global,
    first: Vec<Variable>,
    tokens: &[Token],
    limit: usize,
) -> Result<((Vec<Variable>, bool), &[Token]), ReadError<'_>>
    ensures reads { Gives (λ x. ((map view_var x.0.0.items, x.0.1), x.1.now)) result
        (read.other_variable limit (map view_var first.items) tokens.now) }
{
    match tokens {
        [comma, rest @ ..] if matches!(comma.kind, TokenKind::Comma) => {
            another_variable(alloc, first, *comma, rest, limit)
        }
        _ => Ok(((first, false), tokens)),
    }
}

fn other_variables(
    alloc: Global,
    first: Vec<Variable>,
    tokens: &[Token],
    limit: usize,
) -> Result<(Vec<Variable>, &[Token]), ReadError<'_>>
    ensures reads { Gives (λ x. (map view_var x.0.items, x.1.now)) result
        (repeat (read.other_variable limit) limit (map view_var first.items) tokens.now) }
{
    let mut found = first;
    let mut rest = tokens;
    for _ in 0..limit {
        let ((longer, goes_on), after) = other_variable(alloc, found, rest, limit)?;
        if !goes_on {
            return Ok((longer, after));
        }
        found = longer;
        rest = after;
    }
    Err(ReadError::Deep)
}

/// Reads the other variables of a type and the semicolon, after the first variable.
///
/// `limit` bounds the nested calls of expressions and the turns of each loop. A number above that of
/// `tokens` is always enough.
///
/// # Errors
///
/// `Syntax` with the tokens from the first that cannot stand there, or with none where they end too
/// soon. `Deep` where `limit` is too small. `Memory` where a growth was refused.
#[tactic(auto, unfolding(crate::specs::ReadVars::variables_behind))]
pub fn variables_behind(
    alloc: Global,
    declared_type: TypeName,
    first: Variable,
    tokens: &[Token],
    limit: usize,
) -> Result<(Variables, &[Token]), ReadError<'_>>
    ensures reads { Gives (λ x. (view_vars x.0, x.1.now)) result
        (read.variables_behind limit declared_type (view_var first) tokens.now) }
{
    let found = only_variable(alloc, first)?;
    let (items, rest) = other_variables(alloc, found, tokens, limit)?;
    let (semicolon, rest) = a_semicolon(rest)?;
    Ok((
        Variables {
            declared_type,
            items,
            semicolon,
        },
        rest,
    ))
}

/// Reads the variables of a type and the semicolon, after the name of the first.
///
/// `limit` bounds the nested calls of expressions and the turns of each loop. A number above that of
/// `tokens` is always enough.
///
/// # Errors
///
/// `Syntax` with the tokens from the first that cannot stand there, or with none where they end too
/// soon. `Deep` where `limit` is too small. `Memory` where a growth was refused.
#[tactic(auto, unfolding(crate::specs::ReadVars::variables_named))]
pub fn variables_named(
    alloc: Global,
    declared_type: TypeName,
    name: Token,
    tokens: &[Token],
    limit: usize,
) -> Result<(Variables, &[Token]), ReadError<'_>>
    ensures reads { Gives (λ x. (view_vars x.0, x.1.now)) result
        (read.variables_named limit declared_type name tokens.now) }
{
    let (first, rest) = variable_named(alloc, None, name, tokens, limit)?;
    variables_behind(alloc, declared_type, first, rest, limit)
}

/// Reads `assign ";"`.
#[tactic(auto, unfolding(crate::specs::ReadVars::some_ended))]
fn some_ended(
    alloc: Global,
    tokens: &[Token],
    limit: usize,
) -> Result<((Option<Box<Expression>>, Token), &[Token]), ReadError<'_>>
    ensures reads { Gives (λ x. ((view_option x.0.0, x.0.1), x.1.now)) result
        (read.some_ended limit tokens.now) }
{
    let (value, rest) = expression(alloc, tokens, limit, 0)?;
    let value = Box::new(alloc, value)?;
    let (semicolon, rest) = a_semicolon(rest)?;
    Ok(((Some(value), semicolon), rest))
}

/// Reads `[ assign ] ";"`.
///
/// `limit` bounds the nested calls of expressions and the turns of each loop. A number above that of
/// `tokens` is always enough.
///
/// # Errors
///
/// `Syntax` with the tokens from the first that cannot stand there, or with none where they end too
/// soon. `Deep` where `limit` is too small. `Memory` where a growth was refused.
#[tactic(auto, unfolding(crate::specs::ReadVars::ended))]
pub fn ended(
    alloc: Global,
    tokens: &[Token],
    limit: usize,
) -> Result<((Option<Box<Expression>>, Token), &[Token]), ReadError<'_>>
    ensures reads { Gives (λ x. ((view_option x.0.0, x.0.1), x.1.now)) result
        (read.ended limit tokens.now) }
{
    match tokens {
        [semicolon, rest @ ..] if matches!(semicolon.kind, TokenKind::Semicolon) => {
            Ok(((None, *semicolon), rest))
        }
        _ => some_ended(alloc, tokens, limit),
    }
}

#[tactic(auto, unfolding(crate::specs::ReadVars::ran))]
fn ran(alloc: Global, tokens: &[Token], limit: usize) -> Result<(ForStart, &[Token]), ReadError<'_>>
    ensures reads { Gives (λ x. (view_start x.0, x.1.now)) result (read.ran limit tokens.now) }
{
    let ((value, semicolon), rest) = some_ended(alloc, tokens, limit)?;
    Ok((ForStart::Expression { value, semicolon }, rest))
}

/// Reads variables, after the name of the first.
#[tactic(auto, unfolding(crate::specs::ReadVars::declared))]
fn declared(
    alloc: Global,
    declared_type: TypeName,
    name: Token,
    tokens: &[Token],
    limit: usize,
) -> Result<(ForStart, &[Token]), ReadError<'_>>
    ensures reads { Gives (λ x. (view_start x.0, x.1.now)) result
        (read.declared limit declared_type name tokens.now) }
{
    let (variables, rest) = variables_named(alloc, declared_type, name, tokens, limit)?;
    Ok((ForStart::Variables(variables), rest))
}

/// Reads variables, after their type.
#[tactic(auto, unfolding(crate::specs::ReadVars::declared_of))]
fn declared_of(
    alloc: Global,
    declared_type: TypeName,
    tokens: &[Token],
    limit: usize,
) -> Result<(ForStart, &[Token]), ReadError<'_>>
    ensures reads { Gives (λ x. (view_start x.0, x.1.now)) result
        (read.declared_of limit declared_type tokens.now) }
{
    let (name, rest) = a_name(tokens)?;
    declared(alloc, declared_type, name, rest, limit)
}

/// Reads variables, after the name of their type.
#[tactic(auto, unfolding(crate::specs::ReadVars::typed))]
fn typed(
    alloc: Global,
    constant: Option<Token>,
    name: Token,
    tokens: &[Token],
    limit: usize,
) -> Result<(ForStart, &[Token]), ReadError<'_>>
    ensures reads { Gives (λ x. (view_start x.0, x.1.now)) result
        (read.typed limit constant name tokens.now) }
{
    let (declared_type, rest) = type_named(constant, name, tokens);
    declared_of(alloc, declared_type, rest, limit)
}

/// Reads variables, after the word `const`.
#[tactic(auto, unfolding(crate::specs::ReadVars::constant_typed, ang_parse_read::specs::Tokens::a_token))]
fn constant_typed(
    alloc: Global,
    word: Token,
    tokens: &[Token],
    limit: usize,
) -> Result<(ForStart, &[Token]), ReadError<'_>>
    ensures reads { Gives (λ x. (view_start x.0, x.1.now)) result
        (read.constant_typed limit word tokens.now) }
{
    match tokens {
        [name, rest @ ..] if is_type_name(name.kind) => {
            typed(alloc, Some(word), *name, rest, limit)
        }
        _ => Err(ReadError::Syntax(tokens)),
    }
}

/// Reads variables, after the name of their type and `@`.
#[tactic(auto, unfolding(crate::specs::ReadVars::handled))]
fn handled(
    alloc: Global,
    name: Token,
    at: Token,
    tokens: &[Token],
    limit: usize,
) -> Result<(ForStart, &[Token]), ReadError<'_>>
    ensures reads { Gives (λ x. (view_start x.0, x.1.now)) result
        (read.handled limit name at tokens.now) }
{
    let (constant, rest) = perhaps_const(tokens);
    let handle = Some(Handle { at, constant });
    let constant = None;
    let declared_type = TypeName {
        constant,
        name,
        handle,
    };
    declared_of(alloc, declared_type, rest, limit)
}

/// Reads what begins with a name: variables, where `@` or another name stands after it, and else an
/// expression.
#[tactic(auto, unfolding(crate::specs::ReadVars::named))]
fn named<'a>(
    alloc: Global,
    tokens: &'a [Token],
    name: Token,
    behind: &'a [Token],
    limit: usize,
) -> Result<(ForStart, &'a [Token]), ReadError<'a>>
    requires behind { tokens.now ≡ name ∷ behind.now }
    ensures reads { Gives (λ x. (view_start x.0, x.1.now)) result
        (read.named limit name behind.now) }
{
    let [second, rest @ ..] = behind else {
        return ran(alloc, tokens, limit);
    };
    match second.kind {
        TokenKind::At => handled(alloc, name, *second, rest, limit),
        TokenKind::Name => {
            let constant = None;
            let handle = None;
            let declared_type = TypeName {
                constant,
                name,
                handle,
            };
            declared(alloc, declared_type, *second, rest, limit)
        }
        _ => ran(alloc, tokens, limit),
    }
}

/// Reads what begins with the word of a primitive type: an expression, where `(` stands after it, and
/// else variables.
#[tactic(auto, unfolding(crate::specs::ReadVars::primitive))]
fn primitive<'a>(
    alloc: Global,
    tokens: &'a [Token],
    word: Token,
    behind: &'a [Token],
    limit: usize,
) -> Result<(ForStart, &'a [Token]), ReadError<'a>>
    requires behind { tokens.now ≡ word ∷ behind.now }
    ensures reads { Gives (λ x. (view_start x.0, x.1.now)) result
        (read.primitive limit word behind.now) }
{
    match behind {
        [open, ..] if matches!(open.kind, TokenKind::LeftParen) => ran(alloc, tokens, limit),
        _ => typed(alloc, None, word, behind, limit),
    }
}

/// Reads `vars | [ assign ] ";"`: how a `for` starts.
///
/// `limit` bounds the nested calls of expressions and the turns of each loop. A number above that of
/// `tokens` is always enough.
///
/// # Errors
///
/// `Syntax` with the tokens from the first that cannot stand there, or with none where they end too
/// soon. `Deep` where `limit` is too small. `Memory` where a growth was refused.
#[tactic(auto, unfolding(crate::specs::ReadVars::start))]
pub fn start(
    alloc: Global,
    tokens: &[Token],
    limit: usize,
) -> Result<(ForStart, &[Token]), ReadError<'_>>
    ensures reads { Gives (λ x. (view_start x.0, x.1.now)) result (read.start limit tokens.now) }
{
    let [token, rest @ ..] = tokens else {
        return ran(alloc, tokens, limit);
    };
    match token.kind {
        TokenKind::Semicolon => {
            let value = None;
            let semicolon = *token;
            Ok((ForStart::Expression { value, semicolon }, rest))
        }
        TokenKind::Const => constant_typed(alloc, *token, rest, limit),
        TokenKind::Void => typed(alloc, None, *token, rest, limit),
        TokenKind::Name => named(alloc, tokens, *token, rest, limit),
        TokenKind::Primitive(_) => primitive(alloc, tokens, *token, rest, limit),
        _ => ran(alloc, tokens, limit),
    }
}
