//! Readers of single tokens. Each answers the token and the tokens after it, or the fault at the
//! first token where that is of another kind. None takes memory.
ghost use Rattle.std.specs.Prelude.{◌≡◌, Ok};
ghost use Rattle.ang_parse_read.specs.Gives.{Gives, NeedsNoMemory};
ghost use Rattle.ang_parse_read.specs.Tokens.{a_token, perhaps, is_const, is_name, is_left_paren, is_right_paren, is_left_brace, is_right_brace, is_semicolon, is_colon, is_less, is_greater, is_while, is_from, is_text};

use crate::error::ReadError;
use ang_lex::{Token, TokenKind};

/// Reads a name.
///
/// # Errors
///
/// `Syntax` with all of `tokens` where the first is no name, or where there is none. No other error comes.
#[tactic(auto, unfolding(crate::specs::Tokens::a_token))]
pub fn a_name(tokens: &[Token]) -> Result<(Token, &[Token]), ReadError<'_>>
    ensures reads { Gives (λ x. (x.0, x.1.now)) result (a_token is_name tokens.now) }
    ensures no_memory { NeedsNoMemory result }
{
    match tokens {
        [token, rest @ ..] if matches!(token.kind, TokenKind::Name) => Ok((*token, rest)),
        _ => Err(ReadError::Syntax(tokens)),
    }
}

/// Reads `(`.
///
/// # Errors
///
/// `Syntax` with all of `tokens` where the first is not `(`, or where there is none. No other error comes.
#[tactic(auto, unfolding(crate::specs::Tokens::a_token))]
pub fn a_left_paren(tokens: &[Token]) -> Result<(Token, &[Token]), ReadError<'_>>
    ensures reads { Gives (λ x. (x.0, x.1.now)) result (a_token is_left_paren tokens.now) }
    ensures no_memory { NeedsNoMemory result }
{
    match tokens {
        [token, rest @ ..] if matches!(token.kind, TokenKind::LeftParen) => Ok((*token, rest)),
        _ => Err(ReadError::Syntax(tokens)),
    }
}

/// Reads `)`.
///
/// # Errors
///
/// `Syntax` with all of `tokens` where the first is not `)`, or where there is none. No other error comes.
#[tactic(auto, unfolding(crate::specs::Tokens::a_token))]
pub fn a_right_paren(tokens: &[Token]) -> Result<(Token, &[Token]), ReadError<'_>>
    ensures reads { Gives (λ x. (x.0, x.1.now)) result (a_token is_right_paren tokens.now) }
    ensures no_memory { NeedsNoMemory result }
{
    match tokens {
        [token, rest @ ..] if matches!(token.kind, TokenKind::RightParen) => Ok((*token, rest)),
        _ => Err(ReadError::Syntax(tokens)),
    }
}

/// Reads `{`.
///
/// # Errors
///
/// `Syntax` with all of `tokens` where the first is not `{`, or where there is none. No other error comes.
#[tactic(auto, unfolding(crate::specs::Tokens::a_token))]
pub fn a_left_brace(tokens: &[Token]) -> Result<(Token, &[Token]), ReadError<'_>>
    ensures reads { Gives (λ x. (x.0, x.1.now)) result (a_token is_left_brace tokens.now) }
    ensures no_memory { NeedsNoMemory result }
{
    match tokens {
        [token, rest @ ..] if matches!(token.kind, TokenKind::LeftBrace) => Ok((*token, rest)),
        _ => Err(ReadError::Syntax(tokens)),
    }
}

/// Reads `}`.
///
/// # Errors
///
/// `Syntax` with all of `tokens` where the first is not `}`, or where there is none. No other error comes.
#[tactic(auto, unfolding(crate::specs::Tokens::a_token))]
pub fn a_right_brace(tokens: &[Token]) -> Result<(Token, &[Token]), ReadError<'_>>
    ensures reads { Gives (λ x. (x.0, x.1.now)) result (a_token is_right_brace tokens.now) }
    ensures no_memory { NeedsNoMemory result }
{
    match tokens {
        [token, rest @ ..] if matches!(token.kind, TokenKind::RightBrace) => Ok((*token, rest)),
        _ => Err(ReadError::Syntax(tokens)),
    }
}

/// Reads `;`.
///
/// # Errors
///
/// `Syntax` with all of `tokens` where the first is not `;`, or where there is none. No other error comes.
#[tactic(auto, unfolding(crate::specs::Tokens::a_token))]
pub fn a_semicolon(tokens: &[Token]) -> Result<(Token, &[Token]), ReadError<'_>>
    ensures reads { Gives (λ x. (x.0, x.1.now)) result (a_token is_semicolon tokens.now) }
    ensures no_memory { NeedsNoMemory result }
{
    match tokens {
        [token, rest @ ..] if matches!(token.kind, TokenKind::Semicolon) => Ok((*token, rest)),
        _ => Err(ReadError::Syntax(tokens)),
    }
}

/// Reads `:`.
///
/// # Errors
///
/// `Syntax` with all of `tokens` where the first is not `:`, or where there is none. No other error comes.
#[tactic(auto, unfolding(crate::specs::Tokens::a_token))]
pub fn a_colon(tokens: &[Token]) -> Result<(Token, &[Token]), ReadError<'_>>
    ensures reads { Gives (λ x. (x.0, x.1.now)) result (a_token is_colon tokens.now) }
    ensures no_memory { NeedsNoMemory result }
{
    match tokens {
        [token, rest @ ..] if matches!(token.kind, TokenKind::Colon) => Ok((*token, rest)),
        _ => Err(ReadError::Syntax(tokens)),
    }
}

/// Reads `<`.
///
/// # Errors
///
/// `Syntax` with all of `tokens` where the first is not `<`, or where there is none. No other error comes.
#[tactic(auto, unfolding(crate::specs::Tokens::a_token))]
pub fn a_less(tokens: &[Token]) -> Result<(Token, &[Token]), ReadError<'_>>
    ensures reads { Gives (λ x. (x.0, x.1.now)) result (a_token is_less tokens.now) }
    ensures no_memory { NeedsNoMemory result }
{
    match tokens {
        [token, rest @ ..] if matches!(token.kind, TokenKind::Less) => Ok((*token, rest)),
        _ => Err(ReadError::Syntax(tokens)),
    }
}

/// Reads `>`.
///
/// # Errors
///
/// `Syntax` with all of `tokens` where the first is not `>`, or where there is none. No other error comes.
#[tactic(auto, unfolding(crate::specs::Tokens::a_token))]
pub fn a_greater(tokens: &[Token]) -> Result<(Token, &[Token]), ReadError<'_>>
    ensures reads { Gives (λ x. (x.0, x.1.now)) result (a_token is_greater tokens.now) }
    ensures no_memory { NeedsNoMemory result }
{
    match tokens {
        [token, rest @ ..] if matches!(token.kind, TokenKind::Greater) => Ok((*token, rest)),
        _ => Err(ReadError::Syntax(tokens)),
    }
}

/// Reads the word `while`.
///
/// # Errors
///
/// `Syntax` with all of `tokens` where the first is not that word, or where there is none. No other error comes.
#[tactic(auto, unfolding(crate::specs::Tokens::a_token))]
pub fn a_while(tokens: &[Token]) -> Result<(Token, &[Token]), ReadError<'_>>
    ensures reads { Gives (λ x. (x.0, x.1.now)) result (a_token is_while tokens.now) }
    ensures no_memory { NeedsNoMemory result }
{
    match tokens {
        [token, rest @ ..] if matches!(token.kind, TokenKind::While) => Ok((*token, rest)),
        _ => Err(ReadError::Syntax(tokens)),
    }
}

/// Reads the word `from`.
///
/// # Errors
///
/// `Syntax` with all of `tokens` where the first is not that word, or where there is none. No other error comes.
#[tactic(auto, unfolding(crate::specs::Tokens::a_token))]
pub fn a_from(tokens: &[Token]) -> Result<(Token, &[Token]), ReadError<'_>>
    ensures reads { Gives (λ x. (x.0, x.1.now)) result (a_token is_from tokens.now) }
    ensures no_memory { NeedsNoMemory result }
{
    match tokens {
        [token, rest @ ..] if matches!(token.kind, TokenKind::From) => Ok((*token, rest)),
        _ => Err(ReadError::Syntax(tokens)),
    }
}

/// Reads a text in quotes.
///
/// # Errors
///
/// `Syntax` with all of `tokens` where the first is no text, or where there is none. No other error comes.
#[tactic(auto, unfolding(crate::specs::Tokens::a_token))]
pub fn a_text(tokens: &[Token]) -> Result<(Token, &[Token]), ReadError<'_>>
    ensures reads { Gives (λ x. (x.0, x.1.now)) result (a_token is_text tokens.now) }
    ensures no_memory { NeedsNoMemory result }
{
    match tokens {
        [token, rest @ ..] if matches!(token.kind, TokenKind::Text) => Ok((*token, rest)),
        _ => Err(ReadError::Syntax(tokens)),
    }
}

/// Reads the word `const`, if it stands there. Else it answers none, and all of the tokens are left.
#[tactic(auto, unfolding(crate::specs::Tokens::perhaps))]
pub fn perhaps_const(tokens: &[Token]) -> (Option<Token>, &[Token])
    ensures reads { perhaps is_const tokens.now ≡ Ok (result.0, result.1.now) }
{
    match tokens {
        [token, rest @ ..] if matches!(token.kind, TokenKind::Const) => (Some(*token), rest),
        _ => (None, tokens),
    }
}

/// Reads a name, if one stands there. Else it answers none, and all of the tokens are left.
#[tactic(auto, unfolding(crate::specs::Tokens::perhaps))]
pub fn perhaps_name(tokens: &[Token]) -> (Option<Token>, &[Token])
    ensures reads { perhaps is_name tokens.now ≡ Ok (result.0, result.1.now) }
{
    match tokens {
        [token, rest @ ..] if matches!(token.kind, TokenKind::Name) => (Some(*token), rest),
        _ => (None, tokens),
    }
}
