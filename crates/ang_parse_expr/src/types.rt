//! Reading types.
ghost use Rattle.std.specs.Prelude.{◌≡◌, Ok};
ghost use Rattle.ang_parse_read.specs.Gives.{Gives, NeedsNoMemory};
ghost use Rattle.ang_parse_expr.specs.ReadType as read;

use crate::kinds::is_type_name;
use ang_lex::{Token, TokenKind};
use ang_parse_read::{ReadError, perhaps_const};
use ang_tree::{Handle, TypeName};

/// Reads `[ "@" [ "const" ] ]`.
#[tactic(auto, unfolding(crate::specs::ReadType::a_handle))]
pub fn handle(tokens: &[Token]) -> (Option<Handle>, &[Token])
    ensures reads { read.a_handle tokens.now ≡ Ok (result.0, result.1.now) }
{
    match tokens {
        [at, rest @ ..] if matches!(at.kind, TokenKind::At) => {
            let (constant, rest) = perhaps_const(rest);
            (Some(Handle { at: *at, constant }), rest)
        }
        _ => (None, tokens),
    }
}

/// Reads what stands after a type's name.
#[tactic(auto, unfolding(crate::specs::ReadType::type_named))]
pub fn type_named(constant: Option<Token>, name: Token, tokens: &[Token]) -> (TypeName, &[Token])
    ensures reads { read.type_named constant name tokens.now ≡ Ok (result.0, result.1.now) }
{
    let (handle, rest) = handle(tokens);
    (
        TypeName {
            constant,
            name,
            handle,
        },
        rest,
    )
}

/// Reads `[ "const" ] ( PRIM | "void" | NAME ) [ "@" [ "const" ] ]`: a type. Any name can be one here, as
/// no type is looked up.
///
/// # Errors
///
/// `Syntax` where no type's name stands in front or after a `const` there: with the tokens from that place
/// on. No other error comes.
#[tactic(auto, unfolding(crate::specs::ReadType::a_type, ang_parse_read::specs::Tokens::a_token))]
pub fn type_name(tokens: &[Token]) -> Result<(TypeName, &[Token]), ReadError<'_>>
    ensures reads { Gives (λ x. (x.0, x.1.now)) result (read.a_type tokens.now) }
    ensures no_memory { NeedsNoMemory result }
{
    let (constant, rest) = perhaps_const(tokens);
    match rest {
        [name, rest @ ..] if is_type_name(name.kind) => Ok(type_named(constant, *name, rest)),
        _ => Err(ReadError::Syntax(rest)),
    }
}
