//! Reading how a parameter is passed.
ghost use Rattle.std.specs.Prelude.{◌≡◌, Ok};
ghost use Rattle.ang_tree.specs.Kinds.{direction_kind};
ghost use Rattle.ang_parse_read.specs.References.{a_reference};
ghost use Rattle.ang_parse_read.specs.Tokens.{perhaps};

use ang_lex::{Token, TokenKind};
use ang_tree::Reference;

/// Reads `in`, `out` or `inout`, if one stands there.
#[tactic(auto, unfolding(crate::specs::Tokens::perhaps))]
fn perhaps_direction(tokens: &[Token]) -> (Option<Token>, &[Token])
    ensures reads { perhaps direction_kind tokens.now ≡ Ok (result.0, result.1.now) }
{
    match tokens {
        [word, rest @ ..]
            if matches!(word.kind, TokenKind::In | TokenKind::Out | TokenKind::InOut) => {
            (Some(*word), rest)
        }
        _ => (None, tokens),
    }
}

/// Reads `&` with the direction after it, if one is written: `[ "&" [ "in" | "out" | "inout" ] ]`. Where no `&`
/// stands it answers none, and all of the tokens are left.
#[tactic(auto, unfolding(crate::specs::References::a_reference))]
pub fn perhaps_reference(tokens: &[Token]) -> (Option<Reference>, &[Token])
    ensures reads { a_reference tokens.now ≡ Ok (result.0, result.1.now) }
{
    match tokens {
        [sign, rest @ ..] if matches!(sign.kind, TokenKind::Ampersand) => {
            let (direction, rest) = perhaps_direction(rest);
            let ampersand = *sign;
            (
                Some(Reference {
                    ampersand,
                    direction,
                }),
                rest,
            )
        }
        _ => (None, tokens),
    }
}
