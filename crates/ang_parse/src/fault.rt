//! Errors of the grammar: their places and names.
ghost use Rattle.std.specs.Prelude.{◌≡◌, ◌+◌, ◌^◌, ◌<◌, ◌≤◌, [], ◌∷◌, All, IfOk};
ghost use Rattle.ang_lex.specs.Text.{text_of};
ghost use Rattle.ang_parse.specs.Faults.{place_past, place_at, name_at, HasColumns};

use crate::error::ParseError;
use ang_kinds::{List, Place};
use ang_lex::{Token, text_of};
use std::alloc::{AllocError, Global};

/// The place one column past the last token.
fn place_past(tokens: &[Token]) -> Place
    requires columns { All HasColumns tokens.now }
    ensures exact { result ≡ place_past tokens.now }
{
    match tokens.last() {
        Some(last) => Place {
            column: last.place.column + (last.span.end - last.span.start),
            ..last.place
        },
        None => Place {
            sect: 0,
            line: 1,
            column: 1,
        },
    }
}

/// The error of the grammar at the rest of the tokens.
pub(crate) fn syntax_error(
    alloc: Global,
    text: &[u8],
    tokens: &[Token],
    rest: &[Token],
) -> Result<ParseError, AllocError>
    requires columns { All HasColumns tokens.now }
    ensures exact { IfOk result (λ f. f ≡ ParseError.Syntax (place_at tokens.now rest.now)
        (name_at text.now rest.now)) }
{
    let Some(first) = rest.first() else {
        let name = List::from_vec(Vec::new(alloc));
        return Ok(ParseError::Syntax(place_past(tokens), name));
    };
    let name = Vec::from_slice(alloc, text_of(text, first))?;
    Ok(ParseError::Syntax(first.place, List::from_vec(name)))
}
