//! Tokens that lie too deep.
ghost use Rattle.std.specs.Prelude.{◌≡◌, ◌+◌, ◌^◌, ◌<◌, ◌≤◌, option_map};
ghost use Rattle.ang_tree.specs.Depth as depth;
ghost use Rattle.ang_parse.specs.Faults.{place_at};

use ang_kinds::Place;
use ang_lex::{Token, TokenKind, binary_operator};
use ang_parse_expr::{is_assignment, is_prefix};

/// The most of `(` and `{` that may be open.
const MOST_OPEN: u32 = 64;

/// The most operators, and words of those below, between two of `;`, `{` and `}`. It is no bound on how deep
/// statements nest: the `;` in the head of a `for` begins the count anew.
const MOST_OPERATORS: u32 = 256;

/// How many of `(` and `{` are open after a token.
fn opened(brackets: u32, kind: TokenKind) -> u32
    requires room { brackets + 1 < 2 ^ 32 }
    ensures exact { result ≡ depth.opened brackets kind }
{
    match kind {
        TokenKind::LeftParen | TokenKind::LeftBrace => brackets + 1,
        TokenKind::RightParen | TokenKind::RightBrace => brackets.saturating_sub(1),
        _ => brackets,
    }
}

/// Whether the token is counted as operators are, and none: `?`, `.`, and the words `if else while for do`.
fn is_counted_besides(kind: TokenKind) -> bool
    ensures exact { result ≡ depth.counts_besides kind }
{
    matches!(
        kind,
        TokenKind::If
            | TokenKind::Else
            | TokenKind::While
            | TokenKind::For
            | TokenKind::Do
            | TokenKind::Question
            | TokenKind::Dot
    )
}

/// Whether the token is an operator, or one of the words `if else while for do not and or xor is`.
fn is_counted(kind: TokenKind) -> bool
    ensures exact { result ≡ depth.counts kind }
{
    binary_operator(kind).is_some()
        || is_assignment(kind)
        || is_prefix(kind)
        || is_counted_besides(kind)
}

/// Whether operators are counted anew after the token: `;`, `{` and `}`.
fn ends_count(kind: TokenKind) -> bool
    ensures exact { result ≡ depth.ends_count kind }
{
    matches!(
        kind,
        TokenKind::Semicolon | TokenKind::LeftBrace | TokenKind::RightBrace
    )
}

/// How many operators stand since the last `;`, `{` or `}`, after a token.
fn counted(operators: u32, kind: TokenKind) -> u32
    requires room { operators + 1 < 2 ^ 32 }
    ensures exact { result ≡ depth.counted operators kind }
{
    if ends_count(kind) {
        0
    } else if is_counted(kind) {
        operators + 1
    } else {
        operators
    }
}

/// The place of the first token after which too many brackets are open, or too many operators stand.
pub(crate) fn too_deep(tokens: &[Token]) -> Option<Place>
    ensures exact { result ≡ option_map (place_at tokens.now) (depth.too_deep tokens.now) }
{
    let mut brackets = 0;
    let mut operators = 0;
    for token in tokens {
        brackets = opened(brackets, token.kind);
        operators = counted(operators, token.kind);
        if brackets > MOST_OPEN || operators > MOST_OPERATORS {
            return Some(token.place);
        }
    }
    None
}
