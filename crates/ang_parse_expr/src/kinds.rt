//! The kinds of token that the grammar's rules of expressions ask for.
ghost use Rattle.std.specs.Prelude.{◌≡◌, ◌≤◌};
ghost use Rattle.ang_tree.specs.Kinds as kinds;
ghost use Rattle.ang_parse_expr.specs.ReadExpr as read;

use ang_lex::{TokenKind, binary_operator, compound_operator};

/// Whether the token is a literal: a number, `true`, `false`, `null` or `this`.
pub(crate) fn is_literal(kind: TokenKind) -> bool
    ensures exact { result ≡ kinds.literal_kind kind }
{
    matches!(
        kind,
        TokenKind::Number | TokenKind::True | TokenKind::False | TokenKind::Null | TokenKind::This
    )
}

/// Whether a type can be named by the token: a primitive type, `void` or a name.
pub fn is_type_name(kind: TokenKind) -> bool
    ensures exact { result ≡ kinds.type_kind kind }
{
    matches!(
        kind,
        TokenKind::Primitive(_) | TokenKind::Void | TokenKind::Name
    )
}

/// Whether the token is an operator in front of an operand: `!`, `-`, `+`, `~`, `@`, `++` or `--`.
pub fn is_prefix(kind: TokenKind) -> bool
    ensures exact { result ≡ kinds.prefix_kind kind }
{
    matches!(
        kind,
        TokenKind::Not
            | TokenKind::Minus
            | TokenKind::Plus
            | TokenKind::Tilde
            | TokenKind::At
            | TokenKind::Increment
            | TokenKind::Decrement
    )
}

/// Whether the token is `++` or `--`.
pub(crate) fn is_step(kind: TokenKind) -> bool
    ensures exact { result ≡ kinds.step_kind kind }
{
    matches!(kind, TokenKind::Increment | TokenKind::Decrement)
}

/// Whether the token is `=` or a compound assignment.
pub fn is_assignment(kind: TokenKind) -> bool
    ensures exact { result ≡ kinds.assignment_kind kind }
{
    is_plain_assignment(kind) || compound_operator(kind).is_some()
}

fn is_plain_assignment(kind: TokenKind) -> bool
    ensures exact { result ≡ kinds.plain_assignment_kind kind }
{
    matches!(kind, TokenKind::Assign)
}

/// How tightly a binary operator binds, from 1 for `||` to 10 for `*`; 0 for any other token.
pub(crate) fn precedence(kind: TokenKind) -> u32
    ensures value { result ≡ kinds.precedence kind }
    ensures bound { result ≤ 10 }
{
    match binary_operator(kind) {
        Some(operator) => operator.precedence,
        None => 0,
    }
}

/// Whether an operator of this precedence is taken where one of the rule `least` or a tighter one is
/// wanted.
pub(crate) fn binds(least: u32, precedence: u32) -> bool
    ensures exact { result ≡ read.binds least precedence }
{
    precedence != 0 && least <= precedence
}
