//! The kinds of token that the grammar's rules of members ask for.
ghost use Rattle.std.specs.Prelude.{◌≡◌};
ghost use Rattle.ang_tree.specs.Kinds as kinds;

use ang_lex::TokenKind;

/// Whether the token says who sees a member: `private` or `protected`.
pub(crate) fn is_access(kind: TokenKind) -> bool
    ensures exact { result ≡ kinds.access_kind kind }
{
    matches!(kind, TokenKind::Private | TokenKind::Protected)
}

/// Whether the token is an attribute of a method: `final` or `override`.
pub(crate) fn is_attribute(kind: TokenKind) -> bool
    ensures exact { result ≡ kinds.attribute_kind kind }
{
    matches!(kind, TokenKind::Final | TokenKind::Override)
}
