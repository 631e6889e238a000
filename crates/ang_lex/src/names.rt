//! Identifiers.
ghost use Rattle.std.specs.Prelude.{◌≡◌, map};
ghost use Rattle.std.specs.List.{list_all};
ghost use Rattle.ang_lex.specs.Bytes as class;
ghost use Rattle.ang_lex.specs.Spelling as spec;
ghost use Rattle.ang_lex.specs.Words as words;

use crate::bytes::{is_name_byte, is_name_start};
use crate::piece::MOST_TOKEN_BYTES;
use crate::token::TokenKind;
use crate::words::words_of_length;

/// The text is one of the spellings.
#[tactic(auto, unfolding(crate::specs::Words::is_listed))]
fn is_listed(mut entries: &[(&[u8], TokenKind)], text: &[u8]) -> bool
    ensures exact { result ≡ words.is_listed
        (map (λ e. (e.0.now, e.1)) entries.entry.now) text.now }
{
    while let [entry, rest @ ..] = entries {
        if entry.0 == text {
            return true;
        }
        entries = rest;
    }
    false
}

fn is_reserved(text: &[u8]) -> bool
    ensures exact { result ≡ words.is_listed words.reserved_words text.now }
{
    is_listed(words_of_length(text.len()), text)
}

fn are_name_bytes(bytes: &[u8]) -> bool
    ensures exact { result ≡ list_all class.is_name_byte bytes.now }
{
    bytes.iter().all(|b| is_name_byte(*b))
}

fn is_spelled(text: &[u8]) -> bool
    ensures exact { result ≡ spec.is_name text.now }
{
    match text {
        [] => false,
        [b, rest @ ..] => is_name_start(*b) && are_name_bytes(rest),
    }
}

/// The text is an identifier: one name that is no reserved word, of at most 255 bytes.
///
/// A name is a letter or `_`, then letters, digits and `_` (docs/LANGUAGE.md, "Tokens").
pub fn is_name(text: &[u8]) -> bool
    ensures exact { result ≡ spec.is_identifier text.now }
{
    is_spelled(text) && !is_reserved(text) && text.len() <= MOST_TOKEN_BYTES
}
