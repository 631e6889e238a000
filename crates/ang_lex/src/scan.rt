//! How far the token at the front of a rest goes.
ghost use Rattle.std.specs.Prelude.{◌≡◌, ℕ, ◌+◌, ◌<◌, ◌≤◌, ◌^◌, length, map, IsTrue, true, ◌==◌};
ghost use Rattle.std.specs.List.{prefix_len};
ghost use Rattle.ang_lex.specs.Bytes as bytes;
ghost use Rattle.ang_lex.specs.Fronts as spec;
ghost use Rattle.ang_lex.specs.Words as words;

use crate::bytes::{begins_name_byte, digit_value, is_name_byte, is_name_start, is_text_byte};
use crate::numbers::base_of;
use crate::token::TokenKind;
use crate::words::{signs_from, words_of_length};

fn name_len(rest: &[u8]) -> usize
    ensures value { result ≡ spec.name_len rest.now }
    ensures within { result ≤ length rest.now }
{
    rest.iter().take_while(|b| is_name_byte(**b)).count()
}

fn digits_len(base: u8, rest: &[u8]) -> usize
    ensures value { result ≡ spec.digits_len base rest.now }
    ensures within { result ≤ length rest.now }
{
    rest.iter().take_while(|b| digit_value(**b) < base).count()
}

fn text_bytes_len(rest: &[u8]) -> usize
    ensures value { result ≡ prefix_len bytes.is_text_byte rest.now }
    ensures within { result ≤ length rest.now }
{
    rest.iter().take_while(|b| is_text_byte(**b)).count()
}

fn prefixed_len(rest: &[u8]) -> usize
    ensures value { result ≡ spec.prefixed_len rest.now }
    ensures within { result ≤ length rest.now }
{
    let [b'0', letter, digits @ ..] = rest else {
        return 0;
    };
    let Some(base) = base_of(*letter) else {
        return 0;
    };
    match digits_len(base, digits) {
        0 => 0,
        n => n + 2,
    }
}

fn number_len(rest: &[u8]) -> usize
    ensures value { result ≡ spec.number_len rest.now }
    ensures within { result ≤ length rest.now }
{
    match prefixed_len(rest) {
        0 => digits_len(10, rest),
        n => n,
    }
}

fn text_len(rest: &[u8]) -> usize
    ensures value { result ≡ spec.text_len rest.now }
    ensures within { result ≤ length rest.now }
{
    let [_, behind @ ..] = rest else {
        return 0;
    };
    let n = text_bytes_len(behind);
    if n < behind.len() && behind[n] == b'"' {
        n + 2
    } else {
        0
    }
}

/// The kind of the spelling among the entries, and of any other text the kind `other`.
#[tactic(auto, unfolding(crate::specs::Words::lookup))]
fn lookup(mut entries: &[(&[u8], TokenKind)], text: &[u8], other: TokenKind) -> TokenKind
    ensures exact { result ≡ words.lookup
        (map (λ e. (e.0.now, e.1)) entries.entry.now) text.now other }
{
    while let [entry, rest @ ..] = entries {
        if entry.0 == text {
            return entry.1;
        }
        entries = rest;
    }
    other
}

#[tactic(auto, unfolding(crate::specs::Fronts::front_name))]
fn front_name(rest: &[u8]) -> (TokenKind, usize)
    ensures value { result ≡ spec.front_name rest.now }
    ensures within { result.1 ≤ length rest.now }
{
    let len = name_len(rest);
    (
        lookup(words_of_length(len), &rest[..len], TokenKind::Name),
        len,
    )
}

fn begins_not_is(rest: &[u8]) -> bool
    ensures value { result ≡ spec.begins_not_is rest.now }
    ensures within { IsTrue result → 3 ≤ length rest.now }
{
    rest.starts_with(b"!is") && !begins_name_byte(&rest[3..])
}

/// The first entry that the rest begins with.
#[tactic(auto, unfolding(crate::specs::Fronts::first_of_entries))]
fn first_of_entries(mut entries: &[(&[u8], TokenKind)], rest: &[u8]) -> (TokenKind, usize)
    ensures value { result ≡ spec.entry_token
        (spec.first_of_entries (map (λ e. (e.0.now, e.1)) entries.entry.now) rest.now) }
    ensures within { result.1 ≤ length rest.now }
{
    while let [entry, more @ ..] = entries {
        if rest.starts_with(entry.0) {
            return (entry.1, entry.0.len());
        }
        entries = more;
    }
    (TokenKind::NotIs, 0)
}

#[tactic(auto, unfolding(crate::specs::Fronts::front_sign))]
fn front_sign(first: u8, rest: &[u8]) -> (TokenKind, usize)
    requires first { bytes.begins (λ b. b == first) rest.now ≡ true }
    ensures value { result ≡ spec.front_sign rest.now }
    ensures within { result.1 ≤ length rest.now }
{
    if begins_not_is(rest) {
        (TokenKind::NotIs, 3)
    } else {
        first_of_entries(signs_from(first), rest)
    }
}

/// The kind and the length of the token at the front; the length is 0 where there is none.
#[tactic(auto, unfolding(crate::specs::Fronts::front_token))]
pub fn front_token(rest: &[u8]) -> (TokenKind, usize)
    ensures value { result ≡ spec.front_token rest.now }
    ensures within { result.1 ≤ length rest.now }
{
    match rest {
        [] => (TokenKind::Name, 0),
        [b, ..] if is_name_start(*b) => front_name(rest),
        [b'0'..=b'9', ..] => (TokenKind::Number, number_len(rest)),
        [b'"', ..] => (TokenKind::Text, text_len(rest)),
        [b, ..] => front_sign(*b, rest),
    }
}
