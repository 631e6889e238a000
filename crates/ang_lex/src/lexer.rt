//! The tokens of a section.
ghost use Rattle.std.specs.Prelude.{◌≡◌, ◌≢◌, ℕ, ◌+◌, ◌<◌, ◌≤◌, ◌^◌, length, drop, Ok, Err, IfOk, IfErr, OnOk, All};
ghost use Rattle.ang_lex.specs.Tokens as spec;

use crate::error::LexError;
use crate::piece::piece;
use crate::shape::{Fault, Piece};
use crate::token::{Span, Token};
use ang_kinds::Place;
use std::alloc::Global;

/// The most bytes of a section.
const MOST_BYTES: usize = 65_536;

fn next_place(place: Place, b: u8) -> Place
    requires line { place.line + 1 < 2 ^ 32 }
    requires column { place.column + 1 < 2 ^ 32 }
    ensures exact { result ≡ spec.next_place place b }
{
    if b == b'\n' {
        Place {
            line: place.line + 1,
            column: 1,
            ..place
        }
    } else {
        Place {
            column: place.column + 1,
            ..place
        }
    }
}

/// The place after the bytes.
fn place_after(mut place: Place, bytes: &[u8]) -> Place
    requires line { place.line + length bytes.now < 2 ^ 32 }
    requires column { place.column + length bytes.now < 2 ^ 32 }
    ensures value { result ≡ spec.place_after place bytes.now }
    ensures line { result.line ≤ place.line + length bytes.now }
    ensures column { result.column ≤ place.column + length bytes.now }
{
    for b in bytes {
        place = next_place(place, *b);
    }
    place
}

fn error_at(place: Place, fault: Fault) -> LexError
    ensures value { result ≡ spec.error_at place fault }
{
    match fault {
        Fault::TooLong => LexError::TooLong(place),
        Fault::BadByte => LexError::BadByte(place),
        Fault::BadNumber => LexError::BadNumber(place),
        Fault::OpenComment => LexError::OpenComment(place),
    }
}

fn piece_len(piece: Piece) -> usize
    ensures exact { result ≡ spec.piece_len piece }
{
    match piece {
        Piece::Gap(len) => len,
        Piece::Token(_, len) => len,
    }
}

/// Adds the token, if the piece is one.
fn push_piece(
    tokens: &mut Vec<Token>,
    piece: Piece,
    at: usize,
    place: Place,
) -> Result<(), LexError>
    requires room { at + spec.piece_len piece < 2 ^ 32 }
    ensures ok { OnOk result (tokens.new.items ≡ spec.tokens_with tokens.old.items piece at place) }
    ensures err { IfErr result (λ e. e ≡ LexError.Memory) }
{
    if let Piece::Token(kind, len) = piece {
        let span = Span {
            start: at as u32,
            end: (at + len) as u32,
        };
        tokens.push(Token { kind, span, place })?;
    }
    Ok(())
}

/// The tokens from a point of the section on.
fn tokens_from(
    alloc: Global,
    text: &[u8],
    mut at: usize,
    mut place: Place,
) -> Result<Vec<Token>, LexError>
    requires size { length text.now ≤ 65536 }
    requires within { at ≤ length text.now }
    requires line { place.line ≤ at + 1 }
    requires column { place.column ≤ at + 1 }
    ensures tokens { IfOk result (λ v. spec.tokens_from (length text.now) at place
        (drop at text.now) ≡ Ok v.items) }
    ensures fault { IfErr result (λ e. e ≢ LexError.Memory →
        spec.tokens_from (length text.now) at place (drop at text.now) ≡ Err e) }
{
    let mut tokens = Vec::new(alloc);
    while at < text.len() {
        let rest = &text[at..];
        let found = match piece(rest) {
            Ok(found) => found,
            Err(fault) => return Err(error_at(place, fault)),
        };
        push_piece(&mut tokens, found, at, place)?;
        let len = piece_len(found);
        place = place_after(place, &rest[..len]);
        at += len;
    }
    Ok(tokens)
}

/// The length of a byte order mark at the start of a section.
fn mark_len(text: &[u8]) -> usize
    ensures value { result ≡ spec.mark_len text.now }
    ensures within { result ≤ length text.now }
    ensures short { result ≤ 3 }
{
    if text.starts_with(b"\xEF\xBB\xBF") {
        3
    } else {
        0
    }
}

#[tactic(auto, unfolding(crate::specs::Tokens::tokens_of))]
fn section_tokens(alloc: Global, text: &[u8], sect: u32) -> Result<Vec<Token>, LexError>
    ensures tokens { IfOk result (λ v. spec.tokens_of sect text.now ≡ Ok v.items) }
    ensures fault { IfErr result (λ e. e ≢ LexError.Memory → spec.tokens_of sect text.now ≡ Err e) }
{
    let start = Place {
        sect,
        line: 1,
        column: 1,
    };
    if text.len() > MOST_BYTES {
        return Err(LexError::TooLong(start));
    }
    let at = mark_len(text);
    tokens_from(alloc, text, at, place_after(start, &text[..at]))
}

/// The tokens of the section `text`, whose number is `sect`, or the first fault in it.
///
/// Between tokens stand white space and comments. Each token is the longest one that begins where it
/// begins, and its text is the slice of `text` at its span. Columns count bytes from 1, and only an LF
/// ends a line (docs/LANGUAGE.md). The answer is `LexError::Memory` only where a growth was refused.
pub fn lex(alloc: Global, text: &[u8], sect: u32) -> Result<Vec<Token>, LexError>
    ensures tokens { IfOk result (λ v. spec.tokens_of sect text.now ≡ Ok v.items) }
    ensures fault { IfErr result (λ e. e ≢ LexError.Memory → spec.tokens_of sect text.now ≡ Err e) }
    // so each token's text is a slice of the section
    ensures spans { IfOk result (λ v. All (spec.IsWithin (length text.now)) v.items) }
{
    section_tokens(alloc, text, sect)
}
