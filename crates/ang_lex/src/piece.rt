//! What stands at a point of a section.
ghost use Rattle.std.specs.Prelude.{◌≡◌, ℕ, ◌+◌, ◌<◌, ◌≤◌, length, take, drop, IsTrue, ◌||◌, ◌==◌, IfOk};
ghost use Rattle.ang_lex.specs.Bytes as bytes;
ghost use Rattle.ang_lex.specs.Spelling.{longest, kind_of};
ghost use Rattle.ang_lex.specs.Tokens as spec;

use crate::bytes::{is_name_byte, is_white};
use crate::gap::{closing_len, line_len};
use crate::numbers::spelled_number;
use crate::scan::front_token;
use crate::shape::{Fault, Piece};
use crate::token::TokenKind;

/// The most bytes of a token.
pub const MOST_TOKEN_BYTES: usize = 255;

/// The kind and the length of the longest token at the front; the length is 0 where there is none.
fn longest_token(rest: &[u8]) -> (TokenKind, usize)
    ensures length { result.1 ≡ longest rest.now }
    ensures kind { 0 < result.1 → result.0 ≡ kind_of (take result.1 rest.now) }
    ensures within { result.1 ≤ length rest.now }
{
    front_token(rest)
}

/// What may not stand directly after a number.
fn spoils_number(after: &[u8]) -> bool
    ensures exact { result ≡ bytes.begins (λ b. bytes.is_name_byte b || b == 46) after.now }
{
    match after {
        [] => false,
        [b, ..] => is_name_byte(*b) || *b == b'.',
    }
}

fn is_bad_number(kind: TokenKind, text: &[u8], after: &[u8]) -> bool
    ensures exact { result ≡ spec.is_bad_number kind text.now after.now }
{
    match kind {
        TokenKind::Number => spelled_number(text).is_none() || spoils_number(after),
        _ => false,
    }
}

fn token_piece(rest: &[u8]) -> Result<Piece, Fault>
    ensures value { result ≡ spec.longest_piece (longest rest.now) rest.now }
    ensures within { IfOk result (λ p. (1 ≤ spec.piece_len p)
        × (spec.piece_len p ≤ length rest.now)) }
{
    let (kind, len) = longest_token(rest);
    if len == 0 {
        return Err(Fault::BadByte);
    }
    let (text, after) = rest.split_at(len);
    if len > MOST_TOKEN_BYTES {
        return Err(Fault::TooLong);
    }
    if is_bad_number(kind, text, after) {
        return Err(Fault::BadNumber);
    }
    Ok(Piece::Token(kind, len))
}

fn block_piece(rest: &[u8]) -> Result<Piece, Fault>
    requires opened { 2 ≤ length rest.now }
    ensures value { result ≡ spec.block_piece (spec.closing_len (drop 2 rest.now)) }
    ensures within { IfOk result (λ p. (1 ≤ spec.piece_len p)
        × (spec.piece_len p ≤ length rest.now)) }
{
    match closing_len(&rest[2..]) {
        None => Err(Fault::OpenComment),
        Some(n) => Ok(Piece::Gap(2 + n)),
    }
}

fn begins_white(rest: &[u8]) -> bool
    ensures value { result ≡ bytes.begins bytes.is_white rest.now }
    ensures within { IsTrue result → 0 < length rest.now }
{
    match rest {
        [] => false,
        [b, ..] => is_white(*b),
    }
}

/// The gap or the token at the front of a rest.
#[tactic(auto, unfolding(crate::specs::Tokens::piece_of))]
pub fn piece(rest: &[u8]) -> Result<Piece, Fault>
    ensures value { result ≡ spec.piece_of rest.now }
    ensures within { IfOk result (λ p. (1 ≤ spec.piece_len p)
        × (spec.piece_len p ≤ length rest.now)) }
{
    if begins_white(rest) {
        return Ok(Piece::Gap(1));
    }
    if rest.starts_with(b"//") {
        return Ok(Piece::Gap(line_len(rest)));
    }
    if rest.starts_with(b"/*") {
        return block_piece(rest);
    }
    token_piece(rest)
}
