//! Numbers: their value and their type.
ghost use Rattle.std.specs.Prelude.{◌≡◌, ℕ, ◌<◌, ◌≤◌, ◌^◌, ◌*◌, ◌+◌, IfSome, option_map};
ghost use Rattle.std.specs.Str.Parse.{digits_value};
ghost use Rattle.std.specs.List.{list_all};
ghost use Rattle.std.specs.Option.{SomeIff};
ghost use Rattle.ang_lex.specs.Bytes as bytes;
ghost use Rattle.ang_lex.specs.Numbers as spec;

use crate::bytes::digit_value;
use crate::numeral::Number;
use ang_kinds::Prim;

/// The base that the letter of a prefix stands for.
pub fn base_of(letter: u8) -> Option<u8>
    ensures value { result ≡ spec.base_of letter }
    ensures range { IfSome result (λ base. (2 ≤ base) × (base ≤ 16)) }
{
    match letter {
        b'x' | b'X' => Some(16),
        b'o' | b'O' => Some(8),
        b'b' | b'B' => Some(2),
        b'd' | b'D' => Some(10),
        _ => None,
    }
}

fn all_digits(base: u8, text: &[u8]) -> bool
    ensures exact { result ≡ list_all (bytes.is_digit_in base) text.now }
{
    text.iter().all(|b| digit_value(*b) < base)
}

fn are_digits(base: u8, text: &[u8]) -> bool
    ensures exact { result ≡ spec.are_digits base text.now }
{
    !text.is_empty() && all_digits(base, text)
}

/// The base and the digits of a number with a prefix.
fn prefixed_numeral(text: &[u8]) -> Option<(u8, &[u8])>
    ensures value { option_map (λ n. (n.0, n.1.now)) result ≡ spec.prefixed_numeral text.now }
    ensures base { IfSome result (λ n. 2 ≤ n.0) }
{
    let [b'0', letter, digits @ ..] = text else {
        return None;
    };
    let base = base_of(*letter)?;
    if are_digits(base, digits) {
        Some((base, digits))
    } else {
        None
    }
}

/// The base and the digits of a number.
fn numeral(text: &[u8]) -> Option<(u8, &[u8])>
    ensures value { option_map (λ n. (n.0, n.1.now)) result ≡ spec.numeral_of text.now }
    ensures base { IfSome result (λ n. 2 ≤ n.0) }
{
    if are_digits(10, text) {
        Some((10, text))
    } else {
        prefixed_numeral(text)
    }
}

/// The value with one more digit after it, if it is below 2^64.
fn with_digit(value: u64, base: u8, digit: u8) -> Option<u64>
    ensures exact { SomeIff result (value * base + digit < 2 ^ 64) (value * base + digit) }
{
    value
        .checked_mul(u64::from(base))?
        .checked_add(u64::from(digit))
}

/// What the digits stand for, if it is below 2^64.
fn value_of(base: u8, digits: &[u8]) -> Option<u64>
    requires base { 2 ≤ base }
    ensures exact { SomeIff result (digits_value base digits.now < 2 ^ 64)
        (digits_value base digits.now) }
{
    let mut value = 0;
    for b in digits {
        value = with_digit(value, base, digit_value(*b))?;
    }
    Some(value)
}

fn type_of(base: u8, value: u64) -> Prim
    ensures exact { result ≡ spec.type_of base value }
{
    if base == 10 {
        if value < 1 << 31 {
            Prim::I32
        } else if value < 1 << 63 {
            Prim::I64
        } else {
            Prim::U64
        }
    } else if value < 1 << 32 {
        Prim::U32
    } else {
        Prim::U64
    }
}

/// The number that a text spells, if it spells one below 2^64.
#[tactic(auto, unfolding(crate::specs::Numbers::spelled_number))]
pub fn spelled_number(text: &[u8]) -> Option<Number>
    ensures exact { result ≡ spec.spelled_number text.now }
{
    let (base, digits) = numeral(text)?;
    let value = value_of(base, digits)?;
    Some(Number {
        ty: type_of(base, value),
        value,
    })
}

/// The value and the type of a number's text, as a token of the kind `Number` has it.
///
/// Decimal digits, also after `0d`, are an `int` up to 2^31-1, an `int64` up to 2^63-1 and a `uint64`
/// up to 2^64-1. Digits after `0x`, `0o` and `0b` are a `uint` up to 2^32-1, else a `uint64`. A text
/// that is no number, or one of 2^64 or more, gives the `int` 0; no token has one (docs/LANGUAGE.md).
pub fn number(text: &[u8]) -> Number
    ensures exact { result ≡ spec.number_of text.now }
{
    spelled_number(text).unwrap_or(Number {
        ty: Prim::I32,
        value: 0,
    })
}
