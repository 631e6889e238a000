//! The arguments of a call.
ghost use Rattle.std.specs.Prelude.{◌≡◌, ◌<◌, ◌∷◌, [], length, IfOk, IfNone, IfSome, option_map};
ghost use Rattle.std.specs.List.{slice_split};
ghost use Rattle.asrun_lines.specs.Values.{positive_of, negative_of, digits_value_of, value_of, values_of, is_comma, inside_of, arguments_of};

use crate::fields::{decimal, place_of};
use ang_kinds::Value;
use std::alloc::{AllocError, Global};

/// The value of at most 63 bits that `7` spells.
#[tactic(auto, unfolding(crate::specs::Values::positive_of))]
fn positive(digits: &[u8]) -> Option<Value>
    ensures exact { result ≡ positive_of digits.now }
{
    let n = i64::try_from(decimal(digits, 20)?).ok()?;
    Some(Value::Int(n))
}

/// The value that `-7` spells, without its sign.
#[tactic(auto, unfolding(crate::specs::Values::negative_of))]
fn negative(digits: &[u8]) -> Option<Value>
    ensures exact { result ≡ negative_of digits.now }
{
    let n = i128::from(decimal(digits, 20)?);
    Some(Value::Int(i64::try_from(-n).ok()?))
}

/// The value that `7`, `7u` or `-7` spells.
#[tactic(auto, unfolding(crate::specs::Values::digits_value_of))]
fn number_value(text: &[u8]) -> Option<Value>
    ensures exact { result ≡ digits_value_of text.now }
{
    if text.is_empty() {
        return None;
    }
    if text[0] == b'-' {
        return negative(&text[1..]);
    }
    let last = text.len() - 1;
    if text[last] == b'u' {
        return decimal(&text[..last], 20).map(Value::Uint);
    }
    positive(text)
}

/// The value that `7`, `-7`, `7u`, `true` or `false` spells.
#[tactic(auto, unfolding(crate::specs::Values::value_of))]
pub fn value(text: &[u8]) -> Option<Value>
    ensures exact { result ≡ value_of text.now }
{
    if text == b"true".as_slice() {
        return Some(Value::Bool(true));
    }
    if text == b"false".as_slice() {
        return Some(Value::Bool(false));
    }
    number_value(text)
}

/// What stands before and after the first comma.
fn piece(text: &[u8]) -> Option<(&[u8], &[u8])>
    ensures none { IfNone result (slice_split is_comma text.now ≡ text.now ∷ []) }
    ensures some { IfSome result
        (λ x. slice_split is_comma text.now ≡ x.0.now ∷ slice_split is_comma x.1.now) }
    ensures shorter { IfSome result (λ x. length x.1.now < length text.now) }
{
    let at = place_of(text, b',')?;
    Some((&text[..at], &text[at + 1..]))
}

/// The values that the text spells, separated by commas.
fn values(alloc: Global, text: &[u8]) -> Result<Option<Vec<Value>>, AllocError>
    ensures exact { IfOk result
        (λ r. option_map (λ v. v.items) r ≡ values_of (slice_split is_comma text.now)) }
{
    let mut values = Vec::new(alloc);
    let mut text = text;
    while let Some((first, rest)) = piece(text) {
        let Some(value) = value(first) else {
            return Ok(None);
        };
        values.push(value)?;
        text = rest;
    }
    let Some(value) = value(text) else {
        return Ok(None);
    };
    values.push(value)?;
    Ok(Some(values))
}

/// What stands between `(` and `)`.
#[tactic(auto, unfolding(crate::specs::Values::inside_of))]
fn inside(text: &[u8]) -> Option<&[u8]>
    ensures exact { option_map (λ x. x.now) result ≡ inside_of text.now }
{
    if text.len() < 2 {
        return None;
    }
    if text[0] == b'(' && text[text.len() - 1] == b')' {
        Some(&text[1..text.len() - 1])
    } else {
        None
    }
}

/// The arguments that `(V,V)` spells. `()` spells none.
#[tactic(auto, unfolding(crate::specs::Values::arguments_of))]
pub fn arguments(alloc: Global, text: &[u8]) -> Result<Option<Vec<Value>>, AllocError>
    ensures exact { IfOk result (λ r. option_map (λ v. v.items) r ≡ arguments_of text.now) }
{
    let Some(inside) = inside(text) else {
        return Ok(None);
    };
    if inside.is_empty() {
        return Ok(Some(Vec::new(alloc)));
    }
    values(alloc, inside)
}
