//! Quotients and remainders, truncated toward zero.
ghost use Rattle.std.specs.Prelude.{◌≡◌, ℤ, pos, int_div, int_rem, IfNone};
ghost use Rattle.std.specs.Int.{w64, IsNonZero};
ghost use Rattle.ang_kinds.specs.declared.operator.Operator.TheVariants.{Divide, Remainder};
ghost use Rattle.ang_meaning.specs.Numbers.{divided, binary_result};
ghost use Rattle.ang_vm_numbers.specs.Answers.{answer_of, unless};

use crate::conversions::{convert, is_signed, least};
use ang_kinds::{Fault, Prim};

// What speaks against dividing x by y in a signed type, if anything.
#[inline(always)]
fn barred(at: Prim, x: i64, y: i64) -> Option<Fault>
    ensures exact { (r : ℤ) → divided at x y r ≡ unless result at r }
    ensures nonzero { IfNone result (IsNonZero w64 y) }
{
    if y == 0 {
        return Some(Fault::DivideByZero);
    }
    if y == -1 && x <= least(at) {
        return Some(Fault::DivideOverflow);
    }
    None
}

#[inline(always)]
fn quotient_signed(at: Prim, x: i64, y: i64) -> Result<u64, Fault>
    ensures exact { result ≡ answer_of (divided at x y (int_div x y)) }
{
    match barred(at, x, y) {
        Some(fault) => Err(fault),
        None => Ok(convert(at, x.wrapping_div(y).cast_unsigned())),
    }
}

#[inline(always)]
fn remainder_signed(at: Prim, x: i64, y: i64) -> Result<u64, Fault>
    ensures exact { result ≡ answer_of (divided at x y (int_rem x y)) }
{
    match barred(at, x, y) {
        Some(fault) => Err(fault),
        None => Ok(convert(at, x.wrapping_rem(y).cast_unsigned())),
    }
}

#[inline(always)]
fn quotient_unsigned(at: Prim, x: u64, y: u64) -> Result<u64, Fault>
    ensures exact { result ≡ answer_of (divided at (pos x) (pos y) (int_div (pos x) (pos y))) }
{
    if y == 0 {
        return Err(Fault::DivideByZero);
    }
    Ok(convert(at, x / y))
}

#[inline(always)]
fn remainder_unsigned(at: Prim, x: u64, y: u64) -> Result<u64, Fault>
    ensures exact { result ≡ answer_of (divided at (pos x) (pos y) (int_rem (pos x) (pos y))) }
{
    if y == 0 {
        return Err(Fault::DivideByZero);
    }
    Ok(convert(at, x % y))
}

/// `/` in the type.
#[inline(always)]
#[tactic(auto, unfolding(ang_meaning::specs::Numbers::binary_result))]
pub(crate) fn quotient(at: Prim, x: u64, y: u64) -> Result<u64, Fault>
    ensures exact { result ≡ answer_of (binary_result Divide at x y) }
{
    if is_signed(at) {
        quotient_signed(at, x.cast_signed(), y.cast_signed())
    } else {
        quotient_unsigned(at, x, y)
    }
}

/// `%` in the type.
#[inline(always)]
#[tactic(auto, unfolding(ang_meaning::specs::Numbers::binary_result))]
pub(crate) fn remainder(at: Prim, x: u64, y: u64) -> Result<u64, Fault>
    ensures exact { result ≡ answer_of (binary_result Remainder at x y) }
{
    if is_signed(at) {
        remainder_signed(at, x.cast_signed(), y.cast_signed())
    } else {
        remainder_unsigned(at, x, y)
    }
}
