//! Comparisons, and `!`.
ghost use Rattle.std.specs.Prelude.{◌≡◌, int_lt, int_le};
ghost use Rattle.ang_meaning.specs.Numbers.{number, compared, holds_of, denied};

use ang_kinds::Comparison;

#[inline(always)]
fn less(signed: bool, x: u64, y: u64) -> bool
    ensures exact { result ≡ int_lt (number signed x) (number signed y) }
{
    if signed {
        x.cast_signed() < y.cast_signed()
    } else {
        x < y
    }
}

#[inline(always)]
fn at_most(signed: bool, x: u64, y: u64) -> bool
    ensures exact { result ≡ int_le (number signed x) (number signed y) }
{
    if signed {
        x.cast_signed() <= y.cast_signed()
    } else {
        x <= y
    }
}

#[inline(always)]
fn holds(what: Comparison, signed: bool, x: u64, y: u64) -> bool
    ensures exact { result ≡ compared what (number signed x) (number signed y) x y }
{
    match what {
        Comparison::Equal => x == y,
        Comparison::NotEqual => x != y,
        Comparison::Less => less(signed, x, y),
        Comparison::LessEqual => at_most(signed, x, y),
        Comparison::Greater => less(signed, y, x),
        Comparison::GreaterEqual => at_most(signed, y, x),
    }
}

/// A comparison of two numbers of a signed type, or of an unsigned one: 1 where it holds, and else 0.
#[inline(always)]
#[tactic(auto, unfolding(ang_meaning::specs::Numbers::holds_of))]
pub fn compare(what: Comparison, signed: bool, x: u64, y: u64) -> u64
    ensures exact { result ≡ holds_of what signed x y }
{
    if holds(what, signed, x, y) { 1 } else { 0 }
}

/// `!` of a truth value: 1 at 0, and else 0.
#[inline(always)]
#[tactic(auto, unfolding(ang_meaning::specs::Numbers::denied))]
pub fn deny(bits: u64) -> u64
    ensures exact { result ≡ denied bits }
{
    if bits == 0 { 1 } else { 0 }
}
