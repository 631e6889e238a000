//! Binary operators on integers.
ghost use Rattle.std.specs.Prelude.{◌≡◌, ◌+ℤ◌, ◌-ℤ◌, ◌*ℤ◌};
ghost use Rattle.ang_meaning.specs.Numbers.{bits_of, number_of, binary_result};
ghost use Rattle.ang_vm_numbers.specs.Answers.{answer_of};

use crate::conversions::convert;
use crate::division::{quotient, remainder};
use crate::shifts::{shift_left, shift_right, shift_signed};
use ang_kinds::{Fault, Operator, Prim};

#[inline(always)]
#[tactic(auto, using(crate::proofs::Congruence::sum_bits))]
fn add(at: Prim, x: u64, y: u64) -> u64
    ensures exact { result ≡ bits_of at (number_of at x +ℤ number_of at y) }
{
    convert(at, x.wrapping_add(y))
}

#[inline(always)]
#[tactic(auto, using(crate::proofs::Congruence::difference_bits))]
fn subtract(at: Prim, x: u64, y: u64) -> u64
    ensures exact { result ≡ bits_of at (number_of at x -ℤ number_of at y) }
{
    convert(at, x.wrapping_sub(y))
}

#[inline(always)]
#[tactic(auto, using(crate::proofs::Congruence::product_bits))]
fn multiply(at: Prim, x: u64, y: u64) -> u64
    ensures exact { result ≡ bits_of at (number_of at x *ℤ number_of at y) }
{
    convert(at, x.wrapping_mul(y))
}

/// A binary operator on two numbers of the type.
///
/// # Errors
/// `DivideByZero` of `/` and `%` where `y` is 0, and `DivideOverflow` where `y` is -1 and `x` the least
/// number of the type.
#[inline(always)]
#[tactic(auto, unfolding(ang_meaning::specs::Numbers::binary_result))]
pub fn work(what: Operator, at: Prim, x: u64, y: u64) -> Result<u64, Fault>
    ensures exact { result ≡ answer_of (binary_result what at x y) }
{
    match what {
        Operator::Add => Ok(add(at, x, y)),
        Operator::Subtract => Ok(subtract(at, x, y)),
        Operator::Multiply => Ok(multiply(at, x, y)),
        Operator::Divide => quotient(at, x, y),
        Operator::Remainder => remainder(at, x, y),
        Operator::BitAnd => Ok(x & y),
        Operator::BitOr => Ok(x | y),
        Operator::BitXor => Ok(x ^ y),
        Operator::ShiftLeft => Ok(shift_left(at, x, y)),
        Operator::ShiftRight => Ok(shift_right(at, x, y)),
        Operator::ShiftRightArithmetic => Ok(shift_signed(at, x, y)),
    }
}
