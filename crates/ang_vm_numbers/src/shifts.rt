//! Shifts, whose count is taken modulo the type's width.
ghost use Rattle.std.specs.Prelude.{◌≡◌, ◌<◌, ◌*◌, ◌/◌, ◌%◌, ◌^◌, pos};
ghost use Rattle.std.specs.Int.{int_div_euclid};
ghost use Rattle.ang_meaning.specs.Numbers.{bits_of, number_of};
ghost use Rattle.ang_kinds.specs.Primitives.{width_of};

use crate::conversions::{convert, is_signed, width};
use ang_kinds::Prim;

#[inline(always)]
fn count_in(at: Prim, y: u64) -> u32
    ensures exact { result ≡ y % width_of at }
    ensures small { result < 64 }
{
    (y % width(at)) as u32
}

#[inline(always)]
fn low_bits(at: Prim, x: u64) -> u64
    ensures exact { result ≡ x % 2 ^ width_of at }
{
    match at {
        Prim::I8 | Prim::U8 => x % 0x100,
        Prim::I16 | Prim::U16 => x % 0x1_0000,
        Prim::I32 | Prim::U32 => x % 0x1_0000_0000,
        Prim::I64 | Prim::U64 => x,
        Prim::Bool => x % 2,
    }
}

/// `<<` in the type.
#[inline(always)]
pub(crate) fn shift_left(at: Prim, x: u64, y: u64) -> u64
    ensures exact { result ≡ bits_of at (pos (x * 2 ^ (y % width_of at))) }
{
    convert(at, x.wrapping_shl(count_in(at, y)))
}

/// `>>` in the type, which fills zeros into its bits.
#[inline(always)]
pub(crate) fn shift_right(at: Prim, x: u64, y: u64) -> u64
    ensures exact { result ≡ bits_of at (pos (x % 2 ^ width_of at / 2 ^ (y % width_of at))) }
{
    convert(at, low_bits(at, x).wrapping_shr(count_in(at, y)))
}

/// `>>>` in the type, which copies the sign.
#[inline(always)]
pub(crate) fn shift_signed(at: Prim, x: u64, y: u64) -> u64
    ensures exact { result
        ≡ bits_of at (int_div_euclid (number_of at x) (pos (2 ^ (y % width_of at)))) }
{
    let count = count_in(at, y);
    if is_signed(at) {
        convert(at, x.cast_signed().wrapping_shr(count).cast_unsigned())
    } else {
        convert(at, x.wrapping_shr(count))
    }
}
