//! Numbers brought into a type.
ghost use Rattle.std.specs.Prelude.{◌≡◌, ◌≢◌, ◌<◌};
ghost use Rattle.ang_meaning.specs.Numbers.{converted, negated, complemented, least};
ghost use Rattle.ang_kinds.specs.Primitives.{is_signed, width_of};

use ang_kinds::Prim;

/// The number brought into the type: its low bits, sign-extended to 64 bits where the type is signed and
/// zero-extended where it is not.
#[inline(always)]
pub fn convert(to: Prim, bits: u64) -> u64
    ensures exact { result ≡ converted to bits }
{
    match to {
        Prim::I8 => i64::from(((bits % 0x100) as u8).cast_signed()).cast_unsigned(),
        Prim::I16 => i64::from(((bits % 0x1_0000) as u16).cast_signed()).cast_unsigned(),
        Prim::I32 => i64::from(((bits % 0x1_0000_0000) as u32).cast_signed()).cast_unsigned(),
        Prim::I64 | Prim::U64 => bits,
        Prim::U8 => bits % 0x100,
        Prim::U16 => bits % 0x1_0000,
        Prim::U32 => bits % 0x1_0000_0000,
        Prim::Bool => bits % 2,
    }
}

/// Unary `-` in the type, which wraps.
#[inline(always)]
#[tactic(auto, unfolding(ang_meaning::specs::Numbers::negated), using(crate::proofs::Congruence::negated_bits))]
pub fn negate(at: Prim, bits: u64) -> u64
    ensures exact { result ≡ negated at bits }
{
    convert(at, 0u64.wrapping_sub(bits))
}

/// `~` in the type: each bit turned.
#[inline(always)]
#[tactic(auto, unfolding(ang_meaning::specs::Numbers::complemented), using(crate::proofs::Congruence::complemented_bits))]
pub fn complement(at: Prim, bits: u64) -> u64
    ensures exact { result ≡ complemented at bits }
{
    convert(at, u64::MAX - bits)
}

/// Whether the type has negative numbers.
#[inline(always)]
pub fn is_signed(of: Prim) -> bool
    ensures exact { result ≡ is_signed of }
{
    match of {
        Prim::I8 | Prim::I16 | Prim::I32 | Prim::I64 => true,
        Prim::U8 | Prim::U16 | Prim::U32 | Prim::U64 | Prim::Bool => false,
    }
}

/// How many bits the type has.
#[inline(always)]
pub(crate) fn width(of: Prim) -> u64
    ensures exact { result ≡ width_of of }
    ensures some { result ≢ 0 }
    ensures small { result < 65 }
{
    match of {
        Prim::I8 | Prim::U8 => 8,
        Prim::I16 | Prim::U16 => 16,
        Prim::I32 | Prim::U32 => 32,
        Prim::I64 | Prim::U64 => 64,
        Prim::Bool => 1,
    }
}

/// The least number of the type.
#[inline(always)]
pub(crate) fn least(of: Prim) -> i64
    ensures exact { result ≡ least of }
{
    match of {
        Prim::I8 => -0x80,
        Prim::I16 => -0x8000,
        Prim::I32 => -0x8000_0000,
        Prim::I64 => i64::MIN,
        Prim::U8 | Prim::U16 | Prim::U32 | Prim::U64 | Prim::Bool => 0,
    }
}
