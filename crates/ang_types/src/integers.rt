//! The integer types, and the type in which two of them meet.
ghost use Rattle.std.specs.Prelude.{◌≡◌, max, ◌||◌, ◌&&◌, nat_lt};
ghost use Rattle.ang_kinds.specs.Primitives.{is_signed, width_of};
ghost use Rattle.ang_types.specs.Integers.{
  IsInteger,
  common_type,
  integer_rank,
  is_integer,
  primitive_rank,
  raised,
  wider,
};

use ang_kinds::Prim;
use std::cmp::Ordering;

/// The type in which two integers meet in an operation: each is raised to at least 32 bits and keeps its
/// signedness, and of the two the wider counts; at equal widths the common type is unsigned if either is.
/// Neither may be `bool`. So `common(p, p)` is `p` raised.
pub fn common(a: Prim, b: Prim) -> Prim
    requires left { IsInteger a }
    requires right { IsInteger b }
    ensures exact { result ≡ common_type a b }

    // An operand counts as signed where it is, or where it is narrower than the result.
    ensures wide { width_of result ≡ max 32 (max (width_of a) (width_of b)) }
    ensures signed { is_signed result ≡
        ((is_signed a || nat_lt (width_of (raised a)) (width_of result)) &&
        (is_signed b || nat_lt (width_of (raised b)) (width_of result))) }
{
    wider_of(raise(a), raise(b))
}

fn wider_of(a: Prim, b: Prim) -> Prim
    ensures exact { result ≡ wider a b }
{
    match bits(a).cmp(&bits(b)) {
        Ordering::Less => b,
        Ordering::Greater => a,
        Ordering::Equal if has_sign(a) => b,
        Ordering::Equal => a,
    }
}

fn raise(p: Prim) -> Prim
    ensures exact { result ≡ raised p }
{
    match p {
        Prim::I8 | Prim::I16 => Prim::I32,
        Prim::U8 | Prim::U16 => Prim::U32,
        Prim::I32 | Prim::I64 | Prim::U32 | Prim::U64 | Prim::Bool => p,
    }
}

fn bits(p: Prim) -> u32
    ensures exact { result ≡ width_of p }
{
    match p {
        Prim::I8 | Prim::U8 => 8,
        Prim::I16 | Prim::U16 => 16,
        Prim::I32 | Prim::U32 => 32,
        Prim::I64 | Prim::U64 => 64,
        Prim::Bool => 1,
    }
}

fn has_sign(p: Prim) -> bool
    ensures exact { result ≡ is_signed p }
{
    matches!(p, Prim::I8 | Prim::I16 | Prim::I32 | Prim::I64)
}

fn is_integer_type(p: Prim) -> bool
    ensures exact { result ≡ is_integer p }
{
    !matches!(p, Prim::Bool)
}

/// The rank of a conversion between primitive types.
pub(crate) fn rank_of_primitive(from: Prim, to: Prim) -> Option<u8>
    ensures exact { result ≡ primitive_rank from to }
{
    match (is_integer_type(from), is_integer_type(to)) {
        (true, true) => Some(rank_of_integer(from, to)),
        (false, false) => Some(0),
        _ => None,
    }
}

fn rank_of_integer(from: Prim, to: Prim) -> u8
    ensures exact { result ≡ integer_rank from to }
{
    if has_sign(from) != has_sign(to) {
        return 3;
    }
    match bits(from).cmp(&bits(to)) {
        Ordering::Equal => 0,
        Ordering::Less => 2,
        Ordering::Greater => 3,
    }
}
