//! Whether one type converts to another by itself, and what that costs.
ghost use Rattle.std.specs.Prelude.{◌≡◌, ◌==◌, if◌then◌else◌, Some, None};
ghost use Rattle.ang_types.specs.Ranks.{
  argument_rank,
  const_rank,
  greatest,
  number_rank,
  rank_of,
};

use crate::integers::rank_of_primitive;
use crate::{ArgType, Lineage};
use ang_kinds::{Pass, Prim};

/// The rank of the implicit conversion from one type to another, or `None` where there is none.
///
/// 0 is the same type; 1 an object to a handle, a handle to an object parameter, `const` added, or null to a
/// handle; 2 an integer to a wider one of equal signedness, or an enumeration to `int`; 3 any other integer, or
/// an enumeration, to an integer; 4 a derived class to a base class or an interface. Of several that apply the
/// greatest counts. `const` is never lost, `bool` converts to itself alone, and to an enumeration nothing but it
/// does. Nothing stands above a number that the lineage doesn't have. It takes
/// no memory.
pub fn rank(lineage: &Lineage, from: ArgType, to: ArgType) -> Option<u8>
    ensures exact { result ≡ rank_of lineage.now from to }
{
    match (from, to) {
        (ArgType::Void, ArgType::Void) | (ArgType::Null, ArgType::Null) => Some(0),
        (ArgType::Null, ArgType::Handle { .. }) => Some(1),
        (ArgType::Plain(p), ArgType::Plain(q)) => rank_of_primitive(p, q),
        (ArgType::Enumeration { .. }, ArgType::Plain(q)) => rank_of_number(q),
        (ArgType::Enumeration { number: n }, ArgType::Enumeration { number: m }) => {
            rank_of_enumeration(n, m)
        }
        (
            ArgType::Object {
                number: n,
                read_only: r,
            },
            ArgType::Object {
                number: m,
                read_only: s,
            },
        )
        | (
            ArgType::Handle {
                number: n,
                read_only: r,
            },
            ArgType::Handle {
                number: m,
                read_only: s,
            },
        ) => greatest_of(0, rank_of_const(r, s), lineage.class_rank(n, m)),
        (
            ArgType::Object {
                number: n,
                read_only: r,
            },
            ArgType::Handle {
                number: m,
                read_only: s,
            },
        )
        | (
            ArgType::Handle {
                number: n,
                read_only: r,
            },
            ArgType::Object {
                number: m,
                read_only: s,
            },
        ) => greatest_of(1, rank_of_const(r, s), lineage.class_rank(n, m)),
        _ => None,
    }
}

fn rank_of_number(to: Prim) -> Option<u8>
    ensures exact { result ≡ number_rank to }
{
    match to {
        Prim::I32 => Some(2),
        Prim::Bool => None,
        _ => Some(3),
    }
}

fn rank_of_enumeration(from: u32, to: u32) -> Option<u8>
    ensures exact { result ≡ (if from == to then Some 0 else None) }
{
    if from == to {
        return Some(0);
    }
    None
}

pub(crate) fn rank_of_const(from: bool, to: bool) -> Option<u8>
    ensures exact { result ≡ const_rank from to }
{
    match (from, to) {
        (false, true) => Some(1),
        (true, false) => None,
        _ => Some(0),
    }
}

pub(crate) fn greatest_of(form: u8, constness: Option<u8>, class: Option<u8>) -> Option<u8>
    ensures exact { result ≡ greatest form constness class }
{
    Some(form.max(constness?.max(class?)))
}

/// The rank of an argument for a parameter of this type and passing: from the argument to the parameter, and for `&out` from
/// the parameter to the variable. `None` where it does not convert. It takes no memory.
pub fn rank_of_argument(
    lineage: &Lineage,
    param: ArgType,
    pass: Pass,
    argument: ArgType,
) -> Option<u8>
    ensures exact { result ≡ argument_rank lineage.now param pass argument }
{
    match pass {
        Pass::Value | Pass::RefIn | Pass::RefInOut => rank(lineage, argument, param),
        Pass::RefOut => rank(lineage, param, argument),
    }
}
