//! The ranks of one argument for many kinds of parameters. What stands above its type is looked up once.
ghost use Rattle.std.specs.Prelude.{◌≡◌, ◌++◌, IfSome, OnOk, ℕ};
ghost use Rattle.ang_types.specs.declared.arg_type.ArgType.TheVariants.{Handle, Object};
ghost use Rattle.ang_types.specs.Marks.{has, is_marked};
ghost use Rattle.ang_types.specs.Ranks.{types_above};
ghost use Rattle.ang_types.specs.Rows as spec;

use crate::marks::Marks;
use crate::ranks::{greatest_of, rank, rank_of_argument, rank_of_const};
use crate::{ArgType, Lineage};
use ang_kinds::Pass;
use std::alloc::AllocError;

/// Whether a list has a number, of which these are the marks, where there are any.
#[inline(always)]
fn is_among(types: &[u32], marks: Option<&Marks>, number: u32) -> bool
    requires marks { IfSome marks
        (λ m. (n : ℕ) → is_marked m.now n ≡ has types.now n) }
    ensures exact { result ≡ has types.now number }
{
    match marks {
        Some(marks) => marks.has(number),
        None => types.contains(&number),
    }
}

/// The rank of a conversion from objects of a type, above which these stand, to those of another.
#[inline(always)]
fn class_rank_in(types: &[u32], marks: Option<&Marks>, from: u32, to: u32) -> Option<u8>
    requires marks { IfSome marks
        (λ m. (n : ℕ) → is_marked m.now n ≡ has types.now n) }
    ensures exact { result ≡ spec.class_rank_in types.now from to }
{
    if from == to {
        Some(0)
    } else if is_among(types, marks, to) {
        Some(4)
    } else {
        None
    }
}

/// The rank of an object for a parameter of a kind. The types are those above its own.
#[inline(always)]
fn rank_of_object(
    lineage: &Lineage,
    types: &[u32],
    marks: Option<&Marks>,
    number: u32,
    read_only: bool,
    kind: &(ArgType, Pass),
) -> Option<u8>
    requires types { types.now ≡ types_above lineage.now number }
    requires marks { IfSome marks
        (λ m. (n : ℕ) → is_marked m.now n ≡ has types.now n) }
    ensures exact { result ≡ spec.kind_rank lineage.now (Object number read_only) kind.now }
{
    match kind.1 {
        Pass::RefOut => rank(lineage, kind.0, ArgType::Object { number, read_only }),
        Pass::Value | Pass::RefIn | Pass::RefInOut => match kind.0 {
            ArgType::Object {
                number: to,
                read_only: constant,
            } => greatest_of(
                0,
                rank_of_const(read_only, constant),
                class_rank_in(types, marks, number, to),
            ),
            ArgType::Handle {
                number: to,
                read_only: constant,
            } => greatest_of(
                1,
                rank_of_const(read_only, constant),
                class_rank_in(types, marks, number, to),
            ),
            ArgType::Void | ArgType::Null | ArgType::Plain(_) | ArgType::Enumeration { .. } => None,
        },
    }
}

/// Puts the ranks of an object for these kinds at the end.
fn push_object_ranks(
    lineage: &Lineage,
    kinds: &[(ArgType, Pass)],
    number: u32,
    read_only: bool,
    row: &mut Vec<Option<u8>>,
) -> Result<(), AllocError>
    ensures pushed { OnOk result (row.new.items ≡ row.old.items
        ++ spec.ranks_for lineage.now (Object number read_only) kinds.now) }
{
    let types = lineage.types_above(number);
    let marks = lineage.marks(number);
    for kind in kinds {
        row.push(rank_of_object(lineage, types, marks, number, read_only, kind))?;
    }
    Ok(())
}

/// The rank of a handle for a parameter of a kind. The types are those above its own.
#[inline(always)]
fn rank_of_handle(
    lineage: &Lineage,
    types: &[u32],
    marks: Option<&Marks>,
    number: u32,
    read_only: bool,
    kind: &(ArgType, Pass),
) -> Option<u8>
    requires types { types.now ≡ types_above lineage.now number }
    requires marks { IfSome marks
        (λ m. (n : ℕ) → is_marked m.now n ≡ has types.now n) }
    ensures exact { result ≡ spec.kind_rank lineage.now (Handle number read_only) kind.now }
{
    match kind.1 {
        Pass::RefOut => rank(lineage, kind.0, ArgType::Handle { number, read_only }),
        Pass::Value | Pass::RefIn | Pass::RefInOut => match kind.0 {
            ArgType::Object {
                number: to,
                read_only: constant,
            } => greatest_of(
                1,
                rank_of_const(read_only, constant),
                class_rank_in(types, marks, number, to),
            ),
            ArgType::Handle {
                number: to,
                read_only: constant,
            } => greatest_of(
                0,
                rank_of_const(read_only, constant),
                class_rank_in(types, marks, number, to),
            ),
            ArgType::Void | ArgType::Null | ArgType::Plain(_) | ArgType::Enumeration { .. } => None,
        },
    }
}

/// Puts the ranks of a handle for these kinds at the end.
fn push_handle_ranks(
    lineage: &Lineage,
    kinds: &[(ArgType, Pass)],
    number: u32,
    read_only: bool,
    row: &mut Vec<Option<u8>>,
) -> Result<(), AllocError>
    ensures pushed { OnOk result (row.new.items ≡ row.old.items
        ++ spec.ranks_for lineage.now (Handle number read_only) kinds.now) }
{
    let types = lineage.types_above(number);
    let marks = lineage.marks(number);
    for kind in kinds {
        row.push(rank_of_handle(lineage, types, marks, number, read_only, kind))?;
    }
    Ok(())
}

/// Puts the ranks of an argument that is no object for these kinds at the end.
fn push_other_ranks(
    lineage: &Lineage,
    kinds: &[(ArgType, Pass)],
    argument: ArgType,
    row: &mut Vec<Option<u8>>,
) -> Result<(), AllocError>
    ensures pushed { OnOk result
        (row.new.items ≡ row.old.items ++ spec.ranks_for lineage.now argument kinds.now) }
{
    for kind in kinds {
        row.push(rank_of_argument(lineage, kind.0, kind.1, argument))?;
    }
    Ok(())
}

/// Puts the ranks of an argument for parameters of these kinds at the end, each as `rank_of_argument` has it.
///
/// The only error is want of memory.
pub fn push_ranks(
    lineage: &Lineage,
    kinds: &[(ArgType, Pass)],
    argument: ArgType,
    row: &mut Vec<Option<u8>>,
) -> Result<(), AllocError>
    ensures pushed { OnOk result
        (row.new.items ≡ row.old.items ++ spec.ranks_for lineage.now argument kinds.now) }
{
    match argument {
        ArgType::Object { number, read_only } => {
            push_object_ranks(lineage, kinds, number, read_only, row)
        }
        ArgType::Handle { number, read_only } => {
            push_handle_ranks(lineage, kinds, number, read_only, row)
        }
        ArgType::Void | ArgType::Null | ArgType::Plain(_) | ArgType::Enumeration { .. } => {
            push_other_ranks(lineage, kinds, argument, row)
        }
    }
}
