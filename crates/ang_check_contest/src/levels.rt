//! How the ranks of arguments stand beside the least ones, for all kinds of parameters. They are found out each time that a
//! least rank changes, so that the look at a candidate takes the greatest of a few numbers.
ghost use Rattle.std.specs.Prelude.{◌≡◌, IfOk, drop, length, slice_get};
ghost use Rattle.ang_check_contest.specs.Levels as spec;
ghost use Rattle.ang_check_contest.specs.Told as told;

use std::alloc::{AllocError, Global};

/// The rank is the least one.
pub const LEAST: u32 = 0;
/// It is higher.
pub const HIGHER: u32 = 1;
/// It is lower, or there is no least one.
pub const LOWER: u32 = 2;
/// There is no rank.
pub const NONE: u32 = 3;

fn level_of(rank: Option<u8>, least: Option<u8>) -> u32
    ensures exact { result ≡ spec.level_of rank least }
{
    let Some(rank) = rank else {
        return NONE;
    };
    let Some(least) = least else {
        return LOWER;
    };
    if rank < least {
        return LOWER;
    }
    if least < rank {
        return HIGHER;
    }
    LEAST
}

/// The levels of the ranks of one argument.
///
/// The only error is want of memory.
fn levels_of(alloc: Global, ranks: &[Option<u8>], least: Option<u8>) -> Result<Vec<u32>, AllocError>
    ensures exact { IfOk result (λ levels. levels.items ≡ spec.levels_of ranks.now least) }
{
    let mut levels = Vec::with_capacity(alloc, ranks.len())?;
    for rank in ranks {
        levels.push(level_of(*rank, least))?;
    }
    Ok(levels)
}

/// The first of some ranks, if there is one, and those after it.
fn first_and_rest(ranks: &[u8]) -> (Option<u8>, &[u8])
    ensures first { result.0 ≡ slice_get ranks.now 0 }
    ensures rest { result.1.now ≡ drop 1 ranks.now }
{
    match ranks.split_first() {
        None => (None, ranks),
        Some((first, rest)) => (Some(*first), rest),
    }
}

/// The levels of the ranks of all arguments, a row for each.
///
/// The only error is want of memory.
pub fn levels_beside(
    alloc: Global,
    rows: &[Vec<Option<u8>>],
    least: &[u8],
) -> Result<Vec<Vec<u32>>, AllocError>
    ensures exact { IfOk result (λ levels. spec.levels_in levels.items
        ≡ spec.levels_beside (told.rows_of rows.now) least.now) }
{
    let mut all = Vec::with_capacity(alloc, rows.len())?;
    let mut others = least;
    for row in rows {
        let (first, rest) = first_and_rest(others);
        let levels = levels_of(alloc, row.as_slice(), first)?;
        all.push(levels)?;
        others = rest;
    }
    Ok(all)
}

/// The level for the kind of a number.
#[inline(always)]
fn level_at(levels: &[u32], number: u32) -> Option<u32>
    ensures exact { result ≡ slice_get levels.now number }
{
    levels.get(number as usize).copied()
}

/// The greatest of the levels for the kinds of these numbers, each in the row of its argument, if there is one for each.
#[inline(always)]
pub fn worst_level(levels: &[Vec<u32>], numbers: &[u32]) -> Option<u32>
    requires same { length numbers.now ≡ length levels.now }
    ensures exact { result ≡ spec.worst (spec.levels_in levels.now) numbers.now }
{
    let mut worst = LEAST;
    for place in 0..levels.len() {
        let level = level_at(levels[place].as_slice(), numbers[place])?;
        worst = worst.max(level);
    }
    Some(worst)
}
