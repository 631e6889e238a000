//! The ranks of the arguments of one call for all kinds of parameters, which are found out once.
ghost use Rattle.std.specs.Prelude.{◌≡◌, IfOk, Some, length, map as list_map};
ghost use Rattle.ang_types.specs.Overloads.{Params};
ghost use Rattle.ang_names_known.specs.Kinds.{kinds_at, numbered};
ghost use Rattle.ang_check_contest.specs.Contest as contests;
ghost use Rattle.ang_check_contest.specs.Scores.{in_front, ranks_if};
ghost use Rattle.ang_check_contest.specs.Told as spec;

use ang_kinds::Pass;
use ang_types::{ArgType, Lineage, push_ranks, rank_of_argument};
use std::alloc::{AllocError, Global};
use std::marker::Model;

/// How many candidates are few: each is ranked by itself.
const FEW: usize = 16;

/// Whether it is worth to find out the ranks for so many kinds at once, where a call has so many candidates.
pub fn is_worth_telling(candidates: usize, kinds: usize) -> bool {
    candidates >= FEW && kinds <= candidates
}

/// For each argument of a call its rank for each kind of parameter. Contracts see of what these are the ranks.
#[derive(Drop)]
pub struct ToldRanks<'a> {
    lineage: &'a Lineage,
    receiver: u32,
    kinds: &'a [(ArgType, Pass)],
    args: &'a [ArgType],
    rows: Vec<Vec<Option<u8>>>,
}

impl<'a> Model for ToldRanks<'a> {
    ghost use Rattle.std.specs.Prelude.{◌≡◌};
    ghost use Rattle.ang_names_known.specs.Kinds.{numbered};
    ghost use Rattle.ang_check_contest.specs.Told as spec;

    ghost Value = { spec.Telling };

    ghost view = { λ t. record {
      ancestors = t.lineage.now;
      kinds = numbered t.receiver t.kinds.now;
      args = t.args.now;
    } };

    ghost invariant = { λ t. spec.rows_of t.rows.items
        ≡ spec.told_ranks t.lineage.now (numbered t.receiver t.kinds.now) t.args.now };
}

/// The ranks of an argument for all kinds.
///
/// The only error is want of memory.
fn ranks_of_argument(
    alloc: Global,
    lineage: &Lineage,
    receiver: u32,
    kinds: &[(ArgType, Pass)],
    argument: ArgType,
) -> Result<Vec<Option<u8>>, AllocError>
    ensures exact { IfOk result (λ row. row.items
        ≡ spec.told_row lineage.now (numbered receiver kinds.now) argument) }
{
    let changed = ArgType::Object {
        number: receiver,
        read_only: false,
    };
    let read_only = ArgType::Object {
        number: receiver,
        read_only: true,
    };
    let mut row = Vec::with_capacity(alloc, kinds.len().saturating_add(2))?;
    row.push(rank_of_argument(lineage, changed, Pass::RefInOut, argument))?;
    row.push(rank_of_argument(lineage, read_only, Pass::RefInOut, argument))?;
    push_ranks(lineage, kinds, argument, &mut row)?;
    Ok(row)
}

/// The ranks of arguments for all kinds of parameters, a row for each argument. In front of the kinds stand those of a receiver
/// of the type of this number, one that may be changed and one that is read only.
///
/// The only error is want of memory.
fn ranks_of_arguments(
    alloc: Global,
    lineage: &Lineage,
    receiver: u32,
    kinds: &[(ArgType, Pass)],
    args: &[ArgType],
) -> Result<Vec<Vec<Option<u8>>>, AllocError>
    ensures exact { IfOk result (λ rows. spec.rows_of rows.items
        ≡ spec.told_ranks lineage.now (numbered receiver kinds.now) args.now) }
{
    let mut rows = Vec::with_capacity(alloc, args.len())?;
    for argument in args {
        let row = ranks_of_argument(alloc, lineage, receiver, kinds, *argument)?;
        rows.push(row)?;
    }
    Ok(rows)
}

/// The ranks of arguments for these kinds, where it is worth to find them out for so many candidates. In front stand those of
/// receivers of type 0.
///
/// The only error is want of memory.
pub fn table_for(
    alloc: Global,
    lineage: &Lineage,
    kinds: &[(ArgType, Pass)],
    args: &[ArgType],
    candidates: usize,
) -> Result<Option<Vec<Vec<Option<u8>>>>, AllocError>
    ensures table { IfOk result (λ table. spec.IsTable lineage.now (numbered 0 kinds.now) args.now
        (spec.table_of table)) }
{
    if !is_worth_telling(candidates, kinds.len()) {
        return Ok(None);
    }
    let rows = ranks_of_arguments(alloc, lineage, 0, kinds, args)?;
    Ok(Some(rows))
}

/// The rank of an argument for the kind of a number.
#[inline(always)]
pub(crate) fn rank_at(row: &[Option<u8>], number: u32) -> Option<u8>
    ensures exact { result ≡ spec.rank_in row.now number }
{
    match row.get(number as usize) {
        None => None,
        Some(rank) => *rank,
    }
}

/// Puts the ranks of the arguments for the kinds of these numbers at the end, up to the first that has none; whether each
/// has one.
///
/// The only error is want of memory.
#[tactic(auto, using(crate::proofs::RankLaws::one_more_rank))]
fn rank_told(
    rows: &[Vec<Option<u8>>],
    numbers: &[u32],
    ranks: &mut Vec<u8>,
) -> Result<bool, AllocError>
    ensures ranked { IfOk result (λ all. ranks_if all ranks.new.items ≡ in_front ranks.old.items
        (spec.ranks_at (spec.rows_of rows.now) numbers.now)) }
{
    let mut rest = numbers;
    for row in rows {
        let Some((number, others)) = rest.split_first() else {
            return Ok(false);
        };
        let Some(rank) = rank_at(row.as_slice(), *number) else {
            return Ok(false);
        };
        ranks.push(rank)?;
        rest = others;
    }
    match rest {
        [] => Ok(true),
        _ => Ok(false),
    }
}

impl<'a> ToldRanks<'a> {
    /// The ranks of these arguments for these kinds, in front of which stand those of a receiver of the type of this number,
    /// one that may be changed and one that is read only.
    ///
    /// The only error is want of memory.
    pub fn new(
        alloc: Global,
        lineage: &'a Lineage,
        receiver: u32,
        kinds: &'a [(ArgType, Pass)],
        args: &'a [ArgType],
    ) -> Result<ToldRanks<'a>, AllocError>
        ensures ancestors { IfOk result (λ told. told.ancestors ≡ lineage.now) }
        ensures kinds { IfOk result (λ told. told.kinds ≡ numbered receiver kinds.now) }
        ensures args { IfOk result (λ told. told.args ≡ args.now) }
    {
        let rows = ranks_of_arguments(alloc, lineage, receiver, kinds, args)?;
        Ok(ToldRanks {
            lineage,
            receiver,
            kinds,
            args,
            rows,
        })
    }

    /// Puts the ranks for parameters of these kinds at the end, up to the first argument that has none; whether each has one.
    ///
    /// The only error is want of memory.
    pub(crate) fn rank(&self, numbers: &[u32], ranks: &mut Vec<u8>) -> Result<bool, AllocError>
        ensures ranked { IfOk result (λ all. (params : Params) →
            kinds_at self.now.kinds numbers.now ≡ list_map Some params →
            ranks_if all ranks.new.items ≡ in_front ranks.old.items
            (contests.ranks_of self.now.ancestors params self.now.args)) }
    {
        let all = rank_told(self.rows(), numbers, ranks)?;
        Ok(all)
    }

    /// The ranks themselves, a row for each argument.
    pub(crate) fn rows(&self) -> &[Vec<Option<u8>>]
        ensures exact { spec.rows_of result.now
            ≡ spec.told_ranks self.now.ancestors self.now.kinds self.now.args }
    {
        self.rows.as_slice()
    }

    /// How many arguments there are.
    pub(crate) fn arguments(&self) -> usize
        ensures exact { result ≡ length self.now.args }
    {
        self.args.len()
    }
}
