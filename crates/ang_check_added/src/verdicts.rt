//! Verdicts on all kinds of parameters, for each argument of a use, beside the rivals of a candidate that is added.
ghost use Rattle.std.specs.Prelude.{◌≡◌, ◌==◌, ◌||◌, List, drop, length, IfOk};
ghost use Rattle.ang_types.specs.declared.arg_type.ArgType.{ArgType};
ghost use Rattle.ang_types.specs.declared.candidate.Candidate.{Candidate};
ghost use Rattle.ang_types.specs.Ranks.{Ancestors};
ghost use Rattle.ang_types.specs.Rivals.{AreRivals, least_at};
ghost use Rattle.ang_names_known.specs.Kinds.{Kind};
ghost use Rattle.ang_check_contest.specs.Told as told;
ghost use Rattle.ang_check_added.specs.Verdicts as spec;

use ang_check_contest::Rivalry;
use std::alloc::{AllocError, Global};

/// The rank is the least one, or there is no least one.
const LEVEL: u8 = 0;
/// The rank is below the least one.
pub(crate) const BELOW: u8 = 1;
/// The rank is above the least one, or there is none.
pub(crate) const LOST: u8 = 2;

/// The verdicts on all kinds of parameters, for each argument of a use.
#[derive(Drop)]
pub struct Verdicts {
    /// For each argument the verdict on each kind, by its number.
    pub rows: Vec<Vec<u8>>,
    /// Whether a candidate wins that is level with the least ranks.
    pub ahead: bool,
}

fn verdict_of(rank: Option<u8>, least: Option<u8>) -> u8
    ensures exact { result ≡ spec.verdict_of rank least }
{
    let Some(rank) = rank else {
        return LOST;
    };
    let Some(least) = least else {
        return LEVEL;
    };
    if least < rank {
        return LOST;
    }
    if rank < least {
        return BELOW;
    }
    LEVEL
}

/// The verdicts on the ranks of one argument.
///
/// The only error is want of memory.
fn verdicts_of(
    alloc: Global,
    ranks: &[Option<u8>],
    least: Option<u8>,
) -> Result<Vec<u8>, AllocError>
    ensures exact { IfOk result (λ verdicts. verdicts.items ≡ spec.verdicts_of ranks.now least) }
{
    let mut verdicts = Vec::with_capacity(alloc, ranks.len())?;
    for rank in ranks {
        verdicts.push(verdict_of(*rank, least))?;
    }
    Ok(verdicts)
}

/// The first of the least ranks, and those after it.
fn first_and_rest(least: &[Option<u8>]) -> (Option<u8>, &[Option<u8>])
    ensures first { result.0 ≡ least_at least.now 0 }
    ensures rest { result.1.now ≡ drop 1 least.now }
{
    match least.split_first() {
        None => (None, least),
        Some((first, rest)) => (*first, rest),
    }
}

/// The verdicts on the ranks of all arguments, a row for each.
///
/// The only error is want of memory.
fn verdicts_beside(
    alloc: Global,
    rows: &[Vec<Option<u8>>],
    least: &[Option<u8>],
) -> Result<Vec<Vec<u8>>, AllocError>
    ensures exact { IfOk result (λ verdicts. spec.verdicts_in verdicts.items
        ≡ spec.verdicts_beside (told.rows_of rows.now) least.now) }
{
    let mut all = Vec::with_capacity(alloc, rows.len())?;
    let mut others = least;
    for row in rows {
        let (first, rest) = first_and_rest(others);
        let verdicts = verdicts_of(alloc, row.as_slice(), first)?;
        all.push(verdicts)?;
        others = rest;
    }
    Ok(all)
}

/// The verdict on a kind, by its number as a place.
#[inline(always)]
pub(crate) fn verdict_of_kind(verdicts: &[u8], kind: usize) -> u8
    ensures exact { result ≡ spec.verdict_at verdicts.now kind }
{
    match verdicts.get(kind) {
        None => LOST,
        Some(verdict) => *verdict,
    }
}

/// The verdict on the kind of a number.
#[inline(always)]
fn verdict_at(verdicts: &[u8], number: u32) -> u8
    ensures exact { result ≡ spec.verdict_at verdicts.now number }
{
    verdict_of_kind(verdicts, number as usize)
}

#[inline(always)]
fn is_lost(verdict: u8) -> bool
    ensures exact { result ≡ (verdict == 2) }
{
    verdict == LOST
}

/// Whether a candidate is ahead by the verdict on one argument more.
#[inline(always)]
fn gets_ahead(is_ahead: bool, verdict: u8) -> bool
    ensures exact { result ≡ (is_ahead || (verdict == 1)) }
{
    is_ahead || verdict == BELOW
}

/// Whether parameters of the kinds of these numbers, of which there is one for each argument, are lost by none of them, and
/// ahead by some, or without that.
#[inline(always)]
fn wins_by_places(rows: &[Vec<u8>], numbers: &[u32], is_ahead: bool) -> bool
    requires same { length numbers.now ≡ length rows.now }
    ensures exact { result ≡ spec.wins_by (spec.verdicts_in rows.now) numbers.now is_ahead }
{
    let mut ahead = is_ahead;
    for place in 0..rows.len() {
        let verdict = verdict_at(rows[place].as_slice(), numbers[place]);
        if is_lost(verdict) {
            return false;
        }
        ahead = gets_ahead(ahead, verdict);
    }
    ahead
}

/// The same of any numbers: they take all arguments only where there is one for each.
#[inline(always)]
#[tactic(auto, using(crate::proofs::Judging::other_number))]
fn wins_by_rows(rows: &[Vec<u8>], numbers: &[u32], is_ahead: bool) -> bool
    ensures exact { result ≡ spec.wins_by (spec.verdicts_in rows.now) numbers.now is_ahead }
{
    if numbers.len() != rows.len() {
        return false;
    }
    wins_by_places(rows, numbers, is_ahead)
}

impl Verdicts {
    /// The verdicts on the kinds of which `rows` has the ranks, a row for each argument, beside these rivals. They judge each
    /// candidate by the numbers of its parameters' kinds.
    ///
    /// The only error is want of memory.
    pub fn of(
        alloc: Global,
        rows: &[Vec<Option<u8>>],
        rivals: &Rivalry,
    ) -> Result<Verdicts, AllocError>
        ensures judge { IfOk result (λ v. (ancestors : Ancestors) (kinds : List Kind)
            (candidates : List Candidate) (args : List ArgType) →
            told.rows_of rows.now ≡ told.told_ranks ancestors kinds args →
            AreRivals (rivals.now.least.items, rivals.now.tied) ancestors candidates args →
            spec.Judge ancestors kinds candidates args (spec.verdicts_in v.rows.items) v.ahead) }
    {
        let verdicts = verdicts_beside(alloc, rows, rivals.least.as_slice())?;
        Ok(Verdicts {
            rows: verdicts,
            ahead: !rivals.tied,
        })
    }

    /// Whether a candidate with parameters of the kinds of these numbers is the best of all. It takes no memory.
    #[inline(always)]
    pub fn wins(&self, numbers: &[u32]) -> bool
        ensures exact { result
            ≡ spec.wins_by (spec.verdicts_in self.now.rows.items) numbers.now self.now.ahead }
    {
        wins_by_rows(self.rows.as_slice(), numbers, self.ahead)
    }
}
