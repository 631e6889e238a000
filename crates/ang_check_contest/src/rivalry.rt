//! What is kept of the candidates of a use, beside which one more is told to be the best of all.
ghost use Rattle.std.specs.Prelude.{◌≡◌, ◌∷◌, ◌||◌, ℕ, List, Some, None, drop, length, map as list_map, option_map, IfOk};
ghost use Rattle.ang_types.specs.declared.arg_type.ArgType.{ArgType};
ghost use Rattle.ang_types.specs.declared.candidate.Candidate.{Candidate};
ghost use Rattle.ang_types.specs.Best as best;
ghost use Rattle.ang_types.specs.Ranks.{Ancestors};
ghost use Rattle.ang_types.specs.Rivals.{AreRivals, least_at};
ghost use Rattle.ang_check_contest.specs.Contest.{IsContest, ranks_of};
ghost use Rattle.ang_check_contest.specs.Told as told;
ghost use Rattle.ang_check_contest.specs.Winning as spec;

use crate::contest::Contest;
use crate::told::rank_at;
use ang_kinds::Pass;
use ang_types::{ArgType, Lineage, rank_of_argument};
use std::alloc::{AllocError, Global};

/// What is kept of the candidates of a use.
#[derive(Drop)]
pub struct Rivalry {
    /// The least rank of each argument among the viable ones.
    pub least: Vec<Option<u8>>,
    /// Whether a viable one has all of these.
    pub tied: bool,
}

/// No rank yet, for `n` arguments.
fn nothing(alloc: Global, n: usize) -> Result<Vec<Option<u8>>, AllocError>
    ensures size { IfOk result (λ v. length v.items ≡ n) }
    ensures none { IfOk result (λ v. (k : ℕ) → least_at v.items k ≡ None) }
{
    let mut least = Vec::with_capacity(alloc, n)?;
    for _i in 0..n {
        least.push(None)?;
    }
    Ok(least)
}

/// These ranks.
fn each_known(alloc: Global, ranks: &[u8]) -> Result<Vec<Option<u8>>, AllocError>
    ensures exact { IfOk result (λ v. v.items ≡ list_map Some ranks.now) }
{
    let mut known = Vec::with_capacity(alloc, ranks.len())?;
    for rank in ranks {
        known.push(Some(*rank))?;
    }
    Ok(known)
}

#[inline(always)]
fn is_less(rank: Option<u8>, other: Option<u8>) -> bool
    ensures exact { result ≡ best.is_less rank other }
{
    match (rank, other) {
        (Some(q), Some(r)) => q < r,
        (Some(_), None) => false,
        (None, Some(_)) => false,
        (None, None) => false,
    }
}

/// Whether a candidate is ahead by the rank of one argument more.
#[inline(always)]
fn gets_ahead(is_ahead: bool, rank: u8, least: Option<u8>) -> bool
    ensures exact { result ≡ (is_ahead || best.is_less (Some rank) least) }
{
    is_ahead || is_less(Some(rank), least)
}

/// The first of the least ranks, and those after it.
#[inline(always)]
fn first_and_rest(least: &[Option<u8>]) -> (Option<u8>, &[Option<u8>])
    ensures first { result.0 ≡ least_at least.now 0 }
    ensures rest { result.1.now ≡ drop 1 least.now }
{
    match least.split_first() {
        None => (None, least),
        Some((first, rest)) => (*first, rest),
    }
}

/// The least rank of the argument at a place.
#[inline(always)]
fn least_of(least: &[Option<u8>], place: usize) -> Option<u8>
    ensures exact { result ≡ least_at least.now place }
{
    match least.get(place) {
        None => None,
        Some(rank) => *rank,
    }
}

/// Whether parameters of the kinds of these numbers, of which there is one for each argument, have ranks none of which is above
/// the least one, and some rank is below it, or they are ahead without that. The ranks are found in a row for each argument.
#[inline(always)]
fn wins_by_places(
    rows: &[Vec<Option<u8>>],
    numbers: &[u32],
    least: &[Option<u8>],
    is_ahead: bool,
) -> bool
    requires same { length numbers.now ≡ length rows.now }
    ensures exact { result ≡ spec.wins_by (told.ranks_at (told.rows_of rows.now) numbers.now)
        least.now is_ahead }
{
    let mut ahead = is_ahead;
    for place in 0..rows.len() {
        let Some(rank) = rank_at(rows[place].as_slice(), numbers[place]) else {
            return false;
        };
        let first = least_of(least, place);
        if is_less(first, Some(rank)) {
            return false;
        }
        ahead = gets_ahead(ahead, rank, first);
    }
    ahead
}

/// The same of any numbers: they take all arguments only where there is one for each.
#[inline(always)]
#[tactic(auto, using(crate::proofs::WinLaws::other_number))]
fn wins_by_rows(
    rows: &[Vec<Option<u8>>],
    numbers: &[u32],
    least: &[Option<u8>],
    is_ahead: bool,
) -> bool
    ensures exact { result ≡ spec.wins_by (told.ranks_at (told.rows_of rows.now) numbers.now)
        least.now is_ahead }
{
    if numbers.len() != rows.len() {
        return false;
    }
    wins_by_places(rows, numbers, least, is_ahead)
}

/// The same of parameters whose ranks are found out here.
#[inline(never)]
#[tactic(auto, using(crate::proofs::WinLaws::one_rank_more))]
fn wins_by_ranks(
    lineage: &Lineage,
    params: &[(ArgType, Pass)],
    args: &[ArgType],
    least: &[Option<u8>],
    is_ahead: bool,
) -> bool
    ensures exact { result
        ≡ spec.wins_by (ranks_of lineage.now params.now args.now) least.now is_ahead }
{
    let mut rest = args;
    let mut others = least;
    let mut ahead = is_ahead;
    for param in params {
        let Some((argument, after)) = rest.split_first() else {
            return false;
        };
        let Some(rank) = rank_of_argument(lineage, param.0, param.1, *argument) else {
            return false;
        };
        let (first, later) = first_and_rest(others);
        if is_less(first, Some(rank)) {
            return false;
        }
        ahead = gets_ahead(ahead, rank, first);
        rest = after;
        others = later;
    }
    match rest {
        [] => ahead,
        _ => false,
    }
}

/// The same where the ranks for all kinds are known, and the numbers of the parameters' kinds.
#[inline(always)]
fn wins_if_told(
    table: &Option<Vec<Vec<Option<u8>>>>,
    numbers: Option<&[u32]>,
    least: &[Option<u8>],
    is_ahead: bool,
) -> Option<bool>
    ensures exact { result ≡ spec.wins_if_told (told.table_of table.now)
        (option_map (λ row. row.now) numbers.entry) least.now is_ahead }
{
    let Some(rows) = table else {
        return None;
    };
    let Some(row) = numbers else {
        return None;
    };
    Some(wins_by_rows(rows.as_slice(), row, least, is_ahead))
}

/// Whether these parameters take all arguments, no rank of which is above the least one, and some rank is below it, or they are
/// ahead without that.
#[inline(always)]
fn wins(
    lineage: &Lineage,
    params: &[(ArgType, Pass)],
    args: &[ArgType],
    table: &Option<Vec<Vec<Option<u8>>>>,
    numbers: Option<&[u32]>,
    least: &[Option<u8>],
    is_ahead: bool,
) -> bool
    requires told { told.TellsRanks lineage.now params.now args.now (told.table_of table.now)
        (option_map (λ row. row.now) numbers) }
    ensures exact { result
        ≡ spec.wins_by (ranks_of lineage.now params.now args.now) least.now is_ahead }
{
    let Some(won) = wins_if_told(table, numbers, least, is_ahead) else {
        return wins_by_ranks(lineage, params, args, least, is_ahead);
    };
    won
}

impl Rivalry {
    /// What is kept of the candidates that a contest has taken in for so many arguments.
    ///
    /// The only error is want of memory.
    pub fn of(alloc: Global, contest: &Contest, arguments: usize) -> Result<Rivalry, AllocError>
        ensures rivals { IfOk result (λ r. (ancestors : Ancestors) (candidates : List Candidate)
            (args : List ArgType) → IsContest ancestors candidates args contest.now →
            length args ≡ arguments →
            AreRivals (r.least.items, r.tied) ancestors candidates args) }
    {
        if contest.is_viable() {
            let least = each_known(alloc, contest.least())?;
            let tied = contest.is_led();
            return Ok(Rivalry { least, tied });
        }
        let none = nothing(alloc, arguments)?;
        Ok(Rivalry {
            least: none,
            tied: false,
        })
    }

    /// Whether a candidate with these parameters, put in front of those that were taken in, is the best of all. The lineage and
    /// the arguments have to be those of the contest. It takes no memory. Where `table` has the ranks for all kinds, they are
    /// looked up by `numbers`, those of the parameters' kinds.
    #[inline(always)]
    pub fn would_win(
        &self,
        lineage: &Lineage,
        params: &[(ArgType, Pass)],
        args: &[ArgType],
        table: &Option<Vec<Vec<Option<u8>>>>,
        numbers: Option<&[u32]>,
    ) -> bool
        requires told { told.TellsRanks lineage.now params.now args.now (told.table_of table.now)
            (option_map (λ row. row.now) numbers) }
        ensures exact { (candidates : List Candidate) →
            AreRivals (self.now.least.items, self.now.tied) lineage.now candidates args.now →
            (c : Candidate) → c.params ≡ params.now →
            result ≡ best.is_best lineage.now (c ∷ candidates) args.now 0 }
    {
        let least = self.least.as_slice();
        wins(lineage, params, args, table, numbers, least, !self.tied)
    }
}
