//! Which of several candidates a call means.
ghost use Rattle.std.specs.Prelude.{◌≡◌, ◌↔◌, ◌<◌, ◌+◌, ℕ, IsTrue, length};
ghost use Rattle.ang_types.specs.Overloads.{
  IsBest,
  IsBetter,
  IsLess,
  IsViable,
  IsViableAt,
  Leads,
  params_at,
  rank_at,
};
ghost use Rattle.ang_types.specs.Best.{best_of};

use crate::ranks::rank_of_argument;
use crate::{ArgType, Candidate, Lineage, Pick};
use ang_kinds::Pass;

/// Which of the candidates a call with these arguments means.
///
/// Viable are the candidates with a parameter for each argument, where each argument has a rank for its
/// parameter: from the argument to the parameter, and for `&out` from the parameter to the variable. The best
/// is the viable one such that for each other viable one no argument's rank is greater and one is less. There
/// is at most one. Nothing stands above a number that the lineage doesn't have. It takes no memory.
pub fn resolve(lineage: &Lineage, candidates: &[Candidate], args: &[ArgType]) -> Pick
    ensures one { (i : ℕ) → (result ≡ Pick.One i) ↔ IsBest lineage.now candidates.now args.now i }
    ensures no_viable { (result ≡ Pick.NoViable) ↔
        ((i : ℕ) → ¬ IsViableAt lineage.now candidates.now args.now i) }
    ensures ambiguous { (result ≡ Pick.Ambiguous) ↔
        (((i : ℕ) × IsViableAt lineage.now candidates.now args.now i)
        × ((i : ℕ) → ¬ IsBest lineage.now candidates.now args.now i)) }
    ensures exact { result ≡ best_of lineage.now candidates.now args.now }
{
    match leader(lineage, candidates, args) {
        None => Pick::NoViable,
        Some(i) if beats_others(lineage, candidates, args, i) => Pick::One(i),
        Some(_) => Pick::Ambiguous,
    }
}

/// The candidate that no later one was better than: the best, if there is one.
fn leader(lineage: &Lineage, candidates: &[Candidate], args: &[ArgType]) -> Option<usize>
    ensures leads { Leads lineage.now candidates.now args.now (length candidates.now) result }
{
    let mut leader = None;
    for i in 0..candidates.len() {
        leader = next_leader(lineage, candidates, args, leader, i);
    }
    leader
}

fn next_leader(
    lineage: &Lineage,
    candidates: &[Candidate],
    args: &[ArgType],
    leader: Option<usize>,
    i: usize,
) -> Option<usize>
    requires there { i < length candidates.now }
    requires led { Leads lineage.now candidates.now args.now i leader }
    ensures leads { Leads lineage.now candidates.now args.now (i + 1) result }
{
    let challenger = params_of(candidates, i);
    match leader {
        None if is_viable(lineage, challenger, args) => Some(i),
        Some(best) if outdoes(lineage, challenger, params_of(candidates, best), args) => Some(i),
        _ => leader,
    }
}

/// Whether a viable candidate is better than each other viable one.
fn beats_others(lineage: &Lineage, candidates: &[Candidate], args: &[ArgType], i: usize) -> bool
    requires viable { IsViableAt lineage.now candidates.now args.now i }
    ensures exact { IsTrue result ↔ IsBest lineage.now candidates.now args.now i }
{
    let winner = params_of(candidates, i);
    for j in 0..candidates.len() {
        if j != i && !gives_way(lineage, params_of(candidates, j), winner, args) {
            return false;
        }
    }
    true
}

fn params_of(candidates: &[Candidate], i: usize) -> &[(ArgType, Pass)]
    requires there { i < length candidates.now }
    ensures exact { result.now ≡ params_at candidates.now i }
{
    candidates[i].params.as_slice()
}

fn is_viable(lineage: &Lineage, params: &[(ArgType, Pass)], args: &[ArgType]) -> bool
    ensures exact { IsTrue result ↔ IsViable lineage.now params.now args.now }
{
    if params.len() != args.len() {
        return false;
    }
    for k in 0..args.len() {
        if rank_of_place(lineage, params, args, k).is_none() {
            return false;
        }
    }
    true
}

/// Whether a candidate is viable and better than another one, told place by place up to the first that says no.
fn outdoes(
    lineage: &Lineage,
    params: &[(ArgType, Pass)],
    others: &[(ArgType, Pass)],
    args: &[ArgType],
) -> bool
    ensures exact { IsTrue result ↔ (IsViable lineage.now params.now args.now
        × IsBetter lineage.now params.now others.now args.now) }
{
    if params.len() != args.len() {
        return false;
    }
    let mut is_ahead = false;
    for k in 0..args.len() {
        let rank = rank_of_place(lineage, params, args, k);
        if rank.is_none() {
            return false;
        }
        let other = rank_of_place(lineage, others, args, k);
        if is_less(other, rank) {
            return false;
        }
        is_ahead |= is_less(rank, other);
    }
    is_ahead
}

/// Whether a candidate is not viable, or another one is better, told place by place up to the first where it has no rank.
fn gives_way(
    lineage: &Lineage,
    params: &[(ArgType, Pass)],
    others: &[(ArgType, Pass)],
    args: &[ArgType],
) -> bool
    ensures exact { IsTrue result ↔ (IsViable lineage.now params.now args.now
        → IsBetter lineage.now others.now params.now args.now) }
{
    if params.len() != args.len() {
        return true;
    }
    let mut is_ahead = false;
    let mut is_behind = false;
    for k in 0..args.len() {
        let rank = rank_of_place(lineage, params, args, k);
        if rank.is_none() {
            return true;
        }
        let other = rank_of_place(lineage, others, args, k);
        is_ahead |= is_less(rank, other);
        is_behind |= is_less(other, rank);
    }
    is_behind && !is_ahead
}

fn is_less(rank: Option<u8>, other: Option<u8>) -> bool
    ensures exact { IsTrue result ↔ IsLess rank other }
{
    match (rank, other) {
        (Some(q), Some(r)) => q < r,
        _ => false,
    }
}

/// The rank of the argument at a place for the parameter there.
fn rank_of_place(
    lineage: &Lineage,
    params: &[(ArgType, Pass)],
    args: &[ArgType],
    k: usize,
) -> Option<u8>
    ensures exact { result ≡ rank_at lineage.now params.now args.now k }
{
    match (params.get(k), args.get(k)) {
        (Some(param), Some(argument)) => rank_of_argument(lineage, param.0, param.1, *argument),
        _ => None,
    }
}
