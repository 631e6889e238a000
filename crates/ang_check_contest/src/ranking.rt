//! The ranks of the arguments for the parameters of one candidate, which are looked at where they lie.
ghost use Rattle.std.specs.Prelude.{◌≡◌, ◌∷◌, IfOk, map as list_map};
ghost use Rattle.ang_kinds.specs.declared.types.Pass.TheVariants.{RefInOut};
ghost use Rattle.ang_check_contest.specs.Host as host;
ghost use Rattle.ang_names_known.specs.Lookup.{parameters_of, type_and_pass};
ghost use Rattle.ang_check_contest.specs.Contest as spec;
ghost use Rattle.ang_check_contest.specs.Scores.{host_method_ranks, host_rank, host_ranks, in_front, ranks_if};

use crate::host::host_type;
use crate::scope::Scope;
use ang_kinds::{Param, Pass};
use ang_names_known::{ScriptFunction, ScriptParameter};
use ang_types::{ArgType, Lineage, rank_of_argument};
use std::alloc::AllocError;

/// Puts the rank of each argument at the end, up to the first that has none; whether each has one.
///
/// The only error is want of memory.
#[tactic(auto, using(crate::proofs::RankLaws::no_ranks, crate::proofs::RankLaws::one_more_rank))]
pub fn rank_written(
    lineage: &Lineage,
    params: &[ScriptParameter],
    args: &[ArgType],
    ranks: &mut Vec<u8>,
) -> Result<bool, AllocError>
    ensures ranked { IfOk result (λ all. ranks_if all ranks.new.items ≡ in_front ranks.old.items
        (spec.ranks_of lineage.now (list_map type_and_pass params.now) args.now)) }
{
    if params.len() != args.len() {
        return Ok(false);
    }
    let mut rest = args;
    for param in params {
        let Some((argument, others)) = rest.split_first() else {
            return Ok(false);
        };
        let rank = rank_of_argument(lineage, param.written.ty, param.pass, *argument);
        let Some(rank) = rank else {
            return Ok(false);
        };
        ranks.push(rank)?;
        rest = others;
    }
    match rest {
        [] => Ok(true),
        _ => Ok(false),
    }
}

/// The same of the parameters of a function of the host. One of which a type is not seen takes no argument.
///
/// The only error is want of memory.
#[tactic(auto, using(crate::proofs::RankLaws::no_host_ranks, crate::proofs::RankLaws::one_more_rank))]
pub fn rank_host(
    scope: &Scope<'_>,
    params: &[Param],
    args: &[ArgType],
    ranks: &mut Vec<u8>,
) -> Result<bool, AllocError>
    ensures ranked { IfOk result (λ all. ranks_if all ranks.new.items ≡ in_front ranks.old.items
        (host_ranks scope.now.ancestors scope.now.view params.now args.now)) }
{
    if params.len() != args.len() {
        return Ok(false);
    }
    let mut rest = args;
    for param in params {
        let Some((argument, others)) = rest.split_first() else {
            return Ok(false);
        };
        let Some(rank) = rank_seen(scope, param, *argument) else {
            return Ok(false);
        };
        ranks.push(rank)?;
        rest = others;
    }
    match rest {
        [] => Ok(true),
        _ => Ok(false),
    }
}

/// The rank of an argument for a parameter of the host, if its type is seen.
fn rank_seen(scope: &Scope<'_>, param: &Param, argument: ArgType) -> Option<u8>
    ensures exact { result ≡ host_rank scope.now.ancestors
        (host.host_type scope.now.view param.now.ty) param.now.pass argument }
{
    let ty = host_type(scope.view(), &param.ty)?;
    rank_of_argument(scope.lineage(), ty, param.pass, argument)
}

/// The same of the parameters of a method of the scripts, in front of which its receiver stands.
///
/// The only error is want of memory.
#[tactic(auto, unfolding(ang_names_known::specs::Lookup::parameters_of), using(crate::proofs::RankLaws::one_more_rank))]
pub fn rank_method(
    lineage: &Lineage,
    receiver: ArgType,
    function: &ScriptFunction,
    args: &[ArgType],
    ranks: &mut Vec<u8>,
) -> Result<bool, AllocError>
    ensures ranked { IfOk result (λ all. ranks_if all ranks.new.items ≡ in_front ranks.old.items
        (spec.ranks_of lineage.now ((receiver, RefInOut) ∷ parameters_of function.now)
        args.now)) }
{
    let Some((argument, others)) = args.split_first() else {
        return Ok(false);
    };
    let Some(rank) = rank_of_argument(lineage, receiver, Pass::RefInOut, *argument) else {
        return Ok(false);
    };
    ranks.push(rank)?;
    rank_written(lineage, function.params.as_slice(), others, ranks)
}

/// The same of the parameters of a method of the host, in front of which its receiver stands.
///
/// The only error is want of memory.
#[tactic(auto, using(crate::proofs::RankLaws::one_more_rank))]
pub fn rank_host_method(
    scope: &Scope<'_>,
    receiver: ArgType,
    params: &[Param],
    args: &[ArgType],
    ranks: &mut Vec<u8>,
) -> Result<bool, AllocError>
    ensures ranked { IfOk result (λ all. ranks_if all ranks.new.items ≡ in_front ranks.old.items
        (host_method_ranks scope.now.ancestors scope.now.view receiver params.now args.now)) }
{
    let Some((argument, others)) = args.split_first() else {
        return Ok(false);
    };
    let rank = rank_of_argument(scope.lineage(), receiver, Pass::RefInOut, *argument);
    let Some(rank) = rank else {
        return Ok(false);
    };
    ranks.push(rank)?;
    rank_host(scope, params, others, ranks)
}
