//! The best of several candidates, each of which is looked at once, as it comes.
ghost use Rattle.std.specs.Prelude.{◌≡◌, ◌∷◌, true, false, List, Some, is_some, OnOk, map as list_map};
ghost use Rattle.ang_types.specs.declared.arg_type.ArgType.{ArgType};
ghost use Rattle.ang_types.specs.Best.{best_of};
ghost use Rattle.ang_types.specs.Overloads.{Params};
ghost use Rattle.ang_types.specs.Ranks.{Ancestors};
ghost use Rattle.ang_kinds.specs.declared.types.Pass.TheVariants.{RefInOut};
ghost use Rattle.ang_check_contest.specs.Host as host;
ghost use Rattle.ang_names_known.specs.Kinds.{kinds_at};
ghost use Rattle.ang_names_known.specs.Lookup.{parameters_of};
ghost use Rattle.ang_check_contest.specs.declared.score.Contender.{Contender as Named};
ghost use Rattle.ang_check_contest.specs.Contest as spec;
ghost use Rattle.ang_check_contest.specs.Levels.{known_ranks};

use crate::ranking::{rank_host, rank_host_method, rank_method, rank_written};
use crate::scope::Scope;
use crate::score::{Contender, Outcome, Score};
use crate::told::ToldRanks;
use ang_kinds::Param;
use ang_names_known::ScriptFunction;
use ang_types::{ArgType, Lineage};
use std::alloc::{AllocError, Global};
use std::marker::Model;

/// What is kept of the candidates of a call, each of which is looked at once and where it lies: the least rank of each
/// argument among the viable ones, and the one that has all of these.
///
/// The lineage and the arguments have to be the same for all candidates. Where a function answers an error nothing is promised
/// of the contest.
#[derive(Drop)]
pub struct Contest {
    score: Score,
    /// Room for the ranks of the candidate that is looked at.
    ranks: Vec<u8>,
}

impl Model for Contest {
    ghost use Rattle.ang_check_contest.specs.Contest as spec;
    ghost use Rattle.ang_check_contest.specs.Scores.{standing};

    ghost Value = { spec.Standing };

    ghost view = { λ c. standing c.score };
}

impl Contest {
    /// No candidate yet. It takes no memory.
    pub fn new(alloc: Global) -> Contest
        ensures fresh { result ≡ spec.fresh }
    {
        Contest {
            score: Score::new(alloc),
            ranks: Vec::new(alloc),
        }
    }

    /// Takes in a function of the scripts.
    ///
    /// The only error is want of memory.
    #[tactic(auto, unfolding(crate::specs::Contest::entered, ang_names_known::specs::Lookup::parameters_of))]
    pub fn enter(
        &mut self,
        alloc: Global,
        lineage: &Lineage,
        args: &[ArgType],
        contender: Contender,
        function: &ScriptFunction,
    ) -> Result<(), AllocError>
        ensures entered { OnOk result (self.new ≡ spec.entered lineage.now args.now self.old
            contender (parameters_of function.now)) }
    {
        self.ranks.clear();
        let params = function.params.as_slice();
        let is_viable = rank_written(lineage, params, args, &mut self.ranks)?;
        self.score
            .enter(alloc, contender, is_viable, self.ranks.as_slice())
    }

    /// Takes in a method of the scripts, whose first parameter is its receiver.
    ///
    /// The only error is want of memory.
    #[tactic(auto, unfolding(crate::specs::Contest::entered))]
    pub fn enter_method(
        &mut self,
        alloc: Global,
        lineage: &Lineage,
        args: &[ArgType],
        contender: Contender,
        receiver: ArgType,
        function: &ScriptFunction,
    ) -> Result<(), AllocError>
        ensures entered { OnOk result (self.new ≡ spec.entered lineage.now args.now self.old
            contender ((receiver, RefInOut) ∷ parameters_of function.now)) }
    {
        self.ranks.clear();
        let is_viable = rank_method(lineage, receiver, function, args, &mut self.ranks)?;
        self.score
            .enter(alloc, contender, is_viable, self.ranks.as_slice())
    }

    /// Takes in a function of the host, all of whose types are seen.
    ///
    /// The only error is want of memory.
    #[tactic(auto, unfolding(crate::specs::Contest::entered), using(crate::proofs::RankLaws::seen_ranks))]
    pub fn enter_host(
        &mut self,
        alloc: Global,
        scope: &Scope<'_>,
        args: &[ArgType],
        contender: Contender,
        params: &[Param],
    ) -> Result<(), AllocError>
        ensures entered { OnOk result ((seen : Params) →
            host.host_parameters scope.now.view params.now ≡ Some seen → self.new
            ≡ spec.entered scope.now.ancestors args.now self.old contender seen) }
    {
        self.ranks.clear();
        let is_viable = rank_host(scope, params, args, &mut self.ranks)?;
        self.score
            .enter(alloc, contender, is_viable, self.ranks.as_slice())
    }

    /// Takes in a method of the host, whose first parameter is its receiver.
    ///
    /// The only error is want of memory.
    #[tactic(auto, unfolding(crate::specs::Contest::entered), using(crate::proofs::RankLaws::seen_method_ranks))]
    pub fn enter_host_method(
        &mut self,
        alloc: Global,
        scope: &Scope<'_>,
        args: &[ArgType],
        contender: Contender,
        receiver: ArgType,
        params: &[Param],
    ) -> Result<(), AllocError>
        ensures entered { OnOk result ((seen : Params) →
            host.host_parameters scope.now.view params.now ≡ Some seen → self.new
            ≡ spec.entered scope.now.ancestors args.now self.old contender
            ((receiver, RefInOut) ∷ seen)) }
    {
        self.ranks.clear();
        let is_viable = rank_host_method(scope, receiver, params, args, &mut self.ranks)?;
        self.score
            .enter(alloc, contender, is_viable, self.ranks.as_slice())
    }

    /// Takes in a candidate whose parameters have the kinds of these numbers.
    ///
    /// The only error is want of memory.
    #[tactic(auto, unfolding(crate::specs::Contest::entered))]
    pub(crate) fn enter_told(
        &mut self,
        alloc: Global,
        told: &ToldRanks<'_>,
        contender: Contender,
        numbers: &[u32],
    ) -> Result<(), AllocError>
        ensures entered { OnOk result ((params : Params) →
            kinds_at told.now.kinds numbers.now ≡ list_map Some params → self.new
            ≡ spec.entered told.now.ancestors told.now.args self.old contender params) }
    {
        self.ranks.clear();
        let is_viable = told.rank(numbers, &mut self.ranks)?;
        self.score
            .enter(alloc, contender, is_viable, self.ranks.as_slice())?;
        Ok(())
    }

    /// Takes in a candidate that isn't viable, or of which no rank is lower than the least one of its argument, and some is
    /// higher. It takes no memory.
    #[inline(always)]
    pub(crate) fn pass(&mut self)
        ensures passed { self.new ≡ spec.passed self.old }
    {
        self.score.pass();
    }

    /// Takes in a candidate that has all of the least ranks, if another one is named that has them. Whether it was taken in.
    /// It takes no memory.
    #[inline(always)]
    pub(crate) fn tie(&mut self) -> bool
        ensures tied { result ≡ true → (named : Named) →
            self.new ≡ spec.met self.old named self.old.front }
        ensures least { self.new.least ≡ self.old.least }
        ensures left { result ≡ false → self.new ≡ self.old }
    {
        self.score.tie()
    }

    /// The least rank of each argument, where some candidate is viable, and else none.
    pub(crate) fn least(&self) -> &[u8]
        ensures exact { result.now ≡ known_ranks self.now.least }
    {
        self.score.least_ranks()
    }

    /// Whether none was taken in. It takes no memory.
    pub fn is_empty(&self) -> bool
        ensures exact { result ≡ self.now.empty }
    {
        self.score.is_empty
    }

    /// Whether some candidate is viable. It takes no memory.
    #[tactic(auto, using(crate::proofs::RankLaws::some_if))]
    pub(crate) fn is_viable(&self) -> bool
        ensures exact { result ≡ is_some self.now.least }
    {
        self.score.is_viable
    }

    /// Whether some viable candidate has all of the least ranks. It takes no memory.
    pub(crate) fn is_led(&self) -> bool
        ensures exact { result ≡ is_some self.now.front }
    {
        self.score.front.is_some()
    }

    /// Which of them is the best. It takes no memory.
    #[tactic(auto, using(crate::proofs::ContestLaws::outcome_after))]
    pub fn outcome(&self) -> Outcome
        ensures exact { result ≡ spec.outcome_of self.now }
        ensures best { (ancestors : Ancestors) (args : List ArgType) (entries : List spec.Entry) →
            self.now ≡ spec.after ancestors args spec.fresh entries →
            result ≡ spec.chosen entries
            (best_of ancestors (list_map spec.candidate_of entries) args) }
    {
        self.score.outcome()
    }
}
