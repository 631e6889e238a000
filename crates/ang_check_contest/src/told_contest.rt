//! A contest among many candidates, for which the ranks of the arguments are found out once.
ghost use Rattle.std.specs.Prelude.{◌≡◌, ◌≢◌, true, false, length, OnOk, IfOk, Some, map as list_map};
ghost use Rattle.ang_types.specs.Overloads.{Params};
ghost use Rattle.ang_names_known.specs.Kinds.{kinds_at, numbered};
ghost use Rattle.ang_check_contest.specs.declared.score.Contender.{Contender as Named};
ghost use Rattle.ang_check_contest.specs.Contest as contests;

use crate::contest::Contest;
use crate::levels::{LEAST, LOWER, levels_beside, worst_level};
use crate::score::Contender;
use crate::told::ToldRanks;
use ang_kinds::Pass;
use ang_types::{ArgType, Lineage};
use std::alloc::{AllocError, Global};
use std::marker::Model;

/// A contest among candidates whose parameters are told by the numbers of their kinds.
///
/// Where an error was answered nothing is promised of the contest.
#[derive(Drop)]
pub struct ToldContest<'a> {
    contest: Contest,
    told: ToldRanks<'a>,
    /// The levels of all ranks beside the least ones, if they are known.
    levels: Vec<Vec<u32>>,
}

impl<'a> Model for ToldContest<'a> {
    ghost use Rattle.ang_check_contest.specs.Levels as spec;

    ghost Value = { spec.ToldStanding };

    ghost view = { λ c. record { telling = c.told; standing = c.contest } };

    ghost invariant = { λ c. spec.AreLevels c.told c.contest (spec.levels_in c.levels.items) };
}

impl<'a> ToldContest<'a> {
    /// This contest, for parameters of these kinds, in front of which stand those of a receiver of the type of this number, one
    /// that may be changed and one that is read only.
    ///
    /// The only error is want of memory.
    pub fn new(
        alloc: Global,
        contest: Contest,
        lineage: &'a Lineage,
        receiver: u32,
        kinds: &'a [(ArgType, Pass)],
        args: &'a [ArgType],
    ) -> Result<ToldContest<'a>, AllocError>
        ensures same { IfOk result (λ told. told.standing ≡ contest) }
        ensures ancestors { IfOk result (λ told. told.telling.ancestors ≡ lineage.now) }
        ensures kinds { IfOk result (λ told. told.telling.kinds ≡ numbered receiver kinds.now) }
        ensures args { IfOk result (λ told. told.telling.args ≡ args.now) }
    {
        let told = ToldRanks::new(alloc, lineage, receiver, kinds, args)?;
        Ok(ToldContest {
            contest,
            told,
            levels: Vec::new(alloc),
        })
    }

    /// The contest alone.
    pub fn into_contest(self) -> Contest
        ensures same { result ≡ self.entry.standing }
    {
        self.contest
    }

    /// Takes in a candidate that has not one parameter for each argument. Whether it was taken in.
    #[inline(never)]
    fn passes_by_number(&mut self, numbers: &[u32]) -> bool
        ensures same { self.new.telling ≡ self.old.telling }
        ensures other_number { result ≡ true →
            length numbers.now ≢ length self.old.telling.args }
        ensures passed { result ≡ true → self.new.standing ≡ contests.passed self.old.standing }
        ensures left { result ≡ false → self.new.standing ≡ self.old.standing }
    {
        if numbers.len() == self.told.arguments() {
            return false;
        }
        self.contest.pass();
        true
    }

    /// Takes in a candidate whose parameters have the kinds of these numbers, if it changes neither the least ranks nor which
    /// candidate is named. Whether it was taken in. It takes no memory.
    #[inline(always)]
    pub fn passes(&mut self, numbers: &[u32]) -> bool
        ensures same { self.new.telling ≡ self.old.telling }
        ensures passed { result ≡ true → (params : Params) (named : Named) →
            kinds_at self.old.telling.kinds numbers.now ≡ list_map Some params →
            self.new.standing ≡ contests.entered self.old.telling.ancestors
            self.old.telling.args self.old.standing named params }
        ensures left { result ≡ false → self.new.standing ≡ self.old.standing }
    {
        if numbers.len() != self.levels.len() {
            return self.passes_by_number(numbers);
        }
        let Some(worst) = worst_level(self.levels.as_slice(), numbers) else {
            self.contest.pass();
            return true;
        };
        if worst == LEAST {
            return !numbers.is_empty() && self.contest.tie();
        }
        if worst == LOWER {
            return false;
        }
        self.contest.pass();
        true
    }

    /// Takes in a candidate whose parameters have the kinds of these numbers. The levels are left out as long as those beside
    /// new least ranks aren't known.
    ///
    /// The only error is want of memory.
    #[inline(never)]
    pub fn enter(
        &mut self,
        alloc: Global,
        contender: Contender,
        numbers: &[u32],
    ) -> Result<(), AllocError>
        ensures same { OnOk result (self.new.telling ≡ self.old.telling) }
        ensures entered { OnOk result ((params : Params) →
            kinds_at self.old.telling.kinds numbers.now ≡ list_map Some params →
            self.new.standing ≡ contests.entered self.old.telling.ancestors
            self.old.telling.args self.old.standing contender params) }
    {
        self.levels = Vec::new(alloc);
        self.contest
            .enter_told(alloc, &self.told, contender, numbers)?;
        self.levels = levels_beside(alloc, self.told.rows(), self.contest.least())?;
        Ok(())
    }
}
