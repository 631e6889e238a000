//! What is kept of the candidates that a contest has seen.
ghost use Rattle.std.specs.Prelude.{◌≡◌, true, false, OnOk, IfOk};
ghost use Rattle.ang_check_contest.specs.declared.score.Contender.{Contender as Named};
ghost use Rattle.ang_check_contest.specs.Contest as spec;
ghost use Rattle.ang_check_contest.specs.Levels.{known_ranks};
ghost use Rattle.ang_check_contest.specs.Scores.{ranks_if, standing};

use ang_kinds::EntityNo;
use std::alloc::{AllocError, Global};

/// What names a candidate.
#[derive(Clone, Copy)]
pub enum Contender {
    /// The function of the scripts of this number.
    Function(usize),
    /// The import of this number.
    Import(usize),
    /// The host's function, factory or method of this entry.
    Entry(EntityNo),
    /// The constructor at this place among those of its class, from 0.
    Constructor(usize),
    /// The method at this place among those that a call can mean, from 0.
    Method(usize),
}

/// What comes of a contest.
#[derive(Clone, Copy)]
pub enum Outcome {
    /// This candidate is the best.
    Best(Contender),
    /// No candidate takes the arguments.
    NoViable,
    /// Some candidate takes the arguments, and none is the best.
    Ambiguous,
}

impl Outcome {
    /// Whether no candidate takes the arguments. It takes no memory.
    pub fn is_none_viable(self) -> bool
        ensures exact { result ≡ spec.is_none_viable self }
    {
        match self {
            Outcome::NoViable => true,
            Outcome::Ambiguous | Outcome::Best(_) => false,
        }
    }
}

/// The least rank of each argument among the viable candidates, and who has all of these.
#[derive(Drop)]
pub struct Score {
    /// The least ranks, where some candidate is viable.
    pub least: Vec<u8>,
    /// The first that has all of them.
    pub front: Option<Contender>,
    /// Whether another one has them too.
    pub is_tied: bool,
    /// Whether some candidate is viable.
    pub is_viable: bool,
    /// Whether there was no candidate.
    pub is_empty: bool,
}

/// Whether some rank is less than the other one of its argument.
#[tactic(auto, using(crate::proofs::RankLaws::lower_none))]
fn has_lower(ranks: &[u8], others: &[u8]) -> bool
    ensures exact { result ≡ spec.has_lower ranks.now others.now }
{
    let mut rest = others;
    for rank in ranks {
        let Some((other, after)) = rest.split_first() else {
            return false;
        };
        if rank < other {
            return true;
        }
        rest = after;
    }
    false
}

/// The lesser rank of each argument.
///
/// The only error is want of memory.
#[tactic(auto, using(crate::proofs::RankLaws::lesser_none))]
fn lesser_ranks(alloc: Global, ranks: &[u8], others: &[u8]) -> Result<Vec<u8>, AllocError>
    ensures exact { IfOk result (λ v. v.items ≡ spec.lesser_ranks ranks.now others.now) }
{
    let mut lesser = Vec::with_capacity(alloc, ranks.len())?;
    let mut rest = others;
    for rank in ranks {
        let Some((other, after)) = rest.split_first() else {
            return Ok(lesser);
        };
        lesser.push(*rank.min(other))?;
        rest = after;
    }
    Ok(lesser)
}

impl Score {
    /// Of no candidate. It takes no memory.
    pub fn new(alloc: Global) -> Score
        ensures fresh { standing result ≡ spec.fresh }
    {
        Score {
            least: Vec::new(alloc),
            front: None,
            is_tied: false,
            is_viable: false,
            is_empty: true,
        }
    }

    /// Takes in a candidate with the rank of each argument, or with none where it is not viable.
    ///
    /// The only error is want of memory.
    pub fn enter(
        &mut self,
        alloc: Global,
        contender: Contender,
        is_viable: bool,
        ranks: &[u8],
    ) -> Result<(), AllocError>
        ensures entered { OnOk result (standing self.new
            ≡ spec.entered_with (standing self.old) contender (ranks_if is_viable ranks.now)) }
    {
        self.is_empty = false;
        if !is_viable {
            return Ok(());
        }
        if !self.is_viable {
            return self.lead(contender, ranks);
        }
        let is_lower = has_lower(ranks, self.least.as_slice());
        let is_higher = has_lower(self.least.as_slice(), ranks);
        match (is_lower, is_higher) {
            (true, true) => self.cross(alloc, ranks),
            (true, false) => self.lead(contender, ranks),
            (false, true) => Ok(()),
            (false, false) => {
                self.meet(contender);
                Ok(())
            }
        }
    }

    /// Takes in a viable candidate that alone has the least ranks, which are its own.
    ///
    /// The only error is want of memory.
    fn lead(&mut self, contender: Contender, ranks: &[u8]) -> Result<(), AllocError>
        ensures leads { OnOk result (standing self.new ≡ spec.led contender ranks.now) }
    {
        self.least.clear();
        self.least.extend_from_slice(ranks)?;
        self.front = Some(contender);
        self.is_tied = false;
        self.is_viable = true;
        self.is_empty = false;
        Ok(())
    }

    /// Takes in a viable candidate of which some ranks are lower than the least ones and some are higher.
    ///
    /// The only error is want of memory.
    fn cross(&mut self, alloc: Global, ranks: &[u8]) -> Result<(), AllocError>
        requires viable { self.old.is_viable ≡ true }
        ensures crossed { OnOk result
            (standing self.new ≡ spec.crossed ranks.now self.old.least.items) }
    {
        self.least = lesser_ranks(alloc, ranks, self.least.as_slice())?;
        self.front = None;
        self.is_tied = false;
        self.is_empty = false;
        Ok(())
    }

    /// Takes in a viable candidate that has just the least ranks.
    fn meet(&mut self, contender: Contender)
        ensures met { standing self.new
            ≡ spec.met (standing self.old) contender (standing self.old).front }
    {
        self.is_empty = false;
        match self.front {
            None => {
                self.front = Some(contender);
                self.is_tied = false;
            }
            Some(_) => self.is_tied = true,
        }
    }

    /// Takes in a candidate that changes neither the least ranks nor who has them. It takes no memory.
    #[inline(always)]
    pub fn pass(&mut self)
        ensures passed { standing self.new ≡ spec.passed (standing self.old) }
    {
        self.is_empty = false;
    }

    /// Takes in a viable candidate that has just the least ranks, if another one is named that has them. Whether it was taken
    /// in. It takes no memory.
    #[inline(always)]
    pub fn tie(&mut self) -> bool
        ensures tied { result ≡ true → (named : Named) → standing self.new
            ≡ spec.met (standing self.old) named (standing self.old).front }
        ensures least { (standing self.new).least ≡ (standing self.old).least }
        ensures left { result ≡ false → standing self.new ≡ standing self.old }
    {
        if self.front.is_none() {
            return false;
        }
        self.is_empty = false;
        self.is_tied = true;
        true
    }

    /// The least rank of each argument, where some candidate is viable, and else none.
    pub fn least_ranks(&self) -> &[u8]
        ensures exact { result.now ≡ known_ranks (standing self.now).least }
    {
        if self.is_viable {
            self.least.as_slice()
        } else {
            &[]
        }
    }

    /// What came of it. It takes no memory.
    #[tactic(auto, unfolding(crate::specs::Contest::outcome_of))]
    pub fn outcome(&self) -> Outcome
        ensures exact { result ≡ spec.outcome_of (standing self.now) }
    {
        if !self.is_viable {
            return Outcome::NoViable;
        }
        match self.front {
            Some(contender) if !self.is_tied => Outcome::Best(contender),
            _ => Outcome::Ambiguous,
        }
    }
}
