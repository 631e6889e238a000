//! Functions that a call can mean.
ghost use Rattle.std.specs.Prelude.{◌≡◌, ◌<◌, [], ◌∷◌, ◌++◌, OnOk, OnErr, length, option_to_list, slice_get, Some};
ghost use Rattle.ang_names_known.specs.Items.{is_empty};
ghost use Rattle.ang_check_uses.specs.Callables as beside;
ghost use Rattle.ang_check_uses.specs.Uses.{candidates_of};

use crate::uses::{Callable, Called, Reach};
use ang_types::{ArgType, Candidate};
use std::alloc::{AllocError, Global};
use std::marker::Model;

/// A function that a call can mean, but for its parameters.
#[derive(Clone, Copy)]
pub struct CallTarget {
    /// What runs.
    pub called: Called,
    /// The type of what the call gives.
    pub result: ArgType,
    /// From where it may be called, where it is a script's method.
    pub reach: Option<Reach>,
}

/// Functions that a call can mean, in order. Their parameters stand beside them as candidates, so that the best is
/// picked without a copy of any.
#[derive(Drop)]
pub struct Callables {
    heads: Vec<CallTarget>,
    candidates: Vec<Candidate>,
}

impl Model for Callables {
    ghost use Rattle.std.specs.Prelude.{◌≡◌, List, length};
    ghost use Rattle.ang_check_uses.specs.declared.uses.Callable.{Callable};
    ghost use Rattle.ang_check_uses.specs.Callables.{callables};

    ghost Value = { List Callable };

    ghost view = { λ c. callables c.heads.items c.candidates.items };

    ghost invariant = { λ c. length c.heads.items ≡ length c.candidates.items };
}

impl Callables {
    /// None yet. It takes no memory.
    pub fn new(alloc: Global) -> Callables
        ensures none { result ≡ [] }
    {
        Callables {
            heads: Vec::new(alloc),
            candidates: Vec::new(alloc),
        }
    }

    /// Whether there are none. It takes no memory.
    #[tactic(auto, using(crate::proofs::Beside::none_are))]
    pub fn is_empty(&self) -> bool
        ensures exact { result ≡ is_empty self.now }
    {
        self.heads.is_empty()
    }

    /// Their parameters, in order. It takes no memory.
    #[tactic(auto, using(crate::proofs::Beside::candidates_are))]
    pub fn candidates(&self) -> &[Candidate]
        ensures exact { result.now ≡ candidates_of self.now }
    {
        self.candidates.as_slice()
    }

    /// Puts one more at the end. After want of memory they are as before.
    ///
    /// The only error is want of memory.
    #[tactic(auto, using(crate::proofs::Beside::one_more))]
    pub fn push(&mut self, callable: Callable) -> Result<(), AllocError>
        ensures pushed { OnOk result (self.new ≡ self.old ++ callable ∷ []) }
        ensures unchanged { OnErr result (self.new ≡ self.old) }
    {
        let Callable {
            called,
            result,
            candidate,
            reach,
        } = callable;
        self.heads.reserve(1)?;
        self.candidates.reserve(1)?;
        self.heads.push_reserved(CallTarget {
            called,
            result,
            reach,
        });
        self.candidates.push_reserved(candidate);
        Ok(())
    }

    /// The one at a place, which is taken out of the others. It takes no memory.
    #[tactic(auto, using(crate::proofs::Beside::one_at, crate::proofs::Beside::none_at))]
    pub fn take(self, place: usize) -> Option<Callable>
        ensures exact { result ≡ slice_get self place }
    {
        let Callables { heads, candidates } = self;
        if place >= heads.len() {
            return None;
        }
        let head = head_at(heads.as_slice(), place);
        Some(joined(head, candidate_at(candidates, place)))
    }
}

fn head_at(heads: &[CallTarget], place: usize) -> CallTarget
    requires there { place < length heads.now }
    ensures exact { slice_get heads.now place ≡ Some result }
{
    heads[place]
}

/// The candidate at a place, taken out of the others.
fn candidate_at(candidates: Vec<Candidate>, place: usize) -> Candidate
    requires there { place < length candidates.items }
    ensures exact { slice_get candidates.items place ≡ Some result }
{
    let mut candidates = candidates;
    candidates.swap_remove(place)
}

fn joined(head: CallTarget, candidate: Candidate) -> Callable
    ensures exact { result ≡ beside.callable head candidate }
{
    Callable {
        called: head.called,
        result: head.result,
        candidate,
        reach: head.reach,
    }
}

/// Puts one more at the end, where there is one.
///
/// The only error is want of memory.
pub fn push_callable(found: &mut Callables, callable: Option<Callable>) -> Result<(), AllocError>
    ensures pushed { OnOk result (found.new ≡ found.old ++ option_to_list callable) }
{
    if let Some(callable) = callable {
        found.push(callable)?;
    }
    Ok(())
}
