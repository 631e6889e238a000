//! Laws of the definitions, each the contract of a function that does nothing.
ghost use Rattle.std.specs.Prelude.{◌≡◌, ◌↔◌, ℕ, List, ◌∷◌, ◌++◌, length};
ghost use Rattle.ang_types.specs.declared.arg_type.ArgType.{ArgType};
ghost use Rattle.ang_types.specs.declared.candidate.Candidate.{Candidate};
ghost use Rattle.ang_types.specs.Ranks.{Ancestors};
ghost use Rattle.ang_types.specs.declared.candidate.Pick.{Pick};
ghost use Rattle.ang_types.specs.declared.candidate.Pick.TheVariants.{One, NoViable, Ambiguous};
ghost use Rattle.ang_types.specs.Best.{best_of, is_best};
ghost use Rattle.ang_types.specs.Overloads.{IsBest, IsViableAt};

/// Among several candidates there is at most one best.
pub fn one_best()
    ensures unique { (ancestors : Ancestors) (candidates : List Candidate) (args : List ArgType)
        (i j : ℕ) →
        IsBest ancestors candidates args i → IsBest ancestors candidates args j → i ≡ j }
{}

/// The pick that `best_of` computes is that of the relations: the best candidate, or that none is viable, or
/// that some are and none is the best.
pub fn best_says()
    ensures one { (ancestors : Ancestors) (candidates : List Candidate) (args : List ArgType)
        (i : ℕ) →
        (best_of ancestors candidates args ≡ One i) ↔ IsBest ancestors candidates args i }
    ensures no_viable { (ancestors : Ancestors) (candidates : List Candidate)
        (args : List ArgType) →
        (best_of ancestors candidates args ≡ NoViable) ↔
        ((i : ℕ) → ¬ IsViableAt ancestors candidates args i) }
    ensures ambiguous { (ancestors : Ancestors) (candidates : List Candidate)
        (args : List ArgType) →
        (best_of ancestors candidates args ≡ Ambiguous) ↔
        (((i : ℕ) × IsViableAt ancestors candidates args i)
        × ((i : ℕ) → ¬ IsBest ancestors candidates args i)) }
{}

/// Whether a candidate is the best is the same wherever it stands among the others.
pub fn best_anywhere()
    ensures same { (ancestors : Ancestors) (before after : List Candidate) (c : Candidate)
        (args : List ArgType) →
        is_best ancestors (before ++ c ∷ after) args (length before)
        ≡ is_best ancestors (c ∷ (before ++ after)) args 0 }
{}
