//! Laws of the definitions, each the contract of a function that does nothing.
ghost use Rattle.std.specs.Prelude.{ℕ, ◌≡◌, ◌≤◌, ◌<◌, true, false, List, [], length, Contains, IsSome, Some};
ghost use Rattle.ang_types.specs.declared.asks.Refused.{Refused};
ghost use Rattle.ang_view.specs.Registration.{RegistrationList};
ghost use Rattle.ang_names_known.specs.declared.names.Family.{Family};
ghost use Rattle.ang_names_known.specs.Spaces.{AreFamilies};
ghost use Rattle.ang_names_listed.specs.Sources.{Source};
ghost use Rattle.ang_names_listed.specs.declared.listed.ListedDeclaration.{ListedDeclaration};
ghost use Rattle.ang_names_listed.specs.Declarations.{declarations_of, families_of};
ghost use Rattle.ang_names.specs.Phases.{refusals_of};
ghost use Rattle.ang_names.specs.Ranks.{can_hold, family_at, is_own_ancestor, reaches_itself};
ghost use Rattle.ang_names_classes.specs.Resolved.{names_of};

/// The families of a build are few enough for each to have a number as a type, and what stands above one is among them: where
/// there are 256 at most (`few`), and so where nothing is refused (`accepted`). A refusal that asks for a name comes from a
/// phase after the first, which lets no more through (`asked`).
pub fn few_families()
    ensures few { (V : RegistrationList) (ds : List ListedDeclaration) →
        length (families_of ds) ≤ 256 → AreFamilies (names_of V ds).families }
    ensures accepted { (V : RegistrationList) (ss : List Source) →
        refusals_of V ss ≡ [] → AreFamilies (names_of V (declarations_of ss)).families }
    ensures asked { (V : RegistrationList) (ss : List Source) (r : Refused) →
        Contains (refusals_of V ss) r → IsSome r.asks →
        length (families_of (declarations_of ss)) ≤ 256 }
{}

/// Where nothing is refused, no class or interface stands above itself, none reaches itself through what its fields can hold, and
/// ranks fall: what a field of one can hold is of a lower rank.
pub fn ranks_fall()
    ensures ancestors { (V : RegistrationList) (ss : List Source) (c : ℕ) →
        refusals_of V ss ≡ [] → is_own_ancestor ss c ≡ false }
    ensures cycles { (V : RegistrationList) (ss : List Source) (c : ℕ) →
        refusals_of V ss ≡ [] → reaches_itself V ss c ≡ false }
    ensures falls { (V : RegistrationList) (ss : List Source) (i j : ℕ) (f g : Family) →
        refusals_of V ss ≡ [] → family_at V ss i ≡ Some f → family_at V ss j ≡ Some g →
        can_hold V ss i j ≡ true → g.rank < f.rank }
{}
