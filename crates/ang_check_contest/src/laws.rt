//! Laws of the definitions, each the contract of a function that does nothing.
ghost use Rattle.std.specs.Prelude.{ℕ, ◌≡◌, List, Some, None, true, false, map as list_map};
ghost use Rattle.ang_types.specs.declared.arg_type.ArgType.{ArgType};
ghost use Rattle.ang_types.specs.Best.{best_of};
ghost use Rattle.ang_types.specs.Ranks.{Ancestors};
ghost use Rattle.ang_view.specs.declared.entry.Entry.{Entry};
ghost use Rattle.ang_view.specs.Hidden.{seen_with};
ghost use Rattle.ang_view.specs.Registration.{RegistrationList, entry_at, is_seen, is_type, mentions, seen};
ghost use Rattle.ang_view.specs.Types.{enumeration_named, type_named};
ghost use Rattle.ang_check_contest.specs.declared.host.Wanted.{Wanted};
ghost use Rattle.ang_check_contest.specs.declared.host.WantedProperty.{WantedProperty};
ghost use Rattle.ang_check_contest.specs.Added.{added, added_property};
ghost use Rattle.ang_check_contest.specs.Host.{found, host_where, property_found, property_where};
ghost use Rattle.ang_check_contest.specs.Contest as contests;

/// With an entry added that a module does not see, what is looked for is what was found without it, and the entry at its
/// place where it is wanted. Its types are looked up in the whole list, so no view with an entry more has to be made.
pub fn one_is_added()
    ensures function { (R : RegistrationList) (m x : ℕ) (w : Wanted) →
        entry_at (seen R m) x ≡ None →
        host_where w (seen_with R m x)
        ≡ added (found w R x (entry_at R x)) (host_where w (seen R m)) }
    ensures property { (R : RegistrationList) (m x : ℕ) (w : WantedProperty) →
        entry_at (seen R m) x ≡ None → property_where w (seen_with R m x)
        ≡ added_property (property_found w R x (entry_at R x)) (property_where w (seen R m)) }
{}

/// The types and enumerations that a seen declaration names keep their numbers in the larger view, which are
/// those of the whole list, and so have the ones that the added declaration names.
pub fn types_stay()
    ensures seen { (R : RegistrationList) (m x : ℕ) (y : Entry) → is_seen R m y ≡ true →
        is_type y.kind ≡ false →
        (name : List ℕ) → mentions y.signature name ≡ true →
        type_named (seen_with R m x) name ≡ type_named R name }
    ensures seen_enumeration { (R : RegistrationList) (m x : ℕ) (y : Entry) →
        is_seen R m y ≡ true → is_type y.kind ≡ false →
        (name : List ℕ) → mentions y.signature name ≡ true →
        enumeration_named (seen_with R m x) name ≡ enumeration_named R name }
    ensures own { (R : RegistrationList) (m x : ℕ) (y : Entry) → entry_at R x ≡ Some y →
        is_type y.kind ≡ false →
        (name : List ℕ) → mentions y.signature name ≡ true →
        type_named (seen_with R m x) name ≡ type_named R name }
    ensures own_enumeration { (R : RegistrationList) (m x : ℕ) (y : Entry) →
        entry_at R x ≡ Some y → is_type y.kind ≡ false →
        (name : List ℕ) → mentions y.signature name ≡ true →
        enumeration_named (seen_with R m x) name ≡ enumeration_named R name }
{}

/// What comes of a contest is what `best_of` picks among all that were taken in.
pub fn contests_pick_the_best()
    ensures best { (ancestors : Ancestors) (args : List ArgType) (entries : List contests.Entry) →
        contests.outcome_of (contests.after ancestors args contests.fresh entries)
        ≡ contests.chosen entries (best_of ancestors (list_map contests.candidate_of entries) args) }
{}
