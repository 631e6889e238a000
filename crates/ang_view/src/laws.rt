//! Laws on the definition of a view.
ghost use Rattle.std.specs.Prelude.{◌≡◌, ℕ, Bool, List, Some, None, true, false};
ghost use Rattle.ang_view.specs.declared.entry.Entry.{Entry};
ghost use Rattle.ang_view.specs.Registration.{RegistrationList, entry_at, seen, is_type, is_named_by, mentions};
ghost use Rattle.ang_view.specs.Types.{type_named, enumeration_named};
ghost use Rattle.ang_view.specs.declared.group.Group.{Group};
ghost use Rattle.ang_view.specs.Groups.{is_named_outside, left_outside};
ghost use Rattle.ang_index.specs.Rows.{Rows};
ghost use Rattle.ang_kinds.specs.declared.mask.EntityNo.{EntityNo};
ghost use Rattle.ang_view.specs.Blanks.{blanked, TakesOut};
ghost use Rattle.ang_view.specs.Named.{Indexes, Scopes, name_in};
ghost use Rattle.ang_view.specs.Only.{kept_entry, only, NamesKept};

/// What a module sees of an entry it sees whole: each type that a seen entry's declaration names is seen,
/// and its name finds the same number in the view as in the whole list, of an enumeration too.
pub fn types_are_seen()
    ensures seen { (list : RegistrationList) (m n k : ℕ) (x : Entry) →
        entry_at (seen list m) n ≡ Some x → is_named_by x k (entry_at list k) ≡ true →
        entry_at (seen list m) k ≡ entry_at list k }
    ensures numbers { (list : RegistrationList) (m n : ℕ) (x : Entry) (name : List ℕ) →
        entry_at (seen list m) n ≡ Some x → is_type x.kind ≡ false →
        mentions x.signature name ≡ true →
        type_named (seen list m) name ≡ type_named list name }
    ensures enumerations { (list : RegistrationList) (m n : ℕ) (x : Entry) (name : List ℕ) →
        entry_at (seen list m) n ≡ Some x → is_type x.kind ≡ false →
        mentions x.signature name ≡ true →
        enumeration_named (seen list m) name ≡ enumeration_named list name }
{}

/// Where entries of a list go and the others stay under their numbers, a module sees each entry still that stays and that
/// it saw; and where no entry that stays names one that goes, it sees no more than before.
pub fn what_stays_is_seen()
    ensures stays { (keep : ℕ → Bool) (list : RegistrationList) (m n : ℕ) (x : Entry) →
        entry_at (seen list m) n ≡ Some x → keep n ≡ true →
        entry_at (seen (only keep list) m) n ≡ Some x }
    ensures same { (keep : ℕ → Bool) (list : RegistrationList) (m n : ℕ) → NamesKept keep list →
        entry_at (seen (only keep list) m) n ≡ kept_entry keep n (entry_at (seen list m) n) }
{}

/// Where a group goes of which nothing outside names a type, nothing that stays names what goes.
pub fn groups_stand_alone()
    ensures left { (list : RegistrationList) (g : Group) → is_named_outside list g ≡ false →
        NamesKept (left_outside g) list }
{}

/// Where an entry becomes a blank, an index of the list without its number is one of the list that is left.
pub fn blanks_are_indexed()
    ensures indexed { (scope_of : Scopes) → scope_of None ≡ None → (V : RegistrationList) (n : ℕ)
        (old new : Rows EntityNo) (scope : ℕ) (name : List ℕ)
        → Some scope ≡ scope_of (entry_at V n) → name ≡ name_in (entry_at V n)
        → TakesOut old new scope name n → Indexes scope_of V old → Indexes scope_of (blanked V n) new }
{}
