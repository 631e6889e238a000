//! Laws of the definitions, each the contract of a function that does nothing.
ghost use Rattle.std.specs.Prelude.{ℕ, true, ◌≡◌, ◌<◌, ◌↔◌, Contains, List, length};
ghost use Rattle.ang_kinds.specs.declared.error.Denial.{Denial};
ghost use Rattle.ang_types.specs.declared.asks.Asks.{Asks};
ghost use Rattle.ang_types.specs.declared.asks.Refused.{Refused};
ghost use Rattle.ang_view.specs.Hidden.{is_unmet, is_with};
ghost use Rattle.ang_view.specs.Registration.{RegistrationList};
ghost use Rattle.ang_check_contest.specs.Scopes.{Scope};
ghost use Rattle.ang_names_listed.specs.Sources.{Source};
ghost use Rattle.ang_check_denials.specs.Denials.{denied, helps};
ghost use Rattle.ang_check.specs.Denials.{denials_of, IsRowOf};

/// Entry y has a row for a refused use just where its own mask is not met, and it comes with a hidden entry that helps the
/// use: that entry itself, or a type that its declaration names.
#[tactic(auto, using(crate::proofs::Rows::row_helps))]
pub fn each_row_helps()
    ensures helps { (R : RegistrationList) (m : ℕ) (s : Scope) (r : Refused) (a : Asks) (y : ℕ) →
        (denied R m s r a y ≡ true) ↔ ((is_unmet R m y ≡ true)
        × ((x : ℕ) × (x < length R) × (helps R m s r a x ≡ true) × (is_with R x y ≡ true))) }
{}

/// The denials of a build are the rows of its refused uses, and no others.
pub fn each_help_is_listed()
    ensures rows { (R : RegistrationList) (m : ℕ) (ss : List Source) (d : Denial) →
        Contains (denials_of R m ss) d ↔ IsRowOf R m ss d }
{}
