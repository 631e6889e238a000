//! Laws of the definitions, each the contract of a function that does nothing.
ghost use Rattle.std.specs.Prelude.{◌≡◌, ◌≤◌, List, [], length};
ghost use Rattle.ang_view.specs.Registration.{RegistrationList};
ghost use Rattle.ang_names_listed.specs.declared.listed.ListedDeclaration.{ListedDeclaration};
ghost use Rattle.ang_names_listed.specs.Declarations.{families_of};
ghost use Rattle.ang_names_listed.specs.Taken.{name_refusals};

/// Where no name is refused there are few enough classes and interfaces for a table of what stands above each.
#[tactic(auto, using(crate::proofs::Few::names_are_few))]
pub fn names_are_few()
    ensures few { (V : RegistrationList) (all : List ListedDeclaration) →
        name_refusals V all ≡ [] → length (families_of all) ≤ 256 }
{}
