//! What a registry gives, and the types of imports: each law is the contract of a function that does nothing.
ghost use Rattle.ang_check_laws.specs.Owned.{RegistriesAreOwned, SeenAreOwned, KeptAreOwned, OwnedHandlesAreOwn};
ghost use Rattle.ang_check_laws.specs.Imports.{EachImportIsOfTheHost, BuiltImportsAreOfTheHost};

/// The types that a declaration in a registry names are registered, and each object type among them is of the same driver as
/// the declaration. A mask keeps this, and so does taking out what is not named.
#[tactic(auto, using(crate::proofs::RegistryOwn::registries_owned, crate::proofs::RegistryOwn::seen_owned, crate::proofs::RegistryOwn::kept_owned, crate::proofs::RegistryOwn::handles_own))]
pub fn handles_are_own()
    ensures registered { RegistriesAreOwned }
    ensures masked { SeenAreOwned }
    ensures kept { KeptAreOwned }
    ensures handles { OwnedHandlesAreOwn }
{}

/// An import takes and gives numbers and handles to types of the host that its module sees, and no object of scripts.
#[tactic(auto, using(crate::proofs::Imports::each_import, crate::proofs::Imports::built_imports))]
pub fn imports_are_of_the_host()
    ensures each { EachImportIsOfTheHost }
    ensures built { BuiltImportsAreOfTheHost }
{}
