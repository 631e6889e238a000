//! Programs are typed over what their modules keep of what they saw: each the contract of a function that does nothing.
ghost use Rattle.ang_check_laws.specs.Settings.{SettingsAreTyped};
ghost use Rattle.ang_check_laws.specs.Narrowed.{BuildsAreTyped, NarrowedIsTyped, RegistriesTakeValues, SeenBuildsAreTyped, UnbuiltIsTyped, UsesAreEnough};

/// A program that is typed where its module sees one view is typed where it sees another that has what the program uses, as what a
/// built module keeps has.
#[tactic(auto, using(crate::proofs::NarrowedPrograms::uses_enough, crate::proofs::NarrowedPrograms::narrowed_typed))]
pub fn narrowed_is_typed()
    ensures used { UsesAreEnough }
    ensures narrowed { NarrowedIsTyped }
{}

/// Each list that a registry's calls make takes values alone, in at most 1,024 entries, as `Registry::seen` says of what a mask shows.
#[tactic(auto, using(crate::proofs::RegistryValues::registries_take))]
pub fn registries_take_values()
    ensures each { RegistriesTakeValues }
{}

/// What is built without errors is typed over what its module keeps of its view; so is the program where nothing is built.
pub fn builds_are_typed()
    ensures built { BuildsAreTyped }
    ensures seen { SeenBuildsAreTyped }
    ensures unbuilt { UnbuiltIsTyped }
{}

/// A setting of builds, each import of which leads to a function that is declared just so, is typed.
pub fn settings_are_typed()
    ensures each { SettingsAreTyped }
{}
