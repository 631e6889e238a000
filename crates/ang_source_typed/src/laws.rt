//! Laws of runs of typed programs, each the contract of a function that does nothing.
ghost use Rattle.ang_source_typed.specs.Runs.{CallsAreAsMeant, CallsMeetNoMisfit, CallsTellCauses};
ghost use Rattle.ang_source_typed.specs.Runs.{InitializersAreAsMeant, InitializersMeetNoMisfit, InitializersTellCauses};

/// A run of typed programs is the same whatever a misfit does, so it meets none, and all places keep their types: no
/// object of scripts is in places of two modules.
pub fn typed_runs_meet_no_misfit()
    ensures calls { CallsMeetNoMisfit }
    ensures initializers { InitializersMeetNoMisfit }
{}

/// `Null` comes of null alone, where an object is wanted, and `Unbound` of an import alone that leads nowhere: with other
/// faults for these, a run of typed programs is the same but for the names of the two.
pub fn null_comes_of_null()
    ensures calls { CallsTellCauses }
    ensures initializers { InitializersTellCauses }
{}

/// Where each guard does what the meaning says, the guarded meaning is the meaning of every program, typed or not. So
/// what is said of runs whatever a misfit does is said of the meaning's own runs.
#[tactic(auto, using(crate::proofs::AsMeant::calls_are_as_meant, crate::proofs::AsMeant::initializers_are_as_meant))]
pub fn guards_change_nothing()
    ensures calls { CallsAreAsMeant }
    ensures initializers { InitializersAreAsMeant }
{}
