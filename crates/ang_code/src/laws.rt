//! What holds of every run of the machine.
ghost use Rattle.ang_code.specs.Told.{CallsComeFrom, InitializersComeFrom};
ghost use Rattle.ang_code.specs.Weight.{EachStepDecreases};

/// Each step makes a run lighter: it takes a tick, or leaves less of the bodies that are entered. So a run
/// ends, whatever its code is.
#[tactic(auto, using(crate::proofs::Lightening::each_step_lighter))]
pub fn each_step_lighter()
    ensures lighter { EachStepDecreases }
{}

/// What a run has been told and what it has listed: the answers that it took are those of its events, in
/// order, and no input was refused but the last one of a run that ended with that input's fault.
#[tactic(auto, using(crate::proofs::Telling::calls_come_from, crate::proofs::Telling::initializers_come_from))]
pub fn each_run_told()
    ensures calls { CallsComeFrom }
    ensures initializers { InitializersComeFrom }
{}
