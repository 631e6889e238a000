//! What holds of generated code.
ghost use Rattle.ang_meaning.specs.Environment.{Environment};
ghost use Rattle.ang_core.specs.Meaning.{Bodies};
ghost use Rattle.ang_core.specs.Sound.{AreSound};
ghost use Rattle.ang_code.specs.Machine.{Texts};
ghost use Rattle.ang_gen.specs.BodyBehaves.{IsCode, Behaves};
ghost use Rattle.ang_gen.specs.Told.{AreTold};

/// Where each body's text is its code and each body is sound, the machine ends as the bodies' meaning
/// says: for every function, budget, arguments and inputs, and for every initializer.
#[tactic(auto, using(crate::proofs::Bodies::behaves))]
pub fn behaves()
    ensures same { (z : Environment) (bodies : Bodies) (code : Texts)
        → AreSound z bodies
        → IsCode z bodies code
        → Behaves z bodies code }
{}

/// Where sound bodies have code, what their runs are told and what they list: the answers that a run takes
/// are those of its events, in order, and nothing is refused to it but, at a fault's end, the last that it
/// asks for.
#[tactic(auto, using(crate::proofs::Telling::are_told))]
pub fn told()
    ensures told { (z : Environment) (bodies : Bodies) (code : Texts)
        → AreSound z bodies
        → IsCode z bodies code
        → AreTold z bodies }
{}
