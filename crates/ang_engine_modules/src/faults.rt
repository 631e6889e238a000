//! How a command ended: with a fault, or without anything that ran.
ghost use Rattle.std.specs.Prelude.{◌≡◌};
ghost use Rattle.ang_engine_modules.specs.Ended.{is_failed_start, is_fault, may_have_run};

use crate::reply::{Outcome, Refusal};

/// Whether an initializer has faulted.
fn is_failed_start(why: Refusal) -> bool
    ensures exact { result ≡ is_failed_start why }
{
    match why {
        Refusal::InitFailed(_) => true,
        Refusal::BuildMemory
        | Refusal::BuildErrors
        | Refusal::BadName
        | Refusal::ModuleExists
        | Refusal::Limit
        | Refusal::NoModule
        | Refusal::NotBuilt
        | Refusal::BadBudget
        | Refusal::NoFunction
        | Refusal::NoImport
        | Refusal::SignatureDiffers
        | Refusal::NoGroup
        | Refusal::InUse
        | Refusal::NotCallable
        | Refusal::BadArguments
        | Refusal::Memory => false,
    }
}

/// Whether a command ended with a fault, of a call or of an initializer.
pub fn is_fault(outcome: Outcome) -> bool
    ensures exact { result ≡ is_fault outcome }
{
    match outcome {
        Outcome::Done(_) => false,
        Outcome::Failed(_) => true,
        Outcome::Refused(why) => is_failed_start(why),
    }
}

/// Whether a command that ended so may have run something.
pub fn may_have_run(outcome: Outcome) -> bool
    ensures exact { result ≡ may_have_run outcome }
{
    match outcome {
        Outcome::Done(_) | Outcome::Failed(_) => true,
        Outcome::Refused(why) => is_failed_start(why),
    }
}
