//! What a host reads off a reply, to know whether `laws::replies_tell` binds it.
ghost use Rattle.std.specs.Prelude.{◌≡◌, not};
ghost use Rattle.ang_engine.specs.Step.{fault_of_refusal, fault_told};
ghost use Rattle.ang_alike.specs.Alike.{is_want, tells_of_want};

use ang_engine_modules::{Outcome, Refusal};
use ang_kinds::Fault;

/// Whether a fault tells that memory or one more reference was refused.
fn is_want(fault: Fault) -> bool
    ensures exact { result ≡ is_want fault }
{
    match fault {
        Fault::Memory | Fault::Tally => true,
        Fault::Null
        | Fault::NoObject
        | Fault::DivideByZero
        | Fault::DivideOverflow
        | Fault::Budget
        | Fault::Depth
        | Fault::Host(_)
        | Fault::BadAnswer
        | Fault::Unbound => false,
    }
}

/// Whether a command that was refused so was granted all that it asked for.
fn was_granted(why: Refusal) -> bool
    ensures exact { result ≡ not (tells_of_want (fault_of_refusal why)) }
{
    match why {
        Refusal::Memory | Refusal::BuildMemory => false,
        Refusal::InitFailed(fault) => !is_want(fault),
        Refusal::BuildErrors
        | Refusal::BadName
        | Refusal::ModuleExists
        | Refusal::Limit
        | Refusal::NoModule
        | Refusal::NotBuilt
        | Refusal::BadBudget
        | Refusal::NoFunction
        | Refusal::NoImport
        | Refusal::SignatureDiffers
        | Refusal::NotCallable
        | Refusal::BadArguments
        | Refusal::NoGroup
        | Refusal::InUse => true,
    }
}

/// Whether a reply with this outcome tells of no refusal: neither memory nor one more reference was wanting. A limit that
/// was met is told as want of memory, too.
pub fn tells_of_no_refusal(outcome: Outcome) -> bool
    ensures exact { result ≡ not (tells_of_want (fault_told outcome)) }
{
    match outcome {
        Outcome::Done(_) => true,
        Outcome::Failed(fault) => !is_want(fault),
        Outcome::Refused(why) => was_granted(why),
    }
}
