//! What the engine answers.
ghost use Rattle.std.specs.Prelude.{◌≡◌};
ghost use Rattle.ang_engine_modules.specs.Outcomes.{outcome_of};

use ang_host::EventLog;
use ang_kinds::{Denial, Error, Fault, List, Value};

/// The answer to one command: what the host was asked meanwhile, what a build refused, and how the
/// command ended (docs/HOST.md, "Replies").
#[derive(Drop)]
pub struct Reply {
    /// How the command ended.
    pub outcome: Outcome,
    /// What the drivers were asked, and which of their objects ended, in order.
    pub events: EventLog,
    /// The errors of a refused build, in order; empty elsewhere.
    pub errors: List<Error>,
    /// The hidden entities by which refused uses of a build would have resolved, in the order of
    /// the errors (docs/LANGUAGE.md, "Denials"). Empty where a section does not lex or parse, and
    /// wherever the outcome is not `BuildErrors`.
    pub denials: List<Denial>,
}

/// How a command ended.
#[derive(Clone, Copy)]
pub enum Outcome {
    /// It was done; a call of a function with a result has its value.
    Done(Option<Value>),
    /// The script was cut short by a fault. What it changed stands, and the module stays built.
    Failed(Fault),
    /// It was refused. `BuildMemory`, `BuildErrors` and `InitFailed` leave the module unbuilt and
    /// without sections; after every other refusal the engine is as it was.
    Refused(Refusal),
}

/// Why a command was refused. docs/HOST.md, "Commands", has the order in which each command
/// looks for the causes. `Memory` may come in the place of any other, but never from `SetMask`,
/// `Unbind` and `RemoveGroup`.
#[derive(Clone, Copy)]
pub enum Refusal {
    /// The name of a new module is no identifier.
    BadName,
    /// There is a module of that name.
    ModuleExists,
    /// A 65th module, or a 65th waiting section.
    Limit,
    /// There is no module of that name. `Bind` looks for both of its modules.
    NoModule,
    /// The module is not built.
    NotBuilt,
    /// The budget is 0 or above 2,147,483,647.
    BadBudget,
    /// A growth of memory was refused before the first initializer ran.
    BuildMemory,
    /// The sections have errors, which the reply lists with their denials.
    BuildErrors,
    /// An initializer of a global ended with this fault. What the drivers were asked until then
    /// stands.
    InitFailed(Fault),
    /// The module has no function of that declaration.
    NoFunction,
    /// The module has no import of that number.
    NoImport,
    /// The function has other parameters or another result than the import: in type, in `const` or
    /// in passing. An object type is the same only as the same registered entry.
    SignatureDiffers,
    /// The function has a reference, an object or a handle among its parameters, or an object or a
    /// handle as its result: only numbers and truth values pass, by value.
    NotCallable,
    /// Another number of values than there are parameters, or one that is not of its parameter's
    /// type and range. Nothing is converted.
    BadArguments,
    /// The registration list has no group of that name.
    NoGroup,
    /// The group is in use: an entry outside it names a type or an enumeration of it, or a built module uses an entry of it.
    InUse,
    /// A growth of memory was refused before anything was changed.
    Memory,
}

/// How a command without an answer ended.
pub fn ended(done: Result<(), Refusal>) -> Outcome
    ensures exact { result ≡ outcome_of done }
{
    match done {
        Ok(()) => Outcome::Done(None),
        Err(refusal) => Outcome::Refused(refusal),
    }
}
