//! What each run of code asks and counts, that it has one end, and that the numbers of objects do not show.
//!
//! What each run of code keeps of the globals.
ghost use Rattle.ang_code_laws.specs.Globals.{StepsKeep, CallRunsKeep, InitializerRunsKeep};
ghost use Rattle.ang_code_laws.specs.Alike.{StepsAlike, CallRunsAlike, InitializerRunsAlike, GrantedCallsAlike, GrantedInitializersAlike};
ghost use Rattle.ang_code_laws.specs.Causes.{CallTalliesHaveCause, InitializerTalliesHaveCause};
ghost use Rattle.ang_code_laws.specs.Asked.{CallsAsk, InitializersAsk, CallRunsAsk, InitializerRunsAsk};
ghost use Rattle.ang_code_laws.specs.Counting.{CallsCount, InitializersCount, StepsCount, CallRunsCount, InitializerRunsCount};
ghost use Rattle.ang_code_laws.specs.Determined.{HasOneEnd};

/// At each place of a run, whatever it is told and whatever its code is, each module has as many globals as
/// before it, and there are as many modules that may have some. So it is at the end of a whole run, told by the
/// inputs that it takes.
pub fn globals_are_kept()
    ensures steps { StepsKeep }
    ensures calls { CallRunsKeep }
    ensures initializers { InitializerRunsKeep }
{}

/// A run lists, as far as it has come, host calls by modules and ends of objects. Each host call is of an entity
/// that this module sees and of its driver, of an object just where it is a member, with as many arguments
/// as it declares and with a reply of the kind that its role gives; a `const` property is never written.
#[tactic(auto, using(crate::proofs::Asking::calls_ask, crate::proofs::Asking::initializers_ask))]
pub fn each_run_asks()
    ensures calls { CallsAsk }
    ensures initializers { InitializersAsk }
{}

/// The same of a whole run, told by the inputs that it takes.
pub fn of_runs()
    ensures calls { CallRunsAsk }
    ensures initializers { InitializerRunsAsk }
{}

/// A run has one end, however many steps lead to it.
#[tactic(auto, using(crate::proofs::Determined::has_one_end))]
pub fn determined()
    ensures one_end { HasOneEnd }
{}

/// At each place of a run, whatever it is told and whatever its code is, each count of an object is the
/// number of places that hold it: on the stack, among the globals and in fields. So it is at a run's end,
/// where a value is the one place that is left, and a fault leaves none.
#[tactic(auto, using(crate::proofs::Counting::steps_count, crate::proofs::Counting::calls_count, crate::proofs::Counting::initializers_count))]
pub fn counts_are_places()
    ensures steps { StepsCount }
    ensures calls { CallsCount }
    ensures initializers { InitializersCount }
{}

/// The same of a whole run, told by the inputs that it takes.
pub fn counts_at_the_end()
    ensures calls { CallRunsCount }
    ensures initializers { InitializerRunsCount }
{}

/// The numbers of script objects do not show. Two runs of the same code in worlds that are equal up to these
/// numbers, told the same but for the numbers of new objects, are so at each place: what is asked next is of
/// the same sort, values, faults and events are the same, and the worlds are equal up to the numbers.
pub fn numbers_do_not_show()
    ensures steps { StepsAlike }
{}

/// The same of two whole runs, told the inputs that they take.
pub fn runs_alike()
    ensures calls { CallRunsAlike }
    ensures initializers { InitializerRunsAlike }
{}

/// Two whole runs that were granted all that they asked for, and whose drivers answered the same, were told the
/// same but for the numbers of new objects, and end alike.
pub fn granted_runs_alike()
    ensures calls { GrantedCallsAlike }
    ensures initializers { GrantedInitializersAlike }
{}

/// A run stops with `Tally` only where a driver refused a reference, which the world after it notes, or answered
/// `Full` to one of the host calls that it listed, or where a script object's count stood at its end as the run
/// stopped.
pub fn tallies_have_cause()
    ensures calls { CallTalliesHaveCause }
    ensures initializers { InitializerTalliesHaveCause }
{}
