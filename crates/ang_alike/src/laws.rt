//! What holds of two engines whose registries show the same to the masks of builds; and of commands whose runs would end
//! where they meet a misfit.
//!
//! What holds of two runs that differ in the numbers of script objects alone.
ghost use Rattle.std.specs.Prelude.{ℕ};
ghost use Rattle.ang_view.specs.Registration.{RegistrationList};
ghost use Rattle.ang_typed.specs.Typed.{Program};
ghost use Rattle.ang_meaning.specs.Environment.{Environment};
ghost use Rattle.ang_source.specs.Meaning.{Codes};
ghost use Rattle.ang_alike.specs.SourcesAlike.{AreSoundSources, AreAlikeInRuns};
ghost use Rattle.ang_alike.specs.Moved.{NumbersDoNotShowInCalls, NumbersDoNotShowInInitializers};
ghost use Rattle.ang_alike.specs.Misfits.{AllStayTyped, GuardsChangeNothing, MisfitsDoNotMatter};
ghost use Rattle.ang_alike.specs.Places.{IsHeardSo, PlacesDoNotShow};
ghost use Rattle.ang_alike.specs.Read.{RepliesTell};
ghost use Rattle.ang_alike.specs.Alike.{HiddenDoesNotMatter, AnswersDecide, ToldAlikeReplyAlike, ToldAlikeReplySame, UnrefusedReplyAlike, UnrefusedReplySame};

/// Two calls of a function of sound trees, and a module's initializers run twice, in worlds that are
/// equal up to the numbers of script objects, and told the same but for these, come to the same but for
/// these. Nothing is asked of the trees' size: no code of them has to be there.
pub fn sources_alike()
    ensures alike { (z : Environment) (view : ℕ → RegistrationList) (program : ℕ → Program)
        (codes : Codes)
        → AreSoundSources z view program codes
        → AreAlikeInRuns z codes }
{}

/// Two registration lists that show the same to each mask with which a build is done give equal replies
/// to equal commands under equal limits, apart from their denials and from what `RemoveGroup` answers, where
/// drivers answer the same and neither memory nor one more reference was refused. The lists are those of each
/// build, so groups may go between builds. A limit may have been met.
pub fn alike()
    ensures alike { HiddenDoesNotMatter }
{}

/// Over one registration list equal commands under equal limits have equal replies, where drivers answer
/// the same and neither memory nor one more reference was refused.
pub fn answers_decide()
    ensures same { AnswersDecide }
{}

/// The same of commands that were refused memory or a tally, where both lists are refused the same requests.
/// Where the replies differ, one was granted a request that the other was refused.
pub fn told_alike()
    ensures alike { ToldAlikeReplyAlike }
    ensures same { ToldAlikeReplySame }
{}

/// The same as a host can read it off the replies: of commands none of whose replies tells that memory or
/// one more reference was refused. A limit that was met is told as want of memory, so nothing is said of it.
pub fn unrefused_alike()
    ensures alike { UnrefusedReplyAlike }
    ensures same { UnrefusedReplySame }
{}

/// The same with nothing hidden among its premises: two lists of replies, as `Engine::apply` gives them, and
/// what a host knows of its registrations, masks and drivers.
pub fn replies_tell()
    ensures alike { RepliesTell }
{}

/// No run of a command meets a misfit: a value of another kind than what it meets wants, as the host wants a number of a call whose
/// function declares one, or a place that is not there. For commands in turn have the replies that they would have if each run ended
/// with a fault at the first misfit that it meets, whatever fault. Where a misfit does what the meaning says, such a command is the
/// engine's own. After each command all objects and globals are typed, whatever was built anew, bound, discarded or removed.
#[tactic(auto, using(crate::proofs::TypedAsMeant::guards_change_nothing, crate::proofs::TypedTurns::misfits_do_not_matter, crate::proofs::TypedTurns::all_stay_typed))]
pub fn no_run_meets_a_misfit()
    ensures unguarded { GuardsChangeNothing }
    ensures replies { MisfitsDoNotMatter }
    ensures typed { AllStayTyped }
{}

/// The numbers of modules do not show in what their runs come to: under other numbers a call, and initializers in turn, give the
/// same value or fault, the same events and the same world, but that each module's globals stand under its new number.
pub fn numbers_of_modules_do_not_show()
    ensures calls { NumbersDoNotShowInCalls }
    ensures initializers { NumbersDoNotShowInInitializers }
{}

/// The places of modules, whose numbers are used again, do not show in what a host is told. An engine puts a new module into the
/// first empty place, and makes one more where none is empty. One that put it into any other empty place, or made one more all the
/// same, would reply the same to each list of commands, and the same would end with it after them, where both are told the same:
/// whether there is memory or room in a tally, what drivers answer, and the numbers of new objects.
pub fn places_do_not_show()
    ensures same { PlacesDoNotShow }
    ensures heard { IsHeardSo }
{}
