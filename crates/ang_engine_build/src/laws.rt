//! What holds of each program that a build gives.
ghost use Rattle.std.specs.Prelude.{◌≡◌, ℕ, ◌≤◌, ◌<◌, true, List, length, Ok, Some, slice_get};
ghost use Rattle.ang_view.specs.Registration.{RegistrationList};
ghost use Rattle.ang_view.specs.Values.{TakesValues};
ghost use Rattle.ang_source.specs.Sound.{SoundProgram};
ghost use Rattle.ang_typed.specs.Typed as t;
ghost use Rattle.ang_engine_build.specs.Narrowed.{narrowed};
ghost use Rattle.ang_names_known.specs.declared.names.Family.{Family};
ghost use Rattle.ang_names_known.specs.Spaces.{AreFamilies};
ghost use Rattle.ang_names_listed.specs.Sources.{Source};
ghost use Rattle.ang_names.specs.Ranks.{can_hold};
ghost use Rattle.ang_check_sound.specs.Placed.{ArePlaced, AreCounted};
ghost use Rattle.ang_engine_build.specs.Build.{Resolved, Compiled, build_of};
ghost use Rattle.ang_engine_build.specs.Declares.{DeclareSame};
ghost use Rattle.ang_engine_build.specs.Named.{HasNamesOf};
ghost use Rattle.ang_engine_build.specs.Placed.{IsPlaced};
ghost use Rattle.ang_engine_build.specs.Script.{sources_of};

/// The tree of a built program is sound over its view: its locals are alive, its functions and globals are
/// there, each call has an argument for each parameter, and each entity of the host that it names is one of the
/// view, of its kind, asked for by its driver and number. What a registry shows takes values alone, in at most
/// 1,024 entries (`Registry::seen`).
pub fn programs_are_sound()
    ensures sound { (V : RegistrationList) (sections : List (List ℕ)) (r : Resolved)
        → TakesValues V
        → length V ≤ 1024
        → build_of V sections ≡ Compiled r
        → SoundProgram V r.tree }
{}

/// The functions and globals of its tree are those of its names, each at its number, with the parameters,
/// results and types that they were declared with; and the bodies of its methods and constructors are the
/// functions at their numbers.
pub fn programs_have_their_names()
    ensures named { (V : RegistrationList) (sections : List (List ℕ)) (r : Resolved)
        → build_of V sections ≡ Compiled r
        → HasNamesOf V sections r }
{}

/// What its names declare stands at tokens of its sections, and so does each statement of its bodies, in the section of the
/// body's name; and each body has as many places as statements.
pub fn programs_have_places()
    ensures placed { (V : RegistrationList) (sections : List (List ℕ)) (r : Resolved)
        → build_of V sections ≡ Compiled r
        → ArePlaced (IsPlaced sections) r.names r.tree }
    ensures counted { (V : RegistrationList) (sections : List (List ℕ)) (r : Resolved)
        → build_of V sections ≡ Compiled r
        → AreCounted r.tree }
{}

/// Its classes and interfaces are few enough for each to have a number as a type, and what stands above one is
/// among them.
pub fn programs_have_few_families()
    ensures few { (V : RegistrationList) (sections : List (List ℕ)) (r : Resolved)
        → build_of V sections ≡ Compiled r
        → AreFamilies r.names.families }
{}

/// What a field of one of its classes can hold is of a lower rank than that class. So no store to a field of a
/// checked script finds an object of a rank that is too high.
pub fn programs_have_falling_ranks()
    ensures falls { (V : RegistrationList) (sections : List (List ℕ)) (r : Resolved)
        (ss : List Source) (i j : ℕ) (f g : Family)
        → build_of V sections ≡ Compiled r
        → sources_of 0 sections ≡ Ok ss
        → slice_get r.names.families i ≡ Some f
        → slice_get r.names.families j ≡ Some g
        → can_hold V ss i j ≡ true
        → g.rank < f.rank }
{}

/// A tree that is sound over a view is sound over what it uses of the view.
pub fn narrowed_is_sound()
    ensures sound { (V : RegistrationList) (p : t.Program) → SoundProgram V p
        → SoundProgram (narrowed V p) p }
{}

/// Over what its tree uses of the view a built module declares the same as over all of it: each function, global and import
/// has the same text, and a text declares the same function and import. So what callers name and read of a module
/// does not change by what its view leaves out. A registration list has at most 1,024 entries.
pub fn narrowing_declares_the_same()
    ensures same { (V : RegistrationList) (sections : List (List ℕ)) (r : Resolved)
        → length V ≤ 1024
        → build_of V sections ≡ Compiled r
        → DeclareSame V (narrowed V r.tree) r.names }
{}
