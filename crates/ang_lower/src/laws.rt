//! What holds of lowered bodies, whatever made them.
ghost use Rattle.std.specs.Prelude.{◌≡◌, ◌≤◌, ℕ, List, Some, Contains, length, slice_get};
ghost use Rattle.ang_kinds.specs.declared.position.Position.{Position};
ghost use Rattle.ang_typed.specs.Typed.{Program, Stmts, statement_count};
ghost use Rattle.ang_meaning.specs.declared.routine.Routine.{Routine};
ghost use Rattle.ang_meaning.specs.World.{World};
ghost use Rattle.ang_meaning.specs.Environment.{Environment};
ghost use Rattle.ang_core.specs.Meaning.{Bodies};
ghost use Rattle.ang_core.specs.Meaning as core;
ghost use Rattle.ang_core.specs.Sound.{LinksFit, AreSound};
ghost use Rattle.ang_source.specs.Meaning.{Codes, codes_in, routine};
ghost use Rattle.ang_source.specs.Meaning as source;
ghost use Rattle.ang_source.specs.Sound.{Module, SoundProgram};
ghost use Rattle.ang_view.specs.Registration.{RegistrationList};
ghost use Rattle.ang_meaning.specs.declared.host.HostUse.{HostUse};
ghost use Rattle.ang_source.specs.Hosts.{HasView, IsOfView};
ghost use Rattle.ang_lower.specs.Lowered.{lowered_all, lowered_block};
ghost use Rattle.ang_lower.specs.Positions.{core_of, in_blocks};
ghost use Rattle.ang_lower.specs.Same.{AreLowered, AreSoundIn, AreCodes, HasProgram, MeansSame, AllMeanSame, TakeNothing};

/// A build's initializers in turn end as their sources say, if each of them does.
#[tactic(auto, using(crate::proofs::Follows::all_same))]
pub fn initializers_same()
    ensures same { (z : Environment) (bodies : Bodies) (codes : Codes) (gs : List Routine) (t : ℕ)
        (w : World)
        → AllMeanSame z bodies codes gs
        → core.initialized_all z bodies gs t w ≡ source.initialized_all z codes gs t w }
{}

/// Where the bodies of all modules are lowered from sound code, and imports and methods lead where they may, every
/// body ends as its source says: for every budget, arguments and world, called by a command or run as an
/// initializer. So do initializers in turn.
pub fn everywhere_same()
    ensures each { (z : Environment) (M : ℕ → Module) (bodies : Bodies) (codes : Codes)
        → ((m : ℕ) → AreLowered z m (M m) bodies codes)
        → LinksFit z
        → (g : Routine) → MeansSame z bodies codes g }
    ensures initializers { (z : Environment) (M : ℕ → Module) (bodies : Bodies) (codes : Codes)
        → ((m : ℕ) → AreLowered z m (M m) bodies codes)
        → LinksFit z
        → (gs : List Routine) (t : ℕ) (w : World) → TakeNothing z gs
        → core.initialized_all z bodies gs t w ≡ source.initialized_all z codes gs t w }
{}

/// A method that a class of a sound tree has in a slot takes what the methods of the slot take.
pub fn methods_fit()
    ensures fit { (V : RegistrationList) (z : Environment) (m : ℕ) (p : Program)
        → SoundProgram V p
        → HasProgram z m p
        → (n s : ℕ) (g : Routine) → z.method m n s ≡ Some g → z.params g ≡ z.slot m s }
{}

/// Where the bodies of a module are lowered from sound code, and the module sees what its view has, each body
/// keeps what the generator wants of it.
pub fn sound_in_module()
    ensures sound { (z : Environment) (m : ℕ) (M : Module) (bodies : Bodies) (codes : Codes)
        → AreLowered z m M bodies codes
        → HasView z m M.view
        → AreSoundIn z m bodies }
{}

/// Where the bodies of each module keep what the generator wants of them, and imports and methods lead where
/// they may, all bodies do.
pub fn sound_together()
    ensures sound { (z : Environment) (bodies : Bodies)
        → ((m : ℕ) → AreSoundIn z m bodies)
        → LinksFit z
        → AreSound z bodies }
{}

/// The code of several modules has each of them under its number.
#[tactic(auto, using(crate::proofs::Modules::codes_there))]
pub fn codes_there()
    ensures there { (ps : List Program) (m : ℕ) (p : Program) → slice_get ps m ≡ Some p →
        AreCodes m p (codes_in ps) }
{}

/// What a module asks is an entry of its view, which is no type, asked as that is declared.
#[tactic(auto, using(crate::proofs::Views::seen_in))]
pub fn each_use_is_of_the_view()
    ensures seen { (z : Environment) (m : ℕ) (V : RegistrationList) (e : ℕ) (u : HostUse)
        → HasView z m V
        → z.host m e ≡ Some u
        → IsOfView V e u }
{}

/// Each core statement that stands in a block of a lowered body has a place, and no other.
#[tactic(auto, using(crate::proofs::Placing::stmts_in))]
pub fn each_has_a_place()
    ensures places { (ss : Stmts) (n : ℕ) (ps : List Position)
        → length (core_of ss ps) ≡ in_blocks (lowered_block (lowered_all n ss)) }
{}

/// And that is one of the resolved body's, where there is one for each of its statements.
pub fn no_place_is_made_up()
    ensures among { (ss : Stmts) (ps : List Position) (q : Position)
        → statement_count ss ≤ length ps
        → Contains (core_of ss ps) q → Contains ps q }
{}
