//! What holds of compiled modules.
ghost use Rattle.std.specs.Prelude.{◌≡◌, ℕ, List, [], None, Some, length, map as list_map, slice_get, slice_index_or};
ghost use Rattle.std.specs.declared.alloc.Global.{Global};
ghost use Rattle.std.specs.declared.vec.Vec.{Vec};
ghost use Rattle.ang_view.specs.Registration.{RegistrationList};
ghost use Rattle.ang_typed.specs.declared.program.Global.{Global as Variable};
ghost use Rattle.ang_typed.specs.Typed.{Expr, Program};
ghost use Rattle.ang_typed.specs.View.{view_global};
ghost use Rattle.ang_meaning.specs.Environment.{Environment};
ghost use Rattle.ang_core.specs.Sound.{LinksFit};
ghost use Rattle.ang_lower.specs.Positions.{of_module};
ghost use Rattle.ang_code.specs.Machine.{Texts};
ghost use Rattle.ang_code.specs.declared.instruction.RoutineCode.{RoutineCode};
ghost use Rattle.ang_gen.specs.Programs.{texts_of};
ghost use Rattle.ang_gen.specs.Compiled.{IsCompiled};
ghost use Rattle.ang_gen.specs.Marks.{AreAmong};
ghost use Rattle.ang_gen.specs.Initialized.{initialized_from};
ghost use Rattle.ang_source.specs.Meaning.{Codes, codes_in, initializers_from, nothing, of_global};
ghost use Rattle.ang_gen.specs.Behaves.{HasCodes, IsModule, RunsCode, sources_of, BehavesAsSource, NeverStuck};

/// Where each module is sound over what it sees of the host and runs its own compiled code, and imports and
/// methods lead where they may, the machine ends as the source means: for every function, budget, arguments
/// and inputs, and for every initializer. The modules are given by their numbers, or as a list.
pub fn behaves()
    ensures same { (z : Environment) (view : ℕ → RegistrationList) (program : ℕ → Program)
        (code : Texts)
        → ((m : ℕ) → IsModule z m (view m) (program m) code)
        → LinksFit z
        → BehavesAsSource z (sources_of program) code }
    ensures listed { (z : Environment) (view : ℕ → RegistrationList) (programs : List Program)
        (code : Texts)
        → ((m : ℕ) → IsModule z m (view m) (slice_index_or programs m nothing) code)
        → LinksFit z
        → BehavesAsSource z (codes_in programs) code }
{}

/// The texts of several modules have each module's codes under its number.
pub fn texts_there()
    ensures there { (modules : List (Vec RoutineCode Global)) (m : ℕ)
        (codes : Vec RoutineCode Global)
        → slice_get modules m ≡ Some codes
        → HasCodes m codes.items (texts_of modules) }
{}

/// In compiled modules of which no import is bound, imports and methods lead where they may: a class of a
/// sound tree has methods that fit their slots.
pub fn unbound_imports_fit()
    ensures of_modules { (z : Environment) (view : ℕ → RegistrationList) (program : ℕ → Program)
        (code : Texts)
        → ((m : ℕ) → IsModule z m (view m) (program m) code)
        → ((m i : ℕ) → z.linked m i ≡ None)
        → LinksFit z }
{}

/// Code that behaves as its source is never stuck: no instruction of a run finds less on the stack than it
/// takes, or no room for what it pushes.
pub fn never_stuck()
    ensures never { (z : Environment) (sources : Codes) (code : Texts)
        → BehavesAsSource z sources code
        → NeverStuck z code }
{}

/// Where all modules run well-formed code, and imports and methods lead where they may, no run is ever lost: no
/// instruction finds less on the stack than it takes, or no room for what it pushes, and no place has no
/// instruction.
pub fn no_run_is_lost()
    ensures never { (z : Environment) (codes : ℕ → List RoutineCode) (code : Texts)
        → ((m : ℕ) → RunsCode z m (codes m) code)
        → LinksFit z
        → NeverStuck z code }
{}

/// A mark says from which instruction on the code is that of a statement, and where that statement stands. Each mark in the
/// code of a module's body stands where one of that body's statements does.
pub fn marks_are_of_statements()
    ensures among { (p : Program) (codes : List RoutineCode) (n : ℕ) (code : RoutineCode)
        → IsCompiled p codes
        → slice_get codes n ≡ Some code
        → AreAmong (slice_index_or (of_module p) n []) code.marks.items }
{}

/// The global that a trace names for an initializer is the one that this initializer sets; and each initializer has one.
#[tactic(auto, using(crate::proofs::Initialized::sets_named, crate::proofs::Initialized::as_many))]
pub fn initializers_are_named()
    ensures named { (gs : List Variable) (n i : ℕ)
        → slice_get (initialized_from 0 gs) n ≡ Some i
        → (e : Expr) × (slice_get (initializers_from 0 (list_map view_global gs)) n
        ≡ Some (of_global i e)) }
    ensures counted { (gs : List Variable)
        → length (initialized_from 0 gs) ≡ length (initializers_from 0 (list_map view_global gs)) }
{}
