//! What the checker promises.
ghost use Rattle.std.specs.Prelude.{◌≡◌, ℕ, ◌≤◌, List, [], All, length, Option, Some, IfOk};
ghost use Rattle.ang_view.specs.declared.entry.Entry.{Entry};
ghost use Rattle.ang_view.specs.Registration.{RegistrationList, entry_at, seen};
ghost use Rattle.ang_view.specs.Values.{TakesValues};
ghost use Rattle.ang_tree.specs.Tree.{Tree};
ghost use Rattle.ang_names_listed.specs.Sources.{Source};
ghost use Rattle.ang_names_known.specs.declared.names.Names.{Names};
ghost use Rattle.ang_names_known.specs.Spaces.{first_family};
ghost use Rattle.ang_names_listed.specs.Declarations.{declarations_of};
ghost use Rattle.ang_names_classes.specs.Resolved.{names_of};
ghost use Rattle.ang_check_context.specs.declared.scope.LocalVariable.{LocalVariable};
ghost use Rattle.ang_check_context.specs.declared.scope.Within.{Within};
ghost use Rattle.ang_check_context.specs.Scope.{BodyContext};
ghost use Rattle.ang_check_typing.specs.Typing.{typing_of};
ghost use Rattle.ang_check.specs.Bodies.{context_in, parts_of, judgements, body_refusals, program_of};
ghost use Rattle.ang_source.specs.Sound.{Sound, SoundProgram};
ghost use Rattle.ang_check_sound.specs.Views.{Entitled};
ghost use Rattle.ang_check_sound.specs.Checked.{module_in, HasNames};
ghost use Rattle.ang_check_sound.specs.Parts.{IsPartOf};
ghost use Rattle.ang_check_sound.specs.Placed.{StandsIn, ArePlaced, AreCounted};
ghost use Rattle.ang_check_sound.specs.Built.{IsBuiltContext, HasThis};
ghost use Rattle.ang_check_sound.specs.Seen.{SeesUses};

/// The resolved tree of scripts without errors, with the names that `declare` gives for them, is sound: its
/// locals are alive, its functions and globals are there, each call has an argument for each parameter, and what
/// it asks the host for is an entity of the view, of the kind that is asked: a function, a factory or a method
/// that is called, or a property, which is not written where it is declared `const`. Its classes, methods and
/// imports are there, and the body that a class has in a slot takes what the methods of the slot take. What a
/// registry shows takes values alone, in at most 1,024 entries (`Registry::seen`): no host type has the number of a
/// class.
#[tactic(auto, using(crate::proofs::Soundness::program_is_sound))]
pub fn program_is_sound()
    ensures sound { (V : RegistrationList) (names : Names) (sources : List Source)
        → TakesValues V
        → length V ≤ first_family
        → names ≡ names_of V (declarations_of sources)
        → body_refusals V names sources ≡ [] → SoundProgram V (program_of V names sources) }
{}

/// Its functions and globals are those of the names, each at its number, with the parameters, results and types
/// that they were declared with; and a method's or a constructor's body is the function at its number, which was typed of
/// its own tree.
pub fn program_has_the_names()
    ensures declared { (V : RegistrationList) (names : Names) (sources : List Source)
        → names ≡ names_of V (declarations_of sources)
        → body_refusals V names sources ≡ [] →
        HasNames V names sources (program_of V names sources) }
{}

/// Each expression that was typed is sound, where these parameters and locals are alive, over any names whose
/// methods and constructors the module has. In the body of a class `this` is the first of the locals.
#[tactic(auto, using(crate::proofs::Expressions::expression_sound))]
pub fn expression_is_sound()
    ensures sound { (s : BodyContext) (locals : List LocalVariable) (e : Tree)
        → IsBuiltContext s
        → HasThis s (length locals)
        → IfOk (typing_of s locals e)
        (λ a. Sound (module_in s.view s.names) (length locals) a.tree) }
{}

/// Of the names that `declare` gives the module has all methods and constructors, whatever is refused: so what was
/// typed in a body of them is sound.
pub fn each_context_is_built()
    ensures built { (V : RegistrationList) (values : TakesValues V) (few : length V ≤ first_family)
        (names : Names) (sources : List Source)
        → names ≡ names_of V (declarations_of sources)
        → (text : List ℕ) (within : Option Within) →
        IsBuiltContext (context_in V names text within) }
{}

/// Of the names that `declare` gives each function, method and constructor has the body that stands at its own name, and each
/// global an initializer of its own type; and each body and each initializer is judged.
#[tactic(auto, using(crate::proofs::Parts::all_belong, crate::proofs::Parts::all_judged))]
pub fn each_part_is_judged()
    ensures belong { (V : RegistrationList) (names : Names) (sources : List Source)
        → names ≡ names_of V (declarations_of sources)
        → All (IsPartOf V names) (parts_of sources) }
    ensures judged { (V : RegistrationList) (names : Names) (sources : List Source)
        → names ≡ names_of V (declarations_of sources)
        → length (judgements V names sources) ≡ length (parts_of sources) }
{}

/// No number that it uses is that of a blank: the view has each entry that the tree asks or names, and each type of the
/// host that its declarations name. So all of these are left where the view is narrowed to them.
pub fn each_use_is_seen()
    ensures seen { (V : RegistrationList) (names : Names) (sources : List Source)
        → TakesValues V
        → length V ≤ first_family
        → names ≡ names_of V (declarations_of sources)
        → body_refusals V names sources ≡ [] → SeesUses V (program_of V names sources) }
{}

/// Each function, method, constructor and global stands at a token of its section, and so does each statement of its body, in
/// the same section.
pub fn program_has_places()
    ensures placed { (V : RegistrationList) (names : Names) (sources : List Source)
        → names ≡ names_of V (declarations_of sources)
        → body_refusals V names sources ≡ [] →
        ArePlaced (StandsIn sources) names (program_of V names sources) }
{}

/// Each body has as many places as statements.
pub fn each_statement_has_a_place()
    ensures counted { (V : RegistrationList) (names : Names) (sources : List Source)
        → names ≡ names_of V (declarations_of sources)
        → body_refusals V names sources ≡ [] → AreCounted (program_of V names sources) }
{}

/// What the view of a mask has is registered, and the mask sees it.
pub fn each_entity_is_entitled()
    ensures entitled { (list : RegistrationList) (m n : ℕ) (x : Entry)
        → entry_at (seen list m) n ≡ Some x
        → Entitled list m n x }
{}
