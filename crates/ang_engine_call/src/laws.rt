//! Laws of the definitions, each the contract of a function that does nothing.
ghost use Rattle.std.specs.Prelude.{◌≡◌, ◌↔◌, ◌<◌, ◌≤◌, ℕ, List, [], Some, None, true, length, slice_get};
ghost use Rattle.ang_view.specs.Registration.{RegistrationList};
ghost use Rattle.ang_names_known.specs.declared.names.Names.{Names};
ghost use Rattle.ang_names_known.specs.declared.names.ScriptFunction.{ScriptFunction};
ghost use Rattle.ang_names_known.specs.Lookup.{same_heading};
ghost use Rattle.ang_names_listed.specs.Declarations.{declarations_of};
ghost use Rattle.ang_names.specs.Phases.{refusals_of};
ghost use Rattle.ang_names_classes.specs.Resolved.{names_of};
ghost use Rattle.ang_names_listed.specs.Sources.{Source};
ghost use Rattle.ang_engine_call.specs.Headings.{heading_of};
ghost use Rattle.ang_engine_call.specs.Named.{IsNamedBy, function_named_by};

/// The test by which headings are compared says whether they are equal.
pub fn headings_are_compared()
    ensures same { (f g : ScriptFunction) →
        (same_heading f g ≡ true) ↔ (heading_of f ≡ heading_of g) }
{}

/// The number that a text names is that of a function with the heading of the function that the text
/// declares. No function in front of it has that heading; and where no number is named none has it.
pub fn first_of_its_heading()
    ensures found { (V : RegistrationList) (names : Names) (decl : List ℕ) (n : ℕ) →
        function_named_by V names decl ≡ Some n → IsNamedBy V names decl n }
    ensures first { (V : RegistrationList) (names : Names) (decl : List ℕ) (n k : ℕ) →
        function_named_by V names decl ≡ Some n → k < n → ¬ IsNamedBy V names decl k }
    ensures only { (V : RegistrationList) (names : Names) (decl : List ℕ) (k : ℕ) →
        function_named_by V names decl ≡ None → ¬ IsNamedBy V names decl k }
{}

/// No two functions of a build, of which no phase refuses a declaration, have one heading, over a view with
/// no more entries than a registration list has. So the function with the heading of the one that a text
/// declares is the one that the text names.
pub fn one_of_each_heading()
    ensures apart { (V : RegistrationList) (sources : List Source) (n k : ℕ)
        (f g : ScriptFunction) →
        length V ≤ 1024 → refusals_of V sources ≡ [] →
        slice_get (names_of V (declarations_of sources)).functions n ≡ Some f →
        slice_get (names_of V (declarations_of sources)).functions k ≡ Some g →
        heading_of f ≡ heading_of g → n ≡ k }
    ensures named { (V : RegistrationList) (sources : List Source) (names : Names) (decl : List ℕ)
        (n : ℕ) →
        length V ≤ 1024 → refusals_of V sources ≡ [] →
        names ≡ names_of V (declarations_of sources) →
        IsNamedBy V names decl n → function_named_by V names decl ≡ Some n }
{}
