//! What holds of definitions that contracts of traces cite.
ghost use Rattle.std.specs.Prelude.{◌≡◌, ◌≤◌, ℕ, Some, Contains, length, slice_get};
ghost use Rattle.ang_kinds.specs.declared.place.Place.{Place};
ghost use Rattle.ang_kinds.specs.declared.position.Position.{Position};
ghost use Rattle.ang_typed.specs.Typed.{TypedFunction, statement_count};
ghost use Rattle.ang_typed.specs.View.{view_typed};
ghost use Rattle.ang_engine_modules.specs.declared.modules.LoadedModule.{LoadedModule};
ghost use Rattle.ang_engine_modules.specs.Traced.{StandsIn, place_in};

/// A place of a statement of a body is one that the tree lists for this function, where it lists one for each of its
/// statements; an initializer has none.
pub fn statements_are_of_the_tree()
    ensures functions { (l : LoadedModule) (n section : ℕ) (p : Place) (f : TypedFunction)
        → slice_get (view_typed l.tree).functions n ≡ Some f
        → statement_count f.body ≤ length f.positions
        → StandsIn l n section p
        → (q : Position) × Contains f.positions q × (p ≡ place_in section q) }
    ensures initializers { (l : LoadedModule) (n section : ℕ) (p : Place)
        → length l.tree.functions ≤ n
        → StandsIn l n section p → ⊥ }
{}
