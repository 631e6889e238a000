//! Laws of the definitions, each the contract of a function that does nothing.
ghost use Rattle.std.specs.Prelude.{ℕ, Bool, true, false, ◌≡◌, ◌<◌, ◌↔◌};
ghost use Rattle.ang_names_graph.specs.Graphs.{leads, IsWithin, Way, reach_of};

/// The closure holds what some way leads to, and nothing else.
pub fn closure_is_least()
    ensures least { (e : ℕ → ℕ → Bool) (n : ℕ) → IsWithin e n → (i j : ℕ) →
        (leads e n i j ≡ true) ↔ ((m : ℕ) × Way e m i j) }
{}

/// Where one place leads to another that does not lead to itself, it leads to more places than that one.
pub fn rank_falls()
    ensures falls { (e : ℕ → ℕ → Bool) (n : ℕ) → IsWithin e n → (i j : ℕ) →
        leads e n i j ≡ true → leads e n j j ≡ false → reach_of e n j < reach_of e n i }
{}
