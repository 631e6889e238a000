//! Laws of the definitions, each the contract of a function that does nothing.
ghost use Rattle.std.specs.Prelude.{◌≡◌};
ghost use Rattle.ang_typed.specs.Typed.{Program};
ghost use Rattle.ang_typed.specs.Uses.{uses};
ghost use Rattle.ang_source.specs.Meaning.{codes_of, passings_in};
ghost use Rattle.ang_source.specs.Unplaced.{without_places};

/// The places of its statements play no part in what a resolved tree means: its code, how its functions take their
/// arguments, and what of the view it uses are the same without them. Traces alone tell them.
#[tactic(auto, using(crate::proofs::Unplaced::same_codes, crate::proofs::Unplaced::same_passings, crate::proofs::Unplaced::same_uses))]
pub fn places_mean_nothing()
    ensures code { (p : Program) → codes_of (without_places p) ≡ codes_of p }
    ensures passing { (p : Program) → passings_in (without_places p) ≡ passings_in p }
    ensures used { (p : Program) → uses (without_places p) ≡ uses p }
{}
