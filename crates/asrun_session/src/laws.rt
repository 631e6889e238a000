//! Laws of the definitions, each the contract of a function that does nothing.
ghost use Rattle.std.specs.Prelude.{◌≡◌, ℕ, List, Ok};
ghost use Rattle.asrun_session.specs.Starts.{declared_start};
ghost use Rattle.asrun_session.specs.Whole.{Start, start_of};

/// Where a profile is not refused, a session starts with the list that its lines declare and the limits that they set. (Which
/// profiles are refused, and with what text, `start_of` says alone.)
#[tactic(auto, using(crate::proofs::Starts::declared))]
pub fn starts_are_declared()
    ensures start { (profile : List ℕ) (s : Start) →
        start_of profile ≡ Ok s → s ≡ declared_start profile }
{}
