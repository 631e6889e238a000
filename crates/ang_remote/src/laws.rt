//! Laws of the definitions, each the contract of a function that does nothing.
ghost use Rattle.std.specs.Prelude.{◌≡◌};
ghost use Rattle.ang_remote.specs.Wires.{Wire, core_of, AreAlike};

/// Two wires of one core are alike, so the core of a `Remote` tells its number, its live keys, and what is known of the
/// bytes of its streams.
pub fn cores_tell()
    ensures alike { (x y : Wire) → core_of x ≡ core_of y → AreAlike x y }
{}
