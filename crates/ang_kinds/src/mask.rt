//! Access masks, and the numbers of registered entities.
ghost use Rattle.std.specs.Prelude.{◌≡◌, IsTrue, ◌↔◌};
ghost use Rattle.ang_kinds.specs.Masks.{Meets, meets};

/// An access mask: 32 bit positions, of which each stands for one group of scripts, as the host chooses.
///
/// A registered entity carries the mask that was the default when it was registered, and a module
/// carries the mask that it was made with (the AngelScript manual's chapter on access masks).
#[derive(Clone, Copy, PartialEq, Eq, Debug)]
pub struct Mask(pub u32);

impl Mask {
    /// Whether some bit position is 1 in both masks: then a module of the one mask may use an entity
    /// of the other. The order of the two does not matter, and the mask 0 meets none.
    pub fn meets(self, other: Mask) -> bool
        ensures exact { IsTrue result ↔ Meets self.0 other.0 }
        ensures test { result ≡ meets self.0 other.0 }
    {
        self.0 & other.0 != 0
    }
}

/// The number of an entry in the registration list, from 0 in the order of registration.
#[derive(Clone, Copy, PartialEq, Eq, Debug)]
pub struct EntityNo(pub u32);
