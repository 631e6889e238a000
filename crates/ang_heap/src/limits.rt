//! How much scripts may hold, and how much they do.
ghost use Rattle.std.specs.Prelude.{◌≡◌, ◌-◌, ◌^◌};

/// How much scripts may hold. What would take more is refused as where there is no memory, before anything is done; what
/// is given up is never refused.
#[derive(Clone, Copy, Drop, PartialEq, Eq, Debug)]
pub struct Limits {
    /// The most events that a command may list, with the end of each live host object counted as one: no entry is
    /// asked that would have it list more.
    pub events: usize,
    /// The most slots of the script objects of all modules: an object is one slot, and each of its fields is one.
    /// No more are made before the next tick either, even if they are given up at once.
    pub slots: usize,
    /// The most host objects that may live.
    pub objects: usize,
}

impl Limits {
    /// No limits.
    pub fn none() -> Limits
        ensures events { result.events ≡ 2 ^ 64 - 1 }
        ensures slots { result.slots ≡ 2 ^ 64 - 1 }
        ensures objects { result.objects ≡ 2 ^ 64 - 1 }
    {
        Limits {
            events: usize::MAX,
            slots: usize::MAX,
            objects: usize::MAX,
        }
    }
}

/// How much scripts hold.
#[derive(Clone, Copy, Drop, PartialEq, Eq, Debug)]
pub struct Held {
    /// The slots of the script objects of all modules.
    pub slots: usize,
    /// The host objects that live.
    pub objects: usize,
}
