//! Where a run leaves a body: by a call, by a return, or where it ends.
ghost use Rattle.std.specs.Prelude.{◌≡◌};
ghost use Rattle.ang_vm_steps.specs.Crossings.{pause_of};

use ang_kinds::Fault;
use ang_meaning::Callee;
use ang_vm_stack::place::{Cursor, Pause};

/// Why a body goes no further at a place.
#[derive(Clone, Copy)]
pub enum Crossing {
    /// A function is entered.
    Enters(Callee),
    /// The body is left, and gives up that number of locals.
    Returns(usize),
    /// The script faults, while all values in use at the place are still held.
    Faults(Fault),
    /// An instruction finds less than it takes, or no room. Code that was generated never does that.
    Stuck,
}

/// A pause as a place and a crossing, where `here` is the place of the step that came to it.
#[inline(always)]
pub fn told(here: Cursor, pause: Pause) -> (Cursor, Crossing)
    ensures exact { pause_of result.1 result.0 ≡ pause }
{
    match pause {
        Pause::Enters(place, callee) => (place, Crossing::Enters(callee)),
        Pause::Returns(place, count) => (place, Crossing::Returns(count)),
        Pause::Faults(top, fault) => (Cursor { top, ..here }, Crossing::Faults(fault)),
        Pause::Stuck => (here, Crossing::Stuck),
    }
}
