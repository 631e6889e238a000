//! Where a run stands, why a body pauses, and how a run ends.
use ang_kinds::Fault;
use ang_meaning::{Callee, Routine, Slot};

/// Where a body stands.
#[derive(Clone, Copy, PartialEq, Eq)]
pub struct Cursor {
    /// The number of its next instruction.
    pub at: usize,
    /// How many values are in use.
    pub top: usize,
    /// The ticks that are left.
    pub ticks: u64,
}

/// The running body, and where it stands.
#[derive(Clone, Copy)]
pub struct Activation {
    /// The body.
    pub body: Routine,
    /// How high the stack may stand while it runs.
    pub room: usize,
    /// Where it stands.
    pub place: Cursor,
}

/// Why a body pauses.
#[derive(Clone, Copy)]
pub enum Pause {
    /// Its next instruction calls a function.
    Enters(Cursor, Callee),
    /// Its next instruction leaves it, and gives up that number of locals.
    Returns(Cursor, usize),
    /// The script faults while that number of values is in use, all of which are still held.
    Faults(usize, Fault),
    /// An instruction finds less than it takes, or no room. Code that was generated never does that.
    Stuck,
}

/// How a run ends.
#[derive(Clone, Copy)]
pub enum RunResult {
    /// With a value and the ticks that are left.
    Gives(Slot, u64),
    /// With a fault, after which all that it held has been given up.
    Stops(Fault),
    /// An instruction finds less than it takes, or no room. Code that was generated never does that.
    Stuck,
}
