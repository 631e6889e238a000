//! Why the machine stops.
use ang_kinds::Fault;

/// Why the machine stops at an instruction.
#[derive(Clone, Copy)]
pub enum Trap {
    /// The script faults. The values in use are still held.
    Fails(Fault),
    /// The instruction finds less than it takes, or no room. Code that was generated never does that.
    Stuck,
}
