//! What a running script speaks of: slots, strict operations, host entities as code asks them, and in
//! `specs/` the world outside the locals with what each operation does to it (docs/CLAIMS.md, "The world
//! of a run" and "Operations").
#![tactic(auto)]

mod class;
mod host;
pub mod laws;
mod operation;
mod routine;
mod slot;

pub use class::{Class, ValueKind};
pub use host::{HostUse, HostValueType};
pub use operation::{Operation, Update};
pub use routine::{Callee, Passing, Routine, Spot, Target};
pub use slot::Slot;
