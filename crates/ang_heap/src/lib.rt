//! What lies outside the stack of a run: script objects with their counts, the globals, the drivers with
//! what they keep, and the events. In `specs/` stands the world that it is (docs/CLAIMS.md, "The world of
//! a run"), as a function of it, so that nothing is kept beside the drivers' own counts.
#![tactic(auto)]

mod globals;
mod heap;
mod hosts;
mod limits;
mod numbers;
mod objects;
mod store;

pub use ang_meaning::Slot;
pub use globals::Globals;
pub use heap::{Heap, Tally};
pub use limits::{Held, Limits};
pub use store::{Store, begin_command, give, held, hold, made_with, set_limits};
