//! The registry: what a host offers to scripts, entry by entry, and what a module of a mask sees of it.
#![tactic(auto)]

mod declaration;
mod drivers;
mod error;
mod groups;
mod lookup;
mod overload;
mod refusal;
mod registry;
mod settle;

pub use ang_view::{Entry, EntryKind, Group, View};
pub use drivers::have_drivers;
pub use error::{GroupError, RegError};
pub use registry::Registry;
