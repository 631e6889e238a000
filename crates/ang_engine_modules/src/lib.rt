//! The modules of an engine and what each command does to them: their code and the entities of their
//! views in one table, by number, calls of their functions, the runs of their initializers, the
//! commands with their replies, and what is done by the commands that neither build nor run
//! (docs/CLAIMS.md, "A run of a built module" and "A command").
#![tactic(auto)]

mod binding;
mod builds;
mod classes;
mod command;
mod entities;
mod events;
mod failed;
mod faults;
mod globals;
mod groups;
mod last;
pub mod laws;
mod links;
mod module;
mod module_places;
mod modules;
mod reply;
mod runs;
mod tables;
mod traced;
mod whole;

pub use binding::{import_of, unbind};
pub use builds::build_at;
pub use command::{Command, budget_of};
pub use events::no_events;
pub use failed::{FailedModule, KeptFailure, forget_failed, put_failed};
pub use faults::{is_fault, may_have_run};
pub use last::{end_last, frame_count, trace_at};
pub use module::{MOST_MODULES, Module, ModuleList};
pub use module_places::{add_module, add_section, find, put_globals, remove_module, set_mask};
pub use modules::{LoadedModule, Modules};
pub use reply::{Outcome, Refusal, Reply, ended};
pub use traced::TraceFrame;
pub use whole::WholeModule;
