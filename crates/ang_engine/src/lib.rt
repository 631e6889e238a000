//! The engine: modules of scripts, each of which sees the registrations that its mask meets.
#![tactic(auto)]

mod binding;
mod building;
mod calling;
mod checking;
mod declarations;
mod ending;
mod engine;
mod groups;
pub mod laws;
mod prepared;
mod refused;
mod replies;
mod trace;

pub use ang_engine_call::DeclarationKind;
pub use ang_engine_modules::{Command, Outcome, Refusal, Reply, TraceFrame};
pub use ang_heap::{Held, Limits};
pub use ang_host::{EventLog, EventRef, HostEvent, HostReply};
pub use ang_kinds::{Denial, Error, ErrorKind, Place};
pub use ang_registry::Registry;
pub use engine::Engine;
pub use prepared::Prepared;
pub use refused::{NewError, NewRefused};
pub use replies::Unheard;
