//! The text of replies: each event, error, denial and outcome on a line of its own; and of traces
//! (docs/HOST.md, "The program").
#![tactic(auto)]

mod denials;
mod event_line;
mod reply;
mod trace;

pub use denials::DenialLine;
pub use reply::{push_error, push_event, push_outcome, push_reply};
pub use trace::push_trace_frame;
