//! A driver whose host is another process: each host call is a line that is written, and its answer a line that is
//! read (docs/FORMATS.md, "The conversation of asremote").
//!
//! `specs/` has the text of an ask (`Asks.antt`), what a line spells as an answer (`Said.antt`), what a line is
//! (`Lines.antt`), and how the driver's core moves (`Wires.antt`).
#![tactic(auto)]

mod answers;
mod asks;
mod exchange;
mod keys;
pub mod laws;
mod lines;
mod remote;
mod short_line;
mod writing;

pub use answers::{BAD_FORM, INPUT_ENDED, KEY_LIVE, NOT_LIVE, NOT_READ, NOT_WRITTEN, OTHER_KIND};
pub use lines::{Heard, read_line};
pub use remote::Remote;
