//! The boundary between the engine and its host: what a driver is, the list of drivers that an
//! engine is given, and the events that say what the drivers were asked.
#![tactic(auto)]

mod answer;
mod driver;
mod drivers;
mod event;
mod event_buffer;
mod event_log;
mod event_record;
mod event_ref;
mod head;
mod kept;
pub mod laws;
mod lending;
mod listed;
mod names;
mod one;

pub use answer::{Answer, HostReply, Made};
pub use driver::Driver;
pub use drivers::{Drivers, DriversError};
pub use event::{HostEvent, Role};
pub use event_buffer::EventBuffer;
pub use event_log::EventLog;
pub use event_ref::EventRef;
pub use listed::{call_listed, make_listed, read_listed, release_listed, write_listed};
