//! Does a script's operations over the store of a run, without a stack: on the host, by real drivers
//! (calls, makings of objects, reads and writes of properties), and on globals, script objects and
//! handles.
//!
//! Each says what `perform` comes to on the values of its operands (docs/CLAIMS.md, "Operations";
//! docs/HOST.md, "Drivers"); `ang_vm_steps` has the operands on its stack.
#![tactic(auto)]

mod arguments;
mod asking;
pub mod fields;
mod fitting;
pub mod globals;
mod handing;
pub mod handles;
mod operation;
mod replies;
mod rooms;

pub use arguments::{FEW, argument_from};
pub use fitting::{
    called_among, called_at, entry_of, given_count, operands, operands_of, operation_at, receivers,
    takes_few,
};
pub use handing::key_named;
pub use operation::{ask, ask_called, ask_entry, call_entry};
