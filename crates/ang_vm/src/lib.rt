//! The machine: whole runs of the code of script functions, over script objects, globals and drivers.
//!
//! A run is a loop over the bodies that are entered and left, and within a body a loop over its steps, in
//! which the place, the number of values in use and the ticks that are left are local values. A call and
//! a return are steps of their own, at which the loop over a body ends. Memory is wanted as a body is
//! entered, as an object is made and before the host is asked, and nowhere else.
//!
//! A step is done at once where `ang_vm_fused` can do so on the stack alone, or `ang_vm_fields` with the
//! store, and else its first instruction is done alone, by `ang_vm_steps`. The last operands of a host
//! call, which the instructions before it would hold once more and the call give up again, are not held; a
//! function, method or factory with few of them is asked without even pushing them.
#![tactic(auto)]

mod bodies;
mod calls;
mod last;
mod machines;
mod operands;
mod returns;
mod shapes;
mod start;
pub mod turns;

pub use ang_vm_stack::table::Table;
pub use last::LastRun;
pub use machines::{Machine, run, run_initializer};
