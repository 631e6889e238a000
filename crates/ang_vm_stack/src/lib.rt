//! What the machine stands on: the slice that is the stack, where a run stands, why an instruction stops
//! it, the table of all modules' code, and that code cut into steps.
//!
//! A step names the instructions that stand at a place and are done at once, such as a test of two locals
//! and its jump; `sequence` in `specs/` says for each step which these are. Steps are read off a text as a
//! body's code is loaded. Single instructions are done in `ang_vm_steps`, whole steps in `ang_vm_fused`.
#![tactic(auto)]

pub mod body;
pub mod fuse;
pub mod kind;
pub mod known;
mod look;
pub mod methods;
mod pairs;
pub mod place;
pub mod stack;
pub mod step;
pub mod stop;
pub mod table;
pub mod usual;
