//! The machine's instructions, each as a function.
//!
//! The machine's stack is a slice with a number that says how much of it is in use, and room for a whole body is
//! taken as the body is entered, so that no instruction takes memory for it. Each instruction is a small
//! function whose contract is that instruction's clause in `ang_code`'s definition of the machine, over the
//! store of `ang_heap`: script objects, globals and drivers.
//!
//! What a run looks up between two bodies stands here too: the function that a call enters, whether its parameters
//! have their objects, room for its values, and what is known of a body.
#![tactic(auto)]

pub mod answers;
pub mod arms;
mod asks;
pub mod callees;
pub mod crossing;
pub mod dispatch;
mod doing;
mod fields;
mod globals;
mod handles;
pub mod jumps;
pub mod lookups;
pub mod many;
pub mod objects;
mod operations;
pub mod room;
pub mod swaps;
