//! Instructions of the stack machine. In `specs/` stands what each of them does: the code's own meaning
//! (docs/CLAIMS.md, "Code").
#![tactic(auto)]

mod instruction;
pub mod laws;

pub use instruction::{Frame, Instruction, Mark, RoutineCode};
