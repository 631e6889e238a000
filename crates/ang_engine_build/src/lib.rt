//! Builds a module's program: from sections of text, over what the module's mask sees of a registration
//! list, to the names that they declare with their resolved tree, or to the errors (docs/CLAIMS.md,
//! "A build"); and what a program uses of the view, which is all that a built module keeps of it. `laws` has what
//! holds of each program that is built.
#![tactic(auto)]

mod build;
mod kept;
pub mod laws;
mod program;
mod section;
mod stop;

pub use build::build_sections;
pub use kept::narrow;
pub use program::{NoProgram, Program};
