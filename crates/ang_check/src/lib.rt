//! The checker: a build's resolved tree or its errors, and the denials of a refused build.
//!
//! The bodies of functions, methods and constructors and the initializers of globals are judged one by
//! one: each gives its resolved tree, or its first refusal in reading order (docs/LANGUAGE.md,
//! "Statements").
#![tactic(auto)]

mod checking;
mod constructors;
mod denying;
mod found;
mod functions;
mod judging;
pub mod laws;
mod members;
mod parts;
mod program;

pub use ang_kinds::{Denial, Error, ErrorKind, Unbuilt};
pub use checking::check;
pub use constructors::{BaseCall, constructor_typing, implicit_super};
pub use denying::denials;
pub use functions::{
    function_typing, global_typing, member_parameters, method_typing, parameters_of,
};
pub use judging::{CheckedBuild, judge};
