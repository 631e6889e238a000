//! Calls of a script's functions from outside: which function a text names, whether it can be called, and
//! what values it takes (docs/HOST.md, "Commands"); `result_of` of `specs/` says what value it gives. And
//! what a module declares, by number and text.
//!
//! A text names a function by its declaration without the body. Only primitives and enumerations by value pass
//! between a caller and a function.
#![tactic(auto)]

mod argument_slots;
mod callable;
mod declaration;
mod declarations;
mod finding;
pub mod laws;
mod texts;

pub use argument_slots::arguments;
pub use callable::is_callable;
pub use declarations::{DeclarationKind, declared_count, declared_import, write_declared};
pub use finding::{find_function, find_import};
pub use texts::{push_function, push_global};
