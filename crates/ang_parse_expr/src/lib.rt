//! Reading types and expressions from the tokens of a script.
//!
//! Each reader is a function over slices that gives what the functional parser of `specs/` reads;
//! `proofs/` shows that parser to be exact against the grammar of `ang_tree`.
#![tactic(auto)]

mod build;
mod expr;
mod kinds;
mod types;
mod whole;

pub use expr::{arguments, expression, expressions};
pub use kinds::{is_assignment, is_prefix, is_type_name};
pub use types::{handle, type_name, type_named};
pub use whole::{one_tree, parse_expression};
