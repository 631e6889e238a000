//! Declarations of a host: the texts by which functions, methods, factories and properties are
//! registered (docs/HOST.md, "Declarations").
//!
//! `specs/Grammar.antt` has the grammar as a relation between declarations and lists of tokens,
//! `specs/Signatures.antt` which of them are taken, and what signature each declares. The five parsers
//! answer by these: the signature, or which refusal.
#![tactic(auto)]

mod error;
pub mod laws;
mod parse;
mod read;
mod signatures;
mod taken;
mod tree;

pub use error::DeclError;
pub use parse::{parse_factory, parse_function, parse_method, parse_property, parse_type};
pub use tree::{HostFunction, HostHandle, HostParameter, HostParameters, HostProperty, HostType};
