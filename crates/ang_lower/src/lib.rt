//! Lowers the resolved tree to the core tree, which means the same (docs/CLAIMS.md, "What a script
//! means" and "What a body does").
//!
//! `specs/` has the core tree of each construct, and where its statements stand; `laws` says that it
//! means what the script means, and that it keeps what the generator wants of a body.
#![tactic(auto)]

mod bodies;
mod build;
mod build_expr;
mod expressions;
mod folding;
mod hosts;
pub mod laws;
mod operators;
mod positions;
mod statements;
mod variables;

pub use bodies::{lower, passings};
pub use expressions::{lower_begin, lower_boxed, lower_expression, lower_or};
pub use hosts::host_use;
pub use variables::store;
