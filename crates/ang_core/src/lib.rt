//! The core tree: a script's bodies in a few forms, with every name a number and every conversion written
//! out. In `specs/` stands what such a body does, by cases on the tree (docs/CLAIMS.md, "What a body does").
#![tactic(auto)]

mod tree;

pub use tree::{CoreBody, CoreExpression, CoreStatement};
