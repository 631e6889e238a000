//! What a script means: `specs/` has the meaning of a resolved tree, by cases on the tree, and what a checker
//! has to promise of one (docs/CLAIMS.md, "What a script means").
#![tactic(auto)]

pub mod laws;
