//! What the checker promises of the tree that it gives (docs/CLAIMS.md, "What a script means"): `laws` has it,
//! and `specs/` what it is said of.
#![tactic(auto)]

pub mod laws;
