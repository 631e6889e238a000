//! Runs of typed programs: a script meets no misfit (docs/CLAIMS.md, "What a script means"). `laws` has it, and `specs/` what it is said of.
#![tactic(auto)]

pub mod laws;
