//! Laws of what a build answers: what is refused and asks nothing could be helped by no hidden entry (docs/LANGUAGE.md, "Denials"),
//! and what compiles is well typed, each expression giving the kind of value that is wanted where it stands (docs/CLAIMS.md,
//! "What a script means").
#![tactic(auto)]

pub mod classes;
pub mod fields;
pub mod methods;
pub mod narrowed;
pub mod programs;
pub mod refusals;
pub mod registries;
