//! Laws of every run of code: each host call is by the module that runs, of an entity that it sees, as
//! that entity is declared; counts of objects are those of the places that hold them; a run has one end;
//! the numbers of objects do not show; and each module has as many globals after a run as before
//! (docs/CLAIMS.md, "Code").
//!
//! `specs/` says what that means; `laws` says that it holds. It is a crate of its own for the gate's
//! sake: the machine need not wait for it.
#![tactic(auto)]

pub mod laws;
