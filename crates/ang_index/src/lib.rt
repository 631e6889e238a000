//! Items by name: what was put in under a scope's number and a name is found again by these two, in the order in which it
//! was put in.
//!
//! A name is looked for among all of its scope at once, by a hash, and no memory is taken for it.
#![tactic(auto)]

mod index;
mod key;

pub use index::Index;
