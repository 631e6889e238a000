//! The rows of denials: the hidden entries by which refused uses would have been resolved (docs/LANGUAGE.md, "Denials").
//!
//! `denied` gives them for some refused uses. No view with an entry more is made: the law of an added entry
//! (`ang_check_contest::laws::one_is_added`) says what is found there, and a function that is added is compared with those
//! that are seen once for each use (`ang_check_contest::Rivalry`). Hidden entries are found by the names by which the use could
//! mean them, and what is seen is looked at where one of them takes the arguments. What an entry is as a candidate, and what
//! comes with it, is found once for all uses; each use finds what comes with those that help it. Uses that follow one another
//! and ask the same are looked at once.
#![tactic(auto)]

mod beside;
mod helpers;
mod marked;
mod masked;
mod meanings;
mod named;
mod rows;
mod same;
mod sought;
mod takers;
mod told;

pub use ang_kinds::Denial;
pub use masked::Masked;
pub use rows::denied;
