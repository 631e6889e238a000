//! What a module's mask hides from it is not felt: over registrations that show the same, the same
//! commands have the same replies. Below that, the numbers of script objects do not show in what the
//! bodies of sound trees do. A host reads off a reply whether it tells of a refusal, where the law does
//! not bind.
//!
//! Nor does it matter what a run does where it meets a misfit: none meets one. And the numbers and places
//! of modules do not show. Commands in turn keep what the engine asks between them.
#![tactic(auto)]

mod host;
pub mod in_turn;
pub mod laws;

pub use host::tells_of_no_refusal;
