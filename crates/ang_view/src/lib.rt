//! Registration lists, entry by entry, and what a module of a mask sees of one.
//!
//! A list has an entry or a blank at each number. The view of a mask blanks what the mask does not see and keeps
//! the numbers; `laws::types_are_seen` says that the types which a seen declaration names are seen. The calls that
//! add entries are `ang_registry`'s.
#![tactic(auto)]

mod by_name;
mod copy;
mod entry;
mod group;
pub mod laws;
mod lookup;
mod view;

pub use entry::{Entry, EntryKind};
pub use group::{Group, is_in, is_named_outside};
pub use lookup::{FoundType, find_type};
pub use view::{
    View, belongs_to, hidden_of, kept_of, mentions_type, names_entry, spells, view_of, whole_of,
};
