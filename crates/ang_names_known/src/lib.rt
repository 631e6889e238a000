//! Looks up what scripts declare, by name and by type, with the kinds of all parameters by number.
//!
//! `Names` is what `ang_names` makes of the scripts: lists, which contracts see, and an index of them.
//! All look-ups in it stand here, so that each of them has one contract (docs/LANGUAGE.md, "Names of a
//! build"). Those in what a module sees of the host stand in `ang_check_contest`.
#![tactic(auto)]

mod beside;
mod borrowed;
mod crowded;
mod family_types;
mod found;
mod functions;
mod indexed;
mod kinds;
mod known;
mod lineage;
mod lookup;
mod members;
mod methods;
mod names;
mod numbering;
mod places;
mod space;

pub use borrowed::BorrowedText;
pub use family_types::{FIRST_FAMILY, family_of_type, family_type};
pub use found::FoundMethods;
pub use functions::parameters_of;
pub use indexed::IndexedNames as Names;
pub use kinds::{KindRows, KindTable};
pub use known::KnownFunctions;
pub use lineage::lineage_of;
pub use lookup::{
    default_of, is_read_only, is_under, may_use, same_call, same_heading, same_parameters,
    same_type,
};
pub use methods::FoundMethod;
pub use names::{
    Access, Default, Family, Field, FoundField, Names as NameLists, Origin, ScriptConstructor,
    ScriptFunction, ScriptGlobal, ScriptMethod, ScriptParameter, Written,
};
pub use numbering::receiver_number;
pub use space::{Named, Space, enumeration_number, family_or_host, type_number};
