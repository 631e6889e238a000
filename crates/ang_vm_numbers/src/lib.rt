//! Numbers of the script's types, computed on the 64 bits in which they are kept, and values on their way
//! between scripts and drivers.
//!
//! Each function gives exactly what the definitions of `ang_meaning` say (docs/LANGUAGE.md, "Values of operators";
//! the AngelScript manual, "Expressions"). None takes memory.
#![tactic(auto)]

mod changes;
mod comparisons;
mod conversions;
mod division;
mod operators;
mod shifts;
mod values;

pub use changes::{Updated, change, change_slot};
pub use comparisons::{compare, deny};
pub use conversions::{complement, convert, is_signed, negate};
pub use operators::work;
pub use values::{slot_from, value_from};
