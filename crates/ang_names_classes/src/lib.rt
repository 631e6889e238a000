//! Resolves the headings of declarations and tables the classes: what the types of functions, imports,
//! globals and members mean, methods by their signatures, what stands above each class or interface, and
//! what it reaches (docs/LANGUAGE.md, "Names of a build").
#![tactic(auto)]

mod counting;
mod families;
mod headings;
mod held;
mod keys;
mod members;
mod placed;
mod resolved;
mod signatures;
mod slots;
mod space;
mod tables;

pub use headings::{function_with, heading_of, maker_of, parameter_role, parameters_of};
pub use held::{field_count, field_type};
pub use placed::Placed;
pub use resolved::{families_among, names_of};
pub use slots::{Signatures, slot_of};
pub use space::space_of;
pub use tables::{Tables, tables_of};
