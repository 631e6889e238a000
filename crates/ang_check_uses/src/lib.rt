//! What a use of a name means, where no local and no member of a script's class has the name.
//!
//! A *use* is a name and what is asked of it (`ang_types::Asks`). `resolution_of` says what it means over a view and the
//! declarations of the scripts, and nothing else does: denials ask it again over a larger view.
#![tactic(auto)]

mod callables;
mod choosing;
mod hosts;
mod makers;
mod picking;
mod resolving;
mod scripts;
mod standings;
mod told_hosts;
mod told_scripts;
mod uses;
mod values;

pub use callables::{CallTarget, Callables};
pub use choosing::maker_meant;
pub use hosts::{entity_of, host_methods, params_with_receiver};
pub use picking::{called_at, types_with_receiver};
pub use resolving::{resolution_of, type_named, why};
pub use scripts::functions_of;
pub use standings::{contest_of_factories, contest_of_functions, contest_of_methods};
pub use uses::{Callable, Called, EnumerationValue, Reach, Resolution};
pub use values::{takes_number, value_of};
