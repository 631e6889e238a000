//! The typing of expressions: what each use of a name means, what type each expression has, and its
//! resolved tree; or the first refusal in reading order (docs/LANGUAGE.md, "Expressions").
#![tactic(auto)]

mod arguments;
mod called;
mod calls;
mod enumerated;
mod expressions;
mod made;
mod methods;
mod object_methods;

pub use arguments::arguments_for;
pub use expressions::{typing, typing_of_all};
pub use made::{default_typing, made_typing};
