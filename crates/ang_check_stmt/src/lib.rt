//! Types statements: their resolved tree and the locals that are alive after them, or the first refusal
//! in reading order; and says where a path through a function ends, so that a function with a result is
//! known to return one (docs/LANGUAGE.md, "Statements").
#![tactic(auto)]

mod frame;
mod halt;
mod initial;
pub mod laws;
mod locals;
mod loops;
mod parts;
mod paths;
mod positions;
mod statements;
mod values;

pub use frame::{FunctionContext, Returns};
pub use initial::initializer;
pub use paths::body_ends;
pub use positions::positions_of;
pub use statements::block;
pub use values::own_object;
