//! Plain values that every crate of the engine speaks of: masks and entity numbers, values, operators, host
//! declarations, faults, and the errors and denials of a build.
#![tactic(auto)]

mod error;
mod fault;
mod list;
mod mask;
mod operator;
mod place;
mod position;
mod primitive;
mod types;
mod value;

pub use error::{Denial, Error, ErrorKind, Unbuilt};
pub use fault::Fault;
pub use list::List;
pub use mask::{EntityNo, Mask};
pub use operator::{Comparison, Operator};
pub use place::Place;
pub use position::{Position, position_of};
pub use primitive::Primitive as Prim;
pub use types::{Param, Pass, Shape, Signature, TypeRef};
pub use value::Value;
