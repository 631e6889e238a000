//! What the expressions of a body stand in, and what is typed of them without a look at another
//! expression: names, values of enumerations, fields and properties, and casts (docs/LANGUAGE.md, "Expressions").
#![tactic(auto)]

mod casts;
mod context;
mod members;
mod names;
mod operands;
mod receiver;
mod scope;
mod values;

pub use casts::{cast, cast_type};
pub use context::{
    BodyContext, access_error, best_maker, is_there, may_reach, resolved, type_or_refusal,
};
pub use members::member_of;
pub use names::named;
pub use operands::types_of;
pub use receiver::{Receiver, own_type, receiver_within, this, this_operand};
pub use scope::{LocalVariable, Locals, Within};
pub use values::scoped_name;
