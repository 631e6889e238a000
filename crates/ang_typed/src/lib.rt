//! The resolved tree of a module: what the checker gives, and all that running it needs; and what a tree uses of the
//! registration list.
//!
//! Every name stands for the number of what it means, every conversion is written out, and every
//! operator has the type in which it works, so that nothing looks a name or a type up again. A tree of
//! these types is source text with its meaning settled: it keeps the source's constructs and its order of
//! evaluation (docs/LANGUAGE.md), not its spelling.
//!
//! Numbers, in all of the tree: a *local* is numbered by how many parameters and locals of its function
//! are alive at its declaration, so parameters come first, from 0; *functions*, *globals*, *families* (classes and
//! interfaces) and *imports* are numbered from 0 in the order of their declarations, each kind for itself, and the bodies
//! of families after the functions. In types a family is 1,024 and its number, and a host type or an enumeration its
//! entry's number.
#![tactic(auto)]

mod expression;
mod program;
mod statement;
mod uses;

pub use expression::{
    HostEntity, StepKind, TypedArgument, TypedCallee, TypedExpression, TypedMember, TypedSite,
    TypedVariable,
};
pub use program::{Global, Heading, Typed, TypedClass, TypedFunction, TypedParameter};
pub use statement::{Local, TypedBlock, TypedChoice, TypedFor, TypedLoop, TypedStatement};
pub use uses::mark_uses;
