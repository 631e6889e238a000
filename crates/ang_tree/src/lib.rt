//! The trees of a script, as it is written: a node keeps its tokens whole, with the signs and the
//! parentheses, so that a tree spells its section's tokens one by one.
//!
//! The grammar is that of docs/LANGUAGE.md; `specs/` has it as a relation between trees and lists of
//! tokens. These types alone do not keep a tree within the grammar: the parser's answers are.
#![tactic(auto)]

mod declaration;
mod expression;
mod statement;
mod type_name;

pub use declaration::{
    BaseName, Class, Constructor, Declaration, FieldName, Fields, Function, Import, Interface,
    InterfaceMethod, Member, Method, Parameter, Parameters, Reference, Script, SuperCall,
};
pub use expression::{Argument, Arguments, CastTokens, Expression};
pub use statement::{
    Assigned, Block, Else, Ending, ForStart, Guard, Head, Initializer, Jump, Returned, Simple,
    Statement, Variable, Variables,
};
pub use type_name::{Handle, TypeName};
