//! Types an operator over typed operands: the type of the whole and its resolved tree, or why the
//! operands can't stand there (docs/LANGUAGE.md, "Expressions").
//!
//! An operand is an expression that was typed, with what it is fit for. Each function takes the operands
//! of one operation, as they come from left to right, and answers the whole as an operand again, or the
//! first refusal in the order of the text. No name is looked up here.
#![tactic(auto)]

mod assignments;
mod conditionals;
mod fitting;
mod literals;
mod one_operand;
mod operand;
mod refusal;
mod trees;
mod two_operands;

pub use assignments::assignment;
pub use conditionals::conditional;
pub use fitting::{fit, identity, integer, number, object_of, seat, site_in, target, truth};
pub use literals::literal;
pub use one_operand::{convert, group, postfix, prefix};
pub use operand::{HandleSite, Operand, SiteUse, boxed, plain_operand, reading};
pub use refusal::{TypingError, TypingRefusal, fault, refused, refused_for, use_refused};
pub use two_operands::binary;
