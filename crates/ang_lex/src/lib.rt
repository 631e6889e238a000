//! The tokens of a script (docs/LANGUAGE.md, "Tokens"), and which of them are operators between two operands.
//!
//! `lex` cuts a section into its tokens, or answers its first fault. Its contract cites `tokens_of`
//! (specs/Tokens.antt), which computes them. What they are in the manual's words say `IsSection` and
//! `IsFirstFault` (specs/Cuts.antt), and `laws::one_reading` says that both are the same.
#![tactic(auto)]

mod bytes;
mod error;
mod gap;
pub mod laws;
mod lexer;
mod names;
mod numbers;
mod numeral;
mod operators;
mod piece;
mod scan;
mod shape;
mod token;
mod words;

pub use error::LexError;
pub use lexer::lex;
pub use names::is_name;
pub use numbers::number;
pub use numeral::Number;
pub use operators::{
    BinaryOperator, IntegerOperator, OperatorForm, binary_operator, compound_operator,
};
pub use token::{Span, Token, TokenKind, text_of};
