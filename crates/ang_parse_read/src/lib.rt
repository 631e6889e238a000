//! Reading from the front of a list of tokens: why nothing is read, the readers of single tokens, and that
//! of how a parameter is passed.
//!
//! `specs/` has the functional parser's combinators, and what it means that code gives what such a
//! parser reads; `proofs/` has their laws, which the parsers above share.
#![tactic(auto)]

mod error;
mod reference;
mod single;

pub use error::ReadError;
pub use reference::perhaps_reference;
pub use single::{
    a_colon, a_from, a_greater, a_left_brace, a_left_paren, a_less, a_name, a_right_brace,
    a_right_paren, a_semicolon, a_text, a_while, perhaps_const, perhaps_name,
};
