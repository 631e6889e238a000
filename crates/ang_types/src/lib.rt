//! Conversions between types, and which of several candidates a call means.
//!
//! `common` is the type in which two integers meet in an operation, `rank` says whether one type
//! converts to another by itself and what that costs, and `resolve` picks the best of the candidates
//! of a name. None of them takes memory. `push_ranks` finds the ranks of one argument for many
//! parameters out. `Asks` is what a use asks of its name.
#![tactic(auto)]

mod arg_type;
mod asks;
mod candidate;
mod integers;
pub mod laws;
mod lineage;
mod marks;
mod overloads;
mod ranks;
mod rows;

pub use arg_type::ArgType;
pub use asks::{Asks, Refused};
pub use candidate::{Candidate, Pick};
pub use integers::common;
pub use lineage::Lineage;
pub use overloads::resolve;
pub use ranks::{rank, rank_of_argument};
pub use rows::push_ranks;
