//! Why the tokens of a section are no script.
ghost use Rattle.std.specs.Prelude.{◌≡◌};
ghost use Rattle.ang_parse.specs.declared.error.ParseError.TheVariants.{Memory};

use ang_kinds::{List, Place};
use std::alloc::{AllocError, AllocFailed};
use thiserror::Error;

/// Why the tokens of a section are no script, or want of memory.
#[derive(Debug, Drop, Error)]
pub enum ParseError {
    /// More than 64 of `(` and `{` are open, or more than 256 operators, and words that nest statements,
    /// stand since the last `;`, `{` or `}`: at the first token after which it is so. This is judged
    /// before the grammar.
    #[error("line {}, column {}: too deep", .0.line, .0.column)]
    TooDeep(Place),
    /// A token that no script can have there, with its text; or no token where one has to be, one
    /// column past the last, with an empty text.
    #[error("line {}, column {}: no script has this here", .0.line, .0.column)]
    Syntax(Place, List<u8>),
    /// A growth was refused.
    #[error("out of memory")]
    Memory,
}

impl From<AllocError> for ParseError {
    ghost from_gives = { λ _ e. e ≡ Memory };

    fn from(_error: AllocError) -> ParseError {
        ParseError::Memory
    }
}

impl<T: Drop> From<AllocFailed<T>> for ParseError {
    ghost from_gives = { λ _ e. e ≡ Memory };

    fn from(_error: AllocFailed<T>) -> ParseError {
        ParseError::Memory
    }
}
