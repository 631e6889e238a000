//! Why a section has no tokens.
ghost use Rattle.std.specs.Prelude.{◌≡◌};
ghost use Rattle.ang_lex.specs.declared.error.LexError.TheVariants.{Memory};

use ang_kinds::Place;
use std::alloc::{AllocError, AllocFailed};
use thiserror::Error;

/// The first fault in a section, or want of memory.
///
/// Of two faults at one place `TooLong` goes first.
#[derive(Clone, Copy, PartialEq, Eq, Debug, Error)]
pub enum LexError {
    /// The section has more than 65,536 bytes (then the place is its start, before any other
    /// fault), or a token has more than 255.
    #[error("line {}, column {}: too long", .0.line, .0.column)]
    TooLong(Place),
    /// A byte outside comments that begins no token, or a `"` that begins no text.
    #[error("line {}, column {}: no token begins with this byte", .0.line, .0.column)]
    BadByte(Place),
    /// A number of 2^64 or more, one without digits after its prefix, or one directly followed by
    /// a letter, a digit, `_` or `.`. The place is that of its first byte.
    #[error("line {}, column {}: not a number", .0.line, .0.column)]
    BadNumber(Place),
    /// A comment without its `*/`. The place is that of its `/*`.
    #[error("line {}, column {}: the comment has no end", .0.line, .0.column)]
    OpenComment(Place),
    /// A growth was refused.
    #[error("out of memory")]
    Memory,
}

impl From<AllocError> for LexError {
    ghost from_gives = { λ _ e. e ≡ Memory };

    fn from(_error: AllocError) -> LexError {
        LexError::Memory
    }
}

impl<T: Drop> From<AllocFailed<T>> for LexError {
    ghost from_gives = { λ _ e. e ≡ Memory };

    fn from(_error: AllocFailed<T>) -> LexError {
        LexError::Memory
    }
}
