//! Why nothing is read.
ghost use Rattle.std.specs.Prelude.{◌≡◌};
ghost use Rattle.ang_parse_read.specs.declared.error.ReadError.TheVariants.{Memory};

use ang_lex::Token;
use std::alloc::{AllocError, AllocFailed};

/// Why a reader has no answer.
#[derive(Clone, Copy)]
pub enum ReadError<'a> {
    /// Memory ran out.
    Memory,
    /// The tokens from the first that cannot stand there, or none after the last.
    Syntax(&'a [Token]),
    /// The bound on nested calls and on the turns of a loop was too small. It never is where the bound
    /// is above the number of tokens.
    Deep,
}

impl From<AllocError> for ReadError<'_> {
    ghost from_gives = { λ _ e. e ≡ Memory };

    fn from(_e: AllocError) -> Self {
        ReadError::Memory
    }
}

impl<T: Drop> From<AllocFailed<T>> for ReadError<'_> {
    ghost from_gives = { λ _ e. e ≡ Memory };

    fn from(_e: AllocFailed<T>) -> Self {
        ReadError::Memory
    }
}
