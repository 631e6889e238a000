//! Why a text is no host declaration.
ghost use Rattle.std.specs.Prelude.{◌≡◌};
ghost use Rattle.ang_decl.specs.Parsed.{error_of_lex, error_of_read};
ghost use Rattle.ang_decl.specs.declared.error.DeclError.TheVariants.{Memory};

use ang_lex::LexError;
use ang_parse_read::ReadError;
use std::alloc::{AllocError, AllocFailed};
use thiserror::Error;

/// Why a text is no host declaration (docs/HOST.md, "Declarations").
#[derive(Clone, Copy, PartialEq, Eq, Debug, Error)]
pub enum DeclError {
    /// The text has no tokens, or they are no declaration of the form that the call takes.
    #[error("no such declaration")]
    Syntax,
    /// The text is a declaration of that form, with a type or a way of passing that hosts can't use.
    #[error("a declaration that hosts can't use")]
    Unsupported,
    /// A growth of memory was refused.
    #[error("out of memory")]
    Memory,
}

impl From<LexError> for DeclError {
    ghost from_gives = { λ e d. d ≡ error_of_lex e };

    fn from(error: LexError) -> DeclError {
        match error {
            LexError::Memory => DeclError::Memory,
            LexError::TooLong(_)
            | LexError::BadByte(_)
            | LexError::BadNumber(_)
            | LexError::OpenComment(_) => DeclError::Syntax,
        }
    }
}

impl From<ReadError<'_>> for DeclError {
    ghost from_gives = { λ e d. d ≡ error_of_read e };

    fn from(error: ReadError<'_>) -> DeclError {
        match error {
            ReadError::Memory => DeclError::Memory,
            ReadError::Syntax(_) | ReadError::Deep => DeclError::Syntax,
        }
    }
}

impl From<AllocError> for DeclError {
    ghost from_gives = { λ _ e. e ≡ Memory };

    fn from(_error: AllocError) -> DeclError {
        DeclError::Memory
    }
}

impl<T: Drop> From<AllocFailed<T>> for DeclError {
    ghost from_gives = { λ _ e. e ≡ Memory };

    fn from(_error: AllocFailed<T>) -> DeclError {
        DeclError::Memory
    }
}
