//! Why an expression has no meaning.
ghost use Rattle.std.specs.Prelude.{◌≡◌};
ghost use Rattle.ang_check_operators.specs.Refusals as spec;
ghost use Rattle.ang_check_operators.specs.declared.refusal.TypingError.TheVariants.{Memory};

use ang_kinds::{ErrorKind, Place};
use ang_lex::Token;
use ang_types::Asks;
use std::alloc::{AllocError, AllocFailed};

/// The first refusal of an expression in reading order.
#[derive(Drop)]
pub struct TypingRefusal {
    /// What is wrong.
    pub kind: ErrorKind,
    /// Where.
    pub place: Place,
    /// The name that it is about, where it is about one.
    pub name: Option<Token>,
    /// What was asked of that name, where it is the use of the name that is refused and an entry of the host could help.
    pub asks: Option<Asks>,
    /// Whether a local, a parameter, a field or a method has that name there.
    pub is_there: bool,
}

/// Why nothing is given.
#[derive(Drop)]
pub enum TypingError {
    /// The expression is refused.
    Refused(TypingRefusal),
    /// A growth of memory was refused.
    Memory,
}

impl From<AllocError> for TypingError {
    ghost from_gives = { λ _ e. e ≡ Memory };

    fn from(_e: AllocError) -> Self {
        TypingError::Memory
    }
}

impl<T: Drop> From<AllocFailed<T>> for TypingError {
    ghost from_gives = { λ _ e. e ≡ Memory };

    fn from(_e: AllocFailed<T>) -> Self {
        TypingError::Memory
    }
}

/// A refusal without a name.
pub fn fault(kind: ErrorKind, place: Place) -> TypingError
    ensures exact { result ≡ TypingError.Refused (spec.fault kind place) }
{
    TypingError::Refused(TypingRefusal {
        kind,
        place,
        name: None,
        asks: None,
        is_there: false,
    })
}

/// A refusal about `name`, at another place.
pub fn refused_for(kind: ErrorKind, place: Place, name: &Token) -> TypingError
    ensures exact { result ≡ TypingError.Refused (spec.refused_for kind place name.now) }
{
    TypingError::Refused(TypingRefusal {
        kind,
        place,
        name: Some(*name),
        asks: None,
        is_there: false,
    })
}

/// A refusal at the place of `name`, which it is about. No entry of the host could help there.
pub fn refused(kind: ErrorKind, name: &Token) -> TypingError
    ensures exact { result ≡ TypingError.Refused (spec.refused kind name.now) }
{
    refused_for(kind, name.place, name)
}

/// The refusal of a use of `name`, at its place, with what was asked of the name, and whether a local or a member has it
/// there.
pub fn use_refused(kind: ErrorKind, name: &Token, asks: Asks, is_there: bool) -> TypingError
    ensures exact { result ≡ TypingError.Refused (spec.use_refused kind name.now asks is_there) }
{
    TypingError::Refused(TypingRefusal {
        kind,
        place: name.place,
        name: Some(*name),
        asks: Some(asks),
        is_there,
    })
}
