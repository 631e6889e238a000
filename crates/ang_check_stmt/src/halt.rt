//! Why the typing of statements stops, in few bytes: each function between a statement and the
//! statements in it holds such a result, so a nesting takes less of the process's stack.
ghost use Rattle.std.specs.Prelude.{◌≡◌};
ghost use Rattle.ang_check_stmt.specs.Halts as spec;
ghost use Rattle.ang_check_stmt.specs.declared.halt.Halt.TheVariants.{Memory};

use ang_check_operators::{TypingRefusal, TypingError};
use std::alloc::{AllocError, AllocFailed, Global};

/// As `TypingError`, with the refusal in a box.
#[derive(Drop)]
pub enum Halt {
    /// The first refusal.
    Refused(Box<TypingRefusal>),
    /// A growth of memory was refused.
    Memory,
}

impl From<AllocError> for Halt {
    ghost from_gives = { λ _ e. e ≡ Memory };

    fn from(_e: AllocError) -> Self {
        Halt::Memory
    }
}

impl<T: Drop> From<AllocFailed<T>> for Halt {
    ghost from_gives = { λ _ e. e ≡ Memory };

    fn from(_e: AllocFailed<T>) -> Self {
        Halt::Memory
    }
}

/// The same with the refusal in a box; `Memory` where there is none for the box.
#[inline(never)]
pub fn halt_of(alloc: Global, stop: TypingError) -> Halt
    ensures boxed { spec.IsBoxed result stop }
{
    match stop {
        TypingError::Memory => Halt::Memory,
        TypingError::Refused(refusal) => match Box::new(alloc, refusal) {
            Ok(refusal) => Halt::Refused(refusal),
            Err(_) => Halt::Memory,
        },
    }
}

/// The same with the refusal out of its box.
pub fn stop_of(halt: Halt) -> TypingError
    ensures exact { result ≡ spec.stop_of halt }
{
    match halt {
        Halt::Memory => TypingError::Memory,
        Halt::Refused(refusal) => TypingError::Refused(Box::into_inner(refusal)),
    }
}
