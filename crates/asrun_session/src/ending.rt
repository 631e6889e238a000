//! How a session ends.
ghost use Rattle.std.specs.Prelude.{◌≡◌};

use std::alloc::AllocError;
use thiserror::Error;

/// How a session ended that was read and written without a fault.
#[derive(Clone, Copy, PartialEq, Eq)]
pub enum Status {
    /// Every command ended in `ok`.
    AllOk,
    /// Some command did not end in `ok`.
    SomeRefused,
    /// A line of another form or refused, a text above its limit, or drivers that were not taken.
    BadInput,
    /// A growth of memory was refused, outside a command.
    Memory,
}

/// A fault of a reader or of the writer.
#[derive(Clone, Copy, PartialEq, Eq, Debug, Error)]
pub enum IoFault {
    /// A text could not be read whole.
    #[error("read fault")]
    Read,
    /// A text could not be written whole.
    #[error("write fault")]
    Write,
}

/// What stops a session before its end.
#[derive(Clone, Copy, Debug, Error)]
pub enum SessionError {
    /// A fault of a reader or of the writer.
    #[error(transparent)]
    Fault(IoFault),
    /// A growth of memory was refused.
    #[error("no memory")]
    Memory,
}

impl From<AllocError> for SessionError {
    ghost use Rattle.asrun_session.specs.declared.ending.SessionError.TheVariants.{Memory};

    ghost from_gives = { λ _ e. e ≡ Memory };

    fn from(_e: AllocError) -> SessionError {
        SessionError::Memory
    }
}

impl From<IoFault> for SessionError {
    ghost use Rattle.asrun_session.specs.declared.ending.SessionError.TheVariants.{Fault};

    ghost from_gives = { λ fault e. e ≡ Fault fault };

    fn from(fault: IoFault) -> SessionError {
        SessionError::Fault(fault)
    }
}
