//! Why a build stops where it stands.
use ang_kinds::Error;
use std::alloc::{AllocError, AllocFailed};

/// Why nothing further is read.
#[derive(Drop)]
pub enum SourceError {
    /// What is wrong, which is then the only error of the build.
    Fault(Error),
    /// A growth of memory was refused.
    Memory,
}

impl From<AllocError> for SourceError {
    ghost use Rattle.std.specs.Prelude.{◌≡◌};
    ghost use Rattle.ang_engine_build.specs.declared.stop.SourceError.TheVariants.{Memory};

    ghost from_gives = { λ _ e. e ≡ Memory };

    fn from(_error: AllocError) -> SourceError {
        SourceError::Memory
    }
}

impl<T: Drop> From<AllocFailed<T>> for SourceError {
    ghost use Rattle.std.specs.Prelude.{◌≡◌};
    ghost use Rattle.ang_engine_build.specs.declared.stop.SourceError.TheVariants.{Memory};

    ghost from_gives = { λ _ e. e ≡ Memory };

    fn from(_error: AllocFailed<T>) -> SourceError {
        SourceError::Memory
    }
}
