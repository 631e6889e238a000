//! Why no engine is made.
use ang_host::Drivers;
use ang_registry::Registry;
use thiserror::Error;

/// Why no engine was made, with what was handed in, unchanged.
pub struct NewRefused {
    /// The cause.
    pub why: NewError,
    /// The registration list.
    pub registry: Registry,
    /// The drivers.
    pub drivers: Drivers,
}

/// The causes for which no engine is made.
#[derive(Clone, Copy, Debug, Error)]
pub enum NewError {
    /// An entry names a driver that is not in the list.
    #[error("an entry's driver is not in the list")]
    NoDriver,
    /// A growth of memory was refused.
    #[error("out of memory")]
    Memory,
}
