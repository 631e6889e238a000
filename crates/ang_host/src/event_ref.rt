//! An event as it is lent for reading.
use crate::answer::HostReply;
use ang_kinds::{EntityNo, Value};

/// One event of a log: a host call, or the end of an object.
#[derive(Clone, Copy)]
pub enum EventRef<'a> {
    /// A driver was asked by `make`, `call`, `read` or `write`, whatever it answered.
    Called {
        /// The name of the module whose script asked.
        caller: &'a [u8],
        /// The number of the registered entry: a factory, function, method or property.
        entity: EntityNo,
        /// The driver's number in the list, from 0.
        driver: u32,
        /// The key of the object that it was asked of, if any.
        object: Option<u64>,
        /// The arguments; of a property none where it was read, and the new value where it was written.
        args: &'a [Value],
        /// The driver's answer.
        reply: HostReply,
    },
    /// The last reference to an object was released.
    Ended {
        /// The driver's number in the list, from 0.
        driver: u32,
        /// The key, which is no longer live.
        key: u64,
    },
}
