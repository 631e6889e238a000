//! What the host was asked, and which keys ended.
use crate::answer::HostReply;
use ang_kinds::{EntityNo, List, Value};

/// One host call, or the end of an object. A reply lists those of its command in order.
#[derive(Drop)]
pub enum HostEvent {
    /// A driver was asked by `make`, `call`, `read` or `write`, whatever it answered.
    Called {
        /// The name of the module whose script asked.
        caller: List<u8>,
        /// The number of the registered entry: a factory, function, method or property.
        entity: EntityNo,
        /// The driver's number in the list, from 0.
        driver: u32,
        /// The key of the object that it was asked of, if any.
        object: Option<u64>,
        /// The arguments; of a property none where it was read, and the new value where it was written.
        args: List<Value>,
        /// The driver's answer.
        reply: HostReply,
    },
    /// The last reference to an object was released.
    Ended {
        /// The driver's number in the list, from 0.
        driver: u32,
        /// The key, which is no longer live.
        key: u64,
    },
}

/// By which method of its driver a registered entry is asked, and with which number `f`. A property's host
/// call is `write` where it has an argument, and else `read`.
#[derive(Clone, Copy, PartialEq, Eq)]
pub enum Role {
    /// A factory: `make`.
    Making(u32),
    /// A function or method: `call`.
    Calling(u32),
    /// A property: `read` or `write`.
    Property(u32),
}
