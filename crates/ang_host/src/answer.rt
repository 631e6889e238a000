//! What drivers answer.
use ang_kinds::Value;

/// What a driver answers where it is asked to make an object.
///
/// Each answer but `Key` ends the run with a fault: `Nothing` with `NoObject`, `Fault(n)` with `Host(n)`,
/// `Memory` with `Memory`, and `Full` with `Tally`.
#[derive(Clone, Copy, PartialEq, Eq)]
pub enum Made {
    /// The key of a new object, which was not live and is now, with one reference.
    Key(u64),
    /// No object was made.
    Nothing,
    /// A fault of the driver's own, by the driver's number for it.
    Fault(u32),
    /// A growth of memory was refused.
    Memory,
    /// A tally is full, at 2^63 - 1: nothing was done.
    Full,
}

/// What a driver answers to a call, a read or a write.
///
/// What is wanted is told by the entry's declaration. A `void` function or method wants `Void`, and so does a
/// property that is written. All others want `Gave`: of an `Int` for a signed type and of a `Uint` for an
/// unsigned one, in the type's range; of a `Bool` for `bool`; and of a `Key` for a handle, where `Key(None)`
/// is null.
///
/// A value where `Void` is wanted, `Void` where a value is wanted, and a value of another kind or outside the
/// type's range end the run with the fault `BadAnswer`. `Fault(n)` ends it with the fault `Host(n)`, `Memory`
/// with `Memory`, and `Full` with `Tally`.
#[derive(Clone, Copy, PartialEq, Eq, Debug)]
pub enum Answer {
    /// It is done, and there is no value.
    Void,
    /// It is done, with this value. A key in it is live, and comes without a reference: the engine adds one
    /// where it keeps the key.
    Gave(Value),
    /// A fault of the driver's own, by the driver's number for it.
    Fault(u32),
    /// A growth of memory was refused.
    Memory,
    /// A tally is full, at 2^63 - 1: nothing was done.
    Full,
}

/// The answer to one host call, as an event lists it.
#[derive(Clone, Copy)]
pub enum HostReply {
    /// The answer to `make`.
    Making(Made),
    /// The answer to `call`, `read` or `write`.
    Asking(Answer),
}
