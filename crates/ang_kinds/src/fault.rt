//! What ends a running script before its end.
use thiserror::Error;

/// Why a script's run was cut short. What the script changed stands, and all that it held is given up.
#[derive(Clone, Copy, PartialEq, Eq, Debug, Error)]
pub enum Fault {
    /// A null handle where an object was needed.
    #[error("null handle")]
    Null,
    /// An integer division or remainder by 0.
    #[error("division by zero")]
    DivideByZero,
    /// The least value of a signed type divided by -1, or its remainder.
    #[error("overflow in a division")]
    DivideOverflow,
    /// A call of an imported function that is not bound.
    #[error("unbound import")]
    Unbound,
    /// The command's budget of ticks is used up.
    #[error("the budget is used up")]
    Budget,
    /// More than 200 calls of script functions stood one inside the other.
    #[error("calls nested too deep")]
    Depth,
    /// The driver answered with this fault of its own.
    #[error("fault {0} of the host")]
    Host(u32),
    /// The driver's answer was not of the declared type and range.
    #[error("an answer of the host that is not of the declared type")]
    BadAnswer,
    /// A factory of the host made no object.
    #[error("no object was made")]
    NoObject,
    /// Want of memory, in the engine or in the driver.
    #[error("out of memory")]
    Memory,
    /// A driver's counter of references or host calls stands at 2^63-1.
    #[error("a tally is full")]
    Tally,
}
