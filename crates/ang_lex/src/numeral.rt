//! What a number is.

use ang_kinds::Prim;

/// The value of a number, and its type.
#[derive(Clone, Copy, PartialEq, Eq, Debug)]
pub struct Number {
    /// In base 10 `int`, `int64` or `uint64`, in another base `uint` or `uint64`.
    pub ty: Prim,
    /// What the digits stand for in their base. It has no sign and is in the range of `ty`.
    pub value: u64,
}
