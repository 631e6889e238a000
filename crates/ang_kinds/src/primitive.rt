//! The primitive types.

/// A primitive type of the script language: a signed or unsigned integer of 8 to 64 bits, or `bool`.
/// `int` and `int32` are `I32`, `uint` and `uint32` are `U32`.
#[derive(Clone, Copy, PartialEq, Eq, Debug)]
pub enum Primitive {
    /// `int8`
    I8,
    /// `int16`
    I16,
    /// `int`, also spelled `int32`
    I32,
    /// `int64`
    I64,
    /// `uint8`
    U8,
    /// `uint16`
    U16,
    /// `uint`, also spelled `uint32`
    U32,
    /// `uint64`
    U64,
    /// `bool`
    Bool,
}
