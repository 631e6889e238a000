//! Operators between two values, as the resolved tree, the code and the machine have them.

/// An operator on two integers of one type, with a result of that type (the AngelScript manual, "Expressions").
#[derive(Clone, Copy, PartialEq, Eq)]
pub enum Operator {
    /// `+`, which wraps.
    Add,
    /// `-`, which wraps.
    Subtract,
    /// `*`, which wraps.
    Multiply,
    /// `/`, which truncates toward zero. A divisor 0 is the fault `DivideByZero`, and the least value of a
    /// signed type divided by -1 is `DivideOverflow`.
    Divide,
    /// `%`, the remainder of `/`, which has the sign of the first operand, with the faults of `/`.
    Remainder,
    /// `&`, bit by bit.
    BitAnd,
    /// `|`, bit by bit.
    BitOr,
    /// `^`, bit by bit.
    BitXor,
    /// `<<`. The count is taken modulo the type's width, as for all shifts.
    ShiftLeft,
    /// `>>`, which fills with zeros.
    ShiftRight,
    /// `>>>`, which copies the sign; of an unsigned type it fills with zeros.
    ShiftRightArithmetic,
}

/// A comparison of two values of one type.
#[derive(Clone, Copy)]
pub enum Comparison {
    /// `==`, of integers or of two `bool`.
    Equal,
    /// `!=`, and `xor` of two `bool`.
    NotEqual,
    /// `<`, of integers alone, as are those that follow.
    Less,
    /// `<=`, of integers alone.
    LessEqual,
    /// `>`, of integers alone.
    Greater,
    /// `>=`, of integers alone.
    GreaterEqual,
}
