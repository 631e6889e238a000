//! What one place of a running script holds.

/// What a local, a parameter, a global, a field or a value in flight holds.
#[derive(Clone, Copy, PartialEq, Eq)]
pub enum Slot {
    /// A number or a truth value. A number is kept in one canonical form: the value of its type,
    /// sign-extended to 64 bits where the type is signed and zero-extended where it is not. A truth
    /// value is 1 or 0.
    Bits(u64),
    /// A handle to the script object of that number, or null, of whatever type a handle is.
    Script(Option<usize>),
    /// A handle to the object of that key of the driver of that number. Without a key it names nothing,
    /// as null does; no operation gives it.
    Host(u32, Option<u64>),
}
