//! The types that arguments and parameters have.
use ang_kinds::Prim;

/// The type of an expression, or of a parameter.
///
/// Object types go by number: the numbers are the caller's, and a `Lineage` says what stands above each.
#[derive(Clone, Copy, PartialEq, Eq, Debug)]
pub enum ArgType {
    /// No value, as the result of a `void` function.
    Void,
    /// The word `null`.
    Null,
    /// A primitive type.
    Plain(Prim),
    /// An enumeration of the host, by its number.
    Enumeration {
        /// The number of its entry.
        number: u32,
    },
    /// An object.
    Object {
        /// The number of its type.
        number: u32,
        /// Whether it may not be changed: `const T`.
        read_only: bool,
    },
    /// A handle to an object.
    Handle {
        /// The number of the object's type.
        number: u32,
        /// Whether the object may not be changed through it: `const T@`.
        read_only: bool,
    },
}
