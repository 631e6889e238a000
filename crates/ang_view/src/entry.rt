//! The entries of a registration list.

use ang_kinds::{EntityNo, Mask, Signature};

/// What an entry of the registration list is.
#[derive(Clone, Copy, PartialEq, Eq)]
pub enum EntryKind {
    /// A type of host objects.
    HostType,
    /// A factory, which makes objects of its own type.
    Factory,
    /// A method of its own type.
    Method,
    /// An object property of its own type.
    Property,
    /// A global function.
    Function,
    /// A global property.
    Global,
    /// An enumeration, which belongs to no driver.
    Enumeration,
    /// A value of its own enumeration, with its number. It has the mask of that enumeration.
    EnumValue(i32),
}

/// One entry of the registration list. Its name is its signature's.
///
/// A field that an entry's kind has no use for is 0, `Void`, empty, false or none.
#[derive(Drop)]
pub struct Entry {
    /// What it is.
    pub kind: EntryKind,
    /// The type that a factory, method or object property belongs to, and the enumeration of a value.
    pub owner: Option<EntityNo>,
    /// The driver that answers for it, from 0 to 63.
    pub driver: u32,
    /// The driver's own number for it.
    pub f: u32,
    /// Its declaration. A property has its type as `result`, and is `read_only` where it is declared `const`.
    pub signature: Signature,
    /// The mask that it was registered with, which is not 0.
    pub mask: Mask,
}
