//! Script classes as code makes their objects.
use ang_kinds::List;

/// What a field of a script object, or a global, holds while nothing was stored in it.
#[derive(Clone, Copy)]
pub enum ValueKind {
    /// A number or truth value: 0 or false.
    Number,
    /// An object or a handle, of a script class or a host type: null.
    Handle,
}

/// What code has to know of a script class to make its objects and to test them.
#[derive(Drop)]
pub struct Class {
    /// The class's number in its module.
    pub number: usize,
    /// A field holds objects of a lower rank only: the rank falls along all that a class's fields can
    /// reach, so that objects do not hold one another in a circle.
    pub rank: usize,
    /// What its fields are, those of the base class first, in order of declaration.
    pub fields: List<ValueKind>,
    /// The numbers of the classes and interfaces that it is or stands under.
    pub under: List<usize>,
}
