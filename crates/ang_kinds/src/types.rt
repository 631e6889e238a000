//! The declared types of host functions, methods, factories and properties.
use crate::{List, Prim};

/// How a declaration takes an object: the object itself, a handle `T@`, or an auto handle `T@+`,
/// whose reference the engine holds and gives up (the AngelScript manual's chapter on object handles).
#[derive(Clone, Copy)]
pub enum Shape {
    /// `T`
    ByValue,
    /// `T@`
    Handle,
    /// `T@+`
    AutoHandle,
}

/// A type as a declaration spells it.
#[derive(Drop)]
pub enum TypeRef {
    /// `void`
    Void,
    /// A primitive type.
    Plain(Prim),
    /// A registered enumeration. The parsers of declarations give a bare name as an object by value, and the registry, which
    /// knows the enumerations, makes it one of these.
    Enumeration {
        /// The enumeration's name.
        name: List<u8>,
    },
    /// An object type, or a handle to one.
    Object {
        /// The type's name.
        name: List<u8>,
        /// Whether it is the object, a handle or an auto handle.
        shape: Shape,
        /// Whether the object may not be changed: `const T`, `const T@`.
        const_object: bool,
        /// Whether the handle may not be re-seated: `T@ const`.
        const_handle: bool,
    },
}

/// How an argument is passed.
#[derive(Clone, Copy, PartialEq, Eq)]
pub enum Pass {
    /// By value.
    Value,
    /// `&in`
    RefIn,
    /// `&out`
    RefOut,
    /// `&inout`, also spelled `&`
    RefInOut,
}

/// One parameter of a declaration.
#[derive(Drop)]
pub struct Param {
    /// The type.
    pub ty: TypeRef,
    /// How the argument is passed.
    pub pass: Pass,
    /// Whether the parameter is declared `const`.
    pub read_only: bool,
    /// The name, empty where the declaration gives none.
    pub name: List<u8>,
}

/// What a declaration says: a name, a result and parameters.
///
/// A property's type is its `result`, and it has no parameters.
#[derive(Drop)]
pub struct Signature {
    /// The declared name.
    pub name: List<u8>,
    /// The type of the result, or of the property.
    pub result: TypeRef,
    /// The parameters, in the order of the declaration.
    pub params: List<Param>,
    /// Whether it is a `const` method, or a property that cannot be written.
    pub read_only: bool,
}
