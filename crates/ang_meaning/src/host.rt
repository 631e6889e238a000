//! Registered entities as code asks them.
use ang_host::Role;
use ang_kinds::{List, Prim};

/// How a declared type of a host entity passes between the script and its driver.
#[derive(Clone, Copy)]
pub enum HostValueType {
    /// `void`
    Nothing,
    /// A primitive type.
    Plain(Prim),
    /// A handle to an object of the entity's driver.
    Handle,
}

/// What code has to know of a registered entity to ask it.
#[derive(Drop)]
pub struct HostUse {
    /// The driver's number in the list, from 0.
    pub driver: u32,
    /// Which method of the driver answers, and with which function number.
    pub role: Role,
    /// Whether it is asked of an object: a method, or a type's property.
    pub member: bool,
    /// The parameters' types, in order; of a property none.
    pub params: List<HostValueType>,
    /// The result's type, or the property's.
    pub result: HostValueType,
    /// Whether it is a property that is declared `const`, which is never written.
    pub read_only: bool,
}
