//! Why a registration is refused.
ghost use Rattle.std.specs.Prelude.{◌≡◌};
ghost use Rattle.ang_registry.specs.declared.error.RegError.TheVariants.{Memory};
ghost use Rattle.ang_registry.specs.declared.error.GroupError.TheVariants as group;

use std::alloc::{AllocError, AllocFailed};
use thiserror::Error;

/// Why a registration is refused (docs/HOST.md, "Registration").
///
/// Where several apply, the first of them in this order is answered. `Memory` may come instead of any of
/// them, and instead of success.
#[derive(Clone, Copy, PartialEq, Eq, Debug, Error)]
pub enum RegError {
    /// 1,024 entries are there, blanks included, or a declaration has more than 32 parameters.
    #[error("too many entries or parameters")]
    Limit,
    /// The default mask is 0, so that no module could ever see the entry.
    #[error("the default mask is 0")]
    EmptyMask,
    /// The text is not a declaration of the call's form, or is one that hosts can't use (with a reference, an
    /// object by value or an enumeration with `@`, say); the name of a type, an enumeration or a value is no
    /// identifier; or a factory gives another type than its own.
    #[error("not a declaration that the call takes")]
    BadDeclaration,
    /// The type or enumeration that the entry is to belong to, or one that its declaration names, is not
    /// registered.
    #[error("an unknown type")]
    UnknownType,
    /// The driver's number is above 63; the call registers a type, and the driver has one already; or the
    /// declaration names a type of another driver.
    #[error("the wrong driver")]
    WrongDriver,
    /// The list has an entry that this one can't stand beside, whatever the masks of the two.
    ///
    /// Types, enumerations, functions and global properties share one space of names, and so do the methods
    /// and properties of one type, and the values of one enumeration. But functions of one name can stand
    /// side by side where their parameters differ, and methods where their parameters or their `const` do.
    /// Factories of one type have to differ in their parameters, whatever their names. Names of parameters
    /// don't count.
    #[error("the name is taken")]
    Duplicate,
    /// The allocator refused memory.
    #[error("out of memory")]
    Memory,
}

impl From<AllocError> for RegError {
    ghost from_gives = { λ _ e. e ≡ Memory };

    fn from(_error: AllocError) -> RegError {
        RegError::Memory
    }
}

impl<T: Drop> From<AllocFailed<T>> for RegError {
    ghost from_gives = { λ _ e. e ≡ Memory };

    fn from(_error: AllocFailed<T>) -> RegError {
        RegError::Memory
    }
}

/// Why a group can't be begun, ended or removed (docs/HOST.md, "Groups").
///
/// Where several apply, the first of them in this order is answered. `Memory` comes from `begin_group` alone, where it may
/// come instead of any other answer.
#[derive(Clone, Copy, PartialEq, Eq, Debug, Error)]
pub enum GroupError {
    /// A group is begun and not ended: groups don't nest.
    #[error("a group is open")]
    GroupOpen,
    /// The name is no identifier.
    #[error("not an identifier")]
    BadName,
    /// There is a group of that name.
    #[error("the name is taken")]
    Duplicate,
    /// 64 groups are there.
    #[error("too many groups")]
    Limit,
    /// No group is open; or none of that name is there and ended.
    #[error("no such group")]
    NoGroup,
    /// An entry outside the group names a type or an enumeration of it.
    #[error("the group is in use")]
    InUse,
    /// The allocator refused memory.
    #[error("out of memory")]
    Memory,
}

impl From<AllocError> for GroupError {
    ghost from_gives = { λ _ e. e ≡ group.Memory };

    fn from(_error: AllocError) -> GroupError {
        GroupError::Memory
    }
}

impl<T: Drop> From<AllocFailed<T>> for GroupError {
    ghost from_gives = { λ _ e. e ≡ group.Memory };

    fn from(_error: AllocFailed<T>) -> GroupError {
        GroupError::Memory
    }
}
