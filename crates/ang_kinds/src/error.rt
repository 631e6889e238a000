//! What a build refuses, and which hidden entities it could not use.
use crate::{EntityNo, List, Mask, Place};
use thiserror::Error;

/// What is wrong at one place of a script (docs/LANGUAGE.md).
#[derive(Clone, Copy, PartialEq, Eq, Debug)]
pub enum ErrorKind {
    /// A section has more than 65,536 bytes, or a token more than 255.
    TooLong,
    /// A byte that begins no token.
    BadByte,
    /// A number without digits, of 2^64 or more, or directly followed by a letter, digit, `_` or `.`.
    BadNumber,
    /// A comment that is not closed.
    OpenComment,
    /// More than 64 of `(` and `{` are open, or more than 256 operators stand since the last `;`, `{` or `}`.
    TooDeep,
    /// A token that no script can have there.
    Syntax,
    /// A name that is declared already.
    Duplicate,
    /// One declaration too many (4,096 functions, as many globals, 256 classes and interfaces), or
    /// member (256), or parameter (32), or local (1,024 alive at once).
    Limit,
    /// A type that neither the script declares nor the module sees.
    UnknownType,
    /// A type that cannot stand there.
    BadType,
    /// An object type where only a handle can stand.
    ByValue,
    /// A base that is no class or interface to be derived from, or that leads back to the class itself.
    BadBase,
    /// A type that an import cannot have.
    BadImport,
    /// An `override` of nothing, of a `final` method, or with another result.
    BadOverride,
    /// A class that lacks a method of an interface above it.
    MissingMethod,
    /// A class whose handle fields lead back to the class itself.
    Cyclic,
    /// A name that nothing has.
    UnknownName,
    /// No candidate of the name takes these arguments.
    NoMatch,
    /// Several candidates take these arguments, and none is the best.
    Ambiguous,
    /// A change of what is `const`.
    Const,
    /// A private member used outside its class.
    Private,
    /// A protected member used outside its class and those derived from it.
    Protected,
    /// A condition, or an operand of a logical operator, that is no `bool`.
    NotBool,
    /// An expression whose type does not convert to what is wanted.
    BadConversion,
    /// An `&out` argument that is not the name of a variable which can be written.
    BadOut,
    /// An assignment of objects or handles by value.
    NoAssign,
    /// A `break` or `continue` outside a loop.
    Jump,
    /// A type that has no constructor or factory without parameters.
    NoDefault,
    /// A path through a function with a result that does not return.
    NoReturn,
}

/// One error of a build.
#[derive(Debug, Drop)]
pub struct Error {
    /// What is wrong.
    pub kind: ErrorKind,
    /// Where.
    pub place: Place,
    /// The name or the token's text that the error is about, or empty.
    pub name: List<u8>,
}

/// Why a build gave no program.
#[derive(Debug, Drop, Error)]
pub enum Unbuilt {
    /// The scripts have these errors, in order.
    #[error("the scripts have errors")]
    Errors(List<Error>),
    /// A growth of memory was refused.
    #[error("out of memory")]
    Memory,
}

/// A hidden entity that a refused use asked for: with it, and the types that its declaration names,
/// the use would have been that entity's; or one of those types.
#[derive(Clone, Copy, Debug)]
pub struct Denial {
    /// The place of the refused use.
    pub place: Place,
    /// The hidden entity.
    pub entity: EntityNo,
    /// The mask that the entity was registered with.
    pub entity_mask: Mask,
    /// The mask that the module was built with.
    pub module_mask: Mask,
}
