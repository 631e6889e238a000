//! What is asked of a name that is used, and refusals that keep it.
ghost use Rattle.std.specs.Prelude.{◌≡◌};
ghost use Rattle.ang_types.specs.Refusals.{plain_refusal};

use crate::ArgType;
use ang_kinds::{Error, List};

/// What is asked of a name where it is used, and neither a local nor a member of the script's classes has it.
/// Host types go by their numbers.
///
/// The name itself is that of the error that holds it (`Refused`).
#[derive(Drop)]
pub enum Asks {
    /// A variable: its value is read, or it is written.
    Value,
    /// A type.
    Type,
    /// An enumeration, in front of `::` and the name of a value.
    Enumeration,
    /// A call of a bare name, with arguments of these types.
    Call(List<ArgType>),
    /// An object of the host type of this number, made with arguments of these types.
    Make(u32, List<ArgType>),
    /// An object of the host type of this number, made without arguments where a variable is declared.
    Default(u32),
    /// A property of the host type of this number.
    Property(u32),
    /// A method of the host type of this number, on a receiver that is read only or not, with arguments of these types.
    Method(u32, bool, List<ArgType>),
}

/// Why a declaration, a body or an initializer is refused.
#[derive(Drop)]
pub struct Refused {
    /// The error.
    pub error: Error,
    /// What was asked of the error's name, where an entry of the host could help.
    pub asks: Option<Asks>,
    /// Whether a local, a parameter, a field or a method has the name there.
    pub is_there: bool,
}

impl Refused {
    /// An error with which no entry of the host could help. It takes no memory.
    pub fn plain(error: Error) -> Refused
        ensures exact { result ≡ plain_refusal error }
    {
        Refused {
            error,
            asks: None,
            is_there: false,
        }
    }
}
