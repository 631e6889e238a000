//! What a use of a name means.
use ang_check_contest::SeenProperty;
use ang_kinds::{EntityNo, ErrorKind};
use ang_names_known::Access;
use ang_typed::{HostEntity, TypedCallee, TypedVariable};
use ang_types::{ArgType, Candidate};

/// What a call runs.
#[derive(Clone, Copy)]
pub enum Called {
    /// A function of the scripts.
    Script(TypedCallee),
    /// A function, a factory or a method of the host.
    Host(HostEntity),
    /// A constructor of the script's class of this number, or none where the class and those above it have none.
    Makes(usize, Option<usize>),
}

/// From where a member may be used.
#[derive(Clone, Copy)]
pub struct Reach {
    /// The family that declares the member.
    pub owner: usize,
    /// Who may use it.
    pub access: Access,
}

/// A function that a call can mean, with its types.
#[derive(Drop)]
pub struct Callable {
    /// What runs.
    pub called: Called,
    /// The type of what the call gives.
    pub result: ArgType,
    /// Its parameters; a method's receiver is the first one.
    pub candidate: Candidate,
    /// From where it may be called, where it is a script's method.
    pub reach: Option<Reach>,
}

/// A value of an enumeration of the host.
#[derive(Clone, Copy)]
pub struct EnumerationValue {
    /// Its entry.
    pub entity: EntityNo,
    /// The number of its enumeration.
    pub enumeration: u32,
    /// Its number.
    pub number: i32,
}

/// What a use means.
#[derive(Drop)]
pub enum Resolution {
    /// A variable, its type, and whether it can't be assigned.
    Variable(TypedVariable, ArgType, bool),
    /// An object property of the host.
    Property(SeenProperty),
    /// A call of a function.
    Call(Callable),
    /// The object type of this number.
    Type(u32),
    /// The enumeration of this number: as a type, in front of `::`, or where it is called to convert an integer.
    Enumeration(u32),
    /// A value of an enumeration.
    Value(EnumerationValue),
    /// Nothing, and why.
    Refused(ErrorKind),
}
