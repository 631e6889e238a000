//! What a call may mean, and which of it was picked.
use crate::ArgType;
use ang_kinds::{List, Pass};

/// A function that a call may mean.
#[derive(Drop)]
pub struct Candidate {
    /// The type and the passing of each parameter, in order. A method's receiver comes first, as an
    /// object of the receiver's own type, which is read only where the method is `const`.
    pub params: List<(ArgType, Pass)>,
}

/// What became of a resolution.
#[derive(Clone, Copy, PartialEq, Eq)]
pub enum Pick {
    /// The candidate at this place, from 0, is the best.
    One(usize),
    /// No candidate takes the arguments.
    NoViable,
    /// Some candidate takes the arguments, and none is the best.
    Ambiguous,
}
