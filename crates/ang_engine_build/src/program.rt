//! What a build gives.
use ang_kinds::{Denial, Error, List};
use ang_names_known::Names;
use ang_typed::Typed;
use thiserror::Error;

/// What a build gives: the names that the scripts declare, and their resolved tree.
///
/// The functions and globals of the tree are those of the names, each at its number
/// ([`crate::laws::programs_have_their_names`]). The tree is sound over the view that it was built
/// over ([`crate::laws::programs_are_sound`]).
#[derive(Drop)]
pub struct Program {
    /// What the scripts declare, with what its types mean.
    pub names: Names,
    /// The bodies of the functions and the initializers of the globals, with each name as what it stands for.
    pub tree: Typed,
}

/// Why sections build to no program.
#[derive(Debug, Drop, Error)]
pub enum NoProgram {
    /// The sections have errors.
    #[error("the sections have errors")]
    Errors {
        /// What is refused, in order of sections and text.
        errors: List<Error>,
        /// The hidden entities by which it would have been resolved (docs/LANGUAGE.md, "Denials"). None where a section
        /// is not read.
        denials: List<Denial>,
    },
    /// A growth of memory was refused.
    #[error("out of memory")]
    Memory,
}
