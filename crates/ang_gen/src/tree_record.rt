//! A resolved tree that only clauses read.
ghost use Rattle.std.specs.Prelude.{◌≡◌};
ghost use Rattle.std.specs.Borrow.{ftrue};
ghost use Rattle.ang_typed.specs.declared.program.Typed.{Typed};
ghost use Rattle.ang_typed.specs.contracts.program.Typed as typed;

use ang_typed as tree;
use std::marker::{Model, PhantomData};

/// A module's resolved tree, for clauses alone: it takes no memory and no time.
#[derive(Drop)]
pub struct TreeRecord {
    marker: PhantomData<u8>,
    pub ghost tree: { Typed } by { typed.the_row.coded },
}

impl Model for TreeRecord {
    ghost also_owns = { λ _. ftrue };
}

impl TreeRecord {
    /// This tree.
    pub fn of(_tree: &tree::Typed) -> TreeRecord
        ensures same { result.tree ≡ _tree.now }
    {
        TreeRecord {
            marker: PhantomData,
        }
    }
}
