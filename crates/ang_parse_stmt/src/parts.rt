//! Parts of statements, between what is read and the statement that it makes, and how they are let go.
//!
//! A `?` after an owned part has the part's drop written out where it stands, and the function's frame has
//! room for it while the statements inside are read. As a call that is never inlined, the drop takes of the
//! stack only while it runs.

use ang_tree::{Guard, Head, Statement};

/// A word, `"(" assign ")"`, and a statement.
#[derive(Drop)]
pub(crate) struct Guarded {
    /// The word and the condition.
    pub(crate) head: Box<Guard>,
    /// The statement after them.
    pub(crate) statement: Box<Statement>,
}

/// Lets a word and a condition go.
#[inline(never)]
pub(crate) fn let_go_of_guard(_guard: Box<Guard>) {}

/// Lets a word, a condition and a statement go.
#[inline(never)]
pub(crate) fn let_go_of_guarded(_guarded: Guarded) {}

/// Lets the head of a `for` go.
#[inline(never)]
pub(crate) fn let_go_of_head(_head: Box<Head>) {}
