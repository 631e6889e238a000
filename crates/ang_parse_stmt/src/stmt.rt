//! Reading statements, after which other tokens may stand.
//!
//! `limit` bounds the nested calls of expressions and the turns of each loop, `depth` the nested calls
//! of statements. One more than the number of tokens is always enough for both.
//!
//! The readers of a statement's parts call one another, and are proved together. Those that other crates
//! call stand in front of them, so that they are proved apart.
ghost use Rattle.std.specs.Prelude.{◌≡◌};
ghost use Rattle.ang_parse_read.specs.Gives.{Gives};
ghost use Rattle.ang_tree.specs.View.{view_stmt, view_stmts, view_body};
ghost use Rattle.ang_parse_stmt.specs.ReadStmt as read;

use crate::nested;
use ang_lex::Token;
use ang_parse_read::ReadError;
use ang_tree::{Block, Statement};
use std::alloc::Global;

/// The most statements that stand one inside the other, an `else if` as one inside its `if`. A build of
/// them takes less than 6 MiB of stack, whatever stands in the innermost (docs/SECURITY.md, "The stack").
const LEVELS: usize = 4000;

/// Reads a statement.
///
/// `limit` bounds the nested calls of expressions and the turns of each loop, `depth` the nested calls
/// of statements. A number above that of `tokens` is always enough for both.
///
/// # Errors
///
/// `Syntax` with the tokens from the first that cannot stand there, or with none where they end too
/// soon. `Deep` where `depth` or `limit` is too small, as a `depth` of 0 always is. `Memory` where a growth
/// was refused, or at a statement that stands inside 4,000 others.
pub fn statement(
    alloc: Global,
    tokens: &[Token],
    depth: usize,
    limit: usize,
) -> Result<(Statement, &[Token]), ReadError<'_>>
    ensures reads { Gives (λ x. (view_stmt x.0, x.1.now)) result
        (read.stmt depth limit tokens.now) }
{
    nested::statement(alloc, tokens, depth, LEVELS, limit)
}

/// Reads statements, up to a right brace, which is left. There may be none.
///
/// `limit` bounds the nested calls of expressions and the turns of each loop, `depth` the nested calls
/// of statements. A number above that of `tokens` is always enough for both.
///
/// # Errors
///
/// `Syntax` with the tokens from the first that cannot stand there, or with none where they end too
/// soon. `Deep` where `depth` or `limit` is too small, as a `limit` of 0 always is. `Memory` where a growth
/// was refused, or at a statement that stands inside 4,000 others.
pub fn statements(
    alloc: Global,
    tokens: &[Token],
    depth: usize,
    limit: usize,
) -> Result<(Vec<Statement>, &[Token]), ReadError<'_>>
    ensures reads { Gives (λ x. (view_stmts x.0.items, x.1.now)) result
        (read.statements (read.stmt depth limit) limit tokens.now) }
{
    nested::statements(alloc, tokens, depth, LEVELS, limit)
}

/// Reads the statements of a block and the right brace, after the left one `open`, which is none of
/// `tokens`.
///
/// `limit` bounds the nested calls of expressions and the turns of each loop, `depth` the nested calls
/// of statements. A number above that of `tokens` is always enough for both.
///
/// # Errors
///
/// `Syntax` with the tokens from the first that cannot stand there, or with none where they end too
/// soon. `Deep` where `depth` or `limit` is too small, as a `limit` of 0 always is. `Memory` where a growth
/// was refused, or at a statement that stands inside 4,000 others.
pub fn block<'a>(
    alloc: Global,
    open: Token,
    tokens: &'a [Token],
    depth: usize,
    limit: usize,
) -> Result<(Block, &'a [Token]), ReadError<'a>>
    ensures reads { Gives (λ x. (view_body x.0, x.1.now)) result
        (read.a_body (read.stmt depth limit) limit «open» tokens.now) }
{
    nested::block(alloc, open, tokens, depth, LEVELS, limit)
}
