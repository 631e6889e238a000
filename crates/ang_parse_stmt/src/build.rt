//! Statements made of their parts.
ghost use Rattle.std.specs.Prelude.{◌≡◌, option_map, IfOk};
ghost use Rattle.ang_tree.specs.Stmt as tree;
ghost use Rattle.ang_tree.specs.View.{view_body, view_stmt, view_stmts, view_else, view_start, guarded_of, while_of, do_while_of, for_of};
ghost use Rattle.ang_parse_stmt.specs.ReadStmt as read;

use ang_lex::Token;
use ang_tree::{Block, Else, Ending, ForStart, Guard, Head, Simple, Statement};
use std::alloc::{AllocError, Global};

/// The list with one more statement at its end.
#[inline(never)]
pub(crate) fn with_statement(
    first: Vec<Statement>,
    next: Statement,
) -> Result<Vec<Statement>, AllocError>
    ensures exact { IfOk result (λ v. view_stmts v.items
        ≡ tree.added_stmt (view_stmts first.items) (view_stmt next)) }
{
    let mut found = first;
    found.push(next)?;
    Ok(found)
}

/// Variables, or an expression, as a statement.
pub(crate) fn simple(alloc: Global, start: ForStart) -> Result<Statement, AllocError>
    ensures exact { IfOk result (λ s. view_stmt s ≡ read.simple_of (view_start start)) }
{
    match start {
        ForStart::Variables(variables) => {
            let found = Box::new(alloc, variables)?;
            Ok(Statement::Variables(found))
        }
        ForStart::Expression { value, semicolon } => {
            let found = Box::new(alloc, Simple { value, semicolon })?;
            Ok(Statement::Expression(found))
        }
    }
}

/// The other branch of an `if`.
fn else_of(word: Token, branch: Box<Statement>) -> Else
    ensures exact { view_else result ≡ (word, view_stmt branch.value) }
{
    Else { word, branch }
}

/// The other branch of an `if`, in a box.
#[inline(never)]
pub(crate) fn other_branch(
    alloc: Global,
    word: &Token,
    branch: Box<Statement>,
) -> Result<Box<Else>, AllocError>
    ensures exact { IfOk result (λ e. view_else e.value ≡ (word.now, view_stmt branch.value)) }
{
    let found = Box::new(alloc, else_of(*word, branch))?;
    Ok(found)
}

/// An `if`.
pub(crate) fn conditional(
    head: Box<Guard>,
    then: Box<Statement>,
    otherwise: Option<Box<Else>>,
) -> Statement
    ensures exact { view_stmt result
        ≡ guarded_of head.value (view_stmt «then».value)
        (option_map (λ e. view_else e.value) otherwise) }
{
    Statement::If {
        head,
        then,
        otherwise,
    }
}

/// A `while`.
pub(crate) fn while_loop(head: Box<Guard>, body: Box<Statement>) -> Statement
    ensures exact { view_stmt result ≡ while_of head.value (view_stmt body.value) }
{
    Statement::While { head, body }
}

/// A `do`.
pub(crate) fn do_loop(body: Box<Statement>, ending: Box<Ending>) -> Statement
    ensures exact { view_stmt result ≡ do_while_of (view_stmt body.value) ending.value }
{
    Statement::DoWhile { body, ending }
}

/// A `for`.
pub(crate) fn for_loop(head: Box<Head>, body: Box<Statement>) -> Statement
    ensures exact { view_stmt result ≡ for_of head.value (view_stmt body.value) }
{
    Statement::For { head, body }
}

/// A block.
pub(crate) fn whole_block(alloc: Global, found: Block) -> Result<Statement, AllocError>
    ensures exact { IfOk result (λ s. view_stmt s ≡ tree.block (view_body found)) }
{
    let found = Box::new(alloc, found)?;
    Ok(Statement::Block(found))
}
