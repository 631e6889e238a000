//! Where a path through a function ends.
ghost use Rattle.std.specs.Prelude.{◌≡◌};
ghost use Rattle.ang_tree.specs.View.{view_expr, view_stmt, view_stmts, view_body};
ghost use Rattle.ang_check_stmt.specs.Paths as spec;

use ang_lex::TokenKind;
use ang_tree::{Block, Expression, Statement};

fn is_true(kind: TokenKind) -> bool
    ensures exact { result ≡ spec.is_true kind }
{
    matches!(kind, TokenKind::True)
}

/// Whether an expression is the word `true` alone.
fn is_true_word(expression: &Expression) -> bool
    ensures exact { result ≡ spec.is_true_word (view_expr expression.now) }
{
    match expression {
        Expression::Literal(token) => is_true(token.kind),
        Expression::Name(_)
        | Expression::Call { .. }
        | Expression::ScopedCall { .. }
        | Expression::ScopedName { .. }
        | Expression::Cast { .. }
        | Expression::Convert { .. }
        | Expression::Parenthesized { .. }
        | Expression::Postfix { .. }
        | Expression::Member { .. }
        | Expression::MethodCall { .. }
        | Expression::Prefix { .. }
        | Expression::Binary { .. }
        | Expression::Conditional { .. }
        | Expression::Assignment { .. } => false,
    }
}

#[cycle(breaks)]
fn some_break(statements: &[Statement]) -> bool
    ensures exact { result ≡ spec.some_break (view_stmts statements.now) }
{
    for statement in statements {
        if breaks(statement) {
            return true;
        }
    }
    false
}

/// Whether a statement has a `break` that leaves the loop around it.
#[cycle(breaks)]
fn breaks(statement: &Statement) -> bool
    ensures exact { result ≡ spec.breaks (view_stmt statement.now) }
{
    match statement {
        Statement::Block(block) => some_break(block.statements.as_slice()),
        Statement::Break(_) => true,
        Statement::If {
            then,
            otherwise,
            ..
        } => match otherwise {
            None => breaks(then),
            Some(otherwise) => breaks(then) || breaks(&otherwise.branch),
        },
        Statement::Variables(_)
        | Statement::Expression(_)
        | Statement::Continue(_)
        | Statement::Return(_)
        | Statement::While { .. }
        | Statement::DoWhile { .. }
        | Statement::For { .. } => false,
    }
}

#[cycle(ends)]
fn some_ends(statements: &[Statement]) -> bool
    ensures exact { result ≡ spec.some_ends (view_stmts statements.now) }
{
    for statement in statements {
        if ends(statement) {
            return true;
        }
    }
    false
}

/// Whether each path through a statement ends in it.
#[cycle(ends)]
fn ends(statement: &Statement) -> bool
    ensures exact { result ≡ spec.ends (view_stmt statement.now) }
{
    match statement {
        Statement::Block(block) => some_ends(block.statements.as_slice()),
        Statement::Return(_) => true,
        Statement::If {
            then,
            otherwise,
            ..
        } => match otherwise {
            None => false,
            Some(otherwise) => ends(then) && ends(&otherwise.branch),
        },
        Statement::While { head, body } => is_true_word(&head.condition) && !breaks(body),
        Statement::Variables(_)
        | Statement::Expression(_)
        | Statement::Break(_)
        | Statement::Continue(_)
        | Statement::DoWhile { .. }
        | Statement::For { .. } => false,
    }
}

/// Whether each path through a function's body ends in it: at `return`, at an `if` whose both branches end, at a
/// block of which some statement ends, at `while (true)` without a `break` of its own. It takes no memory.
pub fn body_ends(body: &Block) -> bool
    ensures exact { result ≡ spec.body_ends (view_body body.now) }
{
    some_ends(body.statements.as_slice())
}
