//! Where the statements of a body stand. It is read off the text alone, apart from their typing.
ghost use Rattle.std.specs.Prelude.{◌≡◌, ◌++◌, ◌∷◌, [], IfOk, OnOk};
ghost use Rattle.ang_tree.specs.View.{view_expr, view_option, view_start, view_stmt, view_stmts};
ghost use Rattle.ang_check_stmt.specs.Positions as spec;

use ang_kinds::{Position, position_of};
use ang_lex::Token;
use ang_tree::{Expression, ForStart, Statement, TypeName};
use std::alloc::{AllocError, Global};

/// The first token of an expression.
fn first_token(expression: &Expression) -> Token
    ensures exact { result ≡ spec.first_token (view_expr expression.now) }
{
    match expression {
        Expression::Literal(token) => *token,
        Expression::Name(name) => *name,
        Expression::Call { name, .. } => *name,
        Expression::ScopedCall { class, .. } => *class,
        Expression::ScopedName { enumeration, .. } => *enumeration,
        Expression::Cast { tokens, .. } => tokens.word,
        Expression::Convert { primitive, .. } => *primitive,
        Expression::Parenthesized { open, .. } => *open,
        Expression::Postfix { operand, .. } => first_token(operand),
        Expression::Member { object, .. } => first_token(object),
        Expression::MethodCall { object, .. } => first_token(object),
        Expression::Prefix { operator, .. } => *operator,
        Expression::Binary { left, .. } => first_token(left),
        Expression::Conditional { condition, .. } => first_token(condition),
        Expression::Assignment { target, .. } => first_token(target),
    }
}

/// The first token of a type.
fn type_token(written: &TypeName) -> Token
    ensures exact { result ≡ spec.type_token written.now }
{
    match written.constant {
        None => written.name,
        Some(constant) => constant,
    }
}

/// The first token of an expression that need not be there, and a `;`.
fn simple_token(value: &Option<Box<Expression>>, semicolon: Token) -> Token
    ensures exact { result ≡ spec.simple_token (view_option value.now) semicolon }
{
    match value {
        None => semicolon,
        Some(value) => first_token(value),
    }
}

/// The first token of what a `for` begins with.
fn start_token(start: &ForStart) -> Token
    ensures exact { result ≡ spec.start_token (view_start start.now) }
{
    match start {
        ForStart::Variables(variables) => type_token(&variables.declared_type),
        ForStart::Expression { value, semicolon } => simple_token(value, *semicolon),
    }
}

/// One more place at the end.
fn add(found: &mut Vec<Position>, token: Token) -> Result<(), AllocError>
    ensures added { OnOk result (found.new.items
        ≡ found.old.items ++ (spec.token_position token ∷ [])) }
{
    found.push(position_of(token.place))?;
    Ok(())
}

/// Where statements in turn stand, and those inside them, after the places that there are.
#[cycle(inside)]
fn add_each(found: &mut Vec<Position>, statements: &[Statement]) -> Result<(), AllocError>
    ensures added { OnOk result (found.new.items
        ≡ found.old.items ++ spec.positions_of (view_stmts statements.now)) }
{
    for statement in statements {
        add_inside(found, statement)?;
    }
    Ok(())
}

/// Where a statement stands, and those inside it, after the places that there are.
#[cycle(inside)]
fn add_inside(found: &mut Vec<Position>, statement: &Statement) -> Result<(), AllocError>
    ensures added { OnOk result (found.new.items
        ≡ found.old.items ++ spec.positions_in (view_stmt statement.now)) }
{
    match statement {
        Statement::Block(block) => {
            add(found, block.open)?;
            add_each(found, block.statements.as_slice())
        }
        Statement::Variables(variables) => add(found, type_token(&variables.declared_type)),
        Statement::Expression(simple) => {
            add(found, simple_token(&simple.value, simple.semicolon))
        }
        Statement::Break(jump) => add(found, jump.word),
        Statement::Continue(jump) => add(found, jump.word),
        Statement::Return(returned) => add(found, returned.word),
        Statement::If {
            head,
            then,
            otherwise,
        } => {
            add(found, head.word)?;
            add_inside(found, then)?;
            match otherwise {
                None => Ok(()),
                Some(otherwise) => add_inside(found, &otherwise.branch),
            }
        }
        Statement::While { head, body } => {
            add(found, head.word)?;
            add_inside(found, body)
        }
        Statement::DoWhile { body, ending } => {
            add(found, ending.word)?;
            add_inside(found, body)
        }
        Statement::For { head, body } => {
            add(found, head.word)?;
            add(found, start_token(&head.start))?;
            add_inside(found, body)
        }
    }
}

/// Where the statements of a body stand, and those inside them, in the order of the text: each at its first token, and
/// what a `for` begins with at its own.
///
/// The only error is want of memory.
pub fn positions_of(alloc: Global, statements: &[Statement]) -> Result<Vec<Position>, AllocError>
    ensures exact { IfOk result (λ v. v.items ≡ spec.positions_of (view_stmts statements.now)) }
{
    let mut found = Vec::new(alloc);
    add_each(&mut found, statements)?;
    Ok(found)
}
