//! What statements use.
ghost use Rattle.std.specs.Prelude.{◌≡◌, map as list_map};
ghost use Rattle.ang_typed.specs.View.{view_block, view_choice, view_for, view_local, view_loop, view_stmt, view_stmts};
ghost use Rattle.ang_typed.specs.Marked as spec;

use crate::statement::{Local, TypedBlock, TypedChoice, TypedFor, TypedLoop, TypedStatement};
use crate::uses::expressions::{mark_each, mark_expression, mark_option};
use crate::uses::marks::mark_type;

/// Marks what locals use.
fn mark_locals(marks: &mut Vec<bool>, locals: &[Local])
    ensures exact { marks.new.items
        ≡ spec.each_marks spec.local_marks (list_map view_local locals.now) marks.old.items }
{
    for local in locals {
        mark_local(marks, local);
    }
}

/// Marks what a local uses.
fn mark_local(marks: &mut Vec<bool>, local: &Local)
    ensures exact { marks.new.items
        ≡ spec.local_marks (view_local local.now) marks.old.items }
{
    mark_type(marks, local.ty);
    mark_option(marks, &local.initializer);
}

/// Marks what a statement uses.
#[cycle(statement)]
fn mark_statement(marks: &mut Vec<bool>, statement: &TypedStatement)
    ensures exact { marks.new.items
        ≡ spec.stmt_marks (view_stmt statement.now) marks.old.items }
{
    match statement {
        TypedStatement::Block(block) => mark_block(marks, block),
        TypedStatement::Locals(locals) => mark_locals(marks, locals.as_slice()),
        TypedStatement::Expression(e) => mark_option(marks, e),
        TypedStatement::Break => {}
        TypedStatement::Continue => {}
        TypedStatement::Return(e) => mark_option(marks, e),
        TypedStatement::If(choice) => mark_choice(marks, choice),
        TypedStatement::While(written) => mark_while(marks, written),
        TypedStatement::DoWhile(written) => mark_do(marks, written),
        TypedStatement::For(written) => mark_for(marks, written),
    }
}

/// Marks what a choice uses.
#[cycle(statement)]
fn mark_choice(marks: &mut Vec<bool>, choice: &TypedChoice)
    ensures exact { marks.new.items
        ≡ spec.stmt_marks (view_choice choice.now) marks.old.items }
{
    mark_expression(marks, &choice.condition);
    mark_block(marks, &choice.then);
    mark_block(marks, &choice.otherwise);
}

/// Marks what a `while` uses.
#[cycle(statement)]
fn mark_while(marks: &mut Vec<bool>, written: &TypedLoop)
    ensures exact { marks.new.items ≡ spec.stmts_marks (view_loop written.now).1
        (spec.expr_marks (view_loop written.now).0 marks.old.items) }
{
    mark_expression(marks, &written.condition);
    mark_block(marks, &written.body);
}

/// Marks what a `do` uses.
#[cycle(statement)]
fn mark_do(marks: &mut Vec<bool>, written: &TypedLoop)
    ensures exact { marks.new.items ≡ spec.stmts_marks (view_loop written.now).1
        (spec.expr_marks (view_loop written.now).0 marks.old.items) }
{
    mark_expression(marks, &written.condition);
    mark_block(marks, &written.body);
}

/// Marks what a `for` uses.
#[cycle(statement)]
fn mark_for(marks: &mut Vec<bool>, written: &TypedFor)
    ensures exact { marks.new.items
        ≡ spec.stmt_marks (view_for written.now) marks.old.items }
{
    mark_all(marks, written.start.as_slice());
    mark_option(marks, &written.condition);
    mark_each(marks, written.steps.as_slice());
    mark_block(marks, &written.body);
}

/// Marks what a block uses.
#[cycle(statement)]
pub(crate) fn mark_block(marks: &mut Vec<bool>, block: &TypedBlock)
    ensures exact { marks.new.items
        ≡ spec.stmts_marks (view_block block.now) marks.old.items }
{
    mark_all(marks, block.statements.as_slice());
}

/// Marks what statements in turn use.
#[cycle(statement)]
fn mark_all(marks: &mut Vec<bool>, statements: &[TypedStatement])
    ensures exact { marks.new.items
        ≡ spec.stmts_marks (view_stmts statements.now) marks.old.items }
{
    for statement in statements {
        mark_statement(marks, statement);
    }
}
