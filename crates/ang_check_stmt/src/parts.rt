//! What a statement is made of beside statements, with what stops it in few bytes. None of these
//! stands in the recursion over statements, so none is part of what a nesting takes of the
//! process's stack.
ghost use Rattle.std.specs.Prelude.{◌≡◌, ◌≤◌, length, map as list_map, OnOk};
ghost use Rattle.ang_tree.specs.View as trees;
ghost use Rattle.ang_typed.specs.View.{view_expr, view_option, view_stmt, view_tree};
ghost use Rattle.ang_check_stmt.specs.Halts.{GivesOrHalts};
ghost use Rattle.ang_check_stmt.specs.Typing as spec;
ghost use Rattle.ang_check_stmt.specs.View.{view_boxed};

use crate::frame::FunctionContext;
use crate::halt::{Halt, halt_of};
use crate::locals::locals_statement;
use crate::loops::{ForHead, loop_head};
use crate::values::{condition, expression_statement, returned};
use ang_check_context::Locals;
use ang_check_operators::refused;
use ang_kinds::ErrorKind;
use ang_lex::Token;
use ang_tree as written;
use ang_tree::{Argument, ForStart, Variables};
use ang_typed::{TypedExpression, TypedStatement};
use std::alloc::Global;

/// `break` or `continue`; `Jump` at the word where no loop stands around it.
#[inline(never)]
pub fn jump(
    alloc: Global,
    in_loop: bool,
    word: &Token,
    statement: TypedStatement,
) -> Result<TypedStatement, Halt>
    ensures exact { GivesOrHalts view_stmt result
        (spec.jump in_loop word.now (view_stmt statement)) }
{
    if in_loop {
        Ok(statement)
    } else {
        Err(halt_of(alloc, refused(ErrorKind::Jump, word)))
    }
}

/// The condition of an `if` or of a loop.
#[tactic(auto, using(crate::proofs::Stopping::halts_as_stopped))]
#[inline(never)]
pub fn condition_or_halt(
    alloc: Global,
    frame: &FunctionContext<'_>,
    locals: &Locals<'_>,
    value: &written::Expression,
) -> Result<Box<TypedExpression>, Halt>
    ensures exact { GivesOrHalts view_tree result
        (spec.condition_typing frame.now.context locals.now (trees.view_expr value.now)) }
{
    match condition(alloc, frame.context(), locals, value) {
        Ok(found) => Ok(found),
        Err(stop) => Err(halt_of(alloc, stop)),
    }
}

/// An expression as a statement, or a lone `;`.
#[tactic(auto, using(crate::proofs::Stopping::halts_as_stopped))]
#[inline(never)]
pub fn expression_or_halt(
    alloc: Global,
    frame: &FunctionContext<'_>,
    locals: &Locals<'_>,
    value: &Option<Box<written::Expression>>,
) -> Result<TypedStatement, Halt>
    ensures exact { GivesOrHalts (λ x. (locals.now, view_stmt x)) result
        (spec.with_same locals.now
        (spec.expression_typing frame.now.context locals.now (trees.view_option value.now))) }
{
    match expression_statement(alloc, frame, locals, value) {
        Ok(found) => Ok(found),
        Err(stop) => Err(halt_of(alloc, stop)),
    }
}

/// A `return`.
#[tactic(auto, using(crate::proofs::Stopping::halts_as_stopped))]
#[inline(never)]
pub fn return_or_halt(
    alloc: Global,
    frame: &FunctionContext<'_>,
    locals: &Locals<'_>,
    word: &Token,
    value: &Option<Box<written::Expression>>,
) -> Result<TypedStatement, Halt>
    ensures exact { GivesOrHalts (λ x. (locals.now, view_stmt x)) result
        (spec.with_same locals.now
        (spec.return_typing frame.now locals.now word.now (trees.view_option value.now))) }
{
    match returned(alloc, frame, locals, word, value) {
        Ok(found) => Ok(found),
        Err(stop) => Err(halt_of(alloc, stop)),
    }
}

/// Local variables, in the block that begins at local `start`.
#[tactic(auto, using(crate::proofs::Stopping::halts_as_stopped))]
#[inline(never)]
pub fn locals_or_halt<'a>(
    alloc: Global,
    frame: &FunctionContext<'a>,
    start: usize,
    locals: &mut Locals<'a>,
    variables: &Variables,
) -> Result<TypedStatement, Halt>
    requires block { start ≤ length locals.old }
    requires parameters { frame.now.parameters ≤ length locals.old }
    ensures exact { GivesOrHalts (λ x. (locals.new, view_stmt x)) result
        (spec.declaration_typing frame.now start locals.old (trees.view_vars variables.now)) }
    ensures kept { OnOk result (spec.Keeps locals.old locals.new) }
{
    match locals_statement(alloc, frame, start, locals, variables) {
        Ok(found) => Ok(found),
        Err(stop) => Err(halt_of(alloc, stop)),
    }
}

/// What stands in the parentheses of a `for`.
#[tactic(auto, using(crate::proofs::Stopping::halts_as_stopped))]
#[inline(never)]
pub fn head_or_halt<'a>(
    alloc: Global,
    frame: &FunctionContext<'a>,
    locals: &mut Locals<'a>,
    first: &ForStart,
    test: &Option<Box<written::Expression>>,
    items: &[Argument],
) -> Result<Box<ForHead>, Halt>
    requires parameters { frame.now.parameters ≤ length locals.old }
    ensures exact { GivesOrHalts (λ h. (
      locals.new,
      view_boxed h.value.start,
      view_option h.value.condition,
      list_map view_expr h.value.steps.items,
    )) result
        (spec.head_typing frame.now locals.old (trees.view_start first.now)
        (trees.view_option test.now) (trees.view_items items.now)) }
    ensures kept { OnOk result (spec.Keeps locals.old locals.new) }
{
    match loop_head(alloc, frame, locals, first, test, items) {
        Ok(found) => Ok(Box::new(alloc, found)?),
        Err(stop) => Err(halt_of(alloc, stop)),
    }
}
