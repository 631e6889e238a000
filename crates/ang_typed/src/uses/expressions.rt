//! What expressions use.
ghost use Rattle.std.specs.Prelude.{◌≡◌, map as list_map};
ghost use Rattle.ang_typed.specs.View.{view_expr, view_arg, view_args, view_option, view_site};
ghost use Rattle.ang_typed.specs.Marked as spec;

use crate::expression::{TypedArgument, TypedExpression, TypedSite};
use crate::uses::marks::{mark, mark_host, mark_member, mark_variable};

/// Marks what an expression uses.
#[cycle(expression)]
pub(crate) fn mark_expression(marks: &mut Vec<bool>, e: &TypedExpression)
    ensures exact { marks.new.items
        ≡ spec.expr_marks (view_expr e.now) marks.old.items }
{
    match e {
        TypedExpression::Number { .. } => {}
        TypedExpression::Truth(_) => {}
        TypedExpression::Read { site, .. } => mark_site(marks, site),
        TypedExpression::Null => {}
        TypedExpression::Convert { operand, .. } => mark_expression(marks, operand),
        TypedExpression::Negate { operand, .. } => mark_expression(marks, operand),
        TypedExpression::Complement { operand, .. } => mark_expression(marks, operand),
        TypedExpression::Not { operand } => mark_expression(marks, operand),
        TypedExpression::Operate { left, right, .. } => {
            mark_expression(marks, left);
            mark_expression(marks, right);
        }
        TypedExpression::Compare { left, right, .. } => {
            mark_expression(marks, left);
            mark_expression(marks, right);
        }
        TypedExpression::And { left, right } => {
            mark_expression(marks, left);
            mark_expression(marks, right);
        }
        TypedExpression::Or { left, right } => {
            mark_expression(marks, left);
            mark_expression(marks, right);
        }
        TypedExpression::Choose {
            condition,
            then,
            otherwise,
        } => {
            mark_expression(marks, condition);
            mark_expression(marks, then);
            mark_expression(marks, otherwise);
        }
        TypedExpression::Same { left, right } => {
            mark_expression(marks, left);
            mark_expression(marks, right);
        }
        TypedExpression::Cast { operand, .. } => mark_expression(marks, operand),
        TypedExpression::Naming { entity, operand } => {
            mark(marks, entity.0);
            mark_expression(marks, operand);
        }
        TypedExpression::Make { arguments, .. } => mark_arguments(marks, arguments.as_slice()),
        TypedExpression::Assign { site, value, .. } => {
            mark_site(marks, site);
            mark_expression(marks, value);
        }
        TypedExpression::Compound { site, value, .. } => {
            mark_site(marks, site);
            mark_expression(marks, value);
        }
        TypedExpression::Step { site, .. } => mark_site(marks, site),
        TypedExpression::Call { arguments, .. } => mark_arguments(marks, arguments.as_slice()),
        TypedExpression::HostCall {
            host,
            arguments,
            ..
        } => {
            mark_host(marks, host);
            mark_arguments(marks, arguments.as_slice());
        }
    }
}

/// Marks what a site uses.
#[cycle(expression)]
fn mark_site(marks: &mut Vec<bool>, site: &TypedSite)
    ensures exact { marks.new.items
        ≡ spec.site_marks (view_site site.now) marks.old.items }
{
    match site {
        TypedSite::Named(variable) => mark_variable(marks, variable),
        TypedSite::Of { object, member } => {
            mark_expression(marks, object);
            mark_member(marks, member);
        }
    }
}

/// Marks what arguments use.
#[cycle(expression)]
fn mark_arguments(marks: &mut Vec<bool>, arguments: &[TypedArgument])
    ensures exact { marks.new.items
        ≡ spec.args_marks (view_args arguments.now) marks.old.items }
{
    for argument in arguments {
        mark_argument(marks, argument);
    }
}

/// Marks what an argument uses.
#[cycle(expression)]
fn mark_argument(marks: &mut Vec<bool>, argument: &TypedArgument)
    ensures exact { marks.new.items
        ≡ spec.arg_marks (view_arg argument.now) marks.old.items }
{
    match argument {
        TypedArgument::Value { value, .. } => mark_expression(marks, value),
        TypedArgument::Out { variable, .. } => mark_variable(marks, variable),
    }
}

/// Marks what an expression uses, where there is one.
pub(crate) fn mark_option(marks: &mut Vec<bool>, e: &Option<Box<TypedExpression>>)
    ensures exact { marks.new.items
        ≡ spec.option_marks (view_option e.now) marks.old.items }
{
    match e {
        None => {}
        Some(e) => mark_expression(marks, e),
    }
}

/// Marks what expressions use.
pub(crate) fn mark_each(marks: &mut Vec<bool>, items: &[TypedExpression])
    ensures exact { marks.new.items
        ≡ spec.each_marks spec.expr_marks (list_map view_expr items.now) marks.old.items }
{
    for item in items {
        mark_expression(marks, item);
    }
}
