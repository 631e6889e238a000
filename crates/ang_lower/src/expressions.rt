//! The core trees of expressions.
ghost use Rattle.std.specs.Prelude.{◌≡◌, ◌++◌, IfOk, OnOk, true, map as list_map};
ghost use Rattle.ang_typed.specs.View.{view_expr, view_arg, view_args, view_option, view_site};
ghost use Rattle.ang_source.specs.Meaning.{callee_of};
ghost use Rattle.ang_lower.specs.PlainExpr.{plain_expr, plain_tree};
ghost use Rattle.ang_lower.specs.ExprKinds.{is_unary, is_binary, is_choice, is_change, is_call};
ghost use Rattle.ang_lower.specs.LoweredExpr as spec;

use crate::build_expr::{CoreOperands, add_operand, apply, binary, call, choice, nullary, unary};
use crate::folding::{complement, conversion, denial, negation};
use crate::operators::{compound, step};
use crate::variables::{altering, change, read, reading, store, targets, writing};
use ang_core::CoreExpression;
use ang_meaning::{Callee, Operation, Update};
use ang_typed as typed;
use ang_typed::{Local, TypedArgument, TypedSite};
use ang_types::ArgType;
use ang_vm_numbers::is_signed;
use std::alloc::{AllocError, Global};

/// The core tree of an expression, where `alive` locals are alive.
///
/// # Errors
/// Want of memory.
#[cycle(expression)]
pub fn lower_expression(
    alloc: Global,
    alive: usize,
    e: &typed::TypedExpression,
) -> Result<CoreExpression, AllocError>
    ensures exact { IfOk result (λ x. plain_expr x ≡ spec.lowered alive (view_expr e.now)) }
{
    match e {
        typed::TypedExpression::Number { value, .. } => Ok(CoreExpression::Number(*value)),
        typed::TypedExpression::Truth(b) => Ok(CoreExpression::Number(u64::from(*b))),
        typed::TypedExpression::Read { site, .. } => lower_read(alloc, alive, site),
        typed::TypedExpression::Null => Ok(CoreExpression::Null),
        typed::TypedExpression::Convert { .. }
        | typed::TypedExpression::Negate { .. }
        | typed::TypedExpression::Complement { .. }
        | typed::TypedExpression::Not { .. }
        | typed::TypedExpression::Cast { .. }
        | typed::TypedExpression::Naming { .. } => lower_unary(alloc, alive, e),
        typed::TypedExpression::Operate { .. }
        | typed::TypedExpression::Compare { .. }
        | typed::TypedExpression::Same { .. } => lower_binary(alloc, alive, e),
        typed::TypedExpression::And { .. }
        | typed::TypedExpression::Or { .. }
        | typed::TypedExpression::Choose { .. } => lower_choice(alloc, alive, e),
        typed::TypedExpression::Assign { .. }
        | typed::TypedExpression::Compound { .. }
        | typed::TypedExpression::Step { .. } => lower_change(alloc, alive, e),
        typed::TypedExpression::Make { .. }
        | typed::TypedExpression::Call { .. }
        | typed::TypedExpression::HostCall { .. } => lower_call(alloc, alive, e),
    }
}

/// What stands at a site.
#[cycle(expression)]
fn lower_read(alloc: Global, alive: usize, site: &TypedSite) -> Result<CoreExpression, AllocError>
    ensures exact { IfOk result (λ x. plain_expr x ≡ spec.lowered_read alive (view_site site.now)) }
{
    match site {
        TypedSite::Named(variable) => read(alloc, alive, variable),
        TypedSite::Of { object, member } => {
            let operation = reading(member);
            let object = lower_expression(alloc, alive, object)?;
            unary(alloc, operation, object)
        }
    }
}

/// A conversion or a cast, an operator on one operand, or an operand in which an entry is named.
#[cycle(expression)]
fn lower_unary(
    alloc: Global,
    alive: usize,
    e: &typed::TypedExpression,
) -> Result<CoreExpression, AllocError>
    requires kind { is_unary (view_expr e.now) ≡ true }
    ensures exact { IfOk result (λ x. plain_expr x ≡ spec.lowered alive (view_expr e.now)) }
{
    match e {
        typed::TypedExpression::Convert { to, operand, .. } => {
            let operand = lower_expression(alloc, alive, operand)?;
            conversion(alloc, *to, operand)
        }
        typed::TypedExpression::Negate { ty, operand } => {
            let operand = lower_expression(alloc, alive, operand)?;
            negation(alloc, *ty, operand)
        }
        typed::TypedExpression::Complement { ty, operand } => {
            let operand = lower_expression(alloc, alive, operand)?;
            complement(alloc, *ty, operand)
        }
        typed::TypedExpression::Not { operand } => {
            let operand = lower_expression(alloc, alive, operand)?;
            denial(alloc, operand)
        }
        typed::TypedExpression::Cast { family, operand } => {
            let operand = lower_expression(alloc, alive, operand)?;
            unary(alloc, Operation::Cast(*family), operand)
        }
        typed::TypedExpression::Naming { operand, .. } => lower_expression(alloc, alive, operand),
        _ => unreachable!(),
    }
}

/// An operator on two operands that are both evaluated.
#[cycle(expression)]
fn lower_binary(
    alloc: Global,
    alive: usize,
    e: &typed::TypedExpression,
) -> Result<CoreExpression, AllocError>
    requires kind { is_binary (view_expr e.now) ≡ true }
    ensures exact { IfOk result (λ x. plain_expr x ≡ spec.lowered alive (view_expr e.now)) }
{
    match e {
        typed::TypedExpression::Operate {
            operator,
            ty,
            left,
            right,
        } => {
            let left = lower_expression(alloc, alive, left)?;
            let right = lower_expression(alloc, alive, right)?;
            let operation = Operation::Binary(*operator, *ty);
            binary(alloc, operation, CoreOperands { left, right })
        }
        typed::TypedExpression::Compare {
            comparison,
            ty,
            left,
            right,
        } => {
            let left = lower_expression(alloc, alive, left)?;
            let right = lower_expression(alloc, alive, right)?;
            let operation = Operation::Compare(*comparison, is_signed(*ty));
            binary(alloc, operation, CoreOperands { left, right })
        }
        typed::TypedExpression::Same { left, right } => {
            let left = lower_expression(alloc, alive, left)?;
            let right = lower_expression(alloc, alive, right)?;
            binary(alloc, Operation::Same, CoreOperands { left, right })
        }
        _ => unreachable!(),
    }
}

/// What evaluates one of two operands by a test.
#[cycle(expression)]
fn lower_choice(
    alloc: Global,
    alive: usize,
    e: &typed::TypedExpression,
) -> Result<CoreExpression, AllocError>
    requires kind { is_choice (view_expr e.now) ≡ true }
    ensures exact { IfOk result (λ x. plain_expr x ≡ spec.lowered alive (view_expr e.now)) }
{
    match e {
        typed::TypedExpression::And { left, right } => {
            let test = lower_expression(alloc, alive, left)?;
            let left = lower_expression(alloc, alive, right)?;
            let right = CoreExpression::Number(0);
            choice(alloc, test, CoreOperands { left, right })
        }
        typed::TypedExpression::Or { left, right } => {
            let test = lower_expression(alloc, alive, left)?;
            let right = lower_expression(alloc, alive, right)?;
            let left = CoreExpression::Number(1);
            choice(alloc, test, CoreOperands { left, right })
        }
        typed::TypedExpression::Choose {
            condition,
            then,
            otherwise,
        } => {
            let left = lower_expression(alloc, alive, then)?;
            let right = lower_expression(alloc, alive, otherwise)?;
            let pair = CoreOperands { left, right };
            let test = lower_expression(alloc, alive, condition)?;
            choice(alloc, test, pair)
        }
        _ => unreachable!(),
    }
}

/// What stores into a variable or a member.
#[cycle(expression)]
fn lower_change(
    alloc: Global,
    alive: usize,
    e: &typed::TypedExpression,
) -> Result<CoreExpression, AllocError>
    requires kind { is_change (view_expr e.now) ≡ true }
    ensures exact { IfOk result (λ x. plain_expr x ≡ spec.lowered alive (view_expr e.now)) }
{
    match e {
        typed::TypedExpression::Assign { site, value, .. } => {
            let value = lower_expression(alloc, alive, value)?;
            store_at(alloc, alive, site, value)
        }
        typed::TypedExpression::Compound {
            site,
            ty,
            operator,
            operating,
            value,
        } => {
            let value = lower_expression(alloc, alive, value)?;
            let by = compound(*ty, *operator, *operating);
            change_at(alloc, alive, site, by, value)
        }
        typed::TypedExpression::Step {
            site,
            ty,
            step: kind,
        } => {
            let by = step(*ty, *kind);
            change_at(alloc, alive, site, by, CoreExpression::Number(1))
        }
        _ => unreachable!(),
    }
}

/// A store of the value at a site.
#[cycle(expression)]
fn store_at(
    alloc: Global,
    alive: usize,
    site: &TypedSite,
    value: CoreExpression,
) -> Result<CoreExpression, AllocError>
    ensures exact { IfOk result (λ x. plain_expr x
        ≡ spec.lowered_store alive (view_site site.now) (plain_expr value)) }
{
    match site {
        TypedSite::Named(variable) => store(alloc, alive, variable, value),
        TypedSite::Of { object, member } => {
            let operation = writing(member);
            let right = lower_expression(alloc, alive, object)?;
            let left = value;
            binary(alloc, operation, CoreOperands { left, right })
        }
    }
}

/// A change of what stands at a site by an operand.
#[cycle(expression)]
fn change_at(
    alloc: Global,
    alive: usize,
    site: &TypedSite,
    by: Update,
    value: CoreExpression,
) -> Result<CoreExpression, AllocError>
    ensures exact { IfOk result (λ x. plain_expr x
        ≡ spec.lowered_change alive (view_site site.now) by (plain_expr value)) }
{
    match site {
        TypedSite::Named(variable) => change(alloc, alive, variable, by, value),
        TypedSite::Of { object, member } => {
            let operation = altering(member, by);
            let right = lower_expression(alloc, alive, object)?;
            let left = value;
            binary(alloc, operation, CoreOperands { left, right })
        }
    }
}

/// What code names by a callee of the tree.
fn code_callee(callee: typed::TypedCallee) -> Callee
    ensures exact { result ≡ callee_of callee }
{
    match callee {
        typed::TypedCallee::Own(f) => Callee::Own(f),
        typed::TypedCallee::Import(i) => Callee::Import(i),
        typed::TypedCallee::Chosen(slot) => Callee::Virtual(slot),
    }
}

/// A new object of a class, whose constructor did not run yet.
fn made(alloc: Global, family: usize) -> CoreExpression
    ensures exact { plain_expr result ≡ spec.made family }
{
    nullary(alloc, Operation::Make(family))
}

/// A call of a function of the scripts or of the host, or a new object.
#[cycle(expression)]
fn lower_call(
    alloc: Global,
    alive: usize,
    e: &typed::TypedExpression,
) -> Result<CoreExpression, AllocError>
    requires kind { is_call (view_expr e.now) ≡ true }
    ensures exact { IfOk result (λ x. plain_expr x ≡ spec.lowered alive (view_expr e.now)) }
{
    match e {
        typed::TypedExpression::Make {
            family,
            constructor,
            arguments,
        } => lower_make(alloc, alive, arguments.as_slice(), *family, *constructor),
        typed::TypedExpression::Call {
            callee,
            arguments,
            ..
        } => {
            let called = code_callee(*callee);
            let values = lower_arguments(alloc, alive, arguments.as_slice())?;
            let targets = targets(alloc, alive, arguments.as_slice())?;
            call(alloc, called, values, targets)
        }
        typed::TypedExpression::HostCall {
            host,
            arguments,
            ..
        } => {
            let values = lower_arguments(alloc, alive, arguments.as_slice())?;
            Ok(apply(Operation::Ask(host.entity), values))
        }
        _ => unreachable!(),
    }
}

/// What stands for a value of that type that nobody wrote: 0, false or null.
fn initial(ty: ArgType) -> CoreExpression
    ensures exact { plain_expr result ≡ spec.initial ty }
{
    match ty {
        ArgType::Void => CoreExpression::Number(0),
        ArgType::Null => CoreExpression::Null,
        ArgType::Plain(_) => CoreExpression::Number(0),
        ArgType::Enumeration { .. } => CoreExpression::Number(0),
        ArgType::Object { .. } => CoreExpression::Null,
        ArgType::Handle { .. } => CoreExpression::Null,
    }
}

/// A new object, which is the first argument of its constructor.
#[cycle(expression)]
fn lower_make(
    alloc: Global,
    alive: usize,
    arguments: &[TypedArgument],
    family: usize,
    constructor: Option<usize>,
) -> Result<CoreExpression, AllocError>
    ensures exact { IfOk result (λ x. plain_expr x
        ≡ spec.made_by family constructor (spec.lowered_args alive (view_args arguments.now))
        (spec.targets_of alive (view_args arguments.now))) }
{
    match constructor {
        None => Ok(made(alloc, family)),
        Some(body) => {
            let mut values = Vec::with_capacity(alloc, arguments.len() + 1)?;
            let object = made(alloc, family);
            add_operand(&mut values, object)?;
            add_arguments(alloc, alive, arguments, &mut values)?;
            let targets = targets(alloc, alive, arguments)?;
            call(alloc, Callee::Own(body), values, targets)
        }
    }
}

/// The arguments of a call in order; an `&out` parameter begins as 0, false or null.
#[cycle(expression)]
fn lower_arguments(
    alloc: Global,
    alive: usize,
    arguments: &[TypedArgument],
) -> Result<Vec<CoreExpression>, AllocError>
    ensures exact { IfOk result (λ v. list_map plain_expr v.items
        ≡ spec.lowered_args alive (view_args arguments.now)) }
{
    let mut found = Vec::with_capacity(alloc, arguments.len())?;
    add_arguments(alloc, alive, arguments, &mut found)?;
    Ok(found)
}

/// The same after the operands that there are.
#[cycle(expression)]
fn add_arguments(
    alloc: Global,
    alive: usize,
    arguments: &[TypedArgument],
    found: &mut Vec<CoreExpression>,
) -> Result<(), AllocError>
    ensures exact { OnOk result (list_map plain_expr found.new.items
        ≡ list_map plain_expr found.old.items
        ++ spec.lowered_args alive (view_args arguments.now)) }
{
    for argument in arguments {
        let value = lower_argument(alloc, alive, argument)?;
        add_operand(found, value)?;
    }
    Ok(())
}

#[cycle(expression)]
fn lower_argument(
    alloc: Global,
    alive: usize,
    argument: &TypedArgument,
) -> Result<CoreExpression, AllocError>
    ensures exact { IfOk result (λ x. plain_expr x
        ≡ spec.lowered_arg alive (view_arg argument.now)) }
{
    match argument {
        TypedArgument::Value { value, .. } => lower_expression(alloc, alive, value),
        TypedArgument::Out { from, .. } => Ok(initial(*from)),
    }
}

/// The core tree of an expression, in a box.
#[inline(never)]
pub fn lower_boxed(
    alloc: Global,
    alive: usize,
    e: &typed::TypedExpression,
) -> Result<Box<CoreExpression>, AllocError>
    ensures exact { IfOk result (λ x. plain_tree x ≡ spec.lowered alive (view_expr e.now)) }
{
    let found = lower_expression(alloc, alive, e)?;
    Ok(Box::new(alloc, found)?)
}

/// The core tree of what may be written, and this number where it is not.
#[inline(never)]
pub fn lower_or(
    alloc: Global,
    alive: usize,
    number: u64,
    e: &Option<Box<typed::TypedExpression>>,
) -> Result<Box<CoreExpression>, AllocError>
    ensures exact { IfOk result (λ x. plain_tree x
        ≡ spec.lowered_or alive number (view_option e.now)) }
{
    match e {
        Some(e) => lower_boxed(alloc, alive, e),
        None => Ok(Box::new(alloc, CoreExpression::Number(number))?),
    }
}

/// The core tree of what a new local begins with, where `alive` others are alive.
#[inline(never)]
pub fn lower_begin(
    alloc: Global,
    alive: usize,
    local: &Local,
) -> Result<Box<CoreExpression>, AllocError>
    ensures exact { IfOk result (λ x. plain_tree x
        ≡ spec.lowered_begin alive local.now.ty (view_option local.now.initializer)) }
{
    match &local.initializer {
        Some(e) => lower_boxed(alloc, alive, e),
        None => Ok(Box::new(alloc, initial(local.ty))?),
    }
}
