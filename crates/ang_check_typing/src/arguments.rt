//! Arguments, each for its parameter.
ghost use Rattle.std.specs.Prelude.{◌≡◌, map as list_map};
ghost use Rattle.ang_check_operators.specs.Operands.{site_in as site_in_tree};
ghost use Rattle.ang_check_operators.specs.Refusals.{Gives};
ghost use Rattle.ang_check_operators.specs.View.{view_operand, view_operands};
ghost use Rattle.ang_check_typing.specs.Calls as spec;
ghost use Rattle.ang_typed.specs.View.{view_arg, view_site, view_tree};

use ang_check_operators::{Operand, TypingError, fault, fit, site_in};
use ang_kinds::{ErrorKind, List, Pass, Place};
use ang_typed::{TypedArgument, TypedExpression, TypedSite, TypedVariable};
use ang_types::{ArgType, Lineage};
use std::alloc::Global;

fn is_out_variable(variable: TypedVariable) -> bool
    ensures exact { result ≡ spec.is_out_variable variable }
{
    match variable {
        TypedVariable::Local(_) | TypedVariable::Global(_) | TypedVariable::Field(_) => true,
        TypedVariable::Property(_) => false,
    }
}

fn out_variable(site: TypedSite) -> Option<TypedVariable>
    ensures exact { result ≡ spec.out_variable (view_site site) }
{
    match site {
        TypedSite::Named(variable) => {
            if is_out_variable(variable) {
                Some(variable)
            } else {
                None
            }
        }
        TypedSite::Of { .. } => None,
    }
}

fn variable_in(tree: Box<TypedExpression>) -> Option<TypedVariable>
    ensures exact { result ≡ spec.variable_in (site_in_tree (view_tree tree)) }
{
    match site_in(tree) {
        None => None,
        Some(site) => out_variable(site),
    }
}

fn is_out_type(ty: ArgType) -> bool
    ensures exact { result ≡ spec.is_out_type ty }
{
    match ty {
        ArgType::Plain(_) | ArgType::Enumeration { .. } | ArgType::Handle { .. } => true,
        ArgType::Void | ArgType::Null | ArgType::Object { .. } => false,
    }
}

fn is_out(operand: &Operand) -> bool
    ensures exact { result ≡ spec.is_out (view_operand operand.now) operand.now.target }
{
    match operand.target {
        None => false,
        Some(target) => target.bare && !target.read_only && is_out_type(operand.ty),
    }
}

fn out_or(place: Place, variable: Option<TypedVariable>) -> Result<TypedVariable, TypingError>
    ensures exact { Gives (λ x. x) result (spec.out_or place variable) }
{
    match variable {
        None => Err(fault(ErrorKind::BadOut, place)),
        Some(variable) => Ok(variable),
    }
}

/// The variable that an `&out` argument is.
#[tactic(auto, unfolding(crate::specs::Calls::out_of))]
fn out_of(operand: Operand) -> Result<TypedVariable, TypingError>
    ensures exact { Gives (λ x. x) result (spec.out_of (view_operand operand)) }
{
    if is_out(&operand) {
        out_or(operand.place, variable_in(operand.tree))
    } else {
        Err(fault(ErrorKind::BadOut, operand.place))
    }
}

fn value_for(
    alloc: Global,
    lineage: &Lineage,
    ty: ArgType,
    operand: Operand,
) -> Result<TypedArgument, TypingError>
    ensures exact { Gives view_arg result (spec.value_for lineage.now ty (view_operand operand)) }
{
    let value = fit(alloc, lineage, ty, operand)?;
    Ok(TypedArgument::Value {
        ty,
        value: Box::into_inner(value),
    })
}

fn out_for(ty: ArgType, operand: Operand) -> Result<TypedArgument, TypingError>
    ensures exact { Gives view_arg result (spec.out_for ty (view_operand operand)) }
{
    let to = operand.ty;
    let variable = out_of(operand)?;
    Ok(TypedArgument::Out {
        variable,
        from: ty,
        to,
    })
}

/// An argument for a parameter.
///
/// `BadOut` at the first token of an `&out` argument that is not the bare name of a variable which
/// can be written; `BadConversion` at that of another one that does not convert to the parameter's
/// type.
#[tactic(auto, unfolding(crate::specs::Calls::argument))]
fn argument(
    alloc: Global,
    lineage: &Lineage,
    param: (ArgType, Pass),
    operand: Operand,
) -> Result<TypedArgument, TypingError>
    ensures exact { Gives view_arg result (spec.argument lineage.now param (view_operand operand)) }
{
    match param.1 {
        Pass::Value | Pass::RefIn | Pass::RefInOut => value_for(alloc, lineage, param.0, operand),
        Pass::RefOut => out_for(param.0, operand),
    }
}

fn arguments_in(
    alloc: Global,
    lineage: &Lineage,
    params: &[(ArgType, Pass)],
    operands: Vec<Operand>,
) -> Result<Vec<TypedArgument>, TypingError>
    ensures exact { Gives (λ v. list_map view_arg v.items) result
        (spec.arguments_for lineage.now params.now (view_operands operands.items)) }
{
    let mut arguments = Vec::with_capacity(alloc, operands.len())?;
    let mut rest = operands.into_iter();
    for param in params {
        let Some(operand) = rest.next() else {
            return Ok(arguments);
        };
        let value = argument(alloc, lineage, *param, operand)?;
        arguments.push(value)?;
    }
    Ok(arguments)
}

/// Each argument for its parameter, from left to right.
pub fn arguments_for(
    alloc: Global,
    lineage: &Lineage,
    params: &[(ArgType, Pass)],
    operands: Vec<Operand>,
) -> Result<List<TypedArgument>, TypingError>
    ensures exact { Gives (list_map view_arg) result
        (spec.arguments_for lineage.now params.now (view_operands operands.items)) }
{
    Ok(List::from_vec(arguments_in(alloc, lineage, params, operands)?))
}
