//! The bodies of a module.
ghost use Rattle.std.specs.Prelude.{◌≡◌, ◌+◌, ◌++◌, ◌∷◌, [], None, suc, length, reverse, IfOk, OnOk, map as list_map};
ghost use Rattle.std.specs.List.{flat_map};
ghost use Rattle.ang_typed.specs.View.{view_block, view_expr, view_function, view_global, view_typed};
ghost use Rattle.ang_source.specs.Meaning.{referred, passing_of, passings_of, passings_in, results_in, of_global};
ghost use Rattle.ang_types.specs.ArgTypes.{primitive_of};
ghost use Rattle.ang_lower.specs.Plain.{plain_body, plain_stmt};
ghost use Rattle.ang_lower.specs.Lowered as spec;
ghost use Rattle.ang_lower.specs.Same.{LowersProgram, KeepsSound};
ghost use Rattle.ang_lower.specs.Positions as places;

use crate::positions::core_positions;
use crate::statements::lower_block;
use crate::{lower_expression, store};
use ang_core::{CoreBody, CoreStatement};
use ang_kinds::{Pass, Prim};
use ang_meaning::Passing;
use ang_typed::{
    Global as GlobalVariable, Typed, TypedExpression, TypedFunction, TypedParameter, TypedVariable,
};
use ang_types::ArgType;
use std::alloc::{AllocError, Global};

/// How a parameter by reference takes its argument: an object itself passes.
fn referred(ty: ArgType) -> Passing
    ensures same { result ≡ referred ty }
{
    match ty {
        ArgType::Object { .. } => Passing::Object,
        ArgType::Void
        | ArgType::Null
        | ArgType::Plain(_)
        | ArgType::Enumeration { .. }
        | ArgType::Handle { .. } => Passing::In,
    }
}

fn passing(parameter: TypedParameter) -> Passing
    ensures same { result ≡ passing_of parameter }
{
    match parameter.pass {
        Pass::Value => Passing::In,
        Pass::RefIn | Pass::RefInOut => referred(parameter.ty),
        Pass::RefOut => Passing::Out,
    }
}

/// How parameters take their arguments, in order.
fn each_passing(alloc: Global, parameters: &[TypedParameter]) -> Result<Vec<Passing>, AllocError>
    ensures exact { IfOk result (λ v. v.items ≡ list_map (λ p. passing_of p) parameters.now) }
{
    parameters
        .iter()
        .map(|parameter| passing(*parameter))
        .collect(alloc)
}

/// How parameters take their arguments, the last one first.
///
/// # Errors
/// Want of memory.
pub fn passings(alloc: Global, parameters: &[TypedParameter]) -> Result<Vec<Passing>, AllocError>
    ensures exact { IfOk result (λ v. v.items ≡ passings_of parameters.now) }
{
    let mut found = each_passing(alloc, parameters)?;
    found.reverse();
    Ok(found)
}

/// The primitive type that it is, if it is one.
fn primitive_of(ty: ArgType) -> Option<Prim>
    ensures same { result ≡ primitive_of ty }
{
    match ty {
        ArgType::Plain(primitive) => Some(primitive),
        ArgType::Enumeration { .. } => Some(Prim::I32),
        ArgType::Void => None,
        ArgType::Null => None,
        ArgType::Object { .. } => None,
        ArgType::Handle { .. } => None,
    }
}

/// A byte for each parameter, as the lowering of statements has one for each local that is alive.
fn bytes_for(alloc: Global, parameters: &[TypedParameter]) -> Result<Vec<u8>, AllocError>
    ensures count { IfOk result (λ v. length v.items ≡ length parameters.now) }
{
    parameters.iter().map(|_| 0).collect(alloc)
}

fn function_body(alloc: Global, function: &TypedFunction) -> Result<CoreBody, AllocError>
    ensures exact { IfOk result (λ b. plain_body b
        ≡ spec.lowered_function (view_function function.now)) }
    ensures positions { IfOk result
        (λ b. b.positions.items ≡ places.of_function (view_function function.now)) }
{
    let parameters = function.parameters.as_slice();
    let positions = core_positions(alloc, &function.body, function.positions.as_slice())?;
    let params = passings(alloc, parameters)?;
    let mut alive = bytes_for(alloc, parameters)?;
    let statement = lower_block(alloc, &mut alive, &function.body)?;
    Ok(CoreBody {
        params,
        result: primitive_of(function.result),
        statement,
        positions,
    })
}

/// The body that stores the value into the global of that number.
fn initializer_body(
    alloc: Global,
    number: usize,
    value: &TypedExpression,
) -> Result<CoreBody, AllocError>
    ensures params { IfOk result (λ b. b.params.items ≡ []) }
    ensures untyped { IfOk result (λ b. b.result ≡ None) }
    ensures statement { IfOk result
        (λ b. plain_stmt b.statement
        ≡ spec.lowered_code 0 (of_global number (view_expr value.now))) }
    ensures positions { IfOk result (λ b. b.positions.items ≡ []) }
{
    let value = lower_expression(alloc, 0, value)?;
    let whole = store(alloc, 0, &TypedVariable::Global(number), value)?;
    Ok(CoreBody {
        params: Vec::new(alloc),
        result: None,
        statement: CoreStatement::Evaluate(Box::new(alloc, whole)?),
        positions: Vec::new(alloc),
    })
}

fn add_functions(
    alloc: Global,
    functions: &[TypedFunction],
    bodies: &mut Vec<CoreBody>,
) -> Result<(), AllocError>
    ensures exact { OnOk result (list_map plain_body bodies.new.items
        ≡ list_map plain_body bodies.old.items
        ++ list_map spec.lowered_function (list_map view_function functions.now)) }
    ensures positions { OnOk result (places.listed bodies.new.items
        ≡ places.listed bodies.old.items
        ++ list_map places.of_function (list_map view_function functions.now)) }
{
    for function in functions {
        let body = function_body(alloc, function)?;
        bodies.push(body)?;
    }
    Ok(())
}

/// The initializer of one global, if it has one.
fn add_global(
    alloc: Global,
    number: usize,
    global: &GlobalVariable,
    bodies: &mut Vec<CoreBody>,
) -> Result<(), AllocError>
    ensures exact { OnOk result (list_map plain_body bodies.new.items
        ≡ list_map plain_body bodies.old.items
        ++ spec.lowered_initializer number (view_global global.now).initializer) }
    ensures positions { OnOk result (places.listed bodies.new.items
        ≡ places.listed bodies.old.items ++ places.of_global (view_global global.now)) }
{
    match &global.initializer {
        Some(value) => {
            let body = initializer_body(alloc, number, value)?;
            bodies.push(body)?;
            Ok(())
        }
        None => Ok(()),
    }
}

fn add_globals(
    alloc: Global,
    globals: &[GlobalVariable],
    bodies: &mut Vec<CoreBody>,
) -> Result<(), AllocError>
    ensures exact { OnOk result (list_map plain_body bodies.new.items
        ≡ list_map plain_body bodies.old.items
        ++ spec.lowered_globals 0 (list_map view_global globals.now)) }
    ensures positions { OnOk result (places.listed bodies.new.items
        ≡ places.listed bodies.old.items
        ++ flat_map places.of_global (list_map view_global globals.now)) }
{
    for (number, global) in globals.iter().enumerate() {
        add_global(alloc, number, global, bodies)?;
    }
    Ok(())
}

fn bodies_of(alloc: Global, program: &Typed) -> Result<Vec<CoreBody>, AllocError>
    ensures exact { IfOk result (λ bodies. list_map plain_body bodies.items
        ≡ spec.lowered_module (view_typed program.now)) }
    ensures positions { IfOk result
        (λ bodies. places.listed bodies.items ≡ places.of_module (view_typed program.now)) }
{
    let mut bodies = Vec::new(alloc);
    add_functions(alloc, program.functions.as_slice(), &mut bodies)?;
    add_globals(alloc, program.globals.as_slice(), &mut bodies)?;
    Ok(bodies)
}

/// The bodies of a module by number: the functions', and then the initializers', each in the order of
/// declaration.
///
/// Wherever they are the bodies of a module whose tree is sound, they are lowered from what each of them means,
/// which they then mean too ([`crate::laws::everywhere_same`]), and they keep what the generator wants of them.
///
/// # Errors
/// Want of memory.
pub fn lower(alloc: Global, program: &Typed) -> Result<Vec<CoreBody>, AllocError>
    ensures exact { IfOk result (λ bodies. list_map plain_body bodies.items
        ≡ spec.lowered_module (view_typed program.now)) }
    ensures params { IfOk result (λ bodies. list_map (λ b. b.params.items) bodies.items
        ≡ passings_in (view_typed program.now)) }
    ensures results { IfOk result (λ bodies. list_map (λ b. b.result) bodies.items
        ≡ results_in (view_typed program.now)) }
    ensures lowered { IfOk result (λ bodies. LowersProgram (view_typed program.now) bodies.items) }
    ensures sound { IfOk result (λ bodies. KeepsSound (view_typed program.now) bodies.items) }
    ensures positions { IfOk result
        (λ bodies. places.listed bodies.items ≡ places.of_module (view_typed program.now)) }
{
    let bodies = bodies_of(alloc, program)?;
    Ok(bodies)
}
