//! Bodies of functions and methods, and initializers of globals.
ghost use Rattle.std.specs.Prelude.{◌≡◌, ◌<◌, ◌++◌, ◌∷◌, ◌||◌, false, IfOk, OnOk, map as list_map};
ghost use Rattle.ang_tree.specs.View.{view_body, view_init};
ghost use Rattle.ang_types.specs.ArgTypes.{is_void};
ghost use Rattle.ang_typed.specs.View.{view_block, view_function, view_global};
ghost use Rattle.ang_check_operators.specs.Refusals.{Gives};
ghost use Rattle.ang_check_stmt.specs.Typing.{block_typing};
ghost use Rattle.ang_check.specs.Typing as spec;

use ang_check_context::{BodyContext, LocalVariable, Locals, Within, own_type};
use ang_check_operators::{TypingError, refused};
use ang_check_stmt::{FunctionContext, Returns, block, body_ends, initializer, positions_of};
use ang_kinds::{ErrorKind, List, Pass, Position};
use ang_lex::Token;
use ang_names_known::{BorrowedText, ScriptFunction, ScriptGlobal, ScriptParameter, is_read_only};
use ang_tree as written;
use ang_tree::{Initializer, TypeName};
use ang_typed::{Global as TypedGlobal, TypedBlock, TypedFunction, TypedParameter};
use ang_types::ArgType;
use std::alloc::{AllocError, Global};

/// The parameters of a function as its statements see them, at the end of some locals.
fn push_locals<'a>(
    alloc: Global,
    locals: &mut Locals<'a>,
    params: &'a [ScriptParameter],
) -> Result<(), AllocError>
    ensures exact { OnOk result (locals.new
        ≡ locals.old ++ list_map spec.parameter_local params.now) }
{
    for param in params {
        locals.push(
            alloc,
            LocalVariable {
                name: BorrowedText::new(param.name.as_slice()),
                ty: param.written.ty,
                read_only: is_read_only(param.written),
            },
        )?;
    }
    Ok(())
}

/// The parameters of a function in the resolved tree, at the end of some.
fn push_parameters(
    parameters: &mut Vec<TypedParameter>,
    params: &[ScriptParameter],
) -> Result<(), AllocError>
    ensures exact { OnOk result (parameters.new.items
        ≡ parameters.old.items ++ list_map spec.typed_parameter params.now) }
{
    for param in params {
        parameters.push(TypedParameter {
            ty: param.written.ty,
            pass: param.pass,
        })?;
    }
    Ok(())
}

/// What a function begins with.
fn function_locals<'a>(
    alloc: Global,
    function: &'a ScriptFunction,
) -> Result<Locals<'a>, AllocError>
    ensures exact { IfOk result
        (λ v. v ≡ list_map spec.parameter_local function.now.params) }
{
    let mut locals = Locals::new(alloc);
    push_locals(alloc, &mut locals, function.params.as_slice())?;
    Ok(locals)
}

fn this_local<'a>(within: Within) -> LocalVariable<'a>
    requires few { within.family < 256 }
    ensures exact { result ≡ spec.this_local within }
{
    LocalVariable {
        name: BorrowedText::new(&[]),
        ty: own_type(within),
        read_only: true,
    }
}

/// What a method or a constructor begins with: `this`, then its parameters.
pub fn member_locals<'a>(
    alloc: Global,
    within: Within,
    function: &'a ScriptFunction,
) -> Result<Locals<'a>, AllocError>
    requires few { within.family < 256 }
    ensures exact { IfOk result (λ v. v
        ≡ spec.this_local within ∷ list_map spec.parameter_local function.now.params) }
{
    let mut locals = Locals::new(alloc);
    locals.push(alloc, this_local(within))?;
    push_locals(alloc, &mut locals, function.params.as_slice())?;
    Ok(locals)
}

/// The parameters of a function.
pub fn parameters_of(
    alloc: Global,
    function: &ScriptFunction,
) -> Result<Vec<TypedParameter>, AllocError>
    ensures exact { IfOk result (λ v. v.items ≡ spec.typed_parameters function.now) }
{
    let mut parameters = Vec::new(alloc);
    push_parameters(&mut parameters, function.params.as_slice())?;
    Ok(parameters)
}

/// The parameters of a method or a constructor: `this`, then its own.
pub fn member_parameters(
    alloc: Global,
    within: Within,
    function: &ScriptFunction,
) -> Result<Vec<TypedParameter>, AllocError>
    requires few { within.family < 256 }
    ensures exact { IfOk result (λ v. v.items
        ≡ spec.this_parameter within ∷ spec.typed_parameters function.now) }
{
    let mut parameters = Vec::new(alloc);
    parameters.push(TypedParameter {
        ty: own_type(within),
        pass: Pass::RefInOut,
    })?;
    push_parameters(&mut parameters, function.params.as_slice())?;
    Ok(parameters)
}

fn is_void(ty: ArgType) -> bool
    ensures exact { result ≡ is_void ty }
{
    match ty {
        ArgType::Void => true,
        ArgType::Null
        | ArgType::Plain(_)
        | ArgType::Enumeration { .. }
        | ArgType::Object { .. }
        | ArgType::Handle { .. } => { false }
    }
}

/// Whether a body may end so: each path through it ends, or the function has no result.
fn may_end(ends: bool, ty: ArgType) -> bool
    ensures exact { result ≡ (ends || is_void ty) }
{
    ends || is_void(ty)
}

/// A function with this body, whose paths all end or not.
fn ending(
    ty: ArgType,
    name: &Token,
    ends: bool,
    parameters: Vec<TypedParameter>,
    body: TypedBlock,
    positions: Vec<Position>,
) -> Result<TypedFunction, TypingError>
    ensures exact { Gives view_function result
        (spec.ending ty name.now ends parameters.items positions.items (view_block body)) }
{
    if may_end(ends, ty) {
        Ok(TypedFunction {
            parameters: List::from_vec(parameters),
            result: ty,
            body,
            positions: List::from_vec(positions),
        })
    } else {
        Err(refused(ErrorKind::NoReturn, name))
    }
}

/// The statements of a function that begins with these locals and returns a value of this type.
fn body_typing<'a>(
    alloc: Global,
    context: BodyContext<'a>,
    ty: ArgType,
    locals: Locals<'a>,
    body: &written::Block,
) -> Result<TypedBlock, TypingError>
    ensures exact { Gives view_block result (block_typing
        (spec.frame_of context.entry ty locals.entry) false locals.entry
        (view_body body.now)) }
{
    let mut locals = locals;
    let frame = FunctionContext::new(context, Returns::Value(ty), locals.len());
    block(
        alloc,
        &frame,
        false,
        &mut locals,
        body.statements.as_slice(),
    )
}

/// The body of a function.
///
/// The first refusal of its statements; then `NoReturn` at the function's name where it has a result and a path
/// through the body does not end.
#[tactic(auto, unfolding(crate::specs::Typing::function_typing))]
pub fn function_typing<'a>(
    alloc: Global,
    context: BodyContext<'a>,
    function: &'a ScriptFunction,
    name: &Token,
    body: &written::Block,
) -> Result<TypedFunction, TypingError>
    ensures exact { Gives view_function result
        (spec.function_typing context.entry function.now name.now (view_body body.now)) }
{
    let parameters = parameters_of(alloc, function)?;
    let positions = positions_of(alloc, body.statements.as_slice())?;
    let locals = function_locals(alloc, function)?;
    let typed = body_typing(alloc, context, function.result.ty, locals, body)?;
    ending(
        function.result.ty,
        name,
        body_ends(body),
        parameters,
        typed,
        positions,
    )
}

/// The body of a method, as that of a function whose first local is `this`.
#[tactic(auto, unfolding(crate::specs::Typing::method_body_typing))]
pub fn method_typing<'a>(
    alloc: Global,
    context: BodyContext<'a>,
    within: Within,
    function: &'a ScriptFunction,
    name: &Token,
    body: &written::Block,
) -> Result<TypedFunction, TypingError>
    requires few { within.family < 256 }
    ensures exact { Gives view_function result (spec.method_body_typing context.entry within
        function.now name.now (view_body body.now)) }
{
    let parameters = member_parameters(alloc, within, function)?;
    let positions = positions_of(alloc, body.statements.as_slice())?;
    let locals = member_locals(alloc, within, function)?;
    let typed = body_typing(alloc, context, function.result.ty, locals, body)?;
    ending(
        function.result.ty,
        name,
        body_ends(body),
        parameters,
        typed,
        positions,
    )
}

/// The initializer of a global variable.
#[tactic(auto, unfolding(crate::specs::Typing::global_typing))]
pub fn global_typing(
    alloc: Global,
    context: &BodyContext<'_>,
    global: &ScriptGlobal,
    declared: &TypeName,
    written: &Initializer,
) -> Result<TypedGlobal, TypingError>
    ensures exact { Gives view_global result
        (spec.global_typing context.now global.now declared.now (view_init written.now)) }
{
    let ty = global.written.ty;
    let none = Locals::new(alloc);
    let initializer = initializer(alloc, context, &none, declared, ty, written)?;
    Ok(TypedGlobal { ty, initializer })
}
