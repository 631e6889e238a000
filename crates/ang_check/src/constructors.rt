//! Bodies of constructors, and the call of the base class's with which each begins.
ghost use Rattle.std.specs.Prelude.{◌≡◌, ◌<◌, ◌∷◌, [], Some, option_map, IfOk, map as list_map};
ghost use Rattle.ang_tree.specs.View as trees;
ghost use Rattle.ang_typed.specs.Typed as tree;
ghost use Rattle.ang_typed.specs.declared.expression.TypedCallee.TheVariants as callee;
ghost use Rattle.ang_typed.specs.View.{view_arg, view_block, view_function, view_stmt, view_stmts};
ghost use Rattle.ang_check_operators.specs.Refusals.{Gives};
ghost use Rattle.ang_check_operators.specs.View.{view_operands};
ghost use Rattle.ang_check_stmt.specs.Typing.{own_object as object_of};
ghost use Rattle.ang_check_context.specs.Scope.{scope_of};
ghost use Rattle.ang_check_uses.specs.Uses.{best_of_those, makers_of};
ghost use Rattle.ang_names_known.specs.Spaces as spaces;
ghost use Rattle.ang_check.specs.Positions as places;
ghost use Rattle.ang_check.specs.Typing as spec;
ghost use Rattle.ang_check.specs.View.{view_base};

use crate::functions::{member_locals, member_parameters};
use ang_check_context::{BodyContext, Locals, Within, best_maker, own_type, types_of};
use ang_check_operators::{Operand, TypingError, boxed, refused, refused_for};
use ang_check_stmt::{FunctionContext, Returns, block, own_object, positions_of};
use ang_check_typing::{arguments_for, typing_of_all};
use ang_check_uses::{Called, Resolution};
use ang_kinds::{ErrorKind, List, Place, Position, position_of};
use ang_lex::Token;
use ang_names_known::{Default, Names, ScriptFunction, default_of, family_type};
use ang_tree as written;
use ang_tree::SuperCall;
use ang_typed::{
    TypedArgument, TypedBlock, TypedCallee, TypedExpression, TypedFunction, TypedParameter,
    TypedStatement,
};
use ang_types::ArgType;
use std::alloc::{AllocError, Global};

/// The base class's constructor that runs first: the number of its body, where one is written, and
/// its arguments.
#[derive(Drop)]
pub struct BaseCall {
    /// The number of its body.
    pub body: Option<usize>,
    /// The arguments after `this`.
    pub arguments: List<TypedArgument>,
}

fn without_arguments(alloc: Global, body: Option<usize>) -> BaseCall
    ensures exact { view_base result ≡ (body, []) }
{
    BaseCall {
        body,
        arguments: List::from_vec(Vec::new(alloc)),
    }
}

fn default_base(
    alloc: Global,
    place: Place,
    base: &Token,
    default: Default,
) -> Result<BaseCall, TypingError>
    ensures exact { Gives view_base result (spec.default_base place base.now default) }
{
    match default {
        Default::Missing => Err(refused_for(ErrorKind::NoDefault, place, base)),
        Default::Unwritten => Ok(without_arguments(alloc, None)),
        Default::Written(body) => Ok(without_arguments(alloc, Some(body))),
    }
}

/// What runs first where `super` is not written.
///
/// `NoDefault` at this place, naming the base class, where that one has no constructor without
/// parameters.
#[tactic(auto, unfolding(crate::specs::Typing::implicit_super))]
pub fn implicit_super(
    alloc: Global,
    names: &Names,
    place: Place,
    base_name: &Token,
    base: Option<usize>,
) -> Result<BaseCall, TypingError>
    ensures exact { Gives view_base result
        (spec.implicit_super names.now place base_name.now base) }
{
    match base {
        None => Ok(without_arguments(alloc, None)),
        Some(base) => {
            let default = default_of(names.families(), base);
            default_base(alloc, place, base_name, default)
        }
    }
}

fn body_called(called: Called) -> Option<usize>
    ensures exact { result ≡ spec.body_called called }
{
    match called {
        Called::Script(_) | Called::Host(_) => None,
        Called::Makes(_, body) => body,
    }
}

/// The call of the constructor that was chosen, refused at the word `super` where none was.
fn super_chosen(
    alloc: Global,
    context: &BodyContext<'_>,
    word: &Token,
    operands: Vec<Operand>,
    resolution: Resolution,
) -> Result<BaseCall, TypingError>
    ensures exact { Gives view_base result
        (spec.super_chosen context.now word.now (view_operands operands.items) resolution) }
{
    match resolution {
        Resolution::Call(callable) => {
            let params = callable.candidate.params.as_slice();
            let arguments = arguments_for(alloc, context.lineage(), params, operands)?;
            Ok(BaseCall {
                body: body_called(callable.called),
                arguments,
            })
        }
        Resolution::Refused(kind) => Err(refused(kind, word)),
        Resolution::Variable(..)
        | Resolution::Property(_)
        | Resolution::Type(_)
        | Resolution::Enumeration(_)
        | Resolution::Value(_) => { Err(refused(ErrorKind::UnknownName, word)) }
    }
}

/// The best of what makes an object of the class of this number for arguments of these types; nothing does where there is no
/// such class.
///
/// The only error is want of memory.
#[tactic(auto, using(crate::proofs::Makers::none_beyond))]
fn best_base(
    alloc: Global,
    context: &BodyContext<'_>,
    class: usize,
    args: &[ArgType],
) -> Result<Resolution, AllocError>
    ensures exact { IfOk result (λ r. r ≡ best_of_those context.now.ancestors ErrorKind.NoMatch
        (makers_of (scope_of context.now) (spaces.family_type class)) args.now) }
{
    if class < context.names().families().len() {
        let number = family_type(class);
        best_maker(alloc, context, ErrorKind::NoMatch, number, args)
    } else {
        Ok(Resolution::Refused(ErrorKind::NoMatch))
    }
}

/// `super(..)` of the class of this number.
fn super_of(
    alloc: Global,
    context: &BodyContext<'_>,
    word: &Token,
    operands: Vec<Operand>,
    base: usize,
) -> Result<BaseCall, TypingError>
    ensures exact { Gives view_base result
        (spec.super_by context.now word.now (view_operands operands.items) (Some base)) }
{
    let types = types_of(alloc, operands.as_slice())?;
    let chosen = best_base(alloc, context, base, types.as_slice())?;
    super_chosen(alloc, context, word, operands, chosen)
}

fn super_by(
    alloc: Global,
    context: &BodyContext<'_>,
    word: &Token,
    operands: Vec<Operand>,
    base: Option<usize>,
) -> Result<BaseCall, TypingError>
    ensures exact { Gives view_base result
        (spec.super_by context.now word.now (view_operands operands.items) base) }
{
    match base {
        None => Err(refused(ErrorKind::UnknownName, word)),
        Some(base) => super_of(alloc, context, word, operands, base),
    }
}

/// `super(..)`.
///
/// `UnknownName` at the word where there is no base class, and `NoMatch` or `Ambiguous` where none
/// of its constructors is the best, besides the refusals of the arguments.
#[tactic(auto, unfolding(crate::specs::Typing::super_typing))]
fn super_typing(
    alloc: Global,
    context: &BodyContext<'_>,
    locals: &Locals<'_>,
    base: Option<usize>,
    call: &SuperCall,
) -> Result<BaseCall, TypingError>
    ensures exact { Gives view_base result
        (spec.super_typing context.now locals.now base (trees.view_super call.now)) }
{
    let operands = typing_of_all(alloc, context, locals, call.arguments.items.as_slice())?;
    super_by(alloc, context, &call.word, operands, base)
}

fn base_typing(
    alloc: Global,
    context: &BodyContext<'_>,
    locals: &Locals<'_>,
    name: &Token,
    base_name: &Token,
    base: Option<usize>,
    call: &Option<SuperCall>,
) -> Result<BaseCall, TypingError>
    ensures exact { Gives view_base result (spec.base_typing context.now locals.now name.now
        base_name.now base (option_map trees.view_super call.now)) }
{
    match call {
        None => implicit_super(alloc, context.names(), name.place, base_name, base),
        Some(call) => super_typing(alloc, context, locals, base, call),
    }
}

/// Arguments after `this`.
///
/// The only error is want of memory.
fn behind_this(
    alloc: Global,
    ty: ArgType,
    arguments: List<TypedArgument>,
) -> Result<Vec<TypedArgument>, AllocError>
    ensures exact { IfOk result (λ v. list_map view_arg v.items
        ≡ tree.by_value ty (object_of ty) ∷ list_map view_arg arguments) }
{
    let own = own_object(alloc, ty)?;
    let mut all = Vec::new(alloc);
    all.push(TypedArgument::Value {
        ty,
        value: Box::into_inner(own),
    })?;
    let mut others = arguments.into_vec();
    all.append(&mut others)?;
    Ok(all)
}

/// The call of a base class's constructor as a statement.
///
/// The only error is want of memory.
fn base_statement(
    alloc: Global,
    ty: ArgType,
    body: usize,
    arguments: List<TypedArgument>,
) -> Result<TypedStatement, AllocError>
    ensures exact { IfOk result (λ s. view_stmt s ≡ tree.expression (Some (tree.call
        (callee.Own body) ty
        (tree.args (tree.by_value ty (object_of ty) ∷ list_map view_arg arguments))))) }
{
    let arguments = behind_this(alloc, ty, arguments)?;
    let call = boxed(
        alloc,
        TypedExpression::Call {
            callee: TypedCallee::Own(body),
            result: ty,
            arguments,
        },
    )?;
    Ok(TypedStatement::Expression(Some(call)))
}

/// Statements after another one.
///
/// The only error is want of memory.
fn behind(
    alloc: Global,
    first: TypedStatement,
    statements: Vec<TypedStatement>,
) -> Result<Vec<TypedStatement>, AllocError>
    ensures exact { IfOk result (λ v. list_map view_stmt v.items
        ≡ view_stmt first ∷ list_map view_stmt statements.items) }
{
    let mut all = Vec::new(alloc);
    all.push(first)?;
    let mut others = statements;
    all.append(&mut others)?;
    Ok(all)
}

/// Statements after the call of the base class's constructor, where one is written.
///
/// The only error is want of memory.
fn with_base(
    alloc: Global,
    within: Within,
    base: BaseCall,
    statements: Vec<TypedStatement>,
) -> Result<Vec<TypedStatement>, AllocError>
    requires few { within.family < 256 }
    ensures exact { IfOk result (λ v. view_stmts v.items ≡ spec.base_call within
        (view_base base).0 (view_base base).1 (view_stmts statements.items)) }
{
    let BaseCall { body, arguments } = base;
    match body {
        None => Ok(statements),
        Some(body) => {
            let first = base_statement(alloc, own_type(within), body, arguments)?;
            behind(alloc, first, statements)
        }
    }
}

/// The statement that gives the object back.
///
/// The only error is want of memory.
fn own_returned(alloc: Global, ty: ArgType) -> Result<TypedStatement, AllocError>
    ensures exact { IfOk result (λ s. view_stmt s ≡ tree.return (Some (object_of ty))) }
{
    let own = own_object(alloc, ty)?;
    Ok(TypedStatement::Return(Some(own)))
}

/// Statements, and then the object is given back.
///
/// The only error is want of memory.
#[tactic(auto, using(crate::proofs::Makers::last_behind))]
fn with_return(
    alloc: Global,
    ty: ArgType,
    statements: Vec<TypedStatement>,
) -> Result<Vec<TypedStatement>, AllocError>
    ensures exact { IfOk result (λ v. view_stmts v.items ≡ spec.with_last
        (view_stmts statements.items) (tree.return (Some (object_of ty)))) }
{
    let last = own_returned(alloc, ty)?;
    let mut all = statements;
    all.push(last)?;
    Ok(all)
}

/// Where the call of the base class's constructor stands: at the word `super`, or at the constructor's name where it is
/// not written.
fn base_position(written: &written::Constructor) -> Position
    ensures exact { result ≡ places.base_position written.now.name
        (option_map trees.view_super written.now.super_call) }
{
    match &written.super_call {
        None => position_of(written.name.place),
        Some(call) => position_of(call.word.place),
    }
}

/// The same, where the constructor of the base class is called.
///
/// The only error is want of memory.
fn base_positions(
    alloc: Global,
    body: Option<usize>,
    written: &written::Constructor,
) -> Result<Vec<Position>, AllocError>
    ensures exact { IfOk result (λ v. v.items ≡ places.base_positions body written.now.name
        (option_map trees.view_super written.now.super_call)) }
{
    let mut found = Vec::new(alloc);
    match body {
        None => Ok(found),
        Some(_) => {
            found.push(base_position(written))?;
            Ok(found)
        }
    }
}

/// Where the statements of a constructor stand: the call of the base class's, where one is called, its own, and, at its
/// closing `}`, what gives the object back.
///
/// The only error is want of memory.
fn constructor_positions(
    alloc: Global,
    body: Option<usize>,
    written: &written::Constructor,
) -> Result<Vec<Position>, AllocError>
    ensures exact { IfOk result (λ v. v.items ≡ places.constructor_positions body
        written.now.name (option_map trees.view_super written.now.super_call)
        (trees.view_stmts written.now.statements.items) written.now.close) }
{
    let mut found = base_positions(alloc, body, written)?;
    let mut own = positions_of(alloc, written.statements.as_slice())?;
    found.append(&mut own)?;
    found.push(position_of(written.close.place))?;
    Ok(found)
}

/// The statements of a constructor: the call of the base class's, where one is written, its own, and what gives its object
/// back.
///
/// The only error is want of memory.
fn constructor_body(
    alloc: Global,
    within: Within,
    base: BaseCall,
    body: TypedBlock,
) -> Result<TypedBlock, AllocError>
    requires few { within.family < 256 }
    ensures exact { IfOk result (λ b. view_block b
        ≡ spec.constructor_body within (view_base base) (view_block body)) }
{
    let TypedBlock { statements } = body;
    let statements = with_return(alloc, own_type(within), statements)?;
    let statements = with_base(alloc, within, base, statements)?;
    Ok(TypedBlock { statements })
}

/// A constructor of these parts.
///
/// The only error is want of memory.
fn constructed(
    alloc: Global,
    within: Within,
    function: &ScriptFunction,
    base: BaseCall,
    body: TypedBlock,
    positions: Vec<Position>,
) -> Result<TypedFunction, AllocError>
    requires few { within.family < 256 }
    ensures exact { IfOk result (λ f. view_function f
        ≡ spec.constructed within function.now (view_base base) positions.items
        (view_block body)) }
{
    let body = constructor_body(alloc, within, base, body)?;
    let parameters = member_parameters(alloc, within, function)?;
    Ok(TypedFunction {
        parameters: List::from_vec(parameters),
        result: own_type(within),
        body,
        positions: List::from_vec(positions),
    })
}

/// The body of a constructor that begins with these locals.
#[tactic(auto, unfolding(crate::specs::Typing::constructor_typing))]
fn constructor_over<'a>(
    alloc: Global,
    context: BodyContext<'a>,
    within: Within,
    function: &'a ScriptFunction,
    base_name: &Token,
    base: Option<usize>,
    written: &written::Constructor,
    locals: &mut Locals<'a>,
) -> Result<TypedFunction, TypingError>
    requires few { within.family < 256 }
    requires locals { locals.old
        ≡ spec.this_local within ∷ list_map spec.parameter_local function.now.params }
    ensures exact { Gives view_function result (spec.constructor_typing context.entry within
        function.now written.now.name base_name.now base
        (option_map trees.view_super written.now.super_call)
        (trees.view_stmts written.now.statements.items) written.now.close) }
{
    let first = base_typing(
        alloc,
        &context,
        locals,
        &written.name,
        base_name,
        base,
        &written.super_call,
    )?;
    let frame = FunctionContext::new(context, Returns::Own(own_type(within)), locals.len());
    let body = block(alloc, &frame, false, locals, written.statements.as_slice())?;
    let positions = constructor_positions(alloc, first.body, written)?;
    Ok(constructed(alloc, within, function, first, body, positions)?)
}

/// The body of a constructor: `super`, then its statements, then it gives its object back.
pub fn constructor_typing<'a>(
    alloc: Global,
    context: BodyContext<'a>,
    within: Within,
    function: &'a ScriptFunction,
    base_name: &Token,
    base: Option<usize>,
    written: &written::Constructor,
) -> Result<TypedFunction, TypingError>
    requires few { within.family < 256 }
    ensures exact { Gives view_function result (spec.constructor_typing context.entry within
        function.now written.now.name base_name.now base
        (option_map trees.view_super written.now.super_call)
        (trees.view_stmts written.now.statements.items) written.now.close) }
{
    let mut locals = member_locals(alloc, within, function)?;
    let typed = constructor_over(
        alloc,
        context,
        within,
        function,
        base_name,
        base,
        written,
        &mut locals,
    );
    drop(locals);
    typed
}
