//! Local variables.
ghost use Rattle.std.specs.Prelude.{◌≡◌, ◌≤◌, ◌++◌, ◌∷◌, [], length, map as list_map, IfOk, OnOk};
ghost use Rattle.ang_tree.specs.View.{view_var, view_vars};
ghost use Rattle.ang_typed.specs.View.{view_local, view_stmt};
ghost use Rattle.ang_check_operators.specs.Refusals.{Gives};
ghost use Rattle.ang_check_stmt.specs.Typing as spec;

use crate::frame::FunctionContext;
use crate::initial::initializer;
use ang_check_context::{BodyContext, LocalVariable, Locals, type_or_refusal};
use ang_check_operators::{TypingError, refused};
use ang_kinds::ErrorKind;
use ang_lex::Token;
use ang_names_known::{Space, BorrowedText, Written, is_read_only};
use ang_names_listed::{TypePosition, is_const_handle, type_in};
use ang_tree::{TypeName, Variable, Variables};
use ang_typed::{Local, TypedStatement};
use ang_types::ArgType;
use std::alloc::{AllocError, Global};

/// The most locals that can be alive at once in one function.
const MOST_LOCALS: usize = 1024;

/// The type of locals.
///
/// `UnknownType` and `BadType` at the type's name. It takes no memory.
#[tactic(auto, unfolding(crate::specs::Typing::local_type))]
fn local_type(
    context: &BodyContext<'_>,
    locals: &Locals<'_>,
    declared: &TypeName,
) -> Result<ArgType, TypingError>
    ensures exact { Gives (λ ty. ty) result (spec.local_type context.now locals.now declared.now) }
{
    let space = Space::of_names(context.view(), context.names());
    let meaning = type_in(&space, TypePosition::Variable, context.text(), declared);
    type_or_refusal(context, locals, &declared.name, meaning)
}

/// A local of this name and type, as the type is written.
fn local_with<'a>(name: BorrowedText<'a>, ty: ArgType, declared: &TypeName) -> LocalVariable<'a>
    ensures exact { result ≡ spec.local_with name.entry ty declared.now }
{
    let written = Written {
        ty,
        constant: declared.constant.is_some(),
        const_handle: is_const_handle(&declared.handle),
    };
    LocalVariable {
        name,
        ty,
        read_only: is_read_only(written),
    }
}

/// Why a local can't have the name, in the block that begins at local `start`.
fn name_error(
    frame: &FunctionContext<'_>,
    start: usize,
    locals: &Locals<'_>,
    name: &[u8],
) -> Option<ErrorKind>
    requires block { start ≤ length locals.now }
    requires parameters { frame.now.parameters ≤ length locals.now }
    ensures exact { result ≡ spec.local_name_error frame.now start locals.now name.now }
{
    if locals.has_from(start, name) {
        Some(ErrorKind::Duplicate)
    } else if locals.len() - frame.parameters() < MOST_LOCALS {
        None
    } else {
        Some(ErrorKind::Limit)
    }
}

/// The name of a local.
///
/// `Duplicate` at a name that another local of the block has, and `Limit` at one local too many. It
/// takes no memory.
#[tactic(auto, unfolding(crate::specs::Typing::local_name))]
fn local_name<'a>(
    frame: &FunctionContext<'a>,
    start: usize,
    locals: &Locals<'a>,
    token: &Token,
) -> Result<BorrowedText<'a>, TypingError>
    requires block { start ≤ length locals.now }
    requires parameters { frame.now.parameters ≤ length locals.now }
    ensures exact { Gives (λ name. name) result
        (spec.local_name frame.now start locals.now token.now) }
{
    let name = BorrowedText::new(frame.context().text_of(token));
    match name_error(frame, start, locals, name.bytes()) {
        None => Ok(name),
        Some(kind) => Err(refused(kind, token)),
    }
}

/// One local, which is known after its initializer.
#[tactic(auto, using(crate::proofs::SoFar::keeps), unfolding(crate::specs::Typing::local_typing))]
fn local_variable<'a>(
    alloc: Global,
    frame: &FunctionContext<'a>,
    start: usize,
    locals: &mut Locals<'a>,
    declared: &TypeName,
    ty: ArgType,
    variable: &Variable,
) -> Result<Local, TypingError>
    requires block { start ≤ length locals.old }
    requires parameters { frame.now.parameters ≤ length locals.old }
    ensures exact { Gives (λ l. (locals.new, view_local l)) result
        (spec.local_typing frame.now start locals.old declared.now ty
        (view_var variable.now)) }
    ensures kept { OnOk result (spec.Keeps locals.old locals.new) }
{
    let name = local_name(frame, start, locals, &variable.name)?;
    let initializer = initializer(
        alloc,
        frame.context(),
        locals,
        declared,
        ty,
        &variable.initializer,
    )?;
    locals.push(alloc, local_with(name, ty, declared))?;
    Ok(Local { ty, initializer })
}

/// The list with one more local at its end.
fn with_local(first: Vec<Local>, local: Local) -> Result<Vec<Local>, AllocError>
    ensures exact { IfOk result (λ v. list_map view_local v.items
        ≡ list_map view_local first.items ++ (view_local local ∷ [])) }
{
    let mut found = first;
    found.push(local)?;
    Ok(found)
}

/// The locals of a declaration, in the block that begins at local `start`.
#[tactic(auto, using(crate::proofs::SoFar::keeps), unfolding(crate::specs::Typing::locals_typing))]
fn local_variables<'a>(
    alloc: Global,
    frame: &FunctionContext<'a>,
    start: usize,
    locals: &mut Locals<'a>,
    variables: &Variables,
) -> Result<Vec<Local>, TypingError>
    requires block { start ≤ length locals.old }
    requires parameters { frame.now.parameters ≤ length locals.old }
    ensures exact { Gives (λ ls. (locals.new, list_map view_local ls.items)) result
        (spec.locals_typing frame.now start locals.old (view_vars variables.now)) }
    ensures kept { OnOk result (spec.Keeps locals.old locals.new) }
{
    let ty = local_type(frame.context(), locals, &variables.declared_type)?;
    let mut found = Vec::new(alloc);
    for variable in &variables.items {
        let local = local_variable(
            alloc,
            frame,
            start,
            locals,
            &variables.declared_type,
            ty,
            variable,
        )?;
        found = with_local(found, local)?;
    }
    Ok(found)
}

/// The locals of a declaration as a statement.
#[tactic(auto, using(crate::proofs::SoFar::keeps))]
#[inline(never)]
pub fn locals_statement<'a>(
    alloc: Global,
    frame: &FunctionContext<'a>,
    start: usize,
    locals: &mut Locals<'a>,
    variables: &Variables,
) -> Result<TypedStatement, TypingError>
    requires block { start ≤ length locals.old }
    requires parameters { frame.now.parameters ≤ length locals.old }
    ensures exact { Gives (λ x. (locals.new, view_stmt x)) result
        (spec.declaration_typing frame.now start locals.old (view_vars variables.now)) }
    ensures kept { OnOk result (spec.Keeps locals.old locals.new) }
{
    let found = local_variables(alloc, frame, start, locals, variables)?;
    Ok(TypedStatement::Locals(found))
}
