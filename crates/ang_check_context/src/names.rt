//! Bare names.
ghost use Rattle.std.specs.Prelude.{◌≡◌, false, Some, IfOk, option_map};
ghost use Rattle.ang_check_operators.specs.Refusals.{Gives, use_refused as refusal_of};
ghost use Rattle.ang_check_operators.specs.View.{view_operand};
ghost use Rattle.ang_check_context.specs.Names as spec;
ghost use Rattle.ang_check_context.specs.Scope as scopes;
ghost use Rattle.ang_lex.specs.Text.{text_of};

use crate::context::{BodyContext, access_error, is_there, may_reach, resolved};
use crate::scope::{Locals, Within};
use crate::values::value_operand;
use ang_check_operators::{Operand, SiteUse, TypingError, reading, refused, use_refused};
use ang_check_uses::Resolution;
use ang_kinds::ErrorKind;
use ang_lex::Token;
use ang_names_known::{FoundField, is_read_only};
use ang_typed::{TypedSite, TypedVariable};
use ang_types::{ArgType, Asks};
use std::alloc::{AllocError, Global};

fn variable_at(
    alloc: Global,
    name: &Token,
    variable: TypedVariable,
    ty: ArgType,
    read_only: bool,
) -> Result<Operand, AllocError>
    ensures exact { IfOk result
        (λ a. view_operand a ≡ spec.variable_at name.now variable ty read_only) }
{
    let target = SiteUse {
        read_only,
        bare: true,
        name: *name,
    };
    reading(alloc, name.place, TypedSite::Named(variable), ty, target)
}

/// The refusal of a use of the name as a value. Only then are the locals gone through once more.
fn value_refused(
    context: &BodyContext<'_>,
    locals: &Locals<'_>,
    kind: ErrorKind,
    name: &Token,
) -> TypingError
    ensures exact { result ≡ TypingError.Refused (refusal_of kind name.now Asks.Value
        (scopes.is_there context.now locals.now (text_of context.now.text name.now))) }
{
    let is_there = is_there(context, locals, context.text_of(name));
    use_refused(kind, name, Asks::Value, is_there)
}

fn value_use(
    alloc: Global,
    context: &BodyContext<'_>,
    locals: &Locals<'_>,
    name: &Token,
    resolution: Resolution,
) -> Result<Operand, TypingError>
    ensures exact { Gives view_operand result (spec.value_use context.now name.now
        (scopes.is_there context.now locals.now (text_of context.now.text name.now))
        resolution) }
{
    match resolution {
        Resolution::Variable(variable, ty, read_only) => {
            Ok(variable_at(alloc, name, variable, ty, read_only)?)
        }
        Resolution::Value(value) => Ok(value_operand(alloc, name.place, value)?),
        Resolution::Refused(kind) => Err(value_refused(context, locals, kind, name)),
        Resolution::Property(_)
        | Resolution::Call(_)
        | Resolution::Type(_)
        | Resolution::Enumeration(_) => {
            Err(value_refused(context, locals, ErrorKind::UnknownName, name))
        }
    }
}

/// The field of this name that `this` has, with the body's class.
fn field_within(context: &BodyContext<'_>, name: &[u8]) -> Option<(Within, FoundField)>
    ensures exact { result ≡ spec.field_within context.now context.now.within name.now }
{
    match context.within() {
        None => None,
        Some(within) => match context.names().field_named(within.family, name) {
            None => None,
            Some(field) => Some((within, field)),
        },
    }
}

fn own_field(
    alloc: Global,
    context: &BodyContext<'_>,
    name: &Token,
    within: Within,
    field: FoundField,
) -> Result<Operand, TypingError>
    ensures exact { Gives view_operand result
        (spec.field_or_global context.now name.now false (Some (within, field))) }
{
    if !may_reach(context, field.owner, field.access) {
        return Err(refused(access_error(field.access), name));
    }
    let read_only = is_read_only(field.written) || within.read_only;
    let variable = TypedVariable::Field(field.number);
    Ok(variable_at(alloc, name, variable, field.written.ty, read_only)?)
}

fn field_or_global(
    alloc: Global,
    context: &BodyContext<'_>,
    locals: &Locals<'_>,
    name: &Token,
    found: Option<(Within, FoundField)>,
) -> Result<Operand, TypingError>
    ensures exact { Gives view_operand result (spec.field_or_global context.now name.now
        (scopes.is_there context.now locals.now (text_of context.now.text name.now))
        found) }
{
    match found {
        None => {
            let resolution = resolved(alloc, context, name, &Asks::Value)?;
            value_use(alloc, context, locals, name, resolution)
        }
        Some((within, field)) => own_field(alloc, context, name, within, field),
    }
}

fn local_named(
    alloc: Global,
    locals: &Locals<'_>,
    token: &Token,
    name: &[u8],
) -> Result<Option<Operand>, AllocError>
    ensures exact { IfOk result (λ found. option_map view_operand found
        ≡ spec.local_named token.now name.now locals.now) }
{
    let Some(number) = locals.last_named(name) else {
        return Ok(None);
    };
    let Some(local) = locals.get(number) else {
        return Ok(None);
    };
    let variable = TypedVariable::Local(number);
    let operand = variable_at(alloc, token, variable, local.ty, local.read_only)?;
    Ok(Some(operand))
}

/// A bare name that is not called: the innermost local or parameter, else a field of the class,
/// else a global or a value of an enumeration.
///
/// # Errors
///
/// At the name `Private` or `Protected` of a field that the body may not use, else what refuses a
/// use of the name as a value: `UnknownName` where nothing has it. `Memory` where a growth was
/// refused.
#[tactic(auto, unfolding(crate::specs::Names::name_typing))]
#[inline(never)]
pub fn named(
    alloc: Global,
    context: &BodyContext<'_>,
    locals: &Locals<'_>,
    token: &Token,
) -> Result<Operand, TypingError>
    ensures exact { Gives view_operand result (spec.name_typing context.now locals.now token.now) }
{
    let name = context.text_of(token);
    match local_named(alloc, locals, token, name)? {
        Some(operand) => Ok(operand),
        None => {
            let found = field_within(context, name);
            field_or_global(alloc, context, locals, token, found)
        }
    }
}
