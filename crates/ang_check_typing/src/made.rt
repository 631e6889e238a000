//! Objects that declarations make.
ghost use Rattle.std.specs.Prelude.{◌≡◌, IfOk};
ghost use Rattle.ang_check_operators.specs.Refusals.{Gives};
ghost use Rattle.ang_check_operators.specs.View.{view_operand, view_operands};
ghost use Rattle.ang_check_typing.specs.Calls as spec;
ghost use Rattle.ang_check_context.specs.Operands.{types_of as all_types};
ghost use Rattle.ang_check_context.specs.Scope as scopes;
ghost use Rattle.ang_check_uses.specs.Uses as uses;
ghost use Rattle.ang_names_known.specs.Spaces as spaces;

use crate::called::{CallSite, called_bare, called_own};
use ang_check_context::{BodyContext, Locals, best_maker, resolved, types_of};
use ang_check_operators::{Operand, TypingError};
use ang_check_uses::Resolution;
use ang_kinds::{ErrorKind, List};
use ang_lex::Token;
use ang_names_known::family_of_type;
use ang_types::Asks;
use std::alloc::{AllocError, Global};

/// The best of what makes an object of a class, for these operands.
fn maker_meant(
    alloc: Global,
    context: &BodyContext<'_>,
    unviable: ErrorKind,
    number: u32,
    operands: &[Operand],
) -> Result<Resolution, AllocError>
    ensures exact { IfOk result (λ r. r ≡ uses.best_of_those context.now.ancestors unviable
        (uses.makers_of (scopes.scope_of context.now) number)
        (all_types (view_operands operands.now))) }
{
    let types = types_of(alloc, operands)?;
    best_maker(alloc, context, unviable, number, types.as_slice())
}

fn made_by(
    alloc: Global,
    context: &BodyContext<'_>,
    locals: &Locals<'_>,
    name: &Token,
    unviable: ErrorKind,
    number: u32,
    asks: Asks,
    operands: Vec<Operand>,
) -> Result<Operand, TypingError>
    ensures exact { Gives view_operand result (spec.made_by context.now locals.now name.now
        unviable number asks (view_operands operands.items) (spaces.family_of_type number)) }
{
    let site = CallSite {
        place: name.place,
        name: *name,
    };
    match family_of_type(number) {
        None => {
            let resolution = resolved(alloc, context, name, &asks)?;
            called_bare(alloc, context, locals, site, asks, operands, resolution)
        }
        Some(_) => {
            let made = maker_meant(alloc, context, unviable, number, operands.as_slice())?;
            called_own(alloc, context, site, operands, made)
        }
    }
}

/// The object of `T x;`, refused at the name of the type, with these parameters and locals alive.
#[tactic(auto, unfolding(crate::specs::Calls::default_typing))]
pub fn default_typing(
    alloc: Global,
    context: &BodyContext<'_>,
    locals: &Locals<'_>,
    name: &Token,
    number: u32,
) -> Result<Operand, TypingError>
    ensures exact { Gives view_operand result
        (spec.default_typing context.now locals.now name.now number) }
{
    let asks = Asks::Default(number);
    let operands = Vec::new(alloc);
    made_by(
        alloc,
        context,
        locals,
        name,
        ErrorKind::NoDefault,
        number,
        asks,
        operands,
    )
}

/// The object of `T x(..);`, refused at the name of the type, with these parameters and locals
/// alive.
#[tactic(auto, unfolding(crate::specs::Calls::made_typing))]
pub fn made_typing(
    alloc: Global,
    context: &BodyContext<'_>,
    locals: &Locals<'_>,
    name: &Token,
    number: u32,
    operands: Vec<Operand>,
) -> Result<Operand, TypingError>
    ensures exact { Gives view_operand result (spec.made_typing context.now locals.now name.now
        number (view_operands operands.items)) }
{
    let types = types_of(alloc, operands.as_slice())?;
    let asks = Asks::Make(number, List::from_vec(types));
    made_by(
        alloc,
        context,
        locals,
        name,
        ErrorKind::NoMatch,
        number,
        asks,
        operands,
    )
}
