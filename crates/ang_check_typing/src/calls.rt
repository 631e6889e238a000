//! Calls by a name alone, and those of a class above.
ghost use Rattle.std.specs.Prelude.{◌≡◌, ◌<◌, ◌==◌, ◌&&◌, ◌∷◌, not, bytes_eq, option_map};
ghost use Rattle.std.specs.Prelude.{Some, IfOk, IfSome, map as list_map};
ghost use Rattle.std.specs.List.{flat_map, position};
ghost use Rattle.ang_names_known.specs.Lookup as lookup;
ghost use Rattle.ang_names_known.specs.Spaces as spaces;
ghost use Rattle.ang_check_operators.specs.Refusals.{Gives};
ghost use Rattle.ang_check_operators.specs.View.{view_operand, view_operands};
ghost use Rattle.ang_check_typing.specs.Calls as spec;
ghost use Rattle.ang_check_context.specs.Names.{this_operand as own_operand};
ghost use Rattle.ang_check_context.specs.Operands.{types_of as all_types};
ghost use Rattle.ang_check_context.specs.Scope as scopes;
ghost use Rattle.ang_check_uses.specs.Uses as uses;
ghost use Rattle.ang_lex.specs.Text.{text_of};

use crate::called::{CallSite, called_bare};
use crate::enumerated::enumerated_of;
use crate::methods::{called_on, direct_meant, own_method};
use ang_check_context::{
    BodyContext, Locals, Receiver, Within, receiver_within, resolved, this_operand, types_of,
};
use ang_check_operators::{Operand, TypingError, refused};
use ang_check_uses::Resolution;
use ang_kinds::{ErrorKind, List};
use ang_lex::Token;
use ang_names_known::{Family, FoundMethods, Names, is_under};
use ang_types::Asks;
use std::alloc::{AllocError, Global};

/// The methods of this name that `this` has, with the body's class; none where there are none.
#[tactic(auto, using(ang_names_known::proofs::Kin::empty_is))]
fn named_methods<'a>(
    alloc: Global,
    context: &BodyContext<'a>,
    name: &[u8],
) -> Result<Option<(Within, FoundMethods<'a>)>, AllocError>
    ensures exact { IfOk result (λ found. option_map (λ m. (m.0, m.1.methods)) found
        ≡ spec.named_methods context.now context.now.within name.now) }
    ensures few { IfOk result (λ found. IfSome found (λ m. m.0.family < 256)) }
{
    let Some(within) = context.within() else {
        return Ok(None);
    };
    let methods = context.names().methods_named(alloc, within.family, name)?;
    if methods.is_empty() {
        return Ok(None);
    }
    Ok(Some((within, methods)))
}

/// A call by a bare name that was resolved, or the refusal of the use. Of an enumeration's name it is a conversion.
fn bare_use(
    alloc: Global,
    context: &BodyContext<'_>,
    locals: &Locals<'_>,
    name: &Token,
    asks: Asks,
    operands: Vec<Operand>,
    resolution: Resolution,
) -> Result<Operand, TypingError>
    ensures exact { Gives view_operand result (spec.bare_use context.now name.now asks
        (scopes.is_there context.now locals.now (text_of context.now.text name.now))
        (view_operands operands.items) resolution) }
{
    match resolution {
        Resolution::Enumeration(number) => enumerated_of(alloc, name, number, operands),
        resolution => {
            let site = CallSite {
                place: name.place,
                name: *name,
            };
            called_bare(alloc, context, locals, site, asks, operands, resolution)
        }
    }
}

/// A call by a bare name that no method of the class has: a conversion to an enumeration, a function, or what makes an
/// object of the type of the name.
fn function_call(
    alloc: Global,
    context: &BodyContext<'_>,
    locals: &Locals<'_>,
    name: &Token,
    operands: Vec<Operand>,
) -> Result<Operand, TypingError>
    ensures exact { Gives view_operand result (spec.bare_use context.now name.now
        (Asks.Call (all_types (view_operands operands.items)))
        (scopes.is_there context.now locals.now (text_of context.now.text name.now))
        (view_operands operands.items)
        (uses.resolution_of (scopes.scope_of context.now)
        (text_of context.now.text name.now)
        (Asks.Call (all_types (view_operands operands.items))))) }
{
    let types = types_of(alloc, operands.as_slice())?;
    let asks = Asks::Call(List::from_vec(types));
    let resolution = resolved(alloc, context, name, &asks)?;
    bare_use(alloc, context, locals, name, asks, operands, resolution)
}

/// A call of one of these methods on `this`.
fn method_of_this(
    alloc: Global,
    context: &BodyContext<'_>,
    within: Within,
    methods: &FoundMethods<'_>,
    name: &Token,
    operands: Vec<Operand>,
) -> Result<Operand, TypingError>
    requires few { within.family < 256 }
    ensures exact { Gives view_operand result (spec.called_own context.now name.now.place name.now
        (own_operand name.now.place within ∷ view_operands operands.items)
        (uses.best_method context.now.ancestors
        (list_map (spec.virtual_method (spaces.family_type within.family)) methods.now.methods)
        (spaces.family_type within.family) within.read_only
        (all_types (view_operands operands.items)))) }
{
    let on = receiver_within(within);
    let receiver = this_operand(alloc, name.place, within)?;
    own_method(alloc, context, methods, on, name, receiver, operands)
}

/// A name with typed arguments: inside a class its methods, if one has the name, else a conversion
/// to the enumeration or what makes an object of the type of the name, else functions. Locals and
/// fields of the name play no part.
#[tactic(auto, unfolding(crate::specs::Calls::call_typing))]
#[inline(never)]
pub fn call(
    alloc: Global,
    context: &BodyContext<'_>,
    locals: &Locals<'_>,
    token: &Token,
    operands: Vec<Operand>,
) -> Result<Operand, TypingError>
    ensures exact { Gives view_operand result
        (spec.call_typing context.now locals.now token.now (view_operands operands.items)) }
{
    let name = context.text_of(token);
    match named_methods(alloc, context, name)? {
        None => function_call(alloc, context, locals, token, operands),
        Some((within, methods)) => {
            method_of_this(alloc, context, within, &methods, token, operands)
        }
    }
}

#[tactic(auto, using(crate::proofs::Families::named_is))]
fn family_named(names: &Names, name: &[u8]) -> Option<usize>
    ensures exact { result ≡ position (λ f. bytes_eq f.name name.now) names.now.families }
{
    names.family_named(name)
}

/// Whether a family is a class above another one.
fn is_class_above(families: &[Family], family: usize, other: usize, above: &Family) -> bool
    ensures exact { result ≡ (above.now.is_class
        && (not (other == family) && lookup.is_under families.now family other)) }
{
    above.is_class && other != family && is_under(families, family, other)
}

/// The class of this name that stands above the body's class.
fn ancestor(context: &BodyContext<'_>, within: Within, class: &Token) -> Option<usize>
    ensures exact { option_map (λ d. (within, d)) result
        ≡ spec.ancestor_in context.now class.now (Some within) }
{
    let number = family_named(context.names(), context.text_of(class))?;
    let families = context.families();
    let above = families.get(number)?;
    if is_class_above(families, within.family, number, above) {
        Some(number)
    } else {
        None
    }
}

/// What a call of a method of this class on `this` means, as that class has it.
fn method_above(
    alloc: Global,
    context: &BodyContext<'_>,
    family: usize,
    name: &Token,
    on: Receiver,
    operands: &[Operand],
) -> Result<Resolution, AllocError>
    ensures exact { IfOk result (λ r. r ≡ uses.best_method context.now.ancestors
        (flat_map (spec.direct_method on.number)
        (lookup.methods_named context.now.names.families family
        (text_of context.now.text name.now)))
        on.number on.read_only (all_types (view_operands operands.now))) }
{
    let methods = context
        .names()
        .methods_named(alloc, family, context.text_of(name))?;
    direct_meant(alloc, context.lineage(), &methods, on, operands)
}

/// A method of a class above the body's, as that class has it, called on `this`.
#[tactic(auto, unfolding(crate::specs::Calls::scoped_typing))]
#[inline(never)]
pub fn scoped_call(
    alloc: Global,
    context: &BodyContext<'_>,
    class: &Token,
    name: &Token,
    operands: Vec<Operand>,
) -> Result<Operand, TypingError>
    ensures exact { Gives view_operand result
        (spec.scoped_typing context.now class.now name.now (view_operands operands.items)) }
{
    let Some(within) = context.within() else {
        return Err(refused(ErrorKind::UnknownName, class));
    };
    let Some(family) = ancestor(context, within, class) else {
        return Err(refused(ErrorKind::UnknownName, class));
    };
    let on = receiver_within(within);
    let resolution = method_above(alloc, context, family, name, on, operands.as_slice())?;
    let receiver = this_operand(alloc, class.place, within)?;
    called_on(alloc, context, name, receiver, operands, resolution)
}
