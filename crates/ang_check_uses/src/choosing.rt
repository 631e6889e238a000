//! The best of what a call can mean. Each candidate is looked at where it lies, and the best alone is copied.
ghost use Rattle.std.specs.Prelude.{◌≡◌, ◌∷◌, true, IfOk, slice_get, map as list_map};
ghost use Rattle.std.specs.List.{flat_map};
ghost use Rattle.ang_types.specs.declared.arg_type.ArgType.TheVariants.{Object};
ghost use Rattle.ang_names_known.specs.Spaces as spaces;
ghost use Rattle.ang_kinds.specs.declared.error.ErrorKind.TheVariants.{NoMatch};
ghost use Rattle.ang_check_uses.specs.Choosing as spec;
ghost use Rattle.ang_check_contest.specs.Contest as contests;
ghost use Rattle.ang_check_uses.specs.Contenders as contenders;
ghost use Rattle.ang_check_uses.specs.Uses as uses;

use crate::hosts::{HostCallKind, callable_as};
use crate::makers::{constructor_of, makers_in};
use crate::picking::{best_of_those, called_at, types_with_receiver};
use crate::scripts::{FunctionList, script_callable};
use crate::told_hosts::enter_hosts;
use crate::told_scripts::enter_scripts;
use crate::uses::{Callable, Resolution};
use ang_check_contest::{Contender, Contest, Outcome, Scope, Wanted, found_at};
use ang_kinds::{EntityNo, ErrorKind};
use ang_names_known::{BorrowedText, Family, ScriptConstructor, family_of_type};
use ang_types::{ArgType, Lineage};
use ang_view::View;
use std::alloc::{AllocError, Global};

/// The host's function of this entry as one that a call can mean, where it is wanted.
///
/// The only error is want of memory.
fn entry_named(
    alloc: Global,
    view: &View,
    wanted: &Wanted<'_>,
    usage: HostCallKind,
    number: EntityNo,
) -> Result<Option<Callable>, AllocError>
    ensures exact { IfOk result (λ c. c ≡ spec.entry_named usage wanted.now view.now number) }
{
    match found_at(alloc, view, wanted, number)? {
        None => Ok(None),
        Some(function) => {
            let callable = callable_as(usage, function)?;
            Ok(Some(callable))
        }
    }
}

/// The host's function that this contender names, where it is wanted.
///
/// The only error is want of memory.
fn host_named(
    alloc: Global,
    view: &View,
    wanted: &Wanted<'_>,
    usage: HostCallKind,
    contender: Contender,
) -> Result<Option<Callable>, AllocError>
    ensures exact { IfOk result (λ c. c ≡ spec.host_by usage wanted.now view.now contender) }
{
    match contender {
        Contender::Entry(number) => entry_named(alloc, view, wanted, usage, number),
        Contender::Function(_)
        | Contender::Import(_)
        | Contender::Constructor(_)
        | Contender::Method(_) => Ok(None),
    }
}

/// What an outcome among the host's functions means.
///
/// The only error is want of memory.
fn host_picked(
    alloc: Global,
    view: &View,
    wanted: &Wanted<'_>,
    usage: HostCallKind,
    unviable: ErrorKind,
    outcome: Outcome,
) -> Result<Resolution, AllocError>
    ensures exact { IfOk result (λ r. r ≡ contenders.meant_by
        (spec.host_by usage wanted.now view.now) unviable outcome) }
{
    match outcome {
        Outcome::NoViable => Ok(Resolution::Refused(unviable)),
        Outcome::Ambiguous => Ok(Resolution::Refused(ErrorKind::Ambiguous)),
        Outcome::Best(contender) => {
            let callable = host_named(alloc, view, wanted, usage, contender)?;
            Ok(called_at(callable))
        }
    }
}

/// The function of this contender, among those of a name.
///
/// The only error is want of memory.
fn function_named(
    alloc: Global,
    scope: &Scope<'_>,
    name: &[u8],
    contender: Contender,
) -> Result<Option<Callable>, AllocError>
    ensures exact { IfOk result (λ c. c ≡ spec.function_by scope.now name.now contender) }
{
    let names = scope.names();
    match contender {
        Contender::Function(number) => {
            script_callable(alloc, FunctionList::Functions, names.functions(), number)
        }
        Contender::Import(number) => {
            script_callable(alloc, FunctionList::Imports, names.imports(), number)
        }
        Contender::Entry(_) | Contender::Constructor(_) | Contender::Method(_) => {
            let wanted = Wanted::Function(BorrowedText::new(name));
            let usage = HostCallKind::Function;
            host_named(alloc, scope.view(), &wanted, usage, contender)
        }
    }
}

/// What an outcome among the functions of a name means.
fn function_picked(
    alloc: Global,
    scope: &Scope<'_>,
    name: &[u8],
    outcome: Outcome,
) -> Result<Resolution, AllocError>
    ensures exact { IfOk result (λ r. r ≡ contenders.meant_by (spec.function_by scope.now name.now)
        NoMatch outcome) }
{
    match outcome {
        Outcome::NoViable => Ok(Resolution::Refused(ErrorKind::NoMatch)),
        Outcome::Ambiguous => Ok(Resolution::Refused(ErrorKind::Ambiguous)),
        Outcome::Best(contender) => {
            let callable = function_named(alloc, scope, name, contender)?;
            Ok(called_at(callable))
        }
    }
}

/// All functions of a name, as they are taken in for these arguments.
///
/// The only error is want of memory.
pub fn functions_entered(
    alloc: Global,
    scope: &Scope<'_>,
    name: &[u8],
    args: &[ArgType],
) -> Result<Contest, AllocError>
    ensures entered { IfOk result (λ contest. contest ≡ contests.after scope.now.ancestors args.now
        contests.fresh (contenders.entries_by (spec.function_by scope.now name.now)
        (spec.functions_named scope.now name.now))) }
{
    let contest = enter_scripts(Contest::new(alloc), alloc, scope, args, name)?;
    let wanted = Wanted::Function(BorrowedText::new(name));
    let numbers = scope.view().find(name);
    enter_hosts(
        contest,
        alloc,
        scope,
        args,
        &wanted,
        HostCallKind::Function,
        numbers,
    )
}

/// What a call of the functions of a name means.
///
/// The only error is want of memory.
pub fn function_meant(
    alloc: Global,
    scope: &Scope<'_>,
    name: &[u8],
    args: &[ArgType],
) -> Result<Resolution, AllocError>
    ensures exact { IfOk result (λ r. r ≡ uses.best_function scope.now.ancestors
        (uses.functions_of scope.now name.now) args.now) }
{
    let contest = functions_entered(alloc, scope, name, args)?;
    if contest.is_empty() {
        return Ok(Resolution::Refused(ErrorKind::UnknownName));
    }
    function_picked(alloc, scope, name, contest.outcome())
}

/// The host's functions that are wanted, as they are taken in for these arguments.
///
/// The only error is want of memory.
pub fn hosts_entered(
    alloc: Global,
    scope: &Scope<'_>,
    args: &[ArgType],
    wanted: &Wanted<'_>,
    usage: HostCallKind,
    numbers: &[EntityNo],
) -> Result<Contest, AllocError>
    requires usage { spec.is_used_as usage wanted.now ≡ true }
    ensures entered { IfOk result (λ contest. contest ≡ contests.after scope.now.ancestors args.now
        contests.fresh (flat_map (spec.host_entry usage wanted.now scope.now.view) numbers.now)) }
{
    enter_hosts(
        Contest::new(alloc),
        alloc,
        scope,
        args,
        wanted,
        usage,
        numbers,
    )
}

/// The best factory of a host type for arguments of these types, or this kind of refusal where none takes them.
///
/// The only error is want of memory.
#[tactic(auto, using(crate::proofs::ChosenLaws::factories_best))]
pub fn factory_meant(
    alloc: Global,
    scope: &Scope<'_>,
    unviable: ErrorKind,
    number: u32,
    args: &[ArgType],
) -> Result<Resolution, AllocError>
    ensures exact { IfOk result (λ r. r ≡ uses.best_of_those scope.now.ancestors unviable
        (uses.factories_of scope.now.view number) args.now) }
{
    let wanted = Wanted::Factory(number);
    let usage = HostCallKind::Maker(number);
    let view = scope.view();
    let makers = view.makers(EntityNo(number));
    let contest = hosts_entered(alloc, scope, args, &wanted, usage, makers)?;
    host_picked(alloc, view, &wanted, usage, unviable, contest.outcome())
}

/// The host's methods of a name, as they are taken in for these arguments on a receiver that may be changed or not.
///
/// The only error is want of memory.
#[tactic(auto, using(crate::proofs::ChosenLaws::methods_joined))]
pub fn methods_entered(
    alloc: Global,
    scope: &Scope<'_>,
    number: u32,
    name: &[u8],
    read_only: bool,
    args: &[ArgType],
) -> Result<Contest, AllocError>
    ensures entered { IfOk result (λ contest. contest ≡ contests.after scope.now.ancestors
        (Object number read_only ∷ args.now) contests.fresh (contenders.entries_by
        (spec.method_by scope.now.view number name.now)
        (spec.methods_named scope.now.view number name.now))) }
{
    let types = types_with_receiver(alloc, number, read_only, args)?;
    let wanted = Wanted::Method(number, BorrowedText::new(name));
    let usage = HostCallKind::Method(number);
    let methods = scope.view().owned(EntityNo(number), name);
    hosts_entered(alloc, scope, types.as_slice(), &wanted, usage, methods)
}

/// Why none of the host's methods of a name takes the arguments.
///
/// The only error is want of memory.
#[tactic(auto, using(crate::proofs::ChosenLaws::methods_none))]
fn unmatched(
    alloc: Global,
    scope: &Scope<'_>,
    number: u32,
    name: &[u8],
    read_only: bool,
    args: &[ArgType],
) -> Result<ErrorKind, AllocError>
    ensures exact { IfOk result (λ kind. kind ≡ uses.unmatched scope.now.ancestors
        (uses.host_methods scope.now.view number name.now) number read_only args.now) }
{
    if !read_only {
        return Ok(ErrorKind::NoMatch);
    }
    let contest = methods_entered(alloc, scope, number, name, false, args)?;
    if contest.outcome().is_none_viable() {
        Ok(ErrorKind::NoMatch)
    } else {
        Ok(ErrorKind::Const)
    }
}

/// What an outcome among the host's methods of a name means.
///
/// The only error is want of memory.
fn method_picked(
    alloc: Global,
    scope: &Scope<'_>,
    number: u32,
    name: &[u8],
    read_only: bool,
    args: &[ArgType],
    outcome: Outcome,
) -> Result<Resolution, AllocError>
    ensures exact { IfOk result (λ r. r ≡ contenders.meant_by
        (spec.method_by scope.now.view number name.now)
        (uses.unmatched scope.now.ancestors (uses.host_methods scope.now.view number name.now)
        number read_only args.now) outcome) }
{
    match outcome {
        Outcome::NoViable => {
            let kind = unmatched(alloc, scope, number, name, read_only, args)?;
            Ok(Resolution::Refused(kind))
        }
        Outcome::Ambiguous => Ok(Resolution::Refused(ErrorKind::Ambiguous)),
        Outcome::Best(contender) => {
            let wanted = Wanted::Method(number, BorrowedText::new(name));
            let usage = HostCallKind::Method(number);
            let callable = host_named(alloc, scope.view(), &wanted, usage, contender)?;
            Ok(called_at(callable))
        }
    }
}

/// The best method of a host type on a receiver that is read only or not, for arguments of these types.
///
/// The only error is want of memory.
pub fn host_method_meant(
    alloc: Global,
    scope: &Scope<'_>,
    number: u32,
    name: &[u8],
    read_only: bool,
    args: &[ArgType],
) -> Result<Resolution, AllocError>
    ensures exact { IfOk result (λ r. r ≡ uses.best_method scope.now.ancestors
        (uses.host_methods scope.now.view number name.now) number read_only args.now) }
{
    let contest = methods_entered(alloc, scope, number, name, read_only, args)?;
    if contest.is_empty() {
        return Ok(Resolution::Refused(ErrorKind::UnknownName));
    }
    let outcome = contest.outcome();
    method_picked(alloc, scope, number, name, read_only, args, outcome)
}

/// The constructors of a class, as they are taken in for these arguments.
///
/// The only error is want of memory.
fn constructors_entered(
    alloc: Global,
    lineage: &Lineage,
    args: &[ArgType],
    constructors: &[ScriptConstructor],
) -> Result<Contest, AllocError>
    ensures entered { IfOk result (λ contest. contest ≡ contests.after lineage.now args.now
        contests.fresh (spec.constructor_entries 0 constructors.now)) }
{
    let mut contest = Contest::new(alloc);
    let mut place = 0;
    for constructor in constructors {
        let contender = Contender::Constructor(place);
        contest.enter(alloc, lineage, args, contender, &constructor.function)?;
        place += 1;
    }
    Ok(contest)
}

/// The constructor at a place as what makes an object, where there is one.
fn constructor_at(
    alloc: Global,
    family: usize,
    number: u32,
    constructors: &[ScriptConstructor],
    place: usize,
) -> Result<Option<Callable>, AllocError>
    requires same { spaces.family_type family ≡ number }
    ensures exact { IfOk result
        (λ c. c ≡ spec.constructor_in family (slice_get constructors.now place)) }
{
    match constructors.get(place) {
        None => Ok(None),
        Some(constructor) => {
            let callable = constructor_of(alloc, family, number, constructor)?;
            Ok(Some(callable))
        }
    }
}

/// The constructor that a contender names.
fn constructor_named(
    alloc: Global,
    family: usize,
    number: u32,
    constructors: &[ScriptConstructor],
    contender: Contender,
) -> Result<Option<Callable>, AllocError>
    requires same { spaces.family_type family ≡ number }
    ensures exact { IfOk result
        (λ c. c ≡ spec.constructor_by family constructors.now contender) }
{
    match contender {
        Contender::Constructor(place) => {
            constructor_at(alloc, family, number, constructors, place)
        }
        Contender::Function(_)
        | Contender::Import(_)
        | Contender::Entry(_)
        | Contender::Method(_) => Ok(None),
    }
}

/// What an outcome among the constructors of a class means.
fn constructor_picked(
    alloc: Global,
    unviable: ErrorKind,
    family: usize,
    number: u32,
    constructors: &[ScriptConstructor],
    outcome: Outcome,
) -> Result<Resolution, AllocError>
    requires same { spaces.family_type family ≡ number }
    ensures exact { IfOk result (λ r. r ≡ contenders.meant_by
        (spec.constructor_by family constructors.now) unviable outcome) }
{
    match outcome {
        Outcome::NoViable => Ok(Resolution::Refused(unviable)),
        Outcome::Ambiguous => Ok(Resolution::Refused(ErrorKind::Ambiguous)),
        Outcome::Best(contender) => {
            let callable = constructor_named(alloc, family, number, constructors, contender)?;
            Ok(called_at(callable))
        }
    }
}

/// The best constructor of a class.
#[tactic(auto, using(crate::proofs::ChosenLaws::constructors_best))]
fn constructor_meant(
    alloc: Global,
    lineage: &Lineage,
    unviable: ErrorKind,
    family: usize,
    number: u32,
    constructors: &[ScriptConstructor],
    args: &[ArgType],
) -> Result<Resolution, AllocError>
    requires same { spaces.family_type family ≡ number }
    ensures exact { IfOk result (λ r. r ≡ uses.best_of_those lineage.now unviable
        (list_map (uses.constructor_of family) constructors.now) args.now) }
{
    let contest = constructors_entered(alloc, lineage, args, constructors)?;
    let outcome = contest.outcome();
    constructor_picked(alloc, unviable, family, number, constructors, outcome)
}

/// The constructors of a class. An interface has none.
fn own_constructors(families: &[Family], family: usize) -> &[ScriptConstructor]
    ensures exact { result.now ≡ spec.constructors_in (slice_get families.now family) }
{
    match families.get(family) {
        Some(declared) if declared.is_class => declared.constructors.as_slice(),
        _ => &[],
    }
}

/// What makes an object of the class of this number, which is family `family`.
#[tactic(auto, using(ang_names_known::proofs::Kin::empty_is, crate::proofs::ChosenLaws::made_by_own))]
fn made_in(
    alloc: Global,
    scope: &Scope<'_>,
    unviable: ErrorKind,
    family: usize,
    number: u32,
    args: &[ArgType],
) -> Result<Resolution, AllocError>
    requires same { spaces.family_type family ≡ number }
    ensures exact { IfOk result (λ r. r ≡ uses.best_of_those scope.now.ancestors unviable
        (uses.makers_in scope.now.names.families family
        (slice_get scope.now.names.families family)) args.now) }
{
    let families = scope.names().families();
    let constructors = own_constructors(families, family);
    if constructors.is_empty() {
        let makers = makers_in(alloc, families, family, number)?;
        return Ok(best_of_those(scope.lineage(), unviable, makers, args));
    }
    constructor_meant(
        alloc,
        scope.lineage(),
        unviable,
        family,
        number,
        constructors,
        args,
    )
}

/// The best of what makes an object of the type of this number for arguments of these types, or this kind of refusal where
/// nothing takes them.
///
/// The only error is want of memory.
#[tactic(auto, unfolding(crate::specs::Uses::makers_of))]
pub fn maker_meant(
    alloc: Global,
    scope: &Scope<'_>,
    unviable: ErrorKind,
    number: u32,
    args: &[ArgType],
) -> Result<Resolution, AllocError>
    ensures exact { IfOk result (λ r. r ≡ uses.best_of_those scope.now.ancestors unviable
        (uses.makers_of scope.now number) args.now) }
{
    match family_of_type(number) {
        None => factory_meant(alloc, scope, unviable, number, args),
        Some(family) => made_in(alloc, scope, unviable, family, number, args),
    }
}
