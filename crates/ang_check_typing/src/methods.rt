//! Methods of the scripts.
ghost use Rattle.std.specs.Prelude.{◌≡◌, ◌∷◌, false, slice_get, IfOk, OnOk, map as list_map};
ghost use Rattle.std.specs.List.{flat_map};
ghost use Rattle.ang_check_operators.specs.Refusals.{Gives};
ghost use Rattle.ang_check_operators.specs.View.{view_operand, view_operands};
ghost use Rattle.ang_check_typing.specs.Calls as spec;
ghost use Rattle.ang_check_typing.specs.Methods as methods_spec;
ghost use Rattle.ang_check_context.specs.Operands.{types_of as all_types};
ghost use Rattle.ang_names_known.specs.Kinds.{numbered};
ghost use Rattle.ang_check_contest.specs.Contest as contests;
ghost use Rattle.ang_check_uses.specs.Contenders as contenders;
ghost use Rattle.ang_check_uses.specs.Uses as uses;
ghost use Rattle.ang_types.specs.Best.{best_of};
ghost use Rattle.ang_types.specs.declared.arg_type.ArgType.TheVariants.{Object};

use crate::called::{CallSite, called_own, with_receiver};
use ang_check_contest::{Contender, Contest, Outcome, ToldContest, is_worth_telling};
use ang_check_context::{BodyContext, Receiver, types_of};
use ang_check_operators::{Operand, TypingError};
use ang_check_uses::{Callable, Called, Reach, Resolution, called_at, types_with_receiver};
use ang_kinds::{ErrorKind, List, Pass};
use ang_lex::Token;
use ang_names_known::{FoundMethod, FoundMethods, ScriptMethod, parameters_of};
use ang_typed::TypedCallee;
use ang_types::{ArgType, Candidate, Lineage};
use std::alloc::{AllocError, Global};

/// How a method is called.
#[derive(Clone, Copy)]
pub enum Dispatch {
    /// By its slot: what runs is the method of the object's class there.
    Virtual,
    /// As its class has it, whatever the object's class. One without a body can't be called so.
    Direct,
}

/// The parameters of a method, with its receiver in front.
fn method_parameters(
    alloc: Global,
    number: u32,
    method: &ScriptMethod,
) -> Result<List<(ArgType, Pass)>, AllocError>
    ensures exact { IfOk result (λ params. params ≡ spec.with_receiver number method.now) }
{
    let receiver = ArgType::Object {
        number,
        read_only: method.read_only,
    };
    let mut params = parameters_of(alloc, &method.function)?.into_vec();
    params.insert(0, (receiver, Pass::RefInOut))?;
    Ok(List::from_vec(params))
}

fn method_called(
    alloc: Global,
    callee: TypedCallee,
    number: u32,
    found: &FoundMethod<'_>,
) -> Result<Callable, AllocError>
    ensures exact { IfOk result (λ c. c ≡ methods_spec.method_called callee number found.now) }
{
    let method = found.method();
    let params = method_parameters(alloc, number, method)?;
    Ok(Callable {
        called: Called::Script(callee),
        result: method.function.result.ty,
        candidate: Candidate { params },
        reach: Some(Reach {
            owner: found.owner(),
            access: method.access,
        }),
    })
}

/// What a call of a method runs, where it can be called so.
fn callee_of(dispatch: Dispatch, method: &ScriptMethod) -> Option<TypedCallee>
    ensures exact { result ≡ methods_spec.callee_of dispatch method.now }
{
    match dispatch {
        Dispatch::Virtual => Some(TypedCallee::Chosen(method.slot)),
        Dispatch::Direct => {
            let body = method.body?;
            Some(TypedCallee::Own(body))
        }
    }
}

/// A method as a function that a call can mean, where it can be called so.
fn callable_as(
    alloc: Global,
    dispatch: Dispatch,
    number: u32,
    found: &FoundMethod<'_>,
) -> Result<Option<Callable>, AllocError>
    ensures exact { IfOk result (λ c. c ≡ methods_spec.callable_as dispatch number found.now) }
{
    let Some(callee) = callee_of(dispatch, found.method()) else {
        return Ok(None);
    };
    let callable = method_called(alloc, callee, number, found)?;
    Ok(Some(callable))
}

/// Takes in the method of a place, where it can be called so. Its parameters are looked at where they lie.
fn enter(
    alloc: Global,
    contest: &mut Contest,
    lineage: &Lineage,
    args: &[ArgType],
    dispatch: Dispatch,
    number: u32,
    place: usize,
    found: &FoundMethod<'_>,
) -> Result<(), AllocError>
    ensures entered { OnOk result (contest.new ≡ contests.after lineage.now args.now contest.old
        (contenders.entry_in (Contender.Method place)
        (methods_spec.callable_as dispatch number found.now))) }
{
    let method = found.method();
    if callee_of(dispatch, method).is_none() {
        return Ok(());
    }
    let receiver = ArgType::Object {
        number,
        read_only: method.read_only,
    };
    let contender = Contender::Method(place);
    contest.enter_method(alloc, lineage, args, contender, receiver, &method.function)
}

/// The same by the place alone.
fn enter_alone(
    alloc: Global,
    contest: &mut Contest,
    lineage: &Lineage,
    args: &[ArgType],
    methods: &FoundMethods<'_>,
    dispatch: Dispatch,
    number: u32,
    place: usize,
) -> Result<(), AllocError>
    ensures entered { OnOk result (contest.new ≡ contests.after lineage.now args.now contest.old
        (contenders.entry_in (Contender.Method place)
        (methods_spec.method_at dispatch number (slice_get methods.now.methods place)))) }
{
    match methods.get(place) {
        None => Ok(()),
        Some(found) => enter(
            alloc, contest, lineage, args, dispatch, number, place, &found,
        ),
    }
}

/// These methods, as each is taken in by itself for arguments of these types.
#[tactic(auto, using(crate::proofs::Contending::one_more))]
fn methods_one_by_one(
    alloc: Global,
    lineage: &Lineage,
    methods: &FoundMethods<'_>,
    dispatch: Dispatch,
    number: u32,
    args: &[ArgType],
) -> Result<Contest, AllocError>
    ensures entered { IfOk result (λ contest. contest ≡ contests.after lineage.now args.now
        contests.fresh (methods_spec.method_entries dispatch number 0 methods.now.methods)) }
{
    let mut contest = Contest::new(alloc);
    for place in 0..methods.len() {
        enter_alone(
            alloc,
            &mut contest,
            lineage,
            args,
            methods,
            dispatch,
            number,
            place,
        )?;
    }
    Ok(contest)
}

/// Whether the method of a place can be called so.
#[inline(always)]
fn can_be_called(methods: &FoundMethods<'_>, dispatch: Dispatch, place: usize) -> bool
    ensures exact { result
        ≡ methods_spec.can_be_called dispatch (slice_get methods.now.methods place) }
{
    match dispatch {
        Dispatch::Virtual => true,
        Dispatch::Direct => match methods.get(place) {
            None => false,
            Some(found) => found.method().body.is_some(),
        },
    }
}

/// Takes in the method of a place, where it can be called so, by the ranks that are told.
#[inline(always)]
#[tactic(auto, using(crate::proofs::ToldMethods::not_called))]
fn enter_told(
    alloc: Global,
    contest: &mut ToldContest<'_>,
    methods: &FoundMethods<'_>,
    dispatch: Dispatch,
    number: u32,
    place: usize,
) -> Result<(), AllocError>
    requires kinds { contest.old.telling.kinds ≡ numbered number methods.now.kinds }
    ensures same { OnOk result (contest.new.telling ≡ contest.old.telling) }
    ensures entered { OnOk result (contest.new.standing ≡ contests.after
        contest.old.telling.ancestors contest.old.telling.args contest.old.standing
        (contenders.entry_in (Contender.Method place)
        (methods_spec.method_at dispatch number (slice_get methods.now.methods place)))) }
{
    if !can_be_called(methods, dispatch, place) {
        return Ok(());
    }
    let Some(row) = methods.row(place) else {
        return Ok(());
    };
    if contest.passes(row) {
        return Ok(());
    }
    contest.enter(alloc, Contender::Method(place), row)?;
    Ok(())
}

/// These methods, as they are taken in by ranks that are found out at once.
#[tactic(auto, using(crate::proofs::Contending::one_more))]
fn methods_at_once(
    alloc: Global,
    lineage: &Lineage,
    methods: &FoundMethods<'_>,
    dispatch: Dispatch,
    number: u32,
    args: &[ArgType],
) -> Result<Contest, AllocError>
    ensures entered { IfOk result (λ contest. contest ≡ contests.after lineage.now args.now
        contests.fresh (methods_spec.method_entries dispatch number 0 methods.now.methods)) }
{
    let fresh = Contest::new(alloc);
    let mut contest = ToldContest::new(alloc, fresh, lineage, number, methods.kinds(), args)?;
    for place in 0..methods.len() {
        enter_told(alloc, &mut contest, methods, dispatch, number, place)?;
    }
    Ok(contest.into_contest())
}

/// These methods, as they are taken in for arguments of these types. The receiver's is the first of these.
fn methods_entered(
    alloc: Global,
    lineage: &Lineage,
    methods: &FoundMethods<'_>,
    dispatch: Dispatch,
    number: u32,
    args: &[ArgType],
) -> Result<Contest, AllocError>
    ensures entered { IfOk result (λ contest. contest ≡ contests.after lineage.now args.now
        contests.fresh (methods_spec.method_entries dispatch number 0 methods.now.methods)) }
{
    if is_worth_telling(methods.len(), methods.kinds().len()) {
        methods_at_once(alloc, lineage, methods, dispatch, number, args)
    } else {
        methods_one_by_one(alloc, lineage, methods, dispatch, number, args)
    }
}

/// The method of a place as a function that a call can mean.
fn method_at(
    alloc: Global,
    methods: &FoundMethods<'_>,
    dispatch: Dispatch,
    number: u32,
    place: usize,
) -> Result<Option<Callable>, AllocError>
    ensures exact { IfOk result
        (λ c. c ≡ methods_spec.method_at dispatch number (slice_get methods.now.methods place)) }
{
    match methods.get(place) {
        None => Ok(None),
        Some(found) => callable_as(alloc, dispatch, number, &found),
    }
}

/// The method that a contender names, as a function that a call can mean.
fn method_named(
    alloc: Global,
    methods: &FoundMethods<'_>,
    dispatch: Dispatch,
    number: u32,
    contender: Contender,
) -> Result<Option<Callable>, AllocError>
    ensures exact { IfOk result
        (λ c. c ≡ methods_spec.method_by dispatch number methods.now.methods contender) }
{
    match contender {
        Contender::Method(place) => method_at(alloc, methods, dispatch, number, place),
        Contender::Function(_)
        | Contender::Import(_)
        | Contender::Entry(_)
        | Contender::Constructor(_) => Ok(None),
    }
}

/// The types of a receiver and of the operands after it.
fn types_on(
    alloc: Global,
    number: u32,
    read_only: bool,
    operands: &[Operand],
) -> Result<Vec<ArgType>, AllocError>
    ensures exact { IfOk result (λ types. types.items
        ≡ Object number read_only ∷ all_types (view_operands operands.now)) }
{
    let types = types_of(alloc, operands)?;
    types_with_receiver(alloc, number, read_only, types.as_slice())
}

/// Whether no method takes the operands on a receiver that may be changed.
#[tactic(auto, using(crate::proofs::Contending::viable_is))]
fn takes_none_changed(
    alloc: Global,
    lineage: &Lineage,
    methods: &FoundMethods<'_>,
    dispatch: Dispatch,
    number: u32,
    operands: &[Operand],
) -> Result<bool, AllocError>
    ensures exact { IfOk result (λ none. none ≡ uses.is_none_viable (best_of lineage.now
        (uses.candidates_of (methods_spec.callables_as dispatch number methods.now.methods))
        (Object number false ∷ all_types (view_operands operands.now)))) }
{
    let types = types_on(alloc, number, false, operands)?;
    let contest = methods_entered(alloc, lineage, methods, dispatch, number, types.as_slice())?;
    Ok(contest.outcome().is_none_viable())
}

/// Why no method takes the operands on this receiver.
fn unmatched(
    alloc: Global,
    lineage: &Lineage,
    methods: &FoundMethods<'_>,
    dispatch: Dispatch,
    on: Receiver,
    operands: &[Operand],
) -> Result<ErrorKind, AllocError>
    ensures exact { IfOk result (λ kind. kind ≡ uses.unmatched lineage.now
        (methods_spec.callables_as dispatch on.number methods.now.methods) on.number on.read_only
        (all_types (view_operands operands.now))) }
{
    if !on.read_only {
        return Ok(ErrorKind::NoMatch);
    }
    if takes_none_changed(alloc, lineage, methods, dispatch, on.number, operands)? {
        Ok(ErrorKind::NoMatch)
    } else {
        Ok(ErrorKind::Const)
    }
}

/// What an outcome among these methods means.
fn picked(
    alloc: Global,
    lineage: &Lineage,
    methods: &FoundMethods<'_>,
    dispatch: Dispatch,
    on: Receiver,
    operands: &[Operand],
    outcome: Outcome,
) -> Result<Resolution, AllocError>
    ensures exact { IfOk result (λ r. r
        ≡ contenders.meant_by (methods_spec.method_by dispatch on.number methods.now.methods)
        (uses.unmatched lineage.now (methods_spec.callables_as dispatch on.number methods.now.methods)
        on.number on.read_only (all_types (view_operands operands.now))) outcome) }
{
    match outcome {
        Outcome::NoViable => {
            let kind = unmatched(alloc, lineage, methods, dispatch, on, operands)?;
            Ok(Resolution::Refused(kind))
        }
        Outcome::Ambiguous => Ok(Resolution::Refused(ErrorKind::Ambiguous)),
        Outcome::Best(contender) => {
            let callable = method_named(alloc, methods, dispatch, on.number, contender)?;
            Ok(called_at(callable))
        }
    }
}

/// The best of some methods on this receiver, for these operands. Each is looked at once, and only the best is copied.
#[tactic(auto, using(crate::proofs::Contending::no_method, crate::proofs::Contending::method_is))]
fn best_on(
    alloc: Global,
    lineage: &Lineage,
    methods: &FoundMethods<'_>,
    dispatch: Dispatch,
    on: Receiver,
    operands: &[Operand],
) -> Result<Resolution, AllocError>
    ensures exact { IfOk result (λ r. r ≡ uses.best_method lineage.now
        (methods_spec.callables_as dispatch on.number methods.now.methods) on.number on.read_only
        (all_types (view_operands operands.now))) }
{
    let Receiver { number, read_only } = on;
    let types = types_on(alloc, number, read_only, operands)?;
    let contest = methods_entered(alloc, lineage, methods, dispatch, number, types.as_slice())?;
    if contest.is_empty() {
        return Ok(Resolution::Refused(ErrorKind::UnknownName));
    }
    let outcome = contest.outcome();
    picked(alloc, lineage, methods, dispatch, on, operands, outcome)
}

/// What a call of one of these methods on a receiver means, for these operands: each as its class has it, whatever the
/// object's class. One without a body is left out.
pub fn direct_meant(
    alloc: Global,
    lineage: &Lineage,
    methods: &FoundMethods<'_>,
    on: Receiver,
    operands: &[Operand],
) -> Result<Resolution, AllocError>
    ensures exact { IfOk result (λ r. r ≡ uses.best_method lineage.now
        (flat_map (spec.direct_method on.number) methods.now.methods) on.number on.read_only
        (all_types (view_operands operands.now))) }
{
    best_on(alloc, lineage, methods, Dispatch::Direct, on, operands)
}

/// A call on this receiver that was resolved among methods of the scripts.
pub fn called_on(
    alloc: Global,
    context: &BodyContext<'_>,
    name: &Token,
    receiver: Operand,
    operands: Vec<Operand>,
    resolution: Resolution,
) -> Result<Operand, TypingError>
    ensures exact { Gives view_operand result (spec.called_own context.now receiver.place name.now
        (view_operand receiver ∷ view_operands operands.items) resolution) }
{
    let place = receiver.place;
    let operands = with_receiver(receiver, operands)?;
    called_own(
        alloc,
        context,
        CallSite { place, name: *name },
        operands,
        resolution,
    )
}

/// A call of one of these methods on this receiver.
pub fn own_method(
    alloc: Global,
    context: &BodyContext<'_>,
    methods: &FoundMethods<'_>,
    on: Receiver,
    name: &Token,
    receiver: Operand,
    operands: Vec<Operand>,
) -> Result<Operand, TypingError>
    ensures exact { Gives view_operand result (spec.called_own context.now receiver.place name.now
        (view_operand receiver ∷ view_operands operands.items)
        (uses.best_method context.now.ancestors
        (list_map (spec.virtual_method on.number) methods.now.methods)
        on.number on.read_only (all_types (view_operands operands.items)))) }
{
    let resolution = best_on(
        alloc,
        context.lineage(),
        methods,
        Dispatch::Virtual,
        on,
        operands.as_slice(),
    )?;
    called_on(alloc, context, name, receiver, operands, resolution)
}
