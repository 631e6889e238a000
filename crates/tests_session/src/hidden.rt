//! A host that applies what `ang_alike::laws::replies_tell` says. Over two registries that show the same to the one mask that
//! it gives, the same commands have the same replies but for denials and what `RemoveGroup` answers, once it has read off the
//! replies that none tells of a refusal and that drivers answered the same.
ghost use Rattle.ang_engine.specs.Sound.{IsSound};
ghost use Rattle.ang_host.specs.Boxes.{members};
ghost use Rattle.ang_host.specs.Members.{AreFresh, states_of};

use ang_alike::tells_of_no_refusal;
use ang_drivers::Console;
use ang_engine::{Command, Engine, Error, NewRefused, Outcome, Refusal, Reply};
use ang_host::{Driver, Drivers, EventLog, EventRef, HostReply};
use ang_kinds::{EntityNo, Fault, List, Mask, Value};
use ang_registry::{Registry, View};
use std::alloc::{AllocError, Global};

// ---- two registries

/// The mask that modules are given.
const GIVEN: Mask = Mask(1);

/// A mask of what they don't see.
const HIDDEN: Mask = Mask(2);

/// The group whose entries are hidden.
const GROUP: &str = "h";

/// Registers what the mask hides: a function, and a type in a group. Whether that was taken.
fn hides(registry: &mut Registry) -> bool {
    registry.set_default_mask(HIDDEN);
    registry
        .function(0, 1, b"int64 secret(int64, int64)")
        .is_ok()
        && registry.begin_group(GROUP.as_bytes()).is_ok()
        && registry.type_(b"Cell", 0).is_ok()
        && registry.end_group().is_ok()
}

/// Leaves blanks in the places of these two.
fn leaves_blanks(registry: &mut Registry) -> bool {
    registry.blank().is_ok() && registry.blank().is_ok()
}

/// What the mask sees, and with it what it does not, or blanks.
fn offered(alloc: Global, has_hidden: bool) -> Result<Registry, AllocError> {
    let mut registry = Registry::new(alloc);
    registry.set_default_mask(GIVEN);
    let is_taken = registry.function(0, 0, b"void print(int64)").is_ok()
        && if has_hidden {
            hides(&mut registry)
        } else {
            leaves_blanks(&mut registry)
        };
    if is_taken {
        Ok(registry)
    } else {
        drop(registry);
        Err(AllocError)
    }
}

fn has_the_first(view: &View) -> bool {
    view.len() == 3
        && view.get(EntityNo(0)).is_some()
        && view.get(EntityNo(1)).is_none()
        && view.get(EntityNo(2)).is_none()
}

/// Whether the mask sees the first of three entries alone.
fn shows_the_first(alloc: Global, registry: &Registry) -> Result<bool, AllocError> {
    let view = registry.seen(alloc, GIVEN)?;
    let has_it = has_the_first(&view);
    drop(view);
    Ok(has_it)
}

/// Whether the mask sees the first entry alone, before the group is removed and after it.
fn shows_it_still(alloc: Global, registry: &mut Registry) -> Result<bool, AllocError> {
    let is_shown = shows_the_first(alloc, registry)?;
    let is_removed = registry.remove_group(GROUP.as_bytes()).is_ok();
    Ok(is_shown && is_removed && shows_the_first(alloc, registry)?)
}

fn first_shows(alloc: Global) -> Result<bool, AllocError> {
    let mut first = offered(alloc, true)?;
    let is_shown = shows_it_still(alloc, &mut first);
    drop(first);
    is_shown
}

fn second_shows(alloc: Global) -> Result<bool, AllocError> {
    let second = offered(alloc, false)?;
    let is_shown = shows_the_first(alloc, &second);
    drop(second);
    is_shown
}

/// Whether both registries show the same, before the group is removed and after it: the first entry, which both have by the
/// same call.
fn show_same(alloc: Global) -> Result<bool, AllocError> {
    Ok(first_shows(alloc)? && second_shows(alloc)?)
}

#[test]
fn registries_show_the_same(rt: HostRuntime) -> Result<(), AllocError> {
    assert!(rt; show_same(rt.alloc())?);
    Ok(())
}

// ---- commands

/// What a host has done with its module.
#[derive(Clone, Copy, PartialEq, Eq)]
enum Deed {
    Make,
    Add,
    Build,
    Call,
    Discard,
    /// It removes the group.
    Remove,
}

/// What both replies have to be.
enum Want {
    /// They have this outcome, and no denials.
    Same(Outcome),
    /// They list errors, and the first one a denial.
    Denied,
    /// The first list has the group, the second has not.
    FirstAlone,
}

/// A command, with its text, a section or a declaration.
struct Row(Deed, &'static str, Want);

const DONE: Want = Want::Same(Outcome::Done(None));

const FOUR: Want = Want::Same(Outcome::Done(Some(Value::Int(4))));

const FAILED: Want = Want::Same(Outcome::Failed(Fault::DivideByZero));

const PRINTS: &str = "\
int64 next(int64 n) { print(n); return n + 1; }
int64 fails(int64 n) { print(n); print(-n); return n / (n - n); }
";

const PEEKS: &str = "int64 peek(int64 n) { return secret(n, n); }\n";

const ROWS: &[Row] = &[
    Row(Deed::Make, "", DONE),
    Row(Deed::Add, PRINTS, DONE),
    Row(Deed::Build, "", DONE),
    Row(Deed::Call, "int64 next(int64)", FOUR),
    Row(Deed::Call, "int64 fails(int64)", FAILED),
    Row(Deed::Add, PEEKS, DONE),
    Row(Deed::Build, "", Want::Denied),
    Row(Deed::Discard, "", DONE),
    Row(Deed::Remove, "", Want::FirstAlone),
    Row(Deed::Make, "", DONE),
    Row(Deed::Add, PRINTS, DONE),
    Row(Deed::Build, "", DONE),
    Row(Deed::Call, "int64 next(int64)", FOUR),
    Row(Deed::Discard, "", DONE),
];

const BUDGET: u64 = 1_000;

fn bytes(alloc: Global, text: &str) -> Result<List<u8>, AllocError> {
    Ok(List::from_vec(Vec::from_slice(alloc, text.as_bytes())?))
}

/// A call of a function of the module, with the number 3.
fn call(alloc: Global, name: List<u8>, decl: &str) -> Result<Command, AllocError> {
    let decl = bytes(alloc, decl)?;
    let args = List::from_vec(Vec::from_slice(alloc, &[Value::Int(3)])?);
    Ok(Command::Call {
        name,
        decl,
        args,
        budget: BUDGET,
    })
}

fn command(alloc: Global, deed: Deed, text: &str) -> Result<Command, AllocError> {
    let name = bytes(alloc, if deed == Deed::Remove { GROUP } else { "a" })?;
    Ok(match deed {
        Deed::Make => Command::NewModule { name, mask: GIVEN },
        Deed::Add => Command::AddSection {
            name,
            text: bytes(alloc, text)?,
        },
        Deed::Build => Command::Build {
            name,
            budget: BUDGET,
        },
        Deed::Call => call(alloc, name, text)?,
        Deed::Discard => Command::Discard { name },
        Deed::Remove => Command::RemoveGroup { name },
    })
}

// ---- replies

fn apply(alloc: Global, engine: &mut Engine, row: &Row) -> Result<Reply, AllocError>
    requires sound { IsSound ⟦<dyn Driver as Driver>⟧ engine.old }
    ensures sound { IsSound ⟦<dyn Driver as Driver>⟧ engine.new }
{
    let command = command(alloc, row.0, row.1)?;
    Ok(engine.apply(command))
}

fn apply_all(alloc: Global, engine: &mut Engine) -> Result<Vec<Reply>, AllocError>
    requires sound { IsSound ⟦<dyn Driver as Driver>⟧ engine.old }
    ensures sound { IsSound ⟦<dyn Driver as Driver>⟧ engine.new }
{
    let mut replies = Vec::new(alloc);
    for row in ROWS {
        let reply = apply(alloc, engine, row)?;
        replies.push(reply)?;
    }
    Ok(replies)
}

fn apply_and_end(alloc: Global, engine: Engine) -> Result<Vec<Reply>, AllocError>
    requires sound { IsSound ⟦<dyn Driver as Driver>⟧ engine }
{
    let mut engine = engine;
    let replies = apply_all(alloc, &mut engine);
    drop(engine.discard());
    replies
}

fn end_refused(refused: NewRefused) -> Result<Vec<Reply>, AllocError> {
    let NewRefused {
        why: _,
        registry,
        drivers,
    } = refused;
    drop(registry);
    drop(drivers.into_boxes());
    Err(AllocError)
}

fn replies_with(
    alloc: Global,
    registry: Registry,
    drivers: Drivers,
) -> Result<Vec<Reply>, AllocError>
    requires fresh { AreFresh (states_of ⟦<dyn Driver as Driver>⟧ (members drivers)) }
{
    match Engine::new(alloc, registry, drivers) {
        Ok(engine) => apply_and_end(alloc, engine),
        Err(refused) => end_refused(refused),
    }
}

fn console(alloc: Global) -> Result<Vec<Box<dyn Driver>>, AllocError> {
    let mut boxes: Vec<Box<dyn Driver>> = Vec::new(alloc);
    boxes.push(Box::new(alloc, Console::new(alloc)?)?)?;
    Ok(boxes)
}

fn replies_by(
    alloc: Global,
    registry: Registry,
    boxes: Vec<Box<dyn Driver>>,
) -> Result<Vec<Reply>, AllocError> {
    match Drivers::new(boxes) {
        Ok(drivers) => replies_with(alloc, registry, drivers),
        Err(_) => {
            drop(registry);
            Err(AllocError)
        }
    }
}

/// The replies to all commands over a registry, by a new console.
fn replies_over(alloc: Global, registry: Registry) -> Result<Vec<Reply>, AllocError> {
    match console(alloc) {
        Ok(boxes) => replies_by(alloc, registry, boxes),
        Err(error) => {
            drop(registry);
            Err(error)
        }
    }
}

// ---- what is read off two replies

fn is_same_reply(reply: HostReply, other: HostReply) -> bool {
    match (reply, other) {
        (HostReply::Making(made), HostReply::Making(other)) => made == other,
        (HostReply::Asking(answer), HostReply::Asking(other)) => answer == other,
        _ => false,
    }
}

fn answer_of(event: EventRef<'_>) -> Option<HostReply> {
    match event {
        EventRef::Called { reply, .. } => Some(reply),
        EventRef::Ended { .. } => None,
    }
}

fn is_answered_same(first: EventRef<'_>, second: EventRef<'_>) -> bool {
    match (answer_of(first), answer_of(second)) {
        (Some(reply), Some(other)) => is_same_reply(reply, other),
        (None, None) => true,
        _ => false,
    }
}

/// Whether drivers answered the same.
fn answered_same(first: &EventLog, second: &EventLog) -> bool {
    for at in 0..first.len() {
        match (first.get(at), second.get(at)) {
            (Some(event), Some(other)) if is_answered_same(event, other) => {}
            _ => return false,
        }
    }
    first.len() == second.len()
}

/// Whether both events are the same call. No object is made here, so none ends.
fn is_same_call(first: EventRef<'_>, second: EventRef<'_>) -> bool {
    match (first, second) {
        (
            EventRef::Called {
                caller,
                entity,
                driver,
                object,
                args,
                reply,
            },
            EventRef::Called {
                caller: its_caller,
                entity: its_entity,
                driver: its_driver,
                object: its_object,
                args: its_args,
                reply: its_reply,
            },
        ) => {
            caller == its_caller
                && entity == its_entity
                && driver == its_driver
                && object == its_object
                && args == its_args
                && is_same_reply(reply, its_reply)
        }
        _ => false,
    }
}

fn are_same_calls(first: &EventLog, second: &EventLog) -> bool {
    for at in 0..first.len() {
        match (first.get(at), second.get(at)) {
            (Some(event), Some(other)) if is_same_call(event, other) => {}
            _ => return false,
        }
    }
    first.len() == second.len()
}

fn are_same_errors(first: &[Error], second: &[Error]) -> bool {
    for (error, other) in first.iter().zip(second.iter()) {
        let is_same = error.kind == other.kind
            && error.place == other.place
            && error.name.as_slice() == other.name.as_slice();
        if !is_same {
            return false;
        }
    }
    first.len() == second.len()
}

const HAS_ERRORS: Outcome = Outcome::Refused(Refusal::BuildErrors);

const NO_GROUP: Outcome = Outcome::Refused(Refusal::NoGroup);

/// Whether both outcomes are the same, of those that are met here.
fn is_outcome(outcome: Outcome, want: Outcome) -> bool {
    match (outcome, want) {
        (Outcome::Done(value), Outcome::Done(want)) => value == want,
        (Outcome::Failed(fault), Outcome::Failed(want)) => fault == want,
        (Outcome::Refused(Refusal::BuildErrors), Outcome::Refused(Refusal::BuildErrors)) => true,
        (Outcome::Refused(Refusal::NoGroup), Outcome::Refused(Refusal::NoGroup)) => true,
        _ => false,
    }
}

/// What the law says: but for denials, and for the outcome of a removal, both are the same.
fn are_alike(deed: Deed, first: &Reply, second: &Reply) -> bool {
    (deed == Deed::Remove || is_outcome(first.outcome, second.outcome))
        && are_same_calls(&first.events, &second.events)
        && are_same_errors(first.errors.as_slice(), second.errors.as_slice())
}

fn have(outcomes: (Outcome, Outcome), first: Outcome, second: Outcome) -> bool {
    is_outcome(outcomes.0, first) && is_outcome(outcomes.1, second)
}

/// Whether both are as wanted.
fn are_wanted(want: &Want, first: &Reply, second: &Reply) -> bool {
    let outcomes = (first.outcome, second.outcome);
    let denials = first.denials.as_slice().len();
    let is_so = match want {
        Want::Same(outcome) => denials == 0 && have(outcomes, *outcome, *outcome),
        Want::Denied => denials == 1 && have(outcomes, HAS_ERRORS, HAS_ERRORS),
        Want::FirstAlone => denials == 0 && have(outcomes, Outcome::Done(None), NO_GROUP),
    };
    is_so && second.denials.as_slice().is_empty()
}

/// Whether the host finds in two replies what the law says.
///
/// # Errors
/// One of them tells of a refusal, so that the law does not bind.
fn agree(row: &Row, first: &Reply, second: &Reply) -> Result<bool, AllocError> {
    if !tells_of_no_refusal(first.outcome) || !tells_of_no_refusal(second.outcome) {
        return Err(AllocError);
    }
    Ok(
        answered_same(&first.events, &second.events)
            && are_alike(row.0, first, second)
            && are_wanted(&row.2, first, second),
    )
}

/// The place of the first command after which the replies are not what they have to be.
fn first_wrong(first: &[Reply], second: &[Reply]) -> Result<Option<usize>, AllocError> {
    for (at, row) in ROWS.iter().enumerate() {
        let (Some(reply), Some(other)) = (first.get(at), second.get(at)) else {
            return Ok(Some(at));
        };
        if !agree(row, reply, other)? {
            return Ok(Some(at));
        }
    }
    Ok(None)
}

fn wrong_over_both(alloc: Global) -> Result<Option<usize>, AllocError> {
    let first = replies_over(alloc, offered(alloc, true)?)?;
    let second = replies_over(alloc, offered(alloc, false)?)?;
    first_wrong(first.as_slice(), second.as_slice())
}

/// Run with a growth of memory refused, the law may not bind, and at the next attempt it does.
#[test]
fn hidden_entries_do_not_show(rt: HostRuntime) -> Result<(), AllocError> {
    let wrong = match wrong_over_both(rt.alloc()) {
        Ok(wrong) => wrong,
        Err(_) => wrong_over_both(rt.alloc())?,
    };
    assert_eq!(rt; wrong, None);
    Ok(())
}
