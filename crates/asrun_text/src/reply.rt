//! The text of a reply, as the program writes it (docs/HOST.md, "The program").
ghost use Rattle.std.specs.Prelude.{◌≡◌, ◌++◌, OnOk, codes, decimal, flat_map};
ghost use Rattle.ang_host.specs.Lent.{event_of};
ghost use Rattle.asrun_lines.specs.Texts.{object_text};
ghost use Rattle.asrun_text.specs.Text.{value_text, values_text, fault_text, event_text, place_text, kind_text, name_text, error_text, refusal_text, outcome_text, reply_text};

use crate::denials::push_denials;
use crate::event_line::{push_call, push_end};
use ang_engine::{Outcome, Refusal, Reply};
use ang_host::{EventLog, EventRef};
use ang_kinds::{Error, ErrorKind, Fault, Place, Value};
use asrun_lines::{push_key, push_number, push_object, push_signed, push_spaced_number, push_text};
use std::alloc::AllocError;

#[tactic(auto, using(crate::proofs::Texts::texts), unfolding(crate::specs::Text::value_text))]
#[inline(always)]
fn push_value(out: &mut Vec<u8>, value: Value) -> Result<(), AllocError>
    ensures added { OnOk result (out.new.items ≡ out.old.items ++ value_text value) }
{
    match value {
        Value::Int(n) => push_signed(out, n),
        Value::Uint(n) => push_number(out, n),
        Value::Bool(true) => push_text(out, "true"),
        Value::Bool(false) => push_text(out, "false"),
        Value::Key(None) => push_text(out, "null"),
        Value::Key(Some(key)) => push_key(out, key),
    }
}

#[tactic(auto, using(crate::proofs::Texts::texts), unfolding(crate::specs::Text::fault_text))]
fn push_fault(out: &mut Vec<u8>, fault: Fault) -> Result<(), AllocError>
    ensures added { OnOk result (out.new.items ≡ out.old.items ++ fault_text fault) }
{
    match fault {
        Fault::Null => push_text(out, "Null"),
        Fault::DivideByZero => push_text(out, "DivideByZero"),
        Fault::DivideOverflow => push_text(out, "DivideOverflow"),
        Fault::Unbound => push_text(out, "Unbound"),
        Fault::Budget => push_text(out, "Budget"),
        Fault::Depth => push_text(out, "Depth"),
        Fault::Host(n) => {
            push_text(out, "Host ")?;
            push_number(out, u64::from(n))
        }
        Fault::BadAnswer => push_text(out, "BadAnswer"),
        Fault::NoObject => push_text(out, "NoObject"),
        Fault::Memory => push_text(out, "Memory"),
        Fault::Tally => push_text(out, "Tally"),
    }
}

#[tactic(auto, using(crate::proofs::Texts::texts))]
pub fn push_place(out: &mut Vec<u8>, place: Place) -> Result<(), AllocError>
    ensures added { OnOk result (out.new.items ≡ out.old.items ++ place_text place) }
{
    push_number(out, u64::from(place.sect))?;
    push_text(out, ":")?;
    push_number(out, u64::from(place.line))?;
    push_text(out, ":")?;
    push_number(out, u64::from(place.column))
}

#[tactic(auto, unfolding(crate::specs::Text::kind_text))]
fn kind_name(kind: ErrorKind) -> &'static str
    ensures exact { result.now ≡ kind_text kind }
{
    match kind {
        ErrorKind::TooLong => "TooLong",
        ErrorKind::BadByte => "BadByte",
        ErrorKind::BadNumber => "BadNumber",
        ErrorKind::OpenComment => "OpenComment",
        ErrorKind::TooDeep => "TooDeep",
        ErrorKind::Syntax => "Syntax",
        ErrorKind::Duplicate => "Duplicate",
        ErrorKind::Limit => "Limit",
        ErrorKind::UnknownType => "UnknownType",
        ErrorKind::BadType => "BadType",
        ErrorKind::ByValue => "ByValue",
        ErrorKind::BadBase => "BadBase",
        ErrorKind::BadImport => "BadImport",
        ErrorKind::BadOverride => "BadOverride",
        ErrorKind::MissingMethod => "MissingMethod",
        ErrorKind::Cyclic => "Cyclic",
        ErrorKind::UnknownName => "UnknownName",
        ErrorKind::NoMatch => "NoMatch",
        ErrorKind::Ambiguous => "Ambiguous",
        ErrorKind::Const => "Const",
        ErrorKind::Private => "Private",
        ErrorKind::Protected => "Protected",
        ErrorKind::NotBool => "NotBool",
        ErrorKind::BadConversion => "BadConversion",
        ErrorKind::BadOut => "BadOut",
        ErrorKind::NoAssign => "NoAssign",
        ErrorKind::Jump => "Jump",
        ErrorKind::NoDefault => "NoDefault",
        ErrorKind::NoReturn => "NoReturn",
    }
}

pub fn push_bytes(out: &mut Vec<u8>, bytes: &[u8]) -> Result<(), AllocError>
    ensures added { OnOk result (out.new.items ≡ out.old.items ++ bytes.now) }
{
    out.extend_from_slice(bytes)
}

#[tactic(auto, using(crate::proofs::Texts::texts))]
fn push_more_values(out: &mut Vec<u8>, values: &[Value]) -> Result<(), AllocError>
    ensures added { OnOk result (out.new.items ≡ out.old.items
        ++ flat_map (λ w. codes "," ++ value_text w) values.now) }
{
    for value in values {
        push_text(out, ",")?;
        push_value(out, *value)?;
    }
    Ok(())
}

#[tactic(auto, using(crate::proofs::Texts::texts), unfolding(crate::specs::Text::values_text))]
fn push_values(out: &mut Vec<u8>, values: &[Value]) -> Result<(), AllocError>
    ensures added { OnOk result (out.new.items ≡ out.old.items ++ values_text values.now) }
{
    match values {
        [] => Ok(()),
        [first, more @ ..] => {
            push_value(out, *first)?;
            push_more_values(out, more)
        }
    }
}

/// The line of a host call, from its entity on.
#[tactic(auto, using(crate::proofs::Texts::texts))]
fn push_asked(
    out: &mut Vec<u8>,
    entity: u32,
    driver: u32,
    object: Option<u64>,
) -> Result<(), AllocError>
    ensures added { OnOk result (out.new.items ≡ out.old.items
        ++ (decimal entity ++ codes " " ++ decimal driver ++ codes " " ++ object_text object)) }
{
    push_spaced_number(out, u64::from(entity))?;
    push_spaced_number(out, u64::from(driver))?;
    push_object(out, object)
}

/// The line of a host call, of which `answered` stands behind its arguments, put after what stands in `out`.
#[tactic(auto, using(crate::proofs::Texts::texts))]
#[inline(never)]
pub(crate) fn push_long(
    out: &mut Vec<u8>,
    caller: &[u8],
    entity: u32,
    driver: u32,
    object: Option<u64>,
    args: &[Value],
    answered: &[u8],
) -> Result<(), AllocError>
    ensures added { OnOk result (out.new.items ≡ out.old.items
        ++ (codes "host " ++ caller.now ++ (codes " " ++ decimal entity ++ codes " "
        ++ decimal driver ++ codes " " ++ object_text object ++ codes " ("
        ++ (values_text args.now ++ answered.now)))) }
{
    push_text(out, "host ")?;
    push_bytes(out, caller)?;
    push_text(out, " ")?;
    push_asked(out, entity, driver, object)?;
    push_text(out, " (")?;
    push_values(out, args)?;
    push_bytes(out, answered)
}

/// The line of a host call or of the end of a host object, put after what stands in `out`.
///
/// # Errors
/// A growth of memory was refused. Nothing is promised of `out` then.
pub fn push_event(out: &mut Vec<u8>, event: &EventRef<'_>) -> Result<(), AllocError>
    ensures added { OnOk result (out.new.items ≡ out.old.items ++ event_text (event_of event.now)) }
{
    match *event {
        EventRef::Called {
            caller,
            entity,
            driver,
            object,
            args,
            reply,
        } => { push_call(out, caller, entity, driver, object, args, reply) }
        EventRef::Ended { driver, key } => push_end(out, driver, key),
    }
}

fn push_name(out: &mut Vec<u8>, name: &[u8]) -> Result<(), AllocError>
    ensures added { OnOk result (out.new.items ≡ out.old.items ++ name_text name.now) }
{
    if name.is_empty() {
        return push_text(out, "-");
    }
    push_bytes(out, name)
}

/// The line of an error, put after what stands in `out`.
///
/// # Errors
/// A growth of memory was refused. Nothing is promised of `out` then.
#[tactic(auto, using(crate::proofs::Texts::texts), unfolding(crate::specs::Text::error_text))]
pub fn push_error(out: &mut Vec<u8>, error: &Error) -> Result<(), AllocError>
    ensures added { OnOk result (out.new.items ≡ out.old.items ++ error_text error.now) }
{
    push_text(out, "error ")?;
    push_text(out, kind_name(error.kind))?;
    push_text(out, " ")?;
    push_place(out, error.place)?;
    push_text(out, " ")?;
    push_name(out, error.name.as_slice())?;
    push_text(out, "\n")
}

#[tactic(auto, using(crate::proofs::Texts::texts))]
fn push_init_failed(out: &mut Vec<u8>, fault: Fault) -> Result<(), AllocError>
    ensures added { OnOk result (out.new.items ≡ out.old.items
        ++ (codes "InitFailed " ++ fault_text fault)) }
{
    push_text(out, "InitFailed ")?;
    push_fault(out, fault)
}

#[tactic(auto, using(crate::proofs::Texts::texts), unfolding(crate::specs::Text::refusal_text))]
fn push_refusal(out: &mut Vec<u8>, refusal: Refusal) -> Result<(), AllocError>
    ensures added { OnOk result (out.new.items ≡ out.old.items ++ refusal_text refusal) }
{
    match refusal {
        Refusal::BadName => push_text(out, "BadName"),
        Refusal::ModuleExists => push_text(out, "ModuleExists"),
        Refusal::Limit => push_text(out, "Limit"),
        Refusal::NoModule => push_text(out, "NoModule"),
        Refusal::NotBuilt => push_text(out, "NotBuilt"),
        Refusal::BadBudget => push_text(out, "BadBudget"),
        Refusal::BuildMemory => push_text(out, "BuildMemory"),
        Refusal::BuildErrors => push_text(out, "BuildErrors"),
        Refusal::InitFailed(fault) => push_init_failed(out, fault),
        Refusal::NoFunction => push_text(out, "NoFunction"),
        Refusal::NoImport => push_text(out, "NoImport"),
        Refusal::SignatureDiffers => push_text(out, "SignatureDiffers"),
        Refusal::NoGroup => push_text(out, "NoGroup"),
        Refusal::InUse => push_text(out, "InUse"),
        Refusal::NotCallable => push_text(out, "NotCallable"),
        Refusal::BadArguments => push_text(out, "BadArguments"),
        Refusal::Memory => push_text(out, "Memory"),
    }
}

/// The line of an outcome, put after what stands in `out`.
///
/// # Errors
/// A growth of memory was refused. Nothing is promised of `out` then.
#[tactic(auto, using(crate::proofs::Texts::texts), unfolding(crate::specs::Text::outcome_text))]
pub fn push_outcome(out: &mut Vec<u8>, outcome: Outcome) -> Result<(), AllocError>
    ensures added { OnOk result (out.new.items ≡ out.old.items ++ outcome_text outcome) }
{
    match outcome {
        Outcome::Done(None) => push_text(out, "ok")?,
        Outcome::Done(Some(value)) => {
            push_text(out, "ok ")?;
            push_value(out, value)?;
        }
        Outcome::Failed(fault) => {
            push_text(out, "fault ")?;
            push_fault(out, fault)?;
        }
        Outcome::Refused(refusal) => {
            push_text(out, "refused ")?;
            push_refusal(out, refusal)?;
        }
    }
    push_text(out, "\n")
}

/// The text of a reply, put after what stands in `out`: events, errors, denials and the outcome, a
/// line for each.
///
/// # Errors
/// A growth of memory was refused. Nothing is promised of `out` then.
#[tactic(auto, using(crate::proofs::Texts::texts), unfolding(crate::specs::Text::reply_text))]
pub fn push_reply(out: &mut Vec<u8>, reply: &Reply) -> Result<(), AllocError>
    ensures added { OnOk result (out.new.items ≡ out.old.items ++ reply_text reply.now) }
{
    push_events(out, &reply.events)?;
    push_errors(out, reply.errors.as_slice())?;
    push_denials(out, reply.denials.as_slice())?;
    push_outcome(out, reply.outcome)
}

fn push_events(out: &mut Vec<u8>, events: &EventLog) -> Result<(), AllocError>
    ensures added { OnOk result (out.new.items ≡ out.old.items ++ flat_map event_text events.now) }
{
    for index in 0..events.len() {
        if let Some(event) = events.get(index) {
            push_event(out, &event)?;
        }
    }
    Ok(())
}

fn push_errors(out: &mut Vec<u8>, errors: &[Error]) -> Result<(), AllocError>
    ensures added { OnOk result (out.new.items ≡ out.old.items ++ flat_map error_text errors.now) }
{
    for error in errors {
        push_error(out, error)?;
    }
    Ok(())
}
