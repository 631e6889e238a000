//! Events as text, and what lives after them.
use ang_host::{Answer, EventLog, EventRef, HostReply, Made};
use ang_kinds::Value;
use itoa::Buffer;
use std::alloc::{AllocError, Global};

/// Puts a text after others.
fn put(out: &mut Vec<u8>, text: &str) -> Result<(), AllocError> {
    out.extend_from_slice(text.as_bytes())
}

fn put_number(out: &mut Vec<u8>, before: &str, number: u64) -> Result<(), AllocError> {
    put(out, before)?;
    let mut digits = Buffer::new();
    put(out, digits.format(number))
}

fn put_signed(out: &mut Vec<u8>, number: i64) -> Result<(), AllocError> {
    let mut digits = Buffer::new();
    put(out, digits.format(number))
}

fn put_value(out: &mut Vec<u8>, value: Value) -> Result<(), AllocError> {
    match value {
        Value::Int(number) => put_signed(out, number),
        Value::Uint(number) => put_number(out, "", number),
        Value::Bool(truth) => put(out, if truth { "true" } else { "false" }),
        Value::Key(None) => put(out, "null"),
        Value::Key(Some(key)) => put_number(out, "#", key),
    }
}

fn put_values(out: &mut Vec<u8>, values: &[Value]) -> Result<(), AllocError> {
    let mut comma = "";
    for value in values {
        put(out, comma)?;
        put_value(out, *value)?;
        comma = ",";
    }
    Ok(())
}

fn put_made(out: &mut Vec<u8>, made: Made) -> Result<(), AllocError> {
    match made {
        Made::Key(key) => put_number(out, "made #", key),
        Made::Nothing => put(out, "nothing"),
        Made::Fault(number) => put_number(out, "fault ", u64::from(number)),
        Made::Memory => put(out, "memory"),
        Made::Full => put(out, "full"),
    }
}

fn put_answer(out: &mut Vec<u8>, answer: Answer) -> Result<(), AllocError> {
    match answer {
        Answer::Void => put(out, "void"),
        Answer::Gave(value) => put_value(out, value),
        Answer::Fault(number) => put_number(out, "fault ", u64::from(number)),
        Answer::Memory => put(out, "memory"),
        Answer::Full => put(out, "full"),
    }
}

fn put_reply(out: &mut Vec<u8>, reply: HostReply) -> Result<(), AllocError> {
    match reply {
        HostReply::Making(made) => put_made(out, made),
        HostReply::Asking(answer) => put_answer(out, answer),
    }
}

fn put_object(out: &mut Vec<u8>, object: Option<u64>) -> Result<(), AllocError> {
    match object {
        Some(key) => put_number(out, " #", key),
        None => put(out, " -"),
    }
}

/// Puts an event: its caller, entity, driver, object, arguments and answer, or the driver and key of an object's end.
fn put_event(out: &mut Vec<u8>, event: EventRef<'_>) -> Result<(), AllocError> {
    match event {
        EventRef::Called {
            caller,
            entity,
            driver,
            object,
            args,
            reply,
        } => {
            put(out, "host ")?;
            out.extend_from_slice(caller)?;
            put_number(out, " ", u64::from(entity.0))?;
            put_number(out, " ", u64::from(driver))?;
            put_object(out, object)?;
            put(out, " (")?;
            put_values(out, args)?;
            put(out, ") ")?;
            put_reply(out, reply)
        }
        EventRef::Ended { driver, key } => {
            put_number(out, "end ", u64::from(driver))?;
            put_number(out, " #", key)
        }
    }
}

/// Puts the events of a run after those of the runs before it.
fn put_events(out: &mut Vec<u8>, log: &EventLog) -> Result<(), AllocError> {
    for at in 0..log.len() {
        if let Some(event) = log.get(at) {
            let between = if out.is_empty() { "" } else { " / " };
            put(out, between)?;
            put_event(out, event)?;
        }
    }
    Ok(())
}

fn text_of(alloc: Global, logs: &[EventLog]) -> Result<Vec<u8>, AllocError> {
    let mut out = Vec::new(alloc);
    for log in logs {
        put_events(&mut out, log)?;
    }
    Ok(out)
}

/// The first place at which two texts differ.
fn first_difference(text: &[u8], wanted: &[u8]) -> Option<usize> {
    for (at, byte) in text.iter().enumerate() {
        if wanted.get(at) != Some(byte) {
            return Some(at);
        }
    }
    (text.len() < wanted.len()).then_some(text.len())
}

/// The first byte from which on the events of some runs are not as they are written there.
pub fn first_other(
    alloc: Global,
    logs: &[EventLog],
    wanted: &str,
) -> Result<Option<usize>, AllocError> {
    let text = text_of(alloc, logs)?;
    Ok(first_difference(&text, wanted.as_bytes()))
}

/// Whether an event says that a driver made an object.
fn is_made_by(event: EventRef<'_>, of: u32) -> bool {
    match event {
        EventRef::Called { driver, reply, .. } => match reply {
            HostReply::Making(Made::Key(_)) => driver == of,
            _ => false,
        },
        EventRef::Ended { .. } => false,
    }
}

/// Whether an event says that an object of a driver ended.
fn is_end_of(event: EventRef<'_>, of: u32) -> bool {
    match event {
        EventRef::Called { .. } => false,
        EventRef::Ended { driver, .. } => driver == of,
    }
}

/// How many objects of a driver live after an event, where so many lived before it.
fn live_past(event: EventRef<'_>, of: u32, before: usize) -> Option<usize> {
    if is_made_by(event, of) {
        before.checked_add(1)
    } else if is_end_of(event, of) {
        before.checked_sub(1)
    } else {
        Some(before)
    }
}

/// The same after the events of a run.
fn live_past_run(log: &EventLog, of: u32, before: usize) -> Option<usize> {
    let mut live = before;
    for at in 0..log.len() {
        live = live_past(log.get(at)?, of, live)?;
    }
    Some(live)
}

/// How many objects of a driver live after the events of some runs, where none lived before; none where one ended
/// before it was made.
pub fn live_after(logs: &[EventLog], of: u32) -> Option<usize> {
    let mut live: usize = 0;
    for log in logs {
        live = live_past_run(log, of, live)?;
    }
    Some(live)
}
