//! Events as they are listed, and as they are read back from a log.
use crate::drivers::are_bare;
use ang_drivers::{Cell, Console};
use ang_host::{
    Answer, Driver, Drivers, EventBuffer, EventLog, EventRef, HostReply, Made, call_listed,
    make_listed, read_listed, release_listed, write_listed,
};
use ang_kinds::{EntityNo, Value};
use std::alloc::{AllocError, Global};

/// A call of a console: the module whose script asked, and the arguments.
type Note = (&'static [u8], &'static [Value]);

/// Asks the first driver, a console, to note these arguments.
fn note(drivers: &mut Drivers, events: &mut EventBuffer, note: &Note) -> Result<(), AllocError> {
    let (caller, args) = *note;
    if drivers.len() == 0 || !are_bare(args) {
        return Err(AllocError);
    }
    events.reserve_call(1, caller, args.len())?;
    let _ = call_listed(drivers, events, caller, EntityNo(7), 0, 0, None, args);
    Ok(())
}

fn note_all(
    drivers: &mut Drivers,
    events: &mut EventBuffer,
    notes: &[Note],
) -> Result<(), AllocError> {
    for row in notes {
        note(drivers, events, row)?;
    }
    Ok(())
}

/// Makes a cell with the second driver, writes and reads it, and gives it up.
fn use_a_cell(drivers: &mut Drivers, events: &mut EventBuffer) -> Result<(), AllocError> {
    if drivers.len() != 2 {
        return Err(AllocError);
    }
    events.reserve_call(1, b"menu", 1)?;
    let made = make_listed(
        drivers,
        events,
        b"menu",
        EntityNo(8),
        1,
        0,
        &[Value::Int(5)],
    );
    let Made::Key(key) = made else {
        return Err(AllocError);
    };
    events.reserve(1)?;
    let _ = release_listed(drivers, events, 1, key);
    Ok(())
}

/// Reads and writes the console's register.
fn use_a_register(drivers: &mut Drivers, events: &mut EventBuffer) -> Result<(), AllocError> {
    if drivers.len() != 2 {
        return Err(AllocError);
    }
    events.reserve_call(1, b"map", 1)?;
    let _ = write_listed(
        drivers,
        events,
        b"map",
        EntityNo(9),
        0,
        0,
        None,
        Value::Int(-5),
    );
    events.reserve_call(1, b"map", 0)?;
    let _ = read_listed(drivers, events, b"map", EntityNo(9), 0, 0, None);
    Ok(())
}

/// What the drivers are asked.
enum Asked {
    Notes(&'static [Note]),
    /// A cell is made and ends, and the register is written and read.
    Each,
}

fn ask(drivers: &mut Drivers, events: &mut EventBuffer, asked: &Asked) -> Result<(), AllocError> {
    match asked {
        Asked::Notes(notes) => note_all(drivers, events, notes),
        Asked::Each => {
            use_a_cell(drivers, events)?;
            use_a_register(drivers, events)
        }
    }
}

fn ask_and_end(
    mut drivers: Drivers,
    events: &mut EventBuffer,
    asked: &Asked,
) -> Result<(), AllocError> {
    let done = ask(&mut drivers, events, asked);
    let _ = drivers.into_boxes();
    done
}

/// Asks a new console and a new cell.
fn ask_new(alloc: Global, events: &mut EventBuffer, asked: &Asked) -> Result<(), AllocError> {
    let mut boxes: Vec<Box<dyn Driver>> = Vec::new(alloc);
    boxes.push(Box::new(alloc, Console::new(alloc)?)?)?;
    boxes.push(Box::new(alloc, Cell::new(alloc)?)?)?;
    match Drivers::new(boxes) {
        Ok(drivers) => ask_and_end(drivers, events, asked),
        Err(_) => Err(AllocError),
    }
}

/// An event as it is wanted.
enum Event {
    /// The module whose script asked, the entity, the driver, the arguments and the answer. There is no object.
    Called(&'static [u8], u32, u32, &'static [Value], HostReply),
    /// The driver and the key.
    Ended(u32, u64),
}

fn is_reply(reply: HostReply, want: HostReply) -> bool {
    match (reply, want) {
        (HostReply::Making(made), HostReply::Making(want)) => made == want,
        (HostReply::Asking(answer), HostReply::Asking(want)) => answer == want,
        _ => false,
    }
}

fn is_event(event: EventRef<'_>, want: &Event) -> bool {
    match (event, want) {
        (
            EventRef::Called {
                caller,
                entity,
                driver,
                object: None,
                args,
                reply,
            },
            Event::Called(by, of, its, with, answer),
        ) => {
            caller == *by
                && entity == EntityNo(*of)
                && driver == *its
                && args == *with
                && is_reply(reply, *answer)
        }
        (EventRef::Ended { driver, key }, Event::Ended(its, ended)) => {
            driver == *its && key == *ended
        }
        _ => false,
    }
}

/// Whether these are all events, in their order.
fn are_events(log: &EventLog, wanted: &[Event]) -> bool {
    for (at, want) in wanted.iter().enumerate() {
        match log.get(at) {
            Some(event) if is_event(event, want) => {}
            _ => return false,
        }
    }
    log.len() == wanted.len() && log.get(wanted.len()).is_none()
}

const VOID: HostReply = HostReply::Asking(Answer::Void);

const NOTED: &[Note] = &[
    (b"menu", &[]),
    (b"map", &[Value::Int(-1)]),
    (b"menu", &[Value::Uint(2), Value::Int(3)]),
    (b"menu", &[Value::Int(4), Value::Int(5), Value::Bool(true)]),
    (b"map", LONGEST),
];

const LONGEST: &[Value] = &[
    Value::Int(6),
    Value::Int(7),
    Value::Int(8),
    Value::Key(None),
    Value::Int(9),
];

const NOTES_READ: &[Event] = &[
    Event::Called(b"menu", 7, 0, &[], VOID),
    Event::Called(b"map", 7, 0, &[Value::Int(-1)], VOID),
    Event::Called(b"menu", 7, 0, &[Value::Uint(2), Value::Int(3)], VOID),
    Event::Called(
        b"menu",
        7,
        0,
        &[Value::Int(4), Value::Int(5), Value::Bool(true)],
        VOID,
    ),
    Event::Called(b"map", 7, 0, LONGEST, VOID),
];

const EACH_READ: &[Event] = &[
    Event::Called(
        b"menu",
        8,
        1,
        &[Value::Int(5)],
        HostReply::Making(Made::Key(0)),
    ),
    Event::Ended(1, 0),
    Event::Called(b"map", 9, 0, &[Value::Int(-5)], VOID),
    Event::Called(
        b"map",
        9,
        0,
        &[],
        HostReply::Asking(Answer::Gave(Value::Int(-5))),
    ),
];

/// What the drivers are asked, how many of the events are ends, and all of them.
const LOGS: &[(Asked, usize, &[Event])] = &[
    (Asked::Notes(NOTED), 0, NOTES_READ),
    (Asked::Each, 1, EACH_READ),
];

fn is_log(log: &EventLog, ends: usize, wanted: &[Event]) -> bool {
    log.ends() == ends && log.is_empty() == wanted.is_empty() && are_events(log, wanted)
}

/// Whether what was asked is listened to, and is read back.
fn is_read(
    alloc: Global,
    asked: &Asked,
    ends: usize,
    wanted: &[Event],
) -> Result<bool, AllocError> {
    let mut events = EventBuffer::new(alloc);
    ask_new(alloc, &mut events, asked)?;
    if !events.is_listening() {
        return Ok(false);
    }
    let log = EventLog::from_buffer(events);
    Ok(is_log(&log, ends, wanted))
}

#[test]
fn events_are_read_back(rt: HostRuntime) -> Result<(), AllocError> {
    for (asked, ends, wanted) in LOGS {
        assert!(rt; is_read(rt.alloc(), asked, *ends, wanted)?, "{ends} ends");
    }
    Ok(())
}

const UNHEARD: &Asked = &Asked::Notes(NOTED);

/// How many events and ends are counted where nobody hears them, and whether anybody does.
fn unheard(alloc: Global) -> Result<(usize, usize, bool), AllocError> {
    let mut events = EventBuffer::unheard(alloc);
    ask_new(alloc, &mut events, UNHEARD)?;
    Ok((events.len(), events.ends(), events.is_listening()))
}

#[test]
fn unheard_calls_are_counted(rt: HostRuntime) -> Result<(), AllocError> {
    assert_eq!(rt; unheard(rt.alloc())?, (5, 0, false));
    Ok(())
}
