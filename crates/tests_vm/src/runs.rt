//! Runs on one machine, one after the other: what each gives, what the host was asked, and what lives then.
ghost use Rattle.std.specs.Prelude.{◌≡◌, ◌≢◌, Ok, Err};
ghost use Rattle.ang_kinds.specs.declared.fault.Fault.TheVariants.{Null as NullFault};
ghost use Rattle.tests_vm.specs.Ready.{IsAtRest, MayBegin};
ghost use Rattle.tests_vm.specs.declared.runs.Verdict as Verdict;

use crate::listed::{first_other, live_after};
use crate::machine::{call, end, events_for, initialize, with_drivers};
use ang_host::{Driver, EventBuffer, EventLog};
use ang_kinds::Fault;
use ang_meaning::Routine;
use ang_vm::Machine;
use ang_vm_stack::table::Table;
use std::alloc::{AllocError, Global};

/// A run of a body with a budget, and what it gives.
pub enum Turn {
    /// A call, with a number or nothing.
    Call(usize, Option<u64>, u64, Result<u64, Fault>),
    /// A call without arguments that gives a number, on a thousand ticks.
    Gives(usize, u64),
    /// A call without arguments that faults, on a thousand ticks.
    Faults(usize, Fault),
    /// An initializer, and the ticks that it leaves.
    Initializes(usize, u64, Result<u64, Fault>),
}

/// Its name, the module's number, turns on a new machine, and all that is listed then. After the last turn no global
/// holds an object.
pub type Case = (&'static str, u32, &'static [Turn], &'static str);

/// What is not as it should be.
#[derive(Clone, Copy, PartialEq, Eq, Debug)]
pub enum Wrong {
    /// The turn of that number gives something else.
    Turn(usize),
    /// After that turn other objects live than the events say.
    Level(usize),
    /// From that byte on something else is listed.
    Listed(usize),
    /// After the last turn something lives.
    Left,
    /// There is no machine.
    Machine,
}

const DRIVERS: u32 = 3;

/// What became of a turn.
#[derive(Clone, Copy, PartialEq, Eq)]
enum Verdict {
    /// It gave something else.
    Wrong,
    /// It gave that, and another turn may follow.
    Right,
    /// It gave `Null`, as it should. Of what lost code leaves nothing is promised, so no other turn follows.
    Last,
}

/// A run, with what it is to give.
#[derive(Clone, Copy)]
struct Run {
    entry: Routine,
    arg: Option<u64>,
    budget: u64,
    initializes: bool,
    want: Result<u64, Fault>,
}

fn run_of(home: u32, turn: &Turn) -> Run {
    let (number, arg, budget, initializes, want) = match *turn {
        Turn::Call(number, arg, budget, want) => (number, arg, budget, false, want),
        Turn::Gives(number, value) => (number, None, 1000, false, Ok(value)),
        Turn::Faults(number, fault) => (number, None, 1000, false, Err(fault)),
        Turn::Initializes(number, ticks, want) => (number, None, ticks, true, want),
    };
    Run {
        entry: Routine { home, number },
        arg,
        budget,
        initializes,
        want,
    }
}

fn run_once(
    table: &Table,
    machine: &mut Machine,
    run: Run,
    events: &mut EventBuffer,
) -> Result<u64, Fault>
    requires begins { MayBegin ⟦<dyn Driver as Driver>⟧ machine.old events.old }
    ensures begins { result ≢ Err NullFault →
        MayBegin ⟦<dyn Driver as Driver>⟧ machine.new events.new }
{
    if run.initializes {
        initialize(table, machine, run.entry, run.budget, events)
    } else {
        call(table, machine, run.entry, run.arg, run.budget, events)
    }
}

/// A run, and once again where it found no memory.
fn run_again(
    table: &Table,
    machine: &mut Machine,
    run: Run,
    events: &mut EventBuffer,
) -> Result<u64, Fault>
    requires begins { MayBegin ⟦<dyn Driver as Driver>⟧ machine.old events.old }
    ensures begins { result ≢ Err NullFault →
        MayBegin ⟦<dyn Driver as Driver>⟧ machine.new events.new }
{
    match run_once(table, machine, run, events) {
        Err(Fault::Memory) => run_once(table, machine, run, events),
        ended => ended,
    }
}

fn verdict_on(ended: Result<u64, Fault>, want: Result<u64, Fault>) -> Verdict
    ensures goes_on { result ≡ Verdict.Right → ended ≢ Err NullFault }
{
    if ended != want {
        return Verdict::Wrong;
    }
    match ended {
        Err(Fault::Null) => Verdict::Last,
        _ => Verdict::Right,
    }
}

/// Takes a turn, and keeps what is listed in it.
fn take(
    alloc: Global,
    table: &Table,
    machine: &mut Machine,
    run: Run,
    logs: &mut Vec<EventLog>,
) -> Result<Verdict, AllocError>
    requires rest { IsAtRest ⟦<dyn Driver as Driver>⟧ machine.old }
    ensures goes_on { result ≡ Ok Verdict.Right → IsAtRest ⟦<dyn Driver as Driver>⟧ machine.new }
{
    let mut events = events_for(alloc, machine)?;
    let ended = run_again(table, machine, run, &mut events);
    if !events.is_listening() {
        return Ok(Verdict::Wrong);
    }
    logs.push(EventLog::from_buffer(events))?;
    Ok(verdict_on(ended, run.want))
}

/// Whether a driver is idle just where the events say that none of its objects lives, and how many live.
fn live_of(machine: &Machine, driver: u32, logs: &[EventLog]) -> Option<usize> {
    if driver as usize >= machine.store.drivers.len() {
        return None;
    }
    let live = live_after(logs, driver)?;
    (machine.store.drivers.idle(driver) == (live == 0)).then_some(live)
}

/// How many host objects live by the events; none where that is not what the drivers say.
fn all_live(machine: &Machine, logs: &[EventLog]) -> Option<usize> {
    let mut live: usize = 0;
    for driver in 0..DRIVERS {
        live = live.checked_add(live_of(machine, driver, logs)?)?;
    }
    Some(live)
}

/// Whether the drivers, the events and the store say the same of what lives.
fn is_level(machine: &Machine, logs: &[EventLog]) -> bool {
    all_live(machine, logs) == Some(machine.store.live)
}

/// The first turn that is wrong.
fn first_wrong(
    alloc: Global,
    table: &Table,
    machine: &mut Machine,
    case: &Case,
    logs: &mut Vec<EventLog>,
) -> Result<Option<Wrong>, AllocError>
    requires rest { IsAtRest ⟦<dyn Driver as Driver>⟧ machine.old }
{
    for (at, turn) in case.2.iter().enumerate() {
        let verdict = take(alloc, table, machine, run_of(case.1, turn), logs)?;
        if verdict == Verdict::Wrong {
            return Ok(Some(Wrong::Turn(at)));
        }
        if !is_level(machine, logs.as_slice()) {
            return Ok(Some(Wrong::Level(at)));
        }
        if verdict == Verdict::Last {
            return Ok(None);
        }
    }
    Ok(None)
}

/// Whether something lives still.
fn is_left(machine: &Machine) -> bool {
    machine.store.live > 0 || !machine.store.heap.is_empty()
}

/// What is wrong with a case: with its turns, with what lives after them, or with what is listed. With each growth
/// of memory refused in turn, a run may find none, and the next one does; nothing is said of what is listed then.
pub fn wrong_in(alloc: Global, table: &Table, case: &Case) -> Result<Option<Wrong>, AllocError> {
    let Some(mut machine) = with_drivers(alloc)? else {
        return Ok(Some(Wrong::Machine));
    };
    let mut logs = Vec::new(alloc);
    let wrong = first_wrong(alloc, table, &mut machine, case, &mut logs);
    let left = is_left(&machine).then_some(Wrong::Left);
    end(machine);
    let listed = first_other(alloc, logs.as_slice(), case.3)?.map(Wrong::Listed);
    Ok(wrong?.or(left).or(listed))
}
