//! The same calls twice: once what the script asks the host is listed, and once it is only counted.

ghost use Rattle.ang_engine.specs.Sound.{IsSound};
ghost use Rattle.ang_host.specs.Boxes.{members};
ghost use Rattle.ang_host.specs.Members.{AreFresh, states_of};

use crate::script::count_script;
use ang_drivers::Counter;
use ang_engine::{Command, Engine, Held, Limits, NewRefused, Outcome, Reply, Unheard};
use ang_host::{Driver, Drivers};
use ang_kinds::{List, Mask, Value};
use ang_registry::{RegError, Registry};
use asrun_text::push_outcome;
use std::alloc::{AllocError, Global};
use std::io::{self, Write};

/// The name of the module.
const BENCH: &str = "bench";

/// Asks an object of the host n times, and then for its value.
const SCRIPT: &str = "\
int64 bumps(int64 n) {
    Counter@ counter = Counter(0);
    for (int64 i = 0; i < n; i++) counter.bump();
    return counter.value();
}
";

const TICKS: u64 = 2_147_483_647;

/// Registers what scripts see: counters, of driver 0.
fn add_counters(registry: &mut Registry) -> Result<(), RegError> {
    registry.type_(b"Counter", 0)?;
    registry.factory(b"Counter", 1, b"Counter@ make(int)")?;
    registry.method(b"Counter", 0, b"void bump()")?;
    registry.method(b"Counter", 1, b"int value() const")?;
    Ok(())
}

fn bytes(alloc: Global, text: &str) -> Result<List<u8>, AllocError> {
    Ok(List::from_vec(Vec::from_slice(alloc, text.as_bytes())?))
}

fn new_module(alloc: Global) -> Result<Command, AllocError> {
    let (name, mask) = (bytes(alloc, BENCH)?, Mask(1));
    Ok(Command::NewModule { name, mask })
}

fn add_section(alloc: Global, script: &str) -> Result<Command, AllocError> {
    let (name, text) = (bytes(alloc, BENCH)?, bytes(alloc, script)?);
    Ok(Command::AddSection { name, text })
}

fn build_module(alloc: Global) -> Result<Command, AllocError> {
    let (name, budget) = (bytes(alloc, BENCH)?, TICKS);
    Ok(Command::Build { name, budget })
}

/// Gives a command. What is replied is let go.
fn apply(engine: &mut Engine, command: Result<Command, AllocError>) -> Result<(), AllocError>
    requires sound { IsSound ⟦<dyn Driver as Driver>⟧ engine.old }
    ensures sound { IsSound ⟦<dyn Driver as Driver>⟧ engine.new }
{
    drop(engine.apply(command?));
    Ok(())
}

/// Builds a script.
pub(crate) fn build(alloc: Global, engine: &mut Engine, script: &str) -> Result<(), AllocError>
    requires sound { IsSound ⟦<dyn Driver as Driver>⟧ engine.old }
    ensures sound { IsSound ⟦<dyn Driver as Driver>⟧ engine.new }
{
    apply(engine, new_module(alloc))?;
    apply(engine, add_section(alloc, script))?;
    apply(engine, build_module(alloc))
}

fn number(alloc: Global, count: u32) -> Result<List<Value>, AllocError> {
    let args = Vec::from_slice(alloc, &[Value::Int(i64::from(count))])?;
    Ok(List::from_vec(args))
}

/// A call of the script's function.
pub(crate) fn call_of(
    alloc: Global,
    decl: &str,
    args: List<Value>,
    budget: u64,
) -> Result<Command, AllocError> {
    Ok(Command::Call {
        name: bytes(alloc, BENCH)?,
        decl: bytes(alloc, decl)?,
        args,
        budget,
    })
}

/// The call that asks so many times.
fn bumps(alloc: Global, count: u32) -> Result<Command, AllocError> {
    call_of(alloc, "int64 bumps(int64)", number(alloc, count)?, TICKS)
}

fn outcome_text(alloc: Global, outcome: Outcome) -> Result<Vec<u8>, AllocError> {
    let mut text = Vec::new(alloc);
    match push_outcome(&mut text, outcome) {
        Ok(()) => Ok(text),
        Err(error) => Err(error),
    }
}

fn text_heard(alloc: Global, reply: Reply) -> Result<(usize, Vec<u8>), AllocError> {
    let events = reply.events.len();
    match outcome_text(alloc, reply.outcome) {
        Ok(text) => Ok((events, text)),
        Err(error) => Err(error),
    }
}

/// Calls the script. How many events are listed, and the answer.
fn heard(alloc: Global, engine: &mut Engine, count: u32) -> Result<(usize, Vec<u8>), AllocError>
    requires sound { IsSound ⟦<dyn Driver as Driver>⟧ engine.old }
    ensures sound { IsSound ⟦<dyn Driver as Driver>⟧ engine.new }
{
    text_heard(alloc, engine.apply(bumps(alloc, count)?))
}

/// How many host calls and ends are counted.
#[derive(Clone, Copy)]
pub(crate) struct Counts {
    pub(crate) asked: usize,
    pub(crate) ended: usize,
}

pub(crate) fn text_counted(
    alloc: Global,
    answer: Unheard,
) -> Result<(Counts, Vec<u8>), AllocError> {
    let (asked, ended) = (answer.asked, answer.ended);
    match outcome_text(alloc, answer.outcome) {
        Ok(text) => Ok((Counts { asked, ended }, text)),
        Err(error) => Err(error),
    }
}

/// Calls the script. What is counted, and the answer.
fn counted(alloc: Global, engine: &mut Engine, count: u32) -> Result<(Counts, Vec<u8>), AllocError>
    requires sound { IsSound ⟦<dyn Driver as Driver>⟧ engine.old }
    ensures sound { IsSound ⟦<dyn Driver as Driver>⟧ engine.new }
{
    text_counted(alloc, engine.apply_unheard(bumps(alloc, count)?))
}

fn print_call(
    rt: &HostRuntime,
    count: u32,
    listed: usize,
    counts: Counts,
    text: &[u8],
    is_same: bool,
) -> io::Result<()> {
    let Counts { asked, ended } = counts;
    let same = if is_same { "the same" } else { "another" };
    print!(rt; "{count} bumps: {listed} events, counted {asked} and {ended}, {same} answer: ")?;
    io::writer(rt).write_all(text)
}

/// Calls the script twice. Prints the events of the one call, the host calls and ends of the other, and the answer.
fn call(rt: &HostRuntime, engine: &mut Engine, count: u32) -> io::Result<()>
    requires sound { IsSound ⟦<dyn Driver as Driver>⟧ engine.old }
    ensures sound { IsSound ⟦<dyn Driver as Driver>⟧ engine.new }
{
    let (listed, text) = heard(rt.alloc(), engine, count)?;
    let (counts, other) = counted(rt.alloc(), engine, count)?;
    let is_same = text.as_slice() == other.as_slice();
    print_call(rt, count, listed, counts, text.as_slice(), is_same)
}

fn print_held(rt: &HostRuntime, held: Held) -> io::Result<()> {
    println!(rt;
        "{} slots and {} objects are held",
        held.slots, held.objects
    )
}

fn print_limit(rt: &HostRuntime, limits: Limits) -> io::Result<()> {
    println!(rt; "from here on at most {} events", limits.events)
}

/// Calls the script without a limit of events and with one.
fn call_each(rt: &HostRuntime, engine: &mut Engine) -> io::Result<()>
    requires sound { IsSound ⟦<dyn Driver as Driver>⟧ engine.old }
    ensures sound { IsSound ⟦<dyn Driver as Driver>⟧ engine.new }
{
    call(rt, engine, 1_000)?;
    let mut limits = Limits::none();
    limits.events = 100;
    engine.set_limits(limits);
    print_limit(rt, engine.limits())?;
    call(rt, engine, 1_000)?;
    call(rt, engine, 10)?;
    print_held(rt, engine.held())
}

/// Builds the script and calls it.
fn run_script(rt: &HostRuntime, engine: &mut Engine) -> io::Result<()>
    requires sound { IsSound ⟦<dyn Driver as Driver>⟧ engine.old }
    ensures sound { IsSound ⟦<dyn Driver as Driver>⟧ engine.new }
{
    build(rt.alloc(), engine, SCRIPT)?;
    call_each(rt, engine)
}

/// What is done with an engine.
#[derive(Clone, Copy)]
pub(crate) enum Job<'a> {
    /// The same calls twice.
    Bumps,
    /// Another script is built, and its `main` called where there is a budget.
    Script(&'a str, Option<u64>),
}

fn do_job(rt: &HostRuntime, engine: &mut Engine, job: Job<'_>) -> io::Result<()>
    requires sound { IsSound ⟦<dyn Driver as Driver>⟧ engine.old }
    ensures sound { IsSound ⟦<dyn Driver as Driver>⟧ engine.new }
{
    match job {
        Job::Bumps => run_script(rt, engine),
        Job::Script(script, budget) => count_script(rt, engine, script, budget),
    }
}

/// Does a job with an engine, and discards that at the end.
fn run_on(rt: &HostRuntime, engine: Engine, job: Job<'_>) -> io::Result<()>
    requires sound { IsSound ⟦<dyn Driver as Driver>⟧ engine }
{
    let mut engine = engine;
    let ended = do_job(rt, &mut engine, job);
    drop(engine.discard());
    ended
}

fn end_refused(rt: &HostRuntime, refused: NewRefused) -> io::Result<()> {
    let NewRefused {
        why,
        registry,
        drivers,
    } = refused;
    drop(registry);
    drop(drivers.into_boxes());
    eprintln!(rt; "no engine was made: {why:?}")
}

/// Makes the engine of these drivers.
fn run_with(rt: &HostRuntime, registry: Registry, drivers: Drivers, job: Job<'_>) -> io::Result<()>
    requires fresh { AreFresh (states_of ⟦<dyn Driver as Driver>⟧ (members drivers)) }
{
    match Engine::new(rt.alloc(), registry, drivers) {
        Ok(engine) => run_on(rt, engine, job),
        Err(refused) => end_refused(rt, refused),
    }
}

/// Does a job with an engine of these boxes.
pub(crate) fn run_over(
    rt: &HostRuntime,
    registry: Registry,
    boxes: Vec<Box<dyn Driver>>,
    job: Job<'_>,
) -> io::Result<()> {
    match Drivers::new(boxes) {
        Ok(drivers) => run_with(rt, registry, drivers, job),
        Err((why, _)) => eprintln!(rt; "the drivers were refused: {why:?}"),
    }
}

/// Compares what calls answer whose events are listed and counted.
pub(crate) fn run(rt: &HostRuntime) -> io::Result<()> {
    let alloc = rt.alloc();
    let mut boxes: Vec<Box<dyn Driver>> = Vec::new(alloc);
    boxes.push(Box::new(alloc, Counter::new(alloc)?)?)?;
    let mut registry = Registry::new(alloc);
    if add_counters(&mut registry).is_err() {
        return eprintln!(rt; "a registration was refused");
    }
    run_over(rt, registry, boxes, Job::Bumps)
}
