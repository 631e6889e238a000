//! A host to start from: what it offers scripts, objects of its own, one module, a build and a call
//! (docs/RATTLE_HOST.md).
#![tactic(auto)]

ghost use Rattle.ang_engine.specs.Sound.{IsSound};
ghost use Rattle.ang_host.specs.Boxes.{members};
ghost use Rattle.ang_host.specs.Members.{AreFresh, states_of};

mod doors;

use crate::doors::Doors;
use ang_engine::{Command, Engine, NewRefused, Outcome, Reply};
use ang_host::{Driver, Drivers};
use ang_kinds::{List, Mask, Value};
use ang_registry::{RegError, Registry};
use asrun_text::push_reply;
use std::alloc::{AllocError, Global};
use std::io;
use std::io::Write;
use std::process::ExitCode;

/// What the module sees.
const PLAYERS: Mask = Mask(1);

/// The ticks that each build and each call may take.
const TICKS: u64 = 100_000;

/// The name of the module.
const MODULE: &str = "house";

/// The module's script.
const SCRIPT: &str = "\
Door front;

bool enter(int key) {
  if (key == 7) front.open();
  return front.is_open();
}
";

/// Registers what scripts may ask, each entry under a mask. The driver's number is 0.
fn register(registry: &mut Registry) -> Result<(), RegError> {
    registry.set_default_mask(PLAYERS);
    registry.type_(b"Door", 0)?;
    registry.factory(b"Door", 0, b"Door@ f()")?;
    registry.method(b"Door", 0, b"void open()")?;
    registry.method(b"Door", 1, b"void close()")?;
    registry.method(b"Door", 2, b"bool is_open() const")?;
    Ok(())
}

fn bytes(alloc: Global, text: &str) -> Result<List<u8>, AllocError> {
    Ok(List::from_vec(Vec::from_slice(alloc, text.as_bytes())?))
}

/// Prints the reply as `asrun` does: its events, its errors, its denials, its outcome.
fn print_reply(rt: &HostRuntime, reply: &Reply) -> io::Result<()> {
    let mut text = Vec::new(rt.alloc());
    push_reply(&mut text, reply)?;
    io::writer(rt).write_all(&text)
}

/// Does a command and prints its reply. Answers how the command ended.
fn apply(rt: &HostRuntime, engine: &mut Engine, command: Command) -> io::Result<Outcome>
    requires sound { IsSound ⟦<dyn Driver as Driver>⟧ engine.old }
    ensures sound { IsSound ⟦<dyn Driver as Driver>⟧ engine.new }
{
    let reply = engine.apply(command);
    print_reply(rt, &reply)?;
    Ok(reply.outcome)
}

/// Makes the module, gives it its script and builds it.
fn build(rt: &HostRuntime, engine: &mut Engine) -> io::Result<()>
    requires sound { IsSound ⟦<dyn Driver as Driver>⟧ engine.old }
    ensures sound { IsSound ⟦<dyn Driver as Driver>⟧ engine.new }
{
    let alloc = rt.alloc();
    let (name, mask) = (bytes(alloc, MODULE)?, PLAYERS);
    apply(rt, engine, Command::NewModule { name, mask })?;
    let (name, text) = (bytes(alloc, MODULE)?, bytes(alloc, SCRIPT)?);
    apply(rt, engine, Command::AddSection { name, text })?;
    let (name, budget) = (bytes(alloc, MODULE)?, TICKS);
    apply(rt, engine, Command::Build { name, budget })?;
    Ok(())
}

/// Calls the function of the script that has this declaration, with these values.
fn call(rt: &HostRuntime, engine: &mut Engine, decl: &str, args: &[Value]) -> io::Result<Outcome>
    requires sound { IsSound ⟦<dyn Driver as Driver>⟧ engine.old }
    ensures sound { IsSound ⟦<dyn Driver as Driver>⟧ engine.new }
{
    let alloc = rt.alloc();
    let (name, decl) = (bytes(alloc, MODULE)?, bytes(alloc, decl)?);
    let args = List::from_vec(Vec::from_slice(alloc, args)?);
    let command = Command::Call {
        name,
        decl,
        args,
        budget: TICKS,
    };
    apply(rt, engine, command)
}

/// Tries a key at the door, and says whether it opens it.
fn try_key(rt: &HostRuntime, engine: &mut Engine, key: i64) -> io::Result<()>
    requires sound { IsSound ⟦<dyn Driver as Driver>⟧ engine.old }
    ensures sound { IsSound ⟦<dyn Driver as Driver>⟧ engine.new }
{
    let outcome = call(rt, engine, "bool enter(int)", &[Value::Int(key)])?;
    if let Outcome::Done(Some(Value::Bool(true))) = outcome {
        println!(rt; "the key {key} opens the door")?;
    }
    Ok(())
}

/// What is done with the engine. The function that makes it can't have a `?` after that, since an engine can't be
/// dropped.
fn use_engine(rt: &HostRuntime, engine: &mut Engine) -> io::Result<()>
    requires sound { IsSound ⟦<dyn Driver as Driver>⟧ engine.old }
    ensures sound { IsSound ⟦<dyn Driver as Driver>⟧ engine.new }
{
    build(rt, engine)?;
    try_key(rt, engine, 3)?;
    try_key(rt, engine, 7)
}

/// Makes the engine over the registry and the drivers, and discards it at the end.
fn run_engine(rt: &HostRuntime, registry: Registry, drivers: Drivers) -> io::Result<()>
    requires fresh { AreFresh (states_of ⟦<dyn Driver as Driver>⟧ (members drivers)) }
{
    match Engine::new(rt.alloc(), registry, drivers) {
        Ok(mut engine) => {
            let ended = use_engine(rt, &mut engine);
            drop(engine.discard());
            ended
        }
        Err(
            NewRefused {
                why,
                registry,
                drivers,
            },
        ) => {
            drop(registry);
            drop(drivers.into_boxes());
            eprintln!(rt; "no engine was made: {why:?}")
        }
    }
}

/// Makes the list of drivers and what is over it.
fn run_drivers(
    rt: &HostRuntime,
    registry: Registry,
    boxes: Vec<Box<dyn Driver>>,
) -> io::Result<()> {
    match Drivers::new(boxes) {
        Ok(drivers) => run_engine(rt, registry, drivers),
        Err((why, boxes)) => {
            drop(registry);
            drop(boxes);
            eprintln!(rt; "the drivers were refused: {why:?}")
        }
    }
}

/// Makes the driver, registers what scripts may ask of it, and runs the script.
fn run(rt: &HostRuntime) -> io::Result<()> {
    let alloc = rt.alloc();
    let mut boxes: Vec<Box<dyn Driver>> = Vec::new(alloc);
    boxes.push(Box::new(alloc, Doors::new(alloc))?)?;
    let mut registry = Registry::new(alloc);
    match register(&mut registry) {
        Ok(()) => run_drivers(rt, registry, boxes),
        Err(_) => {
            drop(registry);
            drop(boxes);
            eprintln!(rt; "a registration was refused")
        }
    }
}

fn main(rt: HostRuntime) -> ExitCode {
    match run(&rt) {
        Ok(()) => ExitCode::SUCCESS,
        Err(_) => ExitCode::FAILURE,
    }
}
