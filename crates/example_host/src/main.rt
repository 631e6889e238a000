//! A host: what it offers scripts under two masks, one module, builds and calls
//! (docs/RATTLE_HOST.md, "A whole host").
#![tactic(auto)]

ghost use Rattle.std.specs.Prelude.{◌≡◌, ◌∷◌, [], Some, OnOk};
ghost use Rattle.ang_engine.specs.Sound.{IsSound};
ghost use Rattle.ang_host.specs.Boxes.{members};
ghost use Rattle.ang_host.specs.Members.{AreFresh, states_of};
ghost use Rattle.example_host.specs.Offered.{masks_of};

use ang_drivers::Console;
use ang_engine::{Command, Engine, NewRefused, Outcome, Reply};
use ang_host::{Answer, Driver, Drivers, EventRef, HostReply};
use ang_kinds::{EntityNo, List, Mask, Value};
use ang_registry::{RegError, Registry};
use asrun_text::push_reply;
use example_driver::Tickets;
use std::alloc::{AllocError, Global};
use std::io;
use std::io::Write;
use std::process::ExitCode;

/// What scripts of players see.
const PLAYERS: Mask = Mask(1);

/// What scripts of the staff see.
const STAFF: Mask = Mask(2);

/// The ticks that each build and each call may take.
const TICKS: u64 = 100_000;

/// The number of the entry `ticket`: its place in the registration list.
const TICKET: EntityNo = EntityNo(2);

/// The name of the module.
const QUEST: &str = "quest";

/// A script of a player.
const REWARD: &str = "\
int64 reward(int64 level) { print(level); return sum(level * 10, 5); }
uint64 join() { return ticket(); }
";

/// A script of a player that looks for what players don't see.
const PEEK: &str = "uint64 peek() { return given; }\n";

/// Registers what scripts may ask, each entry under a mask. Of driver 0 the functions 0 and 1, of driver 1
/// the function 0, and, for the staff alone, its property 0.
#[tactic(auto, using(crate::proofs::Masks::masks_added))]
fn register(registry: &mut Registry) -> Result<(), RegError>
    requires empty { registry.old.entries ≡ [] }
    ensures masks { OnOk result
        (masks_of registry.new.entries ≡ Some 1 ∷ Some 1 ∷ Some 1 ∷ Some 2 ∷ []) }
{
    registry.set_default_mask(PLAYERS);
    registry.function(0, 0, b"void print(int64)")?;
    registry.function(0, 1, b"int64 sum(int64, int64)")?;
    registry.function(1, 0, b"uint64 ticket()")?;
    registry.set_default_mask(STAFF);
    registry.global_property(1, 0, b"const uint64 given")?;
    Ok(())
}

fn bytes(alloc: Global, text: &str) -> Result<List<u8>, AllocError> {
    Ok(List::from_vec(Vec::from_slice(alloc, text.as_bytes())?))
}

/// Prints the reply as `asrun` does: its events, its errors, its denials, its outcome.
fn print_reply(rt: &HostRuntime, reply: &Reply) -> io::Result<()> {
    let mut text = Vec::new(rt.alloc());
    push_reply(&mut text, reply)?;
    io::writer(rt).write_all(&text)
}

/// Prints the ticket that was given, where the event is that.
fn print_ticket(rt: &HostRuntime, event: &EventRef<'_>) -> io::Result<()> {
    if let EventRef::Called {
        entity: TICKET,
        reply: HostReply::Asking(Answer::Gave(Value::Uint(ticket))),
        ..
    } = *event
    {
        println!(rt; "ticket {ticket} was given")?;
    }
    Ok(())
}

/// Prints the tickets that were given, by the reply's events.
fn print_tickets(rt: &HostRuntime, reply: &Reply) -> io::Result<()> {
    for number in 0..reply.events.len() {
        if let Some(event) = reply.events.get(number) {
            print_ticket(rt, &event)?;
        }
    }
    Ok(())
}

/// Does a command, and prints its reply and the tickets that were given. Answers how the command ended.
fn apply(rt: &HostRuntime, engine: &mut Engine, command: Command) -> io::Result<Outcome>
    requires sound { IsSound ⟦<dyn Driver as Driver>⟧ engine.old }
    ensures sound { IsSound ⟦<dyn Driver as Driver>⟧ engine.new }
{
    let reply = engine.apply(command);
    print_reply(rt, &reply)?;
    print_tickets(rt, &reply)?;
    Ok(reply.outcome)
}

/// Gives the module a script and builds it.
fn build(rt: &HostRuntime, engine: &mut Engine, script: &str) -> io::Result<()>
    requires sound { IsSound ⟦<dyn Driver as Driver>⟧ engine.old }
    ensures sound { IsSound ⟦<dyn Driver as Driver>⟧ engine.new }
{
    let alloc = rt.alloc();
    let (name, text) = (bytes(alloc, QUEST)?, bytes(alloc, script)?);
    apply(rt, engine, Command::AddSection { name, text })?;
    let (name, budget) = (bytes(alloc, QUEST)?, TICKS);
    apply(rt, engine, Command::Build { name, budget })?;
    Ok(())
}

/// Calls the function of the script that has this declaration, with these values.
fn call(rt: &HostRuntime, engine: &mut Engine, decl: &str, args: &[Value]) -> io::Result<Outcome>
    requires sound { IsSound ⟦<dyn Driver as Driver>⟧ engine.old }
    ensures sound { IsSound ⟦<dyn Driver as Driver>⟧ engine.new }
{
    let alloc = rt.alloc();
    let (name, decl) = (bytes(alloc, QUEST)?, bytes(alloc, decl)?);
    let args = List::from_vec(Vec::from_slice(alloc, args)?);
    let command = Command::Call {
        name,
        decl,
        args,
        budget: TICKS,
    };
    apply(rt, engine, command)
}

/// Asks the script for a reward, and prints it.
fn take_reward(rt: &HostRuntime, engine: &mut Engine) -> io::Result<()>
    requires sound { IsSound ⟦<dyn Driver as Driver>⟧ engine.old }
    ensures sound { IsSound ⟦<dyn Driver as Driver>⟧ engine.new }
{
    let outcome = call(rt, engine, "int64 reward(int64)", &[Value::Int(3)])?;
    if let Outcome::Done(Some(Value::Int(reward))) = outcome {
        println!(rt; "the reward is {reward}")?;
    }
    Ok(())
}

/// Makes a module for a player, gives it a script, calls it, and then gives it another.
fn run_scripts(rt: &HostRuntime, engine: &mut Engine) -> io::Result<()>
    requires sound { IsSound ⟦<dyn Driver as Driver>⟧ engine.old }
    ensures sound { IsSound ⟦<dyn Driver as Driver>⟧ engine.new }
{
    let (name, mask) = (bytes(rt.alloc(), QUEST)?, PLAYERS);
    apply(rt, engine, Command::NewModule { name, mask })?;
    build(rt, engine, REWARD)?;
    take_reward(rt, engine)?;
    call(rt, engine, "uint64 join()", &[])?;
    call(rt, engine, "uint64 join()", &[])?;
    build(rt, engine, PEEK)
}

/// Makes the engine over the registry and the drivers, and discards it at the end.
fn run_engine(rt: &HostRuntime, registry: Registry, drivers: Drivers) -> io::Result<()>
    requires fresh { AreFresh (states_of ⟦<dyn Driver as Driver>⟧ (members drivers)) }
{
    match Engine::new(rt.alloc(), registry, drivers) {
        Ok(mut engine) => {
            let ended = run_scripts(rt, &mut engine);
            drop(engine.discard());
            ended
        }
        Err(
            NewRefused {
                why,
                registry,
                drivers,
            },
        ) => {
            drop(registry);
            drop(drivers.into_boxes());
            eprintln!(rt; "no engine was made: {why:?}")
        }
    }
}

/// Makes the list of drivers and what is over it.
fn run_drivers(
    rt: &HostRuntime,
    registry: Registry,
    boxes: Vec<Box<dyn Driver>>,
) -> io::Result<()> {
    match Drivers::new(boxes) {
        Ok(drivers) => run_engine(rt, registry, drivers),
        Err((why, boxes)) => {
            drop(registry);
            drop(boxes);
            eprintln!(rt; "the drivers were refused: {why:?}")
        }
    }
}

/// Makes the drivers, which are number 0 and 1, registers what scripts may ask of them, and runs the scripts.
fn run(rt: &HostRuntime) -> io::Result<()> {
    let alloc = rt.alloc();
    let mut boxes: Vec<Box<dyn Driver>> = Vec::new(alloc);
    boxes.push(Box::new(alloc, Console::new(alloc)?)?)?;
    boxes.push(Box::new(alloc, Tickets::new())?)?;
    let mut registry = Registry::new(alloc);
    match register(&mut registry) {
        Ok(()) => run_drivers(rt, registry, boxes),
        Err(_) => {
            drop(registry);
            drop(boxes);
            eprintln!(rt; "a registration was refused")
        }
    }
}

fn main(rt: HostRuntime) -> ExitCode {
    match run(&rt) {
        Ok(()) => ExitCode::SUCCESS,
        Err(_) => ExitCode::FAILURE,
    }
}
