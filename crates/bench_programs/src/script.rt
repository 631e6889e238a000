//! A script over the drivers of `asrun`, with what it asks them only counted: bench/machine.py lays that beside the
//! original engine, which lists nothing either.

ghost use Rattle.ang_engine.specs.Sound.{IsSound};

use crate::build::read_file;
use crate::host::{Counts, Job, build, call_of, run_over, text_counted};
use crate::show_use;
use ang_drivers::{Cell, Console, Counter};
use ang_engine::Engine;
use ang_host::Driver;
use ang_kinds::List;
use ang_registry::{RegError, Registry};
use std::alloc::{AllocError, Global};
use std::io::{self, Write};
use std::str;

/// Registers what the profile of bench/machine.py does.
fn add_entries(registry: &mut Registry) -> Result<(), RegError> {
    registry.function(0, 0, b"void print(int64)")?;
    registry.type_(b"Counter", 1)?;
    registry.factory(b"Counter", 1, b"Counter@ make(int)")?;
    registry.method(b"Counter", 0, b"void bump()")?;
    registry.method(b"Counter", 1, b"int value() const")?;
    registry.function(0, 1, b"int64 sum(int64, int64)")?;
    registry.type_(b"Cell", 2)?;
    registry.factory(b"Cell", 0, b"Cell@ make(int)")?;
    registry.method(b"Cell", 0, b"int get() const")?;
    Ok(())
}

/// Calls the script's `main`. What is counted, and the answer.
fn main_counted(
    alloc: Global,
    engine: &mut Engine,
    budget: u64,
) -> Result<(Counts, Vec<u8>), AllocError>
    requires sound { IsSound ⟦<dyn Driver as Driver>⟧ engine.old }
    ensures sound { IsSound ⟦<dyn Driver as Driver>⟧ engine.new }
{
    let args = List::from_vec(Vec::new(alloc));
    let main = call_of(alloc, "int64 main()", args, budget)?;
    text_counted(alloc, engine.apply_unheard(main))
}

fn print_counted(rt: &HostRuntime, counts: Counts, text: &[u8]) -> io::Result<()> {
    print!(rt; "asked {}, ended {}: ", counts.asked, counts.ended)?;
    io::writer(rt).write_all(text)
}

/// Builds a script, and calls its `main` where there is a budget. Prints what is counted and the answer.
pub(crate) fn count_script(
    rt: &HostRuntime,
    engine: &mut Engine,
    script: &str,
    budget: Option<u64>,
) -> io::Result<()>
    requires sound { IsSound ⟦<dyn Driver as Driver>⟧ engine.old }
    ensures sound { IsSound ⟦<dyn Driver as Driver>⟧ engine.new }
{
    build(rt.alloc(), engine, script)?;
    let Some(budget) = budget else {
        return Ok(());
    };
    let (counts, text) = main_counted(rt.alloc(), engine, budget)?;
    print_counted(rt, counts, text.as_slice())
}

fn run_text(rt: &HostRuntime, script: &str, budget: Option<u64>) -> io::Result<()> {
    let alloc = rt.alloc();
    let mut boxes: Vec<Box<dyn Driver>> = Vec::new(alloc);
    boxes.push(Box::new(alloc, Console::new(alloc)?)?)?;
    boxes.push(Box::new(alloc, Counter::new(alloc)?)?)?;
    boxes.push(Box::new(alloc, Cell::new(alloc)?)?)?;
    let mut registry = Registry::new(alloc);
    if add_entries(&mut registry).is_err() {
        return eprintln!(rt; "a registration was refused");
    }
    run_over(rt, registry, boxes, Job::Script(script, budget))
}

fn run_file(rt: &HostRuntime, path: &str, budget: Option<u64>) -> io::Result<u8> {
    let mut text = Vec::new(rt.alloc());
    read_file(rt, path, &mut text)?;
    match str::from_utf8(text.as_slice()) {
        Ok(script) => run_text(rt, script, budget)?,
        Err(_) => eprintln!(rt; "{path} is not text")?,
    }
    Ok(0)
}

/// Builds the script of a file, and calls it where these words have a budget.
pub(crate) fn run(rt: &HostRuntime, words: &[String]) -> io::Result<u8> {
    match words {
        [path] => run_file(rt, path, None),
        [path, budget] => match budget.parse::<u64>() {
            Ok(budget) => run_file(rt, path, Some(budget)),
            Err(_) => show_use(rt),
        },
        _ => show_use(rt),
    }
}
