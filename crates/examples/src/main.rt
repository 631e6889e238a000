//! Runs sessions over profiles, and compares what each prints with what is stored beside it
//! (README.md here). Its words are the files of one example after the other: the profile, the
//! session, what is stored; and after these, files of rows, whose names end in `.rows`. Rows that say so
//! are cut at each byte besides, and run over streams that fail at each call.
#![tactic(auto)]

mod cuts;
mod rows;
mod streams;
mod trials;

use crate::rows::{FailingCall, Row};
use crate::trials::TRIALS;
use ang_drivers::{Cell, Console, Counter, Faulty};
use ang_host::Driver;
use asrun_session::{IoFault, SessionEnd, Status};
use std::alloc::Global;
use std::fs::File;
use std::io::{Read, Write};
use std::process::ExitCode;
use std::{env, fs, io};

/// The ticks that each command may take until a line `budget`.
const TICKS: u64 = 1_000_000;

/// The exit status that `asrun` would have.
fn status_of(outcome: Result<Status, IoFault>) -> &'static str {
    match outcome {
        Ok(Status::AllOk) => "0",
        Ok(Status::SomeRefused) => "1",
        Ok(Status::BadInput) => "2",
        Ok(Status::Memory) => "3",
        Err(_) => "of a stream that failed",
    }
}

/// What a run came to.
#[derive(Drop)]
struct Ran {
    status: &'static str,
    /// Whether no object of a driver was left.
    is_idle: bool,
}

/// Runs a session with the drivers of the program `asrun` in their order, or with one in the place of the
/// second that fails once.
fn run<P: Read, S: Read, W: Write>(
    alloc: Global,
    profile: &mut P,
    session: &mut S,
    out: &mut W,
    failing: Option<FailingCall>,
) -> io::Result<Ran> {
    let mut boxes: Vec<Box<dyn Driver>> = Vec::new(alloc);
    boxes.push(Box::new(alloc, Console::new(alloc)?)?)?;
    match failing {
        Some(call) if call.number > 0 => {
            boxes.push(Box::new(alloc, Faulty::new(alloc, call.number, call.how)?)?)?;
        }
        _ => boxes.push(Box::new(alloc, Counter::new(alloc)?)?)?,
    }
    boxes.push(Box::new(alloc, Cell::new(alloc)?)?)?;
    let SessionEnd { outcome, drivers } = asrun_session::session(
        alloc, profile, session, out, boxes, TICKS,
    );
    let is_idle = drivers.iter().all(|driver| driver.idle());
    drop(drivers);
    let status = status_of(outcome);
    Ok(Ran { status, is_idle })
}

/// Runs one example. Gives whether it printed what is stored.
fn run_example(rt: &HostRuntime, profile: &str, session: &str, stored: &str) -> io::Result<bool> {
    let stored = fs::read(rt, stored)?;
    let mut profile = File::open(rt, profile)?;
    let mut text = File::open(rt, session)?;
    let mut printed: Vec<u8> = Vec::new(rt.alloc());
    let ran = run(rt.alloc(), &mut profile, &mut text, &mut printed, None)?;
    let same = ran.is_idle && printed == stored;
    let verdict = if same { "as stored" } else { "NOT as stored" };
    println!(rt; "{session}: {verdict}, status {}", ran.status)?;
    Ok(same)
}

/// Runs a row. Gives whether it printed what is stored, with the status that is, and says so if not.
fn run_row(rt: &HostRuntime, name: &str, row: &Row<'_>) -> io::Result<bool> {
    let mut profile = row.profile.as_bytes();
    let mut session = row.session.as_bytes();
    let mut printed: Vec<u8> = Vec::new(rt.alloc());
    let ran = run(
        rt.alloc(),
        &mut profile,
        &mut session,
        &mut printed,
        row.failing,
    )?;
    let same = printed.as_slice() == row.output.as_bytes();
    if ran.is_idle && same && ran.status == row.status {
        return Ok(true);
    }
    println!(rt; "{name}: NOT as stored, status {}", ran.status)?;
    Ok(false)
}

/// Runs a row with its texts cut and its streams failing. Gives whether all went as it should, and says what did not.
fn try_row(rt: &HostRuntime, name: &str, row: &Row<'_>) -> io::Result<bool> {
    for trial in TRIALS {
        if let Some(number) = trial.first_wrong(rt.alloc(), row)? {
            println!(rt; "{name}: WRONG with {} {number}", trial.name())?;
            return Ok(false);
        }
    }
    Ok(true)
}

/// Runs a row, and tries it if it says so. Gives whether all was well, which what is no row is not.
fn is_good(rt: &HostRuntime, name: &str, row: Option<Row<'_>>) -> io::Result<bool> {
    let Some(row) = row else {
        println!(rt; "{name}: NOT a row")?;
        return Ok(false);
    };
    Ok(run_row(rt, name, &row)? && (!row.has_trials || try_row(rt, name, &row)?))
}

/// Runs all rows of a file, and says how many they were, and how many went through the trials. Gives whether all was well.
fn run_rows(rt: &HostRuntime, path: &str) -> io::Result<bool> {
    let text = fs::read_to_string(rt, path)?;
    let (head, mut left) = rows::until_row(text.as_str());
    let of_all = rows::profile_in(head, "");
    let mut good = 0usize;
    let mut count = 0usize;
    let mut tried = 0usize;
    while !left.is_empty() {
        let (row, after) = rows::until_row(left);
        let (name, text) = row.split_once('\n').unwrap_or((row, ""));
        let row = rows::row_of(text, of_all);
        tried = tried.saturating_add(usize::from(row.is_some_and(|row| row.has_trials)));
        good = good.saturating_add(usize::from(is_good(rt, name, row)?));
        count = count.saturating_add(1);
        left = after;
    }
    println!(rt; "{path}: {good} of {count} rows as stored, {tried} of them in trials")?;
    Ok(good == count)
}

/// Runs the examples that the words name. Gives whether all printed what is stored.
fn run_words(rt: &HostRuntime) -> io::Result<bool> {
    let alloc = rt.alloc();
    let words: Vec<String> = env::args(rt)?.collect(alloc)?;
    let mut same = words.len() > 1;
    let mut left = words.get(1..).unwrap_or_default();
    while let [word, after @ ..] = left {
        if word.ends_with(".rows") {
            same &= run_rows(rt, word.as_str())?;
            left = after;
        } else if let [session, stored, after @ ..] = after {
            same &= run_example(rt, word.as_str(), session.as_str(), stored.as_str())?;
            left = after;
        } else {
            eprintln!(rt; "examples: an example is a profile, a session and what is stored")?;
            return Ok(false);
        }
    }
    Ok(same)
}

fn main(rt: HostRuntime) -> ExitCode {
    match run_words(&rt) {
        Ok(true) => ExitCode::SUCCESS,
        Ok(false) => ExitCode::FAILURE,
        Err(error) => {
            let _ = eprintln!(rt; "examples: {error}");
            ExitCode::FAILURE
        }
    }
}
