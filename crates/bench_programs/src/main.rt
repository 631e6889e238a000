//! Benchmarks: how fast sections are read and built, and scripts whose events are only counted.
//!
//! `bench_programs build FILE TURNS [BUILDS]` prints figures, `bench_programs script FILE [BUDGET]` runs a script for others
//! to measure. Without words the program builds a small section, compares calls whose events are listed and counted, and
//! prints what is the same in every run.
#![tactic(auto)]

mod build;
mod host;
mod script;

use std::process::ExitCode;
use std::{env, io};

fn show_use(rt: &HostRuntime) -> io::Result<u8> {
    eprintln!(rt; "bench_programs [build FILE TURNS [BUILDS] | script FILE [BUDGET]]")?;
    Ok(2)
}

/// What is done without words.
fn run_each(rt: &HostRuntime) -> io::Result<u8> {
    let status = build::run(rt, &[])?;
    if status == 0 {
        host::run(rt)?;
    }
    Ok(status)
}

fn obey(rt: &HostRuntime, words: &[String]) -> io::Result<u8> {
    let [_, job, words @ ..] = words else {
        return run_each(rt);
    };
    match job.as_str() {
        "build" => build::run(rt, words),
        "script" => script::run(rt, words),
        _ => show_use(rt),
    }
}

fn run(rt: &HostRuntime) -> io::Result<u8> {
    let words: Vec<String> = env::args(rt)?.collect(rt.alloc())?;
    obey(rt, words.as_slice())
}

fn main(rt: HostRuntime) -> ExitCode {
    ExitCode::from(run(&rt).unwrap_or(2))
}
