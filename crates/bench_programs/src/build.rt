//! Lexes and parses a section again and again, or builds it, and prints how many bytes of it a second went through:
//! of a build, up to each of its stages. bench/run.sh writes the files, and runs this over each.

ghost use Rattle.std.specs.Prelude.{◌≡◌};
ghost use Rattle.bench_programs.specs.Speed.{speed};

use crate::show_use;
use ang_check::check;
use ang_engine_build::{NoProgram, Program, build_sections};
use ang_kinds::{List, Mask};
use ang_lex::lex;
use ang_names::declare;
use ang_parse::parse;
use ang_registry::{Registry, View};
use ang_tree::Script;
use std::alloc::Global;
use std::fs::File;
use std::io::{self, Read};
use std::slice;
use std::time::Instant;

const SMALL: &str = "void first() { put(1); put(2 - 3); }\nvoid second() {}\n";

/// How far a turn goes.
#[derive(Clone, Copy)]
enum Stage {
    Parsed,
    Declared,
    Checked,
    Built,
}

/// The mask of the scripts.
const MASK: Mask = Mask(1);

const PARSED: (Stage, &str) = (Stage::Parsed, "parsed");

const STAGES: [(Stage, &str); 4] = [
    PARSED,
    (Stage::Declared, "declared"),
    (Stage::Checked, "checked"),
    (Stage::Built, "built"),
];

/// Registers what the scripts see: `void put(int)`.
fn is_put_registered(registry: &mut Registry) -> bool {
    registry.function(0, 0, b"void put(int)").is_ok()
}

fn functions_of(built: Result<Program, NoProgram>) -> Option<usize> {
    match built {
        Ok(program) => {
            let count = program.names.functions().len();
            drop(program.names);
            Some(count)
        }
        Err(_) => None,
    }
}

/// Builds sections. The number of their functions, or nothing where they are refused.
fn functions_built(alloc: Global, registry: &Registry, sections: &[List<u8>]) -> Option<usize> {
    if sections.len() != 1 {
        return None;
    }
    match registry.seen(alloc, MASK) {
        Ok(view) => functions_of(build_sections(alloc, registry, MASK, &view, sections)),
        Err(_) => None,
    }
}

/// Builds one section. The number of its functions, or nothing where it is refused.
fn built(alloc: Global, registry: &Registry, text: &[u8]) -> Option<usize> {
    let section = List::from_vec(Vec::from_slice(alloc, text).ok()?);
    functions_built(alloc, registry, slice::from_ref(&section))
}

/// The tree of a section, and how many tokens it has; nothing where it is refused.
fn parsed(alloc: Global, text: &[u8]) -> Option<(Script, usize)> {
    let tokens = lex(alloc, text, 0).ok()?;
    match parse(alloc, text, tokens.as_slice()) {
        Ok(script) => Some((script, tokens.len())),
        Err(_) => None,
    }
}

/// How many tokens and declarations a section has, or nothing where it is refused.
fn counts(alloc: Global, text: &[u8]) -> Option<(usize, usize)> {
    match parsed(alloc, text) {
        Some((script, tokens)) => Some((tokens, script.declarations.len())),
        None => None,
    }
}

/// Whether what scripts declare is accepted, and their bodies too where the stage is past declaring.
fn is_accepted(alloc: Global, view: &View, scripts: &[Script], stage: Stage) -> bool {
    match declare(alloc, view, scripts) {
        Ok(names) => {
            let is_accepted = stage == Stage::Declared
                || check(alloc, view, &names, scripts).is_ok();
            drop(names);
            is_accepted
        }
        Err(_) => false,
    }
}

/// Goes from a tree up to a stage past it. Whether nothing is refused.
fn is_built_on(alloc: Global, registry: &Registry, scripts: &[Script], stage: Stage) -> bool {
    match registry.seen(alloc, MASK) {
        Ok(view) => is_accepted(alloc, &view, scripts, stage),
        Err(_) => false,
    }
}

/// Goes through a section up to a stage before the last. Whether nothing is refused.
fn is_read(alloc: Global, registry: &Registry, text: &[u8], stage: Stage) -> bool {
    match parsed(alloc, text) {
        Some((script, _)) => {
            stage == Stage::Parsed || is_built_on(alloc, registry, slice::from_ref(&script), stage)
        }
        None => false,
    }
}

/// Goes through a section up to a stage. Whether nothing is refused.
fn turn(alloc: Global, registry: &Registry, text: &[u8], stage: Stage) -> bool {
    match stage {
        Stage::Built => built(alloc, registry, text).is_some(),
        _ => is_read(alloc, registry, text, stage),
    }
}

/// The bytes that `turns` over a text of `len` bytes went through each second, where they took `nanos`.
fn bytes_a_second(len: usize, turns: u32, nanos: u128) -> u128
    ensures exact { result ≡ speed len turns nanos }
{
    let bytes = len as u128 * turns as u128;
    match nanos {
        0 => bytes,
        _ => bytes * 1_000_000_000 / nanos,
    }
}

/// The nanoseconds of all turns up to a stage, or nothing where the section is refused.
fn time_of(
    rt: &HostRuntime,
    registry: &Registry,
    text: &[u8],
    turns: u32,
    stage: Stage,
) -> io::Result<Option<u128>> {
    let start = Instant::now(rt)?;
    for _ in 0..turns {
        if !turn(rt.alloc(), registry, text, stage) {
            return Ok(None);
        }
    }
    Ok(Some(start.elapsed(rt)?.as_nanos()))
}

/// Takes the time of all turns up to a stage. Prints the figure.
fn measure(
    rt: &HostRuntime,
    registry: &Registry,
    name: &str,
    text: &[u8],
    turns: u32,
    stage: (Stage, &str),
) -> io::Result<u8> {
    let (stage, done) = stage;
    let Some(nanos) = time_of(rt, registry, text, turns, stage)? else {
        return refuse(rt, name);
    };
    let speed = bytes_a_second(text.len(), turns, nanos);
    println!(rt; "{name}: {speed} bytes a second {done}")?;
    Ok(0)
}

fn refuse(rt: &HostRuntime, name: &str) -> io::Result<u8> {
    eprintln!(rt; "bench_programs: {name} is refused")?;
    Ok(1)
}

/// Prints what a section builds to.
fn print_built(rt: &HostRuntime, registry: &Registry, name: &str, text: &[u8]) -> io::Result<u8> {
    let Some(functions) = built(rt.alloc(), registry, text) else {
        return refuse(rt, name);
    };
    println!(rt; "{name}: {} bytes, {functions} functions", text.len())?;
    Ok(0)
}

/// Lexes and parses a section. Prints what it has, and the figure.
fn measure_parsing(
    rt: &HostRuntime,
    registry: &Registry,
    name: &str,
    text: &[u8],
    turns: u32,
) -> io::Result<u8> {
    let Some((tokens, declarations)) = counts(rt.alloc(), text) else {
        return refuse(rt, name);
    };
    println!(rt;
        "{name}: {} bytes, {tokens} tokens, {declarations} declarations, {turns} turns",
        text.len()
    )?;
    measure(rt, registry, name, text, turns, PARSED)
}

/// Builds a section up to each stage. Prints what it builds to, and the figures.
fn measure_builds(
    rt: &HostRuntime,
    registry: &Registry,
    name: &str,
    text: &[u8],
    builds: u32,
) -> io::Result<u8> {
    let status = print_built(rt, registry, name, text)?;
    if status != 0 {
        return Ok(status);
    }
    for stage in STAGES {
        let status = measure(rt, registry, name, text, builds, stage)?;
        if status != 0 {
            return Ok(status);
        }
    }
    Ok(0)
}

/// Measures a section: its parsing, and builds where there are to be any.
fn measure_text(
    rt: &HostRuntime,
    registry: &Registry,
    name: &str,
    text: &[u8],
    turns: u32,
    builds: u32,
) -> io::Result<u8> {
    let status = measure_parsing(rt, registry, name, text, turns)?;
    if status != 0 || builds == 0 {
        return Ok(status);
    }
    measure_builds(rt, registry, name, text, builds)
}

pub(crate) fn read_file(rt: &HostRuntime, path: &str, text: &mut Vec<u8>) -> io::Result<()> {
    let _ = File::open(rt, path)?.read_to_end(text)?;
    Ok(())
}

/// Measures the section of a file.
fn measure_file(
    rt: &HostRuntime,
    registry: &Registry,
    path: &str,
    turns: &str,
    builds: Option<&str>,
) -> io::Result<u8> {
    let Ok(turns) = turns.parse::<u32>() else {
        return show_use(rt);
    };
    let Ok(builds) = builds.unwrap_or("0").parse::<u32>() else {
        return show_use(rt);
    };
    let mut text = Vec::new(rt.alloc());
    read_file(rt, path, &mut text)?;
    measure_text(rt, registry, path, text.as_slice(), turns, builds)
}

fn obey(rt: &HostRuntime, registry: &Registry, words: &[String]) -> io::Result<u8> {
    match words {
        [] => print_built(rt, registry, "small", SMALL.as_bytes()),
        [path, turns] => measure_file(rt, registry, path, turns, None),
        [path, turns, builds] => measure_file(rt, registry, path, turns, Some(builds.as_str())),
        _ => show_use(rt),
    }
}

/// Measures the section that these words name. Without words builds a small section once.
pub(crate) fn run(rt: &HostRuntime, words: &[String]) -> io::Result<u8> {
    let mut registry = Registry::new(rt.alloc());
    if is_put_registered(&mut registry) {
        obey(rt, &registry, words)
    } else {
        Ok(3)
    }
}
