//! Limits at their last value and one above. What is large is made here, from a pattern in which a piece is repeated.

use crate::harness::{OUTPUT, PROFILE, SESSION, run};
use asrun_session::Status;
use std::alloc::{AllocError, Global};

/// The most bytes of a profile.
const MOST_PROFILE: usize = 1_048_576;

/// The most bytes of a session.
const MOST_SESSION: usize = 16_777_216;

fn repeat_alike(text: &mut String, piece: &str, count: usize) -> Result<(), AllocError> {
    for _ in 0..count {
        text.push_str(piece)?;
    }
    Ok(())
}

fn push_numbered(
    alloc: Global,
    text: &mut String,
    number: usize,
    parts: (&str, &str),
) -> Result<(), AllocError> {
    let (front, back) = parts;
    let whole = format!(in alloc; "{front}{number}{back}")?;
    text.push_str(whole.as_str())
}

/// Puts a piece so many times behind a text. A `#` in it is its number, from 0.
fn repeat(alloc: Global, text: &mut String, piece: &str, count: usize) -> Result<(), AllocError> {
    let Some(parts) = piece.split_once('#') else {
        return repeat_alike(text, piece, count);
    };
    for number in 0..count {
        push_numbered(alloc, text, number, parts)?;
    }
    Ok(())
}

/// The text of a pattern, in which each piece between `<` and `>` is repeated so many times.
fn grown(alloc: Global, pattern: &str, count: usize) -> Result<String, AllocError> {
    let mut text = String::new(alloc);
    for part in pattern.split('<') {
        match part.split_once('>') {
            Some((piece, plain)) => {
                repeat(alloc, &mut text, piece, count)?;
                text.push_str(plain)?;
            }
            None => text.push_str(part)?,
        }
    }
    Ok(text)
}

/// Whether a session over a profile writes this, and has this status.
fn writes(
    alloc: Global,
    profile: &str,
    session: &str,
    output: &str,
    status: Status,
) -> Result<bool, AllocError> {
    let ran = run(alloc, &mut profile.as_bytes(), &mut session.as_bytes())?;
    Ok(ran.is_some_and(|(out, outcome)| outcome == Ok(status)
        && out.as_slice() == output.as_bytes()))
}

/// A section's pattern, how often its pieces may stand, and what its build and a call of `m` answer there and one above.
type Section = (&'static str, usize, &'static str, &'static str);

const SECTIONS: &[Section] = &[
    (
        "<\n>",
        65_536,
        "ok\nrefused NoFunction\n",
        "error TooLong 0:1:1 -\n",
    ),
    (
        "int <a>;\n",
        255,
        "ok\nrefused NoFunction\n",
        "error TooLong 0:1:5 -\n",
    ),
    (
        "import void f() from \"<a>\";\n",
        253,
        "ok\nrefused NoFunction\n",
        "error TooLong 0:1:22 -\n",
    ),
    (
        "int m(){return <(>1<)>;}\n",
        63,
        "ok\nok 1\n",
        "error TooDeep 0:1:79 -\n",
    ),
    (
        "int m(){<{>return 1;<}>}\n",
        63,
        "ok\nok 1\n",
        "error TooDeep 0:1:72 -\n",
    ),
    (
        "int m(){return 1<+1>;}\n",
        256,
        "ok\nok 257\n",
        "error TooDeep 0:1:529 -\n",
    ),
    (
        "int m(){<if (true) >return 1; return 0;}\n",
        256,
        "ok\nok 1\n",
        "error TooDeep 0:1:2569 -\n",
    ),
    (
        "<class C#{}\n>",
        256,
        "ok\nrefused NoFunction\n",
        "error Limit 0:257:7 C256\n",
    ),
    (
        "<interface I#{}\n>",
        256,
        "ok\nrefused NoFunction\n",
        "error Limit 0:257:11 I256\n",
    ),
    (
        "<void f#(){}\n>",
        4096,
        "ok\nrefused NoFunction\n",
        "error Limit 0:4097:6 f4096\n",
    ),
    (
        "<int a#;\n>",
        4096,
        "ok\nrefused NoFunction\n",
        "error Limit 0:4097:5 a4096\n",
    ),
    (
        "<import void f#() from \"b\";\n>",
        256,
        "ok\nrefused NoFunction\n",
        "error Limit 0:257:13 f256\n",
    ),
    (
        "class C{\n<int a#;\n>}\n",
        256,
        "ok\nrefused NoFunction\n",
        "error Limit 0:1:7 C\n",
    ),
    (
        "class C{int x<,a#>;}\n",
        255,
        "ok\nrefused NoFunction\n",
        "error Limit 0:1:7 C\n",
    ),
    (
        "interface I{<void f#();>}\n",
        256,
        "ok\nrefused NoFunction\n",
        "error Limit 0:1:11 I\n",
    ),
    (
        "void f(int<,int>){}\n",
        31,
        "ok\nrefused NoFunction\n",
        "error Limit 0:1:6 f\n",
    ),
    (
        "class C{void f(int<,int>){}}\n",
        31,
        "ok\nrefused NoFunction\n",
        "error Limit 0:1:14 f\n",
    ),
    (
        "int m(){\n<int a#;\n>return 7;}\n",
        1024,
        "ok\nok 7\n",
        "error Limit 0:1026:5 a1024\n",
    ),
    (
        "int m(){<for(;;)>return 3; return 0;}\n",
        3999,
        "ok\nok 3\n",
        "refused BuildMemory\n",
    ),
];

/// What follows an answer of a build and a call, and the status of the session.
fn end_of(answer: &str) -> (&'static str, Status) {
    if answer.starts_with("ok\nok ") {
        return ("", Status::AllOk);
    }
    if answer.starts_with("error ") {
        return (
            "refused BuildErrors\nrefused NotBuilt\n",
            Status::SomeRefused,
        );
    }
    if answer.starts_with("refused ") {
        return ("refused NotBuilt\n", Status::SomeRefused);
    }
    ("", Status::SomeRefused)
}

/// A session that builds a section and calls its `m`.
fn session_of(alloc: Global, section: &str) -> Result<String, AllocError> {
    let lines = section.bytes().filter(|byte| *byte == b'\n').count();
    format!(in alloc; "module a 00000001\nsection a {lines}\n{section}build a\ncall a () int m()\n")
}

/// Whether such a session is answered so.
fn replies(alloc: Global, session: &str, answer: &str) -> Result<bool, AllocError> {
    let (end, status) = end_of(answer);
    let output = format!(in alloc; "ok\nok\n{answer}{end}")?;
    writes(alloc, PROFILE, session, output.as_str(), status)
}

/// Whether a section is answered so.
fn answers(alloc: Global, section: &str, answer: &str) -> Result<bool, AllocError> {
    let session = session_of(alloc, section)?;
    replies(alloc, session.as_str(), answer)
}

/// Whether a section of this pattern, whose pieces stand so often, is answered so.
fn is_answered(
    alloc: Global,
    pattern: &str,
    count: usize,
    answer: &str,
) -> Result<bool, AllocError> {
    let section = grown(alloc, pattern, count)?;
    answers(alloc, section.as_str(), answer)
}

/// Whether so it is at a limit and one above.
fn is_limited(alloc: Global, section: &Section) -> Result<bool, AllocError> {
    let (pattern, most, within, above) = *section;
    Ok(
        is_answered(alloc, pattern, most, within)?
            && is_answered(alloc, pattern, most.saturating_add(1), above)?,
    )
}

#[test]
fn sections_at_their_limits(rt: HostRuntime) -> Result<(), AllocError> {
    for section in SECTIONS {
        assert!(rt; is_limited(rt.alloc(), section)?, "{}", section.0);
    }
    Ok(())
}

/// A text of this pattern, whose pieces stand so often.
struct Repeated(&'static str, usize);

/// A profile, a session, what is written, and the status.
type Run = (Repeated, Repeated, Repeated, &'static str, Status);

const ALL_OK: Status = Status::AllOk;

const REFUSED: Status = Status::SomeRefused;

const BAD: Status = Status::BadInput;

/// There may be 64 modules, 64 sections of one, and 32 parameters of a registration.
const RUNS: &[Run] = &[
    (
        Repeated(PROFILE, 0),
        Repeated("<module m# 00000001\n>", 64),
        Repeated("<ok\n>", 64),
        "",
        ALL_OK,
    ),
    (
        Repeated(PROFILE, 0),
        Repeated("<module m# 00000001\n>", 65),
        Repeated("<ok\n>", 64),
        "refused Limit\n",
        REFUSED,
    ),
    (
        Repeated(PROFILE, 0),
        Repeated("module m 00000001\n<section m 1\n;\n>", 64),
        Repeated("<ok\n>", 65),
        "",
        ALL_OK,
    ),
    (
        Repeated(PROFILE, 0),
        Repeated("module m 00000001\n<section m 1\n;\n>", 65),
        Repeated("<ok\n>", 65),
        "refused Limit\n",
        REFUSED,
    ),
    (
        Repeated("mask 00000001\nfunction 0 0 void f(int<,int>)\n", 31),
        Repeated("", 0),
        Repeated("", 0),
        "",
        ALL_OK,
    ),
    (
        Repeated("mask 00000001\nfunction 0 0 void f(int<,int>)\n", 32),
        Repeated("", 0),
        Repeated("", 0),
        "profile 2 Limit\n",
        BAD,
    ),
];

fn text_of(alloc: Global, text: &Repeated) -> Result<String, AllocError> {
    grown(alloc, text.0, text.1)
}

/// Whether a session over a profile ends so.
fn ends_so(alloc: Global, profile: &str, session: &str, run: &Run) -> Result<bool, AllocError> {
    let front = text_of(alloc, &run.2)?;
    let end = run.3;
    let output = format!(in alloc; "{front}{end}")?;
    writes(alloc, profile, session, output.as_str(), run.4)
}

fn runs_over(alloc: Global, profile: &str, run: &Run) -> Result<bool, AllocError> {
    let session = text_of(alloc, &run.1)?;
    ends_so(alloc, profile, session.as_str(), run)
}

/// Whether a run ends so.
fn runs(alloc: Global, run: &Run) -> Result<bool, AllocError> {
    let profile = text_of(alloc, &run.0)?;
    runs_over(alloc, profile.as_str(), run)
}

#[test]
fn modules_sections_and_parameters_at_their_limits(rt: HostRuntime) -> Result<(), AllocError> {
    for (at, row) in RUNS.iter().enumerate() {
        assert!(rt; runs(rt.alloc(), row)?, "run {at}");
    }
    Ok(())
}

/// So many line feeds, put together out of large pieces.
fn line_feeds(alloc: Global, count: usize) -> Result<String, AllocError> {
    let block = grown(alloc, "<\n>", 4096)?;
    let mut text = String::new(alloc);
    repeat(alloc, &mut text, block.as_str(), count / 4096)?;
    repeat(alloc, &mut text, "\n", count % 4096)?;
    Ok(text)
}

/// A text behind as many line feeds as make it so long.
fn lengthened(alloc: Global, text: &str, length: usize) -> Result<String, AllocError> {
    let mut whole = line_feeds(alloc, length.saturating_sub(text.len()))?;
    whole.push_str(text)?;
    Ok(whole)
}

/// Whether a session over a profile that is so long writes this.
fn writes_over(
    alloc: Global,
    length: usize,
    output: &str,
    status: Status,
) -> Result<bool, AllocError> {
    let profile = lengthened(alloc, PROFILE, length)?;
    writes(alloc, profile.as_str(), SESSION, output, status)
}

#[test]
fn a_profile_of_one_byte_more_is_refused(rt: HostRuntime) -> Result<(), AllocError> {
    let last = writes_over(rt.alloc(), MOST_PROFILE, OUTPUT, ALL_OK)?;
    let more = writes_over(rt.alloc(), MOST_PROFILE + 1, "profile 0 TooLong\n", BAD)?;
    assert!(rt; last && more, "{last} {more}");
    Ok(())
}

/// Whether a session that is so long writes this.
fn writes_all_of(
    alloc: Global,
    length: usize,
    output: &str,
    status: Status,
) -> Result<bool, AllocError> {
    let session = lengthened(alloc, SESSION, length)?;
    writes(alloc, PROFILE, session.as_str(), output, status)
}

#[test]
fn a_session_of_one_byte_more_is_refused(rt: HostRuntime) -> Result<(), AllocError> {
    let last = writes_all_of(rt.alloc(), MOST_SESSION, OUTPUT, ALL_OK)?;
    let more = writes_all_of(rt.alloc(), MOST_SESSION + 1, "line 0 TooLong\n", BAD)?;
    assert!(rt; last && more, "{last} {more}");
    Ok(())
}
