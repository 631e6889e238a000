//! Receivers that are borrowed: how many references to its objects the counter was asked to add in a session.

use crate::harness::three_drivers;
use ang_host::{Answer, Driver};
use ang_kinds::Value;
use asrun_session::{SessionEnd, session};
use std::alloc::{AllocError, Global};

/// Types, factories, methods, properties, functions and global properties of all three drivers.
const ALL_KINDS: &str = "mask 00000001
type Counter 1
factory Counter 0 Counter@ f()
factory Counter 1 Counter@ f(int)
method Counter 0 void bump()
method Counter 1 int value() const
property Counter 0 int step
type Cell 2
factory Cell 0 Cell@ f(int)
factory Cell 1 Cell@ f(Cell@+, int)
method Cell 0 int get() const
method Cell 1 void set(int)
function 2 2 Cell@+ pick(Cell@+)
function 0 0 void print(int64)
function 0 1 int64 sum(int64, int64)
function 0 2 void fail(uint)
global 0 0 int64 reg
global 0 0 const int64 limit
";

/// Sections whose function `p` uses a counter, and how many references are added meanwhile.
const BORROWED: &[(&str, u64)] = &[
    (
        "int p() { Counter c(5); c.step = 3; c.bump(); return c.value(); }",
        0,
    ),
    (
        "int p() { Counter c(5); c.step += 3; return c.step + c.value(); }",
        0,
    ),
    (
        "int p() { Counter@ c; @c = Counter(5); return c.value(); }",
        0,
    ),
    ("Counter c(5); int p() { return c.value(); }", 1),
    (
        "class K { Counter@ h; } int p() { K k; @k.h = Counter(5); return k.h.value(); }",
        1,
    ),
];

/// What the counter answers after a session when it is asked how many references to its objects were added.
fn added_to(drivers: &mut Vec<Box<dyn Driver>>) -> Option<Answer> {
    match drivers.get_mut(1) {
        Some(driver) => Some(driver.as_mut().call(2, None, &[])),
        None => None,
    }
}

/// The same in a session of this text.
fn added_in(alloc: Global, text: &str) -> Result<Option<Answer>, AllocError> {
    let boxes = three_drivers(alloc)?;
    let mut profile = ALL_KINDS.as_bytes();
    let mut text = text.as_bytes();
    let mut written: Vec<u8> = Vec::new(alloc);
    let SessionEnd {
        outcome: _,
        mut drivers,
    } = session(
        alloc,
        &mut profile,
        &mut text,
        &mut written,
        boxes,
        1_000_000,
    );
    let answer = added_to(&mut drivers);
    drop(drivers);
    Ok(answer)
}

/// How many references to its objects the counter was asked to add in a session that builds a section and calls its `p`.
fn added(alloc: Global, section: &str) -> Result<Option<Answer>, AllocError> {
    let text = format!(in alloc;
        "module a 00000001\nsection a 1\n{section}\nbuild a\ncall a () int p()\n"
    )?;
    added_in(alloc, text.as_str())
}

#[test]
fn borrowed_receivers_are_not_counted(rt: HostRuntime) -> Result<(), AllocError> {
    for (section, count) in BORROWED {
        let answer = added(rt.alloc(), section)?;
        assert!(rt;
            answer == Some(Answer::Gave(Value::Uint(*count))),
            "{section}"
        );
    }
    Ok(())
}
