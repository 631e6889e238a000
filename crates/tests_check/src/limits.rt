//! How many functions, globals, parameters and locals scripts may have.
ghost use Rattle.std.specs.Prelude.{◌≡◌};
ghost use Rattle.ang_view.specs.Registration.{seen};

use crate::outcomes::Outcome::{Built, Declared, Refused, Undeclared};
use crate::outcomes::{Outcome, becomes};
use ang_kinds::{ErrorKind, Mask};
use ang_registry::{Registry, View};
use std::alloc::{AllocError, Global};

/// A text that repeats a part with a number in it.
struct Repeated {
    first: &'static str,
    before: &'static str,
    from: usize,
    after: &'static str,
    last: &'static str,
}

const FUNCTIONS: &Repeated = &Repeated {
    first: "",
    before: "void f",
    from: 0,
    after: "(){}\n",
    last: "",
};

const GLOBALS: &Repeated = &Repeated {
    first: "",
    before: "int g",
    from: 0,
    after: ";\n",
    last: "",
};

const PARAMETERS: &Repeated = &Repeated {
    first: "void f(int p",
    before: ", int p",
    from: 1,
    after: "",
    last: ") {}",
};

const LOCALS: &Repeated = &Repeated {
    first: "void m(int p) {\n",
    before: "int a",
    from: 0,
    after: ";\n",
    last: "}",
};

fn put_part(
    alloc: Global,
    out: &mut String,
    text: &Repeated,
    number: usize,
) -> Result<(), AllocError> {
    let (before, after) = (text.before, text.after);
    let part = format!(in alloc; "{before}{number}{after}")?;
    out.push_str(part.as_str())
}

fn put(alloc: Global, out: &mut String, text: &Repeated, to: usize) -> Result<(), AllocError> {
    out.push_str(text.first)?;
    for number in text.from..to {
        put_part(alloc, out, text, number)?;
    }
    out.push_str(text.last)
}

fn holds(alloc: Global, registry: &Registry, view: &View, limit: &Limit) -> bool
    requires view { view.now ≡ seen registry.now.entries 1 }
{
    let (text, to, outcome) = limit;
    let mut out = String::new(alloc);
    put(alloc, &mut out, text, *to).is_ok()
        && becomes(alloc, registry, Mask(1), view, out.as_str(), outcome)
}

/// A text, the number that it ends before, and what becomes of it.
type Limit = (&'static Repeated, usize, Outcome);

/// Texts up to a limit and past it.
const LIMITS: &[Limit] = &[
    (FUNCTIONS, 4096, Declared),
    (
        FUNCTIONS,
        4097,
        Undeclared(ErrorKind::Limit, 4097, 6, "f4096"),
    ),
    (GLOBALS, 4096, Declared),
    (
        GLOBALS,
        4097,
        Undeclared(ErrorKind::Limit, 4097, 5, "g4096"),
    ),
    (PARAMETERS, 32, Declared),
    (PARAMETERS, 33, Undeclared(ErrorKind::Limit, 1, 6, "f")),
    (LOCALS, 1024, Built),
    (LOCALS, 1025, Refused(ErrorKind::Limit, 1026, 5, "a1024")),
];

/// The number of the first text of which something else becomes.
fn first_wrong(alloc: Global, registry: &Registry, view: &View) -> Option<usize>
    requires view { view.now ≡ seen registry.now.entries 1 }
{
    for (at, limit) in LIMITS.iter().enumerate() {
        if !holds(alloc, registry, view, limit) {
            return Some(at);
        }
    }
    None
}

fn wrong_over(alloc: Global, registry: &Registry) -> Option<usize> {
    match registry.seen(alloc, Mask(1)) {
        Ok(view) => {
            let wrong = first_wrong(alloc, registry, &view);
            drop(view);
            wrong
        }
        Err(_) => Some(LIMITS.len()),
    }
}

fn wrong_limit(alloc: Global) -> Option<usize> {
    let registry = Registry::new(alloc);
    let wrong = wrong_over(alloc, &registry);
    drop(registry);
    wrong
}

#[test]
fn limits_are_reached_and_not_passed(rt: HostRuntime) {
    assert_eq!(rt; wrong_limit(rt.alloc()), None);
}
