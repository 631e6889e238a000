//! The text of an ask, and of a post.
ghost use Rattle.std.specs.Prelude.{◌≡◌, ◌==◌, ◌≤◌, ◌++◌, length, OnOk, IfOk, codes, decimal, flat_map};
ghost use Rattle.std.specs.List.{list_any};
ghost use Rattle.ang_remote.specs.Asks.{value_text, values_text, kind_text, is_posted_call, word_text, line_text};

use crate::short_line::{FEW, SHORT, write_line};
use ang_kinds::Value;
use asrun_lines::{push_key, push_number, push_object, push_signed, push_text};
use std::alloc::{AllocError, Global};

/// What is asked.
#[derive(Clone, Copy)]
pub enum AskKind {
    /// A factory, for an object.
    Make,
    /// A function or a method.
    Call,
    /// A property, for its value.
    Read,
    /// A property, to change it.
    Write,
}

#[tactic(auto, using(crate::proofs::Texts::texts))]
fn push_unsigned(out: &mut Vec<u8>, n: u64) -> Result<(), AllocError>
    ensures added { OnOk result (out.new.items ≡ out.old.items ++ (decimal n ++ codes "u")) }
{
    push_number(out, n)?;
    push_text(out, "u")
}

#[tactic(auto, using(crate::proofs::Texts::texts), unfolding(crate::specs::Asks::value_text))]
fn push_value(out: &mut Vec<u8>, value: Value) -> Result<(), AllocError>
    ensures added { OnOk result (out.new.items ≡ out.old.items ++ value_text value) }
{
    match value {
        Value::Int(n) => push_signed(out, n),
        Value::Uint(n) => push_unsigned(out, n),
        Value::Bool(true) => push_text(out, "true"),
        Value::Bool(false) => push_text(out, "false"),
        Value::Key(None) => push_text(out, "null"),
        Value::Key(Some(key)) => push_key(out, key),
    }
}

#[tactic(auto, using(crate::proofs::Texts::texts))]
fn push_more_values(out: &mut Vec<u8>, values: &[Value]) -> Result<(), AllocError>
    ensures added { OnOk result (out.new.items ≡ out.old.items
        ++ flat_map (λ w. codes "," ++ value_text w) values.now) }
{
    for value in values {
        push_text(out, ",")?;
        push_value(out, *value)?;
    }
    Ok(())
}

#[tactic(auto, using(crate::proofs::Texts::texts), unfolding(crate::specs::Asks::values_text))]
fn push_values(out: &mut Vec<u8>, values: &[Value]) -> Result<(), AllocError>
    ensures added { OnOk result (out.new.items ≡ out.old.items ++ values_text values.now) }
{
    match values {
        [] => Ok(()),
        [first, more @ ..] => {
            push_value(out, *first)?;
            push_more_values(out, more)
        }
    }
}

#[tactic(auto, unfolding(crate::specs::Asks::kind_text))]
fn kind_name(kind: AskKind) -> &'static str
    ensures exact { result.now ≡ kind_text kind }
{
    match kind {
        AskKind::Make => "make",
        AskKind::Call => "call",
        AskKind::Read => "read",
        AskKind::Write => "write",
    }
}

/// Whether a function is one of these.
#[inline(always)]
fn is_among(functions: &[u32], f: u32) -> bool
    ensures exact { result ≡ list_any (λ p. p == f) functions.now }
{
    functions.iter().any(|number| *number == f)
}

/// Whether a call is posted, of a driver that is posted these functions. A method never is.
#[inline(always)]
pub fn is_posted_call(posted: &[u32], f: u32, object: Option<u64>) -> bool
    ensures exact { result ≡ is_posted_call posted.now f object }
{
    match object {
        None => is_among(posted, f),
        Some(_) => false,
    }
}

#[tactic(auto, unfolding(crate::specs::Asks::word_text))]
fn word(posted: bool) -> &'static str
    ensures exact { result.now ≡ word_text posted }
{
    if posted { "post " } else { "ask " }
}

/// Most lines have no more bytes than this, so that room is made once.
const USUAL: usize = 64;

/// A text of these bytes.
fn copied(alloc: Global, line: &[u8]) -> Result<Vec<u8>, AllocError>
    ensures exact { IfOk result (λ r. r.items ≡ line.now) }
{
    let mut out = Vec::with_capacity(alloc, USUAL)?;
    out.extend_from_slice(line)?;
    Ok(out)
}

/// The line of three values at most.
fn short_line(
    alloc: Global,
    posted: bool,
    driver: u32,
    kind: AskKind,
    f: u32,
    object: Option<u64>,
    values: &[Value],
) -> Result<Vec<u8>, AllocError>
    requires few { length values.now ≤ 3 }
    ensures exact { IfOk result
        (λ r. r.items ≡ line_text posted driver kind f object values.now) }
{
    let mut line = [0; SHORT];
    let at = write_line(&mut line, posted, driver, kind, f, object, values);
    copied(alloc, &line[at..])
}

/// The line of any number of values.
#[tactic(auto, using(crate::proofs::Texts::texts), unfolding(crate::specs::Asks::line_text))]
#[inline(never)]
fn long_line(
    alloc: Global,
    posted: bool,
    driver: u32,
    kind: AskKind,
    f: u32,
    object: Option<u64>,
    values: &[Value],
) -> Result<Vec<u8>, AllocError>
    ensures exact { IfOk result
        (λ r. r.items ≡ line_text posted driver kind f object values.now) }
{
    let mut out = Vec::with_capacity(alloc, USUAL)?;
    push_text(&mut out, word(posted))?;
    push_number(&mut out, u64::from(driver))?;
    push_text(&mut out, " ")?;
    push_text(&mut out, kind_name(kind))?;
    push_text(&mut out, " ")?;
    push_number(&mut out, u64::from(f))?;
    push_text(&mut out, " ")?;
    push_object(&mut out, object)?;
    push_text(&mut out, " (")?;
    push_values(&mut out, values)?;
    push_text(&mut out, ")\n")?;
    Ok(out)
}

/// `ask DRIVER KIND F OBJECT (V,V)`, as a line; where it is posted, the same with `post`.
///
/// # Errors
/// A growth of memory was refused.
pub fn ask_line(
    alloc: Global,
    posted: bool,
    driver: u32,
    kind: AskKind,
    f: u32,
    object: Option<u64>,
    values: &[Value],
) -> Result<Vec<u8>, AllocError>
    ensures exact { IfOk result
        (λ r. r.items ≡ line_text posted driver kind f object values.now) }
{
    if values.len() <= FEW {
        return short_line(alloc, posted, driver, kind, f, object, values);
    }
    long_line(alloc, posted, driver, kind, f, object, values)
}
