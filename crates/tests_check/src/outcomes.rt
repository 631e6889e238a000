//! What sections come to, as rows of a test.
ghost use Rattle.std.specs.Prelude.{◌≡◌, [], option_copied, map as list_map};
ghost use Rattle.ang_view.specs.Registration.{seen};
ghost use Rattle.ang_names_listed.specs.Declarations.{declarations_of};
ghost use Rattle.ang_names_listed.specs.Sources.{source_of};
ghost use Rattle.ang_names.specs.Phases.{refusals_of};
ghost use Rattle.ang_names_classes.specs.Resolved.{names_of};
ghost use Rattle.ang_check.specs.Denials.{AreErrors};

use crate::host::{Line, are_taken};
use ang_check::{check, denials};
use ang_kinds::{Denial, EntityNo, Error, ErrorKind, Mask, Position, Prim, Unbuilt};
use ang_lex::lex;
use ang_names::{Names, declare};
use ang_parse::parse;
use ang_registry::{Registry, View};
use ang_tree::Script;
use ang_typed::{Typed, TypedExpression, TypedStatement};
use std::alloc::{AllocError, Global};
use std::slice;

/// What becomes of a section that is read.
pub enum Outcome {
    /// Its declarations have that error alone: its kind, line and column, and the name that it is about.
    Undeclared(ErrorKind, u32, u32, &'static str),
    /// Its declarations are accepted. Its bodies are not looked at.
    Declared,
    /// Its bodies have that error alone.
    Refused(ErrorKind, u32, u32, &'static str),
    /// Its bodies have these errors, by kind and column, all in the first line.
    Errors(&'static [(ErrorKind, u32)]),
    /// It is built.
    Built,
    /// Its one function has one statement, a call of that entry.
    Calls(u32),
    /// Its first function returns the value of that entry, which is that number of type `int`, kept in 64 bits.
    Gives(u32, u64),
    /// The same of a value that is brought into an `int`.
    Brings(u32, u64),
    /// The same where what is brought is converted to the enumeration of the first number.
    Converts(u32, u32, u64),
    /// The statements of the body of that number stand at these lines and columns, from 0.
    Stands(usize, &'static [(u16, u16)]),
    /// It is refused, and these hidden entries would have resolved a use: column, entry, and the masks of the entry
    /// and of the module.
    Denied(&'static [DenialRow]),
}

/// A denial as it is wanted, in the first line.
pub type DenialRow = (u32, u32, u32, u32);

/// A section, and what becomes of it.
pub type Row = (&'static str, Outcome);

fn script_of(alloc: Global, text: &[u8]) -> Option<Script> {
    let tokens = lex(alloc, text, 0).ok()?;
    parse(alloc, text, tokens.as_slice()).ok()
}

/// What an error has to be: its kind, its line and column, and the name that it is about.
type Want = (ErrorKind, u32, u32, &'static str);

fn is_error(error: &Error, want: Want) -> bool {
    error.kind == want.0
        && error.place.sect == 0
        && error.place.line == want.1
        && error.place.column == want.2
        && error.name.as_slice() == want.3.as_bytes()
}

fn is_only_error(errors: &[Error], want: Want) -> bool {
    match errors {
        [error] => is_error(error, want),
        _ => false,
    }
}

fn is_at(error: &Error, want: Option<&(ErrorKind, u32)>) -> bool {
    match want {
        Some((kind, column)) => {
            error.kind == *kind
                && error.place.sect == 0
                && error.place.line == 1
                && error.place.column == *column
        }
        None => false,
    }
}

/// Whether these are all errors, in their order.
fn are_at(errors: &[Error], wanted: &[(ErrorKind, u32)]) -> bool {
    for (at, error) in errors.iter().enumerate() {
        if !is_at(error, wanted.get(at)) {
            return false;
        }
    }
    errors.len() == wanted.len()
}

/// Whether these are all errors, of bodies where the declarations are accepted.
fn are_errors(errors: &[Error], are_of_bodies: bool, outcome: &Outcome) -> bool {
    match outcome {
        Outcome::Undeclared(kind, line, column, name) => {
            !are_of_bodies && is_only_error(errors, (*kind, *line, *column, name))
        }
        Outcome::Refused(kind, line, column, name) => {
            are_of_bodies && is_only_error(errors, (*kind, *line, *column, name))
        }
        Outcome::Errors(wanted) => are_of_bodies && are_at(errors, wanted),
        _ => false,
    }
}

/// The entry that an expression calls.
fn host_called(e: &TypedExpression) -> Option<EntityNo> {
    match e {
        TypedExpression::HostCall { host, .. } => Some(host.entity),
        _ => None,
    }
}

/// The entry that the one statement of the one function of a module calls.
fn entry_called(module: &Typed) -> Option<EntityNo> {
    let [function] = module.functions.as_slice() else {
        return None;
    };
    match function.body.statements.as_slice() {
        [TypedStatement::Expression(Some(e))] => host_called(e),
        _ => None,
    }
}

/// The expression that the one statement of the first function returns.
fn returned(module: &Typed) -> Option<&TypedExpression> {
    let function = module.functions.as_slice().first()?;
    match function.body.statements.as_slice() {
        [TypedStatement::Return(Some(e))] => Some(e),
        _ => None,
    }
}

/// Whether an expression is that number of type `int`, kept in 64 bits.
fn is_number(e: &TypedExpression, bits: u64) -> bool {
    match e {
        TypedExpression::Number { ty, value } => *ty == Prim::I32 && *value == bits,
        _ => false,
    }
}

/// Whether it is that number, in which the entry of this number is named.
fn is_value(e: &TypedExpression, entry: u32, bits: u64) -> bool {
    match e {
        TypedExpression::Naming { entity, operand } => {
            entity.0 == entry && is_number(operand, bits)
        }
        _ => false,
    }
}

/// The same of what is brought into an `int`.
fn is_brought(e: &TypedExpression, entry: u32, bits: u64) -> bool {
    match e {
        TypedExpression::Convert { from, to, operand } => {
            *from == Prim::I32 && *to == Prim::I32 && is_value(operand, entry, bits)
        }
        _ => false,
    }
}

/// The same where it is converted to the enumeration of this number.
fn is_converted(e: &TypedExpression, enumeration: u32, entry: u32, bits: u64) -> bool {
    match e {
        TypedExpression::Naming { entity, operand } => {
            entity.0 == enumeration && is_brought(operand, entry, bits)
        }
        _ => false,
    }
}

fn is_returned(e: &TypedExpression, outcome: &Outcome) -> bool {
    match outcome {
        Outcome::Gives(entry, bits) => is_value(e, *entry, *bits),
        Outcome::Brings(entry, bits) => is_brought(e, *entry, *bits),
        Outcome::Converts(enumeration, entry, bits) => {
            is_converted(e, *enumeration, *entry, *bits)
        }
        _ => false,
    }
}

fn is_position(position: Position, want: Option<&(u16, u16)>) -> bool {
    match want {
        Some((line, column)) => position.line == *line && position.column == *column,
        None => false,
    }
}

/// Whether these are all positions, in their order.
fn are_positions(found: &[Position], wanted: &[(u16, u16)]) -> bool {
    for (at, position) in found.iter().enumerate() {
        if !is_position(*position, wanted.get(at)) {
            return false;
        }
    }
    found.len() == wanted.len()
}

fn stands(module: &Typed, body: usize, wanted: &[(u16, u16)]) -> bool {
    match module.functions.as_slice().get(body) {
        Some(function) => are_positions(function.positions.as_slice(), wanted),
        None => false,
    }
}

fn is_module(module: &Typed, outcome: &Outcome) -> bool {
    match outcome {
        Outcome::Built => true,
        Outcome::Calls(entry) => entry_called(module) == Some(EntityNo(*entry)),
        Outcome::Stands(body, wanted) => stands(module, *body, wanted),
        _ => match returned(module) {
            Some(e) => is_returned(e, outcome),
            None => false,
        },
    }
}

fn is_row(denial: &Denial, want: &DenialRow) -> bool {
    denial.place.sect == 0
        && denial.place.line == 1
        && denial.place.column == want.0
        && denial.entity.0 == want.1
        && denial.entity_mask.0 == want.2
        && denial.module_mask.0 == want.3
}

fn are_rows(denials: &[Denial], wanted: &[DenialRow]) -> bool {
    for (at, denial) in denials.iter().enumerate() {
        match wanted.get(at) {
            Some(want) if is_row(denial, want) => {}
            _ => return false,
        }
    }
    denials.len() == wanted.len()
}

fn are_found(found: &Result<Vec<Denial>, AllocError>, wanted: &[DenialRow]) -> bool {
    match found {
        Ok(found) => are_rows(found.as_slice(), wanted),
        Err(_) => false,
    }
}

/// Whether a refusal has these errors, or these denials. The names are there where the declarations are accepted.
fn is_refusal(
    alloc: Global,
    registry: &Registry,
    mask: Mask,
    scripts: &[Script],
    names: Option<&Names>,
    errors: &[Error],
    outcome: &Outcome,
) -> bool
    requires errors { AreErrors (seen registry.now.entries mask.0)
        (list_map source_of scripts.now) (option_copied names) errors.now }
{
    match outcome {
        Outcome::Denied(wanted) => {
            are_found(
                &denials(alloc, registry, mask, scripts, names, errors),
                wanted,
            )
        }
        _ => are_errors(errors, names.is_some(), outcome),
    }
}

/// Whether that becomes of scripts whose declarations are accepted.
fn is_of_bodies(
    alloc: Global,
    registry: &Registry,
    mask: Mask,
    view: &View,
    scripts: &[Script],
    names: &Names,
    outcome: &Outcome,
) -> bool
    requires view { view.now ≡ seen registry.now.entries mask.0 }
    requires accepted { refusals_of view.now (list_map source_of scripts.now) ≡ [] }
    requires names { names.now ≡ names_of view.now
        (declarations_of (list_map source_of scripts.now)) }
{
    match check(alloc, view, names, scripts) {
        Ok(module) => {
            let is_so = is_module(&module, outcome);
            drop(module);
            is_so
        }
        Err(Unbuilt::Errors(errors)) => {
            let errors = errors.as_slice();
            is_refusal(alloc, registry, mask, scripts, Some(names), errors, outcome)
        }
        Err(Unbuilt::Memory) => false,
    }
}

/// Whether that becomes of scripts.
fn comes_to(
    alloc: Global,
    registry: &Registry,
    mask: Mask,
    view: &View,
    scripts: &[Script],
    outcome: &Outcome,
) -> bool
    requires view { view.now ≡ seen registry.now.entries mask.0 }
{
    match declare(alloc, view, scripts) {
        Ok(names) => {
            let is_so = matches!(outcome, Outcome::Declared)
                || is_of_bodies(alloc, registry, mask, view, scripts, &names, outcome);
            drop(names);
            is_so
        }
        Err(Unbuilt::Errors(errors)) => {
            let errors = errors.as_slice();
            is_refusal(alloc, registry, mask, scripts, None, errors, outcome)
        }
        Err(Unbuilt::Memory) => false,
    }
}

/// Whether that becomes of a section, which has to be read, in a module of that mask.
pub fn becomes(
    alloc: Global,
    registry: &Registry,
    mask: Mask,
    view: &View,
    text: &str,
    outcome: &Outcome,
) -> bool
    requires view { view.now ≡ seen registry.now.entries mask.0 }
{
    match script_of(alloc, text.as_bytes()) {
        Some(script) => {
            let scripts = slice::from_ref(&script);
            let is_so = comes_to(alloc, registry, mask, view, scripts, outcome);
            drop(script);
            is_so
        }
        None => false,
    }
}

/// A name, a host, the mask of a module, and sections.
pub type Case = (&'static str, &'static [Line], u32, &'static [Row]);

fn first_wrong_seen(
    alloc: Global,
    registry: &Registry,
    mask: Mask,
    view: &View,
    rows: &[Row],
) -> Option<&'static str>
    requires view { view.now ≡ seen registry.now.entries mask.0 }
{
    for (text, outcome) in rows {
        if !becomes(alloc, registry, mask, view, text, outcome) {
            return Some(text);
        }
    }
    None
}

fn first_wrong_of(
    alloc: Global,
    registry: &Registry,
    mask: Mask,
    rows: &[Row],
) -> Option<&'static str> {
    match registry.seen(alloc, mask) {
        Ok(view) => {
            let wrong = first_wrong_seen(alloc, registry, mask, &view, rows);
            drop(view);
            wrong
        }
        Err(_) => Some("there is no memory"),
    }
}

fn first_wrong_over(alloc: Global, registry: &mut Registry, case: &Case) -> Option<&'static str> {
    if are_taken(registry, case.1) {
        first_wrong_of(alloc, registry, Mask(case.2), case.3)
    } else {
        Some("the host is refused")
    }
}

/// The first section of which something else becomes.
pub fn first_wrong(alloc: Global, case: &Case) -> Option<&'static str> {
    let mut registry = Registry::new(alloc);
    let wrong = first_wrong_over(alloc, &mut registry, case);
    drop(registry);
    wrong
}
