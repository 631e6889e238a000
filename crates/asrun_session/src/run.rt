//! Running what a session says.
ghost use Rattle.std.specs.Prelude.{◌≡◌, ◌≢◌, ◌<◌, ◌^◌, length, IfOk, IfErr, OnErr};
ghost use Rattle.ang_view.specs.Only.{IsWithin};
ghost use Rattle.ang_engine.specs.Engines.{registrations, drivers_in, limits_in};
ghost use Rattle.ang_engine.specs.Sound.{IsSound};
ghost use Rattle.asrun_session.specs.Deeds.{is_done};
ghost use Rattle.asrun_session.specs.Drivers.{kinds_of};
ghost use Rattle.asrun_session.specs.Engines.{Prints, HalfPrints, RunsLines, StopsLines};
ghost use Rattle.asrun_lines.specs.Lines.{lines_of};
ghost use Rattle.asrun_session.specs.Reading.{unread};
ghost use Rattle.asrun_session.specs.Session.{session_from, budget_after};
ghost use Rattle.asrun_session.specs.declared.action.Action.TheVariants as action;

use crate::action::{Action, read_act};
use crate::ending::{SessionError, Status};
use crate::printing::{ReplyBuffer, print_bad_line, print_reply, write_text};
use ang_engine::{Command, Engine, Outcome};
use ang_host::Driver;
use asrun_lines::{LineError, first_line, is_skipped, shown};
use std::alloc::Global;
use std::io::Write;

/// Whether the command was done.
pub fn is_done(outcome: Outcome) -> bool
    ensures exact { result ≡ is_done outcome }
{
    match outcome {
        Outcome::Done(_) => true,
        Outcome::Failed(_) | Outcome::Refused(_) => false,
    }
}

/// Runs a command and prints its reply. Says whether it ended in `ok`.
fn run_command<W: Write>(
    engine: &mut Engine,
    writer: &mut W,
    buffer: &mut ReplyBuffer,
    command: Command,
) -> Result<bool, SessionError>
    requires sound { IsSound ⟦<dyn Driver as Driver>⟧ engine.old }
    ensures sound { IsSound ⟦<dyn Driver as Driver>⟧ engine.new }
    ensures within { IsWithin (registrations engine.new) (registrations engine.old) }
    ensures limits { limits_in engine.new ≡ limits_in engine.old }
    ensures order { kinds_of (drivers_in engine.new) ≡ kinds_of (drivers_in engine.old) }
    ensures done { IfOk result (λ ok. Prints ⟦<dyn Driver as Driver>⟧ engine.old engine.new
        (action.Command command) (W.contents writer.old) (W.contents writer.new) ok) }
    ensures cut { OnErr result (HalfPrints ⟦<dyn Driver as Driver>⟧ engine.old engine.new
        (action.Command command) (W.contents writer.old) (W.contents writer.new)) }
    ensures fault { IfErr result (λ e. e ≢ unread) }
{
    let reply = engine.apply(command);
    print_reply(writer, buffer, &reply)?;
    Ok(is_done(reply.outcome))
}

/// Does an action and prints its text. Says whether it ended in `ok`, and the budget after it.
///
/// The reply's memory is given back before this returns, and what the buffer held before is not printed.
pub fn perform<W: Write>(
    engine: &mut Engine,
    writer: &mut W,
    buffer: &mut ReplyBuffer,
    action: Action,
    budget: u64,
) -> Result<(bool, u64), SessionError>
    requires sound { IsSound ⟦<dyn Driver as Driver>⟧ engine.old }
    ensures sound { IsSound ⟦<dyn Driver as Driver>⟧ engine.new }
    ensures within { IsWithin (registrations engine.new) (registrations engine.old) }
    ensures limits { limits_in engine.new ≡ limits_in engine.old }
    ensures order { kinds_of (drivers_in engine.new) ≡ kinds_of (drivers_in engine.old) }
    ensures budget { IfOk result (λ x. x.1 ≡ budget_after budget action) }
    ensures done { IfOk result (λ x. Prints ⟦<dyn Driver as Driver>⟧ engine.old engine.new
        action (W.contents writer.old) (W.contents writer.new) x.0) }
    ensures cut { OnErr result (HalfPrints ⟦<dyn Driver as Driver>⟧ engine.old engine.new
        action (W.contents writer.old) (W.contents writer.new)) }
    ensures fault { IfErr result (λ e. e ≢ unread) }
{
    match action {
        Action::Command(command) => {
            let ok = run_command(engine, writer, buffer, command)?;
            Ok((ok, budget))
        }
        Action::Budget(ticks) => {
            drop(action);
            write_text(writer, b"ok\n")?;
            Ok((true, ticks))
        }
    }
}

/// Runs what the session says, line by line, and prints the text of each reply before the next command.
pub fn run_session<W: Write>(
    alloc: Global,
    engine: &mut Engine,
    writer: &mut W,
    buffer: &mut ReplyBuffer,
    text: &[u8],
    budget: u64,
) -> Result<Status, SessionError>
    requires sound { IsSound ⟦<dyn Driver as Driver>⟧ engine.old }
    requires few { length text.now < 2 ^ 32 }
    ensures sound { IsSound ⟦<dyn Driver as Driver>⟧ engine.new }
    ensures within { IsWithin (registrations engine.new) (registrations engine.old) }
    ensures limits { limits_in engine.new ≡ limits_in engine.old }
    ensures order { kinds_of (drivers_in engine.new) ≡ kinds_of (drivers_in engine.old) }
    ensures done { IfOk result (λ status. RunsLines ⟦<dyn Driver as Driver>⟧ engine.old engine.new
        (session_from 1 budget 0 (lines_of text.now)) (W.contents writer.old)
        (W.contents writer.new) status) }
    ensures cut { OnErr result (StopsLines ⟦<dyn Driver as Driver>⟧ engine.old engine.new
        (session_from 1 budget 0 (lines_of text.now)) (W.contents writer.old)
        (W.contents writer.new)) }
    ensures fault { IfErr result (λ e. e ≢ unread) }
{
    let mut rest = text;
    let mut number = 1;
    let mut ticks = budget;
    let mut all_ok = true;
    while let Some((line, after)) = first_line(rest) {
        let line = shown(line);
        if is_skipped(line) {
            number += 1;
            rest = after;
            continue;
        }
        match read_act(alloc, ticks, line, after) {
            Ok(act) => {
                let (ok, next) = perform(engine, writer, buffer, act.action, ticks)?;
                all_ok &= ok;
                ticks = next;
                number += 1 + act.lines;
                rest = act.rest;
            }
            Err(LineError::BadLine) => {
                print_bad_line(writer, buffer, number)?;
                return Ok(Status::BadInput);
            }
            Err(LineError::Memory) => return Err(SessionError::Memory),
        }
    }
    Ok(if all_ok {
        Status::AllOk
    } else {
        Status::SomeRefused
    })
}
