//! Reading the command line.

ghost use Rattle.std.specs.Prelude.{◌≡◌, ◌≤◌, true, false, Some, IfOk, IfErr, IsErrAnd, codes, map, string_bytes};
ghost use Rattle.clap.specs.Words.{app_of, kind_of};
ghost use Rattle.clap.specs.declared.error.kind.ErrorKind.TheVariants.{OutOfMemory};
ghost use Rattle.asrun_lines.specs.Budget.{budget_given};
ghost use Rattle.asremote.specs.Options.{program, given, flag, drivers_given, is_right, AsksVersion, IsVersion};

use crate::command;
use crate::command::{chosen, command_line};
use clap::error::ErrorKind;
use clap::{Command, Error};
use std::alloc::Global;

/// What the words say by this command line, as `options` answers it.
fn options_by<'a>(
    alloc: Global,
    command: &mut Command<'a>,
    words: &'a [&'a str],
) -> Result<command::RemoteOptions, Error>
    requires program { app_of command.old ≡ program }
    ensures profile { IfOk result (λ o. given (codes "profile") (map (λ w. w.now) words.now)
        ≡ Some (string_bytes o.profile)) }
    ensures drivers { IfOk result (λ o. drivers_given
        (given (codes "drivers") (map (λ w. w.now) words.now)) ≡ Some o.drivers) }
    ensures budget { IfOk result (λ o. budget_given
        (given (codes "budget") (map (λ w. w.now) words.now)) ≡ Some o.budget) }
    ensures echo { IfOk result (λ o. flag (codes "echo") (map (λ w. w.now) words.now)
        ≡ Some (codes "true") → o.echo ≡ true) }
    ensures no_echo { IfOk result (λ o. flag (codes "echo") (map (λ w. w.now) words.now)
        ≡ Some (codes "false") → o.echo ≡ false) }
    ensures drivers_least { IfOk result (λ o. 1 ≤ o.drivers) }
    ensures drivers_most { IfOk result (λ o. o.drivers ≤ 64) }
    ensures least { IfOk result (λ o. 1 ≤ o.budget) }
    ensures most { IfOk result (λ o. o.budget ≤ 2147483647) }
    ensures refused { IfErr result (λ e. is_right (map (λ w. w.now) words.now) ≡ true →
        kind_of e ≡ OutOfMemory) }
    ensures version { AsksVersion (map (λ w. w.now) words.now) → IsErrAnd result IsVersion }
{
    let matches = command.try_get_matches_from_mut(words)?;
    match chosen(alloc, &matches)? {
        Some(options) => Ok(options),
        None => {
            let text = "--budget takes a number from 1 to 2147483647, --drivers one from 1 to 64";
            Err(command.error(ErrorKind::ValueValidation, text)?)
        }
    }
}

/// What the words of the command line say; the first is the program's name.
///
/// # Errors
/// The error of `clap`: an option that is missing, unknown, given twice or without a value, a budget
/// that is no number from 1 to 2,147,483,647, a number of drivers that is none from 1 to 64, a wish
/// for help or the version, or want of memory.
pub fn options<'a>(alloc: Global, words: &'a [&'a str]) -> Result<command::RemoteOptions, Error>
    ensures profile { IfOk result (λ o. given (codes "profile") (map (λ w. w.now) words.now)
        ≡ Some (string_bytes o.profile)) }
    ensures drivers { IfOk result (λ o. drivers_given
        (given (codes "drivers") (map (λ w. w.now) words.now)) ≡ Some o.drivers) }
    ensures budget { IfOk result (λ o. budget_given
        (given (codes "budget") (map (λ w. w.now) words.now)) ≡ Some o.budget) }
    ensures echo { IfOk result (λ o. flag (codes "echo") (map (λ w. w.now) words.now)
        ≡ Some (codes "true") → o.echo ≡ true) }
    ensures no_echo { IfOk result (λ o. flag (codes "echo") (map (λ w. w.now) words.now)
        ≡ Some (codes "false") → o.echo ≡ false) }
    ensures drivers_least { IfOk result (λ o. 1 ≤ o.drivers) }
    ensures drivers_most { IfOk result (λ o. o.drivers ≤ 64) }
    ensures least { IfOk result (λ o. 1 ≤ o.budget) }
    ensures most { IfOk result (λ o. o.budget ≤ 2147483647) }
    ensures refused { IfErr result (λ e. is_right (map (λ w. w.now) words.now) ≡ true →
        kind_of e ≡ OutOfMemory) }
    ensures version { AsksVersion (map (λ w. w.now) words.now) → IsErrAnd result IsVersion }
{
    let mut command = command_line(alloc)?;
    let read = options_by(alloc, &mut command, words);
    drop(command);
    read
}
