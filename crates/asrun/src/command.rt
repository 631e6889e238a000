//! The options of the command line.
ghost use Rattle.std.specs.Prelude.{◌≡◌, ◌≤◌, true, false, Some, IfOk, IfSome, codes, is_some, string_bytes};
ghost use Rattle.clap.specs.Words.{app_of, first_value, one_text, found_of};
ghost use Rattle.asrun_lines.specs.Budget.{budget_given};
ghost use Rattle.asrun.specs.Options.{program, is_complete};

use asrun_lines::budget_of;
use clap::{Arg, ArgAction, ArgMatches, Command};
use std::alloc::{AllocError, Global};

/// The version, which docs/CHANGES.md and the clients have too.
const VERSION: &str = "0.1.0";

/// What the program is for.
const ABOUT: &str = "Runs a session of scripts over a profile of what a host offers them.";

const PROFILE_HELP: &str = "The file of what the host registers, each under a mask";

const SESSION_HELP: &str = "The file of commands: modules, their scripts, builds and calls";

const BUDGET_HELP: &str =
    "The ticks that each command may take, from 1 to 2147483647 (1000000 if left out)";

const TRACE_HELP: &str = "Prints what was running where a command ended with a fault, too";

/// Files of both forms to begin with, and where the forms are described.
const FORMATS: &str = "\
Both files are text, one entry or command a line. A mask is eight hexadecimal digits: a module sees
the entries whose masks have a bit in common with its own. A profile:

  mask 00000001
  function 0 0 void print(int)

A session of four commands, one of which has a line of script:

  module a 00000001
  section a 1
  void main(){ print(1+2); }
  build a
  call a () void main()

docs/FORMATS.md has all lines, what is printed and the exit status; crates/examples/data has more.";

/// What the command line says.
#[derive(Drop)]
pub struct RunOptions {
    /// The path of the profile.
    pub profile: String,
    /// The path of the session.
    pub session: String,
    /// The ticks that each command may take, from 1 to 2,147,483,647.
    pub budget: u64,
    /// Whether traces are printed.
    pub trace: bool,
}

/// The program's command line.
pub fn command_line<'a>(alloc: Global) -> Result<Command<'a>, AllocError>
    ensures exact { IfOk result (λ c. app_of c ≡ program) }
{
    Command::new(alloc, "asrun")
        .version(VERSION)
        .about(ABOUT)
        .after_help(FORMATS)
        .arg(
            Arg::new(alloc, "profile")
                .long("profile")
                .required(true)
                .help(PROFILE_HELP),
        )?
        .arg(
            Arg::new(alloc, "session")
                .long("session")
                .required(true)
                .help(SESSION_HELP),
        )?
        .arg(Arg::new(alloc, "budget").long("budget").help(BUDGET_HELP))?
        .arg(
            Arg::new(alloc, "trace")
                .long("trace")
                .action(ArgAction::SetTrue)
                .help(TRACE_HELP),
        )
}

/// The options of a command line that was read. None where the budget is no number from 1 to the most.
pub fn chosen(alloc: Global, matches: &ArgMatches<'_>) -> Result<Option<RunOptions>, AllocError>
    ensures profile { IfOk result (λ r. IfSome r
        (λ o. first_value (found_of matches.now) (codes "profile")
        ≡ Some (string_bytes o.profile))) }
    ensures session { IfOk result (λ r. IfSome r
        (λ o. first_value (found_of matches.now) (codes "session")
        ≡ Some (string_bytes o.session))) }
    ensures budget { IfOk result (λ r. IfSome r
        (λ o. budget_given (first_value (found_of matches.now) (codes "budget")) ≡ Some o.budget)) }
    ensures trace { IfOk result (λ r. IfSome r
        (λ o. one_text (found_of matches.now) (codes "trace") ≡ Some (codes "true")
        → o.trace ≡ true)) }
    ensures no_trace { IfOk result (λ r. IfSome r
        (λ o. one_text (found_of matches.now) (codes "trace") ≡ Some (codes "false")
        → o.trace ≡ false)) }
    ensures least { IfOk result (λ r. IfSome r (λ o. 1 ≤ o.budget)) }
    ensures most { IfOk result (λ r. IfSome r (λ o. o.budget ≤ 2147483647)) }
    ensures complete { IfOk result (λ r. is_some r
        ≡ is_complete (first_value (found_of matches.now) (codes "profile"))
        (first_value (found_of matches.now) (codes "session"))
        (budget_given (first_value (found_of matches.now) (codes "budget")))) }
{
    let Some(budget) = budget_of(matches.get_str("budget")) else {
        return Ok(None);
    };
    let Some(profile) = matches.get_str("profile") else {
        return Ok(None);
    };
    let Some(session) = matches.get_str("session") else {
        return Ok(None);
    };
    Ok(Some(RunOptions {
        profile: String::from_str(alloc, profile)?,
        session: String::from_str(alloc, session)?,
        budget,
        trace: matches.get_flag("trace"),
    }))
}
