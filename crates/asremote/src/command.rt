//! The options of the command line.

ghost use Rattle.std.specs.Prelude.{◌≡◌, ◌≤◌, true, false, Some, IfOk, IfSome, codes, is_some, option_map, string_bytes};
ghost use Rattle.clap.specs.Words.{app_of, first_value, one_text, found_of};
ghost use Rattle.asrun_lines.specs.Budget.{budget_given};
ghost use Rattle.asremote.specs.Options.{program, drivers_given, is_complete};

use asrun_lines::{budget_of, decimal};
use clap::{Arg, ArgAction, ArgMatches, Command};
use std::alloc::{AllocError, Global};

/// The most drivers that `--drivers` may give.
const MOST_DRIVERS: u64 = 64;

/// The version, which docs/CHANGES.md and the clients have too.
const VERSION: &str = "0.1.0";

/// What the program is for.
const ABOUT: &str =
    "Runs scripts for a host that writes commands to standard input and answers asks there.";

const PROFILE_HELP: &str = "The file of what the host registers, each under a mask";

const DRIVERS_HELP: &str = "How many drivers the host is, from 1 to 64 (1 if left out)";

const ECHO_HELP: &str = "Writes what is read to standard output, too";

const BUDGET_HELP: &str =
    "The ticks that each command may take, from 1 to 2147483647 (1000000 if left out)";

/// Where the formats are described.
const FORMATS: &str =
    "The profile is text, one entry a line. docs/FORMATS.md has its lines, those of the conversation{n}\
    and the exit status.";

/// What the command line says.
#[derive(Drop)]
pub struct RemoteOptions {
    /// The path of the profile.
    pub profile: String,
    /// How many drivers there are, from 1 to 64.
    pub drivers: u32,
    /// The ticks that each command may take, from 1 to 2,147,483,647.
    pub budget: u64,
    /// Whether what is read is shown.
    pub echo: bool,
}

/// The program's command line.
pub fn command_line<'a>(alloc: Global) -> Result<Command<'a>, AllocError>
    ensures exact { IfOk result (λ c. app_of c ≡ program) }
{
    Command::new(alloc, "asremote")
        .version(VERSION)
        .about(ABOUT)
        .after_help(FORMATS)
        .arg(
            Arg::new(alloc, "profile")
                .long("profile")
                .required(true)
                .help(PROFILE_HELP),
        )?
        .arg(
            Arg::new(alloc, "drivers")
                .long("drivers")
                .help(DRIVERS_HELP),
        )?
        .arg(Arg::new(alloc, "budget").long("budget").help(BUDGET_HELP))?
        .arg(
            Arg::new(alloc, "echo")
                .long("echo")
                .action(ArgAction::SetTrue)
                .help(ECHO_HELP),
        )
}

/// The number of drivers that is given, or 1 where none is. None where it is no number from 1 to the most.
#[tactic(auto, unfolding(crate::specs::Options::drivers_given))]
fn drivers_of(text: Option<&str>) -> Option<u32>
    ensures exact { result ≡ drivers_given (option_map (λ s. s.now) text.entry) }
    ensures least { IfSome result (λ n. 1 ≤ n) }
    ensures most { IfSome result (λ n. n ≤ 64) }
{
    let Some(text) = text else {
        return Some(1);
    };
    let number = decimal(text.as_bytes(), 10)?;
    if 1 <= number && number <= MOST_DRIVERS {
        Some(number as u32)
    } else {
        None
    }
}

/// The options of a command line that was read. None where a number is not in its range.
pub fn chosen(alloc: Global, matches: &ArgMatches<'_>) -> Result<Option<RemoteOptions>, AllocError>
    ensures profile { IfOk result (λ r. IfSome r
        (λ o. first_value (found_of matches.now) (codes "profile")
        ≡ Some (string_bytes o.profile))) }
    ensures drivers { IfOk result (λ r. IfSome r
        (λ o. drivers_given (first_value (found_of matches.now) (codes "drivers"))
        ≡ Some o.drivers)) }
    ensures budget { IfOk result (λ r. IfSome r
        (λ o. budget_given (first_value (found_of matches.now) (codes "budget")) ≡ Some o.budget)) }
    ensures echo { IfOk result (λ r. IfSome r
        (λ o. one_text (found_of matches.now) (codes "echo") ≡ Some (codes "true")
        → o.echo ≡ true)) }
    ensures no_echo { IfOk result (λ r. IfSome r
        (λ o. one_text (found_of matches.now) (codes "echo") ≡ Some (codes "false")
        → o.echo ≡ false)) }
    ensures complete { IfOk result (λ r. is_some r
        ≡ is_complete (first_value (found_of matches.now) (codes "profile"))
        (drivers_given (first_value (found_of matches.now) (codes "drivers")))
        (budget_given (first_value (found_of matches.now) (codes "budget")))) }
    ensures drivers_least { IfOk result (λ r. IfSome r (λ o. 1 ≤ o.drivers)) }
    ensures drivers_most { IfOk result (λ r. IfSome r (λ o. o.drivers ≤ 64)) }
    ensures least { IfOk result (λ r. IfSome r (λ o. 1 ≤ o.budget)) }
    ensures most { IfOk result (λ r. IfSome r (λ o. o.budget ≤ 2147483647)) }
{
    let Some(budget) = budget_of(matches.get_str("budget")) else {
        return Ok(None);
    };
    let Some(drivers) = drivers_of(matches.get_str("drivers")) else {
        return Ok(None);
    };
    let Some(profile) = matches.get_str("profile") else {
        return Ok(None);
    };
    Ok(Some(RemoteOptions {
        profile: String::from_str(alloc, profile)?,
        drivers,
        budget,
        echo: matches.get_flag("echo"),
    }))
}
