//! Files of rows. Each row is a session, what it prints, and its status; README.md here says how they
//! are written.

ghost use Rattle.std.specs.Prelude.{◌<◌, length};

use ang_drivers::Failing;

/// The host call of the second driver that fails, counted from 1, and how.
#[derive(Clone, Copy)]
pub struct FailingCall {
    pub number: u32,
    pub how: Failing,
}

/// A run, and what is stored of it.
#[derive(Clone, Copy)]
pub struct Row<'a> {
    /// Whether its texts are cut, and its streams fail, too.
    pub has_trials: bool,
    pub failing: Option<FailingCall>,
    pub profile: &'a str,
    pub session: &'a str,
    pub output: &'a str,
    pub status: &'a str,
}

/// The front of a text up to where a row begins, and what comes after that.
pub fn until_row(text: &str) -> (&str, &str)
    ensures shorter { 0 < length text.now → length result.1.now < length text.now }
{
    text.split_once("\n== ").unwrap_or((text, ""))
}

/// The profile at the end of a head, which is the one of all rows of the file if there is none.
pub fn profile_in<'a>(head: &'a str, of_all: &'a str) -> &'a str {
    match head.split_once("-- profile\n") {
        Some((_, profile)) => profile,
        None => of_all,
    }
}

/// The host call that a head says to fail, as `2 fault`. Nothing where it says it in another way.
fn failing_call(words: &str) -> Option<FailingCall> {
    let (line, _) = words.split_once('\n')?;
    let (number, how) = line.split_once(' ')?;
    let number = number.parse::<u32>().ok()?;
    let how = match how {
        "fault" => Failing::Fault,
        "nothing" => Failing::Nothing,
        "memory" => Failing::Memory,
        "full" => Failing::Full,
        _ => return None,
    };
    Some(FailingCall { number, how })
}

/// Reads a row without its name, over the profile of all rows of its file. Nothing where it is not written as a row is.
pub fn row_of<'a>(text: &'a str, of_all: &'a str) -> Option<Row<'a>> {
    let (head, text) = text.split_once("-- session\n")?;
    let (session, text) = text.split_once("-- output\n")?;
    let (output, text) = text.split_once("-- status ")?;
    let failing = match head.split_once("-- failing ") {
        Some((_, words)) => Some(failing_call(words)?),
        None => None,
    };
    Some(Row {
        has_trials: head.contains("-- trials\n"),
        failing,
        profile: profile_in(head, of_all),
        session,
        output,
        status: text.trim_ascii_end(),
    })
}
