//! A driver of a host's own: it gives tickets, one number after the other (docs/RATTLE_HOST.md,
//! "Writing a driver").
#![tactic(auto)]

ghost use Rattle.std.specs.Prelude.{◌≡◌, ◌<◌, ◌≤◌, ◌^◌};

use ang_host::{Answer, Driver, Made};
use ang_kinds::Value;

/// The most host calls that are counted: 2^63 - 1.
const LIMIT: u64 = 9_223_372_036_854_775_807;

/// The answer to what is not known here.
const UNKNOWN: u32 = 1;

/// A driver without objects that gives tickets.
///
/// - `call` 0 gives the next ticket, whatever its arguments: 0, 1, 2 and so on, an `Uint`.
/// - `read` 0 is how many tickets were given, an `Uint`.
///
/// Anything else is `Fault(1)`, and so is every `make`. Its core is how many tickets were given.
#[derive(Drop)]
pub struct Tickets {
    given: u64,
    asked: u64,
    ghost few: { asked < 2 ^ 63 },
    ghost each: { given ≤ asked },
}

impl Tickets {
    ghost use Rattle.example_driver.specs.Tickets.{tickets};
    ghost use Rattle.example_driver.specs.TicketsState.{state_of};

    /// Tickets of which none was given, and that were never asked.
    pub fn new() -> Tickets
        ensures fresh { state_of result ≡ tickets 0 0 }
    {
        Tickets { given: 0, asked: 0 }
    }
}

impl Driver for Tickets {
    ghost use Rattle.example_driver.specs.Tickets.{TicketsFits};
    ghost use Rattle.example_driver.specs.TicketsState.{state_of};

    ghost meaning = { record { state = state_of; fits = TicketsFits } };

    fn idle(&self) -> bool {
        true
    }

    fn make(&mut self, _f: u32, _args: &[Value]) -> Made {
        if self.asked == LIMIT {
            return Made::Full;
        }
        self.asked += 1;
        Made::Fault(UNKNOWN)
    }

    fn call(&mut self, f: u32, _object: Option<u64>, _args: &[Value]) -> Answer {
        if self.asked == LIMIT {
            return Answer::Full;
        }
        self.asked += 1;
        if f != 0 {
            return Answer::Fault(UNKNOWN);
        }
        let ticket = self.given;
        self.given += 1;
        Answer::Gave(Value::Uint(ticket))
    }

    fn read(&mut self, f: u32, _object: Option<u64>) -> Answer {
        if self.asked == LIMIT {
            return Answer::Full;
        }
        self.asked += 1;
        if f == 0 {
            Answer::Gave(Value::Uint(self.given))
        } else {
            Answer::Fault(UNKNOWN)
        }
    }

    fn write(&mut self, _f: u32, _object: Option<u64>, _value: Value) -> Answer {
        if self.asked == LIMIT {
            return Answer::Full;
        }
        self.asked += 1;
        Answer::Fault(UNKNOWN)
    }

    fn add_ref(&mut self, _key: u64) -> bool {
        unreachable!()
    }

    fn release(&mut self, _key: u64) -> bool {
        unreachable!()
    }
}
