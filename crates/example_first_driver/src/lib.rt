//! A driver of a host's own that gives tickets, in its first form: what each driver owes is proved,
//! and what this one answers is tested (docs/RATTLE_HOST.md, "A driver in 30 lines").
#![tactic(auto)]

ghost use Rattle.std.specs.Prelude.{◌≡◌, ◌<◌, ◌≤◌, ◌+◌, ◌^◌, true, false};
ghost use Rattle.ang_host.specs.State.{limit};
ghost use Rattle.example_first_driver.specs.Answers.{is_plain};

use ang_host::{Answer, Driver, Made};
use ang_kinds::Value;

/// The most host calls that are counted: 2^63 - 1.
const LIMIT: u64 = 9_223_372_036_854_775_807;

/// The answer to what is not known here.
const UNKNOWN: u32 = 1;

/// A driver without objects that gives tickets.
///
/// - `call` 0 gives the next ticket, whatever its arguments: 0, 1, 2 and so on, an `Uint`.
/// - `read` 0 is how many tickets were given, an `Uint`.
///
/// Anything else is `Fault(1)`, and so is every `make`.
#[derive(Drop)]
pub struct Tickets {
    given: u64,
    asked: u64,
    ghost few: { asked < 2 ^ 63 },
    ghost each: { given ≤ asked },
}

impl Tickets {
    ghost use Rattle.example_first_driver.specs.Tickets.{tickets};
    ghost use Rattle.example_first_driver.specs.TicketsState.{state_of};

    /// Tickets of which none was given, and that were never asked.
    pub fn new() -> Tickets
        ensures fresh { state_of result ≡ tickets 0 }
    {
        Tickets { given: 0, asked: 0 }
    }

    /// The answer to a call that is counted.
    fn answer_to_call(&mut self, f: u32, _args: &[Value]) -> Answer
        requires counted { self.old.given < self.old.asked }
        ensures asked { self.new.asked ≡ self.old.asked }
        ensures plain { is_plain result ≡ true }
    {
        if f != 0 {
            return Answer::Fault(UNKNOWN);
        }
        let ticket = self.given;
        self.given += 1;
        Answer::Gave(Value::Uint(ticket))
    }

    /// The answer to a read that is counted.
    fn answer_to_read(&mut self, f: u32) -> Answer
        ensures asked { self.new.asked ≡ self.old.asked }
        ensures plain { is_plain result ≡ true }
    {
        if f != 0 {
            return Answer::Fault(UNKNOWN);
        }
        Answer::Gave(Value::Uint(self.given))
    }

    /// The answer to a write that is counted.
    fn answer_to_write(&mut self, _f: u32, _value: Value) -> Answer
        ensures asked { self.new.asked ≡ self.old.asked }
        ensures plain { is_plain result ≡ true }
    {
        Answer::Fault(UNKNOWN)
    }

    /// Counts a host call; false, with nothing done, where no more are counted.
    fn count(&mut self) -> bool
        ensures given { self.new.given ≡ self.old.given }
        ensures counted { result ≡ true → self.new.asked ≡ self.old.asked + 1 }
        ensures asked { result ≡ false → self.new.asked ≡ self.old.asked }
        ensures full { result ≡ false → self.old.asked ≡ limit }
    {
        if self.asked == LIMIT {
            return false;
        }
        self.asked += 1;
        true
    }
}

impl Driver for Tickets {
    ghost use Rattle.example_first_driver.specs.Tickets.{TicketsFits};
    ghost use Rattle.example_first_driver.specs.TicketsState.{state_of};

    ghost meaning = { record { state = state_of; fits = TicketsFits } };

    fn idle(&self) -> bool {
        true
    }

    fn make(&mut self, _f: u32, _args: &[Value]) -> Made {
        if !self.count() {
            return Made::Full;
        }
        Made::Fault(UNKNOWN)
    }

    fn call(&mut self, f: u32, _object: Option<u64>, args: &[Value]) -> Answer {
        if !self.count() {
            return Answer::Full;
        }
        self.answer_to_call(f, args)
    }

    fn read(&mut self, f: u32, _object: Option<u64>) -> Answer {
        if !self.count() {
            return Answer::Full;
        }
        self.answer_to_read(f)
    }

    fn write(&mut self, f: u32, _object: Option<u64>, value: Value) -> Answer {
        if !self.count() {
            return Answer::Full;
        }
        self.answer_to_write(f, value)
    }

    fn add_ref(&mut self, _key: u64) -> bool {
        unreachable!()
    }

    fn release(&mut self, _key: u64) -> bool {
        unreachable!()
    }
}

#[cfg(test)]
mod tests {
    use super::*;

    #[test]
    fn tickets_are_given_in_order(rt: HostRuntime) {
        let mut tickets = Tickets::new();
        for ticket in 0..3 {
            let given = tickets.call(0, None, &[]);
            assert_eq!(rt; given, Answer::Gave(Value::Uint(ticket)));
        }
        assert_eq!(rt; tickets.read(0, None), Answer::Gave(Value::Uint(3)));
        assert_eq!(rt; tickets.call(1, None, &[]), Answer::Fault(UNKNOWN));
    }
}
