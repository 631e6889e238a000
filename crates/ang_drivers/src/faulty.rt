//! A counter of which one asking fails, for trials.
ghost use Rattle.std.specs.Prelude.{◌≡◌, ◌<◌, ◌↔◌, IsTrue, IfOk};

use crate::counter::Counter;
use crate::objects::Objects;
use crate::values::LIMIT;
use ang_host::{Answer, Driver, Made};
use ang_kinds::Value;
use std::alloc::{AllocError, Global};

/// The fault by which an asking fails.
const FAILED: u32 = 9;

/// How the one asking of a `Faulty` fails that does.
#[derive(Clone, Copy, Debug)]
pub enum Failing {
    /// By `Fault(9)`.
    Fault,
    /// By `Nothing` where it is a `make`, and else by `Fault(9)`.
    Nothing,
    /// By `Memory`.
    Memory,
    /// By `Full`, and so does each asking after it: the tally `asked` begins so high that it is full then.
    Full,
}

impl Failing {
    ghost use Rattle.ang_drivers.specs.Faulty.{failing_made, failing_answer, begins_at, fails_at};

    fn made(self) -> Made
        ensures exact { result ≡ failing_made self }
    {
        match self {
            Failing::Fault => Made::Fault(FAILED),
            Failing::Nothing => Made::Nothing,
            Failing::Memory => Made::Memory,
            Failing::Full => Made::Full,
        }
    }

    fn answer(self) -> Answer
        ensures exact { result ≡ failing_answer self }
    {
        match self {
            Failing::Fault => Answer::Fault(FAILED),
            Failing::Nothing => Answer::Fault(FAILED),
            Failing::Memory => Answer::Memory,
            Failing::Full => Answer::Full,
        }
    }

    // Where the tally of askings begins, if the asking of this number is to fail.
    fn begins_at(self, number: u32) -> u64
        ensures exact { result ≡ begins_at self number }
    {
        match self {
            Failing::Fault => 0,
            Failing::Nothing => 0,
            Failing::Memory => 0,
            Failing::Full => LIMIT + 1 - u64::from(number),
        }
    }

    // To what the tally of askings comes by the asking of this number.
    fn fails_at(self, number: u32) -> u64
        ensures exact { result ≡ fails_at self number }
    {
        match self {
            Failing::Fault => u64::from(number),
            Failing::Nothing => u64::from(number),
            Failing::Memory => u64::from(number),
            Failing::Full => LIMIT + 1,
        }
    }
}

/// A counter of which one asking fails, for trials (docs/RATTLE_HOST.md). Each `make`, `call`, `read` and `write`
/// is an asking.
///
/// It does and answers what `Counter` does, but for the asking that fails: that one changes no object and is
/// answered as `Failing` says. It is counted as any other, except that `Full` is never counted.
///
/// Its core is the number of askings up to the one that fails and with it, 0 after it, then a number for how
/// it fails, and then the core of a counter.
#[derive(Drop)]
pub struct Faulty {
    counter: Counter,
    number: u32,
    how: Failing,
}

impl Faulty {
    ghost use Rattle.ang_drivers.specs.Faulty.{fresh_faulty};
    ghost use Rattle.ang_drivers.specs.FaultyState.{faulty_state, askings_left};

    /// A driver without objects that was never asked, of which the asking `n` fails, counted from 1. So `n` is
    /// at least 1. Its tally `asked` begins at 0, and for `Failing::Full` at 2^63 - n.
    ///
    /// # Errors
    /// None yet: it takes no memory before it is asked. It answers a `Result` as a driver that takes some does.
    pub fn new(alloc: Global, n: u32, how: Failing) -> Result<Faulty, AllocError>
        requires from_1 { 0 < n }
        ensures fresh { IfOk result (λ f. faulty_state f ≡ fresh_faulty how n) }
    {
        Ok(Faulty {
            counter: Counter {
                counts: Objects::begun(alloc, how.begins_at(n)),
            },
            number: n,
            how,
        })
    }

    // Whether the next asking is the one that fails.
    fn is_failing(&self) -> bool
        ensures exact { IsTrue result ↔ (askings_left self.now ≡ 1) }
    {
        self.counter.counts.asked() + 1 == self.how.fails_at(self.number)
    }
}

impl Driver for Faulty {
    ghost use Rattle.ang_drivers.specs.Faulty.{FaultyFits};
    ghost use Rattle.ang_drivers.specs.FaultyState.{faulty_state};

    ghost meaning = { record { state = faulty_state; fits = FaultyFits } };

    fn idle(&self) -> bool {
        self.counter.idle()
    }

    fn make(&mut self, f: u32, args: &[Value]) -> Made {
        if !self.is_failing() {
            return self.counter.make(f, args);
        }
        if !self.counter.counts.ask() {
            return Made::Full;
        }
        self.how.made()
    }

    fn call(&mut self, f: u32, object: Option<u64>, args: &[Value]) -> Answer {
        if !self.is_failing() {
            return self.counter.call(f, object, args);
        }
        if !self.counter.counts.ask() {
            return Answer::Full;
        }
        self.how.answer()
    }

    fn read(&mut self, f: u32, object: Option<u64>) -> Answer {
        if !self.is_failing() {
            return self.counter.read(f, object);
        }
        if !self.counter.counts.ask() {
            return Answer::Full;
        }
        self.how.answer()
    }

    fn write(&mut self, f: u32, object: Option<u64>, value: Value) -> Answer {
        if !self.is_failing() {
            return self.counter.write(f, object, value);
        }
        if !self.counter.counts.ask() {
            return Answer::Full;
        }
        self.how.answer()
    }

    fn add_ref(&mut self, key: u64) -> bool {
        self.counter.add_ref(key)
    }

    fn release(&mut self, key: u64) -> bool {
        self.counter.release(key)
    }
}
