//! A driver whose objects count.
ghost use Rattle.std.specs.Prelude.{◌≡◌, IfOk};
ghost use Rattle.ang_drivers.specs.Objects.{fresh};

use crate::objects::Objects;
use crate::values::{UNKNOWN, read_int_32, read_one_int_32, read_property_0};
use ang_host::{Answer, Driver, Made};
use ang_kinds::Value;
use std::alloc::{AllocError, Global};

/// What an object of a counter keeps.
#[derive(Clone, Copy)]
pub(crate) struct Count {
    value: i32,
    step: i32,
}

/// What a call of a counter asks for.
#[derive(Clone, Copy)]
enum CounterCall {
    /// To add the step to the value of the object of this key.
    Bump(u64),
    /// The value of the object of this key.
    Tell(u64),
    /// How many references were added.
    Added,
    /// Nothing that a counter does.
    Unknown,
}

/// A driver whose objects have a value that goes up by steps (docs/RATTLE_HOST.md).
///
/// - `make` 0 takes nothing and makes an object of the value 0; `make` 1 takes one `Int` in 32 bits,
///   the value. The step is 1.
/// - `call` 0 of an object adds its step to its value, wrapping at 32 bits. `call` 1 of an object answers its
///   value, an `Int`.
/// - `call` 2 without an object answers how many references were added so far, as a `Uint`.
/// - `read` and `write` 0 of an object are its step, an `Int` in 32 bits.
///
/// Anything else is `Fault(1)`. Keys rise from 0 and are not used again. Its core is the next key, and
/// then each live object's key, value and step.
#[derive(Drop)]
pub struct Counter {
    pub(crate) counts: Objects<Count>,
}

impl Counter {
    ghost use Rattle.ang_drivers.specs.CounterState.{counter_ledger};

    /// A counter without objects, which was never asked.
    ///
    /// # Errors
    /// None yet: it takes no memory before it is asked. It answers a `Result` as a driver that takes some does.
    pub fn new(alloc: Global) -> Result<Counter, AllocError>
        ensures fresh { IfOk result (λ c. counter_ledger c ≡ fresh) }
    {
        Ok(Counter {
            counts: Objects::new(alloc),
        })
    }
}

impl Count {
    ghost use Rattle.ang_drivers.specs.Counter.{bumped, from_value};

    fn from_value(value: i32) -> Count
        ensures exact { result ≡ from_value value }
    {
        Count { value, step: 1 }
    }

    fn bumped(self) -> Count
        ensures exact { result ≡ bumped self }
    {
        Count {
            value: self.value.wrapping_add(self.step),
            step: self.step,
        }
    }

    fn with_step(self, step: i32) -> Count
        ensures exact { result ≡ record { value = self.value; step = step } }
    {
        Count { step, ..self }
    }

    ghost use Rattle.ang_drivers.specs.Counter.{first_count};

    // The object that a factory makes.
    fn first(f: u32, args: &[Value]) -> Option<Count>
        ensures exact { result ≡ first_count f args.now }
    {
        match f {
            0 if args.is_empty() => Some(Count::from_value(0)),
            1 => read_one_int_32(args).map(Count::from_value),
            _ => None,
        }
    }
}

impl CounterCall {
    ghost use Rattle.ang_drivers.specs.Counter.{counter_call};

    fn read(f: u32, object: Option<u64>, args: &[Value]) -> CounterCall
        ensures exact { result ≡ counter_call f object args.now }
    {
        if !args.is_empty() {
            return CounterCall::Unknown;
        }
        match (f, object) {
            (0, Some(key)) => CounterCall::Bump(key),
            (1, Some(key)) => CounterCall::Tell(key),
            (2, None) => CounterCall::Added,
            _ => CounterCall::Unknown,
        }
    }
}

impl Driver for Counter {
    ghost use Rattle.ang_drivers.specs.Counter.{CounterFits};
    ghost use Rattle.ang_drivers.specs.CounterState.{counter_state};

    ghost meaning = { record { state = counter_state; fits = CounterFits } };

    fn idle(&self) -> bool {
        self.counts.is_empty()
    }

    fn make(&mut self, f: u32, args: &[Value]) -> Made {
        if !self.counts.ask() {
            return Made::Full;
        }
        match Count::first(f, args) {
            Some(first) => self.counts.make(first),
            None => Made::Fault(UNKNOWN),
        }
    }

    fn call(&mut self, f: u32, object: Option<u64>, args: &[Value]) -> Answer {
        if !self.counts.ask() {
            return Answer::Full;
        }
        match CounterCall::read(f, object, args) {
            CounterCall::Bump(key) => {
                let count = self.counts.value(key);
                self.counts.set_value(key, count.bumped());
                Answer::Void
            }
            CounterCall::Tell(key) => {
                let count = self.counts.value(key);
                Answer::Gave(Value::Int(i64::from(count.value)))
            }
            CounterCall::Added => Answer::Gave(Value::Uint(self.counts.added())),
            CounterCall::Unknown => Answer::Fault(UNKNOWN),
        }
    }

    fn read(&mut self, f: u32, object: Option<u64>) -> Answer {
        if !self.counts.ask() {
            return Answer::Full;
        }
        match read_property_0(f, object) {
            Some(key) => {
                let count = self.counts.value(key);
                Answer::Gave(Value::Int(i64::from(count.step)))
            }
            None => Answer::Fault(UNKNOWN),
        }
    }

    fn write(&mut self, f: u32, object: Option<u64>, value: Value) -> Answer {
        if !self.counts.ask() {
            return Answer::Full;
        }
        match read_property_0(f, object) {
            Some(key) => match read_int_32(value) {
                Some(step) => {
                    let count = self.counts.value(key);
                    self.counts.set_value(key, count.with_step(step));
                    Answer::Void
                }
                None => Answer::Fault(UNKNOWN),
            },
            None => Answer::Fault(UNKNOWN),
        }
    }

    fn add_ref(&mut self, key: u64) -> bool {
        self.counts.add_ref(key)
    }

    fn release(&mut self, key: u64) -> bool {
        self.counts.release(key)
    }
}
