//! The objects that scripts are given: doors. What each driver owes is proved; what this one answers is not, and
//! shows in what the program prints.
ghost use Rattle.std.specs.Prelude.{◌≡◌, true};
ghost use Rattle.ang_drivers.specs.Objects.{IsHeld};
ghost use Rattle.host_template.specs.Answers.{IsKept, is_plain};
ghost use Rattle.host_template.specs.DoorsState.{door_ledger};

use ang_drivers::Objects;
use ang_host::{Answer, Driver, Made};
use ang_kinds::Value;
use std::alloc::Global;

/// The answer to what is not known here.
const UNKNOWN: u32 = 1;

/// The doors that scripts hold. Each is open or not.
///
/// - `make` 0 makes a door that is shut.
/// - `call` 0 of a door opens it, `call` 1 shuts it, and `call` 2 tells whether it is open.
///
/// Anything else is `Fault(1)`.
#[derive(Drop)]
pub struct Doors {
    doors: Objects<bool>,
}

impl Doors {
    /// No doors.
    pub fn new(alloc: Global) -> Doors {
        Doors {
            doors: Objects::new(alloc),
        }
    }

    /// The answer to a method of the door that has this key.
    fn answer_to_method(&mut self, f: u32, key: u64, _args: &[Value]) -> Answer
        requires held { IsHeld (door_ledger self.old) key }
        ensures kept { IsKept (door_ledger self.old) (door_ledger self.new) }
        ensures plain { is_plain result ≡ true }
    {
        match f {
            0 => {
                self.doors.set_value(key, true);
                Answer::Void
            }
            1 => {
                self.doors.set_value(key, false);
                Answer::Void
            }
            2 => Answer::Gave(Value::Bool(self.doors.value(key))),
            _ => Answer::Fault(UNKNOWN),
        }
    }

    /// The answer to a function, which has no object.
    fn answer_to_function(&mut self, _f: u32, _args: &[Value]) -> Answer
        ensures kept { IsKept (door_ledger self.old) (door_ledger self.new) }
        ensures plain { is_plain result ≡ true }
    {
        Answer::Fault(UNKNOWN)
    }

    /// The answer where a property is read.
    fn answer_to_read(&mut self, _f: u32, _object: Option<u64>) -> Answer
        ensures kept { IsKept (door_ledger self.old) (door_ledger self.new) }
        ensures plain { is_plain result ≡ true }
    {
        Answer::Fault(UNKNOWN)
    }

    /// The answer where a property is written.
    fn answer_to_write(&mut self, _f: u32, _object: Option<u64>, _value: Value) -> Answer
        ensures kept { IsKept (door_ledger self.old) (door_ledger self.new) }
        ensures plain { is_plain result ≡ true }
    {
        Answer::Fault(UNKNOWN)
    }
}

impl Driver for Doors {
    ghost use Rattle.host_template.specs.DoorsState.{DoorsFits, state_of};

    ghost meaning = { record { state = state_of; fits = DoorsFits } };

    fn idle(&self) -> bool {
        self.doors.is_empty()
    }

    fn make(&mut self, f: u32, _args: &[Value]) -> Made {
        if !self.doors.ask() {
            return Made::Full;
        }
        if f == 0 {
            self.doors.make(false)
        } else {
            Made::Fault(UNKNOWN)
        }
    }

    fn call(&mut self, f: u32, object: Option<u64>, args: &[Value]) -> Answer {
        if !self.doors.ask() {
            return Answer::Full;
        }
        match object {
            Some(key) => self.answer_to_method(f, key, args),
            None => self.answer_to_function(f, args),
        }
    }

    fn read(&mut self, f: u32, object: Option<u64>) -> Answer {
        if !self.doors.ask() {
            return Answer::Full;
        }
        self.answer_to_read(f, object)
    }

    fn write(&mut self, f: u32, object: Option<u64>, value: Value) -> Answer {
        if !self.doors.ask() {
            return Answer::Full;
        }
        self.answer_to_write(f, object, value)
    }

    fn add_ref(&mut self, key: u64) -> bool {
        self.doors.add_ref(key)
    }

    fn release(&mut self, key: u64) -> bool {
        self.doors.release(key)
    }
}
