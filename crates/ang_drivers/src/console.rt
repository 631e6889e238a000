//! A driver without objects: it notes values, adds, faults, and has a register.
ghost use Rattle.std.specs.Prelude.{◌≡◌, ◌<◌, ◌^◌, ◌++◌, pos, [], IfOk, OnErr, OnOk};
ghost use Rattle.ang_drivers.specs.Console.{IsSum, IsFaultOf};
ghost use Rattle.ang_drivers.specs.Plain.{IsPlain};

use crate::values::{LIMIT, UNKNOWN};
use ang_host::{Answer, Driver, Made};
use ang_kinds::Value;
use std::alloc::{AllocError, Global};

/// The answer where a sum does not fit into 64 bits.
const OVERFLOW: u32 = 2;

/// A driver without objects (docs/RATTLE_HOST.md).
///
/// - `call` 0 notes its arguments, whatever they are, and answers `Void`, or notes none and answers `Memory`.
/// - `call` 1 takes two `Int` and answers their sum, or `Fault(2)` where it does not fit into 64 bits.
/// - `call` 2 takes one `Uint` below 2^32 and answers the fault of that number.
/// - `read` and `write` 0 are a register that holds an `Int`, at first 0.
///
/// Anything else is `Fault(1)`, and so is every `make`. Its core is the register, and then what it
/// noted, in order. What it noted stays until it is dropped, and nothing gives it out.
#[derive(Drop)]
pub struct Console {
    register: i64,
    notes: Vec<Value>,
    asked: u64,
    ghost few: { asked < 2 ^ 63 },
}

impl Console {
    ghost use Rattle.ang_drivers.specs.Console.{console_state};
    ghost use Rattle.ang_drivers.specs.ConsoleState.{state_of};

    /// A console with 0 in its register, which noted nothing and was never asked.
    ///
    /// # Errors
    /// None yet: it takes no memory before it is asked. It answers a `Result` as a driver that takes some does.
    pub fn new(alloc: Global) -> Result<Console, AllocError>
        ensures fresh { IfOk result (λ c. state_of c ≡ console_state (pos 0) [] 0) }
    {
        Ok(Console {
            register: 0,
            notes: Vec::new(alloc),
            asked: 0,
        })
    }
}

// Notes values, or none where there is no memory for them. It stands apart, so that no register is saved where nothing is
// noted.
#[inline(never)]
fn note(notes: &mut Vec<Value>, values: &[Value]) -> Result<(), AllocError>
    ensures added { OnOk result (notes.new.items ≡ notes.old.items ++ values.now) }
    ensures kept { OnErr result (notes.new.items ≡ notes.old.items) }
{
    notes.extend_from_slice(values)
}

fn sum_of(args: &[Value]) -> Answer
    ensures law { IsSum args.now result }
    ensures plain { IsPlain result }
{
    match args {
        [Value::Int(a), Value::Int(b)] => match a.checked_add(*b) {
            Some(total) => Answer::Gave(Value::Int(total)),
            None => Answer::Fault(OVERFLOW),
        },
        _ => Answer::Fault(UNKNOWN),
    }
}

fn fault_of(args: &[Value]) -> Answer
    ensures law { IsFaultOf args.now result }
    ensures plain { IsPlain result }
{
    match args {
        [Value::Uint(n)] => match u32::try_from(*n) {
            Ok(fault) => Answer::Fault(fault),
            Err(_) => Answer::Fault(UNKNOWN),
        },
        _ => Answer::Fault(UNKNOWN),
    }
}

impl Driver for Console {
    ghost use Rattle.ang_drivers.specs.Console.{ConsoleFits};
    ghost use Rattle.ang_drivers.specs.ConsoleState.{state_of};

    ghost meaning = { record { state = state_of; fits = ConsoleFits } };

    fn idle(&self) -> bool {
        true
    }

    fn make(&mut self, _f: u32, _args: &[Value]) -> Made {
        if self.asked == LIMIT {
            return Made::Full;
        }
        self.asked += 1;
        Made::Fault(UNKNOWN)
    }

    fn call(&mut self, f: u32, _object: Option<u64>, args: &[Value]) -> Answer {
        if self.asked == LIMIT {
            return Answer::Full;
        }
        self.asked += 1;
        match f {
            0 => match note(&mut self.notes, args) {
                Ok(()) => Answer::Void,
                Err(_) => Answer::Memory,
            },
            1 => sum_of(args),
            2 => fault_of(args),
            _ => Answer::Fault(UNKNOWN),
        }
    }

    fn read(&mut self, f: u32, _object: Option<u64>) -> Answer {
        if self.asked == LIMIT {
            return Answer::Full;
        }
        self.asked += 1;
        if f == 0 {
            Answer::Gave(Value::Int(self.register))
        } else {
            Answer::Fault(UNKNOWN)
        }
    }

    fn write(&mut self, f: u32, _object: Option<u64>, value: Value) -> Answer {
        if self.asked == LIMIT {
            return Answer::Full;
        }
        self.asked += 1;
        if f != 0 {
            return Answer::Fault(UNKNOWN);
        }
        match value {
            Value::Int(number) => {
                self.register = number;
                Answer::Void
            }
            _ => Answer::Fault(UNKNOWN),
        }
    }

    fn add_ref(&mut self, _key: u64) -> bool {
        unreachable!()
    }

    fn release(&mut self, _key: u64) -> bool {
        unreachable!()
    }
}
