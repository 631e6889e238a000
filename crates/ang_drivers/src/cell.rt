//! A driver whose objects hold a number each.
ghost use Rattle.std.specs.Prelude.{◌≡◌, IfOk};
ghost use Rattle.std.specs.Int.{w32, int_wrap};
ghost use Rattle.ang_drivers.specs.Objects.{fresh};

use crate::objects::Objects;
use crate::values::{UNKNOWN, read_one_int_32};
use ang_host::{Answer, Driver, Made};
use ang_kinds::Value;
use std::alloc::{AllocError, Global};

/// What a factory of a cell makes.
#[derive(Clone, Copy)]
enum CellMaking {
    /// An object of this value.
    Of(i32),
    /// An object whose value is that of the object of this key, and so much more.
    Above(u64, i64),
    /// Nothing that a cell makes.
    Unknown,
}

/// What a call of a cell asks for.
#[derive(Clone, Copy)]
enum CellCall {
    /// The value of the object of this key.
    Tell(u64),
    /// To give the object of this key this value.
    Set(u64, i32),
    /// This key again.
    Pick(Option<u64>),
    /// Nothing that a cell does.
    Unknown,
}

/// A driver whose objects hold a number in 32 bits (docs/RATTLE_HOST.md).
///
/// - `make` 0 takes one `Int` in 32 bits, the value of the new object. `make` 1 takes a key and an `Int`; the
///   new object's value is that of the key's object plus the `Int`, wrapped to 32 bits.
/// - `call` 0 of an object answers its value, an `Int`. `call` 1 of an object takes one `Int` in 32 bits, and
///   sets the value to it.
/// - `call` 2 without an object takes a key or null, and answers it.
///
/// Anything else is `Fault(1)`. Keys rise from 0 and are not used again. Its core is the next key, and
/// then each live object's key and value.
#[derive(Drop)]
pub struct Cell {
    cells: Objects<i32>,
}

impl Cell {
    ghost use Rattle.ang_drivers.specs.CellState.{cell_ledger};

    /// A cell driver without objects, which was never asked.
    ///
    /// # Errors
    /// None yet: it takes no memory before it is asked. It answers a `Result` as a driver that takes some does.
    pub fn new(alloc: Global) -> Result<Cell, AllocError>
        ensures fresh { IfOk result (λ c. cell_ledger c ≡ fresh) }
    {
        Ok(Cell {
            cells: Objects::new(alloc),
        })
    }
}

// The low 32 bits of a number, with their sign.
fn low_32(number: i64) -> i32
    ensures exact { result ≡ int_wrap w32 number }
{
    let rest = number.rem_euclid(4_294_967_296);
    let bits = rest.unsigned_abs();
    (bits as u32).cast_signed()
}

impl CellMaking {
    ghost use Rattle.ang_drivers.specs.Cell.{cell_making};

    fn read(f: u32, args: &[Value]) -> CellMaking
        ensures exact { result ≡ cell_making f args.now }
    {
        match f {
            0 => match read_one_int_32(args) {
                Some(value) => CellMaking::Of(value),
                None => CellMaking::Unknown,
            },
            1 => match args {
                [Value::Key(Some(key)), Value::Int(more)] => CellMaking::Above(*key, *more),
                _ => CellMaking::Unknown,
            },
            _ => CellMaking::Unknown,
        }
    }
}

impl CellCall {
    ghost use Rattle.ang_drivers.specs.Cell.{cell_call, cell_method, cell_function};

    // A call of an object.
    fn method(f: u32, key: u64, args: &[Value]) -> CellCall
        ensures exact { result ≡ cell_method f key args.now }
    {
        match f {
            0 if args.is_empty() => CellCall::Tell(key),
            1 => match read_one_int_32(args) {
                Some(value) => CellCall::Set(key, value),
                None => CellCall::Unknown,
            },
            _ => CellCall::Unknown,
        }
    }

    // A call without an object.
    fn function(f: u32, args: &[Value]) -> CellCall
        ensures exact { result ≡ cell_function f args.now }
    {
        match args {
            [Value::Key(key)] if f == 2 => CellCall::Pick(*key),
            _ => CellCall::Unknown,
        }
    }

    fn read(f: u32, object: Option<u64>, args: &[Value]) -> CellCall
        ensures exact { result ≡ cell_call f object args.now }
    {
        match object {
            Some(key) => CellCall::method(f, key, args),
            None => CellCall::function(f, args),
        }
    }
}

impl Driver for Cell {
    ghost use Rattle.ang_drivers.specs.Cell.{CellFits};
    ghost use Rattle.ang_drivers.specs.CellState.{cell_state};

    ghost meaning = { record { state = cell_state; fits = CellFits } };

    fn idle(&self) -> bool {
        self.cells.is_empty()
    }

    fn make(&mut self, f: u32, args: &[Value]) -> Made {
        if !self.cells.ask() {
            return Made::Full;
        }
        match CellMaking::read(f, args) {
            CellMaking::Of(value) => self.cells.make(value),
            CellMaking::Above(key, more) => {
                let value = self.cells.value(key).wrapping_add(low_32(more));
                self.cells.make(value)
            }
            CellMaking::Unknown => Made::Fault(UNKNOWN),
        }
    }

    fn call(&mut self, f: u32, object: Option<u64>, args: &[Value]) -> Answer {
        if !self.cells.ask() {
            return Answer::Full;
        }
        match CellCall::read(f, object, args) {
            CellCall::Tell(key) => {
                let value = self.cells.value(key);
                Answer::Gave(Value::Int(i64::from(value)))
            }
            CellCall::Set(key, value) => {
                self.cells.set_value(key, value);
                Answer::Void
            }
            CellCall::Pick(key) => Answer::Gave(Value::Key(key)),
            CellCall::Unknown => Answer::Fault(UNKNOWN),
        }
    }

    fn read(&mut self, _f: u32, _object: Option<u64>) -> Answer {
        if !self.cells.ask() {
            return Answer::Full;
        }
        Answer::Fault(UNKNOWN)
    }

    fn write(&mut self, _f: u32, _object: Option<u64>, _value: Value) -> Answer {
        if !self.cells.ask() {
            return Answer::Full;
        }
        Answer::Fault(UNKNOWN)
    }

    fn add_ref(&mut self, key: u64) -> bool {
        self.cells.add_ref(key)
    }

    fn release(&mut self, key: u64) -> bool {
        self.cells.release(key)
    }
}
