//! A list of numbers, and what is asked of it.
ghost use Rattle.std.specs.Prelude.{◌≡◌, []};
ghost use Rattle.ang_drivers.specs.IntList.{ListDoes, Pushes, Removes, Sets, list_call, bare_call, call_of_one, number_at, told};
ghost use Rattle.ang_drivers.specs.IntList as list;

use crate::values::{NO_SUCH_INDEX, UNKNOWN};
use ang_host::Answer;
use ang_kinds::Value;
use std::alloc::Global;
use std::marker::Model;

/// What is asked of a list.
#[derive(Clone, Copy)]
pub enum ListCall {
    /// To have this number at its end.
    Push(i64),
    /// The number at this index.
    Get(i64),
    /// To have this index hold this number.
    Set(i64, i64),
    /// How many numbers it has.
    Length,
    /// To be without the number at this index.
    Remove(i64),
    /// To be empty.
    Clear,
    /// Nothing that a list does.
    Unknown,
}

/// A list of numbers. Its indices begin at 0.
#[derive(Drop)]
pub struct Numbers {
    items: Vec<i64>,
}

impl Model for Numbers {
    ghost use Rattle.std.specs.Prelude.{List, ℤ};

    ghost Value = { List ℤ };

    ghost view = { λ n. n.items.items };
}

impl ListCall {
    /// What the method of this number asks for.
    pub fn read(f: u32, args: &[Value]) -> ListCall
        ensures exact { result ≡ list_call f args.now }
    {
        match args {
            [] => ListCall::bare(f),
            [Value::Int(number)] => ListCall::of_one(f, *number),
            [Value::Int(index), Value::Int(number)] if f == 2 => ListCall::Set(*index, *number),
            _ => ListCall::Unknown,
        }
    }

    fn bare(f: u32) -> ListCall
        ensures exact { result ≡ bare_call f }
    {
        match f {
            3 => ListCall::Length,
            5 => ListCall::Clear,
            _ => ListCall::Unknown,
        }
    }

    fn of_one(f: u32, number: i64) -> ListCall
        ensures exact { result ≡ call_of_one f number }
    {
        match f {
            0 => ListCall::Push(number),
            1 => ListCall::Get(number),
            4 => ListCall::Remove(number),
            _ => ListCall::Unknown,
        }
    }
}

impl Numbers {
    /// No numbers. It takes no memory.
    pub fn new(alloc: Global) -> Numbers
        ensures empty { result ≡ [] }
    {
        Numbers {
            items: Vec::new(alloc),
        }
    }

    /// Does what is asked, where a list has at most `bound` numbers, and answers it.
    pub fn answer(&mut self, bound: u32, call: ListCall) -> Answer
        ensures does { ListDoes bound self.old call result self.new }
    {
        match call {
            ListCall::Push(number) => self.push(bound, number),
            ListCall::Get(index) => self.get(index),
            ListCall::Set(index, number) => self.set(index, number),
            ListCall::Length => Answer::Gave(Value::Int(self.items.len() as i64)),
            ListCall::Remove(index) => self.remove(index),
            ListCall::Clear => {
                self.items.clear();
                Answer::Void
            }
            ListCall::Unknown => Answer::Fault(UNKNOWN),
        }
    }

    fn push(&mut self, bound: u32, number: i64) -> Answer
        ensures pushes { Pushes bound self.old number result self.new }
    {
        if self.items.len() >= bound as usize {
            return Answer::Memory;
        }
        match self.items.push(number) {
            Ok(()) => Answer::Void,
            Err(_) => Answer::Memory,
        }
    }

    fn get(&self, index: i64) -> Answer
        ensures exact { result ≡ told (number_at self.now index) }
    {
        let Ok(place) = usize::try_from(index) else {
            return Answer::Fault(NO_SUCH_INDEX);
        };
        match self.items.get(place) {
            Some(number) => Answer::Gave(Value::Int(*number)),
            None => Answer::Fault(NO_SUCH_INDEX),
        }
    }

    // The place of an index that the list has.
    fn place(&self, index: i64) -> Option<usize>
        ensures exact { result ≡ list.place self.now index }
    {
        let place = usize::try_from(index).ok()?;
        if place < self.items.len() {
            Some(place)
        } else {
            None
        }
    }

    fn set(&mut self, index: i64, number: i64) -> Answer
        ensures sets { Sets self.old (list.place self.old index) number result self.new }
    {
        match self.place(index) {
            Some(place) => {
                self.items[place] = number;
                Answer::Void
            }
            None => Answer::Fault(NO_SUCH_INDEX),
        }
    }

    fn remove(&mut self, index: i64) -> Answer
        ensures removes { Removes self.old (list.place self.old index) result self.new }
    {
        match self.place(index) {
            Some(place) => {
                self.items.remove(place);
                Answer::Void
            }
            None => Answer::Fault(NO_SUCH_INDEX),
        }
    }
}
