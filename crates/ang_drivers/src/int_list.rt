//! A driver whose objects hold lists of numbers.
ghost use Rattle.std.specs.Prelude.{◌≡◌, IfOk};
ghost use Rattle.ang_drivers.specs.Objects.{IsHeld, fresh};
ghost use Rattle.ang_drivers.specs.Bounded.{ChangesOne};
ghost use Rattle.ang_drivers.specs.IntList.{ListDoes};

use crate::numbers::{ListCall, Numbers};
use crate::objects::Objects;
use crate::values::{UNKNOWN, is_bare_making};
use ang_host::{Answer, Driver, Made};
use ang_kinds::Value;
use std::alloc::{AllocError, Global};

/// A driver whose objects are lists of numbers, in 64 bits with their sign (docs/RATTLE_HOST.md). A list holds
/// at most as many numbers as the host says.
///
/// - `make` 0 takes nothing and makes an empty list.
/// - `call` 0 of a list takes one `Int` and puts it at the end. It answers `Memory`, with nothing done, where
///   the list holds as many as it may, or where there is no memory.
/// - `call` 1 takes an index, an `Int`, and answers the number there, an `Int`. `call` 2 takes an index and an
///   `Int` and puts it there, in the other's place. `call` 4 takes an index and removes the number there, so that
///   those after it come one place to the front; it takes time as the length of the list.
/// - `call` 3 takes nothing and answers how many numbers there are, an `Int`. `call` 5 takes nothing and removes all.
///
/// Indices begin at 0; an index that the list doesn't have is `Fault(NO_SUCH_INDEX)`, 2. Anything else is
/// `Fault(1)`. Keys rise from 0 and are not used again. Its core is the bound, the next key, and then each
/// live object's key, length and numbers.
#[derive(Drop)]
pub struct IntList {
    lists: Objects<Numbers>,
    bound: u32,
    alloc: Global,
}

impl IntList {
    ghost use Rattle.ang_drivers.specs.IntListState.{list_bound, list_ledger};

    /// A driver without lists, which was never asked, whose lists hold at most `bound` numbers each.
    ///
    /// # Errors
    /// None yet: it takes no memory before it is asked. It answers a `Result` as a driver that takes some does.
    pub fn new(alloc: Global, bound: u32) -> Result<IntList, AllocError>
        ensures fresh { IfOk result (λ d. list_ledger d ≡ fresh) }
        ensures bound { IfOk result (λ d. list_bound d ≡ bound) }
    {
        Ok(IntList {
            lists: Objects::new(alloc),
            bound,
            alloc,
        })
    }

    // Does what is asked of the list of a live key. The list is out of the table meanwhile, and an empty one in
    // its place.
    fn answer(&mut self, key: u64, call: ListCall) -> Answer
        requires held { IsHeld (list_ledger self.old) key }
        ensures bound { list_bound self.new ≡ list_bound self.old }
        ensures changes { ChangesOne (list_ledger self.old) key
            (λ xs ys. ListDoes (list_bound self.old) xs call result ys) (list_ledger self.new) }
    {
        let mut list = self.lists.replace_value(key, Numbers::new(self.alloc));
        let answer = list.answer(self.bound, call);
        self.lists.set_value(key, list);
        answer
    }
}

impl Driver for IntList {
    ghost use Rattle.ang_drivers.specs.IntList.{ListFits};
    ghost use Rattle.ang_drivers.specs.IntListState.{list_state};

    ghost meaning = { record { state = list_state; fits = ListFits } };

    fn idle(&self) -> bool {
        self.lists.is_empty()
    }

    fn make(&mut self, f: u32, args: &[Value]) -> Made {
        if !self.lists.ask() {
            return Made::Full;
        }
        if is_bare_making(f, args) {
            self.lists.make(Numbers::new(self.alloc))
        } else {
            Made::Fault(UNKNOWN)
        }
    }

    fn call(&mut self, f: u32, object: Option<u64>, args: &[Value]) -> Answer {
        if !self.lists.ask() {
            return Answer::Full;
        }
        match object {
            Some(key) => self.answer(key, ListCall::read(f, args)),
            None => Answer::Fault(UNKNOWN),
        }
    }

    fn read(&mut self, _f: u32, _object: Option<u64>) -> Answer {
        if !self.lists.ask() {
            return Answer::Full;
        }
        Answer::Fault(UNKNOWN)
    }

    fn write(&mut self, _f: u32, _object: Option<u64>, _value: Value) -> Answer {
        if !self.lists.ask() {
            return Answer::Full;
        }
        Answer::Fault(UNKNOWN)
    }

    fn add_ref(&mut self, key: u64) -> bool {
        self.lists.add_ref(key)
    }

    fn release(&mut self, key: u64) -> bool {
        self.lists.release(key)
    }
}
