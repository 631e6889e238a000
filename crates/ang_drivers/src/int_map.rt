//! A driver whose objects hold numbers by key.
ghost use Rattle.std.specs.Prelude.{◌≡◌, IfOk};
ghost use Rattle.ang_drivers.specs.Objects.{IsHeld, fresh};
ghost use Rattle.ang_drivers.specs.Bounded.{ChangesOne};
ghost use Rattle.ang_drivers.specs.IntMap.{MapDoes};

use crate::objects::Objects;
use crate::pairs::{MapCall, Pairs};
use crate::values::{UNKNOWN, is_bare_making};
use ang_host::{Answer, Driver, Made};
use ang_kinds::Value;
use std::alloc::{AllocError, Global};

/// A driver whose objects are maps from numbers to numbers, in 64 bits with their sign (docs/RATTLE_HOST.md). A map
/// holds at most as many keys as the host says.
///
/// - `make` 0 takes nothing and makes an empty map.
/// - `call` 0 of a map takes a key, an `Int`, and answers whether it has a number. `call` 1 takes a key and
///   answers its number, an `Int`, or `Fault(NO_SUCH_KEY)`, 3, where it has none.
/// - `call` 2 takes a key and an `Int`, and has the key have that number. Where it had none, and the map holds as
///   many keys as it may or there is no memory, it answers `Memory`, with nothing done.
/// - `call` 3 takes nothing and answers how many keys there are, an `Int`. `call` 4 takes a key, removes it with its
///   number, and answers whether it had one. `call` 5 takes nothing and removes all.
/// - `call` 6 takes an index, an `Int` from 0 on, and answers the key there, of all in ascending order, or
///   `Fault(NO_SUCH_INDEX)`, 2, where there is none.
///
/// Anything else is `Fault(1)`. A new key and a removed one take time as the number of keys, all else as its
/// logarithm at most. Keys of objects rise from 0 and are not used again. Its core is the bound, the next key,
/// and then each live object's key, how many pairs it has, and these.
#[derive(Drop)]
pub struct IntMap {
    maps: Objects<Pairs>,
    bound: u32,
    alloc: Global,
}

impl IntMap {
    ghost use Rattle.ang_drivers.specs.IntMapState.{map_bound, map_ledger};

    /// A driver without maps, which was never asked, whose maps hold at most `bound` keys each.
    ///
    /// # Errors
    /// None yet: it takes no memory before it is asked. It answers a `Result` as a driver that takes some does.
    pub fn new(alloc: Global, bound: u32) -> Result<IntMap, AllocError>
        ensures fresh { IfOk result (λ d. map_ledger d ≡ fresh) }
        ensures bound { IfOk result (λ d. map_bound d ≡ bound) }
    {
        Ok(IntMap {
            maps: Objects::new(alloc),
            bound,
            alloc,
        })
    }

    // Does what is asked of the map of a live key. The map is out of the table meanwhile, and an empty one in
    // its place.
    fn answer(&mut self, key: u64, call: MapCall) -> Answer
        requires held { IsHeld (map_ledger self.old) key }
        ensures bound { map_bound self.new ≡ map_bound self.old }
        ensures changes { ChangesOne (map_ledger self.old) key
            (λ es ns. MapDoes (map_bound self.old) es call result ns) (map_ledger self.new) }
    {
        let mut map = self.maps.replace_value(key, Pairs::new(self.alloc));
        let answer = map.answer(self.bound, call);
        self.maps.set_value(key, map);
        answer
    }
}

impl Driver for IntMap {
    ghost use Rattle.ang_drivers.specs.IntMap.{MapFits};
    ghost use Rattle.ang_drivers.specs.IntMapState.{map_state};

    ghost meaning = { record { state = map_state; fits = MapFits } };

    fn idle(&self) -> bool {
        self.maps.is_empty()
    }

    fn make(&mut self, f: u32, args: &[Value]) -> Made {
        if !self.maps.ask() {
            return Made::Full;
        }
        if is_bare_making(f, args) {
            self.maps.make(Pairs::new(self.alloc))
        } else {
            Made::Fault(UNKNOWN)
        }
    }

    fn call(&mut self, f: u32, object: Option<u64>, args: &[Value]) -> Answer {
        if !self.maps.ask() {
            return Answer::Full;
        }
        match object {
            Some(key) => self.answer(key, MapCall::read(f, args)),
            None => Answer::Fault(UNKNOWN),
        }
    }

    fn read(&mut self, _f: u32, _object: Option<u64>) -> Answer {
        if !self.maps.ask() {
            return Answer::Full;
        }
        Answer::Fault(UNKNOWN)
    }

    fn write(&mut self, _f: u32, _object: Option<u64>, _value: Value) -> Answer {
        if !self.maps.ask() {
            return Answer::Full;
        }
        Answer::Fault(UNKNOWN)
    }

    fn add_ref(&mut self, key: u64) -> bool {
        self.maps.add_ref(key)
    }

    fn release(&mut self, key: u64) -> bool {
        self.maps.release(key)
    }
}
