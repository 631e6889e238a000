//! Objects that a driver keeps for scripts, each under a key, with the references that are held to it.
ghost use Rattle.std.specs.Prelude.{ℕ, ◌+◌, ◌≡◌, ◌<◌, ◌≤◌, ◌^◌, ◌↔◌, Some, IsTrue, IfOk, OnErr};
ghost use Rattle.std.specs.FinMap as map;
ghost use Rattle.ang_host.specs.State.{total, count_at};
ghost use Rattle.ang_drivers.specs.Objects.{by_key, begun, fresh, IsHeld, IsRevalued, Asks, Inserts, MakesOne, AddsOne, ReleasesOne};
ghost use Rattle.ang_drivers.specs.PagesHeld.{entries_of};

use crate::pages::{Counted, Pages};
use crate::values::LIMIT;
use ang_host::Made;
use std::alloc::{AllocError, Global};

/// The live objects by key, and the tallies of a driver that keeps them.
///
/// Keys rise from 0 and are not used again: the next key is the number of objects made so far. Each
/// object that is made takes a host call, so keys never run out before `asked`.
///
/// Objects lie in pages, each for 64 keys that follow one another. A look-up goes to an object at once, by one test,
/// where all that were made before it live. Else it goes to the page and to the object in it at once where none before
/// them is gone, or where they are the last, and in all other cases by halves among the pages, and in the page. The last
/// release of an object moves those behind it in its page, 63 at most.
///
/// An object is 16 bytes and its value. A page of which not all keys are used has room for at most 64
/// objects. Once all are, it has room for fewer than four times those that live, and none where none
/// lives; if no smaller place can be had, it keeps the larger one.
///
/// A page is 32 bytes in the list of pages. Of pages in which no object lives it keeps as many as of others, and two, at
/// most, and room for twice as many pages when it grows, for fewer than four times as many when pages leave it. So where
/// one object of each page lives, it takes the room of three at most, and 256 bytes for its page. Nothing stays of
/// objects that are gone.
#[derive(Drop)]
pub struct Objects<T> {
    live: Pages<T>,
    alloc: Global,
    asked: u64,
    added: u64,
    released: u64,
    ghost sums: { live.next + added ≡ released + total (by_key (λ c. c.count) (entries_of live)) },
    ghost positive: { (k n : ℕ) → map.get (by_key (λ c. c.count) (entries_of live)) k ≡ Some n → 0 < n },
    ghost unused: { (k : ℕ) → live.next ≤ k → count_at (by_key (λ c. c.count) (entries_of live)) k ≡ 0 },
    ghost makings: { live.next ≤ asked },
    ghost few_asked: { asked < 2 ^ 63 },
    ghost few_added: { added < 2 ^ 63 },
}

impl<T: Drop> Objects<T> {
    ghost use Rattle.ang_drivers.specs.ObjectsLedger.{ledger};

    /// No objects, and nothing was asked.
    pub fn new(alloc: Global) -> Objects<T>
        ensures fresh { ledger result ≡ fresh }
    {
        Objects::begun(alloc, 0)
    }

    /// No objects, and so many host calls are counted.
    pub fn begun(alloc: Global, asked: u64) -> Objects<T>
        requires few { asked < 2 ^ 63 }
        ensures begun { ledger result ≡ begun asked }
    {
        Objects {
            live: Pages::new(alloc),
            alloc,
            asked,
            added: 0,
            released: 0,
        }
    }

    /// Whether no object is live.
    pub fn is_empty(&self) -> bool
        ensures exact { IsTrue result ↔ ((ledger self.now).counts ≡ map.empty) }
    {
        // As many references were released as were made and added.
        self.live.next() + self.added == self.released
    }

    /// How many host calls are counted.
    pub fn asked(&self) -> u64
        ensures exact { result ≡ (ledger self.now).tally.asked }
        ensures few { result < 2 ^ 63 }
    {
        self.asked
    }

    /// How many references were added so far.
    pub fn added(&self) -> u64
        ensures exact { result ≡ (ledger self.now).tally.added }
    {
        self.added
    }

    /// Counts a host call. False, with nothing done, where 2^63 - 1 are counted.
    pub fn ask(&mut self) -> bool
        ensures asked { Asks (ledger self.old) result (ledger self.new) }
    {
        if self.asked == LIMIT {
            return false;
        }
        self.asked += 1;
        true
    }

    /// Makes an object of this value, with one reference: answers its key, or want of memory with
    /// nothing done. The host call for it has to be counted first (`ask`).
    pub fn make(&mut self, value: T) -> Made
        requires asking_left { (ledger self.old).tally.made < (ledger self.old).tally.asked }
        ensures made { MakesOne (ledger self.old) value result (ledger self.new) }
    {
        match self.insert(value) {
            Ok(key) => Made::Key(key),
            Err(_) => Made::Memory,
        }
    }

    // The key of the new object.
    fn insert(&mut self, value: T) -> Result<u64, AllocError>
        requires asking_left { (ledger self.old).tally.made < (ledger self.old).tally.asked }
        ensures inserted { IfOk result
            (λ key. Inserts (ledger self.old) value key (ledger self.new)) }
        ensures unchanged { OnErr result (ledger self.new ≡ ledger self.old) }
    {
        let key = self.live.push(self.alloc, Counted { count: 1, value })?;
        Ok(key)
    }

    /// Gives a live object another value.
    pub fn set_value(&mut self, key: u64, value: T)
        requires held { IsHeld (ledger self.old) key }
        ensures revalued { IsRevalued (ledger self.old) key value (ledger self.new) }
    {
        self.live.exchange(key, value);
    }

    /// Gives a live object another value, and answers the one that it had.
    pub fn replace_value(&mut self, key: u64, value: T) -> T
        requires held { IsHeld (ledger self.old) key }
        ensures exact { map.get (ledger self.old).table.values key ≡ Some result }
        ensures revalued { IsRevalued (ledger self.old) key value (ledger self.new) }
    {
        self.live.exchange(key, value)
    }

    /// Adds a reference to a live object. False, with nothing done, where 2^63 - 1 were added.
    pub fn add_ref(&mut self, key: u64) -> bool
        requires held { IsHeld (ledger self.old) key }
        ensures added { AddsOne (ledger self.old) key result (ledger self.new) }
    {
        if self.live.leads(key) {
            return self.add_one(key);
        }
        self.add_one_apart(key)
    }

    // The same, apart, so that no register is saved where the object is found at once.
    #[inline(never)]
    fn add_one_apart(&mut self, key: u64) -> bool
        requires held { IsHeld (ledger self.old) key }
        ensures added { AddsOne (ledger self.old) key result (ledger self.new) }
    {
        self.add_one(key)
    }

    // The same, whether the object is found at once or not.
    #[inline(always)]
    fn add_one(&mut self, key: u64) -> bool
        requires held { IsHeld (ledger self.old) key }
        ensures added { AddsOne (ledger self.old) key result (ledger self.new) }
    {
        if self.added == LIMIT {
            return false;
        }
        self.live.count_up(key);
        self.added += 1;
        true
    }

    /// Releases a reference to a live object, and tells whether it was the last: then the object is
    /// gone.
    pub fn release(&mut self, key: u64) -> bool
        requires held { IsHeld (ledger self.old) key }
        ensures released { ReleasesOne (ledger self.old) key result (ledger self.new) }
    {
        if self.live.leads(key) {
            return self.release_one(key);
        }
        self.release_one_apart(key)
    }

    // The same, apart, so that no register is saved where the object is found at once.
    #[inline(never)]
    fn release_one_apart(&mut self, key: u64) -> bool
        requires held { IsHeld (ledger self.old) key }
        ensures released { ReleasesOne (ledger self.old) key result (ledger self.new) }
    {
        self.release_one(key)
    }

    // The same, whether the object is found at once or not.
    #[inline(always)]
    fn release_one(&mut self, key: u64) -> bool
        requires held { IsHeld (ledger self.old) key }
        ensures released { ReleasesOne (ledger self.old) key result (ledger self.new) }
    {
        self.released += 1;
        if self.live.count_down(key) {
            return false;
        }
        self.live.take_out(key);
        true
    }
}

impl<T: Copy> Objects<T> {
    ghost use Rattle.ang_drivers.specs.ObjectsLedger.{ledger};

    /// The value of a live object.
    pub fn value(&self, key: u64) -> T
        requires held { IsHeld (ledger self.now) key }
        ensures exact { map.get (ledger self.now).table.values key ≡ Some result }
    {
        self.live.get(key).value
    }
}
