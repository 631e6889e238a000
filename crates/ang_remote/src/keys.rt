//! The live keys of a driver whose objects are elsewhere, with the references that are held to each.
ghost use Rattle.std.specs.Prelude.{ℕ, ◌+◌, ◌≡◌, ◌<◌, ◌≤◌, ◌^◌, ◌↔◌, cond, is_some, Some, None, IsSome, IsTrue, OnOk, OnErr};
ghost use Rattle.std.specs.Ordering.{nat_cmp};
ghost use Rattle.std.specs.FinMap as map;
ghost use Rattle.std.specs.BTreeMap.{get, is_at};
ghost use Rattle.ang_host.specs.State.{total};
ghost use Rattle.ang_drivers.specs.Objects.{by_key};
ghost use Rattle.ang_remote.specs.Ledger.{none_held, IsHeld, Asks, Inserts, AddsOne, ReleasesOne};

use std::alloc::{AllocError, Global};
use std::collections::BTreeMap;

/// The most that a tally counts to.
const LIMIT: u64 = 9_223_372_036_854_775_807;

/// The references to each live key, at least one, and the tallies of a driver.
///
/// Each key that is made takes a host call, so `made` never runs out before `asked`.
#[derive(Drop)]
pub struct Keys {
    live: BTreeMap<u64, u64>,
    asked: u64,
    made: u64,
    added: u64,
    released: u64,
    ghost sums: { made + added ≡ released + total (by_key (λ n. n) live.entries) },
    ghost positive: { (k n : ℕ) → map.get (by_key (λ n. n) live.entries) k ≡ Some n → 0 < n },
    ghost makings: { made ≤ asked },
    ghost few_asked: { asked < 2 ^ 63 },
    ghost few_added: { added < 2 ^ 63 },
}

impl Keys {
    ghost use Rattle.ang_remote.specs.KeysLedger.{ledger};

    /// No key, and nothing was asked.
    pub fn new(alloc: Global) -> Keys
        ensures fresh { ledger result ≡ none_held }
    {
        Keys {
            live: BTreeMap::new(alloc),
            asked: 0,
            made: 0,
            added: 0,
            released: 0,
        }
    }

    /// Whether no key is live.
    pub fn is_empty(&self) -> bool
        ensures exact { IsTrue result ↔ ((ledger self.now).counts ≡ map.empty) }
    {
        self.live.is_empty()
    }

    /// Whether the key is live.
    pub fn is_live(&self, key: u64) -> bool
        ensures exact { result ≡ is_some (map.get (ledger self.now).live key) }
        ensures counted { result ≡ is_some (map.get (ledger self.now).counts key) }
    {
        self.live.contains_key(&key)
    }

    /// Counts a host call. False, with nothing done, where 2^63 - 1 are counted.
    pub fn ask(&mut self) -> bool
        ensures asked { Asks (ledger self.old) result (ledger self.new) }
    {
        if self.asked == LIMIT {
            return false;
        }
        self.asked += 1;
        true
    }

    /// Makes a key live, with one reference. The host call for it has to be counted first (`ask`).
    ///
    /// # Errors
    /// A growth of memory was refused.
    pub fn insert(&mut self, key: u64) -> Result<(), AllocError>
        requires asking_left { (ledger self.old).tally.made < (ledger self.old).tally.asked }
        requires not_live { map.get (ledger self.old).counts key ≡ None }
        ensures inserted { OnOk result (Inserts (ledger self.old) key (ledger self.new)) }
        ensures unchanged { OnErr result (ledger self.new ≡ ledger self.old) }
    {
        self.live.insert(key, 1)?;
        self.made += 1;
        Ok(())
    }

    /// Adds a reference to a live key. False, with nothing done, where 2^63 - 1 were added.
    pub fn add_ref(&mut self, key: u64) -> bool
        requires held { IsHeld (ledger self.old) key }
        ensures added { AddsOne (ledger self.old) key result (ledger self.new) }
    {
        if self.added == LIMIT {
            return false;
        }
        let count = count_at(&self.live, key);
        replace(&mut self.live, key, count + 1);
        self.added += 1;
        true
    }

    /// Releases a reference to a live key, and tells whether it was the last: then the key is no longer live.
    pub fn release(&mut self, key: u64) -> bool
        requires held { IsHeld (ledger self.old) key }
        ensures released { ReleasesOne (ledger self.old) key result (ledger self.new) }
    {
        let count = count_at(&self.live, key);
        self.released += 1;
        if count == 1 {
            self.live.remove(&key);
            return true;
        }
        replace(&mut self.live, key, count - 1);
        false
    }
}

// The references to a live key.
fn count_at(live: &BTreeMap<u64, u64>, key: u64) -> u64
    requires held { IsSome (get nat_cmp live.now key) }
    ensures exact { get nat_cmp live.now key ≡ Some result }
{
    match live.get(&key) {
        Some(count) => *count,
        None => unreachable!(),
    }
}

// Puts a count in the place of that of a live key.
fn replace(live: &mut BTreeMap<u64, u64>, key: u64, count: u64)
    requires held { IsSome (get nat_cmp live.old key) }
    ensures replaced { (q : ℕ) → get nat_cmp live.new q
        ≡ cond (is_at (nat_cmp key) q) (Some count) (get nat_cmp live.old q) }
{
    match live.get_mut(&key) {
        Some(place) => *place = count,
        None => unreachable!(),
    }
}
