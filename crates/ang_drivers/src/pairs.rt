//! Numbers by key, and what is asked of them.
ghost use Rattle.std.specs.Prelude.{◌≡◌, ◌<◌, ◌≤◌, [], IfErr, IfOk, OnErr, OnOk, T, false, length, nat_lt, slice_get};
ghost use Rattle.std.specs.Option.{option_map};
ghost use Rattle.std.specs.Ordering.{int_cmp};
ghost use Rattle.std.specs.FinMap.{find, is_sorted, put};
ghost use Rattle.std.specs.List.Sorted.{IsSearchInRange};
ghost use Rattle.ang_drivers.specs.IntList.{told};
ghost use Rattle.ang_drivers.specs.IntMap.{HasRoom, MapDoes, Sets, bare_map_call, has_key, map_call, map_call_of_one, pair_at, told_of, without_key};
ghost use Rattle.ang_drivers.specs.Places.{IsAt, IsGap};

use crate::values::{NO_SUCH_INDEX, NO_SUCH_KEY, UNKNOWN};
use ang_host::Answer;
use ang_kinds::Value;
use std::alloc::{AllocError, Global};
use std::marker::Model;

/// What is asked of a map.
#[derive(Clone, Copy)]
pub enum MapCall {
    /// Whether this key has a number.
    Contains(i64),
    /// The number of this key.
    Get(i64),
    /// To have this key have this number.
    Set(i64, i64),
    /// How many keys it has.
    Length,
    /// To be without this key.
    Remove(i64),
    /// To be empty.
    Clear,
    /// The key at this index, of all in ascending order.
    Key(i64),
    /// Nothing that a map does.
    Unknown,
}

/// Keys and their numbers. The keys rise, so a look-up takes time as the logarithm of how many there are.
#[derive(Drop)]
pub struct Pairs {
    items: Vec<(i64, i64)>,
}

impl Model for Pairs {
    ghost use Rattle.std.specs.Prelude.{List, T, ℤ};
    ghost use Rattle.std.specs.Ordering.{int_cmp};
    ghost use Rattle.std.specs.FinMap.{is_sorted};

    ghost Value = { List (ℤ × ℤ) };

    ghost view = { λ p. p.items.items };

    ghost invariant = { λ p. T (is_sorted int_cmp p.items.items) };
}

impl MapCall {
    /// What the method of this number asks for.
    pub fn read(f: u32, args: &[Value]) -> MapCall
        ensures exact { result ≡ map_call f args.now }
    {
        match args {
            [] => MapCall::bare(f),
            [Value::Int(number)] => MapCall::of_one(f, *number),
            [Value::Int(key), Value::Int(number)] if f == 2 => MapCall::Set(*key, *number),
            _ => MapCall::Unknown,
        }
    }

    fn bare(f: u32) -> MapCall
        ensures exact { result ≡ bare_map_call f }
    {
        match f {
            3 => MapCall::Length,
            5 => MapCall::Clear,
            _ => MapCall::Unknown,
        }
    }

    fn of_one(f: u32, number: i64) -> MapCall
        ensures exact { result ≡ map_call_of_one f number }
    {
        match f {
            0 => MapCall::Contains(number),
            1 => MapCall::Get(number),
            4 => MapCall::Remove(number),
            6 => MapCall::Key(number),
            _ => MapCall::Unknown,
        }
    }
}

impl Pairs {
    /// No pairs. It takes no memory.
    pub fn new(alloc: Global) -> Pairs
        ensures empty { result ≡ [] }
    {
        Pairs {
            items: Vec::new(alloc),
        }
    }

    /// Does what is asked, where a map has at most `bound` pairs, and answers it.
    pub fn answer(&mut self, bound: u32, call: MapCall) -> Answer
        ensures does { MapDoes bound self.old call result self.new }
    {
        match call {
            MapCall::Contains(key) => Answer::Gave(Value::Bool(self.contains(key))),
            MapCall::Get(key) => self.get(key),
            MapCall::Set(key, number) => self.answer_to_set(bound, key, number),
            MapCall::Length => Answer::Gave(Value::Int(self.items.len() as i64)),
            MapCall::Remove(key) => Answer::Gave(Value::Bool(self.remove(key))),
            MapCall::Clear => {
                self.items.clear();
                Answer::Void
            }
            MapCall::Key(index) => self.key(index),
            MapCall::Unknown => Answer::Fault(UNKNOWN),
        }
    }

    // Where the key is, or where it would come.
    fn search(&self, key: i64) -> Result<usize, usize>
        ensures rises { T (is_sorted int_cmp self.now) }
        ensures found { IfOk result (IsAt self.now key) }
        ensures absent { IfErr result (IsGap self.now key) }
        ensures range { IsSearchInRange result (length self.now) }
    {
        self.items.binary_search_by_key(&key, |&(key, _)| key)
    }

    fn contains(&self, key: i64) -> bool
        ensures exact { result ≡ has_key key self.now }
    {
        match self.search(key) {
            Ok(_) => true,
            Err(_) => false,
        }
    }

    fn get(&self, key: i64) -> Answer
        ensures exact { result ≡ told_of (find int_cmp key self.now) }
    {
        match self.search(key) {
            Ok(place) => self.number(place),
            Err(_) => Answer::Fault(NO_SUCH_KEY),
        }
    }

    // The number of the key at a place.
    fn number(&self, place: usize) -> Answer
        ensures exact { result ≡ told_of (option_map (λ e. e.1) (slice_get self.now place)) }
    {
        match self.items.get(place) {
            Some((_, number)) => Answer::Gave(Value::Int(*number)),
            None => Answer::Fault(NO_SUCH_KEY),
        }
    }

    fn answer_to_set(&mut self, bound: u32, key: i64, number: i64) -> Answer
        ensures sets { Sets bound self.old key number result self.new }
    {
        match self.set(bound, key, number) {
            Ok(()) => Answer::Void,
            Err(_) => Answer::Memory,
        }
    }

    fn set(&mut self, bound: u32, key: i64, number: i64) -> Result<(), AllocError>
        ensures set { OnOk result (HasRoom bound self.old key
            × (self.new ≡ put int_cmp key number self.old)) }
        ensures unchanged { OnErr result ((has_key key self.old ≡ false) × (self.new ≡ self.old)) }
    {
        match self.search(key) {
            Ok(place) => {
                self.put(place, key, number);
                Ok(())
            }
            Err(place) => self.add(bound, place, key, number),
        }
    }

    // Whether a map of at most `bound` pairs can have one more.
    fn has_room(&self, bound: u32) -> bool
        ensures exact { result ≡ nat_lt (length self.now) bound }
    {
        self.items.len() < bound as usize
    }

    // Puts a new key in its place, where there is room for one more.
    fn add(&mut self, bound: u32, place: usize, key: i64, number: i64) -> Result<(), AllocError>
        requires fresh { has_key key self.old ≡ false }
        requires gap { IsGap self.old key place }
        requires range { place ≤ length self.old }
        ensures set { OnOk result (HasRoom bound self.old key
            × (self.new ≡ put int_cmp key number self.old)) }
        ensures unchanged { OnErr result ((has_key key self.old ≡ false) × (self.new ≡ self.old)) }
    {
        if !self.has_room(bound) {
            return Err(AllocError);
        }
        self.insert(place, key, number)?;
        Ok(())
    }

    // Puts a new key in its place.
    fn insert(&mut self, place: usize, key: i64, number: i64) -> Result<(), AllocError>
        requires gap { IsGap self.old key place }
        requires range { place ≤ length self.old }
        ensures inserted { OnOk result (self.new ≡ put int_cmp key number self.old) }
        ensures unchanged { OnErr result (self.new ≡ self.old) }
    {
        self.items.insert(place, (key, number))?;
        Ok(())
    }

    // Has the key at a place have another number.
    fn put(&mut self, place: usize, key: i64, number: i64)
        requires at { IsAt self.old key place }
        requires range { place < length self.old }
        ensures replaced { self.new ≡ put int_cmp key number self.old }
    {
        self.items[place] = (key, number);
    }

    // Whether the key had a number.
    fn remove(&mut self, key: i64) -> bool
        ensures exact { result ≡ has_key key self.old }
        ensures removed { self.new ≡ without_key key self.old }
    {
        match self.search(key) {
            Ok(place) => {
                self.take_out(place, key);
                true
            }
            Err(_) => false,
        }
    }

    // Removes the key at a place.
    fn take_out(&mut self, place: usize, _key: i64)
        requires at { IsAt self.old _key place }
        requires range { place < length self.old }
        ensures removed { self.new ≡ without_key _key self.old }
    {
        self.items.remove(place);
    }

    fn key(&self, index: i64) -> Answer
        ensures exact { result ≡ told (option_map (λ e. e.0) (pair_at self.now index)) }
    {
        let Ok(place) = usize::try_from(index) else {
            return Answer::Fault(NO_SUCH_INDEX);
        };
        match self.items.get(place) {
            Some((key, _)) => Answer::Gave(Value::Int(*key)),
            None => Answer::Fault(NO_SUCH_INDEX),
        }
    }
}
