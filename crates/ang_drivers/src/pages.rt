//! Live objects by key, in pages of keys that follow one another.
ghost use Rattle.std.specs.Prelude.{ℕ, ◌+◌, ◌-◌, ◌*◌, ◌/◌, ◌≡◌, ◌<◌, ◌≤◌, ◌^◌, ◌++◌, ◌∷◌, [], Bool, true, false, cond, not, None, Some, IsSome, nat_eq, IfErr, IfOk, OnErr, OnOk, nat_lt, length, vec_len, count_by};
ghost use Rattle.std.specs.List.{filter, flat_map, remove};
ghost use Rattle.std.specs.Ordering.{nat_cmp};
ghost use Rattle.std.specs.FinMap as map;
ghost use Rattle.std.specs.Map.{lookup};
ghost use Rattle.std.specs.BTreeMap.{is_at};
ghost use Rattle.ang_host.specs.State.{count_at};
ghost use Rattle.ang_drivers.specs.Objects.{by_key, one_more, one_less_if};
ghost use Rattle.ang_drivers.specs.Pages.{objects_in, is_blank, IsRising, IsEntryAt, IsThinned, HasEachBelow, ArePages, ArePages-prop};

use std::alloc::{AllocError, Global};
use std::mem;

/// How many keys a page is for.
const KEYS: u64 = 64;

/// An object: the references that are held to it, at least 1, and its value.
#[derive(Drop)]
pub(crate) struct Counted<T> {
    pub(crate) count: u64,
    pub(crate) value: T,
}

/// The objects of a page, each with its key.
type Page<T> = Vec<(u64, Counted<T>)>;

/// Live objects by key. Keys rise from 0 and are not used again.
///
/// Page `n` has the objects of the keys from `64 * n` up to `64 * n + 63` that live, in the order of their keys. While
/// it gets new ones its room grows as that of any `Vec`, to 64 objects at most. From its last key on it has room for
/// fewer than four times the objects that live there, and none where none lives; only where no smaller place can be had
/// it keeps the larger one.
///
/// The pages stand in the order of their numbers. Of those without objects half of all and one are kept at most: once
/// there are more, all of them are taken out, so that a page leaves in a time that does not grow with the others, taken
/// over all. The list of pages grows and gives back as a page does.
///
/// A look-up finds the object at once where each key below its own is that of a live object: so many keys lead. Of any
/// other key it finds the page at once where none before it was taken out, or where it is the last, else by halves; and
/// so the object in its page. Taking an object out moves those behind it in its page. A new object may move the list
/// of pages to a larger place, as a `Vec` does.
#[derive(Drop)]
pub(crate) struct Pages<T> {
    pages: Vec<(u64, Page<T>)>,
    blank: usize,
    next: u64,
    leading: u64,
    ghost paged: { ArePages objects_in 0 next pages.items } by { ArePages-prop objects_in 0 next pages.items },
    ghost counted: { count_by is_blank pages.items ≡ blank },
    ghost few: { blank ≤ vec_len pages / 2 + 1 },
    ghost led: { HasEachBelow leading (flat_map (λ e. objects_in e.1) pages.items) },
}

/// Where a live object is.
#[derive(Clone, Copy)]
struct Place {
    page: usize,
    index: usize,
}

impl<T> Pages<T> {
    ghost use Rattle.ang_drivers.specs.PagesHeld.{entries_of, IsPlace};

    /// No objects.
    pub(crate) fn new(alloc: Global) -> Pages<T>
        ensures empty { entries_of result ≡ [] }
        ensures next { result.next ≡ 0 }
    {
        Pages {
            pages: Vec::new(alloc),
            blank: 0,
            next: 0,
            leading: 0,
        }
    }

    /// The key of the next object: how many were made.
    pub(crate) fn next(&self) -> u64
        ensures exact { result ≡ self.now.next }
    {
        self.next
    }

    /// Whether each key below this one, and it itself, is that of a live object, which then is found at once.
    #[inline(always)]
    pub(crate) fn leads(&self, key: u64) -> bool {
        key < self.leading
    }

    // Where the object of a live key is.
    #[inline(always)]
    fn place(&self, key: u64) -> Place
        requires held { IsSome (lookup (is_at (nat_cmp key)) (entries_of self.now)) }
        ensures there { IsPlace self.now key result }
    {
        if key < self.leading {
            return Place {
                page: (key / KEYS) as usize,
                index: (key % KEYS) as usize,
            };
        }
        self.place_apart(key)
    }

    // The same of any live key, whether it leads or not.
    #[inline(never)]
    fn place_apart(&self, key: u64) -> Place
        requires held { IsSome (lookup (is_at (nat_cmp key)) (entries_of self.now)) }
        ensures there { IsPlace self.now key result }
    {
        let number = key / KEYS;
        let page = index_of(&self.pages, number, number as usize);
        Place {
            page,
            index: index_of(&self.pages[page].1, key, (key % KEYS) as usize),
        }
    }

    /// The object of a live key.
    #[inline(always)]
    pub(crate) fn get(&self, key: u64) -> &Counted<T>
        requires held { IsSome (lookup (is_at (nat_cmp key)) (entries_of self.now)) }
        ensures exact { lookup (is_at (nat_cmp key)) (entries_of self.now) ≡ Some result.now }
    {
        let place = self.place(key);
        &self.pages[place.page].1[place.index].1
    }

    /// Gives the object of a live key another value, and answers the one that it had.
    #[inline(always)]
    pub(crate) fn exchange(&mut self, key: u64, value: T) -> T
        requires held { IsSome (lookup (is_at (nat_cmp key)) (entries_of self.old)) }
        ensures exact { map.get (by_key (λ c. c.value) (entries_of self.old)) key ≡ Some result }
        ensures next { self.new.next ≡ self.old.next }
        ensures counts { by_key (λ c. c.count) (entries_of self.new)
            ≡ by_key (λ c. c.count) (entries_of self.old) }
        ensures values { by_key (λ c. c.value) (entries_of self.new)
            ≡ map.insert (by_key (λ c. c.value) (entries_of self.old)) key value }
    {
        let place = self.place(key);
        mem::replace(&mut self.pages[place.page].1[place.index].1.value, value)
    }

    /// Adds a reference to the object of a live key.
    #[inline(always)]
    pub(crate) fn count_up(&mut self, key: u64)
        requires held { IsSome (lookup (is_at (nat_cmp key)) (entries_of self.old)) }
        requires room { count_at (by_key (λ c. c.count) (entries_of self.old)) key + 1 < 2 ^ 64 }
        ensures next { self.new.next ≡ self.old.next }
        ensures counts { by_key (λ c. c.count) (entries_of self.new)
            ≡ one_more (by_key (λ c. c.count) (entries_of self.old)) key }
        ensures values { by_key (λ c. c.value) (entries_of self.new)
            ≡ by_key (λ c. c.value) (entries_of self.old) }
    {
        let place = self.place(key);
        self.pages[place.page].1[place.index].1.count += 1;
    }

    /// Releases a reference to the object of a live key. False, with nothing done, where it is the last.
    #[inline(always)]
    pub(crate) fn count_down(&mut self, key: u64) -> bool
        requires held { IsSome (lookup (is_at (nat_cmp key)) (entries_of self.old)) }
        ensures exact { result
            ≡ nat_lt 1 (count_at (by_key (λ c. c.count) (entries_of self.old)) key) }
        ensures next { self.new.next ≡ self.old.next }
        ensures counts { by_key (λ c. c.count) (entries_of self.new)
            ≡ one_less_if result (by_key (λ c. c.count) (entries_of self.old)) key }
        ensures values { by_key (λ c. c.value) (entries_of self.new)
            ≡ by_key (λ c. c.value) (entries_of self.old) }
    {
        let place = self.place(key);
        let object = &mut self.pages[place.page].1[place.index].1;
        if object.count > 1 {
            object.count -= 1;
            return true;
        }
        false
    }
}

impl<T: Drop> Pages<T> {
    ghost use Rattle.ang_drivers.specs.PagesHeld.{entries_of, IsPushed};

    // Whether the next key's page is there, and then it is the last.
    fn is_begun(&self) -> bool
        ensures begun { result ≡ true
            → IsEntryAt self.now.pages.items (self.now.next / 64) (length self.now.pages.items - 1) }
        ensures ahead { result ≡ false → IsRising 0 (self.now.next / 64) self.now.pages.items }
    {
        is_last(&self.pages, self.next / KEYS)
    }

    // Adds an object to the last page.
    fn add(&mut self, object: Counted<T>) -> Result<(), AllocError>
        requires room { self.old.next + 1 < 2 ^ 64 }
        requires begun { IsEntryAt self.old.pages.items (self.old.next / 64)
            (length self.old.pages.items - 1) }
        ensures pushed { OnOk result (IsPushed self.old object self.new) }
        ensures kept { OnErr result (self.new.next ≡ self.old.next) }
        ensures unchanged { OnErr result (entries_of self.new ≡ entries_of self.old) }
    {
        let key = self.next;
        let last = self.pages.len() - 1;
        let was_blank = add_to(&mut self.pages[last].1, key, object)?;
        self.blank = fewer_if(self.blank, was_blank);
        self.next = key + 1;
        Ok(())
    }

    // Adds a page with an object.
    fn begin(&mut self, alloc: Global, object: Counted<T>) -> Result<(), AllocError>
        requires room { self.old.next + 1 < 2 ^ 64 }
        requires ahead { IsRising 0 (self.old.next / 64) self.old.pages.items }
        ensures pushed { OnOk result (IsPushed self.old object self.new) }
        ensures kept { OnErr result (self.new.next ≡ self.old.next) }
        ensures unchanged { OnErr result (entries_of self.new ≡ entries_of self.old) }
    {
        let key = self.next;
        let mut page = Vec::new(alloc);
        add_to(&mut page, key, object)?;
        self.pages.push((key / KEYS, page))?;
        self.next = key + 1;
        Ok(())
    }

    // Adds an object under the next key.
    fn add_next(&mut self, alloc: Global, object: Counted<T>) -> Result<(), AllocError>
        requires room { self.old.next + 1 < 2 ^ 64 }
        ensures pushed { OnOk result (IsPushed self.old object self.new) }
        ensures kept { OnErr result (self.new.next ≡ self.old.next) }
        ensures unchanged { OnErr result (entries_of self.new ≡ entries_of self.old) }
    {
        if self.is_begun() {
            return self.add(object);
        }
        self.begin(alloc, object)
    }

    /// Adds an object under the next key, and answers it.
    ///
    /// # Errors
    /// Want of memory, and then the objects stay as they are.
    pub(crate) fn push(&mut self, alloc: Global, object: Counted<T>) -> Result<u64, AllocError>
        requires room { self.old.next + 1 < 2 ^ 64 }
        ensures key { IfOk result (λ key. key ≡ self.old.next) }
        ensures next { OnOk result (self.new.next ≡ self.old.next + 1) }
        ensures counts { OnOk result (by_key (λ c. c.count) (entries_of self.new)
            ≡ map.insert (by_key (λ c. c.count) (entries_of self.old)) self.old.next
            object.count) }
        ensures values { OnOk result (by_key (λ c. c.value) (entries_of self.new)
            ≡ map.insert (by_key (λ c. c.value) (entries_of self.old)) self.old.next
            object.value) }
        ensures kept { OnErr result (self.new.next ≡ self.old.next) }
        ensures unchanged { OnErr result (entries_of self.new ≡ entries_of self.old) }
    {
        let key = self.next;
        self.add_next(alloc, object)?;
        self.leading = more_with(self.leading, key);
        Ok(key)
    }

    /// Takes the object of a live key out. It stands apart, so that what releases another reference than
    /// the last stays small.
    #[inline(never)]
    pub(crate) fn take_out(&mut self, key: u64)
        requires held { IsSome (lookup (is_at (nat_cmp key)) (entries_of self.old)) }
        ensures next { self.new.next ≡ self.old.next }
        ensures counts { by_key (λ c. c.count) (entries_of self.new)
            ≡ map.remove (by_key (λ c. c.count) (entries_of self.old)) key }
        ensures values { by_key (λ c. c.value) (entries_of self.new)
            ≡ map.remove (by_key (λ c. c.value) (entries_of self.old)) key }
    {
        let place = self.place(key);
        let is_open = key / KEYS == self.next / KEYS;
        let is_gone = remove_from(&mut self.pages[place.page].1, place.index, is_open);
        let blank = more_if(self.blank, is_gone);
        self.blank = thinned(&mut self.pages, blank);
        self.leading = least(self.leading, key);
    }
}

// How many keys lead, so many of those before this one, once an object has it.
fn more_with(leading: u64, key: u64) -> u64
    requires room { key + 1 < 2 ^ 64 }
    ensures exact { result ≡ cond (nat_eq leading key) (key + 1) leading }
{
    if leading == key { key + 1 } else { leading }
}

// How many keys lead, so many before, once none has this one.
fn least(leading: u64, key: u64) -> u64
    ensures among { result ≤ leading }
    ensures before { result ≤ key }
{
    if key < leading { key } else { leading }
}

// One more where it is so.
fn more_if(count: usize, is_so: bool) -> usize
    requires room { count + 1 < 2 ^ 64 }
    ensures exact { result ≡ count + cond is_so 1 0 }
{
    if is_so { count + 1 } else { count }
}

// One fewer where it is so.
fn fewer_if(count: usize, is_so: bool) -> usize
    requires some { cond is_so 1 0 ≤ count }
    ensures exact { result + cond is_so 1 0 ≡ count }
{
    if is_so { count - 1 } else { count }
}

// Takes the pages without objects out, so many are given, where they are more than half of all and one. Answers how
// many are left.
fn thinned<T: Drop>(pages: &mut Vec<(u64, Page<T>)>, blank: usize) -> usize
    requires counted { count_by is_blank pages.old.items ≡ blank }
    ensures counted { count_by is_blank pages.new.items ≡ result }
    ensures few { result ≤ vec_len pages.new / 2 + 1 }
    ensures thinned { IsThinned pages.old.items pages.new.items }
{
    if blank <= pages.len() / 2 + 1 {
        return blank;
    }
    take_blank_out(pages);
    0
}

// Takes the pages without objects out.
#[inline(never)]
fn take_blank_out<T: Drop>(pages: &mut Vec<(u64, Page<T>)>)
    ensures exact { pages.new.items ≡ filter (λ p. not (is_blank p)) pages.old.items }
{
    pages.retain(|page| !page.1.is_empty());
    give_back(pages);
}

// Whether the entry of a key stands at a place.
#[inline(always)]
fn stands_at<E>(entries: &[(u64, E)], index: usize, key: u64) -> bool
    ensures there { result ≡ true → IsEntryAt entries.now key index }
{
    if index >= entries.len() {
        return false;
    }
    entries[index].0 == key
}

// Whether the last entry is that of a key, which is none below those that are there.
fn is_last<E>(entries: &[(u64, E)], key: u64) -> bool
    requires rises { IsRising 0 (key + 1) entries.now }
    ensures there { result ≡ true → IsEntryAt entries.now key (length entries.now - 1) }
    ensures ahead { result ≡ false → IsRising 0 key entries.now }
{
    if entries.is_empty() {
        return false;
    }
    entries[entries.len() - 1].0 == key
}

// Where the entry of a key stands: in its own place where none before it is missing.
#[inline(always)]
fn index_of<E>(entries: &[(u64, E)], key: u64, own: usize) -> usize
    requires held { IsSome (lookup (is_at (nat_cmp key)) entries.now) }
    requires rises { (low : ℕ) × (high : ℕ) × IsRising low high entries.now }
    ensures there { IsEntryAt entries.now key result }
{
    if stands_at(entries, own, key) {
        return own;
    }
    index_apart(entries, key)
}

// The same elsewhere: most often it is the last.
#[inline(always)]
fn index_apart<E>(entries: &[(u64, E)], key: u64) -> usize
    requires held { IsSome (lookup (is_at (nat_cmp key)) entries.now) }
    requires rises { (low : ℕ) × (high : ℕ) × IsRising low high entries.now }
    ensures there { IsEntryAt entries.now key result }
{
    let last = entries.len() - 1;
    if stands_at(entries, last, key) {
        return last;
    }
    match search(entries, key) {
        Ok(index) => index,
        Err(_) => unreachable!(),
    }
}

// The same by halves, of any key.
fn search<E>(entries: &[(u64, E)], key: u64) -> Result<usize, usize>
    requires rises { (low : ℕ) × (high : ℕ) × IsRising low high entries.now }
    ensures found { IfOk result (IsEntryAt entries.now key) }
    ensures absent { IfErr result (λ i. lookup (is_at (nat_cmp key)) entries.now ≡ None) }
{
    entries.binary_search_by_key(&key, |entry| entry.0)
}

// Adds an object to its page, and tells whether it is the first there. A page that gets no more objects gives memory
// back.
fn add_to<T: Drop>(page: &mut Page<T>, key: u64, object: Counted<T>) -> Result<bool, AllocError>
    ensures added { OnOk result (page.new.items ≡ page.old.items ++ (key, object) ∷ []) }
    ensures was { IfOk result (λ was_blank. was_blank ≡ nat_eq (vec_len page.old) 0) }
    ensures unchanged { OnErr result (page.new.items ≡ page.old.items) }
{
    let was_blank = page.is_empty();
    page.push((key, object))?;
    if key % KEYS == KEYS - 1 {
        give_back(page);
    }
    Ok(was_blank)
}

// Takes an object out of its page, and tells whether none is left there. A page that gets no more objects gives memory
// back.
fn remove_from<T: Drop>(page: &mut Page<T>, index: usize, is_open: bool) -> bool
    requires within { index < vec_len page.old }
    ensures removed { page.new.items ≡ remove page.old.items index }
    ensures gone { result ≡ nat_eq (vec_len page.new) 0 }
{
    page.remove(index);
    if !is_open {
        give_back(page);
    }
    page.is_empty()
}

// Gives the memory of a list back where it has room for at least four times as many entries as it has.
fn give_back<E>(list: &mut Vec<E>)
    ensures same { list.new.items ≡ list.old.items }
    ensures len { vec_len list.new ≡ vec_len list.old }
{
    let live = list.len();
    if live <= list.capacity() / 4 {
        list.shrink_to(live);
    }
}
