//! The methods of a class, found by their slots.
ghost use Rattle.std.specs.Prelude.{◌≡◌, ◌++◌, ◌∷◌, [], ℕ, Some, MatchOption, IfOk, map as list_map};
ghost use Rattle.ang_vm_stack.specs.Slots.{RiseFrom, entry_of};
ghost use Rattle.ang_vm_stack.specs.Tables.{method_in};

use ang_meaning::Routine;
use std::alloc::{AllocError, Global};
use std::marker::Model;

/// A method of a class: the slot that calls name, and the function that stands in it.
#[derive(Clone, Copy)]
pub struct MethodEntry {
    /// The slot's number in its module.
    pub slot: usize,
    /// The function, the class's own or an inherited one.
    pub function: Routine,
}

/// A method in a third of the room: the module of its function is known.
#[derive(Clone, Copy)]
struct MethodRow {
    slot: u32,
    number: u32,
}

/// The methods of a class, at most one in a slot, and each found in a time that hardly grows with their number.
/// Contracts see them as a list.
#[derive(Drop)]
pub struct Methods {
    home: u32,
    rows: Vec<MethodRow>,
}

impl Model for Methods {
    ghost use Rattle.std.specs.Prelude.{List, map as list_map};
    ghost use Rattle.ang_vm_stack.specs.Slots.{RiseFrom, entry_of};
    ghost use Rattle.ang_vm_stack.specs.declared.methods.MethodEntry.{MethodEntry};

    ghost Value = { List MethodEntry };

    ghost view = { λ m. list_map (entry_of m.home) m.rows.items };

    ghost invariant = { λ m. RiseFrom 0 (list_map (entry_of m.home) m.rows.items) };
}

/// The row in the middle of a list, between those before it and those after it; none where the list is empty.
fn middle(rows: &[MethodRow]) -> Option<(&[MethodRow], &MethodRow, &[MethodRow])>
    ensures parts { MatchOption result (rows.now ≡ [])
        (λ parts. rows.now ≡ parts.0.now ++ parts.1.now ∷ parts.2.now) }
{
    let (before, rest) = rows.split_at(rows.len() / 2);
    let (row, after) = rest.split_first()?;
    Some((before, row, after))
}

/// The function of a method, made of its parts and not copied through memory.
#[inline(always)]
fn function_of(home: u32, row: &MethodRow) -> Routine
    ensures exact { result ≡ (entry_of home row.now).function }
{
    Routine {
        home,
        number: row.number as usize,
    }
}

/// The function in a slot, of methods whose slots rise.
#[inline(never)]
fn search(home: u32, rows: &[MethodRow], slot: usize) -> Option<Routine>
    requires rising { RiseFrom 0 (list_map (entry_of home) rows.now) }
    ensures exact { result ≡ method_in (list_map (entry_of home) rows.now) slot }
{
    let mut left = rows;
    while let Some((before, row, after)) = middle(left) {
        let own = row.slot as usize;
        if own == slot {
            return Some(function_of(home, row));
        }
        left = if own < slot { after } else { before };
    }
    None
}

/// The same, with a copy of what it answers, so that none of it stands in memory where no search is needed.
#[inline(always)]
fn search_apart(home: u32, rows: &[MethodRow], slot: usize) -> Option<Routine>
    requires rising { RiseFrom 0 (list_map (entry_of home) rows.now) }
    ensures exact { result ≡ method_in (list_map (entry_of home) rows.now) slot }
{
    match search(home, rows, slot) {
        Some(Routine { home, number }) => Some(Routine { home, number }),
        None => None,
    }
}

/// A method as a row, where its function is of this module and both numbers take 32 bits.
fn row_of(home: u32, entry: &MethodEntry) -> Option<MethodRow>
    ensures same { (row : MethodRow) → result ≡ Some row → entry_of home row ≡ entry.now }
{
    if entry.function.home != home {
        return None;
    }
    let slot = u32::try_from(entry.slot).ok()?;
    let number = u32::try_from(entry.function.number).ok()?;
    Some(MethodRow { slot, number })
}

/// Methods as rows.
fn rows_of(alloc: Global, home: u32, entries: &[MethodEntry]) -> Result<Vec<MethodRow>, AllocError>
    ensures same { IfOk result (λ rows. list_map (entry_of home) rows.items ≡ entries.now) }
{
    let mut rows = Vec::with_capacity(alloc, entries.len())?;
    for entry in entries {
        let row = row_of(home, entry).ok_or(AllocError)?;
        rows.push(row)?;
    }
    Ok(rows)
}

/// The module of the first method's function, and any where there is none.
fn home_of(entries: &[MethodEntry]) -> u32 {
    match entries.first() {
        Some(entry) => entry.function.home,
        None => 0,
    }
}

impl Methods {
    /// The methods of a list, of which the first one in a slot counts.
    ///
    /// # Errors
    /// Want of memory. Functions of two modules, and a number of more than 32 bits, are answered as that: no class that a
    /// module declares has them.
    pub fn new(all: Vec<MethodEntry>) -> Result<Methods, AllocError>
        ensures same { IfOk result (λ methods. (slot : ℕ) →
            method_in methods slot ≡ method_in all.items slot) }
    {
        let mut entries = all;
        entries.sort_by_key(|entry| entry.slot)?;
        entries.dedup_by_key(|entry| entry.slot);
        let home = home_of(entries.as_slice());
        let rows = rows_of(*entries.allocator(), home, entries.as_slice())?;
        Ok(Methods { home, rows })
    }

    /// The function in a slot, where there is one.
    ///
    /// Slots that were given out together stand together, so we look at the first place, then at the one where the
    /// slot stands if none between it and the first one is left out, and search for it last.
    #[inline(always)]
    pub fn find(&self, slot: usize) -> Option<Routine>
        ensures exact { result ≡ method_in self.now slot }
    {
        let rows = self.rows.as_slice();
        let first = rows.first()?;
        let least = first.slot as usize;
        if least == slot {
            return Some(function_of(self.home, first));
        }
        match rows.get(slot.wrapping_sub(least)) {
            Some(row) if row.slot as usize == slot => Some(function_of(self.home, row)),
            _ => search_apart(self.home, rows, slot),
        }
    }
}
