//! Items by name, one more at a time.
ghost use Rattle.std.specs.Prelude.{◌≡◌, ◌<◌, ◌++◌, ◌∷◌, [], length, None, IfNone, IfOk, IfSome, OnErr, OnOk};
ghost use Rattle.std.specs.List.{remove};
ghost use Rattle.ang_index.specs.Rows as spec;

use crate::key::{Asked, Key, key_of};
use indexmap::IndexMap;
use std::alloc::{AllocError, Global};
use std::marker::Model;

/// The items under one name. Contracts see the list of them.
#[derive(Drop)]
struct Row<T> {
    items: Vec<T>,
}

impl<T> Model for Row<T> {
    ghost use Rattle.std.specs.Prelude.{List};

    ghost Value = { List T };

    ghost view = { λ r. r.items.items };
}

impl<T: Drop> Row<T> {
    fn items(&self) -> &[T]
        ensures same { result.now ≡ self.now }
    {
        self.items.as_slice()
    }

    fn push(&mut self, item: T) -> Result<(), AllocError>
        ensures pushed { OnOk result (self.new ≡ self.old ++ item ∷ []) }
        ensures unchanged { OnErr result (self.new ≡ self.old) }
    {
        self.items.push(item)?;
        Ok(())
    }

    fn remove(&mut self, place: usize)
        requires within { place < length self.old }
        ensures removed { self.new ≡ remove self.old place }
    {
        self.items.remove(place);
    }

    fn pop(&mut self) -> Option<T>
        ensures popped { IfSome result (λ x. self.old ≡ self.new ++ x ∷ []) }
        ensures none { IfNone result (self.old ≡ []) }
        ensures unchanged { IfNone result (self.new ≡ self.old) }
    {
        self.items.pop()
    }
}

/// A row of one item.
fn row_of<T: Drop>(alloc: Global, item: T) -> Result<Row<T>, AllocError>
    ensures exact { IfOk result (λ row. row ≡ item ∷ []) }
{
    let mut items = Vec::new(alloc);
    items.push(item)?;
    Ok(Row { items })
}

/// Items by a scope's number and a name. Contracts see the rows: what stands under each two, in the order in which it was
/// put in.
#[derive(Drop)]
pub struct Index<T> {
    rows: IndexMap<Key, Row<T>>,
}

impl<T> Model for Index<T> {
    ghost use Rattle.ang_index.specs.Rows.{Rows, rows_of};

    ghost Value = { Rows T };

    ghost view = { λ x. rows_of x.rows.entries };
}

/// Puts a row of one item at the end, where there is none of its name.
#[tactic(auto, using(crate::proofs::Rows::absent_puts))]
fn put_row<T: Drop>(
    alloc: Global,
    rows: &mut IndexMap<Key, Row<T>>,
    scope: u64,
    name: &[u8],
    item: T,
) -> Result<(), AllocError>
    requires absent { spec.lookup_asked scope name.now rows.old.entries ≡ None }
    ensures pushed { OnOk result (spec.Puts (spec.rows_of rows.old.entries)
        (spec.rows_of rows.new.entries) scope name.now item) }
    ensures unchanged { OnErr result (rows.new.entries ≡ rows.old.entries) }
{
    let key = key_of(alloc, scope, name)?;
    let row = row_of(alloc, item)?;
    rows.insert(key, row)?;
    Ok(())
}

/// Puts an item at the end of the row of its name, which is made where there is none.
fn put<T: Drop>(
    alloc: Global,
    rows: &mut IndexMap<Key, Row<T>>,
    scope: u64,
    name: &[u8],
    item: T,
) -> Result<(), AllocError>
    ensures pushed { OnOk result (spec.Puts (spec.rows_of rows.old.entries)
        (spec.rows_of rows.new.entries) scope name.now item) }
    ensures unchanged { OnErr result (rows.new.entries ≡ rows.old.entries) }
{
    if let Some(row) = rows.get_mut(Asked { scope, name }) {
        return row.push(item);
    }
    put_row(alloc, rows, scope, name, item)
}

/// Takes the last item of the row of its name. The row stays where it was its only one.
fn take<T: Drop>(rows: &mut IndexMap<Key, Row<T>>, scope: u64, name: &[u8]) -> Option<T>
    ensures popped { IfSome result (λ x. spec.Puts (spec.rows_of rows.new.entries)
        (spec.rows_of rows.old.entries) scope name.now x) }
    ensures none { IfNone result
        (spec.items_at scope name.now (spec.rows_of rows.old.entries) ≡ []) }
    ensures unchanged { IfNone result (rows.new.entries ≡ rows.old.entries) }
{
    if let Some(row) = rows.get_mut(Asked { scope, name }) {
        return row.pop();
    }
    None
}

/// Takes the item of a place out of the row of its name.
fn take_at<T: Drop>(rows: &mut IndexMap<Key, Row<T>>, scope: u64, name: &[u8], place: usize)
    requires there { place
        < length (spec.items_at scope name.now (spec.rows_of rows.old.entries)) }
    ensures removed { spec.Changes (spec.rows_of rows.old.entries)
        (spec.rows_of rows.new.entries) scope name.now (λ row. remove row place) }
{
    let Some(row) = rows.get_mut(Asked { scope, name }) else {
        unreachable!();
    };
    row.remove(place);
}

impl<T: Drop> Index<T> {
    ghost use Rattle.std.specs.Prelude.{◌≡◌, ◌<◌, [], length, IfNone, IfSome, OnErr, OnOk};
    ghost use Rattle.std.specs.List.{remove};
    ghost use Rattle.ang_index.specs.Rows.{Changes, Puts, items_at};

    /// Nothing is put in yet. It takes no memory.
    pub fn new(alloc: Global) -> Index<T>
        ensures none { result ≡ [] }
    {
        Index {
            rows: IndexMap::new(alloc),
        }
    }

    /// Puts an item in under a scope's number and a name, after all that stand there. After want of memory all is as before.
    ///
    /// The only error is want of memory.
    pub fn push(
        &mut self,
        alloc: Global,
        scope: u64,
        name: &[u8],
        item: T,
    ) -> Result<(), AllocError>
        ensures pushed { OnOk result (Puts self.old self.new scope name.now item) }
        ensures unchanged { OnErr result (self.new ≡ self.old) }
    {
        put(alloc, &mut self.rows, scope, name, item)
    }

    /// Takes the last item under a scope's number and a name: put in again, it gives what was there. It takes no memory,
    /// and its time is that of one look-up.
    pub fn pop(&mut self, scope: u64, name: &[u8]) -> Option<T>
        ensures popped { IfSome result (λ x. Puts self.new self.old scope name.now x) }
        ensures none { IfNone result (items_at scope name.now self.old ≡ []) }
        ensures unchanged { IfNone result (self.new ≡ self.old) }
    {
        take(&mut self.rows, scope, name)
    }

    /// Takes the item of a place out of those under a scope's number and a name: all others stay, in their order. It takes no
    /// memory, and its time is that of one look-up and of moving those after it.
    pub fn remove(&mut self, scope: u64, name: &[u8], place: usize)
        requires there { place < length (items_at scope name.now self.old) }
        ensures removed { Changes self.old self.new scope name.now (λ row. remove row place) }
    {
        take_at(&mut self.rows, scope, name, place);
    }

    /// The items under a scope's number and a name, in the order in which they were put in. It takes no memory.
    #[tactic(auto, using(crate::proofs::Rows::none_there, crate::proofs::Rows::row_there))]
    pub fn find(&self, scope: u64, name: &[u8]) -> &[T]
        ensures exact { result.now ≡ items_at scope name.now self.now }
    {
        match self.rows.get(Asked { scope, name }) {
            None => &[],
            Some(row) => row.items(),
        }
    }
}
