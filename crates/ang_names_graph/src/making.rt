//! Tables that are made row by row, each after those before it.
ghost use Rattle.std.specs.Prelude.{ℕ, Bool, ◌≡◌, ◌==◌, ◌||◌, ◌++◌, ◌*◌, ◌<◌, ◌≤◌, Some, None, find, if◌then◌else◌, false, length, slice_index_or, IfOk, OnOk};
ghost use Rattle.std.specs.List.{list_any, range_with_len};
ghost use Rattle.std.specs.Option.{option_or};
ghost use Rattle.ang_names_graph.specs.Graphs.{leads};
ghost use Rattle.ang_names_graph.specs.Tables.{Shows, edges_of};
ghost use Rattle.ang_names_graph.specs.Tables as tables;

use crate::close;
use crate::orders::{has_edge, targets_of, unmarked};
use std::alloc::{AllocError, Global};

/// Puts a row of `n` entries after those of a table, in which these places are marked.
///
/// The only error is want of memory.
pub fn push_row(table: &mut Vec<bool>, n: usize, places: &[usize]) -> Result<(), AllocError>
    ensures pushed { OnOk result (table.new.items
        ≡ table.old.items ++ tables.row_below (λ j. list_any (λ k. k == j) places.now) n) }
{
    for j in 0..n {
        table.push(places.contains(&j))?;
    }
    Ok(())
}

/// Puts a row after those of a table, with all marks that these places have in their rows of another table.
///
/// The only error is want of memory.
pub fn push_joined_row(
    table: &mut Vec<bool>,
    marks: &[bool],
    n: usize,
    places: &[usize],
) -> Result<(), AllocError>
    requires small { n ≤ 256 }
    requires size { length marks.now ≡ n * n }
    ensures pushed { OnOk result (table.new.items
        ≡ table.old.items ++ tables.row_below (tables.is_reached marks.now n places.now) n) }
{
    let row = joined_rows(*table.allocator(), marks, n, places)?;
    table.extend_from_slice(&row)?;
    Ok(())
}

/// A row with all marks that these places have in their rows of a table.
pub(crate) fn joined_rows(
    alloc: Global,
    marks: &[bool],
    n: usize,
    places: &[usize],
) -> Result<Vec<bool>, AllocError>
    requires small { n ≤ 256 }
    requires size { length marks.now ≡ n * n }
    ensures size { IfOk result (λ row. length row.items ≡ n) }
    ensures exact { IfOk result (λ row. row.items
        ≡ tables.row_below (tables.is_reached marks.now n places.now) n) }
{
    let mut row = unmarked(alloc, n)?;
    for place in places {
        join_row(&mut row, marks, n, *place);
    }
    Ok(row)
}

/// Puts the marks that a place has in its row of a table into a row.
fn join_row(row: &mut [bool], marks: &[bool], n: usize, place: usize)
    requires small { n ≤ 256 }
    requires marks { length marks.now ≡ n * n }
    requires row { length row.old ≡ n }
    ensures size { length row.new ≡ n }
    ensures joined { (j : ℕ) → j < n → slice_index_or row.new j false
        ≡ (slice_index_or row.old j false || edges_of marks.now n place j) }
{
    for j in 0..n {
        row[j] = row[j] | has_edge(marks, n, place, j);
    }
}

/// Puts a row after those of a table, with the marks of row `i` of another one, and with what leads to one of those by a
/// table that `close` has closed.
///
/// The only error is want of memory.
pub fn push_spread_row(
    table: &mut Vec<bool>,
    marks: &[bool],
    closed: &[bool],
    n: usize,
    i: usize,
) -> Result<(), AllocError>
    requires small { n ≤ 256 }
    requires marks { length marks.now ≡ n * n }
    requires closed { length closed.now ≡ n * n }
    ensures pushed { OnOk result (table.new.items
        ≡ table.old.items ++ tables.row_below (tables.is_spread marks.now closed.now n i) n) }
{
    let marked = targets_of(*table.allocator(), marks, n, i)?;
    for j in 0..n {
        table.push(leads_to_some(closed, n, j, &marked))?;
    }
    Ok(())
}

/// Whether place `j` is one of these places, or leads to one of them.
fn leads_to_some(closed: &[bool], n: usize, j: usize, places: &[usize]) -> bool
    requires small { n ≤ 256 }
    requires closed { length closed.now ≡ n * n }
    ensures exact { result ≡ list_any (λ d. j == d || edges_of closed.now n j d) places.now }
{
    places.iter().any(|d| is_or_leads(closed, n, j, *d))
}

/// Whether place `j` is place `d`, or leads to it.
fn is_or_leads(closed: &[bool], n: usize, j: usize, d: usize) -> bool
    requires small { n ≤ 256 }
    requires closed { length closed.now ≡ n * n }
    ensures exact { result ≡ (j == d || edges_of closed.now n j d) }
{
    j == d || has_edge(closed, n, j, d)
}

/// A copy of a table that is closed: where the table shows some edges, the copy shows what leads to what by them.
///
/// The only error is want of memory.
pub fn closed(alloc: Global, table: &[bool], n: usize) -> Result<Vec<bool>, AllocError>
    requires small { n ≤ 256 }
    requires size { length table.now ≡ n * n }
    ensures exact { (e : ℕ → ℕ → Bool) → Shows table.now n e →
        IfOk result (λ t. Shows t.items n (leads e n)) }
{
    let mut copy = Vec::from_slice(alloc, table)?;
    close_all(&mut copy, n);
    Ok(copy)
}

fn close_all(table: &mut Vec<bool>, n: usize)
    requires small { n ≤ 256 }
    requires size { length table.old.items ≡ n * n }
    ensures exact { Shows table.new.items n (leads (edges_of table.old.items n) n) }
{
    close(table.as_mut_slice(), n);
}

/// The first place that an edge leads to from place `i`. It takes no memory.
pub fn first_of(edges: &[bool], n: usize, i: usize) -> Option<usize>
    requires small { n ≤ 256 }
    requires there { i < n }
    requires size { length edges.now ≡ n * n }
    ensures exact { (e : ℕ → ℕ → Bool) → Shows edges.now n e →
        result ≡ find (e i) (range_with_len 0 n) }
{
    let mut first = None;
    for j in 0..n {
        first = first_with(first, has_edge(edges, n, i, j), j);
    }
    first
}

fn first_with(first: Option<usize>, is_edge: bool, j: usize) -> Option<usize>
    ensures exact { result ≡ option_or first (if is_edge then Some j else None) }
{
    match first {
        Some(place) => Some(place),
        None => { if is_edge { Some(j) } else { None } }
    }
}
