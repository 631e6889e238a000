//! What stands above a place, as lists of numbers.
ghost use Rattle.std.specs.Prelude.{ℕ, Bool, false, ◌≡◌, ◌*◌, ◌++◌, ◌<◌, ◌≤◌, ◌||◌, drop, length, replicate, IfOk, IfSome, OnOk, slice_index_or};
ghost use Rattle.ang_names_graph.specs.Graphs as spec;
ghost use Rattle.ang_names_graph.specs.Graphs.{leads, numbers_below};
ghost use Rattle.ang_names_graph.specs.Tables.{Shows, edges_of, is_next};
ghost use Rattle.ang_names_graph.specs.Tables as tables;

use crate::making::joined_rows;
use crate::marked::push_marked;
use std::alloc::{AllocError, Global};

/// All places that place `i` leads to, rising, by a table that `close` has closed.
///
/// The only error is want of memory.
pub fn above_of(
    alloc: Global,
    closed: &[bool],
    n: usize,
    i: usize,
) -> Result<Vec<usize>, AllocError>
    requires small { n ≤ 256 }
    requires there { i < n }
    requires size { length closed.now ≡ n * n }
    ensures exact { (e : ℕ → ℕ → Bool) → Shows closed.now n (leads e n) →
        IfOk result (λ places. places.items ≡ spec.above e n i) }
{
    targets_of(alloc, closed, n, i)
}

/// The places that an edge leads to from place `i`, rising.
pub(crate) fn targets_of(
    alloc: Global,
    edges: &[bool],
    n: usize,
    i: usize,
) -> Result<Vec<usize>, AllocError>
    requires small { n ≤ 256 }
    requires size { length edges.now ≡ n * n }
    ensures exact { IfOk result (λ places. places.items
        ≡ numbers_below (edges_of edges.now n i) n) }
{
    let mut places = Vec::new(alloc);
    for j in 0..n {
        if has_edge(edges, n, i, j) {
            places.push(j)?;
        }
    }
    Ok(places)
}

/// To how many places place `i` leads, by a table that `close` has closed. It takes no memory.
pub fn reach_of(closed: &[bool], n: usize, i: usize) -> usize
    requires small { n ≤ 256 }
    requires there { i < n }
    requires size { length closed.now ≡ n * n }
    ensures exact { (e : ℕ → ℕ → Bool) → Shows closed.now n (leads e n) →
        result ≡ spec.reach_of e n i }
    ensures most { result ≤ n }
{
    let mut count = 0;
    for j in 0..n {
        if has_edge(closed, n, i, j) {
            count += 1;
        }
    }
    count
}

/// Place `i` and all that stands above it, the nearest first, of equally near ones the lowest number first, by the
/// table of edges. It goes up ring by ring, as far as there are any, and so looks at each edge once.
///
/// The only error is want of memory.
pub fn order_of(alloc: Global, edges: &[bool], n: usize, i: usize) -> Result<Vec<usize>, AllocError>
    requires small { n ≤ 256 }
    requires there { i < n }
    requires size { length edges.now ≡ n * n }
    ensures exact { (e : ℕ → ℕ → Bool) → Shows edges.now n e →
        IfOk result (λ places. places.items ≡ spec.order_of e n i) }
{
    let mut near = unmarked(alloc, n)?;
    near[i] = true;
    let mut places = Vec::new(alloc);
    places.push(i)?;
    let mut first = 0;
    for _distance in 0..n {
        let end = places.len();
        if first == end {
            return Ok(places);
        }
        push_ring(edges, n, &mut near, &mut places, first)?;
        first = end;
    }
    Ok(places)
}

pub(crate) fn unmarked(alloc: Global, n: usize) -> Result<Vec<bool>, AllocError>
    ensures exact { IfOk result (λ marks. marks.items ≡ replicate n false) }
{
    vec![in alloc; false; n]
}

/// Puts the places in at the end that an edge from the last ring leads to and that were not reached before, rising, and marks
/// them. The last ring begins at place `first` of those that are there, and the rows of the ring alone are looked through.
fn push_ring(
    edges: &[bool],
    n: usize,
    near: &mut [bool],
    places: &mut Vec<usize>,
    first: usize,
) -> Result<(), AllocError>
    requires small { n ≤ 256 }
    requires size { length edges.now ≡ n * n }
    requires marks { length near.old ≡ n }
    requires first { first ≤ length places.old.items }
    ensures size { length near.new ≡ n }
    ensures pushed { OnOk result (places.new.items ≡ places.old.items
        ++ numbers_below (is_next edges.now n near.old (drop first places.old.items)) n) }
    ensures marked { OnOk result ((j : ℕ) → j < n → slice_index_or near.new j false
        ≡ (slice_index_or near.old j false
        || tables.is_reached edges.now n (drop first places.old.items) j)) }
{
    let ring = &places.as_slice()[first..];
    if let Some(row) = only_row(edges, n, ring) {
        return push_marked(row, near, places);
    }
    let row = joined_rows(*places.allocator(), edges, n, ring)?;
    push_marked(row.as_slice(), near, places)
}

/// The row of a place that is alone in its ring.
fn only_row<'a>(edges: &'a [bool], n: usize, ring: &[usize]) -> Option<&'a [bool]>
    requires small { n ≤ 256 }
    requires size { length edges.now ≡ n * n }
    ensures size { IfSome result (λ row. length row.now ≡ n) }
    ensures exact { IfSome result (λ row. (j : ℕ) → j < n →
        slice_index_or row.now j false ≡ tables.is_reached edges.now n ring.now j) }
{
    let [place] = ring else {
        return None;
    };
    row_at(edges, n, *place)
}

/// The row of a place.
fn row_at(edges: &[bool], n: usize, i: usize) -> Option<&[bool]>
    requires small { n ≤ 256 }
    requires size { length edges.now ≡ n * n }
    ensures size { IfSome result (λ row. length row.now ≡ n) }
    ensures exact { IfSome result (λ row. (j : ℕ) → j < n →
        slice_index_or row.now j false ≡ edges_of edges.now n i j) }
{
    if i >= n {
        return None;
    }
    let after = &edges[i * n..];
    Some(&after[..n])
}

/// Whether an edge leads from `i` to `j`, by a table of `n` rows. It takes no memory.
pub fn has_edge(edges: &[bool], n: usize, i: usize, j: usize) -> bool
    requires small { n ≤ 256 }
    requires size { length edges.now ≡ n * n }
    ensures exact { result ≡ edges_of edges.now n i j }
{
    i < n && j < n && edges[i * n + j]
}

/// All but the first of some places. It takes no memory.
pub fn after_first(places: &[usize]) -> &[usize]
    ensures exact { result.now ≡ drop 1 places.now }
{
    places.get(1..).unwrap_or(&[])
}
